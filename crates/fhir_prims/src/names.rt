//! The texts of oid and uuid (FHIR R4, Data Types).

ghost use Rattle.std.specs.Prelude.{◌≡◌};
ghost use Rattle.fhir_prims.specs.Names.{is_arc, are_arcs, is_oid, is_uuid};

use crate::bytes::are_digits;
use crate::shapes::{byte_at, cut_at, digit_at, has_shape};

fn is_arc(text: &[u8]) -> bool
    ensures { result ≡ is_arc text.now }
{
    are_digits(text) && (text.len() == 1 || byte_at(text, 0) != b'0')
}

fn are_arcs(text: &[u8]) -> bool
    ensures { result ≡ are_arcs text.now }
{
    text.split(|byte| *byte == b'.').all(|arc| is_arc(arc))
}

pub(crate) fn is_oid(text: &str) -> bool
    ensures { result ≡ is_oid text.now }
{
    let bytes = text.as_bytes();
    let (root, arcs) = cut_at(bytes, 10);
    has_shape("urn:oid:0.", root) && digit_at(bytes, 8) <= 2 && are_arcs(arcs)
}

pub(crate) fn is_uuid(text: &str) -> bool
    ensures { result ≡ is_uuid text.now }
{
    has_shape(
        "urn:uuid:hhhhhhhh-hhhh-hhhh-hhhh-hhhhhhhhhhhh",
        text.as_bytes(),
    )
}
