//! Texts in which blanks may stand (FHIR R4, Data Types, code, base64Binary).

ghost use Rattle.std.specs.Prelude.{◌≡◌};
ghost use Rattle.std.specs.List.{list_all, list_any, slice_split};
ghost use Rattle.fhir_json.specs.Bytes.{is_blank};
ghost use Rattle.fhir_prims.specs.Bytes.{is_base64_byte};
ghost use Rattle.fhir_prims.specs.Blanks.{is_word, is_code, are_fours, is_base64};

use crate::bytes::{is_base64_byte, is_blank};

fn is_word(text: &[u8]) -> bool
    ensures { result ≡ is_word text.now }
{
    !text.is_empty()
}

fn are_words(text: &[u8]) -> bool
    ensures { result ≡ list_all is_word (slice_split is_blank text.now) }
{
    text.split(|byte| is_blank(*byte)).all(|word| is_word(word))
}

pub(crate) fn is_code(text: &str) -> bool
    ensures { result ≡ is_code text.now }
{
    are_words(text.as_bytes())
}

fn are_base64_bytes(text: &[u8]) -> bool
    ensures { result ≡ list_all is_base64_byte text.now }
{
    text.iter().all(|byte| is_base64_byte(*byte))
}

fn are_fours(text: &[u8]) -> bool
    ensures { result ≡ are_fours text.now }
{
    text.len() % 4 == 0 && are_base64_bytes(text)
}

fn are_groups(text: &[u8]) -> bool
    ensures { result ≡ list_all are_fours (slice_split is_blank text.now) }
{
    text.split(|byte| is_blank(*byte))
        .all(|group| are_fours(group))
}

fn has_base64(text: &[u8]) -> bool
    ensures { result ≡ list_any is_base64_byte text.now }
{
    text.iter().any(|byte| is_base64_byte(*byte))
}

pub(crate) fn is_base64(text: &str) -> bool
    ensures { result ≡ is_base64 text.now }
{
    has_base64(text.as_bytes()) && are_groups(text.as_bytes())
}
