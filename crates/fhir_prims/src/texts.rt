//! The texts of string, markdown, xhtml, uri, url and canonical (FHIR R4, Data Types).

ghost use Rattle.std.specs.Prelude.{◌≡◌, not, length};
ghost use Rattle.std.specs.List.{list_all};
ghost use Rattle.std.specs.Str.{chars};
ghost use Rattle.fhir_json.specs.Bytes.{is_blank};
ghost use Rattle.fhir_prims.specs.Bytes.{is_text_byte};
ghost use Rattle.fhir_prims.specs.Texts.{is_string, is_uri, is_xhtml};

use crate::bytes::{is_blank, is_text_byte};

fn characters(text: &str) -> usize
    ensures { result ≡ length (chars text.now) }
{
    text.chars().count()
}

fn is_all_text(text: &[u8]) -> bool
    ensures { result ≡ list_all is_text_byte text.now }
{
    text.iter().all(|byte| is_text_byte(*byte))
}

pub(crate) fn is_string(text: &str) -> bool
    ensures { result ≡ is_string text.now }
{
    !text.is_empty() && is_all_text(text.as_bytes()) && characters(text) <= 1_048_576
}

pub(crate) fn is_xhtml(text: &str) -> bool
    ensures { result ≡ is_xhtml text.now }
{
    !text.is_empty()
}

fn has_no_blank(text: &[u8]) -> bool
    ensures { result ≡ list_all (λ b. not (is_blank b)) text.now }
{
    text.iter().all(|byte| !is_blank(*byte))
}

/// Whether a text is a value of uri, url and canonical: one character or more, none of them a blank (FHIR R4, Data
/// Types, uri: `\S*`, but no value is empty).
pub fn is_uri(text: &str) -> bool
    ensures { result ≡ is_uri text.now }
{
    !text.is_empty() && has_no_blank(text.as_bytes())
}
