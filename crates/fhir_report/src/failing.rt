//! What is printed of a pair that fails a rule.

ghost use Rattle.std.specs.Prelude.{◌≡◌, ◌++◌, IfOk, codes, string_bytes};
ghost use Rattle.fhir_cert_check.specs.Texts.{pair_text};

use fhir_cert_check::pair_text;
use fhir_certificate::Pair;
use fhir_schema::Schema;
use std::alloc::{AllocError, Global};

/// A pair that fails, with words on the rule.
pub fn no_text(
    alloc: Global,
    schema: &Schema,
    pair: Pair,
    words: &str,
) -> Result<String, AllocError>
    ensures { IfOk result (λ text. string_bytes text ≡ codes "no: " ++ pair_text schema.now pair ++ codes ": " ++ words.now) }
{
    let pair = pair_text(alloc, schema, pair)?;
    let mut text = String::from_str(alloc, "no: ")?;
    text.push_str(pair.as_str())?;
    text.push_str(": ")?;
    text.push_str(words)?;
    Ok(text)
}
