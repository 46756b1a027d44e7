//! The numbers that literals write.

ghost use Rattle.std.specs.Prelude.{◌≡◌, drop, take};
ghost use Rattle.std.specs.List.{prefix_len};
ghost use Rattle.std.specs.Char.{is_ascii_digit};
ghost use Rattle.fhir_decimal.specs.Value.{value_of};
ghost use Rattle.fhir_decimal.specs.Views.{parts_seen};
ghost use Rattle.fhir_fp_eval.specs.Literals.{literal_value};
ghost use Rattle.fhir_fp_values.specs.Values.{number};
ghost use Rattle.fhir_fp_values.specs.Views.{plain_of};

use fhir_decimal::{Decimal, Number};
use fhir_fp_values::Value;

fn cut_digits(text: &[u8]) -> (&[u8], &[u8])
    ensures digits { result.0.now ≡ take (prefix_len is_ascii_digit text.now) text.now }
    ensures rest { result.1.now ≡ drop (prefix_len is_ascii_digit text.now) text.now }
{
    let mut count = 0;
    while count < text.len() && text[count].is_ascii_digit() {
        count += 1;
    }
    text.split_at(count)
}

fn behind_first(text: &[u8]) -> &[u8]
    ensures { result.now ≡ drop 1 text.now }
{
    match text {
        [_, rest @ ..] => rest,
        [] => text,
    }
}

fn literal(text: &str) -> Decimal<'_>
    ensures { value_of (parts_seen result) ≡ literal_value text.now }
{
    let (whole, rest) = cut_digits(text.as_bytes());
    Decimal::of_digits(whole, behind_first(rest))
}

/// The number that a literal writes.
pub(crate) fn number_of<'e, 'a, 'j>(text: &'e str) -> Value<'e, 'a, 'j>
    ensures { plain_of result ≡ number (literal_value text.now) }
{
    Value::Number(Number::Written(literal(text)))
}
