//! Fields that are integers (FHIR R4, Data Types, integer).

ghost use Rattle.std.specs.Option.{option_and_then};
ghost use Rattle.std.specs.Prelude.{◌≡◌, ◌<◌, ◌^◌};
ghost use Rattle.fhir_elements.specs.Integers.{negative_of, below_zero, integer_of, as_integer};
ghost use Rattle.fhir_json.specs.Fields.{field, allows};
ghost use Rattle.fhir_json.specs.Views.{tree_of};

use fhir_json::{Json, count_of};

fn negative_of(count: u32) -> Option<i32>
    requires { count < 2 ^ 31 }
    ensures { result ≡ negative_of count }
{
    if count == 0 {
        return None;
    }
    Some(-(count as i32))
}

fn below_zero(digits: &str) -> Option<i32>
    ensures { result ≡ below_zero digits.now }
{
    if digits == "2147483648" {
        return Some(i32::MIN);
    }
    match count_of(digits) {
        Some(count) => negative_of(count),
        None => None,
    }
}

fn integer_of(text: &str) -> Option<i32>
    ensures { result ≡ integer_of text.now }
{
    if let Some(digits) = text.strip_prefix('-') {
        return below_zero(digits);
    }
    match count_of(text) {
        Some(count) => Some(count as i32),
        None => None,
    }
}

/// The integer that a tree is.
pub(crate) fn as_integer(json: &Json<'_>) -> Option<i32>
    ensures { result ≡ as_integer (tree_of json.now) }
{
    json.as_number().and_then(|text| integer_of(text))
}

/// The integer in a field.
pub(crate) fn integer_in(json: &Json<'_>, name: &str) -> Option<i32>
    ensures { result ≡ option_and_then as_integer (field name.now (tree_of json.now)) }
{
    json.field(name).and_then(|value| as_integer(value))
}

/// Whether a field is absent or an integer.
pub(crate) fn allows_integer(json: &Json<'_>, name: &str) -> bool
    ensures { result ≡ allows as_integer name.now (tree_of json.now) }
{
    json.field(name)
        .is_none_or(|value| as_integer(value).is_some())
}
