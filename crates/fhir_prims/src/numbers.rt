//! The texts of numbers (FHIR R4, Data Types, integer, unsignedInt, positiveInt, decimal).

ghost use Rattle.std.specs.Prelude.{◌≡◌};
ghost use Rattle.fhir_prims.specs.Numbers.{are_digits_to, is_positive_to, is_zero, is_negative_to, is_positive_int, is_unsigned_int, is_integer, is_decimal};

use crate::shapes::{byte_at, cut_at};
use fhir_decimal::Decimal;

// Whether a text is of digits alone, whose number is at most `most`.
fn are_digits_to(most: u32, digits: &[u8]) -> bool
    ensures { result ≡ are_digits_to most digits.now }
{
    let mut number: u64 = 0;
    for digit in digits {
        let digit = *digit;
        if !digit.is_ascii_digit() {
            return false;
        }
        number = 10 * number + u64::from(digit - b'0');
        if number > most as u64 {
            return false;
        }
    }
    true
}

fn is_positive_to(most: u32, text: &[u8]) -> bool
    ensures { result ≡ is_positive_to most text.now }
{
    byte_at(text, 0) > b'0' && are_digits_to(most, text)
}

fn is_zero(text: &[u8]) -> bool
    ensures { result ≡ is_zero text.now }
{
    text.len() == 1 && byte_at(text, 0) == b'0'
}

fn is_negative_to(most: u32, text: &[u8]) -> bool
    ensures { result ≡ is_negative_to most text.now }
{
    byte_at(text, 0) == b'-' && is_positive_to(most, cut_at(text, 1).1)
}

pub(crate) fn is_positive_int(text: &str) -> bool
    ensures { result ≡ is_positive_int text.now }
{
    is_positive_to(2_147_483_647, text.as_bytes())
}

pub(crate) fn is_unsigned_int(text: &str) -> bool
    ensures { result ≡ is_unsigned_int text.now }
{
    is_zero(text.as_bytes()) || is_positive_to(2_147_483_647, text.as_bytes())
}

pub(crate) fn is_integer(text: &str) -> bool
    ensures { result ≡ is_integer text.now }
{
    let bytes = text.as_bytes();
    is_zero(bytes) || is_positive_to(2_147_483_647, bytes) || is_negative_to(2_147_483_648, bytes)
}

pub(crate) fn is_decimal(text: &str) -> bool
    ensures { result ≡ is_decimal text.now }
{
    Decimal::of(text).is_some()
}
