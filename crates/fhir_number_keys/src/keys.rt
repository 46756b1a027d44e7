//! The keys of numbers.

ghost use Rattle.std.specs.Prelude.{◌≡◌, ◌+◌, ◌*◌, ◌≤◌, ◌++◌, codes, string_bytes, OnOk, if◌then◌else◌};
ghost use Rattle.fhir_decimal.specs.Numbers.{number_seen};
ghost use Rattle.fhir_decimal.specs.Value.{integer_of, number_of, value_of};
ghost use Rattle.fhir_decimal.specs.Views.{parts_seen};
ghost use Rattle.fhir_decimal.specs.Whole.{count as count_value};
ghost use Rattle.fhir_number_keys.specs.Digits.{digits_of, written};
ghost use Rattle.fhir_number_keys.specs.Keys.{far, sign_of, exponent_key, key_with, key_of};

use crate::digits::{FAR, digits_of_sum, near_number, push_digits, zeros_in};
use fhir_decimal::{Decimal, Number};
use std::alloc::{AllocError, Global};

// Puts a sign and the digits of a text's number, with another added to it, behind the key.
fn push_signed(
    alloc: Global,
    key: &mut String,
    sign: &str,
    text: &[u8],
    addend: u128,
) -> Result<(), AllocError>
    requires { addend ≤ 4 * far }
    ensures { OnOk result (string_bytes key.new ≡ string_bytes key.old
        ++ (sign.now ++ written (digits_of (number_of text.now + addend)))) }
{
    let digits = digits_of_sum(alloc, Default::default(), text, addend)?;
    key.push_str(sign)?;
    push_digits(key, &digits)
}

// Puts the exponent of a mantissa with so many zeros at its end behind the key.
fn push_exponent(
    alloc: Global,
    key: &mut String,
    zeros: usize,
    decimal: &Decimal<'_>,
) -> Result<(), AllocError>
    ensures { OnOk result (string_bytes key.new ≡ string_bytes key.old ++ exponent_key far
        (zeros + (value_of (parts_seen decimal.now)).up) (value_of (parts_seen decimal.now)).down) }
{
    let places = decimal.fraction.len() as u128;
    let level = FAR + zeros as u128 - places;
    if !decimal.lowers {
        return push_signed(alloc, key, "+", decimal.exponent, level);
    }
    let exponent = near_number(decimal.exponent);
    if exponent <= level {
        push_signed(alloc, key, "+", Default::default(), level - exponent)
    } else {
        push_signed(
            alloc,
            key,
            "-",
            decimal.exponent,
            FAR + places - zeros as u128,
        )
    }
}

fn sign_of(negative: bool) -> &'static str
    ensures { result.now ≡ (if negative then codes "-" else codes "+") }
{
    if negative { "-" } else { "+" }
}

// Puts the key of a mantissa's sign and digits, the lowest first, and of a decimal's exponent behind the others.
fn push_key(
    alloc: Global,
    key: &mut String,
    digits: &[u8],
    decimal: &Decimal<'_>,
) -> Result<(), AllocError>
    ensures { OnOk result (string_bytes key.new ≡ string_bytes key.old ++ key_with far
        (if decimal.now.negative then codes "-" else codes "+") digits.now
        (value_of (parts_seen decimal.now)).up (value_of (parts_seen decimal.now)).down) }
{
    if digits.is_empty() {
        return key.push_str("0");
    }
    let zeros = zeros_in(digits);
    key.push_str(sign_of(decimal.negative))?;
    push_digits(key, &digits[zeros..])?;
    push_exponent(alloc, key, zeros, decimal)
}

fn push_decimal(alloc: Global, key: &mut String, decimal: &Decimal<'_>) -> Result<(), AllocError>
    ensures { OnOk result (string_bytes key.new
        ≡ string_bytes key.old ++ key_of (value_of (parts_seen decimal.now))) }
{
    let digits = digits_of_sum(alloc, decimal.whole, decimal.fraction, 0)?;
    push_key(alloc, key, &digits, decimal)
}

fn push_count(alloc: Global, key: &mut String, count: usize) -> Result<(), AllocError>
    ensures { OnOk result (string_bytes key.new ≡ string_bytes key.old ++ key_of (count_value count)) }
{
    let digits = digits_of_sum(alloc, Default::default(), Default::default(), count as u128)?;
    let whole = Decimal::of_digits(Default::default(), Default::default());
    push_key(alloc, key, &digits, &whole)
}

/// Puts the key of a number behind a text, in time near linear in the number's text, however large its exponent. The one refusal
/// is want of memory.
pub fn push_number_key(
    alloc: Global,
    key: &mut String,
    number: &Number<'_>,
) -> Result<(), AllocError>
    ensures { OnOk result (string_bytes key.new ≡ string_bytes key.old ++ key_of (number_seen number.now)) }
{
    match number {
        Number::Written(decimal) => push_decimal(alloc, key, decimal),
        Number::Count(count) => push_count(alloc, key, *count),
    }
}
