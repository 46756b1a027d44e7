//! The digits of numbers, the lowest first.

ghost use Rattle.std.specs.Prelude.{◌≡◌, ◌+◌, ◌*◌, ◌^◌, ◌<◌, ◌≤◌, ◌++◌, length, min, [], string_bytes, IfOk, OnOk};
ghost use Rattle.fhir_decimal.specs.Value.{digit_value, number_of};
ghost use Rattle.fhir_number_keys.specs.Digits.{number_in, AreDigits, digits_of, zeros_in, written};
ghost use Rattle.fhir_number_keys.specs.Keys.{far};

use std::alloc::{AllocError, Global};

/// More than the lengths of any two texts.
pub(crate) const FAR: u128 = 1 << 66;

fn digit_value(byte: u8) -> u8
    ensures value { result ≡ digit_value byte }
    ensures small { result ≤ 9 }
{
    if byte.is_ascii_digit() {
        byte - b'0'
    } else {
        0
    }
}

// Puts the digits that a text has behind the others, where a number is to be added to the text's; what is left of that is returned.
fn push_text(digits: &mut Vec<u8>, text: &[u8], addend: u128) -> Result<u128, AllocError>
    requires { addend ≤ 4 * far }
    ensures bound { IfOk result (λ left. left ≤ addend) }
    ensures len { IfOk result (λ left. length digits.new.items ≡ length digits.old.items + length text.now) }
    ensures digits { IfOk result (λ left. AreDigits digits.old.items → AreDigits digits.new.items) }
    ensures number { IfOk result (λ left. number_in digits.new.items + left * 10 ^ length digits.new.items
        ≡ number_in digits.old.items + (number_of text.now + addend) * 10 ^ length digits.old.items) }
{
    let mut left = addend;
    let mut rest = text;
    while let [front @ .., last] = rest {
        let sum = left + digit_value(*last) as u128;
        digits.push((sum % 10) as u8)?;
        left = sum / 10;
        rest = front;
    }
    Ok(left)
}

// Puts the digits of a number behind the others.
fn push_number(digits: &mut Vec<u8>, number: u128) -> Result<(), AllocError>
    ensures digits { OnOk result (AreDigits digits.old.items → AreDigits digits.new.items) }
    ensures number { OnOk result (number_in digits.new.items
        ≡ number_in digits.old.items + number * 10 ^ length digits.old.items) }
{
    let mut left = number;
    while left > 0 {
        digits.push((left % 10) as u8)?;
        left /= 10;
    }
    Ok(())
}

// Takes off the zeros that came last.
fn drop_zeros(digits: &mut Vec<u8>)
    requires { AreDigits digits.now.items }
    ensures { digits.new.items ≡ digits_of (number_in digits.old.items) }
{
    while let Some(last) = digits.last() {
        if *last != 0 {
            return;
        }
        digits.pop();
    }
}

/// The digits of a number that stands in two texts, with another added to it.
pub(crate) fn digits_of_sum(
    alloc: Global,
    front: &[u8],
    back: &[u8],
    addend: u128,
) -> Result<Vec<u8>, AllocError>
    requires { addend ≤ 4 * far }
    ensures { IfOk result (λ digits. digits.items
        ≡ digits_of (number_of (front.now ++ back.now) + addend)) }
{
    let mut digits = Vec::new(alloc);
    let left = push_text(&mut digits, back, addend)?;
    let left = push_text(&mut digits, front, left)?;
    push_number(&mut digits, left)?;
    drop_zeros(&mut digits);
    Ok(digits)
}

/// How many zeros come first.
pub(crate) fn zeros_in(digits: &[u8]) -> usize
    ensures value { result ≡ zeros_in digits.now }
    ensures within { result ≤ length digits.now }
{
    let mut zeros = 0;
    for digit in digits {
        if *digit != 0 {
            return zeros;
        }
        zeros += 1;
    }
    zeros
}

/// The number that a text writes, as far as twice `FAR`.
pub(crate) fn near_number(text: &[u8]) -> u128
    ensures { result ≡ min (number_of text.now) (2 * far) }
{
    let mut number = 0;
    for byte in text {
        number = (10 * number + digit_value(*byte) as u128).min(2 * FAR);
    }
    number
}

/// Puts digits behind a text.
pub(crate) fn push_digits(key: &mut String, digits: &[u8]) -> Result<(), AllocError>
    ensures { OnOk result (string_bytes key.new ≡ string_bytes key.old ++ written digits.now) }
{
    for digit in digits {
        key.push((b'0' + *digit % 10) as char)?;
    }
    Ok(())
}
