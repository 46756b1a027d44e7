//! Counts as digits, and against decimals.

ghost use Rattle.std.specs.Prelude.{◌≡◌};
ghost use Rattle.fhir_decimal.specs.Value.{number_of, value_of, value_order};
ghost use Rattle.fhir_decimal.specs.Views.{parts_seen};
ghost use Rattle.fhir_decimal.specs.Whole.{count};

use crate::decimal::Decimal;
use std::cmp::Ordering;

// The digits of a count, with zeros before them.
fn digits_of(number: usize) -> [u8; 20]
    ensures { number_of result ≡ number }
{
    let mut digits = [b'0'; 20];
    let mut rest = number;
    let mut place = 20;
    while place > 0 {
        place -= 1;
        digits[place] = b'0' + (rest % 10) as u8;
        rest /= 10;
    }
    digits
}

/// The order of a decimal's value and a count.
pub(crate) fn cmp_count(decimal: &Decimal<'_>, number: usize) -> Ordering
    ensures { result ≡ value_order (value_of (parts_seen decimal.now)) (count number) }
{
    let digits = digits_of(number);
    decimal.cmp(&Decimal::of_digits(&digits, Default::default()))
}
