//! A decimal: its text's parts, and the order of its value.

ghost use Rattle.std.specs.Prelude.{◌≡◌, ◌*◌, ◌^◌, ◌++◌, length, option_map, MatchOption};
ghost use Rattle.fhir_decimal.specs.Text.{Parts, IsDecimal, unsigned_parts};
ghost use Rattle.fhir_decimal.specs.Reading.{parts};
ghost use Rattle.fhir_decimal.specs.Value.{number_of, value_of, value_order, is_same_value};
ghost use Rattle.fhir_decimal.specs.Rows.{number_in};
ghost use Rattle.fhir_decimal.specs.Whole.{is_whole_value};
ghost use Rattle.fhir_decimal.specs.Views.{parts_seen};

use crate::reading::{cut_digits, cut_exponent, cut_fraction, cut_minus, is_whole};
use crate::rows::{FAR, Row, rows_apart, zeros_behind};
use std::cmp::Ordering;

/// A decimal (FHIR R4, Data Types, decimal), as the parts of its text, which it borrows. A byte that is no digit counts as 0.
#[derive(Clone, Copy, Debug)]
pub struct Decimal<'a> {
    /// Whether it begins with `-`.
    pub negative: bool,
    /// The digits before the point.
    pub whole: &'a [u8],
    /// The digits behind the point, or none.
    pub fraction: &'a [u8],
    /// Whether the exponent has a `-`.
    pub lowers: bool,
    /// The digits of the exponent, or none.
    pub exponent: &'a [u8],
}

#[tactic(auto, unfolding(crate::specs::Reading::parts))]
fn parts_of(text: &str) -> Option<Decimal<'_>>
    ensures { option_map parts_seen result ≡ parts text.now }
{
    let (negative, rest) = cut_minus(text.as_bytes());
    let (whole, rest) = cut_digits(rest);
    let (fraction, rest) = cut_fraction(rest)?;
    let (lowers, exponent) = cut_exponent(rest)?;
    if is_whole(whole) {
        Some(Decimal {
            negative,
            whole,
            fraction,
            lowers,
            exponent,
        })
    } else {
        None
    }
}

impl<'a> Decimal<'a> {
    /// The decimal that a text writes, if it writes one (FHIR R4, Data Types, decimal:
    /// `-?(0|[1-9][0-9]*)(\.[0-9]+)?([eE][+-]?[0-9]+)?`).
    pub fn of(text: &'a str) -> Option<Decimal<'a>>
        ensures grammar { MatchOption result ((p : Parts) → ¬ IsDecimal text.now p)
            (λ d. IsDecimal text.now (parts_seen d)) }
        ensures parts { option_map parts_seen result ≡ parts text.now }
    {
        parts_of(text)
    }

    /// The decimal of the digits before a point and behind it, as those of seconds, which may begin with a 0 and have
    /// no sign and no exponent.
    pub fn of_digits(whole: &'a [u8], fraction: &'a [u8]) -> Decimal<'a>
        ensures { parts_seen result ≡ unsigned_parts whole.now fraction.now }
    {
        Decimal {
            negative: false,
            whole,
            fraction,
            lowers: false,
            exponent: Default::default(),
        }
    }

    fn exponent_row(&self) -> Row<'a>
        ensures sign { result.negative ≡ self.now.lowers }
        ensures number { number_in result ≡ number_of self.now.exponent.now }
    {
        Row {
            negative: self.lowers,
            front: self.exponent,
            back: Default::default(),
            zeros: 0,
        }
    }

    // The mantissa with zeros behind it.
    #[tactic(auto, unfolding(crate::specs::Rows::number_in))]
    fn mantissa_row(&self, zeros: u64) -> Row<'a>
        ensures sign { result.negative ≡ self.now.negative }
        ensures number { number_in result
            ≡ number_of (self.now.whole.now ++ self.now.fraction.now) * 10 ^ zeros }
    {
        Row {
            negative: self.negative,
            front: self.whole,
            back: self.fraction,
            zeros,
        }
    }

    // How many digits the mantissa has.
    fn places(&self) -> u64
        ensures { result ≡ length (self.now.whole.now ++ self.now.fraction.now) }
    {
        self.whole.len() as u64 + self.fraction.len() as u64
    }

    /// The order of the values, whatever the exponents, in time linear in the texts and with no memory taken.
    pub fn cmp(&self, other: &Decimal<'_>) -> Ordering
        ensures { result ≡ value_order (value_of (parts_seen self.now))
            (value_of (parts_seen other.now)) }
    {
        // Where the one exponent is far above the other, as many zeros as the other mantissa has digits put it above.
        let raised = rows_apart(&self.exponent_row(), &other.exponent_row())
            + other.fraction.len() as u128;
        let level = FAR + self.fraction.len() as u128;
        let zeros = raised.saturating_sub(level).min(other.places() as u128) as u64;
        let other_zeros = level.saturating_sub(raised).min(self.places() as u128) as u64;
        rows_apart(&self.mantissa_row(zeros), &other.mantissa_row(other_zeros)).cmp(&FAR)
    }

    /// Whether the values are one: `1E2` is `100`, and `-0` is `0.0`.
    pub fn eq_value(&self, other: &Decimal<'_>) -> bool
        ensures { result ≡ is_same_value (value_of (parts_seen self.now))
            (value_of (parts_seen other.now)) }
    {
        self.cmp(other).is_eq()
    }

    /// Whether the value is whole, as that of `2.0` and `1.5e1` is, in time linear in the text whatever the exponent.
    pub fn is_whole(&self) -> bool
        ensures { result ≡ is_whole_value (value_of (parts_seen self.now)) }
    {
        // Zeros at the end of the mantissa stand behind the point, or the exponent moves the point behind the others.
        let zeros = zeros_behind(self.whole, self.fraction);
        let raised = rows_apart(&self.exponent_row(), &Row::zero()) + zeros as u128;
        zeros == self.places() || FAR + self.fraction.len() as u128 <= raised
    }
}
