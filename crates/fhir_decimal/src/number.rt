//! Numbers that a text writes and counts, as one kind.

ghost use Rattle.std.specs.Prelude.{◌≡◌, ◌<◌, ◌≤◌, ℕ, false, IsTrue, IfSome, IfNone};
ghost use Rattle.std.specs.Ordering.{is_gt};
ghost use Rattle.fhir_decimal.specs.Value.{value_order, is_same_value};
ghost use Rattle.fhir_decimal.specs.Whole.{count, is_whole_value};
ghost use Rattle.fhir_decimal.specs.Numbers.{number_seen};

use crate::counts::cmp_count;
use crate::decimal::Decimal;
use std::cmp::Ordering;

/// A number: what a text writes, or how many of something there are.
#[derive(Clone, Copy, Debug)]
pub enum Number<'a> {
    /// What a text writes.
    Written(Decimal<'a>),
    /// A count.
    Count(usize),
}

impl<'a> Number<'a> {
    /// The order of the values, in time linear in the texts and with no memory taken.
    pub fn cmp(&self, other: &Number<'_>) -> Ordering
        ensures { result ≡ value_order (number_seen self.now) (number_seen other.now) }
    {
        match (self, other) {
            (Number::Written(left), Number::Written(right)) => left.cmp(right),
            (Number::Written(left), Number::Count(right)) => cmp_count(left, *right),
            (Number::Count(left), Number::Written(right)) => cmp_count(right, *left).reverse(),
            (Number::Count(left), Number::Count(right)) => left.cmp(right),
        }
    }

    /// Whether the values are one.
    pub fn eq_value(&self, other: &Number<'_>) -> bool
        ensures { result ≡ is_same_value (number_seen self.now) (number_seen other.now) }
    {
        self.cmp(other).is_eq()
    }

    /// Whether the value is whole, as that of `2.0` and `1.5e1` is, in time linear in the text.
    pub fn is_whole(&self) -> bool
        ensures { result ≡ is_whole_value (number_seen self.now) }
    {
        match self {
            Number::Written(decimal) => decimal.is_whole(),
            Number::Count(_) => true,
        }
    }

    fn is_over(&self, number: usize) -> bool
        ensures { result ≡ is_gt (value_order (number_seen self.now) (count number)) }
    {
        self.cmp(&Number::Count(number)).is_gt()
    }

    // How many counts below the bound the value is above.
    fn counts_below(&self, bound: usize) -> usize
        ensures within { result ≤ bound }
        ensures above { (n : ℕ) → n < result
            → IsTrue (is_gt (value_order (number_seen self.now) (count n))) }
        ensures others { (n : ℕ) → result ≤ n → n < bound
            → is_gt (value_order (number_seen self.now) (count n)) ≡ false }
    {
        let mut low = 0;
        let mut high = bound;
        while low < high {
            let middle = low + (high - low) / 2;
            if self.is_over(middle) {
                low = middle + 1;
            } else {
                high = middle;
            }
        }
        low
    }

    /// The count below a bound that the value is, if it is one. It takes as many comparisons as the bound has bits.
    pub fn count_below(&self, bound: usize) -> Option<usize>
        ensures within { IfSome result (λ n. n < bound) }
        ensures same { IfSome result (λ n. IsTrue (is_same_value (number_seen self.now) (count n))) }
        ensures first { IfSome result (λ n. (m : ℕ) → m < n
            → is_same_value (number_seen self.now) (count m) ≡ false) }
        ensures none { IfNone result ((n : ℕ) → n < bound
            → is_same_value (number_seen self.now) (count n) ≡ false) }
    {
        let place = self.counts_below(bound);
        if place < bound && self.eq_value(&Number::Count(place)) {
            Some(place)
        } else {
            None
        }
    }
}
