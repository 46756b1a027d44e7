//! Whole numbers as rows of digits, and how far one is above another.

ghost use Rattle.std.specs.Prelude.{◌≡◌, ◌⊎◌, ℕ, ◌+◌, ◌-◌, ◌*◌, ◌≤◌, ◌<◌, ◌^◌, ◌%◌, ◌++◌, length, false, if◌then◌else◌};
ghost use Rattle.fhir_decimal.specs.Value.{digit_value, number_of};
ghost use Rattle.fhir_decimal.specs.Rows.{digits_in, number_in, places_in, digit_in, digit_from, apart, next_apart, signed_apart};

/// More than the lengths of any two texts together. A difference of two numbers is of use only as far as this.
pub(crate) const FAR: u128 = 1 << 66;

/// A whole number: a sign, digits in two texts, and zeros behind them.
#[derive(Clone, Copy)]
pub(crate) struct Row<'a> {
    pub(crate) negative: bool,
    pub(crate) front: &'a [u8],
    pub(crate) back: &'a [u8],
    pub(crate) zeros: u64,
}

impl Row<'_> {
    pub(crate) fn zero() -> Row<'static>
        ensures sign { result.negative ≡ false }
        ensures number { number_in result ≡ 0 }
    {
        Row {
            negative: false,
            front: Default::default(),
            back: Default::default(),
            zeros: 0,
        }
    }
}

fn digit_value(byte: u8) -> u8
    ensures value { result ≡ digit_value byte }
    ensures small { result ≤ 9 }
{
    if byte.is_ascii_digit() {
        byte - b'0'
    } else {
        0
    }
}

fn digit_in(front: &[u8], back: &[u8], place: u128) -> u8
    ensures value { result ≡ digit_in (front.now ++ back.now) place }
    ensures small { result ≤ 9 }
{
    let lead = front.len() as u128;
    if place < lead {
        digit_value(front[place as usize])
    } else if place - lead < back.len() as u128 {
        digit_value(back[(place - lead) as usize])
    } else {
        0
    }
}

fn digit_from(row: &Row<'_>, start: u128, place: u128) -> u8
    ensures value { result ≡ digit_from start (digits_in row.now) place }
    ensures small { result ≤ 9 }
{
    if place < start {
        0
    } else {
        digit_in(row.front, row.back, place - start)
    }
}

fn places_in(row: &Row<'_>) -> u128
    ensures value { result ≡ places_in row.now }
    ensures bound { result < 2 ^ 66 }
{
    row.front.len() as u128 + row.back.len() as u128 + row.zeros as u128
}

// 9 and the digit, or 9 less the digit: so no number here is negative.
fn tilt(negative: bool, digit: u8) -> u128
    requires { digit ≤ 9 }
    ensures value { result ≡ (if negative then 9 - digit else 9 + digit) }
    ensures small { result ≤ 18 }
{
    if negative {
        9 - digit as u128
    } else {
        9 + digit as u128
    }
}

// One digit more on both sides, whose tilts are summed. What is far apart stays so.
fn next_apart(apart: u128, tilts: u128) -> u128
    requires near { apart ≤ 2 * FAR }
    requires small { tilts ≤ 36 }
    ensures { result ≡ next_apart FAR apart tilts }
{
    (10 * apart + tilts)
        .saturating_sub(9 * FAR + 18)
        .min(2 * FAR)
}

/// `FAR` and how much the first number is above the second, as far as `FAR` both ways.
pub(crate) fn rows_apart(left: &Row<'_>, right: &Row<'_>) -> u128
    ensures value { result ≡ signed_apart FAR left.now.negative (number_in left.now)
        right.now.negative (number_in right.now) }
    ensures near { result ≤ 2 * FAR }
{
    let places = places_in(left).max(places_in(right));
    let left_start = places - places_in(left);
    let right_start = places - places_in(right);
    let mut apart = FAR;
    for place in 0..places {
        let raise = tilt(left.negative, digit_from(left, left_start, place));
        let lower = tilt(!right.negative, digit_from(right, right_start, place));
        apart = next_apart(apart, raise + lower);
    }
    apart
}

/// How many zeros stand at the end of the digits.
pub(crate) fn zeros_behind(front: &[u8], back: &[u8]) -> u64
    ensures within { result ≤ length (front.now ++ back.now) }
    ensures number { (m : ℕ) × (number_of (front.now ++ back.now) ≡ m * 10 ^ result)
        × (((0 < m % 10) × (result < length (front.now ++ back.now)))
        ⊎ ((m ≡ 0) × (result ≡ length (front.now ++ back.now)))) }
{
    let places = front.len() as u64 + back.len() as u64;
    let mut zeros = 0;
    while zeros < places && digit_in(front, back, (places - 1 - zeros) as u128) == 0 {
        zeros += 1;
    }
    zeros
}
