//! The parts of a decimal's text, cut off from left to right.

ghost use Rattle.std.specs.Prelude.{◌≡◌, option_map};
ghost use Rattle.std.specs.List.{list_all};
ghost use Rattle.std.specs.Char.{is_ascii_digit};
ghost use Rattle.fhir_decimal.specs.Text.{is_whole, are_digits};
ghost use Rattle.fhir_decimal.specs.Reading.{digits_of, after_digits, is_negative, after_minus, cut_some_digits, cut_fraction, cut_exponent, lowers, after_sign};

// The digits that the text begins with, and what stands behind them.
pub(crate) fn cut_digits(text: &[u8]) -> (&[u8], &[u8])
    ensures digits { result.0.now ≡ digits_of text.now }
    ensures rest { result.1.now ≡ after_digits text.now }
{
    let mut count = 0;
    while count < text.len() && text[count].is_ascii_digit() {
        count += 1;
    }
    text.split_at(count)
}

pub(crate) fn cut_minus(text: &[u8]) -> (bool, &[u8])
    ensures negative { result.0 ≡ is_negative text.now }
    ensures rest { result.1.now ≡ after_minus text.now }
{
    match text {
        [b'-', rest @ ..] => (true, rest),
        _ => (false, text),
    }
}

// `0`, or digits of which the first is no `0`.
pub(crate) fn is_whole(digits: &[u8]) -> bool
    ensures { result ≡ is_whole digits.now }
{
    match digits {
        [] => false,
        [_] => true,
        [first, _, ..] => *first != b'0',
    }
}

fn cut_some_digits(text: &[u8]) -> Option<(&[u8], &[u8])>
    ensures { option_map (λ r. (r.0.now, r.1.now)) result ≡ cut_some_digits text.now }
{
    let (digits, rest) = cut_digits(text);
    if digits.is_empty() {
        None
    } else {
        Some((digits, rest))
    }
}

// The digits behind the point, if there is one, and what follows.
pub(crate) fn cut_fraction(text: &[u8]) -> Option<(&[u8], &[u8])>
    ensures { option_map (λ r. (r.0.now, r.1.now)) result ≡ cut_fraction text.now }
{
    match text {
        [b'.', rest @ ..] => cut_some_digits(rest),
        _ => Some((Default::default(), text)),
    }
}

fn cut_sign(text: &[u8]) -> (bool, &[u8])
    ensures lowers { result.0 ≡ lowers text.now }
    ensures rest { result.1.now ≡ after_sign text.now }
{
    match text {
        [b'-', rest @ ..] => (true, rest),
        [b'+', rest @ ..] => (false, rest),
        _ => (false, text),
    }
}

fn all_digits(text: &[u8]) -> bool
    ensures { result ≡ list_all is_ascii_digit text.now }
{
    text.iter().all(|byte| byte.is_ascii_digit())
}

// One digit or more, and nothing else.
fn are_digits(text: &[u8]) -> bool
    ensures { result ≡ are_digits text.now }
{
    match text {
        [] => false,
        _ => all_digits(text),
    }
}

// Whether the exponent has a minus, and its digits. The text ends behind them.
pub(crate) fn cut_exponent(text: &[u8]) -> Option<(bool, &[u8])>
    ensures { option_map (λ r. (r.0, r.1.now)) result ≡ cut_exponent text.now }
{
    match text {
        [] => Some((false, text)),
        [b'e' | b'E', rest @ ..] => {
            let (lowers, digits) = cut_sign(rest);
            if are_digits(digits) {
                Some((lowers, digits))
            } else {
                None
            }
        }
        _ => None,
    }
}
