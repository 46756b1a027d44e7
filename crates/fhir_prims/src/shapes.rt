//! Texts of a fixed form, and the digits at their places.

ghost use Rattle.std.specs.Prelude.{◌≡◌, ◌≤◌, slice_index, take, drop};
ghost use Rattle.fhir_prims.specs.Shapes.{fits, all_fit, has_shape, digit_at, pair_at};

use crate::bytes::is_lowercase_hexdigit;

fn fits(mark: u8, byte: u8) -> bool
    ensures { result ≡ fits mark byte }
{
    if mark == b'0' {
        byte.is_ascii_digit()
    } else if mark == b'h' {
        is_lowercase_hexdigit(byte)
    } else {
        byte == mark
    }
}

fn all_fit(shape: &[u8], text: &[u8]) -> bool
    ensures { result ≡ all_fit shape.now text.now }
{
    shape
        .iter()
        .zip(text.iter())
        .all(|(mark, byte)| fits(*mark, *byte))
}

// Whether a text has a shape, in which `0` stands for a digit, `h` for a hexadecimal digit, and
// each other byte for itself.
pub(crate) fn has_shape(shape: &str, text: &[u8]) -> bool
    ensures { result ≡ has_shape shape.now text.now }
{
    shape.len() == text.len() && all_fit(shape.as_bytes(), text)
}

// What a text begins with, up to a place, and what follows.
pub(crate) fn cut_at(text: &[u8], place: usize) -> (&[u8], &[u8])
    ensures front { result.0.now ≡ take place text.now }
    ensures rest { result.1.now ≡ drop place text.now }
{
    if place < text.len() {
        text.split_at(place)
    } else {
        (text, Default::default())
    }
}

// The byte at a place, and 0 behind the text.
pub(crate) fn byte_at(text: &[u8], place: usize) -> u8
    ensures { result ≡ slice_index text.now place }
{
    if place < text.len() { text[place] } else { 0 }
}

pub(crate) fn digit_at(text: &[u8], place: usize) -> u8
    ensures { result ≡ digit_at text.now place }
{
    byte_at(text, place).saturating_sub(b'0')
}

pub(crate) fn pair_at(text: &[u8], place: u8) -> u16
    ensures value { result ≡ pair_at text.now place }
    ensures small { result ≤ 2805 }
{
    let tens = digit_at(text, place as usize);
    let ones = digit_at(text, place as usize + 1);
    10 * tens as u16 + ones as u16
}
