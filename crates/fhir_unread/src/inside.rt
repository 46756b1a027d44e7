//! The inside of a JSON string (RFC 8259, section 7).

ghost use Rattle.std.specs.Prelude.{◌≡◌, ◌<◌, ◌++◌, ◌∷◌, [], ◌/◌, ◌%◌, codes, OnOk, string_bytes};
ghost use Rattle.std.specs.Char.{digit_char};
ghost use Rattle.fhir_json.specs.Compact.{letter, escape_byte};
ghost use Rattle.fhir_lines.specs.Lines.{escaped_character};
ghost use Rattle.fhir_unread.specs.Listing.{inside_character, inside};

use std::alloc::AllocError;

// The letter that stands for a character behind a backslash.
fn letter(character: char) -> Option<char>
    ensures { result ≡ letter character }
{
    match character {
        '"' => Some('"'),
        '\\' => Some('\\'),
        '\u{8}' => Some('b'),
        '\u{c}' => Some('f'),
        '\n' => Some('n'),
        '\r' => Some('r'),
        '\t' => Some('t'),
        _ => None,
    }
}

fn hex_digit(value: u32) -> char
    requires { value < 16 }
    ensures { result ≡ digit_char value }
{
    char::from_digit(value, 16).unwrap_or('0')
}

// A character by its code.
fn push_code(character: char, into: &mut String) -> Result<(), AllocError>
    requires { character < 256 }
    ensures { OnOk result (string_bytes into.new ≡ string_bytes into.old
        ++ (codes "\\u00" ++ digit_char (character / 16) ∷ digit_char (character % 16) ∷ [])) }
{
    let code = u32::from(character);
    into.push_str("\\u00")?;
    into.push(hex_digit(code / 16))?;
    into.push(hex_digit(code % 16))
}

fn push_low(character: char, into: &mut String) -> Result<(), AllocError>
    requires { character < 127 }
    ensures { OnOk result (string_bytes into.new ≡ string_bytes into.old ++ escape_byte character) }
{
    if let Some(letter) = letter(character) {
        into.push('\\')?;
        return into.push(letter);
    }
    if u32::from(character) < 32 {
        return push_code(character, into);
    }
    into.push(character)
}

fn push_high(character: char, into: &mut String) -> Result<(), AllocError>
    ensures { OnOk result (string_bytes into.new ≡ string_bytes into.old ++ escaped_character character) }
{
    if character.is_control() {
        push_code(character, into)
    } else {
        into.push(character)
    }
}

fn push_character(character: char, into: &mut String) -> Result<(), AllocError>
    ensures { OnOk result (string_bytes into.new ≡ string_bytes into.old ++ inside_character character) }
{
    if u32::from(character) < 127 {
        push_low(character, into)
    } else {
        push_high(character, into)
    }
}

/// Puts in a text as the inside of a JSON string, in which no control character stands as itself.
pub(crate) fn push_inside(text: &str, into: &mut String) -> Result<(), AllocError>
    ensures { OnOk result (string_bytes into.new ≡ string_bytes into.old ++ inside text.now) }
{
    for character in text.chars() {
        push_character(character, into)?;
    }
    Ok(())
}
