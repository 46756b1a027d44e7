//! The names and the texts of the files in which definitions are written.

ghost use Rattle.std.specs.Prelude.{◌≡◌, ◌<◌, ◌++◌, take, map, string_bytes, IfOk, OnOk};
ghost use Rattle.fhir_json.specs.Memory.{Gives};
ghost use Rattle.fhir_gather.specs.Written.{last_digits, digit_count, kind_word, is_name_byte, name_byte, url_bytes, url_part, file_name, file_text};
ghost use Rattle.fhir_gather.specs.Views.{taken_seen};

use crate::kept::Kept;
use fhir_json::{NoMemory, write};
use fhir_package::Kind;
use std::alloc::{AllocError, Global};

// How many digits a number has; 0 has none.
fn digit_count(number: usize) -> usize
    ensures { result ≡ digit_count number }
{
    let mut count = 0;
    let mut rest = number;
    while rest > 0 {
        count += 1;
        rest /= 10;
    }
    count
}

// Puts so many of a number's last digits behind a text.
fn push_digits(out: &mut String, width: usize, number: usize) -> Result<(), AllocError>
    ensures { OnOk result (string_bytes out.new ≡ string_bytes out.old ++ last_digits width number) }
{
    if width == 0 {
        return Ok(());
    }
    push_digits(out, width - 1, number / 10)?;
    out.push((b'0' + (number % 10) as u8) as char)
}

/// The resource type of a kind.
pub fn kind_word(kind: Kind) -> &'static str
    ensures { result.now ≡ kind_word kind }
{
    match kind {
        Kind::StructureDefinition => "StructureDefinition",
        Kind::ValueSet => "ValueSet",
        Kind::CodeSystem => "CodeSystem",
    }
}

fn is_name_byte(byte: u8) -> bool
    ensures { result ≡ is_name_byte byte }
{
    byte.is_ascii_alphanumeric() || byte == b'-' || byte == b'.' || byte == b'_'
}

// What stands for a byte in a name.
fn name_byte(byte: u8) -> u8
    ensures byte { result ≡ name_byte byte }
    ensures ascii { result < 128 }
{
    if is_name_byte(byte) { byte } else { b'_' }
}

// The bytes of a url that a name has something of.
fn first_bytes(url: &str) -> &[u8]
    ensures { result.now ≡ take url_bytes url.now }
{
    let bytes = url.as_bytes();
    if bytes.len() <= 150 {
        bytes
    } else {
        &bytes[..150]
    }
}

// Puts what a name has of a url behind a text.
fn push_url(out: &mut String, url: &str) -> Result<(), AllocError>
    ensures { OnOk result (string_bytes out.new ≡ string_bytes out.old ++ url_part url.now) }
{
    for byte in first_bytes(url) {
        out.push(name_byte(*byte) as char)?;
    }
    Ok(())
}

impl<'f> Kept<'f> {
    /// The name of the file in which it is written as the one at a place, counted from 0, of so many: its number, its kind and the
    /// first bytes of its url, with `_` for those that are no letter, digit, `-`, `.` or `_`. The place is below the count. The one
    /// refusal is want of memory.
    pub fn file_name(&self, alloc: Global, count: usize, place: usize) -> Result<String, NoMemory>
        requires { place < count }
        ensures { Gives string_bytes result (file_name count place (taken_seen self.now)) }
    {
        let mut name = String::new(alloc);
        push_digits(&mut name, digit_count(count), place + 1)?;
        name.push('-')?;
        name.push_str(kind_word(self.definition.kind()))?;
        name.push('-')?;
        push_url(&mut name, self.definition.url())?;
        name.push_str(".json")?;
        Ok(name)
    }

    /// The text of that file: the compact text of the definition, and a line feed. The one refusal is want of memory.
    pub fn file_text(&self, alloc: Global) -> Result<Vec<u8>, NoMemory>
        ensures { Gives (λ bytes. bytes.items) result (file_text (taken_seen self.now)) }
    {
        let mut text = write(alloc, self.definition.tree())?;
        text.push(b'\n')?;
        Ok(text)
    }
}
