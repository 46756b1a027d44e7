//! A file that gives texts, one a line.

ghost use Rattle.std.specs.Prelude.{◌≡◌, ◌↔◌, ◌∷◌, ◌++◌, [], map, string_bytes, IfOk, OnOk, IsUtf8};
ghost use Rattle.std.specs.Option.{option_map};
ghost use Rattle.std.specs.Str.Lines.{lines};
ghost use Rattle.fhir_json.specs.Memory.{Gives};
ghost use Rattle.fhir_json.specs.Views.{tree_of};
ghost use Rattle.fhir_json.specs.Fields.{as_text};
ghost use Rattle.fhir_json.specs.Reading.{text_behind_mark};
ghost use Rattle.fhir_vouching.specs.declared.given.GivenFault.TheVariants as faults;
ghost use Rattle.fhir_vouching.specs.Given.{is_comment, line_text, given_from, given_lines, line_seen};

use fhir_json::{Json, JsonFault, NoMemory};
use std::alloc::Global;
use thiserror::Error;

/// A line of a file that is not passed over, with its text.
#[derive(Drop)]
pub struct GivenLine {
    /// Its number in the file, from 1.
    pub number: usize,
    /// Its text; none where it is the inside of no JSON string.
    pub text: Option<String>,
}

/// Why a file could not be read.
#[derive(Clone, Copy, Debug, PartialEq, Eq, Error)]
pub enum GivenFault {
    /// It isn't UTF-8.
    #[error("not UTF-8")]
    NotUtf8,
    /// A growth of memory was refused.
    #[error("no memory")]
    NoMemory,
}

impl From<NoMemory> for GivenFault {
    ghost from_gives = { λ _ e. e ≡ faults.NoMemory };

    fn from(_error: NoMemory) -> GivenFault {
        GivenFault::NoMemory
    }
}

// The text behind a byte order mark, if it begins with one.
fn without_mark(text: &str) -> &str
    ensures { result.now ≡ text_behind_mark text.now }
{
    text.strip_prefix('\u{feff}').unwrap_or(text)
}

fn is_comment(line: &str) -> bool
    ensures { result ≡ is_comment line.now }
{
    matches!(line.as_bytes(), [] | [b'#', ..])
}

// The string that a tree is.
fn string_of(alloc: Global, json: &Json<'_>) -> Result<Option<String>, NoMemory>
    ensures { Gives (option_map string_bytes) result (as_text (tree_of json.now)) }
{
    match json.as_text() {
        Some(text) => Ok(Some(String::from_str(alloc, text)?)),
        None => Ok(None),
    }
}

// The string that a line is the inside of.
fn text_of(alloc: Global, line: &str) -> Result<Option<String>, NoMemory>
    ensures { Gives (option_map string_bytes) result (line_text line.now) }
{
    let quoted = format!(in alloc; "\"{line}\"")?;
    match fhir_json::read(alloc, quoted.as_str().as_bytes()) {
        Ok(json) => string_of(alloc, &json),
        Err(fault) => match fault {
            JsonFault::NoMemory => Err(NoMemory),
            _ => Ok(None),
        },
    }
}

// What a line gives, if it gives something.
fn put_line(
    alloc: Global,
    number: usize,
    line: &str,
    given: &mut Vec<GivenLine>,
) -> Result<(), NoMemory>
    ensures { OnOk result (map line_seen given.new.items
        ≡ map line_seen given.old.items ++ given_from number (line.now ∷ [])) }
{
    if is_comment(line) {
        return Ok(());
    }
    let text = text_of(alloc, line)?;
    given.push(GivenLine { number, text })?;
    Ok(())
}

fn lines_given(alloc: Global, text: &str) -> Result<Vec<GivenLine>, NoMemory>
    ensures { Gives (λ given. map line_seen given.items) result (given_from 1 (lines text.now)) }
{
    let mut given = Vec::new(alloc);
    for (before, line) in text.lines().enumerate() {
        put_line(alloc, before + 1, line, &mut given)?;
    }
    Ok(given)
}

/// What a file gives: its lines in order, without those that are empty or begin with `#`, each with its number and its text.
/// A line ends with a line feed, or with a carriage return and a line feed; a byte order mark at the front is passed over. The
/// text of a line is the JSON string whose inside it is (RFC 8259, section 7): a line with an unknown escape, a bare quote, a
/// control or half a surrogate pair is the inside of none.
///
/// The refusals are that the file isn't UTF-8, and want of memory.
pub fn read_given(alloc: Global, bytes: &[u8]) -> Result<Vec<GivenLine>, GivenFault>
    ensures lines { IfOk result (λ given. map line_seen given.items ≡ given_lines bytes.now) }
    ensures not_utf8 { (result ≡ Err GivenFault.NotUtf8) ↔ (¬ IsUtf8 bytes.now) }
{
    match str::from_utf8(bytes) {
        Ok(text) => Ok(lines_given(alloc, without_mark(text))?),
        Err(_) => Err(GivenFault::NotUtf8),
    }
}
