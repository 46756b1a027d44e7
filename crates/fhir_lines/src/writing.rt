//! How the lines of a report are written.

ghost use Rattle.std.specs.Prelude.{◌≡◌, ◌<◌, ◌++◌, [], map, IfOk, OnOk, IsTrue, string_bytes};
ghost use Rattle.std.specs.Char.{is_control, digit_char};
ghost use Rattle.fhir_json.specs.Compact.{compact};
ghost use Rattle.fhir_json.specs.Memory.{Gives};
ghost use Rattle.fhir_json.specs.Views.{tree_of};
ghost use Rattle.fhir_lines.specs.Lines.{escaped_character, escaped, row_text, text_row, text_rows, row, rows, counted, line_seen, lines_seen};

use crate::line::Line;
use fhir_json::{Json, NoMemory, write};
use fhir_words::Format;
use std::alloc::{AllocError, Global};

/// The compact text of a tree. The one refusal is want of memory.
pub(crate) fn json_text(alloc: Global, json: &Json<'_>) -> Result<String, NoMemory>
    ensures { Gives string_bytes result (compact (tree_of json.now)) }
{
    let bytes = write(alloc, json)?;
    Ok(String::from_utf8_lossy(alloc, &bytes)?)
}

// A line without its line feed, as it is, with the control characters of texts from files.
fn row_text(alloc: Global, format: Format, line: &Line<'_>) -> Result<String, NoMemory>
    ensures { Gives string_bytes result (row_text format (line_seen line.now)) }
{
    match format {
        Format::Text => line.to_text(alloc),
        Format::Json => json_text(alloc, &line.to_json(alloc)?),
    }
}

fn hex_digit(value: u32) -> char
    requires { value < 16 }
    ensures { result ≡ digit_char value }
{
    char::from_digit(value, 16).unwrap_or('0')
}

fn push_escape(character: char, into: &mut String) -> Result<(), AllocError>
    requires { IsTrue (is_control character) }
    ensures { OnOk result (string_bytes into.new ≡ string_bytes into.old ++ escaped_character character) }
{
    let code = u32::from(character);
    into.push_str("\\u00")?;
    into.push(hex_digit(code / 16))?;
    into.push(hex_digit(code % 16))
}

fn push_character(character: char, into: &mut String) -> Result<(), AllocError>
    ensures { OnOk result (string_bytes into.new ≡ string_bytes into.old ++ escaped_character character) }
{
    if character.is_control() {
        push_escape(character, into)
    } else {
        into.push(character)
    }
}

/// Puts in a text with its control characters escaped, as JSON may write them. The one refusal is want of memory.
pub fn push_escaped(text: &str, into: &mut String) -> Result<(), AllocError>
    ensures { OnOk result (string_bytes into.new ≡ string_bytes into.old ++ escaped text.now) }
{
    for character in text.chars() {
        push_character(character, into)?;
    }
    Ok(())
}

/// Puts in the compact text of a tree, with its control characters escaped. The one refusal is want of memory.
pub fn push_json(alloc: Global, json: &Json<'_>, into: &mut String) -> Result<(), NoMemory>
    ensures { OnOk result (string_bytes into.new ≡ string_bytes into.old ++ escaped (compact (tree_of json.now))) }
{
    let text = json_text(alloc, json)?;
    Ok(push_escaped(text.as_str(), into)?)
}

/// Puts in a text as a row: escaped, and with a line feed behind it. The one refusal is want of memory.
pub fn push_text_row(text: &str, into: &mut String) -> Result<(), AllocError>
    ensures { OnOk result (string_bytes into.new ≡ string_bytes into.old ++ text_row text.now) }
{
    push_escaped(text, into)?;
    into.push('\n')
}

/// The rows of texts. The one refusal is want of memory.
pub fn text_rows(alloc: Global, texts: &[String]) -> Result<String, AllocError>
    ensures { IfOk result (λ rows. string_bytes rows ≡ text_rows (map string_bytes texts.now)) }
{
    let mut rows = String::new(alloc);
    for text in texts {
        push_text_row(text.as_str(), &mut rows)?;
    }
    Ok(rows)
}

/// Puts in texts behind others. The one refusal is want of memory.
pub fn push_texts(mut texts: Vec<String>, into: &mut Vec<String>) -> Result<(), AllocError>
    ensures { OnOk result (map string_bytes into.new.items ≡ map string_bytes into.old.items ++ map string_bytes texts.items) }
{
    into.append(&mut texts)
}

/// Puts in a number behind a word. The one refusal is want of memory.
pub fn push_counted(
    alloc: Global,
    word: &str,
    count: usize,
    into: &mut String,
) -> Result<(), AllocError>
    ensures { OnOk result (string_bytes into.new ≡ string_bytes into.old ++ counted word.now count) }
{
    let number = format!(in alloc; "{count}")?;
    into.push_str(word)?;
    into.push_str(number.as_str())
}

/// Puts in the row of a line. The one refusal is want of memory.
pub fn push_row(
    alloc: Global,
    format: Format,
    line: &Line<'_>,
    into: &mut String,
) -> Result<(), NoMemory>
    ensures { OnOk result (string_bytes into.new ≡ string_bytes into.old ++ row format (line_seen line.now)) }
{
    let text = row_text(alloc, format, line)?;
    Ok(push_text_row(text.as_str(), into)?)
}

/// Puts in a row for each line. The one refusal is want of memory.
pub fn push_rows(
    alloc: Global,
    format: Format,
    lines: &[Line<'_>],
    into: &mut String,
) -> Result<(), NoMemory>
    ensures { OnOk result (string_bytes into.new ≡ string_bytes into.old ++ rows format (lines_seen lines.now)) }
{
    for line in lines {
        push_row(alloc, format, line, into)?;
    }
    Ok(())
}
