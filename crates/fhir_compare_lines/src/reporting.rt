//! All that is told of two packages' profiles.

ghost use Rattle.std.specs.Prelude.{◌≡◌, ◌++◌, map, codes, string_bytes, IfOk};
ghost use Rattle.fhir_compare.specs.Views.{said_of, all_said};
ghost use Rattle.fhir_compare_lines.specs.Parts.{part_word};
ghost use Rattle.fhir_compare_lines.specs.Counting.{counts_of, counts_text};
ghost use Rattle.fhir_compare_lines.specs.Telling.{types_line, types_lines};
ghost use Rattle.fhir_compare_lines.specs.Report.{IsTold, AreTold, last_lines, IsReport};

use crate::counting::{counts_of, counts_text};
use crate::parts::Part;
use crate::sources::Sources;
use crate::texts::text_lines;
use crate::trees::{last_row, tree_lines};
use fhir_compare::Compared;
use fhir_json::NoMemory;
use fhir_lines::{push_texts, text_rows};
use fhir_words::Format;
use std::alloc::{AllocError, Global};

// ---- on each url

fn lines_of<'s>(
    alloc: Global,
    format: Format,
    sources: Sources<'s, '_, '_>,
    compared: &Compared<'s>,
) -> Result<Vec<String>, NoMemory>
    ensures { IfOk result (λ ls. IsTold format sources.entry.old.survey.now.definitions sources.entry.new.survey.now.definitions (said_of compared.now) (map string_bytes ls.items)) }
{
    match format {
        Format::Text => text_lines(alloc, sources, compared),
        Format::Json => tree_lines(alloc, sources, compared),
    }
}

fn all_lines<'s>(
    alloc: Global,
    format: Format,
    sources: Sources<'s, '_, '_>,
    compared: &[Compared<'s>],
) -> Result<Vec<String>, NoMemory>
    ensures { IfOk result (λ ls. AreTold format sources.entry.old.survey.now.definitions sources.entry.new.survey.now.definitions (all_said compared.now) (map string_bytes ls.items)) }
{
    let mut lines: Vec<String> = Vec::new(alloc);
    for one in compared {
        let own = lines_of(alloc, format, sources, one)?;
        push_texts(own, &mut lines)?;
    }
    Ok(lines)
}

// ---- the last lines

fn types_line(alloc: Global, types: usize) -> Result<String, AllocError>
    ensures { IfOk result (λ line. string_bytes line ≡ types_line types) }
{
    if types == 1 {
        String::from_str(alloc, "types: 1 differs, and NEW's is meant")
    } else {
        format!(in alloc; "types: {types} differ, and NEW's are meant")
    }
}

fn types_lines(alloc: Global, types: usize) -> Result<Vec<String>, AllocError>
    ensures { IfOk result (λ ls. map string_bytes ls.items ≡ types_lines types) }
{
    let mut lines: Vec<String> = Vec::new(alloc);
    if types != 0 {
        lines.push(types_line(alloc, types)?)?;
    }
    Ok(lines)
}

fn counts_line(alloc: Global, compared: &[Compared<'_>], part: Part) -> Result<String, AllocError>
    ensures { IfOk result (λ line. string_bytes line ≡ counts_text (counts_of compared.now) ++ codes ", version: " ++ part_word part) }
{
    let mut text = counts_text(alloc, counts_of(compared))?;
    text.push_str(", version: ")?;
    text.push_str(part.text())?;
    Ok(text)
}

fn last_lines(
    alloc: Global,
    format: Format,
    compared: &[Compared<'_>],
    types: usize,
    part: Part,
) -> Result<Vec<String>, NoMemory>
    ensures { IfOk result (λ ls. map string_bytes ls.items ≡ last_lines format compared.now types part) }
{
    match format {
        Format::Text => {
            let mut lines = types_lines(alloc, types)?;
            lines.push(counts_line(alloc, compared, part)?)?;
            Ok(lines)
        }
        Format::Json => {
            let mut lines: Vec<String> = Vec::new(alloc);
            lines.push(last_row(alloc, counts_of(compared), types, part)?)?;
            Ok(lines)
        }
    }
}

// Lines, and others behind them.
fn joined(mut lines: Vec<String>, others: Vec<String>) -> Result<Vec<String>, AllocError>
    ensures { IfOk result (λ ls. map string_bytes ls.items ≡ map string_bytes lines.items ++ map string_bytes others.items) }
{
    push_texts(others, &mut lines)?;
    Ok(lines)
}

/// What is told of two packages' profiles: of each url what is said of it, that types differ, if they do, and last the counts with the part of a
/// version that has to change. The one refusal is want of memory.
pub fn comparison_text<'s>(
    alloc: Global,
    format: Format,
    sources: Sources<'s, '_, '_>,
    compared: &[Compared<'s>],
    part: Part,
) -> Result<String, NoMemory>
    ensures { IfOk result (λ text. IsReport format sources.entry.old.survey.now.definitions sources.entry.new.survey.now.definitions compared.now sources.entry.types part (string_bytes text)) }
{
    let lines = all_lines(alloc, format, sources, compared)?;
    let last = last_lines(alloc, format, compared, sources.types, part)?;
    let all = joined(lines, last)?;
    let text = text_rows(alloc, all.as_slice())?;
    Ok(text)
}
