//! The lines on definitions that aren't kept.

ghost use Rattle.std.specs.Prelude.{◌≡◌, ◌++◌, None, Some, IfOk, OnOk, string_bytes};
ghost use Rattle.fhir_gather.specs.Views.{origin_seen, dropped_seen, all_dropped};
ghost use Rattle.fhir_gather_lines.specs.GatherLines.{origin_path, version_text, same_text, other_text, dropped_text, dropped_line, is_told, told_row, dropped_rows};
ghost use Rattle.fhir_lines.specs.Lines.{file_line, row, line_seen};

use crate::joining::{joined, path_of, version_text};
use fhir_gather::{DroppedOne, Origin, kind_word};
use fhir_json::NoMemory;
use fhir_lines::{Line, push_row};
use fhir_words::{Detail, Format};
use std::alloc::{AllocError, Global};

fn origin_path(alloc: Global, origin: &Origin) -> Result<String, AllocError>
    ensures { IfOk result (λ path. string_bytes path ≡ origin_path (origin_seen origin.now)) }
{
    path_of(alloc, origin.folder.as_str(), origin.file.as_str())
}

fn origin_version(alloc: Global, origin: &Origin) -> Result<String, AllocError>
    ensures { IfOk result (λ text. string_bytes text ≡ version_text (origin_seen origin.now).version) }
{
    version_text(alloc, origin.version.as_deref())
}

fn same_text(alloc: Global, dropped: &DroppedOne) -> Result<String, AllocError>
    ensures { IfOk result (λ text. string_bytes text ≡ same_text (dropped_seen dropped.now)) }
{
    let first = origin_path(alloc, &dropped.first)?;
    let kind = kind_word(dropped.kind);
    joined(
        alloc,
        &["dropped: ", first.as_str(), " has the same ", kind],
    )
}

fn other_text(alloc: Global, dropped: &DroppedOne) -> Result<String, AllocError>
    ensures { IfOk result (λ text. string_bytes text ≡ other_text (dropped_seen dropped.now)) }
{
    let first = origin_path(alloc, &dropped.first)?;
    let own = origin_version(alloc, &dropped.second)?;
    let other = origin_version(alloc, &dropped.first)?;
    let parts = [
        "dropped (",
        own.as_str(),
        "): ",
        first.as_str(),
        " has another ",
        kind_word(dropped.kind),
        " of this url (",
        other.as_str(),
        ")",
    ];
    joined(alloc, &parts)
}

fn dropped_text(alloc: Global, dropped: &DroppedOne) -> Result<String, AllocError>
    ensures { IfOk result (λ text. string_bytes text ≡ dropped_text (dropped_seen dropped.now)) }
{
    if dropped.is_equal {
        same_text(alloc, dropped)
    } else {
        other_text(alloc, dropped)
    }
}

fn url_line<'l>(file: &'l str, url: &'l str, text: String) -> Line<'l>
    ensures { line_seen result ≡ record (file_line file.now None (string_bytes text)) { url = Some url.now } }
{
    let mut line = Line::of_file(file, None, text);
    line.url = Some(url);
    line
}

fn push_dropped(alloc: Global, dropped: &DroppedOne, into: &mut String) -> Result<(), NoMemory>
    ensures { OnOk result (string_bytes into.new ≡ string_bytes into.old ++ row Format.Text (dropped_line (dropped_seen dropped.now))) }
{
    let file = origin_path(alloc, &dropped.second)?;
    let text = dropped_text(alloc, dropped)?;
    let line = url_line(file.as_str(), dropped.url.as_str(), text);
    push_row(alloc, Format::Text, &line, into)
}

fn is_told(detail: Detail, dropped: &DroppedOne) -> bool
    ensures { result ≡ is_told detail (dropped_seen dropped.now) }
{
    match detail {
        Detail::Each => true,
        Detail::Once => !dropped.is_equal,
    }
}

#[tactic(auto, unfolding(crate::specs::GatherLines::told_row))]
fn push_if_told(
    alloc: Global,
    detail: Detail,
    dropped: &DroppedOne,
    into: &mut String,
) -> Result<(), NoMemory>
    ensures { OnOk result (string_bytes into.new ≡ string_bytes into.old ++ told_row detail (dropped_seen dropped.now)) }
{
    if is_told(detail, dropped) {
        push_dropped(alloc, dropped, into)
    } else {
        Ok(())
    }
}

/// Puts in a row for each definition that isn't kept and is told.
pub(crate) fn push_each_dropped(
    alloc: Global,
    detail: Detail,
    dropped: &[DroppedOne],
    into: &mut String,
) -> Result<(), NoMemory>
    ensures { OnOk result (string_bytes into.new ≡ string_bytes into.old ++ dropped_rows detail (all_dropped dropped.now)) }
{
    for one in dropped {
        push_if_told(alloc, detail, one, into)?;
    }
    Ok(())
}
