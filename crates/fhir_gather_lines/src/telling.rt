//! What is printed of what is gathered.

ghost use Rattle.std.specs.Prelude.{◌≡◌, ◌++◌, length, count_by, IfOk, OnOk, map, string_bytes};
ghost use Rattle.fhir_archives.specs.Views.{note_seen};
ghost use Rattle.fhir_gather.specs.Views.{dropped_seen, all_dropped};
ghost use Rattle.fhir_gather_lines.specs.GatherLines.{read_text, kept_text, counts_text, gather_text};
ghost use Rattle.fhir_gather_lines.specs.Counted.{counts_seen};
ghost use Rattle.fhir_lines.specs.Lines.{text_line, row};

use crate::dropping::push_each_dropped;
use crate::joining::{joined, number_text};
use crate::noting::push_notes;
use fhir_gather::{DroppedOne, Gathered};
use fhir_json::NoMemory;
use fhir_lines::{Line, push_row};
use fhir_words::{Detail, Format};
use std::alloc::{AllocError, Global};

fn count_told(dropped: &[DroppedOne]) -> usize
    ensures { result ≡ count_by (λ d. (dropped_seen d).is_equal) dropped.now }
{
    dropped.iter().filter(|one| one.is_equal).count()
}

// How many equal the one that is kept.
fn count_equal(dropped: &[DroppedOne]) -> usize
    ensures { result ≡ count_by (λ d. d.is_equal) (all_dropped dropped.now) }
{
    count_told(dropped)
}

fn read_text(alloc: Global, gathered: &Gathered) -> Result<String, AllocError>
    ensures { IfOk result (λ text. string_bytes text ≡ read_text (counts_seen gathered.now)) }
{
    let folders = number_text(alloc, gathered.folders)?;
    let files = number_text(alloc, gathered.files)?;
    let definitions = number_text(alloc, gathered.definitions)?;
    let parts = [
        "folders: ",
        folders.as_str(),
        ", files: ",
        files.as_str(),
        ", definitions: ",
        definitions.as_str(),
    ];
    joined(alloc, &parts)
}

fn kept_text(alloc: Global, gathered: &Gathered) -> Result<String, AllocError>
    ensures { IfOk result (λ text. string_bytes text ≡ kept_text (counts_seen gathered.now) (all_dropped gathered.now.dropped.items)) }
{
    let kept = number_text(alloc, gathered.kept)?;
    let dropped = number_text(alloc, gathered.dropped.len())?;
    let equal = number_text(alloc, count_equal(&gathered.dropped))?;
    let parts = [
        ", kept: ",
        kept.as_str(),
        ", dropped: ",
        dropped.as_str(),
        ", equal: ",
        equal.as_str(),
    ];
    joined(alloc, &parts)
}

fn counts_text(alloc: Global, gathered: &Gathered) -> Result<String, AllocError>
    ensures { IfOk result (λ text. string_bytes text ≡ counts_text (counts_seen gathered.now) (all_dropped gathered.now.dropped.items)) }
{
    let read = read_text(alloc, gathered)?;
    let kept = kept_text(alloc, gathered)?;
    joined(alloc, &[read.as_str(), kept.as_str()])
}

fn push_counts(alloc: Global, gathered: &Gathered, into: &mut String) -> Result<(), NoMemory>
    ensures { OnOk result (string_bytes into.new ≡ string_bytes into.old
        ++ row Format.Text (text_line (counts_text (counts_seen gathered.now) (all_dropped gathered.now.dropped.items)))) }
{
    let line = Line::of_text(counts_text(alloc, gathered)?);
    push_row(alloc, Format::Text, &line, into)
}

/// What is printed of what is gathered: a row for each definition that isn't kept and differs from the one that is, or for each that isn't
/// kept; then one for each note; then the counts. The one refusal is want of memory.
pub fn gather_text(alloc: Global, detail: Detail, gathered: &Gathered) -> Result<String, NoMemory>
    ensures { IfOk result (λ text. string_bytes text ≡ gather_text detail (counts_seen gathered.now)
        (all_dropped gathered.now.dropped.items) (map note_seen gathered.now.notes.items)) }
{
    let mut text = String::new(alloc);
    push_each_dropped(alloc, detail, &gathered.dropped, &mut text)?;
    push_notes(alloc, &gathered.notes, &mut text)?;
    push_counts(alloc, gathered, &mut text)?;
    Ok(text)
}
