//! The lines on files `package.json`.

ghost use Rattle.std.specs.Prelude.{◌≡◌, ◌++◌, IfOk, OnOk, map, string_bytes};
ghost use Rattle.fhir_json.specs.Views.{text_seen};
ghost use Rattle.fhir_archives.specs.Views.{note_seen, owned_seen};
ghost use Rattle.fhir_gather_lines.specs.GatherLines.{package_path, wanted_text, lacking_text, version_text_of, package_line, note_folder, note_line, note_rows};
ghost use Rattle.fhir_lines.specs.Lines.{row};

use crate::joining::{joined, path_of, version_text};
use fhir_archives::{Found, Note};
use fhir_json::NoMemory;
use fhir_lines::{Line, push_row};
use fhir_words::Format;
use std::alloc::{AllocError, Global};

fn package_path(alloc: Global, folder: &str) -> Result<String, AllocError>
    ensures { IfOk result (λ path. string_bytes path ≡ package_path folder.now) }
{
    path_of(alloc, folder, "package.json")
}

fn wanted_text(alloc: Global, name: &str, version: Option<&str>) -> Result<String, AllocError>
    ensures { IfOk result (λ text. string_bytes text ≡ wanted_text name.now (text_seen version.entry)) }
{
    match version {
        Some(version) => joined(alloc, &[name, " ", version]),
        None => String::from_str(alloc, name),
    }
}

fn lacking_text(alloc: Global, name: &str, version: Option<&str>) -> Result<String, AllocError>
    ensures { IfOk result (λ text. string_bytes text ≡ lacking_text name.now (text_seen version.entry)) }
{
    let wanted = wanted_text(alloc, name, version)?;
    joined(
        alloc,
        &["it depends on ", wanted.as_str(), ", which no folder is"],
    )
}

fn version_text_of(
    alloc: Global,
    name: &str,
    version: &str,
    found: &Found,
) -> Result<String, AllocError>
    ensures { IfOk result (λ text. string_bytes text
        ≡ version_text_of name.now version.now (string_bytes found.now.folder) (owned_seen found.now.version)) }
{
    let wanted = wanted_text(alloc, name, Some(version))?;
    let has = version_text(alloc, found.version.as_deref())?;
    let parts = [
        "it depends on ",
        wanted.as_str(),
        ", and ",
        found.folder.as_str(),
        " has ",
        has.as_str(),
    ];
    joined(alloc, &parts)
}

// Puts in the row of a text on a folder's `package.json`.
fn push_on(alloc: Global, folder: &str, text: String, into: &mut String) -> Result<(), NoMemory>
    ensures { OnOk result (string_bytes into.new
        ≡ string_bytes into.old ++ row Format.Text (package_line folder.now (string_bytes text))) }
{
    let file = package_path(alloc, folder)?;
    push_row(
        alloc,
        Format::Text,
        &Line::of_file(file.as_str(), None, text),
        into,
    )
}

fn note_text(alloc: Global, note: &Note) -> Result<String, AllocError>
    ensures { IfOk result (λ text. note_line (note_seen note.now) ≡ package_line (note_folder (note_seen note.now)) (string_bytes text)) }
{
    match note {
        Note::NoName { .. } => String::from_str(alloc, "it has no name"),
        Note::Lacking { name, version, .. } => {
            lacking_text(alloc, name.as_str(), version.as_deref())
        }
        Note::Other {
            name,
            version,
            found,
            ..
        } => version_text_of(alloc, name.as_str(), version.as_str(), found),
    }
}

fn note_folder(note: &Note) -> &str
    ensures { result.now ≡ note_folder (note_seen note.now) }
{
    match note {
        Note::NoName { folder } => folder.as_str(),
        Note::Lacking { folder, .. } => folder.as_str(),
        Note::Other { folder, .. } => folder.as_str(),
    }
}

fn push_note(alloc: Global, note: &Note, into: &mut String) -> Result<(), NoMemory>
    ensures { OnOk result (string_bytes into.new ≡ string_bytes into.old ++ row Format.Text (note_line (note_seen note.now))) }
{
    let text = note_text(alloc, note)?;
    push_on(alloc, note_folder(note), text, into)
}

/// Puts in a row for each note.
pub(crate) fn push_notes(alloc: Global, notes: &[Note], into: &mut String) -> Result<(), NoMemory>
    ensures { OnOk result (string_bytes into.new ≡ string_bytes into.old ++ note_rows (map note_seen notes.now)) }
{
    for note in notes {
        push_note(alloc, note, into)?;
    }
    Ok(())
}
