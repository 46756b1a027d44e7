//! What is noted of archives.

ghost use Rattle.std.specs.Prelude.{◌≡◌, ◌++◌, ◌∷◌, [], map, filter_map, string_bytes, OnOk, IfOk};
ghost use Rattle.std.specs.Option.{option_map};
ghost use Rattle.fhir_json.specs.Views.{text_seen};
ghost use Rattle.fhir_archives.specs.Archives.{missing, note_of, notes_of, notes, nameless, lacking, other};
ghost use Rattle.fhir_archives.specs.Views.{archive_seen, named_seen, dependency_seen, owned_seen, note_seen};

use crate::archive::{PackageJson, all_named, dependencies};
use crate::table::{Named, Table};
use fhir_json::{Member, NoMemory};
use std::alloc::Global;

/// An archive of a name that a dependency asks for.
#[derive(Drop, PartialEq, Eq)]
pub struct Found {
    /// Its folder's name.
    pub folder: String,
    /// Its version, where that is a text.
    pub version: Option<String>,
}

/// What is noted of an archive.
#[derive(Drop, PartialEq, Eq)]
pub enum Note {
    /// It tells no name.
    NoName {
        /// Its folder's name.
        folder: String,
    },
    /// It depends on a name that no archive has.
    Lacking {
        /// Its folder's name.
        folder: String,
        /// The name that it depends on.
        name: String,
        /// The version that it depends on, where that is a text.
        version: Option<String>,
    },
    /// It depends on a version that no archive of that name has.
    Other {
        /// Its folder's name.
        folder: String,
        /// The name that it depends on.
        name: String,
        /// The version that it depends on.
        version: String,
        /// The first archive of that name.
        found: Found,
    },
}

fn owned(alloc: Global, text: Option<&str>) -> Result<Option<String>, NoMemory>
    ensures { IfOk result (λ owned. owned_seen owned ≡ text_seen text.entry) }
{
    match text {
        Some(text) => Ok(Some(String::from_str(alloc, text)?)),
        None => Ok(None),
    }
}

fn lacking(alloc: Global, folder: &str, name: &str, version: Option<&str>) -> Result<Note, NoMemory>
    ensures { IfOk result (λ note. note_seen note ≡ lacking folder.now name.now (text_seen version.entry)) }
{
    Ok(Note::Lacking {
        folder: String::from_str(alloc, folder)?,
        name: String::from_str(alloc, name)?,
        version: owned(alloc, version)?,
    })
}

fn found_of(alloc: Global, first: &Named<'_>) -> Result<Found, NoMemory>
    ensures folder { IfOk result (λ found. string_bytes found.folder ≡ (named_seen first.now).folder) }
    ensures version { IfOk result (λ found. owned_seen found.version ≡ (named_seen first.now).version) }
{
    Ok(Found {
        folder: String::from_str(alloc, first.folder)?,
        version: owned(alloc, first.version)?,
    })
}

fn other(
    alloc: Global,
    folder: &str,
    name: &str,
    version: &str,
    first: &Named<'_>,
) -> Result<Note, NoMemory>
    ensures { IfOk result (λ note. note_seen note
        ≡ other folder.now name.now version.now (named_seen first.now).folder (named_seen first.now).version) }
{
    Ok(Note::Other {
        folder: String::from_str(alloc, folder)?,
        name: String::from_str(alloc, name)?,
        version: String::from_str(alloc, version)?,
        found: found_of(alloc, first)?,
    })
}

// The version that is asked for of a name, where no archive has both.
fn missing<'v>(table: &Table<'_>, name: &str, version: Option<&'v str>) -> Option<&'v str>
    ensures { text_seen result ≡ missing table.now (record { name = name.now; version = text_seen version.entry }) }
{
    let version = version?;
    if table.has_version(name, version) {
        return None;
    }
    Some(version)
}

fn note_of(
    alloc: Global,
    table: &Table<'_>,
    folder: &str,
    dependency: &Member<'_>,
) -> Result<Option<Note>, NoMemory>
    ensures { IfOk result (λ note. option_map note_seen note ≡ note_of table.now folder.now (dependency_seen dependency.now)) }
{
    let name = dependency.name.as_str();
    let asked = dependency.value.as_text();
    let Some(first) = table.first(name) else {
        return Ok(Some(lacking(alloc, folder, name, asked)?));
    };
    match missing(table, name, asked) {
        Some(version) => Ok(Some(other(alloc, folder, name, version, first)?)),
        None => Ok(None),
    }
}

fn put_dependency(
    alloc: Global,
    table: &Table<'_>,
    folder: &str,
    dependency: &Member<'_>,
    notes: &mut Vec<Note>,
) -> Result<(), NoMemory>
    ensures { OnOk result (map note_seen notes.new.items
        ≡ map note_seen notes.old.items ++ filter_map (note_of table.now folder.now) (dependency_seen dependency.now ∷ [])) }
{
    if let Some(note) = note_of(alloc, table, folder, dependency)? {
        notes.push(note)?;
    }
    Ok(())
}

fn put_nameless(
    alloc: Global,
    archive: &PackageJson<'_, '_>,
    notes: &mut Vec<Note>,
) -> Result<(), NoMemory>
    ensures { OnOk result (map note_seen notes.new.items ≡ map note_seen notes.old.items ++ nameless (archive_seen archive.now)) }
{
    if archive.json.text_in("name").is_none() {
        notes.push(Note::NoName {
            folder: String::from_str(alloc, archive.folder)?,
        })?;
    }
    Ok(())
}

fn put_notes(
    alloc: Global,
    table: &Table<'_>,
    archive: &PackageJson<'_, '_>,
    notes: &mut Vec<Note>,
) -> Result<(), NoMemory>
    ensures { OnOk result (map note_seen notes.new.items ≡ map note_seen notes.old.items ++ notes_of table.now (archive_seen archive.now)) }
{
    put_nameless(alloc, archive, notes)?;
    for dependency in dependencies(archive) {
        put_dependency(alloc, table, archive.folder, dependency, notes)?;
    }
    Ok(())
}

/// What is noted of archives, in their order and in that of their dependencies: that an archive tells no name, and which of its
/// dependencies no archive has by its name, or by its name and its version. A version that isn't a text asks for the name alone.
/// Versions are compared as texts. The one refusal is want of memory.
pub fn notes(alloc: Global, archives: &[PackageJson<'_, '_>]) -> Result<Vec<Note>, NoMemory>
    ensures { IfOk result (λ v. map note_seen v.items ≡ notes (map archive_seen archives.now)) }
{
    let table = Table::new(alloc, all_named(alloc, archives)?)?;
    let mut notes = Vec::new(alloc);
    for archive in archives {
        put_notes(alloc, &table, archive, &mut notes)?;
    }
    Ok(notes)
}
