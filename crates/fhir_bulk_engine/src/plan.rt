//! Which files a run reads, and in which order.

use fhir_inputs::Kind;
use fhir_json::NoMemory;
use std::alloc::{AllocError, Global};
use std::collections::BTreeMap;
use std::fs::DirEntry;
use std::io::ErrorKind;
use std::rt::Files;
use std::{fs, io};

/// Where a file of a run comes from.
#[derive(Clone, Copy, Debug, PartialEq, Eq)]
pub enum Origin {
    /// Its name is its path.
    Path,
    /// It is standard input.
    Standard,
    /// Its name isn't UTF-8, and so it can't be read.
    Unnamed,
}

/// A file of a run.
#[derive(Drop)]
pub struct InputFile {
    /// The name under which it is told.
    pub name: String,
    /// Where it comes from.
    pub origin: Origin,
    /// What it holds.
    pub kind: Kind,
}

/// The files of a run, in their order.
#[derive(Drop)]
pub struct Plan {
    /// The files.
    pub files: Vec<InputFile>,
    /// How many entries of folders are passed over: what is no regular file, files with other endings, hidden ones, and `package.json`.
    pub passed_over: usize,
}

/// Why there is no plan.
#[derive(Debug, Drop)]
pub enum PlanFault {
    /// The folder of that name isn't listed, or has no regular file whose name ends in `.json` or `.ndjson`.
    Nothing(String),
    /// A growth of memory was refused.
    NoMemory,
}

// Whatever becomes want of memory.
impl<E: Drop> From<E> for PlanFault
where
    NoMemory: From<E>,
{
    fn from(_error: E) -> PlanFault {
        PlanFault::NoMemory
    }
}

// What an entry of a folder holds, by its name.
fn kind_of(name: &str) -> Option<Kind> {
    if name.ends_with(".json") {
        Some(Kind::Document)
    } else if name.ends_with(".ndjson") {
        Some(Kind::Lines)
    } else {
        None
    }
}

// Whether a file of a folder holds resources, by its name. Hidden ones, as the `.index.json` of a published package, hold none, nor does
// what says which package it is.
fn holds_resources(name: &str) -> bool {
    kind_of(name).is_some() && !name.starts_with(".") && name != "package.json"
}

// The entries of a folder: the paths of its files by their names, and how many others there are.
#[derive(Drop)]
struct Entries {
    paths: BTreeMap<String, String>,
    passed_over: usize,
    unnamed: usize,
}

fn is_folder<R: Files>(rt: &R, path: &str) -> bool {
    match fs::metadata(rt, path) {
        Ok(metadata) => metadata.is_dir(),
        Err(_) => false,
    }
}

// Whether it is a regular file, or a link to one. What can't be looked at is taken for one, so that it is told as a file that can't
// be read.
fn is_regular<R: Files>(rt: &R, path: &str) -> bool {
    match fs::metadata(rt, path) {
        Ok(metadata) => metadata.is_file(),
        Err(_) => true,
    }
}

fn put_named<R: Files + AllocGlobal + Clone + Drop>(
    rt: &R,
    entry: &DirEntry<R, Global>,
    entries: &mut Entries,
) -> io::Result<()> {
    let path = entry.path();
    if !holds_resources(entry.file_name()) || !is_regular(rt, path.as_str()) {
        entries.passed_over = entries.passed_over.saturating_add(1);
        return Ok(());
    }
    let name = String::from_str(rt.alloc(), entry.file_name())?;
    let path = String::from_str(rt.alloc(), path.as_str())?;
    entries.paths.insert(name, path)?;
    Ok(())
}

fn put_entry<R: Files + AllocGlobal + Clone + Drop>(
    rt: &R,
    entry: io::Result<DirEntry<R, Global>>,
    entries: &mut Entries,
) -> io::Result<()> {
    match entry {
        Ok(entry) => put_named(rt, &entry, entries),
        Err(error) if error.kind() == ErrorKind::InvalidFilename => {
            entries.unnamed = entries.unnamed.saturating_add(1);
            Ok(())
        }
        Err(error) => Err(error),
    }
}

fn entries_of<R: Files + AllocGlobal + Clone + Drop>(rt: &R, path: &str) -> io::Result<Entries> {
    let mut entries = Entries {
        paths: BTreeMap::new(rt.alloc()),
        passed_over: 0,
        unnamed: 0,
    };
    for entry in fs::read_dir(rt, path)? {
        put_entry(rt, entry, &mut entries)?;
    }
    Ok(entries)
}

fn put_paths(paths: BTreeMap<String, String>, plan: &mut Plan) -> Result<(), AllocError> {
    for (name, path) in paths {
        let kind = kind_of(name.as_str()).unwrap_or(Kind::Lines);
        plan.files.push(InputFile {
            name: path,
            origin: Origin::Path,
            kind,
        })?;
    }
    Ok(())
}

// The files whose names aren't UTF-8, each under a name that says so.
fn put_unnamed(
    alloc: Global,
    folder: &str,
    count: usize,
    plan: &mut Plan,
) -> Result<(), AllocError> {
    let folder = folder.strip_suffix("/").unwrap_or(folder);
    for _ in 0..count {
        plan.files.push(InputFile {
            name: format!(in alloc; "{folder}/(a name that isn't UTF-8)")?,
            origin: Origin::Unnamed,
            kind: Kind::Lines,
        })?;
    }
    Ok(())
}

fn put_entries(
    alloc: Global,
    folder: &str,
    entries: Entries,
    plan: &mut Plan,
) -> Result<(), PlanFault> {
    let Entries {
        paths,
        passed_over,
        unnamed,
    } = entries;
    if paths.is_empty() && unnamed == 0 {
        return Err(PlanFault::Nothing(String::from_str(alloc, folder)?));
    }
    plan.passed_over = plan.passed_over.saturating_add(passed_over);
    put_paths(paths, plan)?;
    Ok(put_unnamed(alloc, folder, unnamed, plan)?)
}

fn put_folder<R: Files + AllocGlobal + Clone + Drop>(
    rt: &R,
    path: &str,
    plan: &mut Plan,
) -> Result<(), PlanFault> {
    match entries_of(rt, path) {
        Ok(entries) => put_entries(rt.alloc(), path, entries, plan),
        Err(error) if error.kind() == ErrorKind::OutOfMemory => Err(PlanFault::NoMemory),
        Err(_) => Err(PlanFault::Nothing(String::from_str(rt.alloc(), path)?)),
    }
}

fn put_path<R: Files + AllocGlobal + Clone + Drop>(
    rt: &R,
    path: &str,
    plan: &mut Plan,
) -> Result<(), PlanFault> {
    if is_folder(rt, path) {
        return put_folder(rt, path, plan);
    }
    let kind = kind_of(path).unwrap_or(Kind::Lines);
    Ok(
        plan.files.push(InputFile {
            name: String::from_str(rt.alloc(), path)?,
            origin: Origin::Path,
            kind,
        })?,
    )
}

fn put_standard(alloc: Global, plan: &mut Plan) -> Result<(), AllocError> {
    Ok(
        plan.files.push(InputFile {
            name: String::from_str(alloc, "-")?,
            origin: Origin::Standard,
            kind: Kind::Lines,
        })?,
    )
}

fn put_input<R: Files + AllocGlobal + Clone + Drop>(
    rt: &R,
    input: Option<&str>,
    plan: &mut Plan,
) -> Result<(), PlanFault> {
    match input {
        Some(path) => put_path(rt, path, plan),
        None => Ok(put_standard(rt.alloc(), plan)?),
    }
}

/// The files of inputs, in turn. An input is a folder, of which those regular files are read whose names end in `.json` or `.ndjson`, but for
/// hidden ones and `package.json`, in the order of these names; a file; or standard input, where there is no name. A file whose name ends in `.json` is a document, and any other
/// has a text on each line.
pub fn plan_inputs<R: Files + AllocGlobal + Clone + Drop>(
    rt: &R,
    inputs: &[Option<&str>],
) -> Result<Plan, PlanFault> {
    let mut plan = Plan {
        files: Vec::new(rt.alloc()),
        passed_over: 0,
    };
    for input in inputs {
        put_input(rt, *input, &mut plan)?;
    }
    Ok(plan)
}
