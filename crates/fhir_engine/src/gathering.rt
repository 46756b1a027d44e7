//! Definitions of several folders that are gathered into a new one.

ghost use Rattle.std.specs.Prelude.{◌≡◌, Option, None};
ghost use Rattle.std.specs.Io.KnownBytes.{Appends};
ghost use Rattle.fhir_gather.specs.Gathering.{Folders};
ghost use Rattle.fhir_gather.specs.Making.{folders_of};
ghost use Rattle.fhir_package.specs.Folder.{Files as FolderFiles};
ghost use Rattle.fhir_engine.specs.Gathers.{printed, IsGathered};

use crate::directory::directory_at;
use crate::engine::{end_with, is_written};
use fhir_answers::{Status, fault_text};
use fhir_gather::{GatherFault, Gathered, NamedFolder, gather};
use fhir_gather_lines::gather_text;
use fhir_json::NoMemory;
use fhir_new_folder::{NewDirectory, NewFolder};
use fhir_package::{Folder, MemoryFolder, Progress};
use fhir_words::{Detail, GatherRequest};
use std::alloc::{AllocError, Global};
use std::fs;
use std::io::Write;
use std::rt::Files;

fn no_memory<E: Write>(err: &mut E) -> Status
    ensures { result ≡ Status.NoMemory }
{
    end_with(err, "no memory\n", Status::NoMemory)
}

// The name of the part of a new folder.
fn part_of(alloc: Global, name: &str) -> Result<String, AllocError> {
    format!(in alloc; "{}.part", name.trim_end_matches('/'))
}

// What is told of a fault at a file of a folder.
fn file_fault_text(
    alloc: Global,
    number: &str,
    folder: &str,
    file: &str,
) -> Result<String, AllocError> {
    let path = format!(in alloc; "{folder}/{file}")?;
    fault_text(alloc, number, path.as_str())
}

// What is told of a fault; nothing of want of memory.
fn told_of(alloc: Global, name: &str, fault: &GatherFault) -> Result<Option<String>, AllocError> {
    let text = match fault {
        GatherFault::Exists => fault_text(alloc, "exists", name)?,
        GatherFault::Left => fault_text(alloc, "exists", part_of(alloc, name)?.as_str())?,
        GatherFault::Unlisted { folder } => fault_text(alloc, "P1", folder.as_str())?,
        GatherFault::Unreadable { folder, file } => {
            file_fault_text(alloc, "P1", folder.as_str(), file.as_str())?
        }
        GatherFault::NotJson { folder, file } => {
            file_fault_text(alloc, "P2", folder.as_str(), file.as_str())?
        }
        GatherFault::Unwritten { name: None } => fault_text(alloc, "write", name)?,
        GatherFault::Unwritten { name: Some(file) } => {
            file_fault_text(alloc, "write", name, file.as_str())?
        }
        GatherFault::NoMemory => return Ok(None),
    };
    Ok(Some(text))
}

// Tells why nothing is gathered.
fn refuse<E: Write>(alloc: Global, name: &str, fault: &GatherFault, err: &mut E) -> Status
    ensures { result ≡ Status.Yes → ⊥ }
{
    match told_of(alloc, name, fault) {
        Ok(Some(text)) => end_with(err, text.as_str(), Status::Fault),
        _ => no_memory(err),
    }
}

// Prints what is told of what is gathered.
fn print<W: Write>(alloc: Global, detail: Detail, gathered: &Gathered, out: &mut W) -> Status
    ensures { result ≡ Status.Yes → Appends (W.contents out.old) (W.contents out.new) (printed detail gathered.now) }
{
    match gather_text(alloc, detail, gathered) {
        Ok(text) => {
            if is_written(out, text.as_bytes()) {
                Status::Yes
            } else {
                Status::Unwritten
            }
        }
        Err(NoMemory) => Status::NoMemory,
    }
}

// Gives a new folder, which is written, its name.
fn finish<N: NewFolder, E: Write>(alloc: Global, name: &str, new: &mut N, err: &mut E) -> Status
    ensures finished { result ≡ Status.Yes → N.whole new.new ≡ N.part new.old }
    ensures nothing { (result ≡ Status.Yes → ⊥) → N.whole new.new ≡ N.whole new.old }
{
    match new.finish() {
        Ok(()) => Status::Yes,
        Err(fault) => {
            let _abandoned = new.abandon();
            refuse(alloc, name, &GatherFault::of_write(fault, None), err)
        }
    }
}

// Leaves a new folder unmade, since what is gathered isn't told.
fn leave<N: NewFolder, E: Write>(status: Status, new: &mut N, err: &mut E) -> Status
    ensures told { result ≡ status }
    ensures nothing { N.whole new.new ≡ N.whole new.old }
{
    let _abandoned = new.abandon();
    match status {
        Status::NoMemory => no_memory(err),
        _ => status,
    }
}

// Prints what is told of what is gathered, and gives the new folder, which is written, its name.
fn tell<N: NewFolder, W: Write, E: Write>(
    alloc: Global,
    request: &GatherRequest<'_>,
    gathered: &Gathered,
    new: &mut N,
    out: &mut W,
    err: &mut E,
) -> Status
    ensures finished { result ≡ Status.Yes → N.whole new.new ≡ N.part new.old }
    ensures printed { result ≡ Status.Yes → Appends (W.contents out.old) (W.contents out.new) (printed request.now.detail gathered.now) }
    ensures nothing { (result ≡ Status.Yes → ⊥) → N.whole new.new ≡ N.whole new.old }
{
    match print(alloc, request.detail, gathered, out) {
        Status::Yes => finish(alloc, request.out, new, err),
        status => leave(status, new, err),
    }
}

/// Gathers folders into a new one of that name. What is gathered is printed, and then the new folder gets its name. Where it can't be gathered
/// or printed, that is told on standard error, and nothing is made. How far the reading is, is told to `progress`.
pub fn gather_folders<F: Folder + Drop, N: NewFolder, P: Progress, W: Write, E: Write>(
    alloc: Global,
    request: &GatherRequest<'_>,
    folders: Vec<NamedFolder<F>>,
    new: &mut N,
    progress: &mut P,
    out: &mut W,
    err: &mut E,
) -> Status
    ensures made { result ≡ Status.Yes → IsGathered request.now.detail (folders_of F.files folders.items) (N.whole new.new)
        (W.contents out.old) (W.contents out.new) }
    ensures new { result ≡ Status.Yes → N.whole new.old ≡ None }
    ensures nothing { (result ≡ Status.Yes → ⊥) → N.whole new.new ≡ N.whole new.old }
{
    let gathered = gather(alloc, folders, new, progress);
    progress.end();
    match gathered {
        Ok(gathered) => tell(alloc, request, &gathered, new, out, err),
        Err(fault) => refuse(alloc, request.out, &fault, err),
    }
}

// Whether something stands at a path, be it a link that leads nowhere.
fn is_taken<R: Files>(rt: &R, path: &str) -> bool {
    path.is_empty() || fs::symlink_metadata(rt, path).is_ok()
}

// Why a new folder of that name isn't begun, as far as it is seen before the folders are read.
fn standing<R: Files + AllocGlobal>(rt: &R, name: &str) -> Result<Option<GatherFault>, AllocError> {
    if is_taken(rt, name.trim_end_matches('/')) {
        return Ok(Some(GatherFault::Exists));
    }
    if is_taken(rt, part_of(rt.alloc(), name)?.as_str()) {
        return Ok(Some(GatherFault::Left));
    }
    Ok(None)
}

// The directories at these paths.
fn open_folders<R: Files + AllocGlobal + Clone + Drop, P: Progress>(
    rt: &R,
    paths: &[&str],
    progress: &mut P,
) -> Result<Vec<NamedFolder<MemoryFolder>>, NoMemory> {
    let mut folders = Vec::with_capacity(rt.alloc(), paths.len())?;
    for path in paths {
        let name = String::from_str(rt.alloc(), path.trim_end_matches('/'))?;
        let folder = directory_at(rt, *path, progress)?;
        folders.push(NamedFolder { name, folder })?;
    }
    Ok(folders)
}

// The same into a new directory at a path that is free.
fn gather_opened<R: Files + AllocGlobal + Clone + Drop, P: Progress, W: Write, E: Write>(
    rt: &R,
    request: &GatherRequest<'_>,
    progress: &mut P,
    out: &mut W,
    err: &mut E,
) -> Status
    ensures { result ≡ Status.Yes → (folders : Folders) × (whole : Option FolderFiles)
        × IsGathered request.now.detail folders whole (W.contents out.old) (W.contents out.new) }
{
    let Ok(folders) = open_folders(rt, &request.folders, progress) else {
        progress.end();
        return no_memory(err);
    };
    match NewDirectory::new(rt, request.out) {
        Ok(mut new) => gather_folders(rt.alloc(), request, folders, &mut new, progress, out, err),
        Err(NoMemory) => no_memory(err),
    }
}

/// Gathers the directories at some paths into a new one, which is refused first where something stands at its path.
pub fn gather_directories<R: Files + AllocGlobal + Clone + Drop, P: Progress, W: Write, E: Write>(
    rt: &R,
    request: &GatherRequest<'_>,
    progress: &mut P,
    out: &mut W,
    err: &mut E,
) -> Status
    ensures { result ≡ Status.Yes → (folders : Folders) × (whole : Option FolderFiles)
        × IsGathered request.now.detail folders whole (W.contents out.old) (W.contents out.new) }
{
    match standing(rt, request.out) {
        Ok(None) => gather_opened(rt, request, progress, out, err),
        Ok(Some(fault)) => refuse(rt.alloc(), request.out, &fault, err),
        Err(_) => no_memory(err),
    }
}
