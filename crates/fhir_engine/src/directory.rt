//! Files of a file system.

ghost use Rattle.std.specs.Prelude.{◌≡◌, ◌≢◌, ◌⊎◌, Option, None, Some, Ok, Err, IfOk, IfErr, IsErr};
ghost use Rattle.std.specs.IoError.{error_kind};
ghost use Rattle.fhir_json.specs.Tree.{Text};
ghost use Rattle.fhir_package.specs.Folder.{Files as FolderFiles};
ghost use Rattle.fhir_engine.specs.Serving.{IsServed, IsServedAsGiven};
ghost use Rattle.fhir_json.specs.Views.{text_seen};
ghost use Rattle.fhir_answers.specs.Views.{bytes_seen};
ghost use Rattle.fhir_words.specs.Views.{asked_seen};

use crate::engine::end_with;
use crate::serving::{serve_folder, serve_folder_given};
use fhir_answers::{NamedFile, Status};
use fhir_json::NoMemory;
use fhir_package::{FolderFile, MemoryFolder, Progress, Stage, is_json_name};
use fhir_words::{Invocation, Request, WordsFault};
use std::alloc::Global;
use std::collections::BTreeMap;
use std::fs::DirEntry;
use std::io::{BufReader, ErrorKind, Read, Write};
use std::rt::Files;
use std::{fs, io};

// How many bytes of an input are read at once, at most.
const INPUT_BUFFER: usize = 65536;

/// Which files of a directory are wanted.
#[derive(Clone, Copy)]
pub enum Wanted {
    /// Those whose names end in `.json`.
    Json,
    /// All.
    All,
}

impl Wanted {
    fn is_wanted(self, name: &str) -> bool {
        match self {
            Wanted::Json => is_json_name(name),
            Wanted::All => true,
        }
    }
}

// Puts in the name and the path of an entry of a directory, if its name is UTF-8 and wanted. An error is of the listing, or of memory.
fn put_entry<R: Files + AllocGlobal + Clone + Drop>(
    rt: &R,
    entry: io::Result<DirEntry<R, Global>>,
    wanted: Wanted,
    paths: &mut BTreeMap<String, String>,
) -> io::Result<()> {
    let entry = match entry {
        Ok(entry) => entry,
        Err(error) if error.kind() == ErrorKind::InvalidFilename => return Ok(()),
        Err(error) => return Err(error),
    };
    if wanted.is_wanted(entry.file_name()) {
        let name = String::from_str(rt.alloc(), entry.file_name())?;
        let path = String::from_str(rt.alloc(), entry.path().as_str())?;
        paths.insert(name, path)?;
    }
    Ok(())
}

/// The paths of what is wanted of a directory, by the names of the files. What has a name that isn't UTF-8 is passed over. An error is of the
/// listing, or of memory.
pub fn paths_at<R: Files + AllocGlobal + Clone + Drop>(
    rt: &R,
    path: &str,
    wanted: Wanted,
) -> io::Result<BTreeMap<String, String>> {
    let mut paths = BTreeMap::new(rt.alloc());
    for entry in fs::read_dir(rt, path)? {
        put_entry(rt, entry, wanted, &mut paths)?;
    }
    Ok(paths)
}

// The bytes of a regular file: neither a directory, nor a device or a pipe, whose end may never come.
fn regular_bytes<R: Files + AllocGlobal>(rt: &R, path: &str) -> io::Result<Vec<u8>> {
    let metadata = fs::metadata(rt, path)?;
    if !metadata.is_file() {
        return Err(io::Error::from(ErrorKind::InvalidInput));
    }
    let size = usize::try_from(metadata.len()).unwrap_or(0);
    let mut bytes = Vec::with_capacity(rt.alloc(), size)?;
    fs::open(rt, path)?.read_to_end(&mut bytes)?;
    Ok(bytes)
}

// What the device gave, where it did. An error of the device is none of memory.
fn given<T>(read: io::Result<T>) -> Result<Option<T>, NoMemory>
    ensures given { IfOk read (λ it. result ≡ Ok (Some it)) }
    ensures failed { IfErr read (λ e. error_kind e ≢ ErrorKind.OutOfMemory → result ≡ Ok None) }
    ensures memory { IfErr read (λ e. error_kind e ≡ ErrorKind.OutOfMemory → IsErr result) }
{
    match read {
        Ok(it) => Ok(Some(it)),
        Err(error) if error.kind() == ErrorKind::OutOfMemory => Err(NoMemory),
        Err(_) => Ok(None),
    }
}

/// The bytes of the regular file at a path, or none where there is none or the device doesn't give them. The one refusal is want
/// of memory.
pub fn bytes_at<R: Files + AllocGlobal>(rt: &R, path: &str) -> Result<Option<Vec<u8>>, NoMemory> {
    given(regular_bytes(rt, path))
}

/// The same of a file that may be named; no bytes where none is.
pub fn bytes_if_named<R: Files + AllocGlobal>(
    rt: &R,
    path: Option<&str>,
) -> Result<Option<Vec<u8>>, NoMemory>
    ensures unnamed { text_seen path.entry ≡ None → result ≡ Ok None }
{
    match path {
        Some(path) => bytes_at(rt, path),
        None => Ok(None),
    }
}

// The folder of the files at these paths, each under its name.
fn folder_of<R: Files + AllocGlobal, P: Progress>(
    rt: &R,
    paths: BTreeMap<String, String>,
    progress: &mut P,
) -> Result<MemoryFolder, NoMemory> {
    let count = paths.len();
    let mut files = Vec::with_capacity(rt.alloc(), count)?;
    for (place, (name, path)) in paths.into_iter().enumerate() {
        let bytes = bytes_at(rt, path.as_str())?;
        files.push(FolderFile { name, bytes })?;
        progress.tell(Stage::Reading, place.saturating_add(1), count);
    }
    MemoryFolder::new(rt.alloc(), files)
}

/// The folder of what the directory at a path holds whose names end in `.json`. A file that the device doesn't give, or that is no
/// regular one, has no bytes, and one whose name isn't UTF-8 is passed over. Where the directory isn't listed, nor is the folder.
/// How many are read is told to `progress`. The one refusal is want of memory.
pub fn directory_at<R: Files + AllocGlobal + Clone + Drop, P: Progress>(
    rt: &R,
    path: &str,
    progress: &mut P,
) -> Result<MemoryFolder, NoMemory> {
    match given(paths_at(rt, path, Wanted::Json))? {
        Some(paths) => folder_of(rt, paths, progress),
        None => Ok(MemoryFolder::unlisted(rt.alloc())),
    }
}

/// What words ask for, with what they name.
#[derive(Drop)]
pub struct Opened<'w> {
    /// What they ask for.
    pub asked: Result<Invocation<'w>, WordsFault>,
    /// The folder.
    pub folder: MemoryFolder,
    /// The bytes of the files, in the order of the words; none of one that can't be read.
    pub files: Vec<Option<Vec<u8>>>,
}

// The bytes of the files that are asked about, each as far as it can be read.
fn files_of<R: Files + AllocGlobal>(
    rt: &R,
    request: &Request<'_>,
) -> Result<Vec<Option<Vec<u8>>>, NoMemory> {
    let mut files = Vec::new(rt.alloc());
    for path in request.files(rt.alloc())? {
        let bytes = bytes_at(rt, path)?;
        files.push(bytes)?;
    }
    Ok(files)
}

fn open_request<R: Files + AllocGlobal + Clone + Drop, P: Progress>(
    rt: &R,
    request: &Request<'_>,
    progress: &mut P,
) -> Result<(MemoryFolder, Vec<Option<Vec<u8>>>), NoMemory> {
    let folder = directory_at(rt, request.folder(), progress)?;
    let files = files_of(rt, request)?;
    Ok((folder, files))
}

// What is named by what is asked, if something is.
fn open_named<R: Files + AllocGlobal + Clone + Drop, P: Progress>(
    rt: &R,
    asked: &Result<Invocation<'_>, WordsFault>,
    progress: &mut P,
) -> Result<(MemoryFolder, Vec<Option<Vec<u8>>>), NoMemory> {
    match asked {
        Ok(Invocation::Request(request)) => open_request(rt, request, progress),
        Ok(Invocation::Version) | Err(_) => Ok((
            MemoryFolder::unlisted(rt.alloc()),
            Vec::new(rt.alloc()),
        )),
    }
}

/// Opens what words name. Where they name no folder, none is listed. Where memory runs out, they ask for nothing.
pub fn open_asked<'w, R: Files + AllocGlobal + Clone + Drop, P: Progress>(
    rt: &R,
    asked: Result<Invocation<'w>, WordsFault>,
    progress: &mut P,
) -> Opened<'w>
    ensures { (asked_seen result.asked ≡ asked_seen asked.entry) ⊎ (asked_seen result.asked ≡ Err WordsFault.NoMemory) }
{
    match open_named(rt, &asked, progress) {
        Ok((folder, files)) => Opened {
            asked,
            folder,
            files,
        },
        Err(NoMemory) => Opened {
            asked: Err(WordsFault::NoMemory),
            folder: MemoryFolder::unlisted(rt.alloc()),
            files: Vec::new(rt.alloc()),
        },
    }
}

// The folder of the directory at a path, and the bytes of the file at another, where it can be read.
fn open_served<R: Files + AllocGlobal + Clone + Drop, P: Progress>(
    rt: &R,
    path: &str,
    given: &str,
    progress: &mut P,
) -> Result<(MemoryFolder, Option<Vec<u8>>), NoMemory> {
    let folder = directory_at(rt, path, progress)?;
    let bytes = bytes_at(rt, given)?;
    Ok((folder, bytes))
}

/// Serves the definitions in the directory at a path, by the lines of an input that isn't buffered.
pub fn serve_directory<
    R: Files + AllocGlobal + Clone + Drop,
    I: Read + Drop,
    P: Progress,
    W: Write,
    E: Write,
>(rt: &R, path: &str, input: I, progress: &mut P, out: &mut W, err: &mut E) -> Status
    ensures { result ≡ Status.Yes → (files : FolderFiles)
        × IsServed files (I.remaining input) (W.contents out.old) (W.contents out.new) }
{
    let Ok(mut input) = BufReader::with_capacity(rt.alloc(), INPUT_BUFFER, input) else {
        return end_with(err, "no memory\n", Status::NoMemory);
    };
    match directory_at(rt, path, progress) {
        Ok(folder) => serve_folder(rt.alloc(), path, folder, &mut input, progress, out, err),
        Err(NoMemory) => {
            progress.end();
            end_with(err, "no memory\n", Status::NoMemory)
        }
    }
}

fn named<'f>(name: &'f str, bytes: Option<&'f [u8]>) -> NamedFile<'f>
    ensures name { result.name.now ≡ name.now }
    ensures bytes { bytes_seen result.bytes ≡ bytes_seen bytes.entry }
{
    NamedFile { name, bytes }
}

/// The same where a user vouches for the unread rules whose texts the file at another path gives.
pub fn serve_directory_given<
    R: Files + AllocGlobal + Clone + Drop,
    I: Read + Drop,
    P: Progress,
    W: Write,
    E: Write,
>(rt: &R, path: &str, given: &str, input: I, progress: &mut P, out: &mut W, err: &mut E) -> Status
    ensures { result ≡ Status.Yes → (files : FolderFiles) × (lines : Option Text)
        × IsServedAsGiven files lines (I.remaining input) (W.contents out.old) (W.contents out.new) }
{
    let Ok(mut input) = BufReader::with_capacity(rt.alloc(), INPUT_BUFFER, input) else {
        return end_with(err, "no memory\n", Status::NoMemory);
    };
    match open_served(rt, path, given, progress) {
        Ok((folder, bytes)) => {
            let bytes = bytes.as_deref();
            serve_folder_given(
                rt.alloc(),
                path,
                folder,
                named(given, bytes),
                &mut input,
                progress,
                out,
                err,
            )
        }
        Err(NoMemory) => {
            progress.end();
            end_with(err, "no memory\n", Status::NoMemory)
        }
    }
}
