//! An audit of what paths name.

ghost use Rattle.std.specs.Prelude.{◌≡◌, map, is_some, option_map, string_bytes, IfOk};
ghost use Rattle.fhir_engine.specs.Serving.{file_seen};
ghost use Rattle.fhir_audit_engine.specs.Told.{SaysOfRead};

use crate::asked::{Asked, NamedBytes};
use crate::certificate_files::part_of;
use crate::new_file::PageFile;
use crate::outputs::{Named, Outputs};
use crate::running::audit_folder;
use fhir_answers::{NamedFile, Status, fault_text};
use fhir_audit::Watch;
use fhir_engine::{Refusal, Wanted, bytes_at, bytes_if_named, directory_at, end_with, paths_at};
use fhir_json::NoMemory;
use fhir_new_folder::NewDirectory;
use fhir_package::{MemoryFolder, Progress};
use fhir_words::AuditRequest;
use std::alloc::AllocError;
use std::collections::BTreeMap;
use std::fs;
use std::io::{ErrorKind, Write};
use std::rt::Files;

// ---- a folder of certificates

fn read_each<R: Files + AllocGlobal>(
    rt: &R,
    folder: &str,
    paths: BTreeMap<String, String>,
) -> Result<Vec<NamedBytes>, Refusal> {
    let mut files = Vec::with_capacity(rt.alloc(), paths.len())?;
    for (name, path) in paths {
        let Some(bytes) = bytes_at(rt, path.as_str())? else {
            let path = format!(in rt.alloc(); "{folder}/{}", name.as_str())?;
            return Err(Refusal::Fault(fault_text(rt.alloc(), "P1", path.as_str())?));
        };
        if files.push(NamedBytes { name, bytes }).is_err() {
            return Err(Refusal::NoMemory);
        }
    }
    Ok(files)
}

fn certificates_at<R: Files + AllocGlobal + Clone + Drop>(
    rt: &R,
    folder: &str,
) -> Result<Vec<NamedBytes>, Refusal> {
    match paths_at(rt, folder, Wanted::All) {
        Ok(paths) => read_each(rt, folder, paths),
        Err(error) if error.kind() == ErrorKind::OutOfMemory => Err(Refusal::NoMemory),
        Err(_) => Err(Refusal::unlisted(rt.alloc(), folder)?),
    }
}

// ---- what a request names

/// What a request names: the folder of the definitions, the bytes of the file of texts, where it can be read, and the certificates of which it is
/// asked whether they hold still.
#[derive(Drop)]
pub struct Opened {
    /// The folder.
    pub folder: MemoryFolder,
    /// The texts.
    pub given: Option<Vec<u8>>,
    /// The certificates.
    pub held: Option<Vec<NamedBytes>>,
}

fn held_at<R: Files + AllocGlobal + Clone + Drop>(
    rt: &R,
    against: Option<&str>,
) -> Result<Option<Vec<NamedBytes>>, Refusal>
    ensures { IfOk result (λ held. is_some held ≡ is_some against.entry) }
{
    match against {
        Some(folder) => Ok(Some(certificates_at(rt, folder)?)),
        None => Ok(None),
    }
}

fn open_request<R: Files + AllocGlobal + Clone + Drop, P: Progress>(
    rt: &R,
    request: &AuditRequest<'_>,
    progress: &mut P,
) -> Result<Opened, Refusal>
    ensures { IfOk result (λ opened. is_some opened.held ≡ is_some request.now.against) }
{
    let folder = directory_at(rt, request.folder, progress)?;
    let given = bytes_if_named(rt, request.given)?;
    let held = held_at(rt, request.against)?;
    Ok(Opened {
        folder,
        given,
        held,
    })
}

// ---- where it is written

// Whether something stands at a path, be it a link that leads nowhere.
fn is_taken<R: Files>(rt: &R, path: &str) -> bool {
    path.is_empty() || fs::symlink_metadata(rt, path).is_ok()
}

fn already_there<R: AllocGlobal>(rt: &R, path: &str) -> Result<Refusal, AllocError> {
    Ok(Refusal::Fault(fault_text(rt.alloc(), "exists", path)?))
}

// Refuses a path at which something stands.
fn expect_free<R: Files + AllocGlobal>(rt: &R, path: &str) -> Result<(), Refusal> {
    if is_taken(rt, path) {
        Err(already_there(rt, path)?)
    } else {
        Ok(())
    }
}

fn expect_free_folder<R: Files + AllocGlobal>(rt: &R, name: &str) -> Result<(), Refusal> {
    if is_taken(rt, name.trim_end_matches('/')) {
        return Err(already_there(rt, name)?);
    }
    let part = part_of(rt.alloc(), name)?;
    expect_free(rt, part.as_str())
}

fn expect_free_page<R: Files + AllocGlobal>(rt: &R, name: &str) -> Result<(), Refusal> {
    let part = format!(in rt.alloc(); "{name}.part")?;
    expect_free(rt, part.as_str())
}

// Refuses a new folder or a page that can't be begun, as far as that is seen before anything is read.
fn expect_all_free<R: Files + AllocGlobal>(
    rt: &R,
    request: &AuditRequest<'_>,
) -> Result<(), Refusal> {
    if let Some(name) = request.certificates {
        expect_free_folder(rt, name)?;
    }
    match request.page {
        Some(name) => expect_free_page(rt, name),
        None => Ok(()),
    }
}

fn outputs_of<'r, 'w, R: Files + AllocGlobal>(
    rt: &'r R,
    request: &AuditRequest<'w>,
) -> Result<Outputs<'w, NewDirectory<'r, R>, PageFile<'r, R>>, NoMemory> {
    let certificates = match request.certificates {
        Some(name) => Some(Named {
            name,
            output: NewDirectory::new(rt, name)?,
        }),
        None => None,
    };
    let page = match request.page {
        Some(name) => Some(Named {
            name,
            output: PageFile::new(rt, name)?,
        }),
        None => None,
    };
    Ok(Outputs { certificates, page })
}

// ---- the run

fn asked_of<'a>(
    request: &'a AuditRequest<'_>,
    given: Option<&'a [u8]>,
    held: Option<&'a [NamedBytes]>,
) -> Asked<'a>
    ensures prefixes { result.prefixes.now ≡ request.now.prefixes.items }
    ensures given { is_some (file_seen result.given) ≡ is_some request.now.given }
    ensures held { option_map (λ f. f.now) result.held ≡ option_map (λ f. f.now) held.entry }
    ensures format { result.format ≡ request.now.format }
{
    Asked {
        prefixes: &request.prefixes,
        given: match request.given {
            Some(name) => Some(NamedFile { name, bytes: given }),
            None => None,
        },
        held,
        format: request.format,
    }
}

fn run_opened<R: Files + AllocGlobal, P: Progress, V: Watch, W: Write, E: Write>(
    rt: &R,
    request: &AuditRequest<'_>,
    opened: Opened,
    progress: &mut P,
    watch: &mut V,
    out: &mut W,
    err: &mut E,
) -> Status
    requires { is_some opened.held ≡ is_some request.now.against }
    ensures { SaysOfRead (map string_bytes request.now.prefixes.items) request.now.format (is_some request.now.given) (is_some request.now.against)
        result (W.contents out.old) (W.contents out.new) }
{
    let Opened {
        folder,
        given,
        held,
    } = opened;
    let asked = asked_of(request, given.as_deref(), held.as_deref());
    match outputs_of(rt, request) {
        Ok(mut outputs) => audit_folder(
            rt.alloc(),
            request.folder,
            folder,
            asked,
            &mut outputs,
            progress,
            watch,
            out,
            err,
        ),
        Err(NoMemory) => end_with(err, "no memory\n", Status::NoMemory),
    }
}

fn run_free<R: Files + AllocGlobal + Clone + Drop, P: Progress, V: Watch, W: Write, E: Write>(
    rt: &R,
    request: &AuditRequest<'_>,
    progress: &mut P,
    watch: &mut V,
    out: &mut W,
    err: &mut E,
) -> Status
    ensures { SaysOfRead (map string_bytes request.now.prefixes.items) request.now.format (is_some request.now.given) (is_some request.now.against)
        result (W.contents out.old) (W.contents out.new) }
{
    match open_request(rt, request, progress) {
        Ok(opened) => run_opened(rt, request, opened, progress, watch, out, err),
        Err(refusal) => {
            progress.end();
            refusal.tell(err)
        }
    }
}

/// Does what `audit` asks, of the directory that the request names. A folder for certificates is refused first where something stands at its path, and
/// then a page beside which its part stands.
/// How far the work is, is told to `progress` and to `watch`.
pub fn audit_directory<
    R: Files + AllocGlobal + Clone + Drop,
    P: Progress,
    V: Watch,
    W: Write,
    E: Write,
>(
    rt: &R,
    request: &AuditRequest<'_>,
    progress: &mut P,
    watch: &mut V,
    out: &mut W,
    err: &mut E,
) -> Status
    ensures { SaysOfRead (map string_bytes request.now.prefixes.items) request.now.format (is_some request.now.given) (is_some request.now.against)
        result (W.contents out.old) (W.contents out.new) }
{
    match expect_all_free(rt, request) {
        Ok(()) => run_free(rt, request, progress, watch, out, err),
        Err(refusal) => refusal.tell(err),
    }
}
