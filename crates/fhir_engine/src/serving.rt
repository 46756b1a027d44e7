//! How definitions are served: a session over the lines of an input.

ghost use Rattle.std.specs.Prelude.{◌≡◌, ◌⊎◌, Ok, None, Some, IfOk, IfErr, IsSome};
ghost use Rattle.fhir_package.specs.Packing.{pack};
ghost use Rattle.fhir_package.specs.ReadFiles.{pack_given};
ghost use Rattle.fhir_engine.specs.Refusing.{refusal_text};
ghost use Rattle.fhir_engine.specs.Serving.{AllWereAnswered, SomeWereAnswered, IsServed, IsPartlyServed, AreTexts, AreVouched, AreHeld, IsOpened, IsServedAsGiven, IsPartlyServedAsGiven};
ghost use Rattle.fhir_answers.specs.Views.{bytes_seen};
ghost use Rattle.fhir_unread.specs.Given.{texts_given, AreSame};

use crate::engine::{end_with, files_of, is_written};
use crate::refusal::Refusal;
use fhir_answers::{NamedFile, Session, Status, refused_reply, unreadable_reply};
use fhir_package::{
    Folder, FolderFault, FolderFiles, Package, Progress, Survey, given_files, surveys,
};
use fhir_registry::Registry;
use fhir_serve::{Ending, Service, serve};
use fhir_unread::Given;
use fhir_vouching::GivenFault;
use std::alloc::{AllocError, Global};
use std::io::{BufRead, Write};

// The registry of files, or what is told where they are no package.
fn registry_of<P: Progress>(
    alloc: Global,
    files: &FolderFiles,
    progress: &mut P,
) -> Result<Registry, Refusal>
    ensures { IfOk result (λ registry. (pack_given files.now ≡ Some (Ok registry.definitions)) × (registry.texts ≡ None)) }
{
    surveys();
    let mut survey = Survey::of(alloc, files, progress)?;
    if let Some(fault) = survey.refusal() {
        let reply = refused_reply(alloc, fault)?;
        return Err(Refusal::of_reply(alloc, reply));
    }
    match Registry::new(alloc, survey.replace_package(Package::new(alloc))) {
        Ok(registry) => Ok(registry),
        Err(_) => Err(Refusal::NoMemory),
    }
}

// The same of a folder of that name, whose files are dropped then.
fn open_registry<F: Folder + Drop, P: Progress>(
    alloc: Global,
    name: &str,
    folder: F,
    progress: &mut P,
) -> Result<Registry, Refusal>
    ensures { IfOk result (λ registry. IsOpened (F.files folder) registry) }
{
    given_files();
    match files_of(alloc, folder) {
        Ok(files) => registry_of(alloc, &files, progress),
        Err(FolderFault::Device) => Err(Refusal::unlisted(alloc, name)?),
        Err(FolderFault::NoMemory) => Err(Refusal::NoMemory),
    }
}

// Answers the lines of an input.
fn serve_lines<S: Service, I: BufRead, W: Write, E: Write>(
    alloc: Global,
    service: &mut S,
    input: &mut I,
    out: &mut W,
    err: &mut E,
) -> Status
    ensures served { result ≡ Status.Yes
        → AllWereAnswered S.answers service.old (I.remaining input.old) (W.contents out.old) (W.contents out.new) }
    ensures partly { result ≡ Status.Fault
        → SomeWereAnswered S.answers service.old (I.remaining input.old) (W.contents out.old) (W.contents out.new) }
{
    match serve(alloc, service, input, out) {
        Ending::Done => Status::Yes,
        Ending::Unread => end_with(err, "read input\n", Status::Fault),
        Ending::Unwritten => Status::Unwritten,
    }
}

/// Serves the definitions in a folder of that name: each line of the input is a command, which is answered by a line before the next is
/// read. The folder is read first; how far that is, is told to `progress`. What can't be served, and an input that fails, are told on
/// standard error. An output that fails ends it too.
pub fn serve_folder<F: Folder + Drop, I: BufRead, W: Write, E: Write, P: Progress>(
    alloc: Global,
    name: &str,
    folder: F,
    input: &mut I,
    progress: &mut P,
    out: &mut W,
    err: &mut E,
) -> Status
    ensures served { result ≡ Status.Yes → IsServed (F.files folder) (I.remaining input.old) (W.contents out.old) (W.contents out.new) }
    ensures partly { result ≡ Status.Fault → (out.new ≡ out.old)
        ⊎ IsPartlyServed (F.files folder) (I.remaining input.old) (W.contents out.old) (W.contents out.new) }
{
    let opened = open_registry(alloc, name, folder, progress);
    progress.end();
    match opened {
        Ok(registry) => {
            let mut registry = registry;
            serve_lines(alloc, &mut registry, input, out, err)
        }
        Err(refusal) => refusal.tell(err),
    }
}

// ---- where a user vouches for unread rules

// That the file of that name can't be read.
fn unreadable_file(alloc: Global, name: &str) -> Result<Refusal, AllocError>
    ensures { IfOk result (λ refusal. IsSome (refusal_text refusal)) }
{
    let reply = unreadable_reply(alloc, name)?;
    Ok(Refusal::of_reply(alloc, reply))
}

fn vouched_by(
    alloc: Global,
    session: &Session<'_>,
    name: &str,
    bytes: &[u8],
) -> Result<Given, Refusal>
    ensures given { IfOk result (λ given. AreSame given.vouching (texts_given bytes.now)) }
    ensures told { IfErr result (λ refusal. IsSome (refusal_text refusal)) }
{
    match session.vouch(alloc, name, bytes) {
        Ok(given) => Ok(given),
        Err(GivenFault::NotUtf8) => Err(unreadable_file(alloc, name)?),
        Err(GivenFault::NoMemory) => Err(Refusal::NoMemory),
    }
}

/// What a user vouches for by a file, with what is told of its lines. It is refused where the file can't be read or isn't UTF-8.
pub fn vouched(alloc: Global, session: &Session<'_>, file: NamedFile<'_>) -> Result<Given, Refusal>
    ensures given { IfOk result (λ given. AreTexts (bytes_seen file.entry.bytes) given.vouching) }
    ensures told { IfErr result (λ refusal. IsSome (refusal_text refusal)) }
{
    match file.bytes {
        Some(bytes) => vouched_by(alloc, session, file.name, bytes),
        None => Err(unreadable_file(alloc, file.name)?),
    }
}

// A registry with what a user vouches for by a file, and what is told of the file's lines.
fn with_given(
    alloc: Global,
    registry: Registry,
    session: &Session<'_>,
    file: NamedFile<'_>,
) -> Result<(Registry, String), Refusal>
    ensures { IfOk result (λ held. (held.0.definitions ≡ registry.definitions) × AreVouched (bytes_seen file.entry.bytes) held.0.texts) }
{
    let mut registry = registry;
    let Given { vouching, notes } = vouched(alloc, session, file)?;
    registry.vouch(vouching);
    Ok((registry, notes))
}

// The same of the registry of files.
fn given_registry_of<P: Progress>(
    alloc: Global,
    files: &FolderFiles,
    file: NamedFile<'_>,
    progress: &mut P,
) -> Result<(Registry, String), Refusal>
    ensures { IfOk result (λ held. (pack_given files.now ≡ Some (Ok held.0.definitions)) × AreVouched (bytes_seen file.entry.bytes) held.0.texts) }
{
    let registry = registry_of(alloc, files, progress)?;
    let session = Session::of(alloc, files, progress)?;
    with_given(alloc, registry, &session, file)
}

// The same of a folder of that name, whose files are dropped then.
fn open_given<F: Folder + Drop, P: Progress>(
    alloc: Global,
    name: &str,
    folder: F,
    file: NamedFile<'_>,
    progress: &mut P,
) -> Result<(Registry, String), Refusal>
    ensures { IfOk result (λ held. AreHeld (F.files folder) (bytes_seen file.entry.bytes) held.0) }
{
    given_files();
    match files_of(alloc, folder) {
        Ok(files) => given_registry_of(alloc, &files, file, progress),
        Err(FolderFault::Device) => Err(Refusal::unlisted(alloc, name)?),
        Err(FolderFault::NoMemory) => Err(Refusal::NoMemory),
    }
}

/// Serves the definitions in a folder of that name where a user vouches for the unread rules whose texts a file gives: resources are
/// judged as these hold. Beside what is told otherwise, a file that can't be read or isn't UTF-8 is told on standard error, behind all
/// that is wrong with the folder; and so is each line of it that gives no text which a definition carries, before the first line of
/// the input is read.
pub fn serve_folder_given<F: Folder + Drop, I: BufRead, W: Write, E: Write, P: Progress>(
    alloc: Global,
    name: &str,
    folder: F,
    file: NamedFile<'_>,
    input: &mut I,
    progress: &mut P,
    out: &mut W,
    err: &mut E,
) -> Status
    ensures served { result ≡ Status.Yes
        → IsServedAsGiven (F.files folder) (bytes_seen file.entry.bytes) (I.remaining input.old) (W.contents out.old) (W.contents out.new) }
    ensures partly { result ≡ Status.Fault → (out.new ≡ out.old)
        ⊎ IsPartlyServedAsGiven (F.files folder) (bytes_seen file.entry.bytes) (I.remaining input.old) (W.contents out.old) (W.contents out.new) }
{
    let opened = open_given(alloc, name, folder, file, progress);
    progress.end();
    match opened {
        Ok((registry, notes)) => {
            let mut registry = registry;
            let _ = is_written(err, notes.as_bytes());
            serve_lines(alloc, &mut registry, input, out, err)
        }
        Err(refusal) => refusal.tell(err),
    }
}
