//! The engine: it does what words ask, and writes what is answered.

ghost use Rattle.std.specs.Prelude.{◌≡◌, false, Result, Ok, IfOk, IfErr, IsTrue};
ghost use Rattle.std.specs.Io.KnownBytes.{Appends};
ghost use Rattle.fhir_package.specs.declared.folder.FolderFault.{FolderFault};
ghost use Rattle.fhir_package.specs.ReadFiles.{ReadFiles};
ghost use Rattle.fhir_engine.specs.Answering.{RepliesTo, RepliesFor};
ghost use Rattle.fhir_engine.specs.Ending.{HasEnded, told_status};
ghost use Rattle.fhir_engine.specs.Promising.{ReadPromise, WordsPromise, Promise};
ghost use Rattle.fhir_answers.specs.Replying.{ReplyValue, written, reply_seen, status_of, is_told, is_quiet};
ghost use Rattle.fhir_engine.specs.Reading.{words_status, IsReadOf};
ghost use Rattle.fhir_answers.specs.Status.{code_of};
ghost use Rattle.fhir_answers.specs.Views.{files_seen};
ghost use Rattle.fhir_words.specs.Views.{request_seen, asked_seen};

use fhir_answers::{Reply, Session, Status, fault_reply};
use fhir_json::NoMemory;
use fhir_package::{Folder, FolderFault, FolderFiles, Progress, given_files, surveys};
use fhir_words::{Invocation, Request, VERSION, WordsFault};
use std::alloc::Global;
use std::io::Write;

/// Whether an output takes bytes.
pub fn is_written<W: Write>(end: &mut W, bytes: &[u8]) -> bool
    ensures { IsTrue result → Appends (W.contents end.old) (W.contents end.new) bytes.now }
{
    end.write_all(bytes).is_ok()
}

/// Says something to standard error, which may fail, and ends with that status.
pub fn end_with<E: Write>(err: &mut E, text: &str, status: Status) -> Status
    ensures { result ≡ status }
{
    let _ = is_written(err, text.as_bytes());
    status
}

// Writes bytes to standard output, and ends with that status.
fn put<W: Write>(out: &mut W, bytes: &[u8], status: Status) -> Status
    ensures { HasEnded result (W.contents out.old) (W.contents out.new) (written (code_of status) bytes.now) }
{
    if is_written(out, bytes) {
        status
    } else {
        Status::Unwritten
    }
}

/// Writes a reply to the output that is its own.
pub fn write_reply<W: Write, E: Write>(reply: &Reply, out: &mut W, err: &mut E) -> Status
    ensures ended { HasEnded result (W.contents out.old) (W.contents out.new) (reply_seen reply.now) }
    ensures fault { IsTrue (is_told (reply_seen reply.now)) → (result ≡ Status.Fault) × (out.new ≡ out.old) }
    ensures quiet { IsTrue (is_quiet (reply_seen reply.now)) → err.new ≡ err.old }
{
    match reply {
        Reply::Answer { status, out: bytes } => put(out, bytes, *status),
        Reply::Noted {
            status,
            out: bytes,
            notes,
        } => end_with(err, notes.as_str(), put(out, bytes, *status)),
        Reply::Fault(text) => end_with(err, text.as_str(), Status::Fault),
    }
}

// The answer to a request.
fn answer<P: Progress>(
    alloc: Global,
    request: &Request<'_>,
    read: &Result<FolderFiles, FolderFault>,
    files: &[Option<Vec<u8>>],
    progress: &mut P,
) -> Result<Reply, NoMemory>
    ensures told { IfOk result (λ r. RepliesTo (request_seen request.now) read.now (files_seen files.now) (reply_seen r)) }
    ensures promised { IfOk result (λ r. status_of (reply_seen r) ≡ 0
        → ReadPromise (request_seen request.now) read.now (files_seen files.now)) }
{
    match read {
        Ok(read) => answer_read(alloc, request, read, files, progress),
        Err(FolderFault::Device) => Ok(fault_reply(alloc, "P1", request.folder())?),
        Err(FolderFault::NoMemory) => Err(NoMemory),
    }
}

// The same of the files that were read.
fn answer_read<P: Progress>(
    alloc: Global,
    request: &Request<'_>,
    read: &FolderFiles,
    files: &[Option<Vec<u8>>],
    progress: &mut P,
) -> Result<Reply, NoMemory>
    ensures told { IfOk result (λ r. RepliesTo (request_seen request.now) (Ok read.now) (files_seen files.now) (reply_seen r)) }
    ensures promised { IfOk result (λ r. status_of (reply_seen r) ≡ 0
        → ReadPromise (request_seen request.now) (Ok read.now) (files_seen files.now)) }
{
    surveys();
    let session = Session::of(alloc, read, progress)?;
    session.answer(alloc, request, files)
}

// Answers a request.
fn respond<W: Write, E: Write, P: Progress>(
    alloc: Global,
    request: &Request<'_>,
    read: &Result<FolderFiles, FolderFault>,
    files: &[Option<Vec<u8>>],
    progress: &mut P,
    out: &mut W,
    err: &mut E,
) -> Status
    ensures told { (result ≡ Status.NoMemory → ⊥) → (reply : ReplyValue)
        × RepliesTo (request_seen request.now) read.now (files_seen files.now) reply
        × HasEnded result (W.contents out.old) (W.contents out.new) reply
        × (IsTrue (is_told reply) → (result ≡ Status.Fault) × (out.new ≡ out.old)) × (IsTrue (is_quiet reply) → err.new ≡ err.old) }
    ensures promised { result ≡ Status.Yes → ReadPromise (request_seen request.now) read.now (files_seen files.now) }
{
    let reply = answer(alloc, request, read, files, progress);
    progress.end();
    match reply {
        Ok(reply) => write_reply(&reply, out, err),
        Err(NoMemory) => end_with(err, "no memory\n", Status::NoMemory),
    }
}

// Says why words ask for nothing.
fn refuse<E: Write>(fault: WordsFault, err: &mut E) -> Status
    ensures { result ≡ words_status fault }
{
    match fault {
        WordsFault::Usage => end_with(err, "usage: fhirprof COMMAND ..\n", Status::Usage),
        WordsFault::NoMemory => end_with(err, "no memory\n", Status::NoMemory),
    }
}

// Does what words ask, of the files that were read.
fn answer_words<W: Write, E: Write, P: Progress>(
    alloc: Global,
    asked: &Result<Invocation<'_>, WordsFault>,
    read: &Result<FolderFiles, FolderFault>,
    files: &[Option<Vec<u8>>],
    progress: &mut P,
    out: &mut W,
    err: &mut E,
) -> Status
    ensures told { (result ≡ Status.NoMemory → ⊥) → (reply : ReplyValue)
        × RepliesFor (asked_seen asked.now) read.now (files_seen files.now) reply
        × HasEnded result (W.contents out.old) (W.contents out.new) reply
        × (IsTrue (is_told reply) → (result ≡ told_status (asked_seen asked.now)) × (out.new ≡ out.old))
        × (IsTrue (is_quiet reply) → err.new ≡ err.old) }
    ensures words { IfErr asked.now (λ fault. result ≡ words_status fault) }
    ensures promised { result ≡ Status.Yes → WordsPromise (asked_seen asked.now) read.now (files_seen files.now) }
{
    match asked {
        Ok(Invocation::Request(request)) => {
            respond(alloc, request, read, files, progress, out, err)
        }
        Ok(Invocation::Version) => put(out, VERSION.as_bytes(), Status::Yes),
        Err(fault) => {
            progress.end();
            refuse(*fault, err)
        }
    }
}

/// The files of a folder, which is dropped then.
pub fn files_of<F: Folder + Drop>(alloc: Global, mut folder: F) -> Result<FolderFiles, FolderFault>
    ensures { IsReadOf (F.files folder) result }
{
    FolderFiles::read(alloc, &mut folder)
}

/// Does what words ask, of the folder and the bytes of the files that they name, in their order, and writes what is answered at
/// once: what can't be answered to standard error, and all else to standard output. The folder is read first. A file that can't
/// be read has no bytes. What is told beside an answer, of lines of a file that say nothing, goes to standard error too. How far the work is, is told to `progress`. An output that fails is a fault; a failure of standard error changes
/// nothing.
pub fn run<F: Folder + Drop, W: Write, E: Write, P: Progress>(
    alloc: Global,
    asked: &Result<Invocation<'_>, WordsFault>,
    folder: F,
    files: &[Option<Vec<u8>>],
    progress: &mut P,
    out: &mut W,
    err: &mut E,
) -> Status
    // Of what was read of the folder, the reply is the one that is stated, or one of those that are. What can't be answered has
    // its status, and nothing is written to standard output; of any other reply nothing is written to standard error, unless
    // something is told beside it.
    ensures told { (result ≡ Status.NoMemory → ⊥) → (read : Result ReadFiles FolderFault) × (reply : ReplyValue)
        × IsReadOf (F.files folder) read
        × RepliesFor (asked_seen asked.now) read (files_seen files.now) reply
        × HasEnded result (W.contents out.old) (W.contents out.new) reply
        × (IsTrue (is_told reply) → (result ≡ told_status (asked_seen asked.now)) × (out.new ≡ out.old))
        × (IsTrue (is_quiet reply) → err.new ≡ err.old) }
    ensures words { IfErr asked.now (λ fault. result ≡ words_status fault) }
    // What a yes promises.
    ensures promised { result ≡ Status.Yes → Promise (asked_seen asked.now) (F.files folder) (files_seen files.now) }
{
    given_files();
    let read = files_of(alloc, folder);
    answer_words(alloc, asked, &read, files, progress, out, err)
}
