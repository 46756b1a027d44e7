//! A comparison of two folders.

ghost use Rattle.std.specs.Prelude.{◌≡◌, None, IfOk, IsTrue, string_bytes};
ghost use Rattle.fhir_package.specs.Folder.{Files as NamedFiles};
ghost use Rattle.fhir_package.specs.Surveying.{survey, refusal};
ghost use Rattle.fhir_package.specs.ReadFiles.{ReadFiles};
ghost use Rattle.fhir_schema.specs.Schemas.{schema_of};
ghost use Rattle.fhir_answers.specs.Replying.{is_told, reply_seen};
ghost use Rattle.fhir_answers.specs.Session.{IsSessionOf, schema_in};
ghost use Rattle.fhir_answers.specs.Status.{code_of};
ghost use Rattle.fhir_compare_engine.specs.Answering.{part_status, IsReplyBy, IsNew, IsReply, IsReplyRead, IsPromised};

use fhir_answers::{Reply, Session, Status, fault_reply};
use fhir_beside::{Made, beside};
use fhir_compare::{Comparison, compare};
use fhir_compare_lines::{Part, Side, Sources, comparison_text, part_of};
use fhir_engine::{directory_at, end_with, files_of, write_reply};
use fhir_json::NoMemory;
use fhir_package::{
    FileFault, Folder, FolderFault, FolderFiles, MemoryFolder, Package, Progress, Survey,
};
use fhir_report::LackingTable;
use fhir_schema::Schema;
use fhir_snapshot::complete;
use fhir_words::CompareRequest;
use std::alloc::{AllocError, Global};
use std::io::Write;
use std::rt::Files;

// What was read of NEW: what was found of its files, with OLD's profiles beside the definitions, each behind a mark; why definitions have no snapshot;
// and how many types differ.
#[derive(Drop)]
struct New<'n> {
    survey: Survey<'n>,
    mark: String,
    lacking: LackingTable,
    types: usize,
}

fn status_of(part: Part) -> Status
    ensures { code_of result ≡ part_status part }
{
    match part {
        Part::None | Part::Minor => Status::Yes,
        Part::Major => Status::No,
    }
}

// A fault of the input.
fn told(alloc: Global, number: &str, subject: &str) -> Result<Reply, AllocError>
    ensures { IfOk result (λ r. IsTrue (is_told (reply_seen r))) }
{
    let reply = fault_reply(alloc, number, subject)?;
    Ok(reply)
}

// What is answered where the files of a folder are no package. A file is named with its folder, since there are two.
fn refused_in(alloc: Global, folder: &str, fault: &FileFault<'_>) -> Result<Reply, AllocError>
    ensures { IfOk result (λ r. IsTrue (is_told (reply_seen r))) }
{
    match fault {
        FileFault::Clash(_) => told(alloc, fault.number(), fault.subject()),
        FileFault::Unreadable(_) | FileFault::NotJson(_) => {
            let path = format!(in alloc; "{folder}/{}", fault.subject())?;
            told(alloc, fault.number(), path.as_str())
        }
    }
}

// What is answered where a folder isn't listed.
fn unlisted(alloc: Global, folder: &str, fault: FolderFault) -> Result<Reply, NoMemory>
    ensures { IfOk result (λ r. IsTrue (is_told (reply_seen r))) }
{
    match fault {
        FolderFault::Device => Ok(told(alloc, "P1", folder)?),
        FolderFault::NoMemory => Err(NoMemory),
    }
}

fn sides_of<'s, 'o, 'n>(
    old: &'s Session<'o>,
    new: &'s New<'n>,
    schema: &'s Schema,
) -> Comparison<'s, 'o, 'n>
    ensures old { result.old.now ≡ old.now.survey.definitions }
    ensures old_schema { result.old_schema.now ≡ schema_in old.now }
    ensures new { result.new.now ≡ new.now.survey.definitions }
    ensures schema { result.schema.now ≡ schema.now }
    ensures mark { result.mark.now ≡ string_bytes new.now.mark }
{
    Comparison {
        old: old.survey().package(),
        old_schema: old.schema(),
        new: new.survey.package(),
        schema,
        mark: new.mark.as_str(),
    }
}

fn sources_of<'s, 'o, 'n>(
    old: &'s Session<'o>,
    new: &'s New<'n>,
    schema: &'s Schema,
) -> Sources<'s, 'o, 'n>
    ensures old { result.old.survey.now ≡ old.now.survey }
    ensures new { result.new.survey.now ≡ new.now.survey }
    ensures types { result.types ≡ new.now.types }
{
    Sources {
        old: Side {
            survey: old.survey(),
            lacking: old.lacking(),
            schema: old.schema(),
        },
        new: Side {
            survey: &new.survey,
            lacking: &new.lacking,
            schema,
        },
        mark: new.mark.as_str(),
        types: new.types,
    }
}

// What is answered of both, by the schema of what was made.
fn reply_by(
    alloc: Global,
    request: &CompareRequest<'_>,
    old: &Session<'_>,
    new: &New<'_>,
    schema: &Schema,
) -> Result<Reply, NoMemory>
    requires { schema.now ≡ schema_of new.now.survey.definitions }
    ensures { IfOk result (λ r. IsReplyBy request.now.audience request.now.format old.now.survey.definitions new.now.survey.definitions (string_bytes new.now.mark) new.now.types (reply_seen r)) }
{
    let sides = sides_of(old, new, schema);
    let compared = compare(alloc, sides)?;
    let sources = sources_of(old, new, schema);
    let part = part_of(request.audience, compared.as_slice());
    let text = comparison_text(alloc, request.format, sources, compared.as_slice(), part)?;
    let status = status_of(part);
    let out = text.into_bytes();
    Ok(Reply::Answer { status, out })
}

// What is made of NEW's definitions.
fn new_of<'n>(alloc: Global, old: &Session<'_>, survey: Survey<'n>) -> Result<New<'n>, NoMemory>
    ensures { IfOk result (λ n. IsNew old.now.survey.definitions survey.entry n.survey (string_bytes n.mark) n.types) }
{
    let mut survey = survey;
    let mut definitions = survey.replace_package(Package::new(alloc));
    let faults = complete(alloc, &mut definitions)?;
    let lacking = LackingTable::of(alloc, faults)?;
    let Made {
        mark,
        package,
        types,
    } = beside(alloc, old.survey().package(), old.schema(), definitions)?;
    let _none = survey.replace_package(package);
    Ok(New {
        survey,
        mark,
        lacking,
        types,
    })
}

// What is answered where the files of both are packages.
fn reply_made(
    alloc: Global,
    request: &CompareRequest<'_>,
    old: &Session<'_>,
    found: Survey<'_>,
) -> Result<Reply, NoMemory>
    requires old_right { refusal old.now.survey ≡ None }
    requires new_right { refusal found ≡ None }
    ensures { IfOk result (λ r. (read new : ReadFiles) → IsSessionOf read old.now → found.entry ≡ survey new
        → IsReply request.now.audience request.now.format read new (reply_seen r)) }
{
    let new = new_of(alloc, old, found)?;
    let schema = Schema::build(alloc, new.survey.package())?;
    let reply = reply_by(alloc, request, old, &new, &schema)?;
    Ok(reply)
}

// What is answered where OLD's files are a package.
fn reply_to<P: Progress>(
    alloc: Global,
    request: &CompareRequest<'_>,
    old: &Session<'_>,
    new: &FolderFiles,
    progress: &mut P,
) -> Result<Reply, NoMemory>
    requires old_right { refusal old.now.survey ≡ None }
    ensures { IfOk result (λ r. (read : ReadFiles) → IsSessionOf read old.now → IsReply request.now.audience request.now.format read new.now (reply_seen r)) }
{
    let found = Survey::of(alloc, new, progress)?;
    if let Some(fault) = found.refusal() {
        return Ok(refused_in(alloc, request.new, fault)?);
    }
    let reply = reply_made(alloc, request, old, found)?;
    Ok(reply)
}

fn reply_of<P: Progress>(
    alloc: Global,
    request: &CompareRequest<'_>,
    old: &FolderFiles,
    new: &FolderFiles,
    progress: &mut P,
) -> Result<Reply, NoMemory>
    ensures { IfOk result (λ r. IsReply request.now.audience request.now.format old.now new.now (reply_seen r)) }
{
    let session = Session::of(alloc, old, progress)?;
    match session.package() {
        Ok(_schema) => reply_to(alloc, request, &session, new, progress),
        Err(fault) => Ok(refused_in(alloc, request.old, fault)?),
    }
}

// What is answered of what was read of two folders.
fn reply_read<P: Progress>(
    alloc: Global,
    request: &CompareRequest<'_>,
    old: &Result<FolderFiles, FolderFault>,
    new: &Result<FolderFiles, FolderFault>,
    progress: &mut P,
) -> Result<Reply, NoMemory>
    ensures { IfOk result (λ r. IsReplyRead request.now.audience request.now.format old.now new.now (reply_seen r)) }
{
    match (old, new) {
        (Ok(old), Ok(new)) => reply_of(alloc, request, old, new, progress),
        (Err(fault), _) => unlisted(alloc, request.old, *fault),
        (_, Err(fault)) => unlisted(alloc, request.new, *fault),
    }
}

/// Compares the profiles of two folders, and writes what is told of them at once: what can't be compared to standard error, and all else to standard
/// output. How far the reading is, is told to `progress`. The status is 1 exactly where the first part of a version has to change.
pub fn compare_folders<F: Folder + Drop, P: Progress, W: Write, E: Write>(
    alloc: Global,
    request: &CompareRequest<'_>,
    old: F,
    new: F,
    progress: &mut P,
    out: &mut W,
    err: &mut E,
) -> Status
    ensures { IsPromised result request.now.audience request.now.format (F.files old) (F.files new) (W.contents out.old) (W.contents out.new) }
{
    let old = files_of(alloc, old);
    let new = files_of(alloc, new);
    let reply = reply_read(alloc, request, &old, &new, progress);
    progress.end();
    match reply {
        Ok(reply) => write_reply(&reply, out, err),
        Err(NoMemory) => end_with(err, "no memory\n", Status::NoMemory),
    }
}

fn open<R: Files + AllocGlobal + Clone + Drop, P: Progress>(
    rt: &R,
    request: &CompareRequest<'_>,
    progress: &mut P,
) -> Result<(MemoryFolder, MemoryFolder), NoMemory> {
    let old = directory_at(rt, request.old, progress)?;
    let new = directory_at(rt, request.new, progress)?;
    Ok((old, new))
}

/// The same of the directories that a request names.
pub fn compare_directories<R: Files + AllocGlobal + Clone + Drop, P: Progress, W: Write, E: Write>(
    rt: &R,
    request: &CompareRequest<'_>,
    progress: &mut P,
    out: &mut W,
    err: &mut E,
) -> Status
    ensures { (old new : NamedFiles) × IsPromised result request.now.audience request.now.format old new (W.contents out.old) (W.contents out.new) }
{
    match open(rt, request, progress) {
        Ok((old, new)) => compare_folders(rt.alloc(), request, old, new, progress, out, err),
        Err(NoMemory) => {
            progress.end();
            end_with(err, "no memory\n", Status::NoMemory)
        }
    }
}
