//! An audit of the definitions in a folder.

ghost use Rattle.std.specs.Prelude.{◌≡◌, None, map, option_map, string_bytes, IfOk, OnOk};
ghost use Rattle.std.specs.Io.KnownBytes.{Appends};
ghost use Rattle.fhir_json.specs.Tree.{Text};
ghost use Rattle.fhir_package.specs.Surveying.{refusal};
ghost use Rattle.fhir_answers.specs.Session.{schema_in};
ghost use Rattle.fhir_audit.specs.Auditing.{AllNarrow};
ghost use Rattle.fhir_audit.specs.Standing.{IsHeld};
ghost use Rattle.fhir_audit.specs.Views.{all_audited};
ghost use Rattle.fhir_audit_engine.specs.Promising.{AllNarrowIn, AuditPromise};
ghost use Rattle.fhir_engine.specs.Serving.{file_seen};
ghost use Rattle.fhir_audit_engine.specs.Told.{are_held, audit_status, AreRechecked, AreRecheckedIf, IsAuditOf, IsTold, IsAnswered, SaysOf};

use crate::asked::{Asked, NamedBytes};
use crate::certificate_files::{files_refusal, write_certificates};
use crate::new_file::NewFile;
use crate::outputs::Outputs;
use fhir_answers::{Session, Status, fault_text, refused_reply};
use fhir_audit::{Audited, Watch, are_narrowing, audit, narrowing_profiles, recheck};
use fhir_audit_lines::{HeldFile, are_holding, audit_text};
use fhir_audit_words::Sources;
use fhir_engine::{Refusal, files_of, is_written, vouched};
use fhir_findings::{SelectFault, Selection};
use fhir_json::NoMemory;
use fhir_new_folder::{NewFolder, WriteFault};
use fhir_package::{Folder, FolderFault, Progress};
use fhir_page::page;
use fhir_unread::Given;
use fhir_vouching::Vouching;
use std::alloc::{AllocError, Global};
use std::io::Write;

fn sources_of<'s, 'f: 's>(session: &'s Session<'f>) -> Sources<'s, 'f>
    ensures survey { result.survey.now ≡ session.now.survey }
    ensures schema { result.schema.now ≡ schema_in session.now }
{
    Sources {
        survey: session.survey(),
        schema: session.schema(),
        lacking: session.lacking(),
    }
}

// ---- the certificates that were made before

fn held_file<'s>(
    alloc: Global,
    session: &'s Session<'_>,
    file: &NamedBytes,
) -> Result<HeldFile<'s>, NoMemory>
    ensures name { IfOk result (λ h. string_bytes h.name ≡ string_bytes file.now.name) }
    ensures held { IfOk result (λ h. IsHeld (schema_in session.now) session.now.survey.definitions file.now.bytes.items h.held) }
{
    let package = session.survey().package();
    Ok(HeldFile {
        name: file.name.clone()?,
        held: recheck(alloc, package, session.schema(), &file.bytes)?,
    })
}

fn held_files<'s>(
    alloc: Global,
    session: &'s Session<'_>,
    files: &[NamedBytes],
) -> Result<Vec<HeldFile<'s>>, NoMemory>
    ensures { IfOk result (λ all. AreRechecked (schema_in session.now) session.now.survey.definitions files.now all.items) }
{
    let mut all: Vec<HeldFile<'s>> = Vec::with_capacity(alloc, files.len())?;
    for file in files {
        all.push(held_file(alloc, session, file)?)?;
    }
    Ok(all)
}

fn all_held<'s>(
    alloc: Global,
    session: &'s Session<'_>,
    files: Option<&[NamedBytes]>,
) -> Result<Option<Vec<HeldFile<'s>>>, NoMemory>
    ensures { IfOk result (λ all. AreRecheckedIf (schema_in session.now) session.now.survey.definitions (option_map (λ f. f.now) files.entry)
        (option_map (λ v. v.items) all)) }
{
    match files {
        Some(files) => Ok(Some(held_files(alloc, session, files)?)),
        None => Ok(None),
    }
}

// ---- what is written

fn are_held(held: Option<&[HeldFile<'_>]>) -> bool
    ensures { result ≡ are_held (option_map (λ f. f.now) held.entry) }
{
    match held {
        Some(files) => are_holding(files),
        None => true,
    }
}

fn status_of(audited: &[Audited<'_>], held: Option<&[HeldFile<'_>]>) -> Status
    ensures { result ≡ audit_status (all_audited audited.now) (option_map (λ f. f.now) held.entry) }
{
    if are_narrowing(audited) && are_held(held) {
        Status::Yes
    } else {
        Status::No
    }
}

// That something of that name was written, or why it wasn't.
fn expect_written(
    alloc: Global,
    name: &str,
    finished: Result<(), WriteFault>,
) -> Result<(), Refusal> {
    match finished {
        Ok(()) => Ok(()),
        Err(WriteFault::Device) => Err(Refusal::Fault(fault_text(alloc, "write", name)?)),
        Err(WriteFault::NoMemory) => Err(Refusal::NoMemory),
    }
}

fn finish_folder<N: NewFolder, G>(
    alloc: Global,
    outputs: &mut Outputs<'_, N, G>,
) -> Result<(), Refusal> {
    match &mut outputs.certificates {
        Some(new) => expect_written(alloc, new.name, new.output.finish()),
        None => Ok(()),
    }
}

fn finish_page<N, G: NewFile>(
    alloc: Global,
    outputs: &mut Outputs<'_, N, G>,
) -> Result<(), Refusal> {
    match &mut outputs.page {
        Some(page) => expect_written(alloc, page.name, page.output.finish()),
        None => Ok(()),
    }
}

// Gives the folder and the page, which are written, their names.
fn finish<N: NewFolder, G: NewFile>(
    alloc: Global,
    outputs: &mut Outputs<'_, N, G>,
) -> Result<(), Refusal> {
    finish_folder(alloc, outputs)?;
    finish_page(alloc, outputs)
}

// Takes away what is written and has no name yet.
fn abandon<N: NewFolder, G: NewFile>(outputs: &mut Outputs<'_, N, G>) {
    if let Some(new) = &mut outputs.certificates {
        let _abandoned = new.output.abandon();
    }
    if let Some(page) = &mut outputs.page {
        page.output.abandon();
    }
}

// Writes the certificates, where they are written.
fn put_certificates<N: NewFolder, G>(
    alloc: Global,
    sources: Sources<'_, '_>,
    audited: &[Audited<'_>],
    outputs: &mut Outputs<'_, N, G>,
) -> Result<(), Refusal> {
    let Some(new) = &mut outputs.certificates else {
        return Ok(());
    };
    match write_certificates(alloc, sources.schema, audited, &mut new.output) {
        Ok(()) => Ok(()),
        Err(fault) => Err(files_refusal(alloc, new.name, &fault)?),
    }
}

// Writes the page, where it is written.
fn put_page<N, G: NewFile>(
    alloc: Global,
    sources: Sources<'_, '_>,
    audited: &[Audited<'_>],
    outputs: &mut Outputs<'_, N, G>,
) -> Result<(), Refusal> {
    let Some(file) = &mut outputs.page else {
        return Ok(());
    };
    let bytes = page(
        alloc,
        sources.survey,
        sources.schema,
        sources.lacking,
        audited,
    )?;
    expect_written(alloc, file.name, file.output.write(&bytes))
}

// Writes what is told, and gives the files their names.
fn tell<N: NewFolder, G: NewFile, W: Write>(
    alloc: Global,
    text: &str,
    outputs: &mut Outputs<'_, N, G>,
    out: &mut W,
) -> Result<(), Refusal>
    ensures { OnOk result (Appends (W.contents out.old) (W.contents out.new) text.now) }
{
    if !is_written(out, text.as_bytes()) {
        return Err(Refusal::Unwritten);
    }
    finish(alloc, outputs)?;
    Ok(())
}

fn put_all<N: NewFolder, G: NewFile, W: Write>(
    alloc: Global,
    sources: Sources<'_, '_>,
    audited: &[Audited<'_>],
    text: &str,
    outputs: &mut Outputs<'_, N, G>,
    out: &mut W,
) -> Result<(), Refusal>
    ensures { OnOk result (Appends (W.contents out.old) (W.contents out.new) text.now) }
{
    put_certificates(alloc, sources, audited, outputs)?;
    put_page(alloc, sources, audited, outputs)?;
    tell(alloc, text, outputs, out)
}

// The same; where it fails, nothing is left of the files.
fn put<N: NewFolder, G: NewFile, W: Write>(
    alloc: Global,
    sources: Sources<'_, '_>,
    audited: &[Audited<'_>],
    text: &str,
    outputs: &mut Outputs<'_, N, G>,
    out: &mut W,
) -> Result<(), Refusal>
    ensures { OnOk result (Appends (W.contents out.old) (W.contents out.new) text.now) }
{
    let done = put_all(alloc, sources, audited, text, outputs, out);
    if done.is_err() {
        abandon(outputs);
    }
    done
}

// ---- the run

// Says that there is no profile, where that is so.
fn note_none<E: Write>(audited: &[Audited<'_>], err: &mut E) {
    if audited.is_empty() {
        let _ = is_written(err, b"no profiles\n");
    }
}

// Where a user vouches for these rules, if one does. The notes are on the texts that give them, and are told where all else is.
fn run_vouched<N: NewFolder, G: NewFile, V: Watch, W: Write, E: Write>(
    alloc: Global,
    session: &Session<'_>,
    asked: Asked<'_>,
    given: Option<&Vouching>,
    notes: &str,
    outputs: &mut Outputs<'_, N, G>,
    watch: &mut V,
    out: &mut W,
    err: &mut E,
) -> Result<Status, Refusal>
    ensures narrow { IfOk result (λ status. status ≡ Status.Yes → AllNarrow (map string_bytes asked.entry.prefixes.now) (schema_in session.now) session.now.survey.definitions) }
    ensures told { IfOk result (λ status. (text : Text) × IsAuditOf (map string_bytes asked.entry.prefixes.now) asked.entry.format (option_map (λ f. f.now) asked.entry.held)
        (option_map (λ texts. texts.now) given.entry) (schema_in session.now) session.now.survey status text
        × Appends (W.contents out.old) (W.contents out.new) text) }
{
    narrowing_profiles();
    let sources = sources_of(session);
    let profiles = audit(
        alloc,
        sources.survey,
        sources.schema,
        asked.prefixes,
        given,
        watch,
    )?;
    let audited = profiles.as_slice();
    let held = all_held(alloc, session, asked.held)?;
    let held = held.as_deref();
    let text = audit_text(alloc, asked.format, sources, audited, held)?;
    watch.end();
    put(alloc, sources, audited, text.as_str(), outputs, out)?;
    let _ = is_written(err, notes.as_bytes());
    note_none(audited, err);
    Ok(status_of(audited, held))
}

// Where the file of the texts is read, if one is named.
fn run_given<N: NewFolder, G: NewFile, V: Watch, W: Write, E: Write>(
    alloc: Global,
    session: &Session<'_>,
    asked: Asked<'_>,
    outputs: &mut Outputs<'_, N, G>,
    watch: &mut V,
    out: &mut W,
    err: &mut E,
) -> Result<Status, Refusal>
    ensures narrow { IfOk result (λ status. status ≡ Status.Yes → AllNarrow (map string_bytes asked.entry.prefixes.now) (schema_in session.now) session.now.survey.definitions) }
    ensures told { IfOk result (λ status. IsTold (map string_bytes asked.entry.prefixes.now) asked.entry.format (option_map (λ f. f.now) asked.entry.held)
        (file_seen asked.entry.given) (schema_in session.now) session.now.survey status (W.contents out.old) (W.contents out.new)) }
{
    let Some(file) = asked.given else {
        return run_vouched(alloc, session, asked, None, "", outputs, watch, out, err);
    };
    let Given { vouching, notes } = vouched(alloc, session, file)?;
    run_vouched(
        alloc,
        session,
        asked,
        Some(&vouching),
        notes.as_str(),
        outputs,
        watch,
        out,
        err,
    )
}

// That no url begins with the prefix at a place.
fn only_refusal(alloc: Global, prefixes: &[String], place: usize) -> Result<Refusal, AllocError> {
    let prefix = match prefixes.get(place) {
        Some(prefix) => prefix.as_str(),
        None => "",
    };
    Ok(Refusal::Fault(fault_text(alloc, "only", prefix)?))
}

// Refuses a prefix with which no url begins.
fn look_for_prefixes(
    alloc: Global,
    session: &Session<'_>,
    prefixes: &[String],
) -> Result<(), Refusal> {
    match Selection::of(alloc, session.survey().package(), prefixes) {
        Ok(_selection) => Ok(()),
        Err(SelectFault::Unknown(place)) => Err(only_refusal(alloc, prefixes, place)?),
        Err(SelectFault::NoMemory) => Err(Refusal::NoMemory),
    }
}

// Where the files are a package.
fn run_package<N: NewFolder, G: NewFile, V: Watch, W: Write, E: Write>(
    alloc: Global,
    session: &Session<'_>,
    asked: Asked<'_>,
    outputs: &mut Outputs<'_, N, G>,
    watch: &mut V,
    out: &mut W,
    err: &mut E,
) -> Result<Status, Refusal>
    ensures narrow { IfOk result (λ status. status ≡ Status.Yes → AllNarrow (map string_bytes asked.entry.prefixes.now) (schema_in session.now) session.now.survey.definitions) }
    ensures told { IfOk result (λ status. IsTold (map string_bytes asked.entry.prefixes.now) asked.entry.format (option_map (λ f. f.now) asked.entry.held)
        (file_seen asked.entry.given) (schema_in session.now) session.now.survey status (W.contents out.old) (W.contents out.new)) }
{
    look_for_prefixes(alloc, session, asked.prefixes)?;
    run_given(alloc, session, asked, outputs, watch, out, err)
}

fn run_session<N: NewFolder, G: NewFile, V: Watch, W: Write, E: Write>(
    alloc: Global,
    session: &Session<'_>,
    asked: Asked<'_>,
    outputs: &mut Outputs<'_, N, G>,
    watch: &mut V,
    out: &mut W,
    err: &mut E,
) -> Result<Status, Refusal>
    ensures narrow { IfOk result (λ status. status ≡ Status.Yes → AllNarrowIn (map string_bytes asked.entry.prefixes.now) session.now) }
    ensures told { IfOk result (λ status. (refusal session.now.survey ≡ None) × IsTold (map string_bytes asked.entry.prefixes.now) asked.entry.format
        (option_map (λ f. f.now) asked.entry.held) (file_seen asked.entry.given) (schema_in session.now) session.now.survey status
        (W.contents out.old) (W.contents out.new)) }
{
    match session.package() {
        Ok(_schema) => run_package(alloc, session, asked, outputs, watch, out, err),
        Err(fault) => {
            let reply = refused_reply(alloc, fault)?;
            Err(Refusal::of_reply(alloc, reply))
        }
    }
}

fn run_folder<
    F: Folder + Drop,
    N: NewFolder,
    G: NewFile,
    P: Progress,
    V: Watch,
    W: Write,
    E: Write,
>(
    alloc: Global,
    name: &str,
    folder: F,
    asked: Asked<'_>,
    outputs: &mut Outputs<'_, N, G>,
    progress: &mut P,
    watch: &mut V,
    out: &mut W,
    err: &mut E,
) -> Result<Status, Refusal>
    ensures narrow { IfOk result (λ status. status ≡ Status.Yes → AuditPromise (map string_bytes asked.entry.prefixes.now) (F.files folder)) }
    ensures told { IfOk result (λ status. IsAnswered (map string_bytes asked.entry.prefixes.now) asked.entry.format (option_map (λ f. f.now) asked.entry.held)
        (file_seen asked.entry.given) (F.files folder) status (W.contents out.old) (W.contents out.new)) }
{
    match files_of(alloc, folder) {
        Ok(files) => {
            let session = Session::of(alloc, &files, progress)?;
            progress.end();
            run_session(alloc, &session, asked, outputs, watch, out, err)
        }
        Err(FolderFault::Device) => Err(Refusal::unlisted(alloc, name)?),
        Err(FolderFault::NoMemory) => Err(Refusal::NoMemory),
    }
}

/// Tells of each profile of the package in a folder of that name whether it narrows its base, and writes the certificates and the page, where they
/// are wanted. What is wrong with the files is told on standard error. How far the work is, is told to `progress` and to `watch`. Where anything
/// fails, neither the folder of the certificates nor the page is made.
pub fn audit_folder<
    F: Folder + Drop,
    N: NewFolder,
    G: NewFile,
    P: Progress,
    V: Watch,
    W: Write,
    E: Write,
>(
    alloc: Global,
    name: &str,
    folder: F,
    asked: Asked<'_>,
    outputs: &mut Outputs<'_, N, G>,
    progress: &mut P,
    watch: &mut V,
    out: &mut W,
    err: &mut E,
) -> Status
    // What a yes promises: the folder's files are a package, and each profile that is asked about narrows its base.
    ensures promised { result ≡ Status.Yes → AuditPromise (map string_bytes asked.entry.prefixes.now) (F.files folder) }
    // What each status says, and what is told.
    ensures told { SaysOf (map string_bytes asked.entry.prefixes.now) asked.entry.format (option_map (λ f. f.now) asked.entry.held) (file_seen asked.entry.given)
        (F.files folder) result (W.contents out.old) (W.contents out.new) }
{
    let ended = run_folder(
        alloc, name, folder, asked, outputs, progress, watch, out, err,
    );
    progress.end();
    watch.end();
    match ended {
        Ok(status) => status,
        Err(refusal) => refusal.tell(err),
    }
}
