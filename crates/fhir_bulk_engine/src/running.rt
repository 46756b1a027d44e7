//! A run over the definitions in a folder.

ghost use Rattle.std.specs.Prelude.{◌≡◌, ◌⊎◌, ◌&&◌, Option, IfOk, IfSome, IfNone, IsOkAnd, is_none, map, option_map};
ghost use Rattle.fhir_engine.specs.Reading.{IsReadOf};
ghost use Rattle.fhir_bulk.specs.declared.tally.Tally.{Tally};
ghost use Rattle.fhir_bulk_engine.specs.Bulk.{IsAskedBy, IsBulk, IsBulkBy};
ghost use Rattle.fhir_bulk_engine.specs.Ending.{tally_status, Ends, IsUntouched};
ghost use Rattle.fhir_json.specs.Views.{text_seen};
ghost use Rattle.fhir_telling.specs.Questions.{profile_asked, skips};
ghost use Rattle.fhir_words.specs.Views.{bulk_seen};

use crate::asked::{Asked, Planned, run_session};
use crate::file_inputs::FileInputs;
use crate::plan::{InputFile, Plan, PlanFault, plan_inputs};
use fhir_answers::{NamedFile, Session, Status};
use fhir_bulk::{Tally, Watch};
use fhir_engine::{Refusal, bytes_if_named, directory_at, end_with, files_of};
use fhir_inputs::Inputs;
use fhir_json::NoMemory;
use fhir_package::{Folder, FolderFault, MemoryFolder, Progress};
use fhir_telling::{Profiles, Unknown};
use fhir_words::{BulkRequest, Format};
use std::alloc::{AllocError, Global};
use std::io::{Read, Write};
use std::rt::Files;

fn tally_status(tally: Tally) -> Status
    ensures { result ≡ tally_status tally }
{
    if tally.violates > 0 {
        Status::No
    } else if tally.no_memory > 0 {
        Status::NoMemory
    } else if tally.faults > 0 {
        Status::Fault
    } else if tally.opens > 0 {
        Status::Open
    } else {
        Status::Yes
    }
}

fn run_folder<F: Folder + Drop, I: Inputs, P: Progress, V: Watch, W: Write, E: Write>(
    alloc: Global,
    name: &str,
    folder: F,
    asked: Asked<'_>,
    planned: Result<Planned<'_, I>, &str>,
    progress: &mut P,
    watch: &mut V,
    out: &mut W,
    err: &mut E,
) -> Result<Tally, Refusal>
    ensures told { IfOk result (λ tally. IsOkAnd planned.entry (λ p. IsBulk (F.files folder) asked.entry (map (λ n. n.now) p.names.now)
        (I.inputs p.inputs.now) p.passed_over tally (W.contents out.old) (W.contents out.new))) }
    ensures untouched { IsUntouched result out.old out.new }
{
    match files_of(alloc, folder) {
        Ok(files) => {
            let session = Session::of(alloc, &files, progress)?;
            progress.end();
            run_session(alloc, &session, asked, planned, watch, out, err)
        }
        Err(FolderFault::Device) => Err(Refusal::unlisted(alloc, name)?),
        Err(FolderFault::NoMemory) => Err(Refusal::NoMemory),
    }
}

/// Asks of all resources of inputs how they stand with a profile, by the definitions in a folder of that name. The folder is read first, and then the file
/// of the texts, if one is named. What is wrong with them, and a profile that isn't there or can't be used, is told on standard error before
/// any input is opened; and so is a folder of inputs that has none, whose name is in place of the inputs. How far the work is, is told to
/// `progress`, and how many resources were told, to `watch`. The status is the worst of what is told of the resources. Where nothing is asked
/// the output is as it was.
pub fn validate_folder<F: Folder + Drop, I: Inputs, P: Progress, V: Watch, W: Write, E: Write>(
    alloc: Global,
    name: &str,
    folder: F,
    asked: Asked<'_>,
    planned: Result<Planned<'_, I>, &str>,
    progress: &mut P,
    watch: &mut V,
    out: &mut W,
    err: &mut E,
) -> Status
    ensures { (told : Option Tally) × Ends result told × IfSome told (λ tally. IsOkAnd planned.entry (λ p. IsBulk (F.files folder) asked.entry
        (map (λ n. n.now) p.names.now) (I.inputs p.inputs.now) p.passed_over tally (W.contents out.old) (W.contents out.new)))
        × IfNone told ((result ≡ Status.Unwritten) ⊎ (out.new ≡ out.old)) }
{
    let ended = run_folder(
        alloc, name, folder, asked, planned, progress, watch, out, err,
    );
    progress.end();
    match ended {
        Ok(tally) => tally_status(tally),
        Err(refusal) => refusal.tell(err),
    }
}

// What a request names: the folder of the definitions, the bytes of the file of texts, where it can be read, and the files of the run, or the
// name of a folder that has none.
#[derive(Drop)]
struct Opened {
    folder: MemoryFolder,
    given: Option<Vec<u8>>,
    plan: Result<Plan, String>,
}

fn make_plan<R: Files + AllocGlobal + Clone + Drop>(
    rt: &R,
    inputs: &[Option<&str>],
) -> Result<Result<Plan, String>, NoMemory> {
    match plan_inputs(rt, inputs) {
        Ok(plan) => Ok(Ok(plan)),
        Err(PlanFault::Nothing(name)) => Ok(Err(name)),
        Err(PlanFault::NoMemory) => Err(NoMemory),
    }
}

fn open_request<R: Files + AllocGlobal + Clone + Drop, P: Progress>(
    rt: &R,
    request: &BulkRequest<'_>,
    progress: &mut P,
) -> Result<Opened, NoMemory> {
    let folder = directory_at(rt, request.folder, progress)?;
    let given = bytes_if_named(rt, request.given)?;
    let plan = make_plan(rt, &request.inputs)?;
    Ok(Opened {
        folder,
        given,
        plan,
    })
}

fn names_of(alloc: Global, files: &[InputFile]) -> Result<Vec<&str>, AllocError> {
    let mut names = Vec::with_capacity(alloc, files.len())?;
    for file in files {
        names.push(file.name.as_str())?;
    }
    Ok(names)
}

// The file of the texts, if one is named.
fn given_file<'a>(request: &'a BulkRequest<'_>, bytes: Option<&'a [u8]>) -> Option<NamedFile<'a>>
    ensures { option_map (λ file. file.name.now) result ≡ text_seen request.now.given }
{
    match request.given {
        Some(name) => Some(NamedFile { name, bytes }),
        None => None,
    }
}

fn asked_with<'a>(
    profiles: Profiles<'a>,
    given: Option<NamedFile<'a>>,
    format: Format,
    only_bad: bool,
) -> Asked<'a>
    ensures { result ≡ record { profiles = profiles.entry; given = given.entry; format = format; only_bad = only_bad } }
{
    Asked {
        profiles,
        given,
        format,
        only_bad,
    }
}

fn profiles_of<'a>(request: &'a BulkRequest<'_>) -> Profiles<'a>
    ensures profile { profile_asked result ≡ text_seen request.now.profile }
    ensures skips { skips result ≡ (is_none (text_seen request.now.profile) && request.now.skip_unknown) }
{
    match request.profile {
        Some(url) => Profiles::At(url),
        None if request.skip_unknown => Profiles::Own(Unknown::Warnings),
        None => Profiles::Own(Unknown::Faults),
    }
}

fn asked_of<'a>(request: &'a BulkRequest<'_>, bytes: Option<&'a [u8]>) -> Asked<'a>
    ensures { IsAskedBy (bulk_seen request.now) result }
{
    let given = given_file(request, bytes);
    asked_with(
        profiles_of(request),
        given,
        request.format,
        request.only_bad,
    )
}

// Of the files of a plan.
fn run_plan<
    R: Files + AllocGlobal + Clone + Drop,
    S: Read + Copy,
    P: Progress,
    V: Watch,
    W: Write,
    E: Write,
>(
    rt: &R,
    request: &BulkRequest<'_>,
    folder: MemoryFolder,
    given: Option<&[u8]>,
    plan: &Plan,
    standard: S,
    progress: &mut P,
    watch: &mut V,
    out: &mut W,
    err: &mut E,
) -> Status
    ensures { (told : Option Tally) × Ends result told × IfSome told (IsBulkBy (bulk_seen request.now) (W.contents out.old) (W.contents out.new))
        × IfNone told ((result ≡ Status.Unwritten) ⊎ (out.new ≡ out.old)) }
{
    let Ok(names) = names_of(rt.alloc(), &plan.files) else {
        return end_with(err, "no memory\n", Status::NoMemory);
    };
    let inputs = FileInputs::new(rt, &plan.files, standard);
    let planned = Planned {
        inputs: &inputs,
        names: &names,
        passed_over: plan.passed_over,
    };
    validate_folder(
        rt.alloc(),
        request.folder,
        folder,
        asked_of(request, given),
        Ok(planned),
        progress,
        watch,
        out,
        err,
    )
}

// Of no files, since the folder of a name has none: what else is wrong is told first.
fn run_nothing<
    R: Files + AllocGlobal + Clone + Drop,
    S: Read + Copy,
    P: Progress,
    V: Watch,
    W: Write,
    E: Write,
>(
    rt: &R,
    request: &BulkRequest<'_>,
    folder: MemoryFolder,
    given: Option<&[u8]>,
    nothing: &str,
    standard: S,
    progress: &mut P,
    watch: &mut V,
    out: &mut W,
    err: &mut E,
) -> Status
    ensures { (told : Option Tally) × Ends result told × IfSome told (IsBulkBy (bulk_seen request.now) (W.contents out.old) (W.contents out.new))
        × IfNone told ((result ≡ Status.Unwritten) ⊎ (out.new ≡ out.old)) }
{
    let none = [];
    let inputs = FileInputs::new(rt, &none, standard);
    validate_folder(
        rt.alloc(),
        request.folder,
        folder,
        asked_of(request, given),
        unplanned(&inputs, nothing),
        progress,
        watch,
        out,
        err,
    )
}

fn unplanned<'p, I>(_inputs: &'p I, name: &'p str) -> Result<Planned<'p, I>, &'p str> {
    Err(name)
}

/// Does what `validate-all` asks: the definitions are those in the directory that the request names, the inputs are opened one at a time,
/// and `standard` reads standard input. How far the work is, is told to `progress` and to `watch`.
pub fn validate_directory<
    R: Files + AllocGlobal + Clone + Drop,
    S: Read + Copy,
    P: Progress,
    V: Watch,
    W: Write,
    E: Write,
>(
    rt: &R,
    request: &BulkRequest<'_>,
    standard: S,
    progress: &mut P,
    watch: &mut V,
    out: &mut W,
    err: &mut E,
) -> Status
    ensures { (told : Option Tally) × Ends result told × IfSome told (IsBulkBy (bulk_seen request.now) (W.contents out.old) (W.contents out.new))
        × IfNone told ((result ≡ Status.Unwritten) ⊎ (out.new ≡ out.old)) }
{
    let Ok(
        Opened {
            folder,
            given,
            plan,
        },
    ) = open_request(rt, request, progress)
    else {
        progress.end();
        return end_with(err, "no memory\n", Status::NoMemory);
    };
    let given = given.as_deref();
    match &plan {
        Ok(plan) => run_plan(
            rt, request, folder, given, plan, standard, progress, watch, out, err,
        ),
        Err(nothing) => run_nothing(
            rt,
            request,
            folder,
            given,
            nothing.as_str(),
            standard,
            progress,
            watch,
            out,
            err,
        ),
    }
}
