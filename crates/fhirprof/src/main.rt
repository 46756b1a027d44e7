//! The program: it opens what the words name, and calls the engine.
#![tactic(auto)]

ghost use Rattle.std.specs.Prelude.{◌≡◌, Result};
ghost use Rattle.std.specs.Process.{exit_status};
ghost use Rattle.fhir_package.specs.ReadFiles.{ReadFiles};
ghost use Rattle.fhir_engine.specs.Answering.{RepliesFor};
ghost use Rattle.fhir_engine.specs.Promising.{Promise};
ghost use Rattle.fhir_answers.specs.Replying.{ReplyValue, status_of};
ghost use Rattle.fhir_engine.specs.Reading.{IsReadOf};
ghost use Rattle.fhir_answers.specs.Views.{files_seen};
ghost use Rattle.fhir_words.specs.Views.{asked_seen};

use fhir_audit_engine::{ProfileMeter, audit_directory};
use fhir_bulk_engine::{RateMeter, validate_directory};
use fhir_compare_engine::compare_directories;
use fhir_engine::{
    Meter, Opened, gather_directories, open_asked, run, serve_directory, serve_directory_given,
};
use fhir_package::{Folder, FolderFault, Progress};
use fhir_words::{AuditRequest, BulkRequest, Invocation, Task, WordsFault, task_of};
use std::alloc::Global;
use std::io::{ErrorKind, IsTerminal, Read, Write};
use std::process::ExitCode;
use std::rt::{Env, Files};
use std::time::Clock;
use std::{env, io};

fn main(rt: HostRuntime) -> ExitCode {
    let mut out = io::writer(&rt);
    let mut err = rt.stderr();
    let mut terminal = rt.stderr();
    let is_terminal = terminal.is_terminal();
    let mut meter = Meter::new(&rt, &mut terminal, is_terminal);
    let words = words_of(&rt);
    let task = match &words {
        Ok(words) => task_of(rt.alloc(), words),
        Err(fault) => Err(*fault),
    };
    perform(
        &rt,
        task,
        rt.stdin(),
        rt.stderr(),
        &mut meter,
        &mut out,
        &mut err,
    )
}

// Does what the words ask for.
fn perform<
    R: Files + Clock + AllocGlobal + Clone + Drop,
    S: Read + Copy,
    T: Write + IsTerminal + Drop,
    P: Progress,
    W: Write,
    E: Write,
>(
    rt: &R,
    task: Result<Task<'_>, WordsFault>,
    input: S,
    terminal: T,
    progress: &mut P,
    out: &mut W,
    err: &mut E,
) -> ExitCode {
    match task {
        Ok(Task::Answer(asked)) => answer(rt, Ok(asked), progress, out, err),
        Ok(Task::Serve { folder, given }) => serve(rt, folder, given, input, progress, out, err),
        Ok(Task::Gather(request)) => {
            ExitCode::from(gather_directories(rt, &request, progress, out, err))
        }
        Ok(Task::ValidateAll(request)) => {
            validate_all(rt, &request, input, terminal, progress, out, err)
        }
        Ok(Task::Audit(request)) => audit(rt, &request, terminal, progress, out, err),
        Ok(Task::Compare(request)) => {
            ExitCode::from(compare_directories(rt, &request, progress, out, err))
        }
        Err(fault) => answer(rt, Err(fault), progress, out, err),
    }
}

// Serves a folder, with the rules of a file where one is given.
fn serve<R: Files + AllocGlobal + Clone + Drop, I: Read + Drop, P: Progress, W: Write, E: Write>(
    rt: &R,
    folder: &str,
    given: Option<&str>,
    input: I,
    progress: &mut P,
    out: &mut W,
    err: &mut E,
) -> ExitCode {
    ExitCode::from(match given {
        None => serve_directory(rt, folder, input, progress, out, err),
        Some(given) => serve_directory_given(rt, folder, given, input, progress, out, err),
    })
}

// Validates many resources. Where a profile is asked for, none that a resource claims is looked at, so that none can be skipped.
fn validate_all<
    R: Files + Clock + AllocGlobal + Clone + Drop,
    S: Read + Copy,
    T: Write + IsTerminal + Drop,
    P: Progress,
    W: Write,
    E: Write,
>(
    rt: &R,
    request: &BulkRequest<'_>,
    input: S,
    mut terminal: T,
    progress: &mut P,
    out: &mut W,
    err: &mut E,
) -> ExitCode {
    if request.skip_unknown && request.profile.is_some() {
        return answer(rt, Err(WordsFault::Usage), progress, out, err);
    }
    let is_terminal = terminal.is_terminal();
    let mut watch = RateMeter::new(rt, &mut terminal, is_terminal);
    ExitCode::from(validate_directory(rt, request, input, progress, &mut watch, out, err))
}

// Audits a package.
fn audit<
    R: Files + Clock + AllocGlobal + Clone + Drop,
    T: Write + IsTerminal + Drop,
    P: Progress,
    W: Write,
    E: Write,
>(
    rt: &R,
    request: &AuditRequest<'_>,
    mut terminal: T,
    progress: &mut P,
    out: &mut W,
    err: &mut E,
) -> ExitCode {
    let is_terminal = terminal.is_terminal();
    let mut watch = ProfileMeter::new(rt, &mut terminal, is_terminal);
    ExitCode::from(audit_directory(rt, request, progress, &mut watch, out, err))
}

// Answers what is asked.
fn answer<R: Files + AllocGlobal + Clone + Drop, P: Progress, W: Write, E: Write>(
    rt: &R,
    asked: Result<Invocation<'_>, WordsFault>,
    progress: &mut P,
    out: &mut W,
    err: &mut E,
) -> ExitCode {
    let Opened {
        asked,
        folder,
        files,
    } = open_asked(rt, asked, progress);
    code_of(rt.alloc(), &asked, folder, &files, progress, out, err)
}

// The words. One that isn't UTF-8 asks for nothing.
fn words_of<R: Env + AllocGlobal>(rt: &R) -> Result<Vec<String>, WordsFault> {
    match env::args(rt) {
        Ok(words) => Ok(words.collect(rt.alloc())?),
        Err(error) if error.kind() == ErrorKind::OutOfMemory => Err(WordsFault::NoMemory),
        Err(_) => Err(WordsFault::Usage),
    }
}

// What the engine does, as the code with which the process ends.
fn code_of<F: Folder + Drop, W: Write, E: Write, P: Progress>(
    alloc: Global,
    asked: &Result<Invocation<'_>, WordsFault>,
    folder: F,
    files: &[Option<Vec<u8>>],
    progress: &mut P,
    out: &mut W,
    err: &mut E,
) -> ExitCode
    ensures promised { exit_status result ≡ 0 → Promise (asked_seen asked.now) (F.files folder) (files_seen files.now) }
    ensures no { exit_status result ≡ 1 → (read : Result ReadFiles FolderFault) × (reply : ReplyValue)
        × IsReadOf (F.files folder) read
        × RepliesFor (asked_seen asked.now) read (files_seen files.now) reply × (status_of reply ≡ 1) }
{
    ExitCode::from(run(alloc, asked, folder, files, progress, out, err))
}
