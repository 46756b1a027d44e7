//! Callers of the engine, which show what its contracts give. `data/` has the questions that `tests/questions` asks the built program: `commands.txt`, and
//! the folders and files that it names.
#![tactic(auto)]

ghost use Rattle.std.specs.Prelude.{◌≡◌, IfOk, List, Option, Result};
ghost use Rattle.fhir_json.specs.Tree.{Text};
ghost use Rattle.fhir_package.specs.Folder.{Files};
ghost use Rattle.fhir_words.specs.declared.request.WordsFault.{WordsFault};
ghost use Rattle.fhir_engine.specs.Promising.{Promise};
ghost use Rattle.fhir_words.specs.Requests.{InvocationValue};
ghost use Rattle.fhir_words.specs.Views.{request_seen};
ghost use Rattle.fhir_answers.specs.Answering.{IsReply, answer_by};
ghost use Rattle.fhir_answers.specs.Replying.{reply_seen};
ghost use Rattle.fhir_answers.specs.Session.{SessionValue, IsSessionOf};
ghost use Rattle.fhir_answers.specs.Views.{files_seen};

use fhir_answers::{Reply, Session, Status};
use fhir_engine::{Opened, open_asked, run};
use fhir_json::NoMemory;
use fhir_package::{FolderFiles, Silent};
use fhir_words::{Invocation, Request, WordsFault};
use std::alloc::Global;
use std::io::Write;
use std::rt::Files;

/// Answers what is asked, and gives the status.
pub fn status_of<R: Files + AllocGlobal + Clone + Drop, W: Write, E: Write>(
    rt: &R,
    asked: Result<Invocation<'_>, WordsFault>,
    out: &mut W,
    err: &mut E,
) -> Status
    ensures { result ≡ Status.Yes → (asked : Result InvocationValue WordsFault)
        × (folder : Files) × (files : List (Option Text)) × Promise asked folder files }
{
    let Opened {
        asked,
        folder,
        files,
    } = open_asked(rt, asked, &mut Silent);
    run(rt.alloc(), &asked, folder, &files, &mut Silent, out, err)
}

/// What is answered to a request, by files that were read.
pub fn reply_to(
    alloc: Global,
    read: &FolderFiles,
    request: &Request<'_>,
    files: &[Option<Vec<u8>>],
) -> Result<Reply, NoMemory>
    ensures { IfOk result (λ r. (s : SessionValue) × IsSessionOf read.now s
        × IsReply (answer_by (request_seen request.now) s (files_seen files.now)) (reply_seen r)) }
{
    let session = Session::of(alloc, read, &mut Silent)?;
    session.answer(alloc, request, files)
}
