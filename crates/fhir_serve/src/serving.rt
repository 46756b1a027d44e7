//! The loop.

ghost use Rattle.std.specs.Prelude.{◌≡◌, ℕ, List, Option, MatchOption, OnOk};
ghost use Rattle.std.specs.Io.KnownBytes.{Appends};
ghost use Rattle.fhir_serve.specs.Serving.{Serves};
ghost use Rattle.fhir_serve.specs.Ending.{AreRead, AreWritten, GoesOn, HasEnded};

use crate::reading::{Reading, next_line};
use crate::service::Service;
use std::alloc::Global;
use std::io;
use std::io::{BufRead, Write};

/// How serving ends.
#[derive(Clone, Copy, Debug, PartialEq, Eq)]
pub enum Ending {
    /// The input is at its end.
    Done,
    /// The input failed.
    Unread,
    /// The output failed.
    Unwritten,
}

// Has what was written leave every buffer. How serving ends with it, if it does.
fn ended_by<W: Write>(out: &mut W, written: io::Result<()>) -> Option<Ending>
    ensures { (old : Option (List ℕ)) (answer : List ℕ) → OnOk written (Appends old (W.contents out.old) answer) → MatchOption result
        (Appends old (W.contents out.new) answer)
        (λ ending. ending ≡ Ending.Unwritten) }
{
    let flushed = match written {
        Ok(()) => out.flush(),
        Err(error) => Err(error),
    };
    match flushed {
        Ok(()) => None,
        Err(_) => Some(Ending::Unwritten),
    }
}

// Serves one line, if one is left. How serving ends with it, if it does.
fn serve_next<S: Service, R: BufRead, W: Write>(
    alloc: Global,
    service: &mut S,
    reader: &mut R,
    out: &mut W,
) -> Option<Ending>
    ensures { MatchOption result
        (GoesOn S.answers service.old service.new (R.remaining reader.old) (R.remaining reader.new) (W.contents out.old) (W.contents out.new))
        (λ ending. HasEnded S.answers ending service.old service.new (R.remaining reader.old) (W.contents out.old) (W.contents out.new)) }
{
    match next_line(alloc, reader) {
        Reading::Held(line) => {
            let written = service.answer(alloc, &line, out);
            ended_by(out, written)
        }
        Reading::Unheld => {
            let written = service.unheld(out);
            ended_by(out, written)
        }
        Reading::End => Some(Ending::Done),
        Reading::Failure => Some(Ending::Unread),
    }
}

/// Serves the lines of a reader: each is answered in turn, and its answer stands in the output before the next is read.
///
/// There are lines `served` and bytes `written` so that the lines were answered in turn by those bytes. The lines are the first of the
/// input, and all of them where the ending is `Done`; and the output has grown by those bytes, unless it failed.
pub fn serve<S: Service, R: BufRead, W: Write>(
    alloc: Global,
    service: &mut S,
    reader: &mut R,
    out: &mut W,
) -> Ending
    ensures { (served : List (List ℕ)) × (written : List ℕ)
        × Serves S.answers service.old served service.new written
        × AreRead result (R.remaining reader.old) served
        × AreWritten result (W.contents out.old) (W.contents out.new) written }
{
    for _ in 0..u64::MAX {
        if let Some(ending) = serve_next(alloc, service, reader, out) {
            return ending;
        }
    }
    Ending::Unread
}
