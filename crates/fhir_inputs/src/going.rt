//! The inputs in turn.

ghost use Rattle.std.specs.Prelude.{◌≡◌, ℕ, List, Option, IfOk, IfSome, OnOk};
ghost use Rattle.std.specs.Io.KnownBytes.{Appends};
ghost use Rattle.fhir_serve.specs.Answered.{IsAnswered};
ghost use Rattle.fhir_inputs.specs.Inputs.{input_at};
ghost use Rattle.fhir_inputs.specs.Going.{IsStopped, IsTold, IsGoneThrough, GoesThrough};

use crate::input::{Inputs, Kind, OpenFault};
use crate::teller::{Stop, Teller};
use fhir_serve::{Ending, serve};
use std::alloc::Global;
use std::io;
use std::io::{BufRead, ErrorKind, Read, Write};

/// The output failed.
#[derive(Clone, Copy, Debug, PartialEq, Eq)]
pub struct Unwritten;

// Has what was written leave every buffer.
fn finish<W: Write>(out: &mut W, written: io::Result<()>) -> Result<(), Unwritten>
    ensures { (old : Option (List ℕ)) (told : List ℕ) → OnOk written (Appends old (W.contents out.old) told)
        → OnOk result (Appends old (W.contents out.new) told) }
{
    let flushed = match written {
        Ok(()) => out.flush(),
        Err(error) => Err(error),
    };
    match flushed {
        Ok(()) => Ok(()),
        Err(_) => Err(Unwritten),
    }
}

// Tells that an input stops.
fn tell_stop<T: Teller, W: Write>(teller: &mut T, stop: Stop, out: &mut W) -> Result<(), Unwritten>
    ensures { IsStopped T.stops teller.old stop teller.new result (W.contents out.old) (W.contents out.new) }
{
    let written = teller.stop(stop, out);
    finish(out, written)
}

// Answers a whole input as one line.
fn tell_document<T: Teller, W: Write>(
    alloc: Global,
    bytes: &[u8],
    teller: &mut T,
    out: &mut W,
) -> Result<(), Unwritten>
    ensures { IsAnswered T.answers teller.old bytes.now teller.new result (W.contents out.old) (W.contents out.new) }
{
    let written = teller.answer(alloc, bytes, out);
    finish(out, written)
}

// The bytes that a reader has left, or why they aren't had.
fn bytes_of<R: Read>(alloc: Global, reader: &mut R) -> Result<Vec<u8>, Stop>
    ensures { IfOk result (λ bytes. IfSome (R.remaining reader.old) (λ known. bytes.items ≡ known)) }
{
    let mut bytes = Vec::new(alloc);
    match reader.read_to_end(&mut bytes) {
        Ok(_) => Ok(bytes),
        Err(error) if error.kind() == ErrorKind::OutOfMemory => Err(Stop::NoMemory),
        Err(_) => Err(Stop::Unread),
    }
}

fn tell_whole<R: Read, T: Teller, W: Write>(
    alloc: Global,
    reader: &mut R,
    teller: &mut T,
    out: &mut W,
) -> Result<(), Unwritten>
    ensures { OnOk result ((written : List ℕ)
        × IsTold T.answers T.begins T.stops (record { kind = Kind.Document; bytes = R.remaining reader.old }) teller.old teller.new written
        × Appends (W.contents out.old) (W.contents out.new) written) }
{
    match bytes_of(alloc, reader) {
        Ok(bytes) => tell_document(alloc, &bytes, teller, out),
        Err(stop) => tell_stop(teller, stop, out),
    }
}

fn tell_lines<R: BufRead, T: Teller, W: Write>(
    alloc: Global,
    reader: &mut R,
    teller: &mut T,
    out: &mut W,
) -> Result<(), Unwritten>
    ensures { OnOk result ((written : List ℕ)
        × IsTold T.answers T.begins T.stops (record { kind = Kind.Lines; bytes = R.remaining reader.old }) teller.old teller.new written
        × Appends (W.contents out.old) (W.contents out.new) written) }
{
    match serve(alloc, teller, reader, out) {
        Ending::Done => Ok(()),
        Ending::Unread => tell_stop(teller, Stop::Unread, out),
        Ending::Unwritten => Err(Unwritten),
    }
}

fn tell_opened<R: BufRead, T: Teller, W: Write>(
    alloc: Global,
    kind: Kind,
    reader: &mut R,
    teller: &mut T,
    out: &mut W,
) -> Result<(), Unwritten>
    ensures { OnOk result ((written : List ℕ)
        × IsTold T.answers T.begins T.stops (record { kind = kind; bytes = R.remaining reader.old }) teller.old teller.new written
        × Appends (W.contents out.old) (W.contents out.new) written) }
{
    match kind {
        Kind::Document => tell_whole(alloc, reader, teller, out),
        Kind::Lines => tell_lines(alloc, reader, teller, out),
    }
}

fn tell_begun<I: Inputs, T: Teller, W: Write>(
    alloc: Global,
    inputs: &I,
    place: usize,
    teller: &mut T,
    out: &mut W,
) -> Result<(), Unwritten>
    ensures { OnOk result ((written : List ℕ)
        × IsTold T.answers T.begins T.stops (input_at (I.inputs inputs.now) place) teller.old teller.new written
        × Appends (W.contents out.old) (W.contents out.new) written) }
{
    match inputs.open(alloc, place) {
        Ok(mut reader) => tell_opened(alloc, inputs.kind(place), &mut reader, teller, out),
        Err(OpenFault::Device) => tell_stop(teller, Stop::Unread, out),
        Err(OpenFault::NoMemory) => tell_stop(teller, Stop::NoMemory, out),
    }
}

fn tell_input<I: Inputs, T: Teller, W: Write>(
    alloc: Global,
    inputs: &I,
    place: usize,
    teller: &mut T,
    out: &mut W,
) -> Result<(), Unwritten>
    ensures { OnOk result ((written : List ℕ)
        × IsGoneThrough T.answers T.begins T.stops place (input_at (I.inputs inputs.now) place) teller.old teller.new written
        × Appends (W.contents out.old) (W.contents out.new) written) }
{
    teller.begin(place);
    tell_begun(alloc, inputs, place, teller, out)
}

/// Goes through inputs: each is opened in its turn, its lines are answered in theirs, and each answer stands in the output before the
/// next is read. One that stops before its end is told there, and the next is opened. An output that fails ends it at once.
pub fn go_through<I: Inputs, T: Teller, W: Write>(
    alloc: Global,
    inputs: &I,
    teller: &mut T,
    out: &mut W,
) -> Result<(), Unwritten>
    ensures { OnOk result ((written : List ℕ)
        × GoesThrough T.answers T.begins T.stops 0 (I.inputs inputs.now) teller.old teller.new written
        × Appends (W.contents out.old) (W.contents out.new) written) }
{
    for place in 0..inputs.count() {
        tell_input(alloc, inputs, place, teller, out)?;
    }
    Ok(())
}
