//! The run over all inputs.

ghost use Rattle.std.specs.Prelude.{◌≡◌, ◌++◌, ℕ, List, Err, IfOk, OnOk, flat_map, map};
ghost use Rattle.fhir_bulk.specs.declared.running.RunFault.TheVariants as faults;
ghost use Rattle.std.specs.Fmt.{decimal};
ghost use Rattle.std.specs.Io.KnownBytes.{Appends};
ghost use Rattle.fhir_telling.specs.Questions.{question_seen};
ghost use Rattle.fhir_bulk.specs.Running.{RunValue, TellsLine, Begins, Stops, count_text, heading_seen, start_with, summary, AreRelied, IsRun};
ghost use Rattle.fhir_inputs.specs.Going.{GoesThrough};

use crate::heading::{Heading, headings_of};
use crate::relied::Relied;
use crate::tally::Tally;
use crate::teller::BulkTeller;
use crate::watch::Watch;
use fhir_inputs::{Inputs, Unwritten, go_through};
use fhir_json::NoMemory;
use fhir_telling::Question;
use fhir_words::Format;
use itoa::Buffer;
use std::alloc::Global;
use std::io;
use std::io::Write;

/// Why a run ends before its end.
#[derive(Clone, Copy, Debug, PartialEq, Eq)]
pub enum RunFault {
    /// The output failed.
    Unwritten,
    /// A growth of memory was refused before any input was opened.
    NoMemory,
}

impl From<NoMemory> for RunFault {
    ghost from_gives = { λ _ e. e ≡ faults.NoMemory };

    fn from(_error: NoMemory) -> RunFault {
        RunFault::NoMemory
    }
}

fn write_count<W: Write>(out: &mut W, name: &str, count: usize) -> io::Result<()>
    ensures { OnOk result (Appends (W.contents out.old) (W.contents out.new) (name.now ++ decimal count)) }
{
    out.write_all(name.as_bytes())?;
    out.write_all(Buffer::new().format(count).as_bytes())
}

fn write_counts<W: Write>(out: &mut W, counts: &[(&str, usize)]) -> io::Result<()>
    ensures { OnOk result (Appends (W.contents out.old) (W.contents out.new) (flat_map count_text (map (λ c. (c.0.now, c.1)) counts.now))) }
{
    for (name, count) in counts {
        write_count(out, *name, *count)?;
    }
    Ok(())
}

// Writes the last line, without memory.
fn write_summary<W: Write>(out: &mut W, tally: Tally, passed_over: usize) -> io::Result<()>
    ensures { OnOk result (Appends (W.contents out.old) (W.contents out.new) (summary Format.Text tally passed_over)) }
{
    let counts = [
        ("conforms: ", tally.conforms),
        (", violates: ", tally.violates),
        (", open: ", tally.opens),
        (", faults: ", tally.faults),
        (", no memory: ", tally.no_memory),
        (", empty lines: ", tally.empties),
        (", files passed over: ", passed_over),
    ];
    write_counts(out, &counts)?;
    out.write_all(b"\n")?;
    out.flush()
}

// Writes how often given rules were relied on, where a user vouches for some.
fn write_relied<W: Write>(
    out: &mut W,
    question: Question<'_, '_>,
    relied: &Relied,
) -> io::Result<()>
    ensures { OnOk result ((rows : List ℕ) × AreRelied (question_seen question.entry).texts rows × Appends (W.contents out.old) (W.contents out.new) rows) }
{
    match question.given {
        Some(_) => relied.write(out),
        None => Ok(()),
    }
}

fn write_end<W: Write>(
    out: &mut W,
    question: Question<'_, '_>,
    relied: &Relied,
    tally: Tally,
    passed_over: usize,
) -> io::Result<()>
    ensures { OnOk result ((rows : List ℕ) × AreRelied (question_seen question.entry).texts rows
        × Appends (W.contents out.old) (W.contents out.new) (rows ++ summary question.entry.format tally passed_over)) }
{
    match question.format {
        Format::Text => {
            write_relied(out, question, relied)?;
            write_summary(out, tally, passed_over)
        }
        Format::Json => Ok(()),
    }
}

// Tells what there was in all.
fn end<W: Write>(
    out: &mut W,
    question: Question<'_, '_>,
    relied: &Relied,
    tally: Tally,
    passed_over: usize,
) -> Result<(), RunFault>
    ensures told { OnOk result ((rows : List ℕ) × AreRelied (question_seen question.entry).texts rows
        × Appends (W.contents out.old) (W.contents out.new) (rows ++ summary question.entry.format tally passed_over)) }
    ensures unwritten { result ≡ Err faults.NoMemory → ⊥ }
{
    match write_end(out, question, relied, tally, passed_over) {
        Ok(()) => Ok(()),
        Err(_) => Err(RunFault::Unwritten),
    }
}

// Tells of the lines of all inputs, which have these headings.
fn run_over<I: Inputs, P: Watch, W: Write>(
    alloc: Global,
    question: Question<'_, '_>,
    headings: &[Heading],
    inputs: &I,
    watch: &mut P,
    out: &mut W,
) -> Result<(Tally, Relied), RunFault>
    ensures told { IfOk result (λ r. (last : RunValue) × (written : List ℕ)
        × GoesThrough TellsLine Begins Stops 0 (I.inputs inputs.now) (start_with (question_seen question.entry) (map heading_seen headings.now)) last written
        × (r.0 ≡ last.tally) × Appends (W.contents out.old) (W.contents out.new) written) }
    ensures unwritten { result ≡ Err faults.NoMemory → ⊥ }
{
    let mut teller = BulkTeller::new(alloc, question, headings, watch);
    match go_through(alloc, inputs, &mut teller, out) {
        Ok(()) => Ok(teller.into_counts()),
        Err(Unwritten) => Err(RunFault::Unwritten),
    }
}

/// Validates the resources of inputs of these names, one after the other, and tells of each line how its resource stands, before the next
/// is read. At the end, unless that is written as JSON, it tells how often it rests on each given rule that a resource conforms, and how
/// often each verdict was told, and how many files were passed over. Memory hangs on the longest line. Where it is refused for a line,
/// that is told, and the next is read. What can't be read is told where that is, and the next input is opened. The refusals are those of
/// [`RunFault`].
pub fn validate_inputs<I: Inputs, P: Watch, W: Write>(
    alloc: Global,
    question: Question<'_, '_>,
    names: &[&str],
    inputs: &I,
    passed_over: usize,
    watch: &mut P,
    out: &mut W,
) -> Result<Tally, RunFault>
    ensures told { IfOk result (λ tally. (written rows : List ℕ)
        × IsRun (question_seen question.entry) (map (λ n. n.now) names.now) (I.inputs inputs.now) tally written
        × AreRelied (question_seen question.entry).texts rows
        × Appends (W.contents out.old) (W.contents out.new) (written ++ (rows ++ summary question.entry.format tally passed_over))) }
    ensures untouched { result ≡ Err faults.NoMemory → out.new ≡ out.old }
{
    let headings = headings_of(alloc, question.format, names, inputs)?;
    let (tally, relied) = run_over(alloc, question, &headings, inputs, watch, out)?;
    end(out, question, &relied, tally, passed_over)?;
    Ok(tally)
}
