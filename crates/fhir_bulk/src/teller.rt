//! What tells of each line.

ghost use Rattle.std.specs.Prelude.{◌≡◌, ◌++◌, ◌&&◌, IfOk, OnOk, map, string_bytes};
ghost use Rattle.std.specs.Fmt.{decimal};
ghost use Rattle.std.specs.Io.KnownBytes.{Appends};
ghost use Rattle.fhir_bulk.specs.Counting.{more, no_tally, tallied};
ghost use Rattle.fhir_telling.specs.Questions.{question_seen};
ghost use Rattle.fhir_bulk.specs.Rows.{is_good, shown};
ghost use Rattle.fhir_bulk.specs.Running.{current, heading_seen, stop_verdict, stop_tail};
ghost use Rattle.fhir_telling.specs.Judgements.{ToldValue, told_memory};
ghost use Rattle.fhir_telling.specs.Telling.{is_blank, IsLineTold};
ghost use Rattle.fhir_telling.specs.Views.{told_seen};

use crate::heading::Heading;
use crate::relied::Relied;
use crate::rows::{memory_tail, rows_on, unread_tail};
use crate::tally::{Tally, more};
use crate::watch::Watch;
use fhir_inputs::{Kind, Stop, Teller};
use fhir_json::NoMemory;
use fhir_serve::Service;
use fhir_telling::{LineVerdict, Question, Told, told_of};
use fhir_words::Format;
use itoa::Buffer;
use std::alloc::Global;
use std::io;
use std::io::Write;
use std::marker::Model;

/// Tells of the lines of inputs, and counts.
#[derive(Drop)]
pub(crate) struct BulkTeller<'q, 'p, 'h, 'w, P> {
    question: Question<'q, 'p>,
    headings: &'h [Heading],
    place: usize,
    number: usize,
    tally: Tally,
    relied: Relied,
    watch: &'w mut P,
}

impl<'q, 'p, 'h, 'w, P> Model for BulkTeller<'q, 'p, 'h, 'w, P> {
    ghost use Rattle.fhir_bulk.specs.Running.{RunValue, heading_seen};

    ghost Value = { RunValue };

    ghost use Rattle.fhir_schema.specs.contracts.schema.Schema as schemas;
    ghost use Rattle.std.specs.Coded.{codes};

    ghost coded = { Prim.hlevel (codes, schemas.the_row.coded) };

    ghost use Rattle.std.specs.Prelude.{map};
    ghost use Rattle.fhir_telling.specs.Questions.{question_seen};

    ghost view = { λ t. record {
      question = question_seen t.question;
      headings = map heading_seen t.headings.now;
      place = t.place;
      number = t.number;
      tally = t.tally;
    } };
}

// Whether rows on a verdict aren't written.
fn is_hidden(only_bad: bool, verdict: LineVerdict) -> bool
    ensures { result ≡ (only_bad && is_good verdict) }
{
    only_bad && verdict == LineVerdict::Conforms
}

fn shown(
    alloc: Global,
    question: Question<'_, '_>,
    heading: &str,
    number: usize,
    told: &Told,
) -> Result<String, NoMemory>
    ensures { IfOk result (λ text. string_bytes text ≡ shown question.entry.only_bad question.entry.format heading.now number (told_seen told.now)) }
{
    if is_hidden(question.only_bad, told.verdict) {
        Ok(String::new(alloc))
    } else {
        rows_on(alloc, question.format, heading, number, told)
    }
}

// The verdict on a line, and the rows on it. The rules on which it rests that its resource conforms are counted.
fn told_line(
    alloc: Global,
    question: Question<'_, '_>,
    kind: Kind,
    heading: &str,
    number: usize,
    line: &[u8],
    relied: &mut Relied,
) -> Result<(LineVerdict, String), NoMemory>
    ensures { IfOk result (λ r. (told : ToldValue) × IsLineTold (is_blank kind line.now) (question_seen question.entry) line.now told
        × (r.0 ≡ told.verdict) × (string_bytes r.1 ≡ shown question.entry.only_bad question.entry.format heading.now number told)) }
{
    let told = told_of(alloc, question, kind, line)?;
    let text = shown(alloc, question, heading, number, &told)?;
    if question.given.is_some() {
        relied.count(alloc, &told)?;
    }
    Ok((told.verdict, text))
}

// Writes a row, without memory.
fn write_row<W: Write>(out: &mut W, heading: &str, number: usize, tail: &str) -> io::Result<()>
    ensures { OnOk result (Appends (W.contents out.old) (W.contents out.new) (heading.now ++ decimal number ++ tail.now)) }
{
    out.write_all(heading.as_bytes())?;
    out.write_all(Buffer::new().format(number).as_bytes())?;
    out.write_all(tail.as_bytes())
}

fn stop_verdict(stop: Stop) -> LineVerdict
    ensures { result ≡ stop_verdict stop }
{
    match stop {
        Stop::Unread => LineVerdict::Fault,
        Stop::NoMemory => LineVerdict::NoMemory,
    }
}

fn stop_tail(format: Format, stop: Stop) -> &'static str
    ensures { result.now ≡ stop_tail format stop }
{
    match stop {
        Stop::Unread => unread_tail(format),
        Stop::NoMemory => memory_tail(format),
    }
}

impl<'q, 'p, 'h, 'w, P: Watch> BulkTeller<'q, 'p, 'h, 'w, P> {
    /// Nothing is told yet.
    pub(crate) fn new(
        alloc: Global,
        question: Question<'q, 'p>,
        headings: &'h [Heading],
        watch: &'w mut P,
    ) -> BulkTeller<'q, 'p, 'h, 'w, P>
        ensures question { result.question ≡ question_seen question.entry }
        ensures headings { result.headings ≡ map heading_seen headings.now }
        ensures place { result.place ≡ 0 }
        ensures number { result.number ≡ 0 }
        ensures tally { result.tally ≡ no_tally }
    {
        BulkTeller {
            question,
            headings,
            place: 0,
            number: 0,
            tally: Tally::new(),
            relied: Relied::new(alloc),
            watch,
        }
    }

    /// How often each verdict was told, and how often given rules were relied on. Nothing more is told.
    pub(crate) fn into_counts(self) -> (Tally, Relied)
        ensures { result.0 ≡ self.entry.tally }
    {
        self.watch.make_way();
        (self.tally, self.relied)
    }

    fn heading(&self) -> &'h str
        ensures { result.now ≡ (current self.now).text }
    {
        match self.headings.get(self.place) {
            Some(heading) => heading.text.as_str(),
            None => "",
        }
    }

    fn kind(&self) -> Kind
        ensures { result ≡ (current self.now).kind }
    {
        match self.headings.get(self.place) {
            Some(heading) => heading.kind,
            None => Kind::Lines,
        }
    }

    // One more line has that verdict.
    fn count(&mut self, verdict: LineVerdict)
        ensures { self.new ≡ record self.old { number = more self.old.number; tally = tallied verdict self.old.tally } }
    {
        self.number = more(self.number);
        self.tally = self.tally.with(verdict);
        self.watch.told(&self.tally);
    }

    // The verdict on the next line, and the rows on it.
    fn told(&mut self, alloc: Global, line: &[u8]) -> Result<(LineVerdict, String), NoMemory>
        ensures held { self.new ≡ self.old }
        ensures told { IfOk result (λ r. (told : ToldValue)
            × IsLineTold (is_blank (current self.old).kind line.now) self.old.question line.now told × (r.0 ≡ told.verdict)
            × (string_bytes r.1 ≡ shown self.old.question.only_bad self.old.question.format (current self.old).text (more self.old.number) told)) }
    {
        let (kind, heading) = (self.kind(), self.heading());
        let number = more(self.number);
        told_line(
            alloc,
            self.question,
            kind,
            heading,
            number,
            line,
            &mut self.relied,
        )
    }

    // Writes rows, if there are some.
    fn write<W: Write>(&mut self, rows: &str, out: &mut W) -> io::Result<()>
        ensures held { self.new ≡ self.old }
        ensures written { OnOk result (Appends (W.contents out.old) (W.contents out.new) rows.now) }
    {
        if rows.is_empty() {
            return Ok(());
        }
        self.watch.make_way();
        out.write_all(rows.as_bytes())
    }

    // Tells that memory was refused for the next line.
    fn tell_memory<W: Write>(&mut self, out: &mut W) -> io::Result<()>
        ensures counted { self.new ≡ record self.old { number = more self.old.number; tally = tallied LineVerdict.NoMemory self.old.tally } }
        ensures told { OnOk result (Appends (W.contents out.old) (W.contents out.new)
            (shown self.old.question.only_bad self.old.question.format (current self.old).text (more self.old.number) told_memory)) }
    {
        let heading = self.heading();
        let tail = memory_tail(self.question.format);
        self.count(LineVerdict::NoMemory);
        self.watch.make_way();
        write_row(out, heading, self.number, tail)
    }
}

impl<'q, 'p, 'h, 'w, P: Watch> Service for BulkTeller<'q, 'p, 'h, 'w, P> {
    ghost use Rattle.fhir_bulk.specs.Running.{TellsLine};

    ghost answers = { λ v line w written. TellsLine v line w written };

    fn answer<W: Write>(&mut self, alloc: Global, line: &[u8], out: &mut W) -> io::Result<()> {
        match self.told(alloc, line) {
            Ok((verdict, text)) => {
                self.count(verdict);
                self.write(text.as_str(), out)
            }
            Err(NoMemory) => self.tell_memory(out),
        }
    }

    fn unheld<W: Write>(&mut self, out: &mut W) -> io::Result<()> {
        self.tell_memory(out)
    }
}

impl<'q, 'p, 'h, 'w, P: Watch> Teller for BulkTeller<'q, 'p, 'h, 'w, P> {
    ghost use Rattle.fhir_bulk.specs.Running.{Begins, Stops};

    ghost begins = { λ v place w. Begins v place w };

    ghost stops = { λ v stop w written. Stops v stop w written };

    fn begin(&mut self, place: usize) {
        self.place = place;
        self.number = 0;
    }

    fn stop<W: Write>(&mut self, stop: Stop, out: &mut W) -> io::Result<()> {
        let tail = stop_tail(self.question.format, stop);
        self.tally = self.tally.with(stop_verdict(stop));
        self.watch.make_way();
        write_row(out, self.heading(), more(self.number), tail)
    }
}
