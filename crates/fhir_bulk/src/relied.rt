//! How often it rests on given rules that resources conform, by the texts of the rules.

ghost use Rattle.std.specs.Prelude.{ℕ, List, [], ◌++◌, ◌==◌, if◌then◌else◌, codes, OnOk};
ghost use Rattle.std.specs.Fmt.{decimal};
ghost use Rattle.std.specs.Io.KnownBytes.{Appends};

use crate::tally::more;
use fhir_json::{Json, NoMemory};
use fhir_lines::push_escaped;
use fhir_telling::{Told, diagnostics_of};
use itoa::Buffer;
use std::alloc::{AllocError, Global};
use std::collections::BTreeMap;
use std::io;
use std::io::Write;

/// How the row on a rule begins, and how often the rule was relied on.
#[derive(Drop)]
struct Count {
    row: String,
    count: usize,
}

/// How often given rules were relied on, by their texts.
#[derive(Drop)]
pub(crate) struct Relied {
    counts: BTreeMap<String, Count>,
}

// `TEXT` of `given TEXT (URL#ID)`.
fn given_text(diagnostics: &str) -> Option<&str> {
    let rule = diagnostics.strip_prefix("given ")?;
    let (text, _element) = rule.rsplit_once(" (")?;
    Some(text)
}

fn count_of(alloc: Global, text: &str) -> Result<Count, AllocError> {
    let mut row = String::from_str(alloc, "given ")?;
    push_escaped(text, &mut row)?;
    row.push_str(": ")?;
    Ok(Count { row, count: 0 })
}

impl Relied {
    /// None was.
    pub(crate) fn new(alloc: Global) -> Relied {
        Relied {
            counts: BTreeMap::new(alloc),
        }
    }

    fn hold_text(&mut self, alloc: Global, text: &str) -> Result<(), NoMemory> {
        if !self.counts.contains_key(text) {
            let count = count_of(alloc, text)?;
            self.counts.insert(String::from_str(alloc, text)?, count)?;
        }
        Ok(())
    }

    fn hold_issues(&mut self, alloc: Global, issues: &[Json<'static>]) -> Result<(), NoMemory> {
        for issue in issues {
            if let Some(text) = given_text(diagnostics_of(issue)) {
                self.hold_text(alloc, text)?;
            }
        }
        Ok(())
    }

    // Makes room for the rules that are relied on there, so that they can be counted without memory.
    fn hold(&mut self, alloc: Global, told: &Told) -> Result<(), NoMemory> {
        for judgement in &told.judgements {
            self.hold_issues(alloc, judgement.outcome.items_in("issue"))?;
        }
        Ok(())
    }

    fn count_text(&mut self, text: &str) {
        if let Some(count) = self.counts.get_mut(text) {
            count.count = more(count.count);
        }
    }

    fn count_issues(&mut self, issues: &[Json<'static>]) {
        for issue in issues {
            if let Some(text) = given_text(diagnostics_of(issue)) {
                self.count_text(text);
            }
        }
    }

    /// Counts the rules that are relied on there. The one refusal is want of memory, and then none of them is counted.
    pub(crate) fn count(&mut self, alloc: Global, told: &Told) -> Result<(), NoMemory> {
        self.hold(alloc, told)?;
        for judgement in &told.judgements {
            self.count_issues(judgement.outcome.items_in("issue"));
        }
        Ok(())
    }

    /// Writes a row for each rule that was relied on, without memory.
    pub(crate) fn write<W: Write>(&self, out: &mut W) -> io::Result<()>
        ensures { OnOk result ((written : List ℕ) × Appends (W.contents out.old) (W.contents out.new) written) }
    {
        for (_text, count) in self.counts.iter() {
            write_row(out, count.row.as_str(), count.count)?;
        }
        Ok(())
    }
}

// Writes a row, if the rule was relied on.
fn write_row<W: Write>(out: &mut W, row: &str, count: usize) -> io::Result<()>
    ensures { OnOk result (Appends (W.contents out.old) (W.contents out.new) (if count == 0 then [] else row.now ++ decimal count ++ codes "\n")) }
{
    if count == 0 {
        return out.write_all(b"");
    }
    out.write_all(row.as_bytes())?;
    out.write_all(Buffer::new().format(count).as_bytes())?;
    out.write_all(b"\n")
}
