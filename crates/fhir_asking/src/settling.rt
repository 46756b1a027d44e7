//! Names are settled one after the other, each when what it asks for is known.

ghost use Rattle.std.specs.Prelude.{◌≡◌, ◌<◌, true, length, string_bytes, IfOk};
ghost use Rattle.fhir_asking.specs.Asking.{Holds, Extends, Settles, run, known, found, is_wanting};
ghost use Rattle.fhir_asking.specs.Settling.{Needs, Waits, Grows, Turns, top_of};

use crate::questions::{Asks, Step};
use crate::table::Table;
use crate::waiting::Waiting;
use fhir_json::NoMemory;
use std::alloc::Global;

// The one on top is known now.
fn know<S: Asks>(
    asks: &S,
    table: &mut Table<S::Thing>,
    waiting: &mut Waiting,
    answer: Option<S::Thing>,
) -> Result<bool, NoMemory>
    requires holds { Holds (S.asking asks.now) table.old }
    requires waits { Waits (S.asking asks.now) table.old waiting.old }
    requires some { 0 < length waiting.old }
    requires answer { run (known table.old) (S.asking asks.now (top_of waiting.old)) ≡ found answer }
    ensures grows { Grows (S.asking asks.now) table.old table.new }
    ensures turns { IfOk result (λ more. Turns (S.asking asks.now) table.old waiting.old table.new waiting.new more) }
{
    let Some(top) = waiting.pop() else {
        unreachable!()
    };
    table.put(top, answer)?;
    Ok(true)
}

// The one on top waits for another, unless that one waits already.
fn wait<S: Asks>(
    alloc: Global,
    asks: &S,
    table: &Table<S::Thing>,
    waiting: &mut Waiting,
    next: String,
) -> Result<bool, NoMemory>
    requires waits { Waits (S.asking asks.now) table.now waiting.old }
    requires some { 0 < length waiting.old }
    requires needs { Needs (S.asking asks.now) (top_of waiting.old) (string_bytes next) }
    requires unknown { is_wanting (known table.now (string_bytes next)) ≡ true }
    ensures { IfOk result (λ more. Turns (S.asking asks.now) table.now waiting.old table.now waiting.new more) }
{
    if waiting.has(next.as_str()) {
        return Ok(false);
    }
    waiting.push(alloc, next)?;
    Ok(true)
}

fn turn<S: Asks>(
    alloc: Global,
    asks: &S,
    table: &mut Table<S::Thing>,
    waiting: &mut Waiting,
) -> Result<bool, NoMemory>
    requires holds { Holds (S.asking asks.now) table.old }
    requires waits { Waits (S.asking asks.now) table.old waiting.old }
    requires some { 0 < length waiting.old }
    ensures grows { Grows (S.asking asks.now) table.old table.new }
    ensures turns { IfOk result (λ more. Turns (S.asking asks.now) table.old waiting.old table.new waiting.new more) }
{
    match asks.step(alloc, table, waiting.top())? {
        Step::Found(answer) => know(asks, table, waiting, answer),
        Step::Wants(next) => wait(alloc, asks, table, waiting, next),
    }
}

/// Makes a name known, and all that it asks for; false where it needs itself. The table keeps what it had, and has what
/// was found on the way, whatever comes. The one refusal is want of memory.
///
/// Each name takes a step when it is first wanted, and one more for each name that it had to wait for. Beside its steps
/// a name costs time logarithmic in the number of names. That a name needs itself is not kept: where it is settled
/// again, what it waits for is walked again.
pub fn settle<S: Asks>(
    alloc: Global,
    asks: &S,
    table: &mut Table<S::Thing>,
    name: &str,
) -> Result<bool, NoMemory>
    requires { Holds (S.asking asks.now) table.old }
    ensures holds { Holds (S.asking asks.now) table.new }
    ensures extends { Extends table.old table.new }
    ensures settles { IfOk result (λ done. Settles (S.asking asks.now) table.new name.now done) }
{
    if table.get(name).is_some() {
        return Ok(true);
    }
    let mut waiting = Waiting::new(alloc);
    let first = String::from_str(alloc, name)?;
    waiting.push(alloc, first)?;
    'turns: while !waiting.is_empty() {
        if !turn(alloc, asks, table, &mut waiting)? {
            return Ok(false);
        }
    }
    Ok(true)
}
