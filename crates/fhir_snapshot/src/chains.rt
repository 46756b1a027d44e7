//! Chains of bases: from a definition to the snapshot on which it rests.

ghost use Rattle.std.specs.Prelude.{◌≡◌, false, None, Some, IfOk};
ghost use Rattle.fhir_asking.specs.Asking.{run, known};
ghost use Rattle.fhir_asking.specs.Steps.{step_seen};
ghost use Rattle.fhir_inheritance.specs.Sources.{Source, source_at};
ghost use Rattle.fhir_snapshot.specs.Faults.{number_of};
ghost use Rattle.fhir_snapshot.specs.Chains.{chain_of, ending};
ghost use Rattle.fhir_snapshot.specs.Refusing.{HasOwn};
ghost use Rattle.fhir_snapshot.specs.Knowing.{IsGround};

use crate::fault::SnapFault;
use fhir_asking::{Asks, Step, Table};
use fhir_inheritance::{SourceDef, Sources, is_constraint};
use fhir_json::NoMemory;
use std::alloc::Global;
use std::marker::Model;

/// The chains of bases of the definitions of a package. Of each is asked whether it ends at a snapshot that is brought.
#[derive(Drop)]
pub(crate) struct Chains<'s, 'p, 'a> {
    sources: &'s Sources<'p, 'a>,
}

impl<'s, 'p, 'a> Model for Chains<'s, 'p, 'a> {
    ghost use Rattle.fhir_package.specs.Definitions.{Definitions};

    ghost Value = { Definitions };

    ghost use Rattle.fhir_json.specs.Coding.{tree_code};
    ghost use Rattle.std.specs.Coded.{codes};

    ghost coded = { Prim.hlevel (codes, tree_code) };

    ghost view = { λ c. c.sources.now };
}

impl<'s, 'p, 'a> Chains<'s, 'p, 'a> {
    /// Those of these definitions.
    pub(crate) fn of(sources: &'s Sources<'p, 'a>) -> Chains<'s, 'p, 'a>
        ensures { result ≡ sources.now }
    {
        Chains { sources }
    }
}

fn chain_step(
    alloc: Global,
    table: &Table<bool>,
    source: &SourceDef,
) -> Result<Step<bool>, NoMemory>
    ensures { IfOk result (λ s. step_seen s ≡ run (known table.now) (chain_of source.now)) }
{
    if source.is_written() {
        return Ok(Step::Found(Some(true)));
    }
    let Some(base) = source.base() else {
        return Ok(Step::Found(None));
    };
    match table.get(base) {
        Some(ends) => Ok(Step::Found(*ends)),
        None => Ok(Step::Wants(String::from_str(alloc, base)?)),
    }
}

impl<'s, 'p, 'a> Asks for Chains<'s, 'p, 'a> {
    type Thing = bool;

    ghost asking = { ending };

    fn step(&self, alloc: Global, table: &Table<bool>, name: &str) -> Result<Step<bool>, NoMemory> {
        match self.sources.get(name) {
            Some(source) => chain_step(alloc, table, source),
            None => Ok(Step::Found(None)),
        }
    }
}

/// What the snapshot of a definition is made of.
#[derive(Drop)]
pub(crate) enum Ground {
    /// That of the definition of this url, on which it rests.
    Base(String),
    /// The definition brings it.
    Own,
    /// There is none, for this fault.
    Nothing(SnapFault),
}

// What is wrong where a definition brings no snapshot and rests on none that is there.
fn fault_without_base(sources: &Sources<'_, '_>, url: &str) -> SnapFault
    ensures { (source : Source) → source_at sources.now url.now ≡ Some source → source.written ≡ false → source.base ≡ None
        → HasOwn sources.now url.now (number_of result) }
{
    match sources.definition(url) {
        Some(definition) if !is_constraint(definition) => SnapFault::NoSnapshot,
        _ => SnapFault::Missing,
    }
}

/// What the snapshot of the definition of a url is made of.
pub(crate) fn ground_of(
    alloc: Global,
    sources: &Sources<'_, '_>,
    url: &str,
) -> Result<Ground, NoMemory>
    ensures { IfOk result (λ g. IsGround sources.now url.now g) }
{
    let Some(source) = sources.get(url) else {
        return Ok(Ground::Nothing(SnapFault::Missing));
    };
    if source.is_written() {
        return Ok(Ground::Own);
    }
    match source.base() {
        Some(base) => Ok(Ground::Base(String::from_str(alloc, base)?)),
        None => Ok(Ground::Nothing(fault_without_base(sources, url))),
    }
}
