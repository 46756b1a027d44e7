//! Snapshots of definitions, each found once: bases before those that rest on them.

ghost use Rattle.std.specs.Prelude.{◌≡◌, ◌∷◌, ◌++◌, [], Some, map, string_bytes, option_map, IfOk, IfSome, OnOk};
ghost use Rattle.std.specs.Option.{option_copied};
ghost use Rattle.std.specs.Map.{lookup};
ghost use Rattle.std.specs.Str.{bytes_eq};
ghost use Rattle.fhir_json.specs.Tree.{Text};
ghost use Rattle.fhir_asking.specs.Asking.{Holds, NeedsItself};
ghost use Rattle.fhir_inheritance.specs.Inheriting.{asking};
ghost use Rattle.fhir_inheritance.specs.Named.{Gets};
ghost use Rattle.fhir_snapshot.specs.Chains.{ending, Rests, IsChain, Starts, IsWritten};
ghost use Rattle.fhir_snapshot.specs.Knowing.{IsOutcome, AreKnown, Knows, Leads};

use crate::chains::{Chains, Ground, ground_of};
use crate::fault::SnapFault;
use crate::making::{brought, derived};
use crate::outcome::{Outcome, outcome_of};
use fhir_asking::{Table, settle};
use fhir_inheritance::{Named, NodeDef, Sources};
use fhir_json::NoMemory;
use std::alloc::Global;

// Puts what is found of the definition of a url.
fn learn(
    alloc: Global,
    known: &mut Named<Outcome>,
    url: &str,
    outcome: Outcome,
) -> Result<(), NoMemory>
    ensures { OnOk result (Gets known.old known.new url.now (Some outcome)) }
{
    let url = String::from_str(alloc, url)?;
    known.put(url, outcome)
}

fn learn_fault(
    alloc: Global,
    sources: &Sources<'_, '_>,
    known: &mut Named<Outcome>,
    url: &str,
    fault: SnapFault,
) -> Result<(), NoMemory>
    requires known { AreKnown sources.now known.old }
    requires fault { IsOutcome sources.now url.now (Outcome.Faulty fault) }
    ensures known { OnOk result (AreKnown sources.now known.new) }
    ensures knows { OnOk result (Knows known.new url.now) }
    ensures keeps { OnOk result ((other : Text) → Knows known.old other → Knows known.new other) }
{
    learn(alloc, known, url, Outcome::Faulty(fault))
}

fn learn_brought(
    alloc: Global,
    sources: &Sources<'_, '_>,
    known: &mut Named<Outcome>,
    url: &str,
) -> Result<(), NoMemory>
    requires known { AreKnown sources.now known.old }
    requires written { IsWritten sources.now url.now }
    ensures known { OnOk result (AreKnown sources.now known.new) }
    ensures knows { OnOk result (Knows known.new url.now) }
{
    let outcome = outcome_of(brought(alloc, sources, url))?;
    learn(alloc, known, url, outcome)
}

// The url of the definition on which one rests; none where what the first has is known by now.
fn down(
    alloc: Global,
    sources: &Sources<'_, '_>,
    known: &mut Named<Outcome>,
    url: &str,
) -> Result<Option<String>, NoMemory>
    requires known { AreKnown sources.now known.old }
    ensures known { OnOk result (AreKnown sources.now known.new) }
    ensures leads { IfOk result (λ base. Leads sources.now known.new url.now (option_map string_bytes base)) }
{
    if known.get(url).is_some() {
        return Ok(None);
    }
    match ground_of(alloc, sources, url)? {
        Ground::Base(base) => Ok(Some(base)),
        Ground::Own => {
            learn_brought(alloc, sources, known, url)?;
            Ok(None)
        }
        Ground::Nothing(fault) => {
            learn_fault(alloc, sources, known, url, fault)?;
            Ok(None)
        }
    }
}

// The definitions from that of a url down to one whose snapshot is known by then, each of which rests on the next; the last one
// by itself.
fn chain(
    alloc: Global,
    sources: &Sources<'_, '_>,
    known: &mut Named<Outcome>,
    url: &str,
) -> Result<(Vec<String>, String), NoMemory>
    requires known { AreKnown sources.now known.old }
    ensures known { OnOk result (AreKnown sources.now known.new) }
    ensures chain { IfOk result (λ r. IsChain sources.now (map string_bytes r.0.items ++ string_bytes r.1 ∷ [])) }
    ensures starts { IfOk result (λ r. Starts url.now (map string_bytes r.0.items ++ string_bytes r.1 ∷ [])) }
    ensures knows { IfOk result (λ r. Knows known.new (string_bytes r.1)) }
{
    let mut urls = Vec::new(alloc);
    let mut last = String::from_str(alloc, url)?;
    while let Some(base) = down(alloc, sources, known, last.as_str())? {
        urls.push(last)?;
        last = base;
    }
    Ok((urls, last))
}

// What is found of a definition, where what its base has is known.
fn found_over(
    alloc: Global,
    sources: &Sources<'_, '_>,
    nodes: &mut Table<NodeDef>,
    known: &Named<Outcome>,
    url: &str,
    base: &str,
) -> Result<Outcome, NoMemory>
    requires holds { Holds (asking sources.now) nodes.old }
    requires known { AreKnown sources.now known.now }
    requires rests { Rests sources.now url.now base.now }
    requires knows { Knows known.now base.now }
    ensures holds { Holds (asking sources.now) nodes.new }
    ensures found { IfOk result (λ o. IsOutcome sources.now url.now o) }
{
    match known.get(base) {
        Some(Outcome::Made(under)) => outcome_of(derived(alloc, sources, nodes, url, under)),
        Some(Outcome::Faulty(fault)) => Ok(Outcome::Faulty(fault.copied(alloc)?)),
        None => unreachable!(),
    }
}

// What the definition over one whose snapshot is known has, is known behind this.
fn learn_over(
    alloc: Global,
    sources: &Sources<'_, '_>,
    nodes: &mut Table<NodeDef>,
    known: &mut Named<Outcome>,
    url: &str,
    base: &str,
) -> Result<(), NoMemory>
    requires holds { Holds (asking sources.now) nodes.old }
    requires known { AreKnown sources.now known.old }
    requires rests { Rests sources.now url.now base.now }
    requires knows { Knows known.old base.now }
    ensures holds { Holds (asking sources.now) nodes.new }
    ensures known { OnOk result (AreKnown sources.now known.new) }
    ensures knows { OnOk result (Knows known.new url.now) }
{
    let outcome = found_over(alloc, sources, nodes, known, url, base)?;
    learn(alloc, known, url, outcome)
}

// Finds the snapshots along a chain, the last one's being known, up to its first.
fn climb(
    alloc: Global,
    sources: &Sources<'_, '_>,
    nodes: &mut Table<NodeDef>,
    known: &mut Named<Outcome>,
    url: &str,
    urls: Vec<String>,
    last: String,
) -> Result<(), NoMemory>
    requires holds { Holds (asking sources.now) nodes.old }
    requires known { AreKnown sources.now known.old }
    requires chain { IsChain sources.now (map string_bytes urls.items ++ string_bytes last ∷ []) }
    requires starts { Starts url.now (map string_bytes urls.items ++ string_bytes last ∷ []) }
    requires knows { Knows known.old (string_bytes last) }
    ensures holds { Holds (asking sources.now) nodes.new }
    ensures known { OnOk result (AreKnown sources.now known.new) }
    ensures knows { OnOk result (Knows known.new url.now) }
{
    let mut urls = urls;
    let mut last = last;
    while let Some(next) = urls.pop() {
        learn_over(alloc, sources, nodes, known, next.as_str(), last.as_str())?;
        last = next;
    }
    Ok(())
}

// One more definition of a chain that comes back to itself, where that isn't known yet: the next one is its base.
fn next_in_cycle(
    alloc: Global,
    sources: &Sources<'_, '_>,
    known: &mut Named<Outcome>,
    url: &str,
) -> Result<Option<String>, NoMemory>
    requires known { AreKnown sources.now known.old }
    requires cycle { NeedsItself (ending sources.now) url.now }
    ensures known { OnOk result (AreKnown sources.now known.new) }
    ensures knows { OnOk result (Knows known.new url.now) }
    ensures keeps { OnOk result ((other : Text) → Knows known.old other → Knows known.new other) }
    ensures next { IfOk result (λ base. IfSome base (λ b. NeedsItself (ending sources.now) (string_bytes b))) }
{
    if known.get(url).is_some() {
        return Ok(None);
    }
    learn_fault(alloc, sources, known, url, SnapFault::BaseCycle)?;
    match ground_of(alloc, sources, url)? {
        Ground::Base(base) => Ok(Some(base)),
        Ground::Own => Ok(None),
        Ground::Nothing(_) => Ok(None),
    }
}

// That the definitions along a chain that comes back to itself have no snapshot, is known behind this.
fn learn_cycle(
    alloc: Global,
    sources: &Sources<'_, '_>,
    known: &mut Named<Outcome>,
    url: &str,
) -> Result<(), NoMemory>
    requires known { AreKnown sources.now known.old }
    requires cycle { NeedsItself (ending sources.now) url.now }
    ensures known { OnOk result (AreKnown sources.now known.new) }
    ensures knows { OnOk result (Knows known.new url.now) }
{
    let mut next = next_in_cycle(alloc, sources, known, url)?;
    for _turn in 0..sources.len() {
        let Some(base) = next else {
            return Ok(());
        };
        next = next_in_cycle(alloc, sources, known, base.as_str())?;
    }
    Ok(())
}

/// Finds what snapshot the definition of a url has, and each of those on which it rests, unless that is known: it is behind this.
pub(crate) fn find(
    alloc: Global,
    sources: &Sources<'_, '_>,
    nodes: &mut Table<NodeDef>,
    ends: &mut Table<bool>,
    known: &mut Named<Outcome>,
    url: &str,
) -> Result<(), NoMemory>
    requires holds { Holds (asking sources.now) nodes.old }
    requires ends { Holds (ending sources.now) ends.old }
    requires known { AreKnown sources.now known.old }
    ensures holds { Holds (asking sources.now) nodes.new }
    ensures ends { Holds (ending sources.now) ends.new }
    ensures known { OnOk result (AreKnown sources.now known.new) }
    ensures knows { OnOk result (Knows known.new url.now) }
{
    if known.get(url).is_some() {
        return Ok(());
    }
    if !settle(alloc, &Chains::of(sources), ends, url)? {
        return learn_cycle(alloc, sources, known, url);
    }
    let (urls, last) = chain(alloc, sources, known, url)?;
    climb(alloc, sources, nodes, known, url, urls, last)
}
