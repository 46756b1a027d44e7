//! Discovery: the pairs that are found from a first one.

ghost use Rattle.std.specs.Prelude.{◌≡◌, ◌&&◌, IfOk, OnOk, filter, not};
ghost use Rattle.fhir_certificate.specs.declared.pair.Pair.{Pair};
ghost use Rattle.fhir_cert_check.specs.Checking.{same_node};
ghost use Rattle.fhir_cert_check.specs.PairSet.{has_pair};
ghost use Rattle.fhir_derive_check.specs.Blaming.{is_spare};
ghost use Rattle.fhir_derive_check.specs.Finding.{added, all_added, IsDiscovery};
ghost use Rattle.fhir_derive_check.specs.Discovering.{followed, HasAll};

use fhir_cert_check::{PairSet, asked_for};
use fhir_certificate::Pair;
use fhir_json::NoMemory;
use fhir_schema::{NodeRef, Schema};
use std::alloc::Global;

// Memory is all that can be wanting.
type Done = Result<(), NoMemory>;

/// Pairs that were found.
#[derive(Drop)]
pub(crate) struct Found {
    /// All of them, each once, in the order in which they were found.
    pub(crate) order: Vec<Pair>,
    /// Those that count, which are all at first.
    pub(crate) live: PairSet,
}

// Puts a pair behind the others, unless it is there.
fn put(found: &mut Found, pair: Pair) -> Done
    ensures order { OnOk result (HasAll found.old.live found.old.order.items → found.new.order.items ≡ added found.old.order.items pair) }
    ensures live { OnOk result (HasAll found.old.live found.old.order.items → HasAll found.new.live found.new.order.items) }
{
    if found.live.insert(pair)? {
        found.order.push(pair)?;
    }
    Ok(())
}

/// Which of the pairs that a pair asks for are gone to.
#[derive(Clone, Copy)]
pub(crate) enum Follow<'f> {
    /// All.
    All,
    /// Those of a set.
    Within(&'f PairSet),
    /// Those outside of a set, but for spare ones.
    Outside(&'f PairSet),
}

fn same_node(node: NodeRef, other: NodeRef) -> bool
    ensures { result ≡ same_node node other }
{
    node == other
}

// Whether one pair asks for the other as a spare way of having children.
fn is_spare(schema: &Schema, asker: Pair, asked: Pair) -> bool
    ensures { result ≡ is_spare schema.now asker asked }
{
    match (asker, asked) {
        (Pair::Item(asker), Pair::Kids(asked)) => match schema.holder(asker.derived) {
            Some(own) => !same_node(own, asked.derived),
            None => false,
        },
        _ => false,
    }
}

fn those_within(alloc: Global, set: &PairSet, asked: &[Pair]) -> Result<Vec<Pair>, NoMemory>
    ensures { IfOk result (λ among. among.items ≡ filter (has_pair set.now) asked.now) }
{
    Ok(
        asked
            .iter()
            .copied()
            .filter(|pair| set.has(*pair))
            .collect(alloc)?,
    )
}

fn those_outside(
    alloc: Global,
    schema: &Schema,
    set: &PairSet,
    asker: Pair,
    asked: &[Pair],
) -> Result<Vec<Pair>, NoMemory>
    ensures { IfOk result (λ among. among.items ≡ filter (λ p. not (is_spare schema.now asker p) && not (has_pair set.now p)) asked.now) }
{
    Ok(
        asked
            .iter()
            .copied()
            .filter(|pair| !is_spare(schema, asker, *pair) && !set.has(*pair))
            .collect(alloc)?,
    )
}

// What a pair asks for, as far as it is gone to.
fn followed(
    alloc: Global,
    schema: &Schema,
    follow: Follow<'_>,
    pair: Pair,
) -> Result<Vec<Pair>, NoMemory>
    ensures { IfOk result (λ asked. asked.items ≡ followed follow.entry schema.now pair) }
{
    let asked = asked_for(alloc, schema, pair)?;
    match follow {
        Follow::All => Ok(asked),
        Follow::Within(set) => those_within(alloc, set, &asked),
        Follow::Outside(set) => those_outside(alloc, schema, set, pair, &asked),
    }
}

// Puts what a pair asks for behind the others.
fn visit(alloc: Global, schema: &Schema, follow: Follow<'_>, found: &mut Found, pair: Pair) -> Done
    ensures order { OnOk result (HasAll found.old.live found.old.order.items
        → found.new.order.items ≡ all_added found.old.order.items (followed follow.entry schema.now pair)) }
    ensures live { OnOk result (HasAll found.old.live found.old.order.items → HasAll found.new.live found.new.order.items) }
{
    let asked = followed(alloc, schema, follow, pair)?;
    for next in &asked {
        put(found, *next)?;
    }
    Ok(())
}

/// All pairs that are found from a first one, breadth first, by what they ask for, as far as it is gone to.
pub(crate) fn discover(
    alloc: Global,
    schema: &Schema,
    follow: Follow<'_>,
    first: Pair,
) -> Result<Found, NoMemory>
    ensures order { IfOk result (λ found. IsDiscovery (followed follow.entry schema.now) first found.order.items) }
    ensures live { IfOk result (λ found. HasAll found.live found.order.items) }
{
    let mut found = Found {
        order: Vec::new(alloc),
        live: PairSet::new(alloc),
    };
    put(&mut found, first)?;
    let mut at = 0;
    while at < found.order.len() {
        let pair = found.order[at];
        visit(alloc, schema, follow, &mut found, pair)?;
        at += 1;
    }
    Ok(found)
}
