//! The places of pairs, from the pair of two roots, and what may differ at each.

ghost use Rattle.std.specs.Prelude.{◌≤◌, length, IfOk};

use crate::changes::{suggest_of_elements, suggest_of_items, suggest_of_kids, suggest_of_slots};
use crate::finder::{Done, Finder};
use crate::step::{Difference, Slice, Step};
use fhir_cert_check::{PairSet, asked_for};
use fhir_certificate::{NodePair, Pair};
use fhir_json::NoMemory;
use fhir_names::{name_of, slice_of};
use fhir_schema::{NodeRef, Schema};
use std::alloc::Global;

// How many pairs a way goes through at most. What lies deeper isn't made.
const MOST_PAIRS: usize = 200;

// A pair that is found, and the place of the one that asked for it first.
#[derive(Clone, Copy)]
struct Visit {
    pair: Pair,
    from: usize,
}

#[derive(Drop)]
struct Visits {
    found: Vec<Visit>,
    seen: PairSet,
}

fn put(visits: &mut Visits, pair: Pair, from: usize) -> Done {
    if visits.seen.insert(pair)? {
        visits.found.push(Visit { pair, from })?;
    }
    Ok(())
}

fn put_asked(alloc: Global, schema: &Schema, visits: &mut Visits, pair: Pair, from: usize) -> Done {
    let asked = asked_for(alloc, schema, pair)?;
    for next in &asked {
        put(visits, *next, from)?;
    }
    Ok(())
}

// The pairs that are found from a first one.
fn visits_from(alloc: Global, schema: &Schema, first: Pair) -> Result<Vec<Visit>, NoMemory> {
    let mut visits = Visits {
        found: Vec::new(alloc),
        seen: PairSet::new(alloc),
    };
    put(&mut visits, first, 0)?;
    let mut at = 0;
    while at < visits.found.len() {
        let pair = visits.found[at].pair;
        put_asked(alloc, schema, &mut visits, pair, at)?;
        at += 1;
    }
    Ok(visits.found)
}

fn place_of(visits: &[Visit], wanted: Pair) -> Option<usize> {
    for (place, visit) in visits.iter().enumerate() {
        if visit.pair == wanted {
            return Some(place);
        }
    }
    None
}

fn nodes_of(pair: Pair) -> NodePair {
    match pair {
        Pair::Item(nodes) => nodes,
        Pair::Kids(nodes) => nodes,
    }
}

fn slice_at(schema: &Schema, node: NodeRef) -> Slice {
    let (_url, id) = schema.name(node);
    match slice_of(id) {
        Some(_) => Slice::Own(node),
        None => Slice::Any,
    }
}

// The step from a pair of children to one of items.
fn step_between<'s>(
    schema: &'s Schema,
    from: Pair,
    to: Pair,
    code: Option<&'s str>,
) -> Option<Step<'s>> {
    match (from, to) {
        (Pair::Kids(_), Pair::Item(nodes)) => {
            let (_url, id) = schema.name(nodes.derived);
            Some(Step {
                name: name_of(id),
                slice: slice_at(schema, nodes.derived),
                code,
            })
        }
        _ => None,
    }
}

// The code of the type by which a pair was asked for.
fn code_between<'s>(schema: &'s Schema, from: Pair, to: Pair) -> Option<&'s str> {
    let (from, to) = (nodes_of(from).derived, nodes_of(to).derived);
    if from.definition == to.definition {
        None
    } else {
        Some(schema.type_code(to))
    }
}

// The steps to a place, from its end, if it doesn't lie too deep.
fn steps_back<'s>(
    alloc: Global,
    schema: &'s Schema,
    visits: &[Visit],
    place: usize,
) -> Result<Option<Vec<Step<'s>>>, NoMemory> {
    let mut steps = Vec::new(alloc);
    let mut at = place;
    let mut code = None;
    for _ in 0..MOST_PAIRS {
        if at == 0 {
            return Ok(Some(steps));
        }
        let Some(visit) = visits.get(at).copied() else {
            return Ok(None);
        };
        let Some(from) = visits.get(visit.from).copied() else {
            return Ok(None);
        };
        match step_between(schema, from.pair, visit.pair, code) {
            Some(step) => {
                steps.push(step)?;
                code = None;
            }
            None => code = code.or(code_between(schema, from.pair, visit.pair)),
        }
        at = visit.from;
    }
    Ok(None)
}

// The way to a place, if it doesn't lie too deep.
fn way_to<'s>(
    alloc: Global,
    schema: &'s Schema,
    visits: &[Visit],
    place: usize,
) -> Result<Option<Vec<Step<'s>>>, NoMemory> {
    let Some(mut steps) = steps_back(alloc, schema, visits, place)? else {
        return Ok(None);
    };
    steps.reverse();
    Ok(Some(steps))
}

// What the pair that fails suggests, with what stands below it.
fn suggest_first<'s>(
    alloc: Global,
    finder: &mut Finder<'s>,
    schema: &'s Schema,
    visits: &[Visit],
    wanted: Pair,
) -> Done {
    let Some(place) = place_of(visits, wanted) else {
        return Ok(());
    };
    let Some(way) = way_to(alloc, schema, visits, place)? else {
        return Ok(());
    };
    finder.go(way);
    match wanted {
        Pair::Item(nodes) => suggest_of_items(finder, nodes.derived, nodes.base),
        Pair::Kids(nodes) => suggest_of_kids(finder, nodes.derived, nodes.base),
    }
}

// What any other pair suggests.
fn suggest<'s>(
    alloc: Global,
    finder: &mut Finder<'s>,
    schema: &'s Schema,
    visits: &[Visit],
    place: usize,
) -> Done {
    let Some(visit) = visits.get(place).copied() else {
        return Ok(());
    };
    if finder.is_done() {
        return Ok(());
    }
    let Some(way) = way_to(alloc, schema, visits, place)? else {
        return Ok(());
    };
    finder.go(way);
    match visit.pair {
        Pair::Item(nodes) => suggest_of_elements(finder, nodes.derived, nodes.base),
        Pair::Kids(nodes) => suggest_of_slots(finder, nodes.derived, nodes.base),
    }
}

/// Where the profiles of two roots may differ, of which a pair fails, the likeliest first: what this pair suggests, and then what the
/// others do. A pair that fails needn't be what parts the two profiles. There are 200 at most, and where the profiles name others by the
/// thousand not all is looked through.
pub fn differences<'s>(
    alloc: Global,
    schema: &'s Schema,
    roots: NodePair,
    wanted: Pair,
) -> Result<Vec<Difference<'s>>, NoMemory>
    ensures { IfOk result (λ found. length found.items ≤ 200) }
{
    let visits = visits_from(alloc, schema, Pair::Item(roots))?;
    let mut finder = Finder::new(alloc, schema)?;
    suggest_first(alloc, &mut finder, schema, &visits, wanted)?;
    finder.make_room();
    for place in 0..visits.len() {
        suggest(alloc, &mut finder, schema, &visits, place)?;
    }
    Ok(finder.into_found())
}
