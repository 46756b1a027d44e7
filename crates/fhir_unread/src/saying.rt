//! What constraints without expressions say in words (FHIR R4, ElementDefinition, constraint.human).

ghost use Rattle.std.specs.Prelude.{◌≡◌, List, ◌∷◌, ◌++◌, [], codes, length, map, filter, if◌then◌else◌, IfOk, OnOk};
ghost use Rattle.std.specs.List.{flat_map, slice_get};
ghost use Rattle.std.specs.Option.{option_map_or};
ghost use Rattle.std.specs.Str.{bytes_eq};
ghost use Rattle.fhir_json.specs.Tree.{Text};
ghost use Rattle.fhir_json.specs.Fields.{text_at};
ghost use Rattle.fhir_json.specs.Views.{tree_of, trees_of};
ghost use Rattle.fhir_names.specs.Places.{Finds};
ghost use Rattle.fhir_findings.specs.Firsts.{has_text_of, firsts};
ghost use Rattle.fhir_findings.specs.Sentences.{elements_in};
ghost use Rattle.fhir_unread.specs.Sayings.{Saying as SayingValue, saying_of, sayings_in, sayings_of, all_sayings};
ghost use Rattle.fhir_unread.specs.Seen.{saying_seen, sayings_seen, kept_under};

use fhir_json::{Json, NoMemory};
use fhir_names::Index;
use fhir_package::{Kind, Package};
use std::alloc::{AllocError, Global};
use std::collections::BTreeMap;

/// A sentence that a constraint says which has a key and no expression.
#[derive(Clone, Copy)]
pub(crate) struct Saying<'s> {
    /// The key.
    pub(crate) key: &'s str,
    /// The sentence.
    pub(crate) human: &'s str,
    /// The url of its definition.
    pub(crate) url: &'s str,
    /// The id of its element.
    pub(crate) id: &'s str,
}

// ---- what the constraints of a package say

fn elements_in<'s, 'f>(definition: &'s Json<'f>, part: &str) -> &'s [Json<'f>]
    ensures { trees_of result.now ≡ elements_in part.now (tree_of definition.now) }
{
    match definition.field(part) {
        Some(part) => part.items_in("element"),
        None => Default::default(),
    }
}

// Puts in what a constraint says that has no expression.
fn push_said<'s>(
    url: &'s str,
    id: &'s str,
    constraint: &'s Json<'_>,
    human: &'s str,
    into: &mut Vec<Saying<'s>>,
) -> Result<(), AllocError>
    ensures { OnOk result (sayings_seen into.new.items ≡ sayings_seen into.old.items
        ++ record { key = text_at (codes "key") (tree_of constraint.now); human = human.now; url = url.now; id = id.now } ∷ []) }
{
    into.push(Saying {
        key: constraint.text_at("key"),
        human,
        url,
        id,
    })?;
    Ok(())
}

fn push_constraint<'s>(
    url: &'s str,
    id: &'s str,
    constraint: &'s Json<'_>,
    into: &mut Vec<Saying<'s>>,
) -> Result<(), AllocError>
    ensures { OnOk result (sayings_seen into.new.items
        ≡ sayings_seen into.old.items ++ saying_of url.now id.now (tree_of constraint.now)) }
{
    match (
        constraint.text_in("expression"),
        constraint.text_in("human"),
    ) {
        (Some(_), _) => Ok(()),
        (None, None) => Ok(()),
        (None, Some(human)) => push_said(url, id, constraint, human, into),
    }
}

fn push_constraints<'s>(
    url: &'s str,
    id: &'s str,
    constraints: &'s [Json<'_>],
    into: &mut Vec<Saying<'s>>,
) -> Result<(), AllocError>
    ensures { OnOk result (sayings_seen into.new.items
        ≡ sayings_seen into.old.items ++ flat_map (saying_of url.now id.now) (trees_of constraints.now)) }
{
    for constraint in constraints {
        push_constraint(url, id, constraint, into)?;
    }
    Ok(())
}

fn push_elements<'s>(
    url: &'s str,
    elements: &'s [Json<'_>],
    into: &mut Vec<Saying<'s>>,
) -> Result<(), AllocError>
    ensures { OnOk result (sayings_seen into.new.items
        ≡ sayings_seen into.old.items ++ flat_map (sayings_in url.now) (trees_of elements.now)) }
{
    for element in elements {
        let constraints = element.items_in("constraint");
        push_constraints(url, element.text_at("id"), constraints, into)?;
    }
    Ok(())
}

fn push_definition<'s>(
    url: &'s str,
    definition: &'s Json<'_>,
    into: &mut Vec<Saying<'s>>,
) -> Result<(), AllocError>
    ensures { OnOk result (sayings_seen into.new.items
        ≡ sayings_seen into.old.items ++ sayings_of (url.now, tree_of definition.now)) }
{
    push_elements(url, elements_in(definition, "snapshot"), into)?;
    push_elements(url, elements_in(definition, "differential"), into)
}

fn push_at<'s>(
    package: &'s Package<'_>,
    place: usize,
    into: &mut Vec<Saying<'s>>,
) -> Result<(), AllocError>
    ensures { OnOk result (sayings_seen into.new.items ≡ sayings_seen into.old.items
        ++ option_map_or sayings_of (slice_get «package».now.structure_definitions place) []) }
{
    match package.at(Kind::StructureDefinition, place) {
        Some((url, definition)) => push_definition(url, definition, into),
        None => Ok(()),
    }
}

/// What the constraints of a package say that have no expressions, in order.
pub(crate) fn all_sayings<'s>(
    alloc: Global,
    package: &'s Package<'_>,
) -> Result<Vec<Saying<'s>>, AllocError>
    ensures { IfOk result (λ ys. sayings_seen ys.items ≡ all_sayings «package».now) }
{
    let mut all: Vec<Saying<'s>> = Vec::new(alloc);
    for place in 0..package.len(Kind::StructureDefinition) {
        push_at(package, place, &mut all)?;
    }
    Ok(all)
}

// ---- sayings by their keys

fn put<'s>(
    alloc: Global,
    groups: &mut BTreeMap<&'s str, Vec<Saying<'s>>>,
    saying: &Saying<'s>,
) -> Result<(), NoMemory>
    ensures { OnOk result ((key : Text) → kept_under key groups.new
        ≡ (if bytes_eq key saying.now.key.now then kept_under key groups.old ++ saying.now ∷ [] else kept_under key groups.old)) }
{
    groups
        .entry(saying.key)?
        .or_insert(Vec::new(alloc))
        .push(*saying)?;
    Ok(())
}

/// Sayings under their keys, each group in order. A look-up takes time logarithmic in the number of keys.
pub(crate) fn grouped<'s>(
    alloc: Global,
    sayings: &[Saying<'s>],
) -> Result<BTreeMap<&'s str, Vec<Saying<'s>>>, NoMemory>
    ensures { IfOk result (λ groups. (key : Text) → sayings_seen (kept_under key groups)
        ≡ filter (λ y. bytes_eq key y.key) (sayings_seen sayings.now)) }
{
    let mut groups = BTreeMap::new(alloc);
    for saying in sayings {
        put(alloc, &mut groups, saying)?;
    }
    Ok(groups)
}

// ---- each sentence once

fn push_if<'s>(
    is_new: bool,
    saying: &Saying<'s>,
    into: &mut Vec<Saying<'s>>,
) -> Result<(), AllocError>
    ensures { OnOk result (sayings_seen into.new.items
        ≡ sayings_seen into.old.items ++ (if is_new then saying_seen saying.now ∷ [] else [])) }
{
    if is_new {
        into.push(*saying)?;
    }
    Ok(())
}

// Puts a saying in, if none of those before it has its sentence. The index has the sentences of those.
fn push_if_first<'s>(
    alloc: Global,
    seen: &mut Index,
    saying: &Saying<'s>,
    place: usize,
    into: &mut Vec<Saying<'s>>,
) -> Result<(), NoMemory>
    ensures seen { OnOk result ((before : List SayingValue) → Finds seen.old (map (λ y. y.human) before) → length before ≡ place
        → Finds seen.new (map (λ y. y.human) (before ++ saying_seen saying.now ∷ []))) }
    ensures pushed { OnOk result ((before : List SayingValue) → Finds seen.old (map (λ y. y.human) before)
        → sayings_seen into.new.items ≡ sayings_seen into.old.items
        ++ (if has_text_of (λ y. y.human) before (saying_seen saying.now) then [] else saying_seen saying.now ∷ [])) }
{
    let is_new = seen.get(saying.human).is_none();
    seen.add(alloc, saying.human, place)?;
    push_if(is_new, saying, into)?;
    Ok(())
}

// Those of which none before them says the same.
fn firsts<'s>(alloc: Global, sayings: &[Saying<'s>]) -> Result<Vec<Saying<'s>>, NoMemory>
    ensures { IfOk result (λ ys. sayings_seen ys.items ≡ firsts (λ y. y.human) (sayings_seen sayings.now)) }
{
    let mut seen = Index::new(alloc);
    let mut into: Vec<Saying<'s>> = Vec::new(alloc);
    for (place, saying) in sayings.iter().enumerate() {
        push_if_first(alloc, &mut seen, saying, place, &mut into)?;
    }
    Ok(into)
}

/// What is said under a key: each sentence once, where it is said first.
pub(crate) fn said_under<'s>(
    alloc: Global,
    groups: &BTreeMap<&'s str, Vec<Saying<'s>>>,
    key: &str,
) -> Result<Vec<Saying<'s>>, NoMemory>
    ensures { IfOk result (λ ys. sayings_seen ys.items ≡ firsts (λ y. y.human) (sayings_seen (kept_under key.now groups.now))) }
{
    match groups.get(key) {
        Some(group) => firsts(alloc, group),
        None => Ok(Vec::new(alloc)),
    }
}
