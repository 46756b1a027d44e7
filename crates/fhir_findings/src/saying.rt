//! What constraints say in words (FHIR R4, ElementDefinition, constraint.human).

ghost use Rattle.std.specs.Prelude.{◌≡◌, ◌∷◌, ◌++◌, [], codes, List, None, Some, map, IfOk, OnOk};
ghost use Rattle.std.specs.List.{flat_map, slice_get};
ghost use Rattle.std.specs.Option.{option_map, option_map_or, option_or};
ghost use Rattle.fhir_json.specs.Views.{tree_of, trees_of, text_seen};
ghost use Rattle.fhir_facets.specs.Views.{unread_seen};
ghost use Rattle.fhir_findings.specs.Carrying.{Carrier as CarrierValue};
ghost use Rattle.fhir_findings.specs.Seeking.{said_for, own_place, place_under, kept_at, found_at, AreSaid};
ghost use Rattle.fhir_findings.specs.Sentences.{Wording as WordingValue, elements_in, wording_of, wordings_in, wordings_of, all_wordings, are_same, is_of, said_of, first_said, named_by_rule, constraint_named, sentence_for};
ghost use Rattle.fhir_findings.specs.Views.{carrier_seen, named_seen, wording_seen, wordings_seen, texts_seen, firsts_seen};

use crate::carrier::{Carried, Carrier};
use crate::once::Told;
use fhir_facets::Unread;
use fhir_json::{Json, NoMemory};
use fhir_names::Index;
use fhir_package::{Kind, Package};
use std::alloc::{AllocError, Global};

// ---- what the constraints of a package say

fn elements_in<'s, 'f>(definition: &'s Json<'f>, part: &str) -> &'s [Json<'f>]
    ensures { trees_of result.now ≡ elements_in part.now (tree_of definition.now) }
{
    match definition.field(part) {
        Some(part) => part.items_in("element"),
        None => Default::default(),
    }
}

// What a constraint says.
#[derive(Clone, Copy)]
struct Wording<'s> {
    key: &'s str,
    expression: Option<&'s str>,
    human: Option<&'s str>,
}

fn wording_of<'s>(constraint: &'s Json<'_>) -> Wording<'s>
    ensures { wording_seen result ≡ wording_of (tree_of constraint.now) }
{
    Wording {
        key: constraint.text_at("key"),
        expression: constraint.text_in("expression"),
        human: constraint.text_in("human"),
    }
}

fn push_constraints<'s>(
    constraints: &'s [Json<'_>],
    into: &mut Vec<Wording<'s>>,
) -> Result<(), AllocError>
    ensures { OnOk result (wordings_seen into.new.items ≡ wordings_seen into.old.items ++ map wording_of (trees_of constraints.now)) }
{
    for constraint in constraints {
        into.push(wording_of(constraint))?;
    }
    Ok(())
}

fn push_elements<'s>(
    elements: &'s [Json<'_>],
    into: &mut Vec<Wording<'s>>,
) -> Result<(), AllocError>
    ensures { OnOk result (wordings_seen into.new.items
        ≡ wordings_seen into.old.items ++ flat_map wordings_in (trees_of elements.now)) }
{
    for element in elements {
        push_constraints(element.items_in("constraint"), into)?;
    }
    Ok(())
}

fn push_definition<'s>(
    definition: &'s Json<'_>,
    into: &mut Vec<Wording<'s>>,
) -> Result<(), AllocError>
    ensures { OnOk result (wordings_seen into.new.items ≡ wordings_seen into.old.items
        ++ (flat_map wordings_in (elements_in (codes "snapshot") (tree_of definition.now))
        ++ flat_map wordings_in (elements_in (codes "differential") (tree_of definition.now)))) }
{
    push_elements(elements_in(definition, "snapshot"), into)?;
    push_elements(elements_in(definition, "differential"), into)
}

fn push_at<'s>(
    package: &'s Package<'_>,
    place: usize,
    into: &mut Vec<Wording<'s>>,
) -> Result<(), AllocError>
    ensures { OnOk result (wordings_seen into.new.items ≡ wordings_seen into.old.items
        ++ option_map_or wordings_of (slice_get «package».now.structure_definitions place) []) }
{
    match package.at(Kind::StructureDefinition, place) {
        Some((_, definition)) => push_definition(definition, into),
        None => Ok(()),
    }
}

fn all_wordings<'s>(alloc: Global, package: &'s Package<'_>) -> Result<Vec<Wording<'s>>, AllocError>
    ensures { IfOk result (λ ws. wordings_seen ws.items ≡ all_wordings «package».now) }
{
    let mut all: Vec<Wording<'s>> = Vec::new(alloc);
    for place in 0..package.len(Kind::StructureDefinition) {
        push_at(package, place, &mut all)?;
    }
    Ok(all)
}

// ---- what one says

fn are_same(one: Option<&str>, other: Option<&str>) -> bool
    ensures { result ≡ are_same (text_seen one.entry) (text_seen other.entry) }
{
    match (one, other) {
        (None, None) => true,
        (Some(one), Some(other)) => one == other,
        _ => false,
    }
}

fn is_of(key: &str, expression: Option<&str>, wording: &Wording<'_>) -> bool
    ensures { result ≡ is_of key.now (text_seen expression.entry) (wording_seen wording.now) }
{
    key == wording.key && are_same(expression, wording.expression)
}

fn said_of<'s>(key: &str, expression: Option<&str>, wording: &Wording<'s>) -> Option<&'s str>
    ensures { text_seen result ≡ said_of key.now (text_seen expression.entry) (wording_seen wording.now) }
{
    if !is_of(key, expression, wording) {
        return None;
    }
    wording.human
}

// The key and the expression of an unread rule that is a constraint.
fn named_by_rule<'s>(key: Option<&'s str>, rule: Unread<'s>) -> Option<(&'s str, Option<&'s str>)>
    ensures { named_seen result ≡ named_by_rule (text_seen key.entry) (unread_seen rule.entry) }
{
    match rule {
        Unread::Range(_) => None,
        Unread::Target(_) => None,
        Unread::Profile(_) => None,
        Unread::Binding(_) => None,
        Unread::Expression(text) => match key {
            Some(key) => Some((key, Some(text))),
            None => None,
        },
        Unread::Constraint(own) => Some((own, None)),
    }
}

fn constraint_named<'s>(carrier: &Carrier<'s>) -> Option<(&'s str, Option<&'s str>)>
    ensures { named_seen result ≡ constraint_named (carrier_seen carrier.now) }
{
    match carrier.carried {
        Carried::Rule(rule) => named_by_rule(carrier.key, rule),
        Carried::Base(_) => None,
    }
}

// What a constraint says, if it is the one that is carried.
fn said_for<'s>(carrier: &Carrier<'_>, wording: &Wording<'s>) -> Option<&'s str>
    ensures { text_seen result ≡ said_for (carrier_seen carrier.now) (wording_seen wording.now) }
{
    match constraint_named(carrier) {
        Some((key, expression)) => said_of(key, expression, wording),
        None => None,
    }
}

// What the first of some constraints says that is the one that is carried.
fn first_said<'s>(carrier: &Carrier<'_>, wordings: &[Wording<'s>]) -> Option<&'s str>
    ensures { text_seen result ≡ first_said (said_for (carrier_seen carrier.now)) (wordings_seen wordings.now) }
{
    for wording in wordings {
        if let Some(sentence) = said_for(carrier, wording) {
            return Some(sentence);
        }
    }
    None
}

// ---- constraints that are looked up

// The places among what is told of constraints: under their expressions, and under the keys of those that have none.
#[derive(Drop)]
struct Sought {
    expressions: Index,
    keys: Index,
}

impl Sought {
    fn place_under(&self, key: &str, expression: Option<&str>) -> Option<usize>
        ensures { result ≡ place_under self.now.expressions self.now.keys key.now (text_seen expression.entry) }
    {
        match expression {
            Some(text) => self.expressions.get(text),
            None => self.keys.get(key),
        }
    }

    fn own_place(&self, carrier: &Carrier<'_>) -> Option<usize>
        ensures { result ≡ own_place self.now.expressions self.now.keys (carrier_seen carrier.now) }
    {
        match constraint_named(carrier) {
            Some((key, expression)) => self.place_under(key, expression),
            None => None,
        }
    }

    fn put(
        &mut self,
        alloc: Global,
        key: &str,
        expression: Option<&str>,
        place: usize,
    ) -> Result<(), AllocError> {
        match expression {
            Some(text) => self.expressions.put(alloc, text, place),
            None => self.keys.put(alloc, key, place),
        }
    }

    // Where two have one expression, it has the place of the later one.
    fn of(alloc: Global, told: &[Told<'_>]) -> Result<Sought, AllocError> {
        let mut sought = Sought {
            expressions: Index::new(alloc),
            keys: Index::new(alloc),
        };
        for (place, one) in told.iter().enumerate() {
            if let Some((key, expression)) = constraint_named(&one.first) {
                sought.put(alloc, key, expression, place)?;
            }
        }
        Ok(sought)
    }
}

// Keeps what a constraint says for a carrier, unless something is kept.
fn keep<'s>(carrier: &Carrier<'_>, wording: &Wording<'s>, kept: &mut Option<&'s str>)
    ensures { text_seen kept.new ≡ option_or (text_seen kept.old) (said_for (carrier_seen carrier.now) (wording_seen wording.now)) }
{
    if kept.is_none() {
        *kept = said_for(carrier, wording);
    }
}

fn keep_at<'s>(
    told: &[Told<'_>],
    place: usize,
    wording: &Wording<'s>,
    found: &mut Vec<Option<&'s str>>,
)
    ensures { texts_seen found.new.items ≡ kept_at (firsts_seen told.now) (texts_seen found.old.items) place (wording_seen wording.now) }
{
    if place < told.len() && place < found.len() {
        let kept = &mut found[place];
        keep(&told[place].first, wording, kept);
    }
}

fn keep_each<'s>(
    sought: &Sought,
    told: &[Told<'_>],
    wording: &Wording<'s>,
    found: &mut Vec<Option<&'s str>>,
)
    ensures { (before : List WordingValue) → AreSaid sought.now.expressions sought.now.keys (firsts_seen told.now) (texts_seen found.old.items) before
        → AreSaid sought.now.expressions sought.now.keys (firsts_seen told.now) (texts_seen found.new.items) (before ++ wording_seen wording.now ∷ []) }
{
    let place = sought.place_under(wording.key, wording.expression);
    if let Some(place) = place {
        keep_at(told, place, wording, found);
    }
}

fn none_of<'s>(alloc: Global, told: &[Told<'_>]) -> Result<Vec<Option<&'s str>>, AllocError>
    ensures { IfOk result (λ found. texts_seen found.items ≡ map (λ _. None) (firsts_seen told.now)) }
{
    let mut found: Vec<Option<&'s str>> = Vec::new(alloc);
    for _one in told {
        found.push(None)?;
    }
    Ok(found)
}

// What the first of some constraints says, for each carrier whose constraint has its own place.
fn seek<'s>(
    alloc: Global,
    sought: &Sought,
    told: &[Told<'_>],
    wordings: &[Wording<'s>],
) -> Result<Vec<Option<&'s str>>, AllocError>
    ensures { IfOk result (λ found. AreSaid sought.now.expressions sought.now.keys (firsts_seen told.now) (texts_seen found.items) (wordings_seen wordings.now)) }
{
    let mut found = none_of(alloc, told)?;
    for wording in wordings {
        keep_each(sought, told, wording, &mut found);
    }
    Ok(found)
}

// What was found for the carrier at a place, if its constraint has that place.
fn found_at<'s>(
    sought: &Sought,
    found: &[Option<&'s str>],
    carrier: &Carrier<'_>,
    place: usize,
) -> Option<Option<&'s str>>
    ensures { option_map text_seen result ≡ found_at (own_place sought.now.expressions sought.now.keys (carrier_seen carrier.now)) (texts_seen found.now) place }
{
    match sought.own_place(carrier) {
        Some(own) if own == place => found.get(place).copied(),
        _ => None,
    }
}

fn sentence_at<'s>(
    sought: &Sought,
    found: &[Option<&'s str>],
    wordings: &[Wording<'s>],
    carrier: &Carrier<'_>,
    place: usize,
) -> Option<&'s str>
    ensures { (carriers : List CarrierValue) → AreSaid sought.now.expressions sought.now.keys carriers (texts_seen found.now) (wordings_seen wordings.now)
        → slice_get carriers place ≡ Some (carrier_seen carrier.now)
        → text_seen result ≡ first_said (said_for (carrier_seen carrier.now)) (wordings_seen wordings.now) }
{
    match found_at(sought, found, carrier, place) {
        Some(sentence) => sentence,
        None => first_said(carrier, wordings),
    }
}

/// What the constraints say in words that are told, of each that is told one: the text `human` of the first constraint in a
/// definition of the package, in its snapshot or behind that in its differential, that has its key, its expression, or none as it has
/// none, and such a text. What is told and no constraint has none. The one refusal is want of memory.
pub fn sentences<'s>(
    alloc: Global,
    package: &'s Package<'_>,
    told: &[Told<'_>],
) -> Result<Vec<Option<&'s str>>, NoMemory>
    ensures { IfOk result (λ all. texts_seen all.items ≡ map (sentence_for «package».now) (firsts_seen told.now)) }
{
    let wordings = all_wordings(alloc, package)?;
    let sought = Sought::of(alloc, told)?;
    let found = seek(alloc, &sought, told, &wordings)?;
    let mut all: Vec<Option<&'s str>> = Vec::new(alloc);
    for (place, one) in told.iter().enumerate() {
        let sentence = sentence_at(&sought, &found, &wordings, &one.first, place);
        all.push(sentence)?;
    }
    Ok(all)
}
