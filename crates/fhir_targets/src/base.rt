//! The targets of a base, in an order.

ghost use Rattle.std.specs.Prelude.{◌≡◌, ◌∷◌, ◌++◌, [], map, string_bytes, IfOk, OnOk, List, Bool};
ghost use Rattle.std.specs.List.{list_any};
ghost use Rattle.fhir_json.specs.Memory.{Gives};
ghost use Rattle.fhir_json.specs.Tree.{Text};
ghost use Rattle.fhir_json.specs.Views.{text_seen};
ghost use Rattle.fhir_facets.specs.Targets.{target_type, target_narrower};
ghost use Rattle.fhir_targets.specs.Base.{AreTexts, AreCodes, ArePlaces, AreOf, is_covered};
ghost use Rattle.fhir_targets.specs.Chains.{code_at, with_code, AreReaching};

use crate::chains::{code_above, put_chain, put_code};
use crate::texts::{has_text, put_text};
use fhir_json::NoMemory;
use fhir_schema::Schema;
use std::alloc::Global;
use std::collections::{BTreeMap, BTreeSet};

/// The targets of a base.
#[derive(Drop)]
pub(crate) struct BaseTargets<'s> {
    texts: BTreeSet<&'s str>,
    // The codes of their types.
    codes: BTreeSet<&'s str>,
    // Of places of definitions those whose chain of bases comes by one of these types, each with that one's code. It gains
    // what is found, so that no chain is climbed twice.
    places: BTreeMap<usize, &'s str>,
}

fn target_type<'s>(schema: &'s Schema, canonical: &str) -> Option<&'s str>
    ensures { text_seen result ≡ target_type schema.now canonical.now }
{
    match schema.loaded(canonical) {
        Some(node) => Some(schema.type_code(node)),
        None => None,
    }
}

fn texts_of(alloc: Global, targets: &[String]) -> Result<BTreeSet<&str>, NoMemory>
    ensures { IfOk result (λ texts. AreTexts (map string_bytes targets.now) texts) }
{
    let mut texts = BTreeSet::new(alloc);
    for target in targets {
        put_text(&mut texts, target.as_str())?;
    }
    Ok(texts)
}

fn put_type<'s>(
    schema: &'s Schema,
    codes: &mut BTreeSet<&'s str>,
    target: &str,
) -> Result<(), NoMemory>
    ensures { OnOk result ((targets : List Text) → AreCodes schema.now targets codes.old
        → AreCodes schema.now (targets ++ target.now ∷ []) codes.new) }
{
    match target_type(schema, target) {
        Some(code) => put_text(codes, code),
        None => Ok(()),
    }
}

fn codes_of<'s>(
    alloc: Global,
    schema: &'s Schema,
    targets: &[String],
) -> Result<BTreeSet<&'s str>, NoMemory>
    ensures { IfOk result (λ codes. AreCodes schema.now (map string_bytes targets.now) codes) }
{
    let mut codes = BTreeSet::new(alloc);
    for target in targets {
        put_type(schema, &mut codes, target.as_str())?;
    }
    Ok(codes)
}

// Gives the definition of a type its code. Only a type of resources covers others.
fn put_type_place<'s>(
    schema: &Schema,
    places: &mut BTreeMap<usize, &'s str>,
    code: &'s str,
) -> Result<(), NoMemory>
    ensures { OnOk result ((codes : Text → Bool) → AreReaching schema.now.definitions codes (code_at places.old)
        → AreReaching schema.now.definitions (with_code code.entry.now codes) (code_at places.new)) }
{
    if !schema.is_resource(code) {
        return Ok(());
    }
    match schema.type_place(code) {
        Some(place) => put_code(places, place, code),
        None => Ok(()),
    }
}

fn put_place<'s>(
    schema: &'s Schema,
    places: &mut BTreeMap<usize, &'s str>,
    target: &str,
) -> Result<(), NoMemory>
    ensures { OnOk result ((targets : List Text) → ArePlaces schema.now targets places.old
        → ArePlaces schema.now (targets ++ target.now ∷ []) places.new) }
{
    match target_type(schema, target) {
        Some(code) => put_type_place(schema, places, code),
        None => Ok(()),
    }
}

fn places_of<'s>(
    alloc: Global,
    schema: &'s Schema,
    targets: &[String],
) -> Result<BTreeMap<usize, &'s str>, NoMemory>
    ensures { IfOk result (λ places. ArePlaces schema.now (map string_bytes targets.now) places) }
{
    let mut places = BTreeMap::new(alloc);
    for target in targets {
        put_place(schema, &mut places, target.as_str())?;
    }
    Ok(places)
}

// Whether the type of a code is covered by one of a base's.
fn is_covered<'s>(
    schema: &'s Schema,
    codes: &BTreeSet<&'s str>,
    places: &mut BTreeMap<usize, &'s str>,
    code: &str,
) -> Result<bool, NoMemory>
    ensures covered { (bases : List Text) → AreCodes schema.now bases codes.now → ArePlaces schema.now bases places.old
        → Gives (λ b. b) result (is_covered schema.now bases code.now) }
    ensures kept { OnOk result ((bases : List Text) → ArePlaces schema.now bases places.old → ArePlaces schema.now bases places.new) }
{
    if has_text(codes, code) {
        return Ok(true);
    }
    let Some(start) = schema.type_place(code) else {
        return Ok(false);
    };
    let Some(base) = code_above(schema, places, start) else {
        return Ok(false);
    };
    // A chain that doesn't end is of no type.
    if !schema.covers(base, code) {
        return Ok(false);
    }
    put_chain(schema, places, start, base)?;
    Ok(true)
}

impl<'s> BaseTargets<'s> {
    /// Those of a list.
    pub(crate) fn of(
        alloc: Global,
        schema: &'s Schema,
        targets: &'s [String],
    ) -> Result<BaseTargets<'s>, NoMemory>
        ensures { IfOk result (λ base. AreOf schema.now (map string_bytes targets.now) base) }
    {
        let texts = texts_of(alloc, targets)?;
        let codes = codes_of(alloc, schema, targets)?;
        let places = places_of(alloc, schema, targets)?;
        Ok(BaseTargets {
            texts,
            codes,
            places,
        })
    }

    /// Whether a target is as narrow as one of them.
    pub(crate) fn has(&mut self, schema: &'s Schema, own: &str) -> Result<bool, NoMemory>
        ensures among { (bases : List Text) → AreOf schema.now bases self.old
            → Gives (λ b. b) result (list_any (target_narrower schema.now own.now) bases) }
        ensures kept { OnOk result ((bases : List Text) → AreOf schema.now bases self.old → AreOf schema.now bases self.new) }
    {
        if has_text(&self.texts, own) {
            return Ok(true);
        }
        match target_type(schema, own) {
            Some(code) => is_covered(schema, &self.codes, &mut self.places, code),
            None => Ok(false),
        }
    }
}
