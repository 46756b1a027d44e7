//! The definitions for which keys stand.

ghost use Rattle.std.specs.Prelude.{◌≡◌, ◌++◌, OnOk, if◌then◌else◌};
ghost use Rattle.std.specs.List.{list_any, slice_get};
ghost use Rattle.std.specs.Option.{option_map_or};
ghost use Rattle.fhir_json.specs.Views.{tree_of};
ghost use Rattle.fhir_json.specs.Memory.{Gives};
ghost use Rattle.fhir_package.specs.declared.kind.Kind.TheVariants.{StructureDefinition};
ghost use Rattle.fhir_package.specs.Definitions.{of_kind, with_kind};
ghost use Rattle.fhir_package.specs.Packing.{with_definition};
ghost use Rattle.fhir_reach.specs.Keys.{keys_seen, has_key, with_keys};
ghost use Rattle.fhir_reach.specs.Reach.{type_code_keys, is_held, held_of, restrict};
ghost use Rattle.fhir_reach.specs.Places.{with_entry};

use crate::key::Key;
use crate::key_set::KeySet;
use fhir_definition::is_type_definition;
use fhir_json::{Json, NoMemory};
use fhir_package::{Kind, Package};
use std::alloc::Global;

fn type_is_held(found: &KeySet, definition: &Json<'_>) -> bool
    ensures { result ≡ list_any (has_key found.now) (type_code_keys StructureDefinition (tree_of definition.now)) }
{
    if !is_type_definition(definition) {
        return false;
    }
    found.has_code(definition.text_at("type"))
}

fn code_is_held(found: &KeySet, kind: Kind, definition: &Json<'_>) -> bool
    ensures { result ≡ list_any (has_key found.now) (type_code_keys kind (tree_of definition.now)) }
{
    match kind {
        Kind::StructureDefinition => type_is_held(found, definition),
        Kind::ValueSet => false,
        Kind::CodeSystem => false,
    }
}

fn is_held(found: &KeySet, kind: Kind, url: &str, definition: &Json<'_>) -> bool
    ensures { result ≡ is_held found.now kind url.now (tree_of definition.now) }
{
    found.has_url(url) || code_is_held(found, kind, definition)
}

// Puts in a definition, if a key stands for it.
fn add_entry(
    alloc: Global,
    found: &KeySet,
    kind: Kind,
    entry: (&str, &Json<'_>),
    into: &mut Package<'static>,
) -> Result<(), NoMemory>
    ensures { OnOk result (into.new ≡ with_entry found.now kind (entry.entry.0.now, tree_of entry.entry.1.now) into.old) }
{
    let (url, definition) = entry;
    if !is_held(found, kind, url, definition) {
        return Ok(());
    }
    let definition = definition.detach(alloc)?;
    into.add(alloc, kind, url, definition)
}

fn add_at(
    alloc: Global,
    found: &KeySet,
    package: &Package<'_>,
    kind: Kind,
    place: usize,
    into: &mut Package<'static>,
) -> Result<(), NoMemory>
    ensures { OnOk result (into.new
        ≡ option_map_or (λ e. with_entry found.now kind e into.old) (slice_get (of_kind kind «package».now) place) into.old) }
{
    match package.at(kind, place) {
        Some(entry) => add_entry(alloc, found, kind, entry, into),
        None => Ok(()),
    }
}

// Puts in those of a kind behind the others.
fn add_kind(
    alloc: Global,
    found: &KeySet,
    package: &Package<'_>,
    kind: Kind,
    into: &mut Package<'static>,
) -> Result<(), NoMemory>
    ensures { OnOk result (into.new
        ≡ with_kind kind (of_kind kind into.old ++ held_of found.now kind (of_kind kind «package».now)) into.old) }
{
    for place in 0..package.len(kind) {
        add_at(alloc, found, package, kind, place, into)?;
    }
    Ok(())
}

/// The definitions for which keys stand, in the order in which the package has them, in memory of their own. The one refusal is want of
/// memory.
pub fn restrict(
    alloc: Global,
    package: &Package<'_>,
    keys: &[Key],
) -> Result<Package<'static>, NoMemory>
    ensures { Gives (λ p. p) result (restrict «package».now (keys_seen keys.now)) }
{
    let found = KeySet::of(alloc, keys)?;
    let mut into = Package::new(alloc);
    add_kind(alloc, &found, package, Kind::StructureDefinition, &mut into)?;
    add_kind(alloc, &found, package, Kind::ValueSet, &mut into)?;
    add_kind(alloc, &found, package, Kind::CodeSystem, &mut into)?;
    Ok(into)
}
