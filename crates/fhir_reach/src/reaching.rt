//! The keys that some reach in a package.

ghost use Rattle.std.specs.Prelude.{◌≡◌, [], IfOk, OnOk};
ghost use Rattle.std.specs.List.{IsDistinct, flat_map, slice_get};
ghost use Rattle.std.specs.Option.{option_map, option_map_or};
ghost use Rattle.fhir_json.specs.Views.{tree_seen};
ghost use Rattle.fhir_reach.specs.Keys.{of_url, of_code, key_eq, key_seen, keys_seen, with_keys};
ghost use Rattle.fhir_reach.specs.Naming.{structure_keys, value_set_keys};
ghost use Rattle.fhir_reach.specs.Reach.{named_by, IsReach};
ghost use Rattle.fhir_reach.specs.Search.{visited, reached, IsFound};
ghost use Rattle.fhir_reach.specs.Places.{HasPlaces, keys_at_place};

use crate::key::Key;
use crate::key_set::KeySet;
use crate::naming::{add_structure, add_value_set};
use crate::places::TypePlaces;
use fhir_json::{Json, NoMemory};
use fhir_package::{Kind, Package};
use std::alloc::Global;

fn visit_structure(
    alloc: Global,
    found: &mut KeySet,
    definition: Option<&Json<'_>>,
) -> Result<(), NoMemory>
    ensures { OnOk result (found.new ≡ with_keys found.old (option_map_or structure_keys (tree_seen definition.entry) [])) }
{
    match definition {
        Some(definition) => add_structure(alloc, found, definition),
        None => Ok(()),
    }
}

fn visit_value_set(
    alloc: Global,
    found: &mut KeySet,
    definition: Option<&Json<'_>>,
) -> Result<(), NoMemory>
    ensures { OnOk result (found.new ≡ with_keys found.old (option_map_or value_set_keys (tree_seen definition.entry) [])) }
{
    match definition {
        Some(definition) => add_value_set(alloc, found, definition),
        None => Ok(()),
    }
}

// What the definitions of a url name.
fn visit_url(
    alloc: Global,
    found: &mut KeySet,
    package: &Package<'_>,
    url: &str,
) -> Result<(), NoMemory>
    ensures { OnOk result (found.new ≡ with_keys found.old (named_by «package».now (of_url url.now))) }
{
    visit_structure(alloc, found, package.at_url(Kind::StructureDefinition, url))?;
    visit_value_set(alloc, found, package.at_url(Kind::ValueSet, url))
}

fn visit_place(
    alloc: Global,
    found: &mut KeySet,
    package: &Package<'_>,
    place: usize,
) -> Result<(), NoMemory>
    ensures { OnOk result (found.new ≡ with_keys found.old (keys_at_place «package».now.structure_definitions place)) }
{
    match package.at(Kind::StructureDefinition, place) {
        Some((_, definition)) => add_structure(alloc, found, definition),
        None => Ok(()),
    }
}

fn visit_places(
    alloc: Global,
    found: &mut KeySet,
    package: &Package<'_>,
    places: &[usize],
) -> Result<(), NoMemory>
    ensures { OnOk result (found.new ≡ with_keys found.old (flat_map (keys_at_place «package».now.structure_definitions) places.now)) }
{
    for place in places {
        visit_place(alloc, found, package, *place)?;
    }
    Ok(())
}

// What the definitions of a type name.
fn visit_code(
    alloc: Global,
    found: &mut KeySet,
    package: &Package<'_>,
    types: &TypePlaces,
    code: &str,
) -> Result<(), NoMemory>
    requires { HasPlaces types.now «package».now.structure_definitions }
    ensures { OnOk result (found.new ≡ with_keys found.old (named_by «package».now (of_code code.now))) }
{
    visit_places(alloc, found, package, types.get(code))
}

fn visit(
    alloc: Global,
    found: &mut KeySet,
    package: &Package<'_>,
    types: &TypePlaces,
    key: &Key,
) -> Result<(), NoMemory>
    requires { HasPlaces types.now «package».now.structure_definitions }
    ensures { OnOk result (found.new ≡ with_keys found.old (named_by «package».now (key_seen key.now))) }
{
    match key {
        Key::Url(url) => visit_url(alloc, found, package, url.as_str()),
        Key::Code(code) => visit_code(alloc, found, package, types, code.as_str()),
    }
}

// The key at a place, in memory of its own.
fn copy_at(found: &KeySet, place: usize) -> Result<Option<Key>, NoMemory>
    ensures { IfOk result (λ k. option_map key_seen k ≡ slice_get found.now place) }
{
    match found.at(place) {
        Some(key) => Ok(Some(key.copy()?)),
        None => Ok(None),
    }
}

fn visit_at(
    alloc: Global,
    found: &mut KeySet,
    package: &Package<'_>,
    types: &TypePlaces,
    place: usize,
) -> Result<(), NoMemory>
    requires { HasPlaces types.now «package».now.structure_definitions }
    ensures { OnOk result (found.new ≡ visited «package».now found.old place) }
{
    match copy_at(found, place)? {
        Some(key) => visit(alloc, found, package, types, &key),
        None => Ok(()),
    }
}

// All that is found, in the order in which it is.
fn find(
    alloc: Global,
    package: &Package<'_>,
    types: &TypePlaces,
    start: &[Key],
) -> Result<KeySet, NoMemory>
    requires { HasPlaces types.now «package».now.structure_definitions }
    ensures { IfOk result (λ found. IsFound «package».now (keys_seen start.now) found) }
{
    let mut found = KeySet::of(alloc, start)?;
    let mut at = 0;
    while at < found.len() {
        visit_at(alloc, &mut found, package, types, at)?;
        at += 1;
    }
    Ok(found)
}

/// The keys that some reach in a package: these, and what is named by the definitions for which they stand, and so on; each once,
/// in the order in which they are found.
pub fn reached_set(alloc: Global, package: &Package<'_>, start: &[Key]) -> Result<KeySet, NoMemory>
    ensures least { IfOk result (λ keys. IsReach «package».now (keys_seen start.now) keys) }
    ensures in_order { IfOk result (λ keys. keys ≡ reached «package».now (keys_seen start.now)) }
    ensures once { IfOk result (λ keys. IsDistinct key_eq keys) }
{
    let types = TypePlaces::of(alloc, package)?;
    let found = find(alloc, package, &types, start)?;
    Ok(found)
}

/// The same as a list.
pub fn reach(alloc: Global, package: &Package<'_>, start: &[Key]) -> Result<Vec<Key>, NoMemory>
    ensures least { IfOk result (λ keys. IsReach «package».now (keys_seen start.now) (keys_seen keys.items)) }
    ensures in_order { IfOk result (λ keys. keys_seen keys.items ≡ reached «package».now (keys_seen start.now)) }
    ensures once { IfOk result (λ keys. IsDistinct key_eq (keys_seen keys.items)) }
{
    let found = reached_set(alloc, package, start)?;
    Ok(found.into_keys())
}
