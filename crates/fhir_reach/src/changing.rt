//! The keys that a change of a package touches.

ghost use Rattle.std.specs.Prelude.{◌≡◌, ◌∷◌, ◌++◌, [], IfOk, OnOk, if◌then◌else◌};
ghost use Rattle.std.specs.List.{slice_get};
ghost use Rattle.std.specs.Option.{option_map_or};
ghost use Rattle.std.specs.Str.{bytes_eq};
ghost use Rattle.fhir_json.specs.Views.{tree_of};
ghost use Rattle.fhir_package.specs.declared.kind.Kind.TheVariants.{StructureDefinition};
ghost use Rattle.fhir_package.specs.Definitions.{of_kind};
ghost use Rattle.fhir_reach.specs.Keys.{of_url, of_code, keys_seen};
ghost use Rattle.fhir_reach.specs.Reach.{type_code_keys, keys_of, keys_at, first_keys, put_keys, all_put_keys, removed_keys};

use crate::key::Key;
use fhir_definition::is_type_definition;
use fhir_json::{Json, NoMemory};
use fhir_package::{Definition, Kind, Package};
use std::alloc::Global;

fn push_url(alloc: Global, keys: &mut Vec<Key>, url: &str) -> Result<(), NoMemory>
    ensures { OnOk result (keys_seen keys.new.items ≡ keys_seen keys.old.items ++ of_url url.now ∷ []) }
{
    keys.push(Key::Url(String::from_str(alloc, url)?))?;
    Ok(())
}

fn push_code(alloc: Global, keys: &mut Vec<Key>, code: &str) -> Result<(), NoMemory>
    ensures { OnOk result (keys_seen keys.new.items ≡ keys_seen keys.old.items ++ of_code code.now ∷ []) }
{
    keys.push(Key::Code(String::from_str(alloc, code)?))?;
    Ok(())
}

fn push_type(alloc: Global, keys: &mut Vec<Key>, definition: &Json<'_>) -> Result<(), NoMemory>
    ensures { OnOk result (keys_seen keys.new.items
        ≡ keys_seen keys.old.items ++ type_code_keys StructureDefinition (tree_of definition.now)) }
{
    if !is_type_definition(definition) {
        return Ok(());
    }
    push_code(alloc, keys, definition.text_at("type"))
}

fn push_type_code(
    alloc: Global,
    keys: &mut Vec<Key>,
    kind: Kind,
    definition: &Json<'_>,
) -> Result<(), NoMemory>
    ensures { OnOk result (keys_seen keys.new.items ≡ keys_seen keys.old.items ++ type_code_keys kind (tree_of definition.now)) }
{
    match kind {
        Kind::StructureDefinition => push_type(alloc, keys, definition),
        Kind::ValueSet => Ok(()),
        Kind::CodeSystem => Ok(()),
    }
}

fn push_keys(
    alloc: Global,
    keys: &mut Vec<Key>,
    kind: Kind,
    url: &str,
    definition: &Json<'_>,
) -> Result<(), NoMemory>
    ensures { OnOk result (keys_seen keys.new.items ≡ keys_seen keys.old.items ++ keys_of kind url.now (tree_of definition.now)) }
{
    push_url(alloc, keys, url)?;
    push_type_code(alloc, keys, kind, definition)
}

fn push_first(
    alloc: Global,
    keys: &mut Vec<Key>,
    package: &Package<'_>,
    kind: Kind,
    url: &str,
) -> Result<(), NoMemory>
    ensures { OnOk result (keys_seen keys.new.items ≡ keys_seen keys.old.items ++ first_keys kind url.now «package».now) }
{
    match package.at_url(kind, url) {
        Some(definition) => push_keys(alloc, keys, kind, url, definition),
        None => Ok(()),
    }
}

fn push_put(
    alloc: Global,
    keys: &mut Vec<Key>,
    package: &Package<'_>,
    definition: &Definition<'_>,
) -> Result<(), NoMemory>
    ensures { OnOk result (keys_seen keys.new.items ≡ keys_seen keys.old.items ++ put_keys definition.now «package».now) }
{
    let (kind, url) = (definition.kind(), definition.url());
    push_keys(alloc, keys, kind, url, definition.tree())?;
    push_first(alloc, keys, package, kind, url)
}

/// The keys that definitions touch which are put in, one after the other: those of each, and of the one whose place it takes.
pub fn keys_put(
    alloc: Global,
    package: &Package<'_>,
    definitions: &[Definition<'_>],
) -> Result<Vec<Key>, NoMemory>
    ensures { IfOk result (λ keys. keys_seen keys.items ≡ all_put_keys definitions.now «package».now) }
{
    let mut keys = Vec::new(alloc);
    for definition in definitions {
        push_put(alloc, &mut keys, package, definition)?;
    }
    Ok(keys)
}

fn push_if_at(
    alloc: Global,
    keys: &mut Vec<Key>,
    kind: Kind,
    url: &str,
    entry: (&str, &Json<'_>),
) -> Result<(), NoMemory>
    ensures { OnOk result (keys_seen keys.new.items ≡ keys_seen keys.old.items
        ++ (if bytes_eq url.now entry.entry.0.now then keys_of kind entry.entry.0.now (tree_of entry.entry.1.now) else [])) }
{
    let (own, definition) = entry;
    if url != own {
        return Ok(());
    }
    push_keys(alloc, keys, kind, own, definition)
}

fn push_at(
    alloc: Global,
    keys: &mut Vec<Key>,
    package: &Package<'_>,
    kind: Kind,
    url: &str,
    place: usize,
) -> Result<(), NoMemory>
    ensures { OnOk result (keys_seen keys.new.items ≡ keys_seen keys.old.items
        ++ option_map_or (λ e. if bytes_eq url.now e.0 then keys_of kind e.0 e.1 else []) (slice_get (of_kind kind «package».now) place) []) }
{
    match package.at(kind, place) {
        Some(entry) => push_if_at(alloc, keys, kind, url, entry),
        None => Ok(()),
    }
}

fn push_kind(
    alloc: Global,
    keys: &mut Vec<Key>,
    package: &Package<'_>,
    kind: Kind,
    url: &str,
) -> Result<(), NoMemory>
    ensures { OnOk result (keys_seen keys.new.items ≡ keys_seen keys.old.items ++ keys_at kind url.now «package».now) }
{
    for place in 0..package.len(kind) {
        push_at(alloc, keys, package, kind, url, place)?;
    }
    Ok(())
}

// Those of the definitions of a kind at a url. All of the kind are looked through, but only where one is there, as they are when it is taken out.
fn push_held(
    alloc: Global,
    keys: &mut Vec<Key>,
    package: &Package<'_>,
    kind: Kind,
    url: &str,
) -> Result<(), NoMemory>
    ensures { OnOk result (keys_seen keys.new.items ≡ keys_seen keys.old.items ++ keys_at kind url.now «package».now) }
{
    match package.at_url(kind, url) {
        Some(_) => push_kind(alloc, keys, package, kind, url),
        None => Ok(()),
    }
}

/// The keys that the definitions of a url touch which are taken out, of each kind.
pub fn keys_removed(alloc: Global, package: &Package<'_>, url: &str) -> Result<Vec<Key>, NoMemory>
    ensures { IfOk result (λ keys. keys_seen keys.items ≡ removed_keys url.now «package».now) }
{
    let mut keys = Vec::new(alloc);
    push_held(alloc, &mut keys, package, Kind::StructureDefinition, url)?;
    push_held(alloc, &mut keys, package, Kind::ValueSet, url)?;
    push_held(alloc, &mut keys, package, Kind::CodeSystem, url)?;
    Ok(keys)
}
