//! The keys that a definition names (FHIR R4, StructureDefinition, ElementDefinition, ValueSet).

ghost use Rattle.std.specs.Prelude.{◌≡◌, ◌++◌, ◌∷◌, [], OnOk, map, codes};
ghost use Rattle.std.specs.Option.{option_map, option_map_or};
ghost use Rattle.std.specs.List.{flat_map};
ghost use Rattle.fhir_json.specs.Views.{tree_of, trees_of, tree_seen};
ghost use Rattle.fhir_json.specs.Fields.{text_or_empty, text_in};
ghost use Rattle.fhir_names.specs.Texts.{cut_at_first};
ghost use Rattle.fhir_reach.specs.Keys.{of_url, with_keys};
ghost use Rattle.fhir_reach.specs.Naming.{hash, canonical_keys, type_keys, content_keys, binding_keys, element_keys, part_keys, structure_keys, include_keys, compose_keys, value_set_keys};

use crate::key_set::KeySet;
use fhir_json::{Json, NoMemory};
use fhir_names::Canonical;
use std::alloc::Global;

fn add_canonical(alloc: Global, found: &mut KeySet, text: &str) -> Result<(), NoMemory>
    ensures { OnOk result (found.new ≡ with_keys found.old (canonical_keys text.now)) }
{
    match Canonical::parse(text) {
        Ok(canonical) => found.add_url(alloc, canonical.url()),
        Err(_) => Ok(()),
    }
}

fn add_canonicals(alloc: Global, found: &mut KeySet, texts: &[Json<'_>]) -> Result<(), NoMemory>
    ensures { OnOk result (found.new ≡ with_keys found.old (flat_map canonical_keys (map text_or_empty (trees_of texts.now)))) }
{
    for text in texts {
        add_canonical(alloc, found, text.text_or_empty())?;
    }
    Ok(())
}

fn add_type(alloc: Global, found: &mut KeySet, entry: &Json<'_>) -> Result<(), NoMemory>
    ensures { OnOk result (found.new ≡ with_keys found.old (type_keys (tree_of entry.now))) }
{
    found.add_code(alloc, entry.text_at("code"))?;
    add_canonicals(alloc, found, entry.items_in("profile"))?;
    add_canonicals(alloc, found, entry.items_in("targetProfile"))
}

fn add_types(alloc: Global, found: &mut KeySet, entries: &[Json<'_>]) -> Result<(), NoMemory>
    ensures { OnOk result (found.new ≡ with_keys found.old (flat_map type_keys (trees_of entries.now))) }
{
    for entry in entries {
        add_type(alloc, found, entry)?;
    }
    Ok(())
}

fn cut_at_hash(text: &str) -> Option<(&str, &str)>
    ensures { option_map (λ p. (p.0.now, p.1.now)) result ≡ cut_at_first hash text.now }
{
    text.split_once('#')
}

fn add_content(alloc: Global, found: &mut KeySet, text: &str) -> Result<(), NoMemory>
    ensures { OnOk result (found.new ≡ with_keys found.old (content_keys text.now)) }
{
    match cut_at_hash(text) {
        Some((front, _)) => add_canonical(alloc, found, front),
        None => Ok(()),
    }
}

fn add_binding(
    alloc: Global,
    found: &mut KeySet,
    binding: Option<&Json<'_>>,
) -> Result<(), NoMemory>
    ensures { OnOk result (found.new ≡ with_keys found.old (option_map_or binding_keys (tree_seen binding.entry) [])) }
{
    match binding {
        Some(binding) => add_canonical(alloc, found, binding.text_at("valueSet")),
        None => Ok(()),
    }
}

fn add_element(alloc: Global, found: &mut KeySet, element: &Json<'_>) -> Result<(), NoMemory>
    ensures { OnOk result (found.new ≡ with_keys found.old (element_keys (tree_of element.now))) }
{
    add_types(alloc, found, element.items_in("type"))?;
    add_content(alloc, found, element.text_at("contentReference"))?;
    add_binding(alloc, found, element.field("binding"))
}

fn add_elements(alloc: Global, found: &mut KeySet, elements: &[Json<'_>]) -> Result<(), NoMemory>
    ensures { OnOk result (found.new ≡ with_keys found.old (flat_map element_keys (trees_of elements.now))) }
{
    for element in elements {
        add_element(alloc, found, element)?;
    }
    Ok(())
}

fn add_part(
    alloc: Global,
    found: &mut KeySet,
    part: &str,
    definition: &Json<'_>,
) -> Result<(), NoMemory>
    ensures { OnOk result (found.new ≡ with_keys found.old (part_keys part.now (tree_of definition.now))) }
{
    match definition.field(part) {
        Some(part) => add_elements(alloc, found, part.items_in("element")),
        None => Ok(()),
    }
}

fn add_parts(alloc: Global, found: &mut KeySet, definition: &Json<'_>) -> Result<(), NoMemory>
    ensures { OnOk result (found.new ≡ with_keys found.old (part_keys (codes "snapshot") (tree_of definition.now) ++ part_keys (codes "differential") (tree_of definition.now))) }
{
    add_part(alloc, found, "snapshot", definition)?;
    add_part(alloc, found, "differential", definition)
}

/// Adds the keys that a StructureDefinition names.
pub(crate) fn add_structure(
    alloc: Global,
    found: &mut KeySet,
    definition: &Json<'_>,
) -> Result<(), NoMemory>
    ensures { OnOk result (found.new ≡ with_keys found.old (structure_keys (tree_of definition.now))) }
{
    add_canonical(alloc, found, definition.text_at("baseDefinition"))?;
    found.add_code(alloc, definition.text_at("type"))?;
    add_parts(alloc, found, definition)
}

fn add_system(alloc: Global, found: &mut KeySet, include: &Json<'_>) -> Result<(), NoMemory>
    ensures { OnOk result (found.new ≡ with_keys found.old (option_map_or (λ system. of_url system ∷ []) (text_in (codes "system") (tree_of include.now)) [])) }
{
    match include.text_in("system") {
        Some(system) => found.add_url(alloc, system),
        None => Ok(()),
    }
}

fn add_include(alloc: Global, found: &mut KeySet, include: &Json<'_>) -> Result<(), NoMemory>
    ensures { OnOk result (found.new ≡ with_keys found.old (include_keys (tree_of include.now))) }
{
    add_system(alloc, found, include)?;
    add_canonicals(alloc, found, include.items_in("valueSet"))
}

fn add_includes(alloc: Global, found: &mut KeySet, includes: &[Json<'_>]) -> Result<(), NoMemory>
    ensures { OnOk result (found.new ≡ with_keys found.old (flat_map include_keys (trees_of includes.now))) }
{
    for include in includes {
        add_include(alloc, found, include)?;
    }
    Ok(())
}

fn add_compose(alloc: Global, found: &mut KeySet, compose: &Json<'_>) -> Result<(), NoMemory>
    ensures { OnOk result (found.new ≡ with_keys found.old (compose_keys (tree_of compose.now))) }
{
    add_includes(alloc, found, compose.items_in("include"))?;
    add_includes(alloc, found, compose.items_in("exclude"))
}

/// Adds the keys that a value set names.
pub(crate) fn add_value_set(
    alloc: Global,
    found: &mut KeySet,
    definition: &Json<'_>,
) -> Result<(), NoMemory>
    ensures { OnOk result (found.new ≡ with_keys found.old (value_set_keys (tree_of definition.now))) }
{
    match definition.field("compose") {
        Some(compose) => add_compose(alloc, found, compose),
        None => Ok(()),
    }
}
