//! How many types OLD and NEW don't have alike.

ghost use Rattle.std.specs.Prelude.{◌≡◌, ◌+◌, ◌-◌, ◌^◌, ◌<◌, min, false, IfOk, if◌then◌else◌};
ghost use Rattle.std.specs.Option.{option_map_or};
ghost use Rattle.std.specs.List.{slice_get, count_by};
ghost use Rattle.fhir_json.specs.Views.{tree_of};
ghost use Rattle.fhir_json.specs.Memory.{Gives};
ghost use Rattle.fhir_schema.specs.Schemas.{schema_of};
ghost use Rattle.fhir_alike.specs.ValueSets.{kept_by};
ghost use Rattle.fhir_beside.specs.Made.{elements_of};
ghost use Rattle.fhir_beside.specs.Types.{binds_another, is_other_tree, is_other_type, count_other, is_new_type, types_differing};

use crate::bindings::{Sides, moved_set};
use crate::profile::definition_at;
use fhir_alike::{is_profile, same_tree};
use fhir_definition::Definition;
use fhir_json::{Json, NoMemory};
use fhir_package::{Kind, Package};
use fhir_schema::Schema;
use std::alloc::Global;

// Whether an element of a definition is bound to a value set that isn't kept.
fn binds_another(sides: Sides<'_, '_, '_>, definition: &Definition) -> bool
    ensures { result ≡ binds_another (kept_by sides.entry.old.now sides.entry.new.now sides.entry.changes.now.changed.items) definition.now.elements }
{
    for element in definition.elements() {
        if moved_set(sides, element).is_some() {
            return true;
        }
    }
    false
}

// Whether NEW has another definition at a url, or none.
fn is_other_tree(
    alloc: Global,
    new: &Package<'_>,
    url: &str,
    tree: &Json<'_>,
) -> Result<bool, NoMemory>
    ensures { Gives (λ b. b) result (is_other_tree new.now (url.now, tree_of tree.now)) }
{
    let there = new.at_url(Kind::StructureDefinition, url);
    let is_same = same_tree(alloc, Some(tree), there)?;
    Ok(!is_same)
}

// Whether a definition of OLD is no profile, and NEW has another one or none, or means other value sets by it.
fn is_other_type(
    alloc: Global,
    sides: Sides<'_, '_, '_>,
    definition: &Definition,
    url: &str,
    tree: &Json<'_>,
) -> Result<bool, NoMemory>
    ensures { Gives (λ b. b) result (is_other_type sides.entry.new.now (kept_by sides.entry.old.now sides.entry.new.now sides.entry.changes.now.changed.items) definition.now.elements (url.now, tree_of tree.now)) }
{
    if is_profile(tree) {
        return Ok(false);
    }
    if is_other_tree(alloc, sides.new, url, tree)? {
        return Ok(true);
    }
    Ok(binds_another(sides, definition))
}

// The same of the definition at a place.
fn is_other_at(
    alloc: Global,
    sides: Sides<'_, '_, '_>,
    schema: &Schema,
    place: usize,
) -> Result<bool, NoMemory>
    requires { schema.now ≡ schema_of sides.old.now }
    ensures { Gives (λ b. b) result (option_map_or (λ e. is_other_type sides.entry.new.now (kept_by sides.entry.old.now sides.entry.new.now sides.entry.changes.now.changed.items) (elements_of place e) e) (slice_get sides.entry.old.now.structure_definitions place) false) }
{
    match (
        definition_at(schema, place),
        sides.old.at(Kind::StructureDefinition, place),
    ) {
        (Some(definition), Some((url, tree))) => {
            is_other_type(alloc, sides, definition, url, tree)
        }
        _ => Ok(false),
    }
}

// A count, and one more where something counts.
fn one_more_if(count: usize, counts: bool) -> usize
    requires { count < usize.MAX }
    ensures { result ≡ count + (if counts then 1 else 0) }
{
    if counts { count + 1 } else { count }
}

fn count_other(alloc: Global, sides: Sides<'_, '_, '_>, schema: &Schema) -> Result<usize, NoMemory>
    requires { schema.now ≡ schema_of sides.old.now }
    ensures { Gives (λ n. n) result (count_other sides.entry.new.now (kept_by sides.entry.old.now sides.entry.new.now sides.entry.changes.now.changed.items) 0 sides.entry.old.now.structure_definitions) }
{
    let mut count: usize = 0;
    for place in 0..sides.old.len(Kind::StructureDefinition) {
        let is_other = is_other_at(alloc, sides, schema, place)?;
        count = one_more_if(count, is_other);
    }
    Ok(count)
}

// Whether the definition at a place of NEW is no profile, and OLD has none.
fn is_new_at(old: &Package<'_>, new: &Package<'_>, place: usize) -> bool
    ensures { result ≡ option_map_or (is_new_type old.now) (slice_get new.now.structure_definitions place) false }
{
    match new.at(Kind::StructureDefinition, place) {
        Some((url, tree)) => {
            !is_profile(tree) & old.at_url(Kind::StructureDefinition, url).is_none()
        }
        None => false,
    }
}

fn count_new(old: &Package<'_>, new: &Package<'_>) -> usize
    ensures { result ≡ count_by (is_new_type old.now) new.now.structure_definitions }
{
    let mut count: usize = 0;
    for place in 0..new.len(Kind::StructureDefinition) {
        count = one_more_if(count, is_new_at(old, new, place));
    }
    count
}

/// How many StructureDefinitions that aren't profiles OLD and NEW don't have alike: those of OLD that NEW has otherwise or hasn't, those that are bound
/// to value sets which aren't equal in both, and those that NEW alone has. `schema` is OLD's.
pub(crate) fn types_differing(
    alloc: Global,
    sides: Sides<'_, '_, '_>,
    schema: &Schema,
) -> Result<usize, NoMemory>
    requires { schema.now ≡ schema_of sides.old.now }
    ensures { IfOk result (λ n. n ≡ min (types_differing sides.entry.old.now sides.entry.new.now (kept_by sides.entry.old.now sides.entry.new.now sides.entry.changes.now.changed.items)) (2 ^ 64 - 1)) }
{
    let other = count_other(alloc, sides, schema)?;
    Ok(other.saturating_add(count_new(sides.old, sides.new)))
}
