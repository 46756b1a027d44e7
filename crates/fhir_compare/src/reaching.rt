//! Which profiles of OLD the profiles of OLD name.

ghost use Rattle.std.specs.Prelude.{◌≡◌, ◌++◌, [], IfOk, OnOk};
ghost use Rattle.std.specs.Option.{option_map_or, option_to_list};
ghost use Rattle.std.specs.List.{slice_get, filter_map};
ghost use Rattle.fhir_package.specs.declared.kind.Kind.TheVariants.{StructureDefinition};
ghost use Rattle.fhir_definition.specs.Views.{lists_in};
ghost use Rattle.fhir_schema.specs.Schemas.{schema_of};
ghost use Rattle.fhir_alike.specs.Naming.{place_named, profiles_named};
ghost use Rattle.fhir_compare.specs.Comparing.{leads_to, edges};

use crate::sides::Comparison;
use fhir_alike::{place_named, profiles_named};
use fhir_beside::{Profile, profile_at};
use fhir_json::NoMemory;
use fhir_package::Kind;
use std::alloc::{AllocError, Global};

fn push_place(
    sides: Comparison<'_, '_, '_>,
    name: &str,
    places: &mut Vec<usize>,
) -> Result<(), AllocError>
    ensures { OnOk result (places.new.items ≡ places.old.items ++ option_to_list (place_named StructureDefinition sides.entry.old.now name.now)) }
{
    match place_named(sides.old, Kind::StructureDefinition, name) {
        Some(place) => Ok(places.push(place)?),
        None => Ok(()),
    }
}

// The places in OLD of the profiles of types that a profile names.
fn places_named(
    alloc: Global,
    sides: Comparison<'_, '_, '_>,
    profile: Profile<'_, '_>,
) -> Result<Vec<usize>, NoMemory>
    ensures { IfOk result (λ v. v.items ≡ filter_map (place_named StructureDefinition sides.entry.old.now) (profiles_named profile.entry.definition.now)) }
{
    let names = profiles_named(alloc, profile.definition)?;
    let mut places = Vec::new(alloc);
    for name in &names {
        push_place(sides, *name, &mut places)?;
    }
    Ok(places)
}

// Only a profile leads on: types are NEW's.
fn leads_at(
    alloc: Global,
    sides: Comparison<'_, '_, '_>,
    place: usize,
) -> Result<Vec<usize>, NoMemory>
    requires { sides.old_schema.now ≡ schema_of sides.old.now }
    ensures { IfOk result (λ v. v.items ≡ option_map_or (leads_to sides.entry.old.now place) (slice_get sides.entry.old.now.structure_definitions place) []) }
{
    match profile_at(sides.old, sides.old_schema, place) {
        Some(profile) => places_named(alloc, sides, profile),
        None => Ok(Vec::new(alloc)),
    }
}

/// For each definition of OLD, if it is a profile, the places of those that its elements name as profiles of types. A target leads nowhere: it is judged
/// by its type alone.
pub(crate) fn edges_of(
    alloc: Global,
    sides: Comparison<'_, '_, '_>,
) -> Result<Vec<Vec<usize>>, NoMemory>
    requires { sides.old_schema.now ≡ schema_of sides.old.now }
    ensures { IfOk result (λ v. lists_in v.items ≡ edges sides.entry.old.now) }
{
    let count = sides.old.len(Kind::StructureDefinition);
    let mut edges = Vec::with_capacity(alloc, count)?;
    for place in 0..count {
        edges.push(leads_at(alloc, sides, place)?)?;
    }
    Ok(edges)
}
