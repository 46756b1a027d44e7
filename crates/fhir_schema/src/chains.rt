//! The chains of bases: which of them end.

ghost use Rattle.std.specs.Prelude.{◌≡◌, map, length, get_or, None, IfOk, if◌then◌else◌};
ghost use Rattle.std.specs.Option.{option_and_then};
ghost use Rattle.fhir_schema.specs.Settling.{base_place, chain_ends};
ghost use Rattle.fhir_schema.specs.Chains.{bases_after};

use crate::types::base_place;
use fhir_nodes::Table;
use std::alloc::{AllocError, Global};

/// The place of each definition's base.
pub(crate) fn bases_of(alloc: Global, table: &Table) -> Result<Vec<Option<usize>>, AllocError>
    ensures { IfOk result (λ v. v.items ≡ bases_after table.now 0) }
{
    let mut places = Vec::new(alloc);
    for definition in table.definitions() {
        places.push(base_place(table, definition))?;
    }
    Ok(places)
}

/// Where the steps of a list lead from a place.
pub(crate) fn place_at(places: &[Option<usize>], at: Option<usize>) -> Option<usize>
    ensures { result ≡ option_and_then (λ p. get_or places.now p None) at }
{
    match at {
        Some(place) => places.get(place).copied().unwrap_or(None),
        None => None,
    }
}

/// For each place the one to which further steps lead from it.
pub(crate) fn steps_after(
    alloc: Global,
    places: &[Option<usize>],
    further: &[Option<usize>],
) -> Result<Vec<Option<usize>>, AllocError>
    ensures { IfOk result (λ v. v.items ≡ map (option_and_then (λ p. get_or further.now p None)) places.now) }
{
    let mut ends = Vec::new(alloc);
    for place in places {
        ends.push(place_at(further, *place))?;
    }
    Ok(ends)
}

// The places, or those to which further steps lead from them.
fn steps_after_if(
    alloc: Global,
    is_further: bool,
    places: Vec<Option<usize>>,
    further: &[Option<usize>],
) -> Result<Vec<Option<usize>>, AllocError>
    ensures { IfOk result (λ v. v.items ≡ (if is_further
        then map (option_and_then (λ p. get_or further.now p None)) places.items else places.items)) }
{
    if is_further {
        steps_after(alloc, &places, further)
    } else {
        Ok(places)
    }
}

// Where each definition's chain of bases is after as many steps as there are definitions. Powers of a step are doubled, so
// that n definitions cost n log n look-ups, whatever their chains are.
fn places_at_end(alloc: Global, table: &Table) -> Result<Vec<Option<usize>>, AllocError>
    ensures { IfOk result (λ v. v.items ≡ bases_after table.now (length table.now)) }
{
    let mut places = bases_of(alloc, table)?;
    let mut power = bases_of(alloc, table)?;
    let mut steps = table.definitions().len();
    while steps > 0 {
        let is_odd = steps % 2 == 1;
        places = steps_after_if(alloc, is_odd, places, &power)?;
        power = steps_after(alloc, &power, &power)?;
        steps /= 2;
    }
    Ok(places)
}

/// Of each definition, whether its chain of bases ends.
pub(crate) fn chains_end(alloc: Global, table: &Table) -> Result<Vec<bool>, AllocError>
    ensures { IfOk result (λ v. v.items ≡ map (chain_ends table.now) table.now) }
{
    let places = places_at_end(alloc, table)?;
    let mut ends = Vec::with_capacity(alloc, places.len())?;
    for place in &places {
        ends.push(place.is_none())?;
    }
    Ok(ends)
}
