//! Positions of places.

ghost use Rattle.std.specs.Prelude.{◌≡◌, length, IfOk, All};
ghost use Rattle.fhir_json.specs.Tree.{Tree};
ghost use Rattle.fhir_json.specs.Grammar.{Reads};
ghost use Rattle.fhir_positions.specs.Positions.{StandsIn, IsOfValue};

use crate::nearest::{outermost_of, positions_of_some, positions_of_stops};
use crate::values::values_of;
use crate::walk::Walk;
use crate::wanted::Wanted;
use fhir_json::{JsonFault, NoMemory, Position, read};
use fhir_schema::Schema;
use std::alloc::Global;

// The walk over the resource that the bytes are; one that found nothing where they can't be read.
fn walk_over(
    alloc: Global,
    schema: &Schema,
    bytes: &[u8],
    wanted: Wanted,
) -> Result<Walk, NoMemory> {
    let mut walk = Walk::new(wanted);
    match read(alloc, bytes) {
        Ok(json) => {
            walk.resource(schema, &json)?;
            Ok(walk)
        }
        Err(JsonFault::NoMemory) => Err(NoMemory),
        Err(_) => Ok(walk),
    }
}

/// Where places of a resource stand in its text, by its bytes: for each place the position at which the JSON value of its
/// item begins. A place is written as verdicts and misfits have it: the type of the resource and the names of the elements
/// down to the item, as `Patient.name[0].given[1]`, without the `[x]` of a choice, or with the name of a property as the
/// last one, as `Patient._birthDate`.
///
/// A property that the type doesn't have comes before all else that its place may mean, as the item of a choice of that name. Its
/// name may have dots and brackets: a place isn't read by them where it ends with such a name.
///
/// Where the place of an array has no index, it is the array that is meant. An item that has no value of its own, or null, has
/// that of its companion. Of an item that isn't there, it is the position of the nearest one above it which is; and where
/// `read` refuses the bytes, that of the first value, or of the first byte where there is none. What stands in front of the
/// first dot, the resource's type, isn't looked at.
///
/// It takes time near linear in the bytes and the places together, and the one refusal is want of memory.
pub fn positions_of(
    alloc: Global,
    schema: &Schema,
    bytes: &[u8],
    places: &[&str],
) -> Result<Vec<Position>, NoMemory>
    ensures count { IfOk result (λ all. length all.items ≡ length places.now) }
    ensures within { IfOk result (λ all. All (StandsIn bytes.now) all.items) }
    ensures values { IfOk result (λ all. (t : Tree) → Reads bytes.now t → All (IsOfValue bytes.now t) all.items) }
{
    let mut wanted = Wanted::new(alloc)?;
    let some = wanted.add_all(alloc, places)?;
    let walk = walk_over(alloc, schema, bytes, wanted)?;
    let values = values_of(alloc, bytes)?;
    let outermost = outermost_of(bytes, &values);
    let all = positions_of_stops(alloc, walk.stops(), &values, outermost)?;
    positions_of_some(alloc, &some, &all, outermost)
}
