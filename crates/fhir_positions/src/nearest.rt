//! Where stops stand.

ghost use Rattle.std.specs.Prelude.{◌≡◌, ◌∷◌, [], length, IfOk, List};
ghost use Rattle.std.specs.List.{Contains};
ghost use Rattle.fhir_json.specs.declared.position.Position.{Position};
ghost use Rattle.fhir_json.specs.Position.{position_at};
ghost use Rattle.fhir_positions.specs.Among.{AreAmong};

use crate::wanted::Stop;
use fhir_json::{NoMemory, Position, position_of};
use std::alloc::Global;

fn position_or(positions: &[Position], place: usize, other: Position) -> Position
    ensures { Contains (other ∷ positions.now) result }
{
    match positions.get(place) {
        Some(position) => *position,
        None => other,
    }
}

// The position of the value that stands for a stop, if there is one, and else that of the stop above.
fn nearest(stop: &Stop, values: &[Position], above: Position) -> Position
    ensures { Contains (above ∷ values.now) result }
{
    match stop.value() {
        Some(number) => position_or(values, number, above),
        None => above,
    }
}

/// Where each stop stands, by the positions of the values: where the value begins that was found for it, or that of the
/// nearest stop above for which one was found; the outermost one where there is none.
pub(crate) fn positions_of_stops(
    alloc: Global,
    stops: &[Stop],
    values: &[Position],
    outermost: Position,
) -> Result<Vec<Position>, NoMemory>
    ensures { IfOk result (λ all. AreAmong all.items (outermost ∷ values.now)) }
{
    let mut all = Vec::with_capacity(alloc, stops.len())?;
    for stop in stops {
        let above = position_or(&all, stop.above, outermost);
        all.push(nearest(stop, values, above))?;
    }
    Ok(all)
}

/// The positions of some stops, by those of all.
pub(crate) fn positions_of_some(
    alloc: Global,
    some: &[usize],
    all: &[Position],
    outermost: Position,
) -> Result<Vec<Position>, NoMemory>
    ensures count { IfOk result (λ found. length found.items ≡ length some.now) }
    ensures among { IfOk result (λ found. AreAmong found.items (outermost ∷ all.now)) }
{
    let mut found = Vec::with_capacity(alloc, some.len())?;
    for stop in some {
        found.push(position_or(all, *stop, outermost))?;
    }
    Ok(found)
}

/// Where the outermost value begins, by the positions of all values; where there is none, the front of the text.
pub(crate) fn outermost_of(bytes: &[u8], values: &[Position]) -> Position
    ensures first { (first : Position) (others : List Position) → values.now ≡ first ∷ others → result ≡ first }
    ensures none { values.now ≡ [] → result ≡ position_at bytes.now 0 }
{
    match values {
        [first, ..] => *first,
        [] => position_of(bytes, 0),
    }
}
