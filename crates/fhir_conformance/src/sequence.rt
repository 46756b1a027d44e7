//! What an element asks of the children of a name, by how they stand to one another (FHIR R4, ElementDefinition, slicing.ordered and
//! slicing.rules).

ghost use Rattle.std.specs.Prelude.{◌≡◌, ◌++◌, ◌∷◌, [], map, None, if◌then◌else◌, OnOk};
ghost use Rattle.std.specs.List.{last_or};
ghost use Rattle.std.specs.Option.{option_map, option_map_or};
ghost use Rattle.fhir_facets.specs.Order.{is_ordered, is_open_at_end};
ghost use Rattle.fhir_instance.specs.View.{item_of};
ghost use Rattle.fhir_conformance.specs.Asks.{own, in_order, order_asks, behind_rest, rest_ask, sequence_asks};
ghost use Rattle.fhir_conformance.specs.Positions.{slice_place};
ghost use Rattle.fhir_conformance.specs.Standing.{behind, placed_ask, nearest_ask, put_behind, remembered};
ghost use Rattle.fhir_conformance.specs.Views.{asks_seen};

use crate::ask::{Ask, ElementRule};
use crate::members::slice_place;
use fhir_facets::{is_open_at_end, is_ordered};
use fhir_instance::Typed;
use fhir_json::NoMemory;
use fhir_schema::{NodeRef, Schema};
use std::alloc::Global;

// A child that is in a slice, by its position, and the place of the slice in the definition.
#[derive(Clone, Copy)]
struct Standing {
    position: usize,
    place: usize,
}

// ---- the order of the slices

// Keeps those whose slices stand after a place. The others are no nearer to any child behind them than the next one, which it
// may follow no more than these. So as many are kept at most as there are slices.
fn keep_behind(standing: &mut Vec<Standing>, place: usize)
    ensures { standing.new.items ≡ behind place standing.old.items }
{
    standing.retain(|one| one.place > place);
}

fn last_position(standing: &[Standing]) -> Option<usize>
    ensures { result ≡ option_map (λ one. one.position) (last_or None standing.now) }
{
    match standing.last() {
        Some(one) => Some(one.position),
        None => None,
    }
}

fn put_order_ask(
    asked: &mut Vec<Ask<'_>>,
    node: NodeRef,
    earlier: Option<usize>,
    position: usize,
) -> Result<(), NoMemory>
    ensures { OnOk result (asks_seen asked.new.items
        ≡ asks_seen asked.old.items ++ option_map_or (λ j. own (in_order j position) node ∷ []) earlier []) }
{
    if let Some(earlier) = earlier {
        asked.push(Ask::Own(ElementRule::InOrder(earlier, position), node))?;
    }
    Ok(())
}

// Asks that a child in the slice at a place comes behind none of a later slice, by the children that stand before it.
fn put_placed(
    asked: &mut Vec<Ask<'_>>,
    standing: &mut Vec<Standing>,
    node: NodeRef,
    position: usize,
    place: usize,
) -> Result<(), NoMemory>
    ensures asked { OnOk result (asks_seen asked.new.items ≡ asks_seen asked.old.items ++ placed_ask node position place standing.old.items) }
    ensures standing { OnOk result (standing.new.items ≡ put_behind position place standing.old.items) }
{
    keep_behind(standing, place);
    put_order_ask(asked, node, last_position(standing), position)?;
    standing.push(Standing { position, place })?;
    Ok(())
}

fn put_child(
    asked: &mut Vec<Ask<'_>>,
    standing: &mut Vec<Standing>,
    schema: &Schema,
    item: &Typed<'_, '_>,
    node: NodeRef,
    position: usize,
) -> Result<(), NoMemory>
    ensures asked { OnOk result (asks_seen asked.new.items ≡ asks_seen asked.old.items
        ++ nearest_ask node position (slice_place schema.now (item_of item.now) node position) standing.old.items) }
    ensures standing { OnOk result (standing.new.items
        ≡ remembered position (slice_place schema.now (item_of item.now) node position) standing.old.items) }
{
    match slice_place(schema, item, node, position) {
        Some(place) => put_placed(asked, standing, node, position, place),
        None => Ok(()),
    }
}

fn put_children(
    alloc: Global,
    asked: &mut Vec<Ask<'_>>,
    schema: &Schema,
    item: &Typed<'_, '_>,
    node: NodeRef,
    places: &[usize],
) -> Result<(), NoMemory>
    ensures { OnOk result (asks_seen asked.new.items
        ≡ asks_seen asked.old.items ++ order_asks schema.now (item_of item.now) node [] places.now) }
{
    let mut standing = Vec::new(alloc);
    for place in places {
        put_child(asked, &mut standing, schema, item, node, *place)?;
    }
    Ok(())
}

fn put_order(
    alloc: Global,
    asked: &mut Vec<Ask<'_>>,
    schema: &Schema,
    item: &Typed<'_, '_>,
    node: NodeRef,
    places: &[usize],
) -> Result<(), NoMemory>
    ensures { OnOk result (asks_seen asked.new.items ≡ asks_seen asked.old.items
        ++ (if is_ordered schema.now node then order_asks schema.now (item_of item.now) node [] places.now else [])) }
{
    if is_ordered(schema, node) {
        put_children(alloc, asked, schema, item, node, places)
    } else {
        Ok(())
    }
}

// ---- what is in no slice

fn put_rest_ask(
    asked: &mut Vec<Ask<'_>>,
    node: NodeRef,
    position: usize,
    is_rest: bool,
) -> Result<(), NoMemory>
    ensures { OnOk result (asks_seen asked.new.items ≡ asks_seen asked.old.items ++ (if is_rest then rest_ask node position ∷ [] else [])) }
{
    if is_rest {
        asked.push(Ask::Own(ElementRule::InTheRest(position), node))?;
    }
    Ok(())
}

fn put_rest(
    asked: &mut Vec<Ask<'_>>,
    schema: &Schema,
    item: &Typed<'_, '_>,
    node: NodeRef,
    places: &[usize],
) -> Result<(), NoMemory>
    ensures { OnOk result (asks_seen asked.new.items ≡ asks_seen asked.old.items
        ++ map (rest_ask node) (behind_rest schema.now (item_of item.now) node places.now)) }
{
    let mut is_rest = false;
    for place in places {
        put_rest_ask(asked, node, *place, is_rest)?;
        is_rest = is_rest || slice_place(schema, item, node, *place).is_none();
    }
    Ok(())
}

fn put_end(
    asked: &mut Vec<Ask<'_>>,
    schema: &Schema,
    item: &Typed<'_, '_>,
    node: NodeRef,
    places: &[usize],
) -> Result<(), NoMemory>
    ensures { OnOk result (asks_seen asked.new.items ≡ asks_seen asked.old.items
        ++ (if is_open_at_end schema.now node then map (rest_ask node) (behind_rest schema.now (item_of item.now) node places.now) else [])) }
{
    if is_open_at_end(schema, node) {
        put_rest(asked, schema, item, node, places)
    } else {
        Ok(())
    }
}

/// What an element asks of the children of a name, which stand at these places, by how they stand to one another.
pub(crate) fn put_sequence(
    alloc: Global,
    asked: &mut Vec<Ask<'_>>,
    schema: &Schema,
    item: &Typed<'_, '_>,
    node: NodeRef,
    places: &[usize],
) -> Result<(), NoMemory>
    ensures { OnOk result (asks_seen asked.new.items
        ≡ asks_seen asked.old.items ++ sequence_asks schema.now (item_of item.now) node places.now) }
{
    put_order(alloc, asked, schema, item, node, places)?;
    put_end(asked, schema, item, node, places)
}
