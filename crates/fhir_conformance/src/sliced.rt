//! What an element asks of the children of a name, by their number and by its slices.

ghost use Rattle.std.specs.Prelude.{◌≡◌, ◌++◌, ◌∷◌, [], map, false, if◌then◌else◌, OnOk};
ghost use Rattle.std.specs.List.{flat_map};
ghost use Rattle.fhir_schema.specs.Schemas.{is_closed, criteria};
ghost use Rattle.fhir_instance.specs.View.{item_of};
ghost use Rattle.fhir_slicing.specs.Belonging.{belongs};
ghost use Rattle.fhir_conformance.specs.Positions.{at_kid, members};
ghost use Rattle.fhir_conformance.specs.Asks.{child_ask, apart_ask, in_slice_ask, slice_asks, sliced_asks, named_asks};
ghost use Rattle.fhir_conformance.specs.Views.{asks_seen};

use crate::ask::{Ask, ElementRule};
use crate::members::is_member;
use crate::sequence::put_sequence;
use fhir_instance::Typed;
use fhir_json::NoMemory;
use fhir_schema::{NodeRef, Schema, Slot};
use std::alloc::Global;

fn put_places(asked: &mut Vec<Ask<'_>>, entry: NodeRef, places: &[usize]) -> Result<(), NoMemory>
    ensures { OnOk result (asks_seen asked.new.items ≡ asks_seen asked.old.items ++ map (child_ask entry) places.now) }
{
    for place in places {
        asked.push(Ask::Child(*place, entry))?;
    }
    Ok(())
}

fn put_member(
    asked: &mut Vec<Ask<'_>>,
    schema: &Schema,
    item: &Typed<'_, '_>,
    slice: NodeRef,
    place: usize,
) -> Result<(), NoMemory>
    ensures { OnOk result (asks_seen asked.new.items ≡ asks_seen asked.old.items
        ++ (if at_kid false (belongs schema.now (criteria schema.now slice)) (item_of item.now) place then child_ask slice place ∷ [] else [])) }
{
    if is_member(schema, item, slice, place) {
        asked.push(Ask::Child(place, slice))?;
    }
    Ok(())
}

fn put_members(
    asked: &mut Vec<Ask<'_>>,
    schema: &Schema,
    item: &Typed<'_, '_>,
    places: &[usize],
    slice: NodeRef,
) -> Result<(), NoMemory>
    ensures { OnOk result (asks_seen asked.new.items ≡ asks_seen asked.old.items
        ++ map (child_ask slice) (members schema.now (item_of item.now) slice places.now)) }
{
    for place in places {
        put_member(asked, schema, item, slice, *place)?;
    }
    Ok(())
}

fn put_slice<'s>(
    asked: &mut Vec<Ask<'s>>,
    schema: &Schema,
    item: &Typed<'_, '_>,
    name: &'s str,
    places: &[usize],
    node: NodeRef,
    slice: &Slot,
) -> Result<(), NoMemory>
    ensures { OnOk result (asks_seen asked.new.items ≡ asks_seen asked.old.items
        ++ slice_asks schema.now (item_of item.now) name.now places.now node slice.now) }
{
    let entry = NodeRef {
        definition: node.definition,
        element: slice.entry(),
    };
    put_members(asked, schema, item, places, entry)?;
    asked.push(Ask::Own(ElementRule::TooFewIn(name), entry))?;
    asked.push(Ask::Own(ElementRule::TooManyIn(name), entry))?;
    Ok(())
}

fn put_slices<'s>(
    asked: &mut Vec<Ask<'s>>,
    schema: &Schema,
    item: &Typed<'_, '_>,
    name: &'s str,
    places: &[usize],
    node: NodeRef,
    slices: &[Slot],
) -> Result<(), NoMemory>
    ensures { OnOk result (asks_seen asked.new.items ≡ asks_seen asked.old.items
        ++ flat_map (slice_asks schema.now (item_of item.now) name.now places.now node) slices.now) }
{
    for slice in slices {
        put_slice(asked, schema, item, name, places, node, slice)?;
    }
    Ok(())
}

fn put_apart(asked: &mut Vec<Ask<'_>>, node: NodeRef, places: &[usize]) -> Result<(), NoMemory>
    ensures { OnOk result (asks_seen asked.new.items ≡ asks_seen asked.old.items ++ map (apart_ask node) places.now) }
{
    for place in places {
        asked.push(Ask::Own(ElementRule::Apart(*place), node))?;
    }
    Ok(())
}

fn put_in_slices(asked: &mut Vec<Ask<'_>>, node: NodeRef, places: &[usize]) -> Result<(), NoMemory>
    ensures { OnOk result (asks_seen asked.new.items ≡ asks_seen asked.old.items ++ map (in_slice_ask node) places.now) }
{
    for place in places {
        asked.push(Ask::Own(ElementRule::InASlice(*place), node))?;
    }
    Ok(())
}

fn put_closed(
    asked: &mut Vec<Ask<'_>>,
    schema: &Schema,
    node: NodeRef,
    places: &[usize],
) -> Result<(), NoMemory>
    ensures { OnOk result (asks_seen asked.new.items ≡ asks_seen asked.old.items
        ++ (if is_closed schema.now node then map (in_slice_ask node) places.now else [])) }
{
    if schema.is_closed(node) {
        put_in_slices(asked, node, places)
    } else {
        Ok(())
    }
}

fn put_sliced<'s>(
    alloc: Global,
    asked: &mut Vec<Ask<'s>>,
    schema: &Schema,
    item: &Typed<'_, '_>,
    name: &'s str,
    places: &[usize],
    node: NodeRef,
) -> Result<(), NoMemory>
    ensures { OnOk result (asks_seen asked.new.items ≡ asks_seen asked.old.items
        ++ sliced_asks schema.now (item_of item.now) name.now places.now node) }
{
    let slices = schema.slices(node);
    if slices.is_empty() {
        return Ok(());
    }
    put_apart(asked, node, places)?;
    put_slices(asked, schema, item, name, places, node, slices)?;
    put_closed(asked, schema, node, places)?;
    put_sequence(alloc, asked, schema, item, node, places)
}

/// What an element asks of the children of a name, which stand at these places.
pub(crate) fn put_named<'s>(
    alloc: Global,
    asked: &mut Vec<Ask<'s>>,
    schema: &Schema,
    item: &Typed<'_, '_>,
    name: &'s str,
    places: &[usize],
    node: NodeRef,
) -> Result<(), NoMemory>
    ensures { OnOk result (asks_seen asked.new.items ≡ asks_seen asked.old.items
        ++ named_asks schema.now (item_of item.now) name.now places.now node) }
{
    asked.push(Ask::Own(ElementRule::TooFew(name), node))?;
    asked.push(Ask::Own(ElementRule::TooMany(name), node))?;
    put_places(asked, node, places)?;
    put_sliced(alloc, asked, schema, item, name, places, node)
}
