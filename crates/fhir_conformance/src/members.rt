//! Children by their positions, and the slices to which they belong.

ghost use Rattle.std.specs.Prelude.{◌≡◌, length, true, false};
ghost use Rattle.std.specs.Option.{option_copied, option_map};
ghost use Rattle.fhir_schema.specs.Schemas.{criteria};
ghost use Rattle.fhir_instance.specs.Items.{kids_of};
ghost use Rattle.fhir_instance.specs.View.{item_of};
ghost use Rattle.fhir_slicing.specs.Belonging.{belongs, is_apart, is_sliced};
ghost use Rattle.fhir_conformance.specs.Positions.{kid_at, at_kid, members, slice_at, slice_place};
ghost use Rattle.fhir_conformance.specs.Conformance.{count_in, nearest_to};
ghost use Rattle.fhir_conformance.specs.Views.{IsIndexOf};

use crate::kids_by_name::KidsByName;
use fhir_instance::Typed;
use fhir_schema::{NodeRef, Schema, Slot};
use fhir_slicing::{belongs, is_apart, is_sliced, slice_of};

/// The child of an item at a position among all its children, if it has one.
pub fn kid_at<'t, 'a, 'j>(item: &'t Typed<'a, 'j>, position: usize) -> Option<&'t Typed<'a, 'j>>
    ensures { option_map (λ kid. item_of kid.now) result ≡ kid_at (kids_of (item_of item.now)) position }
{
    let kids = item.kids();
    if position < kids.len() {
        Some(kids[position].item())
    } else {
        None
    }
}

/// The nearest resource at or around an item, where that is the nearest around it (FHIR R4, FHIRPath, variables).
pub fn nearest_to<'t, 'a, 'j>(
    schema: &Schema,
    around: &'t Typed<'a, 'j>,
    item: &'t Typed<'a, 'j>,
) -> &'t Typed<'a, 'j>
    ensures { item_of result.now ≡ nearest_to schema.now (item_of around.now) (item_of item.now) }
{
    if schema.is_resource(item.code()) {
        item
    } else {
        around
    }
}

/// Whether the child at a position belongs to the slice that a node is.
pub(crate) fn is_member(
    schema: &Schema,
    item: &Typed<'_, '_>,
    slice: NodeRef,
    position: usize,
) -> bool
    ensures { result ≡ at_kid false (belongs schema.now (criteria schema.now slice)) (item_of item.now) position }
{
    match kid_at(item, position) {
        Some(kid) => belongs(schema, schema.criteria(slice), kid),
        None => false,
    }
}

/// Whether the child at a position is in no two slices of a node's element.
pub(crate) fn is_apart_at(
    schema: &Schema,
    item: &Typed<'_, '_>,
    node: NodeRef,
    position: usize,
) -> bool
    ensures { result ≡ at_kid true (is_apart schema.now node) (item_of item.now) position }
{
    match kid_at(item, position) {
        Some(kid) => is_apart(schema, node, kid),
        None => true,
    }
}

/// Whether the child at a position is in a slice of a node's element.
pub(crate) fn is_sliced_at(
    schema: &Schema,
    item: &Typed<'_, '_>,
    node: NodeRef,
    position: usize,
) -> bool
    ensures { result ≡ at_kid true (is_sliced schema.now node) (item_of item.now) position }
{
    match kid_at(item, position) {
        Some(kid) => is_sliced(schema, node, kid),
        None => true,
    }
}

/// The first slice of a node's element that the child at a position is in, if it is in one. It takes no memory.
pub fn slice_at<'s>(
    schema: &'s Schema,
    item: &Typed<'_, '_>,
    node: NodeRef,
    position: usize,
) -> Option<&'s Slot>
    ensures { option_copied result ≡ slice_at schema.now (item_of item.now) node position }
{
    match kid_at(item, position) {
        Some(kid) => slice_of(schema, node, kid),
        None => None,
    }
}

/// The place of that slice in the definition.
pub(crate) fn slice_place(
    schema: &Schema,
    item: &Typed<'_, '_>,
    node: NodeRef,
    position: usize,
) -> Option<usize>
    ensures { result ≡ slice_place schema.now (item_of item.now) node position }
{
    match slice_at(schema, item, node, position) {
        Some(slice) => Some(slice.entry()),
        None => None,
    }
}

fn count_members(schema: &Schema, item: &Typed<'_, '_>, slice: NodeRef, places: &[usize]) -> usize
    ensures { result ≡ length (members schema.now (item_of item.now) slice places.now) }
{
    let mut count = 0;
    for place in places {
        if is_member(schema, item, slice, *place) {
            count += 1;
        }
    }
    count
}

/// How many of the children of a name belong to the slice that a node is (FHIR R4, Profiling, slicing), where these are the
/// item's children. It takes no memory.
pub fn count_in(
    schema: &Schema,
    item: &Typed<'_, '_>,
    kids_by_name: &KidsByName<'_>,
    slice: NodeRef,
    name: &str,
) -> usize
    requires { IsIndexOf (item_of item.now) kids_by_name.now }
    ensures { result ≡ count_in schema.now slice name.now (item_of item.now) }
{
    count_members(schema, item, slice, kids_by_name.places(name))
}
