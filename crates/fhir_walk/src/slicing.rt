//! The slices of an element at the children of a name (FHIR R4, Profiling, slicing).

ghost use Rattle.std.specs.Prelude.{◌≡◌, length, true, ◌&&◌, ◌||◌, if◌then◌else◌};
ghost use Rattle.std.specs.Str.{bytes_eq};
ghost use Rattle.fhir_schema.specs.Schemas.{criteria, entry_of, is_closed};
ghost use Rattle.fhir_facets.specs.Order.{is_ordered, is_open_at_end};
ghost use Rattle.fhir_instance.specs.View.{item_of, named_of};
ghost use Rattle.fhir_slicing.specs.Belonging.{belongs, is_apart, is_sliced};
ghost use Rattle.fhir_conformance.specs.Conformance.{count_in};
ghost use Rattle.fhir_walk.specs.Walks.{named_pass, is_rightly_sliced};

use fhir_facets::{is_open_at_end, is_ordered};
use fhir_instance::{Kid, Typed};
use fhir_names::Name;
use fhir_schema::{NodeRef, Schema, Slot};
use fhir_slicing::{belongs, is_apart, is_sliced};

/// The node that a slot or a slice of a node is.
pub(crate) fn entry_of(node: NodeRef, slot: &Slot) -> NodeRef
    ensures { result ≡ entry_of node slot.now }
{
    NodeRef {
        definition: node.definition,
        element: slot.entry(),
    }
}

fn is_apart_if_named(schema: &Schema, kid: &Kid<'_, '_>, name: &Name, node: NodeRef) -> bool
    ensures { result ≡ (if bytes_eq name.now (named_of kid.now).0 then is_apart schema.now node (named_of kid.now).1 else true) }
{
    if !name.is(kid.tagged_name()) {
        return true;
    }
    is_apart(schema, node, kid.item())
}

// Whether no child of a name is in two slices of a node's element.
fn are_apart(schema: &Schema, item: &Typed<'_, '_>, name: &Name, node: NodeRef) -> bool
    ensures { result ≡ named_pass (is_apart schema.now node) name.now (item_of item.now) }
{
    for kid in item.kids() {
        if !is_apart_if_named(schema, kid, name, node) {
            return false;
        }
    }
    true
}

fn is_sliced_if_named(schema: &Schema, kid: &Kid<'_, '_>, name: &Name, node: NodeRef) -> bool
    ensures { result ≡ (if bytes_eq name.now (named_of kid.now).0 then is_sliced schema.now node (named_of kid.now).1 else true) }
{
    if !name.is(kid.tagged_name()) {
        return true;
    }
    is_sliced(schema, node, kid.item())
}

// Whether each child of a name is in a slice of a node's element.
fn are_sliced(schema: &Schema, item: &Typed<'_, '_>, name: &Name, node: NodeRef) -> bool
    ensures { result ≡ named_pass (is_sliced schema.now node) name.now (item_of item.now) }
{
    for kid in item.kids() {
        if !is_sliced_if_named(schema, kid, name, node) {
            return false;
        }
    }
    true
}

fn are_sliced_if_closed(schema: &Schema, item: &Typed<'_, '_>, name: &Name, node: NodeRef) -> bool
    ensures { result ≡ (if is_closed schema.now node then named_pass (is_sliced schema.now node) name.now (item_of item.now) else true) }
{
    if !schema.is_closed(node) {
        return true;
    }
    are_sliced(schema, item, name, node)
}

/// Whether a node's slicing asks how the children stand to one another, which a walk doesn't tell.
pub(crate) fn asks_sequence(schema: &Schema, node: NodeRef) -> bool
    ensures { result ≡ (is_ordered schema.now node || is_open_at_end schema.now node) }
{
    is_ordered(schema, node) || is_open_at_end(schema, node)
}

/// Whether no child of a name is in two slices of a node's element, and each is in one, if the slicing is closed.
pub(crate) fn is_rightly_sliced(
    schema: &Schema,
    item: &Typed<'_, '_>,
    name: &Name,
    node: NodeRef,
) -> bool
    ensures { result ≡ is_rightly_sliced schema.now node name.now (item_of item.now) }
{
    are_apart(schema, item, name, node) && are_sliced_if_closed(schema, item, name, node)
}

/// Whether a child has a name and belongs to the slice that a node is.
pub(crate) fn is_member(schema: &Schema, kid: &Kid<'_, '_>, name: &Name, slice: NodeRef) -> bool
    ensures { result ≡ (bytes_eq name.now (named_of kid.now).0 && belongs schema.now (criteria schema.now slice) (named_of kid.now).1) }
{
    name.is(kid.tagged_name()) && belongs(schema, schema.criteria(slice), kid.item())
}

/// How many children of a name belong to the slice that a node is.
pub(crate) fn count_members(
    schema: &Schema,
    item: &Typed<'_, '_>,
    name: &Name,
    slice: NodeRef,
) -> usize
    ensures { result ≡ count_in schema.now slice name.now (item_of item.now) }
{
    let mut count = 0;
    for kid in item.kids() {
        if is_member(schema, kid, name, slice) {
            count += 1;
        }
    }
    count
}
