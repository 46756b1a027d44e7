//! Walking through an item and what is asked of it.

ghost use Rattle.std.specs.Prelude.{◌≡◌, ◌&&◌, map, true, false, string_bytes, IfSome, if◌then◌else◌};
ghost use Rattle.std.specs.List.{flat_map};
ghost use Rattle.std.specs.Str.{bytes_eq};
ghost use Rattle.fhir_schema.specs.Schemas.{slices, criteria};
ghost use Rattle.fhir_instance.specs.View.{item_of, named_of};
ghost use Rattle.fhir_slicing.specs.Belonging.{belongs};
ghost use Rattle.fhir_conformance.specs.Positions.{members};
ghost use Rattle.fhir_conformance.specs.Asks.{child_ask, own_root, places_of, slice_asks, sliced_asks, slot_asks, slots_ask, kids_asks, root_asks, inner_asks};
ghost use Rattle.fhir_conformance.specs.Conformance.{conforms, constant, outermost, count_of, types_hold, entry_holds, profiles_hold, profile_holds};
ghost use Rattle.fhir_walk.specs.Walks.{none, pass_all, rest_holds, Tells, TellsBeside, TellsOfKids};

use crate::children::count_named;
use crate::facets::{facets_hold, is_held};
use crate::known::{is_free, nearest_by, own_root};
use crate::rules::{allows_count, constraints_hold};
use crate::slicing::{asks_sequence, count_members, entry_of, is_member, is_rightly_sliced};
use fhir_conformance::judge_entry;
use fhir_elements::TypeEntry;
use fhir_instance::{Kid, Typed};
use fhir_names::Name;
use fhir_schema::{NodeRef, Schema, Slot, roots_are_roots};
use fhir_vouching::Vouching;
use std::alloc::Global;

// How many nodes may ask of the items from the outermost down to one: a resource has at most 128 levels, at each of which the node of
// a slot asks, and the root of a type or a profile.
const DEPTH: usize = 300;

// Where both a node has more slots and an item more children, these aren't looked through for each slot.
const FEW: usize = 32;

// Takes so many steps, where as many are left.
fn spend(left: &mut usize, steps: usize) -> bool {
    if *left < steps {
        return false;
    }
    *left -= steps;
    true
}

// Whether the children of an item may be looked through for each slot.
fn may_look(slots: &[Slot], kids: &[Kid<'_, '_>], left: &mut usize) -> bool {
    let is_little = slots.len() <= FEW || kids.len() <= FEW;
    is_little && spend(left, slots.len().saturating_add(kids.len()))
}

/// Whether an item that stands in no other conforms to a node, where no unread rule holds (FHIR R4, Profiling and
/// ElementDefinition); none where it isn't told by a walk of so many steps. A step is a node that is asked of an item, a slot or a
/// child that is looked at, or a slice that may have it. Nor is it told where memory is refused.
pub fn conforms(
    alloc: Global,
    schema: &Schema,
    item: &Typed<'_, '_>,
    node: NodeRef,
    steps: usize,
) -> Option<bool>
    ensures { IfSome result (λ told. told ≡ conforms schema.now (constant false) (outermost (item_of item.now)) (item_of item.now) node) }
{
    let mut left = steps;
    item_conforms(alloc, schema, item, item, node, DEPTH, &mut left)
}

// Whether an item conforms to a node, where that is the nearest resource around it.
#[cycle(walking)]
fn item_conforms<'t, 'a, 'j>(
    alloc: Global,
    schema: &'t Schema,
    around: &'t Typed<'a, 'j>,
    item: &'t Typed<'a, 'j>,
    node: NodeRef,
    depth: usize,
    left: &mut usize,
) -> Option<bool>
    ensures { IfSome result (Tells (item_of around.now) (λ here. conforms schema.now (constant false) here (item_of item.now) node)) }
{
    roots_are_roots();
    if depth == 0 || !spend(left, 1) {
        return None;
    }
    if schema.is_root(node) {
        root_conforms(alloc, schema, around, item, node, depth - 1, left)
    } else {
        inner_conforms(alloc, schema, around, item, node, depth - 1, left)
    }
}

// The same, where the node is a root.
#[cycle(walking)]
fn root_conforms<'t, 'a, 'j>(
    alloc: Global,
    schema: &'t Schema,
    around: &'t Typed<'a, 'j>,
    item: &'t Typed<'a, 'j>,
    root: NodeRef,
    depth: usize,
    left: &mut usize,
) -> Option<bool>
    ensures { IfSome result (Tells (item_of around.now) (λ here. pass_all schema.now here (item_of item.now) (root_asks schema.now (item_of item.now) root))) }
{
    if !schema.covers(schema.type_code(root), item.code()) {
        return Some(false);
    }
    rest_conforms(alloc, schema, around, item, root, None, depth, left)
}

// The same, where it is none.
#[cycle(walking)]
fn inner_conforms<'t, 'a, 'j>(
    alloc: Global,
    schema: &'t Schema,
    around: &'t Typed<'a, 'j>,
    item: &'t Typed<'a, 'j>,
    node: NodeRef,
    depth: usize,
    left: &mut usize,
) -> Option<bool>
    ensures { IfSome result (Tells (item_of around.now) (λ here. pass_all schema.now here (item_of item.now) (inner_asks schema.now (item_of item.now) node))) }
{
    roots_are_roots();
    if !types_hold(alloc, schema, around, item, node, depth, left)? {
        return Some(false);
    }
    let root = own_root(schema, item, node);
    if !own_root_holds(alloc, schema, around, item, root, depth, left)? {
        return Some(false);
    }
    rest_conforms(alloc, schema, around, item, node, root, depth, left)
}

// Whether an item is as a node asks, but for the item's type: by its facets, its constraints, and what it asks of children. The own
// constraints of another node are known to hold of the item.
#[cycle(walking)]
fn rest_conforms<'t, 'a, 'j>(
    alloc: Global,
    schema: &'t Schema,
    around: &'t Typed<'a, 'j>,
    item: &'t Typed<'a, 'j>,
    node: NodeRef,
    settled: Option<NodeRef>,
    depth: usize,
    left: &mut usize,
) -> Option<bool>
    ensures { IfSome result (TellsBeside schema.now (item_of item.now) settled (item_of around.now)
        (λ here. rest_holds schema.now here (item_of item.now) node)) }
{
    if is_free(schema, item, node) {
        return Some(true);
    }
    if !facets_hold(schema, item, node) {
        return Some(false);
    }
    if !constraints_hold(alloc, schema, around, item, node, settled)? {
        return Some(false);
    }
    kids_conform(alloc, schema, around, item, node, depth, left)
}

// Whether an item conforms to the root of its own type, where that has one.
#[cycle(walking)]
fn own_root_holds<'t, 'a, 'j>(
    alloc: Global,
    schema: &'t Schema,
    around: &'t Typed<'a, 'j>,
    item: &'t Typed<'a, 'j>,
    root: Option<NodeRef>,
    depth: usize,
    left: &mut usize,
) -> Option<bool>
    ensures { IfSome result (Tells (item_of around.now) (λ here. pass_all schema.now here (item_of item.now) (own_root root))) }
{
    match root {
        Some(root) => item_conforms(alloc, schema, around, item, root, depth, left),
        None => Some(true),
    }
}

// Whether an item is of one of the types of a node, where it names any.
#[cycle(walking)]
fn types_hold<'t, 'a, 'j>(
    alloc: Global,
    schema: &'t Schema,
    around: &'t Typed<'a, 'j>,
    item: &'t Typed<'a, 'j>,
    node: NodeRef,
    depth: usize,
    left: &mut usize,
) -> Option<bool>
    ensures { IfSome result (Tells (item_of around.now)
        (λ here. types_hold schema.now none (conforms schema.now (constant false) here (item_of item.now)) (item_of item.now) node)) }
{
    let entries = schema.types(node);
    if entries.is_empty() {
        return Some(true);
    }
    for entry in entries {
        if entry_holds(alloc, schema, around, item, entry, depth, left)? {
            return Some(true);
        }
    }
    Some(false)
}

#[cycle(walking)]
fn entry_holds<'t, 'a, 'j>(
    alloc: Global,
    schema: &'t Schema,
    around: &'t Typed<'a, 'j>,
    item: &'t Typed<'a, 'j>,
    entry: &'t TypeEntry,
    depth: usize,
    left: &mut usize,
) -> Option<bool>
    ensures { IfSome result (Tells (item_of around.now)
        (λ here. entry_holds schema.now none (conforms schema.now (constant false) here (item_of item.now)) (item_of item.now) entry.now)) }
{
    if !is_held(judge_entry(schema, item, entry, &Vouching::none())) {
        return Some(false);
    }
    profiles_hold(alloc, schema, around, item, entry.profiles(), depth, left)
}

// Whether an item conforms to one of the profiles, where there are any.
#[cycle(walking)]
fn profiles_hold<'t, 'a, 'j>(
    alloc: Global,
    schema: &'t Schema,
    around: &'t Typed<'a, 'j>,
    item: &'t Typed<'a, 'j>,
    profiles: &[String],
    depth: usize,
    left: &mut usize,
) -> Option<bool>
    ensures { IfSome result (Tells (item_of around.now)
        (λ here. profiles_hold schema.now none (conforms schema.now (constant false) here (item_of item.now)) (item_of item.now) (map string_bytes profiles.now))) }
{
    if profiles.is_empty() {
        return Some(true);
    }
    for profile in profiles {
        if profile_holds(alloc, schema, around, item, profile.as_str(), depth, left)? {
            return Some(true);
        }
    }
    Some(false)
}

#[cycle(walking)]
fn profile_holds<'t, 'a, 'j>(
    alloc: Global,
    schema: &'t Schema,
    around: &'t Typed<'a, 'j>,
    item: &'t Typed<'a, 'j>,
    profile: &str,
    depth: usize,
    left: &mut usize,
) -> Option<bool>
    ensures { IfSome result (Tells (item_of around.now)
        (λ here. profile_holds schema.now none (conforms schema.now (constant false) here (item_of item.now)) (item_of item.now) profile.now)) }
{
    match schema.loaded(profile) {
        Some(root) => item_conforms(alloc, schema, around, item, root, depth, left),
        None => Some(false),
    }
}

// Whether the children of an item are as the slots of the node ask that has a node's children.
#[cycle(walking)]
fn kids_conform<'t, 'a, 'j>(
    alloc: Global,
    schema: &'t Schema,
    around: &'t Typed<'a, 'j>,
    item: &'t Typed<'a, 'j>,
    node: NodeRef,
    depth: usize,
    left: &mut usize,
) -> Option<bool>
    ensures { IfSome result (Tells (item_of around.now) (λ here. pass_all schema.now here (item_of item.now) (kids_asks schema.now (item_of item.now) node))) }
{
    let Some(holder) = schema.holder(node) else {
        return Some(true);
    };
    if !may_look(schema.slots(holder), item.kids(), left) {
        return None;
    }
    if item.kids().is_empty() {
        return slots_conform(alloc, schema, around, item, holder, depth, left);
    }
    let resource = nearest_by(schema, around, item, node);
    slots_conform(alloc, schema, resource, item, holder, depth, left)
}

// The same by the slots of a node, where that is the nearest resource around the children.
#[cycle(walking)]
fn slots_conform<'t, 'a, 'j>(
    alloc: Global,
    schema: &'t Schema,
    resource: &'t Typed<'a, 'j>,
    item: &'t Typed<'a, 'j>,
    holder: NodeRef,
    depth: usize,
    left: &mut usize,
) -> Option<bool>
    ensures { IfSome result (TellsOfKids schema.now (item_of item.now) (item_of resource.now)
        (λ here. pass_all schema.now here (item_of item.now) (slots_ask schema.now (item_of item.now) holder))) }
{
    for slot in schema.slots(holder) {
        if !slot_conforms(alloc, schema, resource, item, holder, slot, depth, left)? {
            return Some(false);
        }
    }
    Some(true)
}

// The same by one slot.
#[cycle(walking)]
fn slot_conforms<'t, 'a, 'j>(
    alloc: Global,
    schema: &'t Schema,
    resource: &'t Typed<'a, 'j>,
    item: &'t Typed<'a, 'j>,
    holder: NodeRef,
    slot: &'t Slot,
    depth: usize,
    left: &mut usize,
) -> Option<bool>
    ensures { IfSome result (TellsOfKids schema.now (item_of item.now) (item_of resource.now)
        (λ here. pass_all schema.now here (item_of item.now) (slot_asks schema.now (item_of item.now) holder slot.now))) }
{
    let entry = entry_of(holder, slot);
    let name = slot.tagged_name();
    let count = count_named(item.kids(), name);
    if !allows_count(schema, entry, count) {
        return Some(false);
    }
    if !counted_conform(
        alloc, schema, resource, item, name, entry, count, depth, left,
    )? {
        return Some(false);
    }
    sliced_conform(alloc, schema, resource, item, name, entry, depth, left)
}

// Whether the children of a name are as the slices of a node ask, if it has any.
#[cycle(walking)]
fn sliced_conform<'t, 'a, 'j>(
    alloc: Global,
    schema: &'t Schema,
    resource: &'t Typed<'a, 'j>,
    item: &'t Typed<'a, 'j>,
    name: &Name,
    node: NodeRef,
    depth: usize,
    left: &mut usize,
) -> Option<bool>
    ensures { IfSome result (TellsOfKids schema.now (item_of item.now) (item_of resource.now)
        (λ here. pass_all schema.now here (item_of item.now)
        (sliced_asks schema.now (item_of item.now) name.now (places_of name.now (item_of item.now)) node))) }
{
    let slices = schema.slices(node);
    if slices.is_empty() {
        return Some(true);
    }
    if asks_sequence(schema, node) {
        return None;
    }
    if !spend(left, slices.len().saturating_mul(item.kids().len())) {
        return None;
    }
    if !is_rightly_sliced(schema, item, name, node) {
        return Some(false);
    }
    slices_conform(alloc, schema, resource, item, name, node, depth, left)
}

// Whether the members of each slice of a node are as that asks.
#[cycle(walking)]
fn slices_conform<'t, 'a, 'j>(
    alloc: Global,
    schema: &'t Schema,
    resource: &'t Typed<'a, 'j>,
    item: &'t Typed<'a, 'j>,
    name: &Name,
    node: NodeRef,
    depth: usize,
    left: &mut usize,
) -> Option<bool>
    ensures { IfSome result (TellsOfKids schema.now (item_of item.now) (item_of resource.now)
        (λ here. pass_all schema.now here (item_of item.now)
        (flat_map (slice_asks schema.now (item_of item.now) name.now (places_of name.now (item_of item.now)) node) (slices schema.now node)))) }
{
    for slice in schema.slices(node) {
        if !slice_conforms(
            alloc, schema, resource, item, name, node, slice, depth, left,
        )? {
            return Some(false);
        }
    }
    Some(true)
}

// Whether the members of a slice are enough, and not too many, and each conforms to it.
#[cycle(walking)]
fn slice_conforms<'t, 'a, 'j>(
    alloc: Global,
    schema: &'t Schema,
    resource: &'t Typed<'a, 'j>,
    item: &'t Typed<'a, 'j>,
    name: &Name,
    node: NodeRef,
    slice: &'t Slot,
    depth: usize,
    left: &mut usize,
) -> Option<bool>
    ensures { IfSome result (TellsOfKids schema.now (item_of item.now) (item_of resource.now)
        (λ here. pass_all schema.now here (item_of item.now)
        (slice_asks schema.now (item_of item.now) name.now (places_of name.now (item_of item.now)) node slice.now))) }
{
    let entry = entry_of(node, slice);
    let count = count_members(schema, item, name, entry);
    if !allows_count(schema, entry, count) {
        return Some(false);
    }
    members_conform(alloc, schema, resource, item, name, entry, depth, left)
}

// Whether each member of a slice conforms to it.
#[cycle(walking)]
fn members_conform<'t, 'a, 'j>(
    alloc: Global,
    schema: &'t Schema,
    resource: &'t Typed<'a, 'j>,
    item: &'t Typed<'a, 'j>,
    name: &Name,
    slice: NodeRef,
    depth: usize,
    left: &mut usize,
) -> Option<bool>
    ensures { IfSome result (TellsOfKids schema.now (item_of item.now) (item_of resource.now)
        (λ here. pass_all schema.now here (item_of item.now)
        (map (child_ask slice) (members schema.now (item_of item.now) slice (places_of name.now (item_of item.now)))))) }
{
    for kid in item.kids() {
        if !member_conforms(alloc, schema, resource, kid, name, slice, depth, left)? {
            return Some(false);
        }
    }
    Some(true)
}

// Whether a child conforms to a slice, if it has that name and belongs to it.
#[cycle(walking)]
fn member_conforms<'t, 'a, 'j>(
    alloc: Global,
    schema: &'t Schema,
    resource: &'t Typed<'a, 'j>,
    kid: &'t Kid<'a, 'j>,
    name: &Name,
    slice: NodeRef,
    depth: usize,
    left: &mut usize,
) -> Option<bool>
    ensures { IfSome result (Tells (item_of resource.now)
        (λ here. if bytes_eq name.now (named_of kid.now).0 && belongs schema.now (criteria schema.now slice) (named_of kid.now).1
        then conforms schema.now (constant false) here (named_of kid.now).1 slice else true)) }
{
    if !is_member(schema, kid, name, slice) {
        return Some(true);
    }
    item_conforms(alloc, schema, resource, kid.item(), slice, depth, left)
}

// Whether each child of a name conforms to a node, where so many have it.
#[cycle(walking)]
fn counted_conform<'t, 'a, 'j>(
    alloc: Global,
    schema: &'t Schema,
    resource: &'t Typed<'a, 'j>,
    item: &'t Typed<'a, 'j>,
    name: &Name,
    node: NodeRef,
    count: usize,
    depth: usize,
    left: &mut usize,
) -> Option<bool>
    requires { count ≡ count_of name.now (item_of item.now) }
    ensures { IfSome result (TellsOfKids schema.now (item_of item.now) (item_of resource.now)
        (λ here. pass_all schema.now here (item_of item.now) (map (child_ask node) (places_of name.now (item_of item.now))))) }
{
    if count == 0 {
        return Some(true);
    }
    named_conform(alloc, schema, resource, item, name, node, depth, left)
}

// Whether each child of a name conforms to a node.
#[cycle(walking)]
fn named_conform<'t, 'a, 'j>(
    alloc: Global,
    schema: &'t Schema,
    resource: &'t Typed<'a, 'j>,
    item: &'t Typed<'a, 'j>,
    name: &Name,
    node: NodeRef,
    depth: usize,
    left: &mut usize,
) -> Option<bool>
    ensures { IfSome result (TellsOfKids schema.now (item_of item.now) (item_of resource.now)
        (λ here. pass_all schema.now here (item_of item.now) (map (child_ask node) (places_of name.now (item_of item.now))))) }
{
    for kid in item.kids() {
        if !kid_conforms(alloc, schema, resource, kid, name, node, depth, left)? {
            return Some(false);
        }
    }
    Some(true)
}

// Whether a child conforms to a node, if it has that name.
#[cycle(walking)]
fn kid_conforms<'t, 'a, 'j>(
    alloc: Global,
    schema: &'t Schema,
    resource: &'t Typed<'a, 'j>,
    kid: &'t Kid<'a, 'j>,
    name: &Name,
    node: NodeRef,
    depth: usize,
    left: &mut usize,
) -> Option<bool>
    ensures { IfSome result (Tells (item_of resource.now) (λ here. if bytes_eq name.now (named_of kid.now).0
        then conforms schema.now (constant false) here (named_of kid.now).1 node else true)) }
{
    if !name.is(kid.tagged_name()) {
        return Some(true);
    }
    item_conforms(alloc, schema, resource, kid.item(), node, depth, left)
}
