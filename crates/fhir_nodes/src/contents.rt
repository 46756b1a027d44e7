//! Which element another one refers to for its content, and what it takes over from it.

ghost use Rattle.std.specs.Prelude.{◌≡◌};
ghost use Rattle.std.specs.Option.{option_copied, option_map, option_and_then};
ghost use Rattle.fhir_names.specs.Texts.{cut_at_first};
ghost use Rattle.fhir_nodes.specs.Slots.{all_slots};
ghost use Rattle.fhir_nodes.specs.Contents.{hash, elements_in, element_of, content_place, id_node, referred_node, content_target, target, entries_of, target_entries};
ghost use Rattle.fhir_nodes.specs.Holders.{with_children, holder, child_holder, has_own_types, typing_entries};

use crate::canonicals::canonical_place;
use crate::node::NodeRef;
use crate::nodes::Nodes;
use crate::table::Table;
use fhir_definition::is_root;
use fhir_elements::{ElementDef, TypeEntry};

/// The elements of the definition at a place.
pub fn elements_in(table: &Table, place: usize) -> &[ElementDef]
    ensures { result.now ≡ elements_in table.now place }
{
    match table.definition(place) {
        Some(definition) => definition.elements(),
        None => Default::default(),
    }
}

/// The element of a node.
pub(crate) fn element_of(table: &Table, node: NodeRef) -> Option<&ElementDef>
    ensures { option_copied result ≡ element_of table.now node }
{
    elements_in(table, node.definition).get(node.element)
}

// What stands before the first `#`, and what behind it.
fn cut_at_hash(text: &str) -> Option<(&str, &str)>
    ensures { option_map (λ p. (p.0.now, p.1.now)) result ≡ cut_at_first hash text.now }
{
    text.split_once('#')
}

fn content_place(table: &Table, place: usize, front: &str) -> Option<usize>
    ensures { result ≡ content_place table.now place front.now }
{
    if front.is_empty() {
        Some(place)
    } else {
        canonical_place(table, front)
    }
}

fn id_node(table: &Table, id: &str, place: usize) -> Option<NodeRef>
    ensures { result ≡ id_node table.now id.now place }
{
    let definition = table.definition(place)?;
    Some(NodeRef {
        definition: place,
        element: definition.id_place(id)?,
    })
}

// The node that a content reference of the definition at a place names.
fn referred_node(table: &Table, place: usize, text: &str) -> Option<NodeRef>
    ensures { result ≡ referred_node table.now place text.now }
{
    let (front, id) = cut_at_hash(text)?;
    id_node(table, id, content_place(table, place, front)?)
}

/// The node that an element of the definition at a place refers to for its content.
pub fn content_target(table: &Table, place: usize, element: &ElementDef) -> Option<NodeRef>
    ensures { result ≡ content_target table.now place element.now }
{
    referred_node(table, place, element.content_reference()?)
}

/// The node that a node refers to for its content.
pub fn target(table: &Table, node: NodeRef) -> Option<NodeRef>
    ensures { result ≡ target table.now node }
{
    content_target(table, node.definition, element_of(table, node)?)
}

// The type entries of an element; those that stand at a root are passed over.
fn entries_of(element: &ElementDef) -> &[TypeEntry]
    ensures { result.now ≡ entries_of element.now }
{
    if is_root(element) {
        return Default::default();
    }
    element.types()
}

/// The type entries of the element to which one of the definition at a place refers for its content.
pub(crate) fn target_entries<'t>(
    table: &'t Table,
    place: usize,
    element: &ElementDef,
) -> &'t [TypeEntry]
    ensures { result.now ≡ target_entries table.now place element.now }
{
    let target = match content_target(table, place, element) {
        Some(node) => element_of(table, node),
        None => None,
    };
    match target {
        Some(target) => entries_of(target),
        None => Default::default(),
    }
}

// The node, if it has children.
fn with_children(nodes: &Nodes, table: &Table, node: NodeRef) -> Option<NodeRef>
    requires { nodes.now ≡ all_slots table.now }
    ensures { result ≡ with_children table.now node }
{
    if nodes.slots(node).is_empty() {
        None
    } else {
        Some(node)
    }
}

/// The node that has a node's children: itself, if it has any, and else the one that it refers to for its content.
pub fn holder(nodes: &Nodes, table: &Table, node: NodeRef) -> Option<NodeRef>
    requires { nodes.now ≡ all_slots table.now }
    ensures { result ≡ holder table.now node }
{
    match with_children(nodes, table, node) {
        Some(itself) => Some(itself),
        None => target(table, node),
    }
}

/// That one, if it has children.
pub fn child_holder(nodes: &Nodes, table: &Table, node: NodeRef) -> Option<NodeRef>
    requires { nodes.now ≡ all_slots table.now }
    ensures { result ≡ child_holder table.now node }
{
    with_children(nodes, table, holder(nodes, table, node)?)
}

fn has_own_types(nodes: &Nodes, table: &Table, node: NodeRef, element: &ElementDef) -> bool
    requires { nodes.now ≡ all_slots table.now }
    ensures { result ≡ has_own_types table.now node element.now }
{
    !element.types().is_empty() && !nodes.slots(node).is_empty()
}

fn target_element(table: &Table, node: NodeRef) -> Option<&ElementDef>
    ensures { option_copied result ≡ option_and_then (element_of table.now) (target table.now node) }
{
    element_of(table, target(table, node)?)
}

/// The type entries that say of which types a node's items are: those of the element that it refers to for its content,
/// unless it has types and children of its own. Those that stand at a root are passed over.
pub fn typing_entries<'t>(
    nodes: &Nodes,
    table: &'t Table,
    node: NodeRef,
    element: &'t ElementDef,
) -> &'t [TypeEntry]
    requires { nodes.now ≡ all_slots table.now }
    ensures { result.now ≡ typing_entries table.now node element.now }
{
    if has_own_types(nodes, table, node, element) {
        return element.types();
    }
    match target_element(table, node) {
        Some(target) => entries_of(target),
        None => element.types(),
    }
}
