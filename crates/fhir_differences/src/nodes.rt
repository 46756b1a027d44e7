//! What nodes say of their items.

ghost use Rattle.std.specs.Prelude.{◌≡◌};
ghost use Rattle.std.specs.Option.{option_map_or};
ghost use Rattle.fhir_schema.specs.Schemas.{entry_of, element_at};

use fhir_elements::{ElementDef, Max, TypeEntry};
use fhir_schema::{NodeRef, Schema, Slot};

/// A node of a slot, or of a slice.
pub fn entry_of(node: NodeRef, slot: &Slot) -> NodeRef
    ensures { result ≡ entry_of node slot.now }
{
    NodeRef {
        definition: node.definition,
        element: slot.entry(),
    }
}

fn profile_of(schema: &Schema, entry: &TypeEntry) -> Option<NodeRef> {
    for profile in entry.profiles() {
        if let Some(root) = schema.loaded(profile.as_str()) {
            return Some(root);
        }
    }
    None
}

/// The root of a profile that a node names for a type.
pub fn profile_for(schema: &Schema, node: NodeRef, code: &str) -> Option<NodeRef> {
    for entry in schema.types(node) {
        if schema.covers(entry.code(), code) {
            return profile_of(schema, entry);
        }
    }
    None
}

fn least_of(element: &ElementDef) -> usize
    ensures { result ≡ option_map_or (λ n. n) element.now.min 0 }
{
    element.min().unwrap_or(0) as usize
}

fn most_of(element: &ElementDef) -> usize {
    match element.max() {
        Some(Max::UpTo(most)) => most as usize,
        Some(Max::Unbounded) | None => usize::MAX,
    }
}

/// How many items a node's element has to have.
pub fn least_at(schema: &Schema, node: NodeRef) -> usize
    ensures { result ≡ option_map_or (λ e. option_map_or (λ n. n) e.min 0) (element_at schema.now node) 0 }
{
    match schema.element(node) {
        Some(element) => least_of(element),
        None => 0,
    }
}

/// How many it may have.
pub fn most_at(schema: &Schema, node: NodeRef) -> usize {
    match schema.element(node) {
        Some(element) => most_of(element),
        None => usize::MAX,
    }
}

/// The node of the slice of a name, if the node has one.
pub(crate) fn own_slice(schema: &Schema, own: Option<NodeRef>, name: &str) -> Option<NodeRef> {
    let own = own?;
    let slice = schema.slice(own, name)?;
    Some(entry_of(own, slice))
}
