//! What differs between the elements of a profile and those of its base.

ghost use Rattle.std.specs.Prelude.{◌≡◌, ℕ, IsTrue, IfOk, OnOk};
ghost use Rattle.std.specs.List.{list_all};
ghost use Rattle.fhir_element_changes.specs.Changes.{is_change, is_changed};
ghost use Rattle.fhir_element_changes.specs.Views.{changes_seen, all_changed};

use crate::element_words::{Aspect, aspect_text, each_aspect};
use fhir_definition::{Definition, up_of};
use fhir_elements::ElementDef;
use fhir_json::NoMemory;
use fhir_names::{name_of, slice_of, sliced_of};
use fhir_schema::{NodeRef, Schema, Slot};
use std::alloc::{AllocError, Global};

/// What differs between an element and the base's.
#[derive(Drop)]
pub struct Change {
    /// By what it differs.
    pub aspect: Aspect,
    /// What the base's says.
    pub base: String,
    /// What the element says.
    pub derived: String,
}

/// An element with what differs.
#[derive(Drop)]
pub struct Changed<'s> {
    /// Its id.
    pub id: &'s str,
    /// Where it stands.
    pub node: NodeRef,
    /// What differs.
    pub changes: Vec<Change>,
}

// ---- which element of the base is meant

fn entry_of(node: NodeRef, slot: &Slot) -> NodeRef {
    NodeRef {
        definition: node.definition,
        element: slot.entry(),
    }
}

fn child_in(schema: &Schema, holder: NodeRef, name: &str) -> Option<NodeRef> {
    Some(entry_of(holder, schema.slot(holder, name)?))
}

// The child of a name below a node: its own, or else its type's.
fn child_of(schema: &Schema, node: NodeRef, name: &str) -> Option<NodeRef> {
    match schema.child_holder(node) {
        Some(holder) => child_in(schema, holder, name),
        None => child_in(schema, schema.only_type_root(node)?, name),
    }
}

// The slice of a name, or else what it is a slice of.
fn slice_or_all(schema: &Schema, node: NodeRef, name: &str) -> NodeRef {
    match schema.slice(node, name) {
        Some(slot) => entry_of(node, slot),
        None => node,
    }
}

// Which nodes of a base the elements of a profile are compared with, as far as they are known.
#[derive(Drop)]
struct Counterparts<'s> {
    schema: &'s Schema,
    definition: &'s Definition,
    nodes: Vec<Option<NodeRef>>,
}

impl<'s> Counterparts<'s> {
    fn at(&self, id: &str) -> Option<NodeRef> {
        let place = self.definition.id_place(id)?;
        self.nodes.get(place).copied()?
    }

    fn of_slice(&self, id: &str, slice: &str) -> Option<NodeRef> {
        let node = self.at(sliced_of(id)?)?;
        Some(slice_or_all(self.schema, node, slice))
    }

    fn of_child(&self, id: &str) -> Option<NodeRef> {
        child_of(self.schema, self.at(up_of(id)?)?, name_of(id))
    }

    // That of an element. What it stands below, or is a slice of, stands in front of it.
    fn of(&self, place: usize, id: &str, root: NodeRef) -> Option<NodeRef> {
        if self.definition.root() == Some(place) {
            return Some(root);
        }
        match slice_of(id) {
            Some(slice) => self.of_slice(id, slice),
            None => self.of_child(id),
        }
    }

    fn all(
        alloc: Global,
        schema: &'s Schema,
        definition: &'s Definition,
        root: NodeRef,
    ) -> Result<Counterparts<'s>, AllocError> {
        let mut found = Counterparts {
            schema,
            definition,
            nodes: Vec::new(alloc),
        };
        for (place, element) in definition.elements().iter().enumerate() {
            let node = found.of(place, element.id(), root);
            found.nodes.push(node)?;
        }
        Ok(found)
    }
}

// ---- what differs

fn push_change(
    alloc: Global,
    schema: &Schema,
    aspect: Aspect,
    derived: NodeRef,
    base: NodeRef,
    into: &mut Vec<Change>,
) -> Result<(), NoMemory>
    ensures { IsTrue (list_all is_change (changes_seen into.old.items)) → OnOk result (IsTrue (list_all is_change (changes_seen into.new.items))) }
{
    let said = aspect_text(alloc, schema, aspect, derived, base)?;
    let before = aspect_text(alloc, schema, aspect, base, derived)?;
    if said.as_str() != before.as_str() {
        into.push(Change {
            aspect,
            base: before,
            derived: said,
        })?;
    }
    Ok(())
}

fn changes_between(
    alloc: Global,
    schema: &Schema,
    derived: NodeRef,
    base: NodeRef,
) -> Result<Vec<Change>, NoMemory>
    ensures { IfOk result (λ changes. IsTrue (list_all is_change (changes_seen changes.items))) }
{
    let mut changes = Vec::new(alloc);
    for aspect in each_aspect() {
        push_change(alloc, schema, *aspect, derived, base, &mut changes)?;
    }
    Ok(changes)
}

fn push_changed<'s>(
    alloc: Global,
    schema: &Schema,
    element: &'s ElementDef,
    node: NodeRef,
    base: Option<NodeRef>,
    into: &mut Vec<Changed<'s>>,
) -> Result<(), NoMemory>
    ensures { (place : ℕ) → node.definition ≡ place → IsTrue (list_all (is_changed place) (all_changed into.old.items))
        → OnOk result (IsTrue (list_all (is_changed place) (all_changed into.new.items))) }
{
    let Some(base) = base else {
        return Ok(());
    };
    let changes = changes_between(alloc, schema, node, base)?;
    if !changes.is_empty() {
        into.push(Changed {
            id: element.id(),
            node,
            changes,
        })?;
    }
    Ok(())
}

fn changed_by<'s>(
    alloc: Global,
    schema: &'s Schema,
    place: usize,
    definition: &'s Definition,
    root: NodeRef,
) -> Result<Vec<Changed<'s>>, NoMemory>
    ensures { IfOk result (λ changed. IsTrue (list_all (is_changed place) (all_changed changed.items))) }
{
    let counterparts = Counterparts::all(alloc, schema, definition, root)?;
    let mut changed = Vec::new(alloc);
    for (element_place, element) in definition.elements().iter().enumerate() {
        let node = NodeRef {
            definition: place,
            element: element_place,
        };
        let base = counterparts
            .nodes
            .get(element_place)
            .copied()
            .unwrap_or(None);
        push_changed(alloc, schema, element, node, base, &mut changed)?;
    }
    Ok(changed)
}

/// The elements of the profile at a place that differ from those of the base at a url, in the profile's order. There are none where one of
/// the two can't be used. The one refusal is want of memory.
pub fn changed_elements<'s>(
    alloc: Global,
    schema: &'s Schema,
    place: usize,
    base: &str,
) -> Result<Vec<Changed<'s>>, NoMemory>
    ensures { IfOk result (λ changed. IsTrue (list_all (is_changed place) (all_changed changed.items))) }
{
    match (schema.definitions().get(place), schema.root(base)) {
        (Some(definition), Some(root)) => changed_by(alloc, schema, place, definition, root),
        _ => Ok(Vec::new(alloc)),
    }
}
