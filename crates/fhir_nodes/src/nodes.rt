//! What stands below each node, worked out when a schema is built.

ghost use Rattle.std.specs.Prelude.{◌≡◌, [], get_or, IfOk};
ghost use Rattle.std.specs.Option.{option_copied, option_map_or};
ghost use Rattle.std.specs.List.{find};
ghost use Rattle.std.specs.Str.{bytes_eq};
ghost use Rattle.fhir_nodes.specs.Slots.{all_slots, all_slices};

use crate::node::NodeRef;
use crate::slot_list::SlotList;
use crate::slots::{Slot, slices_of, slots_of};
use crate::table::Table;
use std::alloc::{AllocError, Global};
use std::marker::Model;

/// The slots of each element of each definition, or its slices.
#[derive(Drop)]
pub struct Nodes {
    slots: Vec<Vec<SlotList>>,
}

impl Model for Nodes {
    ghost use Rattle.std.specs.Prelude.{List, map};
    ghost use Rattle.fhir_nodes.specs.Slots.{Slot as Shown};

    ghost Value = { List (List (List Shown)) };

    ghost view = { λ n. map (λ v. v.items) n.slots.items };
}

impl Nodes {
    /// The slots of the definitions of a table.
    pub fn slots_of(alloc: Global, table: &Table) -> Result<Nodes, AllocError>
        ensures { IfOk result (λ n. n ≡ all_slots table.now) }
    {
        let mut slots = Vec::new(alloc);
        for definition in table.definitions() {
            slots.push(slots_of(alloc, table, definition)?)?;
        }
        Ok(Nodes { slots })
    }

    /// The slices of the definitions of a table.
    pub fn slices_of(alloc: Global, table: &Table) -> Result<Nodes, AllocError>
        ensures { IfOk result (λ n. n ≡ all_slices table.now) }
    {
        let mut slots = Vec::new(alloc);
        for definition in table.definitions() {
            slots.push(slices_of(alloc, definition)?)?;
        }
        Ok(Nodes { slots })
    }

    /// Those of each element of the definition at a place.
    pub fn lists(&self, place: usize) -> &[SlotList]
        ensures { result.now ≡ get_or self.now place [] }
    {
        match self.slots.get(place) {
            Some(lists) => lists,
            None => Default::default(),
        }
    }

    fn list(&self, node: NodeRef) -> Option<&SlotList>
        ensures { option_map_or (λ l. l.now) result [] ≡ get_or (get_or self.now node.definition []) node.element [] }
    {
        self.slots.get(node.definition)?.get(node.element)
    }

    /// The slots of a node, or its slices.
    pub fn slots(&self, node: NodeRef) -> &[Slot]
        ensures { result.now ≡ get_or (get_or self.now node.definition []) node.element [] }
    {
        match self.list(node) {
            Some(list) => list.slots(),
            None => Default::default(),
        }
    }

    /// The first slot of a name among those of a node.
    pub fn find(&self, node: NodeRef, name: &str) -> Option<&Slot>
        ensures { option_copied result ≡ find (λ slot. bytes_eq name.now slot.name)
            (get_or (get_or self.now node.definition []) node.element []) }
    {
        self.list(node)?.find(name)
    }
}
