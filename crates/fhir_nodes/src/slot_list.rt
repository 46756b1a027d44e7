//! The slots of an element, found by their names.

ghost use Rattle.std.specs.Prelude.{◌≡◌, map, IfOk};
ghost use Rattle.std.specs.Option.{option_copied};
ghost use Rattle.std.specs.List.{find, slice_get};
ghost use Rattle.std.specs.Str.{bytes_eq};
ghost use Rattle.fhir_names.specs.Places.{Finds};

use crate::slots::Slot;
use fhir_names::Index;
use std::alloc::{AllocError, Global};
use std::marker::Model;

// Up to so many slots are looked through for a name.
const FEW: usize = 16;

/// The slots of an element.
#[derive(Drop)]
pub struct SlotList {
    slots: Vec<Slot>,
    names: Option<Index>,
}

impl Model for SlotList {
    ghost use Rattle.std.specs.Prelude.{List, map};
    ghost use Rattle.std.specs.Option.{ForSome};
    ghost use Rattle.fhir_names.specs.Places.{Finds};
    ghost use Rattle.fhir_nodes.specs.Slots.{Slot as Shown};

    ghost Value = { List Shown };

    ghost view = { λ l. l.slots.items };

    ghost invariant = { λ l. ForSome l.names (λ names. Finds names (map (λ slot. slot.name) l.slots.items)) };
}

fn index_of(alloc: Global, slots: &[Slot]) -> Result<Index, AllocError>
    ensures { IfOk result (λ names. Finds names (map (λ slot. slot.name) slots.now)) }
{
    let mut names = Index::new(alloc);
    for (place, slot) in slots.iter().enumerate() {
        names.add(alloc, slot.name(), place)?;
    }
    Ok(names)
}

fn slot_at(slots: &[Slot], place: usize) -> Option<&Slot>
    ensures { option_copied result ≡ slice_get slots.now place }
{
    slots.get(place)
}

fn find_by_index<'s>(slots: &'s [Slot], names: &Index, name: &str) -> Option<&'s Slot>
    requires { Finds names.now (map (λ slot. slot.name) slots.now) }
    ensures { option_copied result ≡ find (λ slot. bytes_eq name.now slot.name) slots.now }
{
    match names.get(name) {
        Some(place) => slot_at(slots, place),
        None => None,
    }
}

fn find_by_look<'s>(slots: &'s [Slot], name: &str) -> Option<&'s Slot>
    ensures { option_copied result ≡ find (λ slot. bytes_eq name.now slot.name) slots.entry.now }
{
    for slot in slots {
        if name == slot.name() {
            return Some(slot);
        }
    }
    None
}

impl SlotList {
    /// These slots.
    pub(crate) fn of(alloc: Global, slots: Vec<Slot>) -> Result<SlotList, AllocError>
        ensures { IfOk result (λ l. l ≡ slots.items) }
    {
        if slots.len() <= FEW {
            return Ok(SlotList { slots, names: None });
        }
        let names = index_of(alloc, &slots)?;
        Ok(SlotList {
            slots,
            names: Some(names),
        })
    }

    /// The slots, in the definition's order.
    pub fn slots(&self) -> &[Slot]
        ensures { result.now ≡ self.now }
    {
        &self.slots
    }

    /// The first slot of a name.
    pub fn find(&self, name: &str) -> Option<&Slot>
        ensures { option_copied result ≡ find (λ slot. bytes_eq name.now slot.name) self.now }
    {
        match &self.names {
            Some(names) => find_by_index(&self.slots, names, name),
            None => find_by_look(&self.slots, name),
        }
    }
}
