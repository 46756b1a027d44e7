//! The slots and the slices of the elements.

ghost use Rattle.std.specs.Prelude.{◌≡◌, map, IfOk, false};
ghost use Rattle.fhir_nodes.specs.Slots.{id_at, slice_at, slot_at, entry_is_primitive, are_one_primitive, element_entries, is_primitive_element, parent_at, is_slot, slots_under, slots_of, slices_of};
ghost use Rattle.std.specs.Option.{option_copied, option_map_or};
ghost use Rattle.std.specs.List.{list_all};

use crate::contents::target_entries;
use crate::kinds::names_primitive;
use crate::slot_list::SlotList;
use crate::table::Table;
use fhir_definition::{Definition, is_root};
use fhir_elements::{ElementDef, TypeEntry};
use fhir_names::{Name, front_of, name_of, slice_of};
use std::alloc::{AllocError, Global};
use std::marker::Model;

/// A name that the children of an item may have, or that of a slice, and the place of the element that says what its items
/// are.
#[derive(Drop)]
pub struct Slot {
    name: Name,
    entry: usize,
}

impl Model for Slot {
    ghost use Rattle.fhir_nodes.specs.Slots.{Slot as Shown};

    ghost Value = { Shown };

    ghost view = { λ s. record { name = s.name; entry = s.entry } };
}

impl Slot {
    /// Its name.
    pub fn name(&self) -> &str
        ensures { result.now ≡ self.now.name }
    {
        self.name.as_str()
    }

    /// Its name, to be compared with others.
    pub fn tagged_name(&self) -> &Name
        ensures { result.now ≡ self.now.name }
    {
        &self.name
    }

    /// The place of its element in the definition.
    pub fn entry(&self) -> usize
        ensures { result ≡ self.now.entry }
    {
        self.entry
    }
}

fn id_at(elements: &[ElementDef], place: usize) -> &str
    ensures { result.now ≡ id_at elements.now place }
{
    match elements.get(place) {
        Some(element) => element.id(),
        None => "",
    }
}

fn slot_at(alloc: Global, elements: &[ElementDef], place: usize) -> Result<Slot, AllocError>
    ensures { IfOk result (λ s. s ≡ slot_at elements.now place) }
{
    let name = Name::of(alloc, name_of(id_at(elements, place)))?;
    Ok(Slot { name, entry: place })
}

fn slice_at(alloc: Global, elements: &[ElementDef], place: usize) -> Result<Slot, AllocError>
    ensures { IfOk result (λ s. s ≡ slice_at elements.now place) }
{
    let name = slice_of(id_at(elements, place)).unwrap_or("");
    let name = Name::of(alloc, name)?;
    Ok(Slot { name, entry: place })
}

fn entry_is_primitive(table: &Table, entry: &TypeEntry) -> bool
    ensures { result ≡ entry_is_primitive table.now entry.now }
{
    names_primitive(table, entry.code())
}

/// Whether each entry is of a primitive type.
pub(crate) fn are_primitive(table: &Table, entries: &[TypeEntry]) -> bool
    ensures { result ≡ list_all (entry_is_primitive table.now) entries.now }
{
    entries.iter().all(|entry| entry_is_primitive(table, entry))
}

fn are_one_primitive(table: &Table, entries: &[TypeEntry]) -> bool
    ensures { result ≡ are_one_primitive table.now entries.now }
{
    entries.len() == 1 && are_primitive(table, entries)
}

// The type entries of an element, which may be those of the element that it refers to for its content.
fn element_entries<'t>(
    table: &'t Table,
    definition: &'t Definition,
    element: &'t ElementDef,
) -> &'t [TypeEntry]
    ensures { result.now ≡ element_entries table.now definition.now element.now }
{
    if element.types().is_empty() {
        return target_entries(table, definition.place(), element);
    }
    element.types()
}

fn is_primitive_element(table: &Table, definition: &Definition, element: &ElementDef) -> bool
    ensures { result ≡ is_primitive_element table.now definition.now element.now }
{
    if is_root(element) {
        return names_primitive(table, definition.type_code());
    }
    are_one_primitive(table, element_entries(table, definition, element))
}

// The element above the one at a place.
fn parent_at(definition: &Definition, place: usize) -> Option<&ElementDef>
    ensures { option_copied result ≡ parent_at definition.now.elements place }
{
    let up = front_of(id_at(definition.elements(), place))?;
    definition.elements().get(definition.id_place(up)?)
}

fn stands_under_primitive(table: &Table, definition: &Definition, place: usize) -> bool
    ensures { result ≡ option_map_or (is_primitive_element table.now definition.now) (parent_at definition.now.elements place) false }
{
    match parent_at(definition, place) {
        Some(parent) => is_primitive_element(table, definition, parent),
        None => false,
    }
}

fn is_slot(table: &Table, definition: &Definition, place: usize) -> bool
    ensures { result ≡ is_slot table.now definition.now place }
{
    let is_value = name_of(id_at(definition.elements(), place)) == "value";
    !(is_value && stands_under_primitive(table, definition, place))
}

fn slots_under(
    alloc: Global,
    table: &Table,
    definition: &Definition,
    places: &[usize],
) -> Result<SlotList, AllocError>
    ensures { IfOk result (λ l. l ≡ slots_under table.now definition.now places.now) }
{
    let mut slots = Vec::new(alloc);
    for place in places {
        if is_slot(table, definition, *place) {
            slots.push(slot_at(alloc, definition.elements(), *place)?)?;
        }
    }
    SlotList::of(alloc, slots)
}

/// The slots of each element of a definition.
pub(crate) fn slots_of(
    alloc: Global,
    table: &Table,
    definition: &Definition,
) -> Result<Vec<SlotList>, AllocError>
    ensures { IfOk result (λ v. v.items ≡ slots_of table.now definition.now) }
{
    let mut all = Vec::new(alloc);
    for places in definition.children() {
        all.push(slots_under(alloc, table, definition, places)?)?;
    }
    Ok(all)
}

// The slices of one element.
fn slices_under(
    alloc: Global,
    elements: &[ElementDef],
    places: &[usize],
) -> Result<SlotList, AllocError>
    ensures { IfOk result (λ l. l ≡ map (slice_at elements.now) places.now) }
{
    let mut slices = Vec::new(alloc);
    for place in places {
        slices.push(slice_at(alloc, elements, *place)?)?;
    }
    SlotList::of(alloc, slices)
}

/// The slices of each element of a definition.
pub(crate) fn slices_of(alloc: Global, definition: &Definition) -> Result<Vec<SlotList>, AllocError>
    ensures { IfOk result (λ v. v.items ≡ slices_of definition.now.elements) }
{
    let mut all = Vec::new(alloc);
    for places in definition.slices() {
        all.push(slices_under(alloc, definition.elements(), places)?)?;
    }
    Ok(all)
}
