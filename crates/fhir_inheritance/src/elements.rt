//! Elements of a definition, looked up by what their ids say.

ghost use Rattle.std.specs.Prelude.{◌≡◌, ◌∷◌, ◌++◌, List, [], length, is_none, IfOk, OnOk, map, string_bytes, if◌then◌else◌};
ghost use Rattle.std.specs.List.{slice_get};
ghost use Rattle.std.specs.Option.{option_copied, option_map};
ghost use Rattle.fhir_json.specs.Tree.{Text};
ghost use Rattle.fhir_names.specs.Parents.{name_of, sliced_of};
ghost use Rattle.fhir_elements.specs.Element.{Element};
ghost use Rattle.fhir_definition.specs.Snapshot.{id_place, is_at, ids_differ};
ghost use Rattle.fhir_inheritance.specs.Named.{texts_under};
ghost use Rattle.fhir_inheritance.specs.Elements.{find, is_this, parent_of, slice_parent_of, names_under, sliced_names_under, slices_under, IsKept};

use crate::groups::GroupTable;
use fhir_elements::ElementDef;
use fhir_json::NoMemory;
use fhir_names::{Index, front_of, name_of, slice_of, sliced_of};
use std::alloc::Global;
use std::marker::Model;

/// Elements, in order, with the places of their ids, and what stands under each id.
#[derive(Drop)]
pub struct Elements {
    all: Vec<ElementDef>,
    ids: Index,
    children: GroupTable,
    slices: GroupTable,
    sliced: GroupTable,
}

impl Model for Elements {
    ghost use Rattle.std.specs.Prelude.{List};
    ghost use Rattle.fhir_elements.specs.Element.{Element};
    ghost use Rattle.fhir_inheritance.specs.Elements.{IsKept};

    ghost Value = { List Element };

    ghost use Rattle.fhir_json.specs.Coding.{tree_code};
    ghost use Rattle.std.specs.Coded.{codes};

    ghost coded = { Prim.hlevel (codes, tree_code) };

    ghost view = { λ x. x.all.items };

    ghost invariant = { λ x. IsKept x.all.items x.ids x.children x.slices x.sliced };
}

// The id of which an id is that of a child, and no slice.
fn parent_of(id: &str) -> Option<&str>
    ensures { option_map (λ r. r.now) result ≡ parent_of id.now }
{
    if slice_of(id).is_some() {
        None
    } else {
        front_of(id)
    }
}

// The id under which an id is that of a slice.
fn slice_parent_of(id: &str) -> Option<&str>
    ensures { option_map (λ r. r.now) result ≡ slice_parent_of id.now }
{
    if slice_of(id).is_some() {
        front_of(id)
    } else {
        None
    }
}

fn put_child(alloc: Global, children: &mut GroupTable, id: &str) -> Result<(), NoMemory>
    ensures { OnOk result ((other : Text) → texts_under children.new other
        ≡ texts_under children.old other ++ (if is_this other (parent_of id.now) then name_of id.now ∷ [] else [])) }
{
    match parent_of(id) {
        Some(parent) => children.add(alloc, parent, name_of(id)),
        None => Ok(()),
    }
}

fn put_slice(alloc: Global, slices: &mut GroupTable, id: &str) -> Result<(), NoMemory>
    ensures { OnOk result ((other : Text) → texts_under slices.new other
        ≡ texts_under slices.old other ++ (if is_this other (sliced_of id.now) then id.now ∷ [] else [])) }
{
    match sliced_of(id) {
        Some(whole) => slices.add(alloc, whole, id),
        None => Ok(()),
    }
}

fn put_sliced(alloc: Global, sliced: &mut GroupTable, id: &str) -> Result<(), NoMemory>
    ensures { OnOk result ((other : Text) → texts_under sliced.new other
        ≡ texts_under sliced.old other ++ (if is_this other (slice_parent_of id.now) then name_of id.now ∷ [] else [])) }
{
    match slice_parent_of(id) {
        Some(parent) => sliced.add(alloc, parent, name_of(id)),
        None => Ok(()),
    }
}

// Puts an element behind others that are kept so.
fn put(
    alloc: Global,
    ids: &mut Index,
    children: &mut GroupTable,
    slices: &mut GroupTable,
    sliced: &mut GroupTable,
    element: &ElementDef,
    place: usize,
) -> Result<(), NoMemory>
    ensures { OnOk result ((es : List Element) → length es ≡ place → IsKept es ids.old children.old slices.old sliced.old
        → IsKept (es ++ element.now ∷ []) ids.new children.new slices.new sliced.new) }
{
    let id = element.id();
    ids.add(alloc, id, place)?;
    put_child(alloc, children, id)?;
    put_slice(alloc, slices, id)?;
    put_sliced(alloc, sliced, id)?;
    Ok(())
}

fn element_at(elements: &[ElementDef], place: usize) -> Option<&ElementDef>
    ensures { option_copied result ≡ slice_get elements.now place }
{
    elements.get(place)
}

impl Elements {
    /// All of them, in order.
    pub fn all(&self) -> &[ElementDef]
        ensures { result.now ≡ self.now }
    {
        &self.all
    }

    /// The first element of an id.
    pub fn get(&self, id: &str) -> Option<&ElementDef>
        ensures { option_copied result ≡ find self.now id.now }
    {
        match self.ids.get(id) {
            Some(place) => element_at(&self.all, place),
            None => None,
        }
    }

    /// The names of the children of an id, in order.
    pub fn names_under(&self, id: &str) -> &[String]
        ensures { map string_bytes result.now ≡ names_under self.now id.now }
    {
        self.children.get(id)
    }

    /// The names of the slices under an id, without what names the slice, in order.
    pub(crate) fn sliced_names_under(&self, id: &str) -> &[String]
        ensures { map string_bytes result.now ≡ sliced_names_under self.now id.now }
    {
        self.sliced.get(id)
    }

    /// The ids of the slices of an id, in order.
    pub fn slices_under(&self, id: &str) -> &[String]
        ensures { map string_bytes result.now ≡ slices_under self.now id.now }
    {
        self.slices.get(id)
    }

    // Whether an element at a place is the first of its id.
    fn is_first(&self, place: usize, element: &ElementDef) -> bool
        ensures { result ≡ is_at place (id_place self.now element.now.id) }
    {
        match self.ids.get(element.id()) {
            Some(first) => place == first,
            None => false,
        }
    }

    /// The first element whose id an element before it has.
    pub fn repeated(&self) -> Option<&ElementDef>
        ensures { is_none result ≡ ids_differ self.now }
    {
        for (place, element) in self.all.iter().enumerate() {
            if !self.is_first(place, element) {
                return Some(element);
            }
        }
        None
    }

    /// These elements.
    pub(crate) fn of(alloc: Global, elements: Vec<ElementDef>) -> Result<Elements, NoMemory>
        ensures { IfOk result (λ x. x ≡ elements.items) }
    {
        let mut ids = Index::new(alloc);
        let mut children = GroupTable::new(alloc);
        let mut slices = GroupTable::new(alloc);
        let mut sliced = GroupTable::new(alloc);
        for (place, element) in elements.iter().enumerate() {
            put(
                alloc,
                &mut ids,
                &mut children,
                &mut slices,
                &mut sliced,
                element,
                place,
            )?;
        }
        Ok(Elements {
            all: elements,
            ids,
            children,
            slices,
            sliced,
        })
    }
}
