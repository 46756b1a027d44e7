//! The elements of a snapshot, found by their ids.

ghost use Rattle.std.specs.Prelude.{◌≡◌, ◌∷◌, List, ℕ, is_some, not, map, IfOk, OnOk, length, suc, ◌==◌};
ghost use Rattle.std.specs.List.{list_all, count_by, slice_get};
ghost use Rattle.fhir_json.specs.Views.{text_seen};
ghost use Rattle.fhir_elements.specs.declared.reason.Reason.TheVariants.{WrongId, NoTree};
ghost use Rattle.fhir_elements.specs.Causes.{blamed_reason, reason_unless, is_blame_among};
ghost use Rattle.fhir_elements.specs.Element.{Element};
ghost use Rattle.fhir_definition.specs.Snapshot.{id_place, is_at, are_first, ids_differ, up_of, is_root, has_parent, is_tree, root_place, child_place, slice_place};
ghost use Rattle.fhir_definition.specs.Views.{FindsIds};

use fhir_elements::{Blame, Cause, ElementDef};
use fhir_names::{Index, front_of, slice_of, sliced_of};
use std::alloc::{AllocError, Global};
use std::marker::Model;

/// The elements of a snapshot, which are found by their ids.
#[derive(Drop)]
pub(crate) struct ElementsById {
    elements: Vec<ElementDef>,
    ids: Index,
}

impl Model for ElementsById {
    ghost use Rattle.std.specs.Prelude.{List};
    ghost use Rattle.fhir_elements.specs.Element.{Element};

    ghost Value = { List Element };

    ghost use Rattle.fhir_json.specs.Coding.{tree_code};
    ghost use Rattle.std.specs.Coded.{codes};

    ghost coded = { Prim.hlevel (codes, tree_code) };

    ghost use Rattle.fhir_definition.specs.Views.{FindsIds};

    ghost view = { λ s. s.elements.items };

    ghost invariant = { λ s. FindsIds s.ids 0 s.elements.items };
}

fn put_id(
    alloc: Global,
    index: &mut Index,
    element: &ElementDef,
    place: usize,
) -> Result<(), AllocError>
    ensures { OnOk result ((es : List Element) → FindsIds index.old (suc place) es → FindsIds index.new place (element.now ∷ es)) }
{
    index.put(alloc, element.id(), place)?;
    Ok(())
}

// Filled from the last to the first, so that the first of an id stays.
fn ids_of(alloc: Global, elements: &[ElementDef]) -> Result<Index, AllocError>
    ensures { IfOk result (λ x. FindsIds x 0 elements.now) }
{
    let mut index = Index::new(alloc);
    let mut i = elements.len();
    while i > 0 {
        i -= 1;
        let element = &elements[i];
        put_id(alloc, &mut index, element, i)?;
    }
    Ok(index)
}

/// The id under which an element of that id stands: for a slice its element's, and else the id in front of its last name. A
/// root has none.
pub fn up_of(id: &str) -> Option<&str>
    ensures { text_seen result ≡ up_of id.now }
{
    if slice_of(id).is_some() {
        return sliced_of(id);
    }
    front_of(id)
}

/// Whether an element is a root: its id has no element in front of it.
pub fn is_root(element: &ElementDef) -> bool
    ensures { result ≡ is_root element.now }
{
    up_of(element.id()).is_none()
}

fn is_at(place: usize, at: Option<usize>) -> bool
    ensures { result ≡ is_at place at }
{
    at.is_some_and(|at| place == at)
}

impl ElementsById {
    /// These elements.
    pub(crate) fn of(alloc: Global, elements: Vec<ElementDef>) -> Result<ElementsById, AllocError>
        ensures { IfOk result (λ s. s ≡ elements.items) }
    {
        let ids = ids_of(alloc, &elements)?;
        Ok(ElementsById { elements, ids })
    }

    /// The elements.
    pub(crate) fn elements(&self) -> &[ElementDef]
        ensures { result.now ≡ self.now }
    {
        &self.elements
    }

    /// The place of the first element with an id.
    pub(crate) fn id_place(&self, id: &str) -> Option<usize>
        ensures { result ≡ id_place self.now id.now }
    {
        self.ids.get(id)
    }

    fn is_first(&self, place: usize, element: &ElementDef) -> bool
        ensures { result ≡ is_at place (id_place self.now element.now.id) }
    {
        is_at(place, self.id_place(element.id()))
    }

    /// The first element whose id an element before it has.
    pub(crate) fn blame_of_ids(&self) -> Option<Blame>
        ensures reason { blamed_reason result ≡ reason_unless (ids_differ self.now) WrongId }
        ensures element { is_blame_among (length self.now) result }
    {
        for (place, element) in self.elements().iter().enumerate() {
            if !self.is_first(place, element) {
                return Some(Blame::at(place, Cause::RepeatedId));
            }
        }
        None
    }

    fn has_parent(&self, element: &ElementDef) -> bool
        ensures { result ≡ has_parent self.now element.now }
    {
        match up_of(element.id()) {
            Some(up) => self.id_place(up).is_some(),
            None => true,
        }
    }

    fn blame_of_parents(&self) -> Option<Blame>
        ensures reason { blamed_reason result ≡ reason_unless (list_all (has_parent self.now) self.now) NoTree }
        ensures element { is_blame_among (length self.now) result }
    {
        for (place, element) in self.elements().iter().enumerate() {
            if !self.has_parent(element) {
                return Some(Blame::at(place, Cause::MissingParent));
            }
        }
        None
    }

    /// What is to blame where a parent isn't there, or where there isn't one root.
    pub(crate) fn tree_blame(&self) -> Option<Blame>
        ensures reason { blamed_reason result ≡ reason_unless (is_tree self.now) NoTree }
        ensures element { is_blame_among (length self.now) result }
    {
        if let Some(blame) = self.blame_of_parents() {
            return Some(blame);
        }
        blame_of_roots(self.elements())
    }

    /// The place of the root.
    pub(crate) fn root_place(&self) -> Option<usize>
        ensures { result ≡ root_place self.now }
    {
        self.elements.iter().position(|element| is_root(element))
    }

    fn child_place(&self, element: &ElementDef) -> Option<usize>
        ensures { result ≡ child_place self.now element.now }
    {
        if slice_of(element.id()).is_some() {
            return None;
        }
        match front_of(element.id()) {
            Some(front) => self.id_place(front),
            None => None,
        }
    }

    fn slice_place(&self, element: &ElementDef) -> Option<usize>
        ensures { result ≡ slice_place self.now element.now }
    {
        match sliced_of(element.id()) {
            Some(sliced) => self.id_place(sliced),
            None => None,
        }
    }

    /// For each element the place of the one whose child it is.
    pub(crate) fn child_places(&self, alloc: Global) -> Result<Vec<Option<usize>>, AllocError>
        ensures { IfOk result (λ v. v.items ≡ map (child_place self.now) self.now) }
    {
        let mut places = Vec::new(alloc);
        for element in self.elements() {
            places.push(self.child_place(element))?;
        }
        Ok(places)
    }

    /// For each element the place of the one whose slice it is.
    pub(crate) fn slice_places(&self, alloc: Global) -> Result<Vec<Option<usize>>, AllocError>
        ensures { IfOk result (λ v. v.items ≡ map (slice_place self.now) self.now) }
    {
        let mut places = Vec::new(alloc);
        for element in self.elements() {
            places.push(self.slice_place(element))?;
        }
        Ok(places)
    }
}

fn blame_of_roots(elements: &[ElementDef]) -> Option<Blame>
    ensures reason { blamed_reason result ≡ reason_unless (count_by is_root elements.now == 1) NoTree }
    ensures element { is_blame_among (length elements.now) result }
{
    let mut has_root = false;
    for (place, element) in elements.iter().enumerate() {
        let is_root = is_root(element);
        if has_root && is_root {
            return Some(Blame::at(place, Cause::SecondRoot));
        }
        has_root = has_root || is_root;
    }
    if has_root {
        None
    } else {
        Some(Blame::whole(Cause::NoRoot))
    }
}
