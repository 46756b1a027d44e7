//! The children of an item by their names.

ghost use Rattle.std.specs.Prelude.{◌≡◌, ℕ, List, [], ◌∷◌, ◌++◌, if◌then◌else◌, IfOk, OnOk};
ghost use Rattle.std.specs.Str.{bytes_eq};
ghost use Rattle.fhir_instance.specs.Items.{kids_in};
ghost use Rattle.fhir_instance.specs.View.{item_of, named_in};
ghost use Rattle.fhir_conformance.specs.Asks.{places_from};
ghost use Rattle.fhir_conformance.specs.Views.{places_at, places_in, IsIndexOf};

use fhir_instance::{Kid, Typed};
use fhir_json::NoMemory;
use std::alloc::Global;
use std::collections::BTreeMap;
use std::marker::Model;

/// The positions of an item's children, found by the names of their elements. A look-up takes time logarithmic in the
/// number of names, whatever they are.
#[derive(Drop)]
pub struct KidsByName<'a> {
    places: BTreeMap<&'a str, Vec<usize>>,
}

impl<'a> Model for KidsByName<'a> {
    ghost use Rattle.fhir_conformance.specs.Views.{Places, places_by_name};

    ghost Value = { Places };

    ghost view = { λ c. places_by_name c.places.entries };
}

// Puts a position behind those under a name.
fn put<'a>(
    alloc: Global,
    places: &mut BTreeMap<&'a str, Vec<usize>>,
    name: &'a str,
    position: usize,
) -> Result<(), NoMemory>
    ensures { OnOk result ((other : List ℕ) → places_at other places.new
        ≡ (if bytes_eq other name.now then places_at other places.old ++ position ∷ [] else places_at other places.old)) }
{
    places
        .entry(name)?
        .or_insert(Vec::new(alloc))
        .push(position)?;
    Ok(())
}

// The positions of children under their names.
fn places_by_name<'a>(
    alloc: Global,
    kids: &'a [Kid<'_, '_>],
) -> Result<BTreeMap<&'a str, Vec<usize>>, NoMemory>
    ensures { IfOk result (λ places. (name : List ℕ)
        → places_at name places ≡ places_from 0 name (kids_in (named_in kids.now))) }
{
    let mut places = BTreeMap::new(alloc);
    for (position, kid) in kids.iter().enumerate() {
        put(alloc, &mut places, kid.name(), position)?;
    }
    Ok(places)
}

impl<'a> KidsByName<'a> {
    /// The children of an item, in time near linear in their number. The one refusal is want of memory.
    pub fn of(alloc: Global, item: &'a Typed<'_, '_>) -> Result<KidsByName<'a>, NoMemory>
        ensures { IfOk result (λ kids_by_name. IsIndexOf (item_of item.now) kids_by_name) }
    {
        let places = places_by_name(alloc, item.kids())?;
        Ok(KidsByName { places })
    }

    /// The positions of the children of a name among all children, in order.
    pub fn places(&self, name: &str) -> &[usize]
        ensures { result.now ≡ places_in self.now name.now }
    {
        match self.places.get(name) {
            Some(places) => places,
            None => Default::default(),
        }
    }
}
