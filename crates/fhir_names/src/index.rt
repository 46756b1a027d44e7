//! Places under names.

ghost use Rattle.std.specs.Prelude.{◌≡◌, ℕ, List, [], ◌∷◌, ◌++◌, length, OnOk, OnErr};
ghost use Rattle.fhir_names.specs.Places.{place_of, Puts, Sets, Removes, Finds};

use std::alloc::{AllocError, Global};
use std::collections::BTreeMap;
use std::marker::Model;

/// Places under names, each a place in some list. The names are kept in the order of their bytes, so that a look-up takes
/// time logarithmic in their number whatever they are.
pub struct Index {
    places: BTreeMap<String, usize>,
}

// A derived drop would be proved anew in each crate that owns one.
impl Drop for Index {
    fn drop(self) {
        let Index { places: _places } = self;
    }
}

impl Model for Index {
    ghost use Rattle.fhir_names.specs.Places.{Places, by_name};

    ghost Value = { Places };

    ghost view = { λ x. by_name x.places.entries };
}

impl Index {
    /// No places, which allocates nothing.
    pub fn new(alloc: Global) -> Index
        ensures { result ≡ [] }
    {
        Index {
            places: BTreeMap::new(alloc),
        }
    }

    /// The place of a name, if it has one.
    pub fn get(&self, name: &str) -> Option<usize>
        ensures { result ≡ place_of self.now name.now }
    {
        self.places.get(name).copied()
    }

    /// Gives a name a place, in place of the one that it has. The one refusal is want of memory, which changes nothing.
    pub fn put(&mut self, alloc: Global, name: &str, place: usize) -> Result<(), AllocError>
        ensures put { OnOk result (Puts self.old self.new name.now place) }
        ensures unchanged { OnErr result (self.new ≡ self.old) }
    {
        let name = String::from_str(alloc, name)?;
        self.places.insert(name, place)?;
        Ok(())
    }

    /// Gives a name a place, unless it has one: so names that are added in turn have the places at which they first stand.
    /// The one refusal is want of memory, which changes nothing.
    pub fn add(&mut self, alloc: Global, name: &str, place: usize) -> Result<(), AllocError>
        ensures added { OnOk result ((names : List (List ℕ)) → Finds self.old names → length names ≡ place
            → Finds self.new (names ++ name.now ∷ [])) }
        ensures unchanged { OnErr result (self.new ≡ self.old) }
    {
        if self.get(name).is_some() {
            return Ok(());
        }
        self.put(alloc, name, place)?;
        Ok(())
    }

    /// Gives a name that has a place another one, and does nothing where it has none. It takes no memory.
    pub fn set(&mut self, name: &str, place: usize)
        ensures { Sets self.old self.new name.now place }
    {
        if let Some(there) = self.places.get_mut(name) {
            *there = place;
        }
    }

    /// Takes a name's place away, if it has one. It takes no memory.
    pub fn remove(&mut self, name: &str)
        ensures { Removes self.old self.new name.now }
    {
        let _place = self.places.remove(name);
    }
}
