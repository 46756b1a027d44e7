//! A plan whose children are found by their names.

use crate::demand::path_name;
use crate::plan::Planned;
use fhir_json::NoMemory;
use std::alloc::Global;
use std::collections::BTreeMap;

/// How many children of each name an item gets, found by the names that these have in a path.
#[derive(Drop)]
pub(crate) struct NamedPlan<'s> {
    planned: Vec<Planned<'s>>,
    places: BTreeMap<&'s str, usize>,
}

// The first place of each name.
fn places_of<'s>(
    alloc: Global,
    planned: &[Planned<'s>],
) -> Result<BTreeMap<&'s str, usize>, NoMemory> {
    let mut places = BTreeMap::new(alloc);
    for (place, child) in planned.iter().enumerate() {
        places.entry(path_name(child.name))?.or_insert(place);
    }
    Ok(places)
}

impl<'s> NamedPlan<'s> {
    /// That of these children. The one refusal is want of memory.
    pub(crate) fn of(alloc: Global, planned: Vec<Planned<'s>>) -> Result<NamedPlan<'s>, NoMemory> {
        let places = places_of(alloc, &planned)?;
        Ok(NamedPlan { planned, places })
    }

    /// The first children of a name.
    pub(crate) fn get(&self, name: &str) -> Option<&Planned<'s>> {
        self.planned.get(*self.places.get(name)?)
    }

    /// Settles how many there are of a name, as far as there may be so many.
    pub(crate) fn settle(&mut self, name: &str, count: usize) {
        let Some(place) = self.places.get(name).copied() else {
            return;
        };
        if place < self.planned.len() {
            self.planned[place] = self.planned[place].settled(count);
        }
    }

    /// The children, in their order.
    pub(crate) fn into_planned(self) -> Vec<Planned<'s>> {
        self.planned
    }
}
