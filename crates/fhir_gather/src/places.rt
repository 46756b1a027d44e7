//! Places of definitions under their kinds and urls.

ghost use Rattle.std.specs.Prelude.{◌≡◌, OnOk, OnErr};
ghost use Rattle.fhir_gather.specs.Places.{no_places, places_of, place_at, PutsAt};

use fhir_names::Index;
use fhir_package::Kind;
use std::alloc::{AllocError, Global};
use std::marker::Model;

/// Of each kind places under urls.
#[derive(Drop)]
pub(crate) struct Places {
    structure_definitions: Index,
    value_sets: Index,
    code_systems: Index,
}

impl Model for Places {
    ghost use Rattle.fhir_gather.specs.Places.{PlacesByKind};

    ghost Value = { PlacesByKind };

    ghost view = { λ p. record {
      structure_definitions = p.structure_definitions;
      value_sets = p.value_sets;
      code_systems = p.code_systems;
    } };
}

impl Places {
    /// No places, which allocates nothing.
    pub(crate) fn new(alloc: Global) -> Places
        ensures { result ≡ no_places }
    {
        Places {
            structure_definitions: Index::new(alloc),
            value_sets: Index::new(alloc),
            code_systems: Index::new(alloc),
        }
    }

    fn of_kind(&self, kind: Kind) -> &Index
        ensures { result.now ≡ places_of kind self.now }
    {
        match kind {
            Kind::StructureDefinition => &self.structure_definitions,
            Kind::ValueSet => &self.value_sets,
            Kind::CodeSystem => &self.code_systems,
        }
    }

    /// The place of a kind and url, if it has one.
    pub(crate) fn get(&self, kind: Kind, url: &str) -> Option<usize>
        ensures { result ≡ place_at kind url.now self.now }
    {
        self.of_kind(kind).get(url)
    }

    /// Gives a kind and url a place, in place of the one that it has. The one refusal is want of memory, which changes nothing.
    pub(crate) fn put(
        &mut self,
        alloc: Global,
        kind: Kind,
        url: &str,
        place: usize,
    ) -> Result<(), AllocError>
        ensures put { OnOk result (PutsAt self.old self.new kind url.now place) }
        ensures unchanged { OnErr result (self.new ≡ self.old) }
    {
        match kind {
            Kind::StructureDefinition => self.structure_definitions.put(alloc, url, place),
            Kind::ValueSet => self.value_sets.put(alloc, url, place),
            Kind::CodeSystem => self.code_systems.put(alloc, url, place),
        }
    }
}
