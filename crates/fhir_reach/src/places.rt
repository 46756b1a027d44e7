//! The places of the definitions of each type.

ghost use Rattle.std.specs.Prelude.{◌≡◌, [], OnOk, IfOk};
ghost use Rattle.fhir_json.specs.Views.{tree_of};
ghost use Rattle.fhir_reach.specs.Places.{AddsPlace, AddsIfType, places_under, HasPlaces};

use fhir_definition::is_type_definition;
use fhir_inheritance::Named;
use fhir_json::{Json, NoMemory};
use fhir_package::{Kind, Package};
use std::alloc::Global;
use std::marker::Model;

/// Places under the codes of types, those of each code in the order in which they were added.
#[derive(Drop)]
pub(crate) struct TypePlaces {
    places: Named<Vec<usize>>,
}

impl Model for TypePlaces {
    ghost use Rattle.std.specs.Prelude.{map};
    ghost use Rattle.fhir_reach.specs.Places.{PlacesByCode};

    ghost Value = { PlacesByCode };

    ghost view = { λ t. map (λ e. (e.0, e.1.items)) t.places };
}

impl TypePlaces {
    fn new(alloc: Global) -> TypePlaces
        ensures { result ≡ [] }
    {
        TypePlaces {
            places: Named::new(alloc),
        }
    }

    /// The places under a code.
    pub(crate) fn get(&self, code: &str) -> &[usize]
        ensures { result.now ≡ places_under self.now code.now }
    {
        match self.places.get(code) {
            Some(places) => places,
            None => Default::default(),
        }
    }

    fn add(&mut self, alloc: Global, code: &str, place: usize) -> Result<(), NoMemory>
        ensures { OnOk result (AddsPlace self.old self.new code.now place) }
    {
        let mut places = match self.places.take(code) {
            Some(places) => places,
            None => Vec::new(alloc),
        };
        places.push(place)?;
        let code = String::from_str(alloc, code)?;
        self.places.put(code, places)?;
        Ok(())
    }

    fn add_if_type(
        &mut self,
        alloc: Global,
        definition: &Json<'_>,
        place: usize,
    ) -> Result<(), NoMemory>
        ensures { OnOk result (AddsIfType self.old self.new (tree_of definition.now) place) }
    {
        if !is_type_definition(definition) {
            return Ok(());
        }
        self.add(alloc, definition.text_at("type"), place)
    }

    /// The places of a package's type definitions.
    pub(crate) fn of(alloc: Global, package: &Package<'_>) -> Result<TypePlaces, NoMemory>
        ensures { IfOk result (λ t. HasPlaces t «package».now.structure_definitions) }
    {
        let mut types = TypePlaces::new(alloc);
        for place in 0..package.len(Kind::StructureDefinition) {
            if let Some((_, definition)) = package.at(Kind::StructureDefinition, place) {
                types.add_if_type(alloc, definition, place)?;
            }
        }
        Ok(types)
    }
}
