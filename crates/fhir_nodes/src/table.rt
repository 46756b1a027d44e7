//! The definitions of a package, found by their urls and their types.

ghost use Rattle.std.specs.Prelude.{◌≡◌, ◌∷◌, List, IfOk, OnOk};
ghost use Rattle.std.specs.Option.{option_copied};
ghost use Rattle.std.specs.List.{slice_get};
ghost use Rattle.fhir_package.specs.Definitions.{ByUrl};
ghost use Rattle.fhir_definition.specs.Definition.{Definition as Shown, definitions_from};
ghost use Rattle.fhir_nodes.specs.Types.{type_place};
ghost use Rattle.fhir_nodes.specs.Urls.{url_place};
ghost use Rattle.fhir_nodes.specs.Tables.{FindsTypes, FindsUrls, ArePlaced};

use fhir_definition::Definition;
use fhir_json::NoMemory;
use fhir_names::Index;
use fhir_package::{Kind, Package};
use std::alloc::{AllocError, Global};
use std::marker::Model;

/// The definitions of a package.
#[derive(Drop)]
pub struct Table {
    definitions: Vec<Definition>,
    types: Index,
    urls: Index,
}

impl Model for Table {
    ghost use Rattle.std.specs.Prelude.{List};
    ghost use Rattle.fhir_definition.specs.Definition.{Definition as Shown};

    ghost Value = { List Shown };

    ghost use Rattle.fhir_json.specs.Coding.{tree_code};
    ghost use Rattle.std.specs.Coded.{codes};

    ghost coded = { Prim.hlevel (codes, tree_code) };

    ghost use Rattle.fhir_nodes.specs.Tables.{FindsTypes, FindsUrls, ArePlaced};

    ghost view = { λ t. t.definitions.items };

    ghost invariant = { λ t. FindsTypes t.types t.definitions.items
        × FindsUrls t.urls t.definitions.items
        × ArePlaced t.definitions.items };
}

fn put_type(alloc: Global, index: &mut Index, definition: &Definition) -> Result<(), AllocError>
    ensures { OnOk result ((ds : List Shown) → FindsTypes index.old ds → FindsTypes index.new (definition.now ∷ ds)) }
{
    if definition.is_type() {
        index.put(alloc, definition.type_code(), definition.place())?;
    }
    Ok(())
}

fn put_url(alloc: Global, index: &mut Index, definition: &Definition) -> Result<(), AllocError>
    ensures { OnOk result ((ds : List Shown) → FindsUrls index.old ds → FindsUrls index.new (definition.now ∷ ds)) }
{
    index.put(alloc, definition.url(), definition.place())?;
    Ok(())
}

// Filled from the last to the first, so that the first type definition of a type stays.
fn types_of(alloc: Global, definitions: &[Definition]) -> Result<Index, AllocError>
    ensures { IfOk result (λ x. FindsTypes x definitions.now) }
{
    let mut index = Index::new(alloc);
    let mut i = definitions.len();
    while i > 0 {
        i -= 1;
        let definition = &definitions[i];
        put_type(alloc, &mut index, definition)?;
    }
    Ok(index)
}

fn urls_of(alloc: Global, definitions: &[Definition]) -> Result<Index, AllocError>
    ensures { IfOk result (λ x. FindsUrls x definitions.now) }
{
    let mut index = Index::new(alloc);
    let mut i = definitions.len();
    while i > 0 {
        i -= 1;
        let definition = &definitions[i];
        put_url(alloc, &mut index, definition)?;
    }
    Ok(index)
}

fn definitions_of(alloc: Global, from: &Package) -> Result<Vec<Definition>, NoMemory>
    ensures { IfOk result (λ v. v.items ≡ definitions_from 0 from.now.structure_definitions) }
{
    let mut definitions = Vec::new(alloc);
    for place in 0..from.len(Kind::StructureDefinition) {
        let Some((url, json)) = from.at(Kind::StructureDefinition, place) else {
            return Ok(definitions);
        };
        let definition = Definition::of(alloc, place, url, json)?;
        definitions.push(definition)?;
    }
    Ok(definitions)
}

impl Table {
    /// The definitions of a package.
    pub fn of(alloc: Global, from: &Package) -> Result<Table, NoMemory>
        ensures { IfOk result (λ t. t ≡ definitions_from 0 from.now.structure_definitions) }
    {
        let definitions = definitions_of(alloc, from)?;
        let types = types_of(alloc, &definitions)?;
        let urls = urls_of(alloc, &definitions)?;
        Ok(Table {
            definitions,
            types,
            urls,
        })
    }

    /// The definition at a place.
    pub fn definition(&self, place: usize) -> Option<&Definition>
        ensures { option_copied result ≡ slice_get self.now place }
    {
        self.definitions.get(place)
    }

    /// The definitions, in order.
    pub fn definitions(&self) -> &[Definition]
        ensures { result.now ≡ self.now }
    {
        &self.definitions
    }

    /// The place of the first type definition of a type.
    pub fn type_place(&self, code: &str) -> Option<usize>
        ensures { result ≡ type_place self.now code.now }
    {
        self.types.get(code)
    }

    /// The place of the definition at a url.
    pub fn url_place(&self, url: &str) -> Option<usize>
        ensures { result ≡ url_place self.now url.now }
    {
        self.urls.get(url)
    }

    /// Each definition stands at its place.
    pub fn are_placed(&self)
        ensures { ArePlaced self.now }
    {
        let _definitions = &self.definitions;
    }
}
