//! The definitions of a package.

ghost use Rattle.std.specs.Prelude.{◌≡◌, length, take, slice_get, true, is_some, IfOk, OnOk, OnErr};
ghost use Rattle.std.specs.Map.{keys_of};
ghost use Rattle.std.specs.Option.{option_map, option_map_or};
ghost use Rattle.fhir_json.specs.Views.{tree_of, tree_seen};
ghost use Rattle.fhir_json.specs.Memory.{Gives};
ghost use Rattle.fhir_package.specs.Definitions.{no_definitions, of_kind, at_url, place_in};
ghost use Rattle.fhir_package.specs.Canonical.{at_version, named_by};
ghost use Rattle.fhir_package.specs.Packing.{with_definition};
ghost use Rattle.fhir_package.specs.Changing.{sound_definition, put_in, put_each, without, has, has_url, with_tree};
ghost use Rattle.fhir_package.specs.Keeping.{with_place, with_places, have_places, Extends};

use crate::canonical::is_of_version;
use crate::definitions::Definition;
use crate::kind::Kind;
use crate::url_map::{UrlEntry, UrlMap};
use fhir_json::{Json, NoMemory};
use fhir_names::Canonical;
use std::alloc::Global;
use std::marker::Model;

/// The definitions of a package, of each kind in the order in which they were put in, under their urls. Their texts may borrow
/// from the bytes of the files that they were read from.
pub struct Package<'a> {
    structure_definitions: UrlMap<'a>,
    value_sets: UrlMap<'a>,
    code_systems: UrlMap<'a>,
}

// A derived drop would be proved anew in each crate that owns one.
impl Drop for Package<'_> {
    fn drop(self) {
        let Package {
            structure_definitions: _structure_definitions,
            value_sets: _value_sets,
            code_systems: _code_systems,
        } = self;
    }
}

impl<'a> Model for Package<'a> {
    ghost use Rattle.fhir_package.specs.Definitions.{Definitions};

    ghost Value = { Definitions };

    ghost use Rattle.fhir_json.specs.Coding.{tree_code};
    ghost use Rattle.std.specs.Coded.{codes};

    ghost coded = { Prim.hlevel (codes, tree_code) };

    ghost view = { λ p. record {
      structure_definitions = p.structure_definitions;
      value_sets = p.value_sets;
      code_systems = p.code_systems;
    } };
}

impl<'a> Package<'a> {
    /// A package of no definitions, which allocates nothing.
    pub fn new(alloc: Global) -> Package<'a>
        ensures { result ≡ no_definitions }
    {
        Package {
            structure_definitions: UrlMap::new(alloc),
            value_sets: UrlMap::new(alloc),
            code_systems: UrlMap::new(alloc),
        }
    }

    /// The definition that a canonical names: that of its url, where it has no version or the one behind `|`. A text
    /// that is no canonical names none.
    pub fn get<'p>(&'p self, kind: Kind, canonical: &str) -> Option<&'p Json<'a>>
        ensures { tree_seen result ≡ named_by kind canonical.now self.now }
    {
        match Canonical::parse(canonical) {
            Ok(canonical) => self.at_version(kind, &canonical),
            Err(_) => None,
        }
    }

    fn at_version<'p>(&'p self, kind: Kind, canonical: &Canonical<'_>) -> Option<&'p Json<'a>>
        ensures { tree_seen result ≡ at_version kind self.now canonical.now }
    {
        let tree = self.at_url(kind, canonical.url())?;
        match canonical.version() {
            Some(version) if !is_of_version(tree, version) => None,
            _ => Some(tree),
        }
    }

    fn of_kind(&self, kind: Kind) -> &UrlMap<'a>
        ensures { result.now ≡ of_kind kind self.now }
    {
        match kind {
            Kind::StructureDefinition => &self.structure_definitions,
            Kind::ValueSet => &self.value_sets,
            Kind::CodeSystem => &self.code_systems,
        }
    }

    /// The definition at a url.
    pub fn at_url<'p>(&'p self, kind: Kind, url: &str) -> Option<&'p Json<'a>>
        ensures { tree_seen result ≡ at_url kind url.now self.now }
    {
        self.of_kind(kind).get(url)
    }

    /// The place of the definition at a url among those of its kind.
    pub fn place(&self, kind: Kind, url: &str) -> Option<usize>
        ensures { result ≡ place_in kind url.now self.now }
    {
        self.of_kind(kind).place(url)
    }

    /// How many definitions of a kind there are.
    pub fn len(&self, kind: Kind) -> usize
        ensures { result ≡ length (of_kind kind self.now) }
    {
        self.of_kind(kind).len()
    }

    /// The url and the tree at a place.
    pub fn at<'p>(&'p self, kind: Kind, place: usize) -> Option<(&'p str, &'p Json<'a>)>
        ensures { option_map (λ e. (e.0.now, tree_of e.1.now)) result
            ≡ slice_get (of_kind kind self.now) place }
    {
        self.of_kind(kind).at(place)
    }

    /// The urls of a kind, in order.
    pub fn names(&self, kind: Kind) -> Names<'_, 'a>
        ensures { result ≡ keys_of (of_kind kind self.now) }
    {
        Names {
            rest: self.of_kind(kind).entries(),
        }
    }

    /// Puts a tree behind the others of a kind, under a url. It doesn't look at the tree, nor whether the url is there: keep the
    /// package to sound definitions and to each url once by giving it a sound definition of that kind and url that isn't there.
    /// The one refusal is want of memory, which changes nothing.
    pub fn add(
        &mut self,
        alloc: Global,
        kind: Kind,
        url: &str,
        tree: Json<'a>,
    ) -> Result<(), NoMemory>
        ensures added { OnOk result (self.new
            ≡ with_definition (record { kind = kind; url = url.now; tree = tree_of tree.entry }) self.old) }
        ensures unchanged { OnErr result (self.new ≡ self.old) }
    {
        match kind {
            Kind::StructureDefinition => self.structure_definitions.push(alloc, url, tree),
            Kind::ValueSet => self.value_sets.push(alloc, url, tree),
            Kind::CodeSystem => self.code_systems.push(alloc, url, tree),
        }
    }

    // Puts a definition behind the others of its kind.
    pub(crate) fn push(&mut self, alloc: Global, definition: Definition<'a>) -> Result<(), NoMemory>
        ensures { OnOk result (self.new ≡ with_definition definition.entry self.old) }
    {
        let Definition { kind, url, tree } = definition;
        self.add(alloc, kind, url.as_str(), tree)
    }

    // Puts a definition in place of the one of its kind and url, or behind the others of its kind.
    fn put_held(&mut self, alloc: Global, definition: Definition<'a>) -> Result<(), NoMemory>
        ensures put { OnOk result (self.new ≡ put_in definition.entry self.old) }
        ensures unchanged { OnErr result (self.new ≡ self.old) }
    {
        let Definition { kind, url, tree } = definition;
        match kind {
            Kind::StructureDefinition => self.structure_definitions.put(alloc, url.as_str(), tree),
            Kind::ValueSet => self.value_sets.put(alloc, url.as_str(), tree),
            Kind::CodeSystem => self.code_systems.put(alloc, url.as_str(), tree),
        }
    }

    /// Puts a definition in place of the one of its kind and url, or behind the others of its kind, and says that it is put.
    /// A tree that isn't sound or is no definition isn't put, and `false` says so. The one refusal is want of memory, which
    /// changes nothing.
    pub fn put(&mut self, alloc: Global, tree: Json<'a>) -> Result<bool, NoMemory>
        ensures told { IfOk result (λ done. done ≡ is_some (sound_definition (tree_of tree.entry))) }
        ensures put { OnOk result (self.new
            ≡ option_map_or (λ d. put_in d self.old) (sound_definition (tree_of tree.entry)) self.old) }
        ensures unchanged { OnErr result (self.new ≡ self.old) }
    {
        match Definition::of(alloc, tree)? {
            Some(definition) => {
                self.put_held(alloc, definition)?;
                Ok(true)
            }
            None => Ok(false),
        }
    }

    // Puts a place holder behind the others of a definition's kind, under its url, unless one of that kind and url is there.
    fn keep_place(&mut self, alloc: Global, definition: &Definition<'_>) -> Result<(), NoMemory>
        ensures kept { OnOk result (self.new ≡ with_place definition.now self.old) }
        ensures unchanged { OnErr result (self.new ≡ self.old) }
    {
        match self.place(definition.kind(), definition.url()) {
            Some(_) => Ok(()),
            None => self.add(alloc, definition.kind(), definition.url(), Json::Null),
        }
    }

    // Where memory runs out, the places that are kept until then stay.
    fn keep_places(&mut self, alloc: Global, definitions: &[Definition<'_>]) -> Result<(), NoMemory>
        ensures kept { OnOk result (self.new ≡ with_places definitions.now self.old) }
        ensures extended { Extends self.old self.new }
    {
        for definition in definitions {
            self.keep_place(alloc, definition)?;
        }
        Ok(())
    }

    // Takes out all but so many of the first of each kind.
    fn truncate(&mut self, structure_definitions: usize, value_sets: usize, code_systems: usize)
        ensures { self.new ≡ record {
          structure_definitions = take structure_definitions self.old.structure_definitions;
          value_sets = take value_sets self.old.value_sets;
          code_systems = take code_systems self.old.code_systems;
        } }
    {
        self.structure_definitions.truncate(structure_definitions);
        self.value_sets.truncate(value_sets);
        self.code_systems.truncate(code_systems);
    }

    // Puts a definition in place of the one of its kind and url.
    fn set(&mut self, definition: Definition<'a>)
        ensures { has definition.entry.kind definition.entry.url self.old ≡ true
            → self.new ≡ put_in definition.entry self.old }
    {
        let Definition { kind, url, tree } = definition;
        let Some(place) = self.place(kind, url.as_str()) else {
            return;
        };
        self.replace(kind, place, tree);
    }

    fn set_each(&mut self, definitions: Vec<Definition<'a>>)
        ensures { have_places definitions.entry.items self.old ≡ true
            → self.new ≡ put_each definitions.entry.items self.old }
    {
        for definition in definitions {
            self.set(definition);
        }
    }

    /// Puts definitions in, one after the other, each in place of the one of its kind and url or behind the others of its kind.
    /// The one refusal is want of memory, which changes nothing: then none is put in.
    pub fn put_all(
        &mut self,
        alloc: Global,
        definitions: Vec<Definition<'a>>,
    ) -> Result<(), NoMemory>
        ensures put { OnOk result (self.new ≡ put_each definitions.entry.items self.old) }
        ensures unchanged { OnErr result (self.new ≡ self.old) }
    {
        let structure_definitions = self.len(Kind::StructureDefinition);
        let value_sets = self.len(Kind::ValueSet);
        let code_systems = self.len(Kind::CodeSystem);
        if self.keep_places(alloc, &definitions).is_err() {
            self.truncate(structure_definitions, value_sets, code_systems);
            return Err(NoMemory);
        }
        self.set_each(definitions);
        Ok(())
    }

    /// Takes out the definitions of a url, of each kind, and says whether there was one. It takes no memory.
    pub fn remove(&mut self, url: &str) -> bool
        ensures gone { self.new ≡ without url.now self.old }
        ensures told { result ≡ has_url url.now self.old }
    {
        let structure_definition = self.structure_definitions.remove(url);
        let value_set = self.value_sets.remove(url);
        let code_system = self.code_systems.remove(url);
        structure_definition | value_set | code_system
    }

    /// Puts a tree in place of the one at a place of a kind, under the same url. Where there is none, nothing is changed. It
    /// takes no memory, and doesn't look at the tree: keep the package to sound definitions by giving it one of that kind and
    /// url.
    pub fn replace(&mut self, kind: Kind, place: usize, tree: Json<'a>)
        ensures { self.new ≡ with_tree kind place (tree_of tree.entry) self.old }
    {
        match kind {
            Kind::StructureDefinition => self.structure_definitions.replace(place, tree),
            Kind::ValueSet => self.value_sets.replace(place, tree),
            Kind::CodeSystem => self.code_systems.replace(place, tree),
        }
    }

    /// The same package in memory of its own: it borrows from nothing.
    pub fn detach(&self, alloc: Global) -> Result<Package<'static>, NoMemory>
        ensures { Gives (λ p. p) result self.now }
    {
        Ok(Package {
            structure_definitions: self.structure_definitions.detach(alloc)?,
            value_sets: self.value_sets.detach(alloc)?,
            code_systems: self.code_systems.detach(alloc)?,
        })
    }
}

/// The urls of a kind, in order.
#[derive(Drop)]
pub struct Names<'p, 'a> {
    rest: &'p [UrlEntry<'a>],
}

impl<'p, 'a> Model for Names<'p, 'a> {
    ghost use Rattle.std.specs.Prelude.{ℕ, List};
    ghost use Rattle.std.specs.Map.{keys_of};
    ghost use Rattle.fhir_package.specs.View.{entries_seen};

    ghost Value = { List (List ℕ) };

    ghost view = { λ n. keys_of (entries_seen n.rest.now) };
}

impl<'p, 'a> Iterator for Names<'p, 'a> {
    ghost use Rattle.std.specs.Iterator.{YieldsFirstRef, item_count};

    type Item = &'p str;

    ghost next_gives = { YieldsFirstRef (λ n. n) };

    ghost remaining = { item_count (λ n. n) };

    fn next(&mut self) -> Option<&'p str> {
        let [first, rest @ ..] = self.rest else {
            return None;
        };
        self.rest = rest;
        Some(first.url.as_str())
    }
}
