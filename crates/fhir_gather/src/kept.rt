//! Definitions that are kept.

ghost use Rattle.std.specs.Prelude.{◌≡◌, [], ◌∷◌, ◌++◌, None, find, slice_get, OnOk, OnErr};
ghost use Rattle.std.specs.Option.{option_map, option_copied};
ghost use Rattle.fhir_gather.specs.Gathering.{is_of};
ghost use Rattle.fhir_gather.specs.Views.{taken_seen, all_seen};

use crate::places::Places;
use fhir_json::NoMemory;
use fhir_package::{Definition, Kind};
use std::alloc::Global;
use std::marker::Model;

/// A definition that is kept, and where it stands.
#[derive(Drop)]
pub struct Kept<'f> {
    pub(crate) folder: &'f str,
    pub(crate) file: &'f str,
    pub(crate) definition: Definition<'f>,
}

impl<'f> Kept<'f> {
    /// The name of the folder.
    pub fn folder(&self) -> &'f str
        ensures { result.now ≡ (taken_seen self.now).folder }
    {
        self.folder
    }

    /// The name of the file.
    pub fn file(&self) -> &'f str
        ensures { result.now ≡ (taken_seen self.now).file }
    {
        self.file
    }

    /// The definition.
    pub fn definition(&self) -> &Definition<'f>
        ensures { result.now ≡ (taken_seen self.now).definition }
    {
        &self.definition
    }
}

fn kept_at<'k, 'f>(all: &'k [Kept<'f>], place: usize) -> Option<&'k Kept<'f>>
    ensures { option_map taken_seen (option_copied result) ≡ slice_get (all_seen all.now) place }
{
    all.get(place)
}

/// Definitions in order, of which no two are of one kind and url.
#[derive(Drop)]
pub(crate) struct KeptList<'f> {
    all: Vec<Kept<'f>>,
    places: Places,
}

impl<'f> Model for KeptList<'f> {
    ghost use Rattle.std.specs.Prelude.{List};
    ghost use Rattle.fhir_gather.specs.Gathering.{Taken};

    ghost Value = { List Taken };

    ghost use Rattle.fhir_json.specs.Coding.{tree_code};
    ghost use Rattle.std.specs.Coded.{codes};

    ghost coded = { Prim.hlevel (codes, tree_code) };

    ghost use Rattle.fhir_gather.specs.Places.{AreFirst};
    ghost use Rattle.fhir_gather.specs.Views.{all_seen};

    ghost view = { λ k. all_seen k.all.items };

    ghost invariant = { λ k. AreFirst k.places (all_seen k.all.items) };
}

impl<'f> KeptList<'f> {
    /// None, which allocates nothing.
    pub(crate) fn new(alloc: Global) -> KeptList<'f>
        ensures { result ≡ [] }
    {
        KeptList {
            all: Vec::new(alloc),
            places: Places::new(alloc),
        }
    }

    /// All of them.
    pub(crate) fn all(&self) -> &[Kept<'f>]
        ensures { all_seen result.now ≡ self.now }
    {
        &self.all
    }

    /// The one of a kind and url.
    pub(crate) fn get(&self, kind: Kind, url: &str) -> Option<&Kept<'f>>
        ensures { option_map taken_seen (option_copied result) ≡ find (is_of kind url.now) self.now }
    {
        match self.places.get(kind, url) {
            Some(place) => kept_at(&self.all, place),
            None => None,
        }
    }

    /// Puts one behind the others. The one refusal is want of memory, which changes nothing.
    pub(crate) fn push(&mut self, alloc: Global, kept: Kept<'f>) -> Result<(), NoMemory>
        requires { find (is_of (taken_seen kept).definition.kind (taken_seen kept).definition.url) self.old ≡ None }
        ensures pushed { OnOk result (self.new ≡ self.old ++ taken_seen kept.entry ∷ []) }
        ensures unchanged { OnErr result (self.new ≡ self.old) }
    {
        let place = self.all.len();
        let kind = kept.definition.kind();
        let url = String::from_str(alloc, kept.definition.url())?;
        self.all.push(kept)?;
        if self.places.put(alloc, kind, url.as_str(), place).is_err() {
            let _kept = self.all.pop();
            return Err(NoMemory);
        }
        Ok(())
    }
}
