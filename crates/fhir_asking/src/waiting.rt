//! Names that wait for one another.

ghost use Rattle.std.specs.Prelude.{◌≡◌, ◌<◌, ◌^◌, ◌++◌, [], ◌∷◌, false, length, map, string_bytes};
ghost use Rattle.std.specs.Prelude.{IfSome, IfNone, OnOk};
ghost use Rattle.std.specs.Bool.{OnTrue, OnFalse};
ghost use Rattle.std.specs.List.{list_any, slice_get};
ghost use Rattle.std.specs.Option.{option_map_or};
ghost use Rattle.std.specs.Str.{bytes_eq};
ghost use Rattle.fhir_asking.specs.Settling.{IsApart, top_of};

use fhir_json::NoMemory;
use fhir_names::Index;
use std::alloc::Global;
use std::marker::Model;

// Names that wait, each once; the last waits for none of them. A name that waits has the place at which it stands. One
// that waits no more keeps its place too, at which another name stands by now, or none.
#[derive(Drop)]
pub(crate) struct Waiting {
    names: Vec<String>,
    places: Index,
}

impl Model for Waiting {
    ghost use Rattle.std.specs.Prelude.{List, map, string_bytes};
    ghost use Rattle.fhir_json.specs.Tree.{Text};
    ghost use Rattle.fhir_asking.specs.Settling.{Marks};

    ghost Value = { List Text };

    ghost view = { λ w. map string_bytes w.names.items };

    ghost invariant = { λ w. Marks w.places (map string_bytes w.names.items) };
}

fn stands_at(names: &Vec<String>, place: usize, name: &str) -> bool
    ensures { result ≡ option_map_or (bytes_eq name.now) (slice_get (map string_bytes names.now.items) place) false }
{
    match names.get(place) {
        Some(other) => name == other.as_str(),
        None => false,
    }
}

impl Waiting {
    pub(crate) fn new(alloc: Global) -> Waiting
        ensures { result ≡ [] }
    {
        Waiting {
            names: Vec::new(alloc),
            places: Index::new(alloc),
        }
    }

    pub(crate) fn is_empty(&self) -> bool
        ensures none { OnTrue result (self.now ≡ []) }
        ensures some { OnFalse result (0 < length self.now) }
    {
        self.names.is_empty()
    }

    // The name that waits for none of them.
    pub(crate) fn top(&self) -> &str
        ensures { result.now ≡ top_of self.now }
    {
        match self.names.last() {
            Some(name) => name.as_str(),
            None => "",
        }
    }

    // Whether a name waits.
    pub(crate) fn has(&self, name: &str) -> bool
        ensures { result ≡ list_any (bytes_eq name.now) self.now }
    {
        match self.places.get(name) {
            Some(place) => stands_at(&self.names, place, name),
            None => false,
        }
    }

    pub(crate) fn push(&mut self, alloc: Global, name: String) -> Result<(), NoMemory>
        requires { IsApart (string_bytes name) self.old }
        ensures names { OnOk result (self.new ≡ self.old ++ string_bytes name ∷ []) }
        ensures room { OnOk result (length self.new < 2 ^ 64) }
    {
        self.places.put(alloc, name.as_str(), self.names.len())?;
        self.names.push(name)?;
        Ok(())
    }

    pub(crate) fn pop(&mut self) -> Option<String>
        ensures names { IfSome result (λ name. self.old ≡ self.new ++ string_bytes name ∷ []) }
        ensures apart { IfSome result (λ name. IsApart (string_bytes name) self.new) }
        ensures none { IfNone result (self.old ≡ []) }
    {
        self.names.pop()
    }
}
