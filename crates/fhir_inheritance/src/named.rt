//! Things under names.

ghost use Rattle.std.specs.Prelude.{◌≡◌, [], None, Some, OnOk, string_bytes};
ghost use Rattle.std.specs.Option.{option_copied};
ghost use Rattle.std.specs.Map.{lookup};
ghost use Rattle.std.specs.Str.{bytes_eq};
ghost use Rattle.fhir_inheritance.specs.Named.{Gets};

use fhir_json::NoMemory;
use std::alloc::Global;
use std::collections::BTreeMap;
use std::marker::Model;

/// Things under names. The names are kept in the order of their bytes, so that a look-up takes time logarithmic in their
/// number whatever they are.
#[derive(Drop)]
pub struct Named<T> {
    things: BTreeMap<String, T>,
}

impl<T> Model for Named<T> {
    ghost use Rattle.std.specs.Prelude.{List};
    ghost use Rattle.fhir_json.specs.Tree.{Text};
    ghost use Rattle.fhir_names.specs.Places.{by_name};

    ghost Value = { List (Text × T) };

    ghost view = { λ n. by_name n.things.entries };
}

impl<T> Named<T> {
    /// Nothing, which allocates nothing.
    pub fn new(alloc: Global) -> Named<T>
        ensures { result ≡ [] }
    {
        Named {
            things: BTreeMap::new(alloc),
        }
    }

    /// The thing of a name.
    pub fn get(&self, name: &str) -> Option<&T>
        ensures { option_copied result ≡ lookup (bytes_eq name.now) self.now }
    {
        self.things.get(name)
    }
}

impl<T: Drop> Named<T> {
    /// Puts a thing under a name, in place of the one that it has.
    pub fn put(&mut self, name: String, thing: T) -> Result<(), NoMemory>
        ensures { OnOk result (Gets self.old self.new (string_bytes name) (Some thing)) }
    {
        self.things.insert(name, thing)?;
        Ok(())
    }

    /// Takes out the thing of a name.
    pub fn take(&mut self, name: &str) -> Option<T>
        ensures taken { result ≡ lookup (bytes_eq name.now) self.old }
        ensures gone { Gets self.old self.new name.now None }
    {
        self.things.remove(name)
    }
}
