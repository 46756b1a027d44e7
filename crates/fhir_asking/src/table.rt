//! What is known of names.

ghost use Rattle.std.specs.Prelude.{◌≡◌, ◌+◌, ◌^◌, ◌<◌, [], length, true, OnOk, OnErr, string_bytes};
ghost use Rattle.std.specs.Option.{option_copied};
ghost use Rattle.std.specs.Map.{lookup};
ghost use Rattle.std.specs.Str.{bytes_eq};
ghost use Rattle.fhir_asking.specs.Asking.{known, is_wanting};
ghost use Rattle.fhir_asking.specs.Settling.{Learns};

use fhir_json::NoMemory;
use std::alloc::Global;
use std::collections::BTreeMap;
use std::marker::Model;

/// What is known of names: of each that there is no such thing, or the thing. The names are kept in the order of their
/// bytes, so that a look-up takes time logarithmic in their number whatever they are.
#[derive(Drop)]
pub struct Table<T> {
    answers: BTreeMap<String, Option<T>>,
}

impl<T> Model for Table<T> {
    ghost use Rattle.std.specs.Prelude.{List, Option};
    ghost use Rattle.fhir_json.specs.Tree.{Text};
    ghost use Rattle.fhir_names.specs.Places.{by_name};

    ghost Value = { List (Text × Option T) };

    ghost view = { λ t. by_name t.answers.entries };
}

impl<T> Table<T> {
    /// Nothing is known, which allocates nothing.
    pub fn new(alloc: Global) -> Table<T>
        ensures { result ≡ [] }
    {
        Table {
            answers: BTreeMap::new(alloc),
        }
    }

    /// What is known of a name, if anything is: that there is no such thing, or the thing.
    pub fn get(&self, name: &str) -> Option<&Option<T>>
        ensures { option_copied result ≡ lookup (bytes_eq name.now) self.now }
    {
        self.answers.get(name)
    }
}

impl<T: Drop> Table<T> {
    // Puts what is known of a name of which nothing was.
    pub(crate) fn put(&mut self, name: String, answer: Option<T>) -> Result<(), NoMemory>
        requires { is_wanting (known self.old (string_bytes name)) ≡ true }
        ensures learns { OnOk result (Learns self.old self.new (string_bytes name) answer) }
        ensures longer { OnOk result (length self.new ≡ length self.old + 1) }
        ensures unchanged { OnErr result (self.new ≡ self.old) }
        ensures room { length self.old < 2 ^ 63 }
    {
        // The length of a map says that there is room for one more.
        let _count = self.answers.len();
        self.answers.insert(name, answer)?;
        Ok(())
    }
}
