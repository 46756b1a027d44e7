//! Texts under names.

ghost use Rattle.std.specs.Prelude.{◌≡◌, [], OnOk, IfOk, map, string_bytes};
ghost use Rattle.fhir_inheritance.specs.Named.{texts_under, Adds};

use crate::named::Named;
use fhir_json::NoMemory;
use std::alloc::Global;
use std::marker::Model;

/// Texts under names, those of each name in the order in which they were added.
#[derive(Drop)]
pub(crate) struct GroupTable {
    texts: Named<Vec<String>>,
}

impl Model for GroupTable {
    ghost use Rattle.std.specs.Prelude.{map, string_bytes};
    ghost use Rattle.fhir_inheritance.specs.Named.{Groups};

    ghost Value = { Groups };

    ghost view = { λ g. map (λ e. (e.0, map string_bytes e.1.items)) g.texts };
}

impl GroupTable {
    /// No texts, which allocates nothing.
    pub(crate) fn new(alloc: Global) -> GroupTable
        ensures { result ≡ [] }
    {
        GroupTable {
            texts: Named::new(alloc),
        }
    }

    /// The texts under a name.
    pub(crate) fn get(&self, name: &str) -> &[String]
        ensures { map string_bytes result.now ≡ texts_under self.now name.now }
    {
        match self.texts.get(name) {
            Some(texts) => texts,
            None => Default::default(),
        }
    }

    /// Puts a text under a name, behind those that are there.
    pub(crate) fn add(&mut self, alloc: Global, name: &str, text: &str) -> Result<(), NoMemory>
        ensures { OnOk result (Adds self.old self.new name.now text.now) }
    {
        let mut texts = match self.texts.take(name) {
            Some(texts) => texts,
            None => Vec::new(alloc),
        };
        let text = String::from_str(alloc, text)?;
        texts.push(text)?;
        let name = String::from_str(alloc, name)?;
        self.texts.put(name, texts)?;
        Ok(())
    }
}
