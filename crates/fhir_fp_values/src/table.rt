//! Values under their keys, so that a value is compared with those of its key alone.

ghost use Rattle.std.specs.Prelude.{◌≡◌, ℕ, ◌++◌, ◌∷◌, [], List, not, string_bytes, if◌then◌else◌, IfOk, OnOk};
ghost use Rattle.std.specs.Str.{bytes_eq};
ghost use Rattle.fhir_fp_values.specs.declared.value.Value.{Value};
ghost use Rattle.fhir_fp_values.specs.Equality.{has};
ghost use Rattle.fhir_fp_values.specs.Tables.{held, Holds};
ghost use Rattle.fhir_fp_values.specs.Views.{plain_of, plains_of};

use crate::equality::has;
use crate::keys::key_of;
use crate::value::Value;
use fhir_json::NoMemory;
use std::alloc::Global;
use std::collections::BTreeMap;

/// Values, each under its key. A look-up takes time logarithmic in the number of keys, whatever they are.
#[derive(Drop)]
pub(crate) struct Table<'e, 'a, 'j> {
    values: BTreeMap<String, Vec<Value<'e, 'a, 'j>>>,
}

impl<'e, 'a, 'j> Table<'e, 'a, 'j> {
    /// A table of no values.
    pub(crate) fn new(alloc: Global) -> Table<'e, 'a, 'j>
        ensures { Holds result [] }
    {
        Table {
            values: BTreeMap::new(alloc),
        }
    }

    // Puts a value behind those of its key.
    fn put(&mut self, alloc: Global, key: String, value: Value<'e, 'a, 'j>) -> Result<(), NoMemory>
        ensures { OnOk result ((other : List ℕ) → held self.new other
            ≡ (if bytes_eq other (string_bytes key) then held self.old other ++ value.entry ∷ []
            else held self.old other)) }
    {
        self.values
            .entry(key)?
            .or_insert(Vec::new(alloc))
            .push(value)?;
        Ok(())
    }

    fn has_under(
        &self,
        alloc: Global,
        key: &str,
        value: Value<'_, '_, '_>,
    ) -> Result<bool, NoMemory>
        ensures { IfOk result (λ r. r ≡ has (plains_of (held self.now key.now)) (plain_of value.entry)) }
    {
        match self.values.get(key) {
            Some(values) => has(alloc, values, value),
            None => Ok(false),
        }
    }

    /// Whether an equal value is in the table. The one refusal is want of memory.
    pub(crate) fn has(&self, alloc: Global, value: Value<'_, '_, '_>) -> Result<bool, NoMemory>
        ensures { IfOk result (λ r. (vs : List Value) → Holds self.now vs
            → r ≡ has (plains_of vs) (plain_of value.entry)) }
    {
        let key = key_of(alloc, value)?;
        self.has_under(alloc, key.as_str(), value)
    }

    /// Puts a value into the table, and says so, unless an equal one is there. The one refusal is want of memory.
    #[tactic(auto, using(crate::proofs::Tables::has_held, crate::proofs::Tables::holds_more))]
    pub(crate) fn add(&mut self, alloc: Global, value: Value<'e, 'a, 'j>) -> Result<bool, NoMemory>
        ensures new { IfOk result (λ is_new. (vs : List Value) → Holds self.old vs
            → is_new ≡ not (has (plains_of vs) (plain_of value.entry))) }
        ensures held { IfOk result (λ is_new. (vs : List Value) → Holds self.old vs
            → Holds self.new (if is_new then vs ++ value.entry ∷ [] else vs)) }
    {
        let key = key_of(alloc, value)?;
        if self.has_under(alloc, key.as_str(), value)? {
            return Ok(false);
        }
        self.put(alloc, key, value)?;
        Ok(true)
    }

    // Puts a value into the table.
    #[tactic(auto, using(crate::proofs::Tables::holds_more))]
    fn put_value(&mut self, alloc: Global, value: Value<'e, 'a, 'j>) -> Result<(), NoMemory>
        ensures { OnOk result ((vs : List Value) → Holds self.old vs
            → Holds self.new (vs ++ value.entry ∷ [])) }
    {
        let key = key_of(alloc, value)?;
        self.put(alloc, key, value)
    }

    /// A table of the values. The one refusal is want of memory.
    pub(crate) fn of(
        alloc: Global,
        values: &[Value<'e, 'a, 'j>],
    ) -> Result<Table<'e, 'a, 'j>, NoMemory>
        ensures { IfOk result (λ table. Holds table values.now) }
    {
        let mut table = Table::new(alloc);
        for value in values {
            table.put_value(alloc, *value)?;
        }
        Ok(table)
    }
}
