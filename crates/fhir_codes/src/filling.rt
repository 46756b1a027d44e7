//! All value sets of a package, by one loop.

ghost use Rattle.std.specs.Prelude.{◌≡◌, ◌<◌, ℕ, Bool, true, false, ◌&&◌, length, IfOk, OnOk, IsTrue, IfNone, IfSome, is_none, None, Some};
ghost use Rattle.std.specs.Option.{option_map_or};
ghost use Rattle.fhir_json.specs.Views.{tree_of, tree_seen};
ghost use Rattle.fhir_codes.specs.Tables.{found};
ghost use Rattle.fhir_codes.specs.Filled.{is_ready, found_count, AreFilled, AreDone};

use crate::order::order_of;
use crate::sources::Sources;
use crate::texts::Texts;
use fhir_json::NoMemory;
use std::alloc::Global;

impl<'p, 'a> Sources<'p, 'a> {
    fn is_ready(&self, place: usize) -> bool
        ensures { result ≡ is_ready self.now.definitions (found self.now) place }
    {
        match (self.found_at(place), self.tree(place)) {
            (None, Some(json)) => self.is_read(json),
            _ => false,
        }
    }

    // Fills the answer at a place, if it is missing and can be told now.
    fn fill(&mut self, alloc: Global, texts: &mut Texts, place: usize) -> Result<(), NoMemory>
        ensures definitions { self.new.definitions ≡ self.old.definitions }
        ensures keeps { AreFilled self.old.definitions (found self.old) → AreFilled self.old.definitions (found self.new) }
        ensures grows { OnOk result (IsTrue (is_ready self.old.definitions (found self.old) place)
            → length (found self.old) ≡ length self.old.definitions.value_sets
            → found_count (found self.old) < found_count (found self.new)) }
    {
        if !self.is_ready(place) {
            return Ok(());
        }
        let Some(json) = self.tree(place) else {
            return Ok(());
        };
        let number = self.compose(alloc, texts, json)?;
        self.set_number(place, number);
        Ok(())
    }

    // The first place whose answer is missing and can be told now.
    fn first_ready(&self) -> Option<usize>
        ensures none { IfNone result ((place : ℕ) → place < length self.now.definitions.value_sets
            → is_ready self.now.definitions (found self.now) place ≡ false) }
        ensures some { IfSome result (λ place. IsTrue (is_ready self.now.definitions (found self.now) place)) }
    {
        for place in 0..self.len() {
            if self.is_ready(place) {
                return Some(place);
            }
        }
        None
    }

    fn fill_along(
        &mut self,
        alloc: Global,
        texts: &mut Texts,
        order: &[usize],
    ) -> Result<(), NoMemory>
        ensures definitions { self.new.definitions ≡ self.old.definitions }
        ensures keeps { AreFilled self.old.definitions (found self.old) → AreFilled self.old.definitions (found self.new) }
    {
        for place in order {
            self.fill(alloc, texts, *place)?;
        }
        Ok(())
    }

    /// Finds the concepts of each value set, where they can be read: in an order in which each stands behind those that it
    /// names; what that leaves out (mostly nothing) is looked for until nothing more is found.
    pub(crate) fn expand_all(&mut self, alloc: Global) -> Result<(), NoMemory>
        requires { AreFilled self.old.definitions (found self.old) }
        ensures done { OnOk result (AreDone self.old.definitions (found self.new)) }
        ensures definitions { self.new.definitions ≡ self.old.definitions }
    {
        let mut texts = Texts::new(alloc);
        self.keep_wholes(alloc, &mut texts)?;
        let order = order_of(alloc, self)?;
        self.fill_along(alloc, &mut texts, &order)?;
        while let Some(place) = self.first_ready() {
            self.fill(alloc, &mut texts, place)?;
        }
        Ok(())
    }
}
