//! Tables by their numbers, joined.

ghost use Rattle.std.specs.Prelude.{◌≡◌, ◌∷◌, ◌++◌, map, OnOk, IfOk, IfSome, Some};
ghost use Rattle.std.specs.List.{slice_get};
ghost use Rattle.fhir_json.specs.Memory.{Gives};
ghost use Rattle.fhir_codes.specs.Concepts.{union_of, common};
ghost use Rattle.fhir_codes.specs.Tables.{table_at, in_tables};
ghost use Rattle.fhir_codes.specs.Including.{included};

use crate::combining::{common, union_of};
use crate::concept_set::ConceptSet;
use crate::included::{Included, distinct_numbers};
use crate::sources::Sources;
use fhir_json::NoMemory;
use std::alloc::Global;

impl<'p, 'a> Sources<'p, 'a> {
    fn share_table(&self, alloc: Global, number: usize) -> Result<ConceptSet, NoMemory>
        ensures { Gives (λ s. s) result (table_at self.now.tables number) }
    {
        match self.table(number) {
            Some(concepts) => concepts.share(),
            None => ConceptSet::of(Vec::new(alloc)),
        }
    }

    fn put_tables(
        &self,
        alloc: Global,
        numbers: &[usize],
        out: &mut Vec<ConceptSet>,
    ) -> Result<(), NoMemory>
        ensures { OnOk result (out.new.items ≡ out.old.items ++ map (table_at self.now.tables) numbers.now) }
    {
        for number in numbers {
            let concepts = self.share_table(alloc, *number)?;
            out.push(concepts)?;
        }
        Ok(())
    }

    fn in_tables(&self, alloc: Global, numbers: &[usize]) -> Result<ConceptSet, NoMemory>
        ensures { Gives (λ s. s) result (in_tables self.now.tables numbers.now) }
    {
        let mut all = Vec::new(alloc);
        self.put_tables(alloc, numbers, &mut all)?;
        common(alloc, &all)
    }

    /// The concepts of a set that are in all tables of these numbers.
    pub(crate) fn within(
        &self,
        alloc: Global,
        concepts: ConceptSet,
        numbers: Vec<usize>,
    ) -> Result<Included, NoMemory>
        ensures { IfOk result (λ i. included self.now.tables i ≡ common (concepts ∷ map (table_at self.now.tables) numbers.items)) }
    {
        let numbers = distinct_numbers(numbers);
        let mut all = Vec::new(alloc);
        all.push(concepts)?;
        self.put_tables(alloc, &numbers, &mut all)?;
        Ok(Included::Own(common(alloc, &all)?))
    }

    fn set_of(&self, alloc: Global, part: &Included) -> Result<ConceptSet, NoMemory>
        ensures { Gives (λ s. s) result (included self.now.tables part.now) }
    {
        match part {
            Included::Shared(numbers) => self.in_tables(alloc, numbers),
            Included::Own(concepts) => concepts.share(),
        }
    }

    fn sets_of(&self, alloc: Global, parts: &[Included]) -> Result<Vec<ConceptSet>, NoMemory>
        ensures { IfOk result (λ v. v.items ≡ map (included self.now.tables) parts.now) }
    {
        let mut all = Vec::new(alloc);
        for part in parts {
            let concepts = self.set_of(alloc, part)?;
            all.push(concepts)?;
        }
        Ok(all)
    }

    /// The concepts that one of the parts has.
    pub(crate) fn united_of(
        &self,
        alloc: Global,
        parts: &[Included],
    ) -> Result<ConceptSet, NoMemory>
        ensures { Gives (λ s. s) result (union_of (map (included self.now.tables) parts.now)) }
    {
        let all = self.sets_of(alloc, parts)?;
        union_of(alloc, &all)
    }

    /// The number of the one table that a part is of.
    pub(crate) fn only_number(&self, part: &Included) -> Option<usize>
        ensures { IfSome result (λ n. slice_get self.now.tables n ≡ Some (included self.now.tables part.now)) }
    {
        match part {
            Included::Shared(numbers) => self.only_of(numbers),
            Included::Own(_) => None,
        }
    }

    fn only_of(&self, numbers: &[usize]) -> Option<usize>
        ensures { IfSome result (λ n. slice_get self.now.tables n ≡ Some (in_tables self.now.tables numbers.now)) }
    {
        match numbers {
            [only] if self.table(*only).is_some() => Some(*only),
            _ => None,
        }
    }
}
