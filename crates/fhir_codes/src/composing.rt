//! The concepts of one value set (FHIR R4, ValueSet, compose), from those of the value sets that it names.

ghost use Rattle.std.specs.Prelude.{◌≡◌, ◌∷◌, ◌++◌, map, codes, OnOk, IfOk, IfSome, Some, false, ◌&&◌};
ghost use Rattle.std.specs.Option.{option_copied, option_map_or};
ghost use Rattle.std.specs.List.{list_all, slice_get};
ghost use Rattle.std.specs.FinSet as set;
ghost use Rattle.fhir_json.specs.Fields.{text_in, text_or_empty, field};
ghost use Rattle.fhir_json.specs.Views.{tree_of, trees_of};
ghost use Rattle.fhir_json.specs.Memory.{Gives};
ghost use Rattle.fhir_codes.specs.Concepts.{of_system, union_of, common};
ghost use Rattle.fhir_codes.specs.ValueSets.{sets_named, part_in, includes, excludes, is_compose, codes_taken, is_plain_include, of_set, of_include, composition, is_read};
ghost use Rattle.fhir_codes.specs.Placing.{found_at, is_known, names_known};
ghost use Rattle.fhir_codes.specs.Tables.{table_at, found, known_in};
ghost use Rattle.fhir_codes.specs.Including.{included};

use crate::combining::without;
use crate::concept_set::ConceptSet;
use crate::included::{Included, distinct};
use crate::sources::Sources;
use crate::texts::Texts;
use fhir_json::{Json, NoMemory};
use std::alloc::Global;

fn part_in<'t, 'j>(json: &'t Json<'j>, name: &str) -> &'t [Json<'j>]
    ensures { trees_of result.now ≡ part_in name.now (tree_of json.now) }
{
    match json.field("compose") {
        Some(compose) => compose.items_in(name),
        None => Default::default(),
    }
}

/// Its includes.
pub(crate) fn includes<'t, 'j>(json: &'t Json<'j>) -> &'t [Json<'j>]
    ensures { trees_of result.now ≡ includes (tree_of json.now) }
{
    part_in(json, "include")
}

/// Its excludes.
pub(crate) fn excludes<'t, 'j>(json: &'t Json<'j>) -> &'t [Json<'j>]
    ensures { trees_of result.now ≡ excludes (tree_of json.now) }
{
    part_in(json, "exclude")
}

fn is_compose(json: &Json<'_>) -> bool
    ensures { result ≡ is_compose (tree_of json.now) }
{
    json.is_object() && json.allows_items("include") && json.allows_items("exclude")
}

fn has_compose(json: &Json<'_>) -> bool
    ensures { result ≡ option_map_or is_compose (field (codes "compose") (tree_of json.now)) false }
{
    match json.field("compose") {
        Some(compose) => is_compose(compose),
        None => false,
    }
}

impl<'p, 'a> Sources<'p, 'a> {
    /// What has been found at a place.
    pub(crate) fn found_at(&self, place: usize) -> Option<&ConceptSet>
        ensures { option_copied result ≡ found_at (found self.now) place }
    {
        match self.number_at(place) {
            Some(number) => self.table(number),
            None => None,
        }
    }

    /// The concepts of the value set that a canonical names, if they have been found.
    pub(crate) fn found_concepts(&self, canonical: &str) -> Option<&ConceptSet>
        ensures { option_copied result ≡ known_in self.now canonical.now }
    {
        match self.number(canonical) {
            Some(number) => self.table(number),
            None => None,
        }
    }

    // ---- whether it can be read

    fn is_known(&self, canonical: &str) -> bool
        ensures { result ≡ is_known self.now.definitions (found self.now) canonical.now }
    {
        self.found_concepts(canonical).is_some()
    }

    fn texts_known(&self, texts: &[Json<'_>]) -> bool
        ensures { result ≡ list_all (λ j. is_known self.now.definitions (found self.now) (text_or_empty (tree_of j))) texts.now }
    {
        texts.iter().all(|text| self.is_known(text.text_or_empty()))
    }

    fn names_known(&self, include: &Json<'_>) -> bool
        ensures { result ≡ names_known self.now.definitions (found self.now) (tree_of include.now) }
    {
        self.texts_known(include.items_in("valueSet"))
    }

    fn include_is_read(&self, include: &Json<'_>) -> bool
        ensures { result ≡ (is_plain_include self.now.definitions (tree_of include.now)
            && names_known self.now.definitions (found self.now) (tree_of include.now)) }
    {
        self.is_plain_include(include) && self.names_known(include)
    }

    fn all_read<'t, 'j>(&self, includes: &'t [Json<'j>], excludes: &'t [Json<'j>]) -> bool
        ensures { result ≡ list_all (λ j. is_plain_include self.now.definitions (tree_of j)
            && names_known self.now.definitions (found self.now) (tree_of j)) (includes.now ++ excludes.now) }
    {
        includes
            .iter()
            .chain(excludes.iter())
            .all(|include| self.include_is_read(include))
    }

    /// Whether nothing in a value set is unread, and all value sets that it names have been found.
    pub(crate) fn is_read(&self, json: &Json<'_>) -> bool
        ensures { result ≡ is_read self.now.definitions (known_in self.now) (tree_of json.now) }
    {
        has_compose(json) && self.all_read(includes(json), excludes(json))
    }

    // ---- its includes

    // The number of its table, or one that no table has.
    fn number_named(&self, canonical: &str) -> usize
        ensures { table_at self.now.tables result ≡ of_set self.now.definitions (known_in self.now) canonical.now }
    {
        match self.number(canonical) {
            Some(number) => number,
            None => self.no_number(),
        }
    }

    fn put_named(&self, texts: &[Json<'_>], out: &mut Vec<usize>) -> Result<(), NoMemory>
        ensures { OnOk result (map (table_at self.now.tables) out.new.items ≡ map (table_at self.now.tables) out.old.items
            ++ map (λ j. of_set self.now.definitions (known_in self.now) (text_or_empty (tree_of j))) texts.now) }
    {
        for text in texts {
            out.push(self.number_named(text.text_or_empty()))?;
        }
        Ok(())
    }

    fn numbers_named(&self, alloc: Global, include: &Json<'_>) -> Result<Vec<usize>, NoMemory>
        ensures { IfOk result (λ v. map (table_at self.now.tables) v.items
            ≡ map (of_set self.now.definitions (known_in self.now)) (sets_named (tree_of include.now))) }
    {
        let mut numbers = Vec::new(alloc);
        self.put_named(include.items_in("valueSet"), &mut numbers)?;
        Ok(numbers)
    }

    fn of_system_within(
        &self,
        alloc: Global,
        texts: &mut Texts,
        include: &Json<'_>,
        url: &str,
        mut numbers: Vec<usize>,
    ) -> Result<Included, NoMemory>
        ensures { IfOk result (λ i. included self.now.tables i
            ≡ common (of_system url.now (codes_taken self.now.definitions (tree_of include.now) url.now)
            ∷ map (table_at self.now.tables) numbers.items)) }
    {
        match self.taken_number(include, url) {
            Some(number) => {
                numbers.push(number)?;
                Ok(Included::in_all(numbers))
            }
            None => {
                let concepts = self.concepts_taken(alloc, texts, include, url)?;
                self.within(alloc, concepts, numbers)
            }
        }
    }

    fn of_include(
        &self,
        alloc: Global,
        texts: &mut Texts,
        include: &Json<'_>,
    ) -> Result<Included, NoMemory>
        ensures { IfOk result (λ i. included self.now.tables i
            ≡ of_include self.now.definitions (known_in self.now) (tree_of include.now)) }
    {
        let numbers = self.numbers_named(alloc, include)?;
        match include.text_in("system") {
            Some(url) => self.of_system_within(alloc, texts, include, url, numbers),
            None => Ok(Included::in_all(numbers)),
        }
    }

    fn of_includes(
        &self,
        alloc: Global,
        texts: &mut Texts,
        includes: &[Json<'_>],
    ) -> Result<Vec<Included>, NoMemory>
        ensures { IfOk result (λ v. map (included self.now.tables) v.items
            ≡ map (λ j. of_include self.now.definitions (known_in self.now) (tree_of j)) includes.now) }
    {
        let mut all = Vec::new(alloc);
        for include in includes {
            let part = self.of_include(alloc, texts, include)?;
            all.push(part)?;
        }
        Ok(all)
    }

    // Those of the same tables stand there once.
    fn parts_of(
        &self,
        alloc: Global,
        texts: &mut Texts,
        includes: &[Json<'_>],
    ) -> Result<Vec<Included>, NoMemory>
        ensures { IfOk result (λ v. union_of (map (included self.now.tables) v.items)
            ≡ union_of (map (λ j. of_include self.now.definitions (known_in self.now) (tree_of j)) includes.now)) }
    {
        let all = self.of_includes(alloc, texts, includes)?;
        Ok(distinct(all))
    }

    // ---- its concepts

    // The number of the table that has the same concepts, if there is one.
    fn kept_number(&self, more: &[Included], less: &ConceptSet) -> Option<usize>
        ensures { IfSome result (λ n. slice_get self.now.tables n
            ≡ Some (set.difference (union_of (map (included self.now.tables) more.now)) less.now)) }
    {
        if !less.is_empty() {
            return None;
        }
        match more {
            [only] => self.only_number(only),
            _ => None,
        }
    }

    fn composed_of(
        &self,
        alloc: Global,
        more: &[Included],
        less: &ConceptSet,
    ) -> Result<ConceptSet, NoMemory>
        ensures { Gives (λ s. s) result (set.difference (union_of (map (included self.now.tables) more.now)) less.now) }
    {
        let more = self.united_of(alloc, more)?;
        without(alloc, &more, less)
    }

    /// The number of the table of a value set: of its includes, without its excludes.
    pub(crate) fn compose(
        &mut self,
        alloc: Global,
        texts: &mut Texts,
        json: &Json<'_>,
    ) -> Result<usize, NoMemory>
        ensures composition { IfOk result (λ n. slice_get self.new.tables n
            ≡ Some (composition self.old.definitions (known_in self.old) (tree_of json.now))) }
        ensures definitions { self.new.definitions ≡ self.old.definitions }
        ensures found { found self.new ≡ found self.old }
    {
        let more = self.parts_of(alloc, texts, includes(json))?;
        let less = self.parts_of(alloc, texts, excludes(json))?;
        let less = self.united_of(alloc, &less)?;
        if let Some(number) = self.kept_number(&more, &less) {
            return Ok(number);
        }
        let concepts = self.composed_of(alloc, &more, &less)?;
        self.keep(concepts)
    }
}
