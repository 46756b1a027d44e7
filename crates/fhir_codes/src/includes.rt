//! What an include or an exclude takes (FHIR R4, ValueSet, compose).

ghost use Rattle.std.specs.Prelude.{◌≡◌, ◌&&◌, ◌||◌, not, true, false, is_some, codes, map, IfSome, Some};
ghost use Rattle.std.specs.Option.{option_map_or, option_and_then};
ghost use Rattle.std.specs.List.{list_all, slice_get};
ghost use Rattle.fhir_json.specs.Bytes.{is_empty};
ghost use Rattle.fhir_json.specs.Fields.{field, is_object, text_in, items_in, texts_in, allows_text, allows_items, allows_texts};
ghost use Rattle.fhir_json.specs.Views.{tree_of, trees_of, tree_seen};
ghost use Rattle.fhir_json.specs.Memory.{Gives};
ghost use Rattle.fhir_codes.specs.Concepts.{of_system};
ghost use Rattle.fhir_package.specs.Canonical.{has_version};
ghost use Rattle.fhir_codes.specs.CodeSystems.{is_coded, is_complete};
ghost use Rattle.fhir_codes.specs.Tables.{found};
ghost use Rattle.fhir_codes.specs.ValueSets.{listed_concepts, sets_named, lists_no_concept, has_right_fields, is_version_of, code_system, codes_taken, can_take, is_plain_include};

use crate::code_systems::{concepts_listed, is_coded};
use crate::composing::{excludes, includes};
use crate::concept_set::ConceptSet;
use crate::sources::Sources;
use crate::texts::Texts;
use fhir_json::{Json, NoMemory};
use fhir_package::{Kind, has_version};
use std::alloc::Global;

fn listed_concepts<'t, 'j>(include: &'t Json<'j>) -> &'t [Json<'j>]
    ensures { trees_of result.now ≡ listed_concepts (tree_of include.now) }
{
    include.items_in("concept")
}

fn is_none_of(items: &[Json<'_>]) -> bool
    ensures { result ≡ is_empty (trees_of items.now) }
{
    match items {
        [] => true,
        [_, ..] => false,
    }
}

/// Whether it lists no concept of its system.
fn lists_no_concept(include: &Json<'_>) -> bool
    ensures { result ≡ lists_no_concept (tree_of include.now) }
{
    is_none_of(listed_concepts(include))
}

fn each_is_coded(items: &[Json<'_>]) -> bool
    ensures { result ≡ list_all (λ j. is_coded (tree_of j)) items.now }
{
    items.iter().all(|json| is_coded(json))
}

fn are_coded(items: &[Json<'_>]) -> bool
    ensures { result ≡ list_all is_coded (trees_of items.now) }
{
    each_is_coded(items)
}

fn has_texts(include: &Json<'_>) -> bool
    ensures { result ≡ (is_object (tree_of include.now)
        && allows_text (codes "system") (tree_of include.now)
        && allows_text (codes "version") (tree_of include.now)) }
{
    include.is_object() && include.allows_text("system") && include.allows_text("version")
}

fn has_right_fields(include: &Json<'_>) -> bool
    ensures { result ≡ has_right_fields (tree_of include.now) }
{
    has_texts(include)
        && include.allows_items("concept")
        && are_coded(listed_concepts(include))
        && include.allows_texts("valueSet")
        && include.allows_items("filter")
        && is_none_of(include.items_in("filter"))
}

fn is_version_of(include: &Json<'_>, system: &Json<'_>) -> bool
    ensures { result ≡ option_map_or (λ v. has_version v (field (codes "version") (tree_of system.now)))
        (text_in (codes "version") (tree_of include.now)) true }
{
    match include.text_in("version") {
        Some(version) => has_version(version, system.field("version")),
        None => true,
    }
}

fn names_no_set(include: &Json<'_>) -> bool
    ensures { result ≡ is_empty (sets_named (tree_of include.now)) }
{
    match include.items_in("valueSet") {
        [] => true,
        [_, ..] => false,
    }
}

fn names_sets_alone(include: &Json<'_>) -> bool
    ensures { result ≡ (lists_no_concept (tree_of include.now) && not (is_empty (sets_named (tree_of include.now)))) }
{
    lists_no_concept(include) && !names_no_set(include)
}

impl<'p, 'a> Sources<'p, 'a> {
    // The code system of that url, of the include's version if both have one.
    fn code_system(&self, include: &Json<'_>, url: &str) -> Option<&'p Json<'a>>
        ensures { tree_seen result ≡ code_system self.now.definitions (tree_of include.now) url.now }
    {
        match self.package().at_url(Kind::CodeSystem, url) {
            Some(system) if is_version_of(include, system) => Some(system),
            _ => None,
        }
    }

    fn is_complete(&self, include: &Json<'_>, url: &str) -> bool
        ensures { result ≡ option_map_or is_complete (code_system self.now.definitions (tree_of include.now) url.now) false }
    {
        self.code_system(include, url).is_some() && self.complete_at(url)
    }

    fn can_take(&self, include: &Json<'_>, url: &str) -> bool
        ensures { result ≡ can_take self.now.definitions (tree_of include.now) url.now }
    {
        !lists_no_concept(include) || self.is_complete(include, url)
    }

    /// Whether nothing in an include is unread by itself.
    pub(crate) fn is_plain_include(&self, include: &Json<'_>) -> bool
        ensures { result ≡ is_plain_include self.now.definitions (tree_of include.now) }
    {
        if !has_right_fields(include) {
            return false;
        }
        match include.text_in("system") {
            Some(url) => self.can_take(include, url),
            None => names_sets_alone(include),
        }
    }

    // Keeps the code system that an include takes whole.
    fn keep_taken(
        &mut self,
        alloc: Global,
        texts: &mut Texts,
        include: &Json<'_>,
    ) -> Result<(), NoMemory>
        ensures definitions { self.new.definitions ≡ self.old.definitions }
        ensures found { found self.new ≡ found self.old }
    {
        if !lists_no_concept(include) {
            return Ok(());
        }
        match include.text_in("system") {
            Some(url) if self.complete_at(url) => self.keep_whole(alloc, texts, url),
            _ => Ok(()),
        }
    }

    fn keep_all_taken(
        &mut self,
        alloc: Global,
        texts: &mut Texts,
        includes: &[Json<'_>],
    ) -> Result<(), NoMemory>
        ensures definitions { self.new.definitions ≡ self.old.definitions }
        ensures found { found self.new ≡ found self.old }
    {
        for include in includes {
            self.keep_taken(alloc, texts, include)?;
        }
        Ok(())
    }

    /// Keeps all code systems that value sets take whole, so that each is read once.
    pub(crate) fn keep_wholes(&mut self, alloc: Global, texts: &mut Texts) -> Result<(), NoMemory>
        ensures definitions { self.new.definitions ≡ self.old.definitions }
        ensures found { found self.new ≡ found self.old }
    {
        for place in 0..self.len() {
            if let Some(json) = self.tree(place) {
                self.keep_all_taken(alloc, texts, includes(json))?;
                self.keep_all_taken(alloc, texts, excludes(json))?;
            }
        }
        Ok(())
    }

    /// The number of the table of what an include takes of the system of that url, where it takes a whole system.
    pub(crate) fn taken_number(&self, include: &Json<'_>, url: &str) -> Option<usize>
        ensures { IfSome result (λ n. slice_get self.now.tables n
            ≡ Some (of_system url.now (codes_taken self.now.definitions (tree_of include.now) url.now))) }
    {
        if !lists_no_concept(include) {
            return None;
        }
        match self.code_system(include, url) {
            Some(_system) => self.system_number(url),
            None => None,
        }
    }

    /// The concepts that an include takes of the system of that url: those that it lists, or all.
    pub(crate) fn concepts_taken(
        &self,
        alloc: Global,
        texts: &mut Texts,
        include: &Json<'_>,
        url: &str,
    ) -> Result<ConceptSet, NoMemory>
        ensures { Gives (λ s. s) result (of_system url.now (codes_taken self.now.definitions (tree_of include.now) url.now)) }
    {
        if !lists_no_concept(include) {
            return concepts_listed(alloc, texts, url, listed_concepts(include));
        }
        match self.code_system(include, url) {
            Some(_system) => self.whole(alloc, texts, url),
            None => ConceptSet::of(Vec::new(alloc)),
        }
    }
}
