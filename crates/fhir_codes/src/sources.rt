//! What the value sets of a package are made of: one another, and the code systems.

ghost use Rattle.std.specs.Prelude.{◌≡◌, ◌<◌, ◌∷◌, ◌++◌, [], List, ℕ, length, set, IfOk, IfSome, OnOk, Some, is_none, true};
ghost use Rattle.std.specs.Option.{option_copied, option_and_then};
ghost use Rattle.std.specs.List.{slice_get, list_all};
ghost use Rattle.std.specs.Map.{keys_of};
ghost use Rattle.std.specs.FinSet as sets;
ghost use Rattle.fhir_json.specs.Tree.{Text};
ghost use Rattle.fhir_json.specs.Views.{tree_of, tree_seen};
ghost use Rattle.fhir_json.specs.Memory.{Gives};
ghost use Rattle.fhir_names.specs.Places.{Finds};
ghost use Rattle.fhir_package.specs.declared.kind.Kind.TheVariants.{CodeSystem};
ghost use Rattle.fhir_package.specs.Definitions.{at_url};
ghost use Rattle.fhir_codes.specs.Concepts.{Concepts};
ghost use Rattle.fhir_codes.specs.Placing.{place_at, place_named, tree_at, complete_at, whole_of, found_at, Completes, AreComplete, AreWhole};
ghost use Rattle.fhir_codes.specs.Filled.{AreFilled};
ghost use Rattle.fhir_codes.specs.Tables.{table_at, found, known_in};

use crate::code_systems::{concepts_defined, is_complete};
use crate::concept_set::ConceptSet;
use crate::texts::Texts;
use fhir_json::{Json, NoMemory};
use fhir_names::{Canonical, Index};
use fhir_package::{Kind, Package};
use std::alloc::Global;
use std::marker::Model;

/// A package, with the places of its value sets, the code systems that are complete, the tables that have been made (of code
/// systems taken whole, and of value sets), and the number of each one's.
pub(crate) struct Sources<'p, 'a> {
    from: &'p Package<'a>,
    value_sets: Index,
    complete: Index,
    tables: Vec<ConceptSet>,
    systems: Index,
    numbers: Vec<Option<usize>>,
}

// A derived drop would be proved anew in each crate that owns one.
impl Drop for Sources<'_, '_> {
    fn drop(self) {
        let Sources {
            from: _from,
            value_sets: _value_sets,
            complete: _complete,
            tables: _tables,
            systems: _systems,
            numbers: _numbers,
        } = self;
    }
}

impl<'p, 'a> Model for Sources<'p, 'a> {
    ghost use Rattle.fhir_codes.specs.Tables.{Tabled};

    ghost Value = { Tabled };

    ghost use Rattle.fhir_json.specs.Coding.{tree_code};
    ghost use Rattle.fhir_codes.specs.Coding.{concepts_code};
    ghost use Rattle.std.specs.Coded.{codes};

    ghost coded = { Prim.hlevel (codes, tree_code, concepts_code) };

    ghost use Rattle.std.specs.Map.{keys_of};
    ghost use Rattle.fhir_names.specs.Places.{Finds};
    ghost use Rattle.fhir_codes.specs.Placing.{AreWhole, AreComplete};
    ghost use Rattle.fhir_codes.specs.Tables.{AreNumbers};

    ghost view = { λ s. record { definitions = s.from.now; tables = s.tables.items; numbers = s.numbers.items } };

    ghost invariant = { λ s. Finds s.value_sets (keys_of s.from.now.value_sets)
        × AreComplete s.from.now s.complete
        × AreWhole s.from.now s.systems s.tables.items
        × AreNumbers s.tables.items s.numbers.items };
}

fn places_of(alloc: Global, from: &Package<'_>) -> Result<Index, NoMemory>
    ensures { IfOk result (λ x. Finds x (keys_of from.now.value_sets)) }
{
    let mut places = Index::new(alloc);
    for place in 0..from.len(Kind::ValueSet) {
        let Some((url, _tree)) = from.at(Kind::ValueSet, place) else {
            return Ok(places);
        };
        places.add(alloc, url, place)?;
    }
    Ok(places)
}

fn complete_at(from: &Package<'_>, url: &str) -> bool
    ensures { result ≡ complete_at from.now url.now }
{
    match from.at_url(Kind::CodeSystem, url) {
        Some(system) => is_complete(system),
        None => false,
    }
}

// Gives the url of a complete code system a place. Which one that is doesn't matter.
fn put_complete(
    alloc: Global,
    from: &Package<'_>,
    url: &str,
    complete: &mut Index,
) -> Result<(), NoMemory>
    ensures { OnOk result ((urls : List Text) → Completes from.now complete.old urls
        → Completes from.now complete.new (urls ++ url.now ∷ [])) }
{
    if complete_at(from, url) {
        complete.put(alloc, url, 0)?;
    }
    Ok(())
}

fn complete_of(alloc: Global, from: &Package<'_>) -> Result<Index, NoMemory>
    ensures { IfOk result (λ x. AreComplete from.now x) }
{
    let mut complete = Index::new(alloc);
    for place in 0..from.len(Kind::CodeSystem) {
        let Some((url, _tree)) = from.at(Kind::CodeSystem, place) else {
            return Ok(complete);
        };
        put_complete(alloc, from, url, &mut complete)?;
    }
    Ok(complete)
}

fn whole_of(
    alloc: Global,
    texts: &mut Texts,
    from: &Package<'_>,
    url: &str,
) -> Result<ConceptSet, NoMemory>
    ensures { Gives (λ s. s) result (whole_of from.now url.now) }
{
    match from.at_url(Kind::CodeSystem, url) {
        Some(system) => concepts_defined(alloc, texts, url, system),
        None => ConceptSet::of(Vec::new(alloc)),
    }
}

fn no_numbers(alloc: Global, from: &Package<'_>) -> Result<Vec<Option<usize>>, NoMemory>
    ensures count { IfOk result (λ v. length v.items ≡ length from.now.value_sets) }
    ensures none { IfOk result (λ v. list_all is_none v.items ≡ true) }
{
    let mut numbers = Vec::new(alloc);
    for _place in 0..from.len(Kind::ValueSet) {
        numbers.push(None)?;
    }
    Ok(numbers)
}

impl<'p, 'a> Sources<'p, 'a> {
    /// Of a package. Nothing has been found yet.
    pub(crate) fn of(alloc: Global, from: &'p Package<'a>) -> Result<Sources<'p, 'a>, NoMemory>
        ensures of { Gives (λ s. s.definitions) result from.now }
        ensures filled { IfOk result (λ s. AreFilled s.definitions (found s)) }
    {
        let value_sets = places_of(alloc, from)?;
        let complete = complete_of(alloc, from)?;
        let numbers = no_numbers(alloc, from)?;
        Ok(Sources {
            from,
            value_sets,
            complete,
            tables: Vec::new(alloc),
            systems: Index::new(alloc),
            numbers,
        })
    }

    /// The package.
    pub(crate) fn package(&self) -> &'p Package<'a>
        ensures { result.now ≡ self.now.definitions }
    {
        self.from
    }

    /// The places of the value sets under their urls.
    pub(crate) fn into_places(self) -> Index
        ensures { Finds result (keys_of self.entry.definitions.value_sets) }
    {
        let Sources {
            from: _,
            value_sets,
            complete: _,
            tables: _,
            systems: _,
            numbers: _,
        } = self;
        value_sets
    }

    /// How many value sets there are.
    pub(crate) fn len(&self) -> usize
        ensures { result ≡ length self.now.definitions.value_sets }
    {
        self.from.len(Kind::ValueSet)
    }

    /// The value set at a place.
    pub(crate) fn tree(&self, place: usize) -> Option<&'p Json<'a>>
        ensures { tree_seen result ≡ tree_at self.now.definitions place }
    {
        match self.from.at(Kind::ValueSet, place) {
            Some((_url, json)) => Some(json),
            None => None,
        }
    }

    fn place_at(&self, url: &str) -> Option<usize>
        ensures { result ≡ place_at self.now.definitions url.now }
    {
        self.value_sets.get(url)
    }

    /// The place of the value set that a canonical names.
    pub(crate) fn place(&self, canonical: &str) -> Option<usize>
        ensures { result ≡ place_named self.now.definitions canonical.now }
    {
        match (
            self.from.get(Kind::ValueSet, canonical),
            Canonical::parse(canonical),
        ) {
            (Some(_tree), Ok(canonical)) => self.place_at(canonical.url()),
            _ => None,
        }
    }

    // ---- tables

    /// The table of a number.
    pub(crate) fn table(&self, number: usize) -> Option<&ConceptSet>
        ensures { option_copied result ≡ slice_get self.now.tables number }
    {
        self.tables.get(number)
    }

    /// A number that no table has.
    pub(crate) fn no_number(&self) -> usize
        ensures { table_at self.now.tables result ≡ sets.empty }
    {
        self.tables.len()
    }

    /// The number of the table of what has been found at a place.
    pub(crate) fn number_at(&self, place: usize) -> Option<usize>
        ensures { option_and_then (slice_get self.now.tables) result ≡ found_at (found self.now) place }
    {
        match self.numbers.get(place) {
            Some(Some(number)) => Some(*number),
            _ => None,
        }
    }

    /// The number of the table of what the value set that a canonical names has, if that has been found.
    pub(crate) fn number(&self, canonical: &str) -> Option<usize>
        ensures { option_and_then (slice_get self.now.tables) result ≡ known_in self.now canonical.now }
    {
        match self.place(canonical) {
            Some(place) => self.number_at(place),
            None => None,
        }
    }

    /// Keeps a table, and gives its number.
    pub(crate) fn keep(&mut self, concepts: ConceptSet) -> Result<usize, NoMemory>
        ensures kept { IfOk result (λ n. slice_get self.new.tables n ≡ Some concepts) }
        ensures definitions { self.new.definitions ≡ self.old.definitions }
        ensures found { found self.new ≡ found self.old }
    {
        let number = self.tables.len();
        self.tables.push(concepts)?;
        Ok(number)
    }

    /// What has been found at a place is the table of that number.
    pub(crate) fn set_number(&mut self, place: usize, number: usize)
        requires { number < length self.old.tables }
        ensures definitions { self.new.definitions ≡ self.old.definitions }
        ensures found { found self.new ≡ set (found self.old) place (slice_get self.old.tables number) }
    {
        if place < self.numbers.len() {
            self.numbers[place] = Some(number);
        }
    }

    // ---- code systems

    /// Whether the code system under a url is complete, and its concepts can be read. Each is read once.
    pub(crate) fn complete_at(&self, url: &str) -> bool
        ensures { result ≡ complete_at self.now.definitions url.now }
    {
        self.complete.get(url).is_some()
    }

    /// The number of the table of all that the code system under a url defines, if it has been made.
    pub(crate) fn system_number(&self, url: &str) -> Option<usize>
        ensures { IfSome result (λ n. slice_get self.now.tables n ≡ Some (whole_of self.now.definitions url.now)) }
    {
        self.systems.get(url)
    }

    /// That table, if it has been made.
    pub(crate) fn kept_whole(&self, url: &str) -> Option<&ConceptSet>
        ensures { IfSome result (λ s. s.now ≡ whole_of self.now.definitions url.now) }
    {
        match self.system_number(url) {
            Some(number) => self.table(number),
            None => None,
        }
    }

    /// All that the code system under a url defines.
    pub(crate) fn whole(
        &self,
        alloc: Global,
        texts: &mut Texts,
        url: &str,
    ) -> Result<ConceptSet, NoMemory>
        ensures { Gives (λ s. s) result (whole_of self.now.definitions url.now) }
    {
        match self.kept_whole(url) {
            Some(concepts) => concepts.share(),
            None => whole_of(alloc, texts, self.from, url),
        }
    }

    fn put_system(&mut self, alloc: Global, url: &str, number: usize) -> Result<(), NoMemory>
        requires { slice_get self.old.tables number ≡ Some (whole_of self.old.definitions url.now) }
        ensures { self.new ≡ self.old }
    {
        self.systems.put(alloc, url, number)?;
        Ok(())
    }

    /// Keeps all that the code system under a url defines, so that it is worked out once.
    pub(crate) fn keep_whole(
        &mut self,
        alloc: Global,
        texts: &mut Texts,
        url: &str,
    ) -> Result<(), NoMemory>
        ensures definitions { self.new.definitions ≡ self.old.definitions }
        ensures found { found self.new ≡ found self.old }
    {
        if self.system_number(url).is_some() {
            return Ok(());
        }
        let concepts = whole_of(alloc, texts, self.from, url)?;
        let number = self.keep(concepts)?;
        self.put_system(alloc, url, number)?;
        Ok(())
    }
}
