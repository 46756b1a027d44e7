//! Sets of concepts.

ghost use Rattle.std.specs.Prelude.{◌≡◌, IsTrue, IfSome, is_some, is_none, option_map, not, true, false};
ghost use Rattle.std.specs.List.Sorted.{IsSorted};
ghost use Rattle.std.specs.List.{find, list_all, list_any};
ghost use Rattle.std.specs.Ordering.{eq_by_cmp};
ghost use Rattle.std.specs.FinSet as set;
ghost use Rattle.fhir_json.specs.Memory.{Gives};
ghost use Rattle.fhir_codes.specs.Concepts.{concept, concept_cmp, has_code};

use crate::shared_concept::SharedConcept;
use fhir_json::NoMemory;
use std::marker::Model;
use std::rc::RcSlice;

/// A finite set of concepts: a table in the order of the codes' bytes, and then of the systems', in which each concept
/// stands once.
pub struct ConceptSet {
    table: RcSlice<SharedConcept>,
}

// A derived drop would be proved anew in each crate that owns one.
impl Drop for ConceptSet {
    fn drop(self) {
        let ConceptSet { table: _table } = self;
    }
}

impl Model for ConceptSet {
    ghost use Rattle.std.specs.Rc.{rc_slice_items};
    ghost use Rattle.std.specs.List.Sorted.{IsSorted};
    ghost use Rattle.std.specs.FinSet as set;
    ghost use Rattle.fhir_codes.specs.Concepts.{Concepts, concept_cmp};
    ghost use Rattle.fhir_codes.specs.Coding.{concept_code};

    ghost Value = { Concepts };

    ghost coded = { set.code concept_code };

    ghost view = { λ s. set.from_list (rc_slice_items s.table) };

    ghost invariant = { λ s. IsSorted concept_cmp (rc_slice_items s.table) };
}

fn all_in(concepts: &[SharedConcept], other: &ConceptSet) -> bool
    ensures { result ≡ list_all (set.contains other.now) concepts.now }
{
    concepts.iter().all(|c| other.has(c))
}

// The place of the concept of a code in a system, by a binary search.
fn search(concepts: &[SharedConcept], system: &str, code: &str) -> Option<usize>
    requires { IsSorted concept_cmp concepts.now }
    ensures { is_some result ≡ list_any (eq_by_cmp concept_cmp (concept system.now code.now)) concepts.now }
{
    concepts.binary_search_by(|c| c.cmp_to(system, code)).ok()
}

// The system and the code of a concept.
fn parts(found: Option<&SharedConcept>) -> Option<(&str, &str)>
    ensures { option_map (λ c. concept c.0.now c.1.now) result ≡ option_map (λ c. c.now) found.entry }
{
    match found {
        Some(concept) => Some((concept.system(), concept.code())),
        None => None,
    }
}

fn first_outside<'c>(concepts: &'c [SharedConcept], other: &ConceptSet) -> Option<&'c SharedConcept>
    ensures { option_map (λ c. c.now) result ≡ find (λ c. not (set.contains other.now c)) concepts.entry.now }
{
    for concept in concepts {
        if !other.has(concept) {
            return Some(concept);
        }
    }
    None
}

fn first_code_outside<'c>(
    concepts: &'c [SharedConcept],
    other: &ConceptSet,
) -> Option<&'c SharedConcept>
    ensures { option_map (λ c. c.now) result ≡ find (λ c. not (has_code c.code other.now)) concepts.entry.now }
{
    for concept in concepts {
        if !other.contains_code(concept.code()) {
            return Some(concept);
        }
    }
    None
}

fn first_common<'c>(concepts: &'c [SharedConcept], other: &ConceptSet) -> Option<&'c SharedConcept>
    ensures { option_map (λ c. c.now) result ≡ find (set.contains other.now) concepts.entry.now }
{
    for concept in concepts {
        if other.has(concept) {
            return Some(concept);
        }
    }
    None
}

impl ConceptSet {
    /// The set of these concepts, in any order.
    pub(crate) fn of(mut concepts: Vec<SharedConcept>) -> Result<ConceptSet, NoMemory>
        ensures { Gives (λ s. s) result (set.from_list concepts.items) }
    {
        concepts.sort_unstable_by(|x, y| x.cmp_with(y));
        concepts.dedup_by(|x, y| x.is_same(y));
        let table = RcSlice::from_vec(concepts)?;
        Ok(ConceptSet { table })
    }

    /// The same set, with the same table.
    pub(crate) fn share(&self) -> Result<ConceptSet, NoMemory>
        ensures { Gives (λ s. s) result self.now }
    {
        let table = self.table.clone()?;
        Ok(ConceptSet { table })
    }

    /// Whether the set has the concept of a code in a system, by a binary search.
    pub fn contains(&self, system: &str, code: &str) -> bool
        ensures { result ≡ set.contains self.now (concept system.now code.now) }
    {
        search(self.table.as_slice(), system, code).is_some()
    }

    /// Whether the set has a concept of that code in any system, by a binary search.
    pub fn contains_code(&self, code: &str) -> bool
        ensures { result ≡ has_code code.now self.now }
    {
        self.table
            .as_slice()
            .binary_search_by(|c| c.cmp_code(code))
            .is_ok()
    }

    /// The system and the code of the first concept that another set doesn't have, in the order of the codes' bytes, and then of the
    /// systems'.
    pub fn first_outside(&self, other: &ConceptSet) -> Option<(&str, &str)>
        ensures none { is_none result ≡ set.is_subset self.now other.now }
        ensures found { IfSome result (λ c. (set.contains self.now (concept c.0.now c.1.now) ≡ true)
            × (set.contains other.now (concept c.0.now c.1.now) ≡ false)) }
    {
        parts(first_outside(self.table.as_slice(), other))
    }

    /// The first whose code no concept of another set has.
    pub fn first_code_outside(&self, other: &ConceptSet) -> Option<(&str, &str)>
        ensures some { is_some result ≡ list_any (λ c. not (has_code c.code other.now)) (set.items self.now) }
        ensures found { IfSome result (λ c. (set.contains self.now (concept c.0.now c.1.now) ≡ true) × (has_code c.1.now other.now ≡ false)) }
    {
        parts(first_code_outside(self.table.as_slice(), other))
    }

    /// The first that another set has too.
    pub fn first_common(&self, other: &ConceptSet) -> Option<(&str, &str)>
        ensures some { is_some result ≡ list_any (set.contains other.now) (set.items self.now) }
        ensures found { IfSome result (λ c. (set.contains self.now (concept c.0.now c.1.now) ≡ true)
            × (set.contains other.now (concept c.0.now c.1.now) ≡ true)) }
    {
        parts(first_common(self.table.as_slice(), other))
    }

    pub(crate) fn has(&self, concept: &SharedConcept) -> bool
        ensures { result ≡ set.contains self.now concept.now }
    {
        self.contains(concept.system(), concept.code())
    }

    /// The concepts, in the order of the codes' bytes, and then of the systems'.
    pub fn concepts(&self) -> &[SharedConcept]
        ensures { set.from_list result.now ≡ self.now }
    {
        self.table.as_slice()
    }

    /// Whether the set has no concept.
    pub(crate) fn is_empty(&self) -> bool
        ensures { IsTrue result → self.now ≡ set.empty }
    {
        self.table.as_slice().is_empty()
    }

    /// Whether each concept of this set is one of the other: a binary search for each.
    pub fn is_subset(&self, other: &ConceptSet) -> bool
        ensures { result ≡ set.is_subset self.now other.now }
    {
        all_in(self.table.as_slice(), other)
    }
}
