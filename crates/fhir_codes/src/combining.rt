//! Unions, intersections and differences of sets of concepts.

ghost use Rattle.std.specs.Prelude.{◌≡◌, ◌<◌, [], ◌∷◌, ◌++◌, filter, if◌then◌else◌, length, not, OnOk};
ghost use Rattle.std.specs.List.{list_all};
ghost use Rattle.std.specs.FinSet as set;
ghost use Rattle.fhir_json.specs.Memory.{Gives};
ghost use Rattle.fhir_codes.specs.Concepts.{union_of, common};

use crate::concept_set::ConceptSet;
use crate::shared_concept::SharedConcept;
use fhir_json::NoMemory;
use std::alloc::Global;

fn put_all(out: &mut Vec<SharedConcept>, concepts: &[SharedConcept]) -> Result<(), NoMemory>
    ensures { OnOk result (out.new.items ≡ out.old.items ++ concepts.now) }
{
    for concept in concepts {
        out.push(concept.share()?)?;
    }
    Ok(())
}

fn put_if(
    out: &mut Vec<SharedConcept>,
    concept: &SharedConcept,
    is_kept: bool,
) -> Result<(), NoMemory>
    ensures { OnOk result (out.new.items ≡ (if is_kept then out.old.items ++ concept.now ∷ [] else out.old.items)) }
{
    if is_kept {
        out.push(concept.share()?)?;
    }
    Ok(())
}

fn have_all(sets: &[ConceptSet], concept: &SharedConcept) -> bool
    ensures { result ≡ list_all (λ s. set.contains s concept.now) sets.now }
{
    sets.iter().all(|s| s.has(concept))
}

fn kept_in_all(
    alloc: Global,
    concepts: &[SharedConcept],
    sets: &[ConceptSet],
) -> Result<ConceptSet, NoMemory>
    ensures { Gives (λ s. s) result
        (set.from_list (filter (λ c. list_all (λ s. set.contains s c) sets.now) concepts.now)) }
{
    let mut kept = Vec::new(alloc);
    for concept in concepts {
        let is_kept = have_all(sets, concept);
        put_if(&mut kept, concept, is_kept)?;
    }
    ConceptSet::of(kept)
}

fn kept_outside(
    alloc: Global,
    concepts: &[SharedConcept],
    less: &ConceptSet,
) -> Result<ConceptSet, NoMemory>
    ensures { Gives (λ s. s) result
        (set.from_list (filter (λ c. not (set.contains less.now c)) concepts.now)) }
{
    let mut kept = Vec::new(alloc);
    for concept in concepts {
        let is_kept = !less.has(concept);
        put_if(&mut kept, concept, is_kept)?;
    }
    ConceptSet::of(kept)
}

// The place of a set with the fewest concepts.
fn smallest(sets: &[ConceptSet]) -> usize
    requires { 0 < length sets.now }
    ensures { result < length sets.now }
{
    let mut least = 0;
    for place in 1..sets.len() {
        if sets[place].concepts().len() < sets[least].concepts().len() {
            least = place;
        }
    }
    least
}

fn united_anew(alloc: Global, sets: &[ConceptSet]) -> Result<ConceptSet, NoMemory>
    ensures { Gives (λ s. s) result (union_of sets.now) }
{
    let mut all = Vec::new(alloc);
    for one in sets {
        put_all(&mut all, one.concepts())?;
    }
    ConceptSet::of(all)
}

/// The concepts that are in one of the sets. A single set keeps its table.
pub(crate) fn union_of(alloc: Global, sets: &[ConceptSet]) -> Result<ConceptSet, NoMemory>
    ensures { Gives (λ s. s) result (union_of sets.now) }
{
    match sets {
        [only] => only.share(),
        _ => united_anew(alloc, sets),
    }
}

fn common_anew(alloc: Global, sets: &[ConceptSet]) -> Result<ConceptSet, NoMemory>
    requires { 0 < length sets.now }
    ensures { Gives (λ s. s) result (common sets.now) }
{
    let least = &sets[smallest(sets)];
    kept_in_all(alloc, least.concepts(), sets)
}

/// The concepts that are in all of the sets, found by a walk through the smallest. A single set keeps its table.
pub(crate) fn common(alloc: Global, sets: &[ConceptSet]) -> Result<ConceptSet, NoMemory>
    ensures { Gives (λ s. s) result (common sets.now) }
{
    match sets {
        [] => ConceptSet::of(Vec::new(alloc)),
        [only] => only.share(),
        _ => common_anew(alloc, sets),
    }
}

/// The concepts of the first set that aren't in the other. Where the other is empty, the first keeps its table.
pub(crate) fn without(
    alloc: Global,
    from: &ConceptSet,
    less: &ConceptSet,
) -> Result<ConceptSet, NoMemory>
    ensures { Gives (λ s. s) result (set.difference from.now less.now) }
{
    if less.is_empty() {
        from.share()
    } else {
        kept_outside(alloc, from.concepts(), less)
    }
}
