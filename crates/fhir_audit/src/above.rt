//! Which definitions are asked about: those whose urls begin with a prefix, and what these rest on.

ghost use Rattle.std.specs.Prelude.{◌≡◌, ◌<◌, ℕ, length, map, string_bytes, Bool, None, Some, IfOk, IsTrue};
ghost use Rattle.std.specs.List.{slice_get};
ghost use Rattle.fhir_json.specs.Tree.{Text, Tree};
ghost use Rattle.fhir_findings.specs.Selecting.{is_own};
ghost use Rattle.fhir_audit.specs.Asked.{IsClosed, AreAsked};
ghost use Rattle.fhir_audit.specs.Marks.{marked, IsMarked, RestsWithin, AreWithin, IsTaken, is_own_at};

use crate::profile::base_place;
use fhir_json::NoMemory;
use fhir_package::{Kind, Package};
use std::alloc::{AllocError, Global};

/// Whether a url begins with one of some prefixes.
pub(crate) fn is_own(prefixes: &[String], url: &str) -> bool
    ensures { result ≡ is_own (map string_bytes prefixes.now) url.now }
{
    for prefix in prefixes {
        if url.as_bytes().starts_with(prefix.as_str().as_bytes()) {
            return true;
        }
    }
    false
}

/// Whether a place is marked.
pub(crate) fn is_marked(marks: &[bool], place: usize) -> bool
    ensures { result ≡ marked marks.now place }
{
    match marks.get(place) {
        Some(mark) => *mark,
        None => false,
    }
}

fn marks_of(alloc: Global, count: usize, mark: bool) -> Result<Vec<bool>, AllocError>
    ensures long { IfOk result (λ marks. length marks.items ≡ count) }
    ensures each { IfOk result (λ marks. (place : ℕ) → place < count → marked marks.items place ≡ mark) }
{
    let mut marks = Vec::with_capacity(alloc, count)?;
    for _ in 0..count {
        marks.push(mark)?;
    }
    Ok(marks)
}

// Marks a definition, and what it rests on, as far as that isn't marked.
fn climb(package: &Package<'_>, from: usize, marks: &mut [bool])
    requires long { length marks.old ≡ length «package».now.structure_definitions }
    requires there { from < length marks.old }
    ensures kept { (place : ℕ) → IsMarked marks.old place → IsMarked marks.new place }
    ensures from { IsMarked marks.new from }
    ensures within { AreWithin «package».now marks.old from marks.new }
    ensures rests { RestsWithin «package».now marks.old None → RestsWithin «package».now marks.new None }
{
    let mut at = Some(from);
    while let Some(place) = at {
        if place >= marks.len() || marks[place] {
            return;
        }
        marks[place] = true;
        at = base_place(package, place);
    }
}

// Marks a definition, if it is one of the own, and what it rests on.
fn climb_if(is_taken: bool, package: &Package<'_>, place: usize, marks: &mut [bool])
    requires long { length marks.old ≡ length «package».now.structure_definitions }
    requires there { place < length marks.old }
    ensures { IsTaken «package».now is_taken place marks.old marks.new }
{
    if is_taken {
        climb(package, place, marks);
    }
}

// Whether the url of the definition at a place begins with a prefix.
fn is_own_at(package: &Package<'_>, prefixes: &[String], place: usize) -> bool
    ensures { result ≡ is_own_at (map string_bytes prefixes.now) «package».now place }
{
    match package.at(Kind::StructureDefinition, place) {
        Some((url, _definition)) => is_own(prefixes, url),
        None => false,
    }
}

// Marks the definition at a place, if its url begins with a prefix, and what it rests on.
fn take(package: &Package<'_>, prefixes: &[String], place: usize, marks: &mut [bool])
    requires long { length marks.old ≡ length «package».now.structure_definitions }
    requires there { place < length marks.old }
    ensures { IsTaken «package».now (is_own_at (map string_bytes prefixes.now) «package».now place) place marks.old marks.new }
{
    climb_if(is_own_at(package, prefixes, place), package, place, marks);
}

// Marks those whose urls begin with a prefix, and what they rest on.
fn take_all(package: &Package<'_>, prefixes: &[String], marks: &mut [bool])
    requires long { length marks.old ≡ length «package».now.structure_definitions }
    requires none { (place : ℕ) → IsMarked marks.old place → ⊥ }
    ensures closed { IsClosed (map string_bytes prefixes.now) «package».now (marked marks.new) }
    ensures least { (set : ℕ → Bool) → IsClosed (map string_bytes prefixes.now) «package».now set
        → (place : ℕ) → IsMarked marks.new place → IsTrue (set place) }
{
    for place in 0..marks.len() {
        take(package, prefixes, place, marks);
    }
}

fn marked_by(
    alloc: Global,
    package: &Package<'_>,
    prefixes: &[String],
) -> Result<Vec<bool>, AllocError>
    ensures closed { IfOk result (λ marks. IsClosed (map string_bytes prefixes.now) «package».now (marked marks.items)) }
    ensures least { IfOk result (λ marks. (set : ℕ → Bool) → IsClosed (map string_bytes prefixes.now) «package».now set
        → (place : ℕ) → IsMarked marks.items place → IsTrue (set place)) }
{
    let mut marks = marks_of(alloc, package.len(Kind::StructureDefinition), false)?;
    take_all(package, prefixes, marks.as_mut_slice());
    Ok(marks)
}

/// Of each StructureDefinition of a package whether it is asked about: all are, where there are no prefixes; else those whose urls begin with one
/// of them, and what these rest on. Each is looked at once.
pub(crate) fn asked_about(
    alloc: Global,
    package: &Package<'_>,
    prefixes: &[String],
) -> Result<Vec<bool>, NoMemory>
    ensures { IfOk result (λ marks. AreAsked (map string_bytes prefixes.now) «package».now (marked marks.items)) }
{
    match prefixes {
        [] => Ok(marks_of(alloc, package.len(Kind::StructureDefinition), true)?),
        [_, ..] => Ok(marked_by(alloc, package, prefixes)?),
    }
}
