//! The profiles of two packages, url by url.

ghost use Rattle.std.specs.Prelude.{◌≡◌, ◌++◌, Some, IfOk, OnOk, option_map};
ghost use Rattle.std.specs.List.{slice_get};
ghost use Rattle.fhir_json.specs.Views.{tree_of, text_seen};
ghost use Rattle.fhir_schema.specs.Schemas.{schema_of};
ghost use Rattle.fhir_alike.specs.Spreading.{IsSpread};
ghost use Rattle.fhir_compare.specs.Comparing.{Direction, new_in_old, old_in_new, is_narrowing, edges, is_new, all_new, is_new_url, new_at, IsComparison};
ghost use Rattle.fhir_compare.specs.Owns.{fails, all_fail, AreOwns, blamed_url, verdict_by, said_by, all_said_by};
ghost use Rattle.fhir_compare.specs.Views.{shown_seen, own_seen, all_owns, verdict_seen, all_said};

use crate::owning::{Own, all_own};
use crate::reaching::edges_of;
use crate::sides::Comparison;
use crate::verdict::{Compared, Shown, Verdict, Way, Ways};
use fhir_alike::{has_profile, is_profile, spread};
use fhir_json::{Json, NoMemory};
use fhir_package::{Kind, Package};
use std::alloc::{AllocError, Global};

// ---- which fail

fn narrows(shown: &Shown<'_>) -> bool
    ensures { result ≡ is_narrowing (shown_seen shown.now) }
{
    match shown {
        Shown::Narrows => true,
        Shown::Fails { .. } | Shown::CannotBeUsed => false,
    }
}

// Whether it isn't shown of a profile by itself that NEW's narrows OLD's.
fn fails_in_old(own: &Own<'_>) -> bool
    ensures { result ≡ fails new_in_old (own_seen own.now) }
{
    match own {
        Own::Both {
            new_in_old,
            lost,
            ..
        } => !narrows(new_in_old) | lost.is_some(),
        Own::CannotBeUsed { .. } | Own::OnlyInOld => true,
        Own::Other => false,
    }
}

// The same of OLD's and NEW's.
fn fails_in_new(own: &Own<'_>) -> bool
    ensures { result ≡ fails old_in_new (own_seen own.now) }
{
    match own {
        Own::Both {
            old_in_new,
            lost,
            ..
        } => !narrows(old_in_new) | lost.is_some(),
        Own::CannotBeUsed { .. } | Own::OnlyInOld => true,
        Own::Other => false,
    }
}

fn marks_in_old(alloc: Global, all: &[Own<'_>]) -> Result<Vec<bool>, AllocError>
    ensures { IfOk result (λ v. v.items ≡ all_fail new_in_old (all_owns all.now)) }
{
    let mut marks = Vec::with_capacity(alloc, all.len())?;
    for own in all {
        marks.push(fails_in_old(own))?;
    }
    Ok(marks)
}

fn marks_in_new(alloc: Global, all: &[Own<'_>]) -> Result<Vec<bool>, AllocError>
    ensures { IfOk result (λ v. v.items ≡ all_fail old_in_new (all_owns all.now)) }
{
    let mut marks = Vec::with_capacity(alloc, all.len())?;
    for own in all {
        marks.push(fails_in_new(own))?;
    }
    Ok(marks)
}

// For each place of OLD one that it reaches and of which a way isn't shown.
#[derive(Drop)]
struct Blamed {
    new_in_old: Vec<Option<usize>>,
    old_in_new: Vec<Option<usize>>,
}

fn blamed_of(
    alloc: Global,
    sides: Comparison<'_, '_, '_>,
    all: &[Own<'_>],
) -> Result<Blamed, NoMemory>
    requires old { sides.old_schema.now ≡ schema_of sides.old.now }
    requires owns { AreOwns sides.old.now sides.new.now sides.mark.now (all_owns all.now) }
    ensures in_old { IfOk result (λ b. IsSpread (edges sides.entry.old.now) (all_fail new_in_old (all_owns all.now)) b.new_in_old.items) }
    ensures in_new { IfOk result (λ b. IsSpread (edges sides.entry.old.now) (all_fail old_in_new (all_owns all.now)) b.old_in_new.items) }
{
    let edges = edges_of(alloc, sides)?;
    let in_old = marks_in_old(alloc, all)?;
    let in_new = marks_in_new(alloc, all)?;
    let new_in_old = spread(alloc, &edges, &in_old)?;
    let old_in_new = spread(alloc, &edges, &in_new)?;
    Ok(Blamed {
        new_in_old,
        old_in_new,
    })
}

// ---- what is said of OLD's

// The url of what is told of a place.
fn blamed_url<'s>(old: &'s Package<'_>, told: &[Option<usize>], place: usize) -> Option<&'s str>
    ensures { text_seen result ≡ blamed_url old.entry.now told.now place }
{
    let blamed = (*told.get(place)?)?;
    let (url, _definition) = old.at(Kind::StructureDefinition, blamed)?;
    Some(url)
}

fn verdict_of<'s>(
    old: &'s Package<'_>,
    blamed: &Blamed,
    place: usize,
    own: Own<'s>,
) -> Option<Verdict<'s>>
    ensures { option_map verdict_seen result ≡ verdict_by old.entry.now blamed.now.new_in_old.items blamed.now.old_in_new.items place (own_seen own.entry) }
{
    match own {
        Own::Both {
            new_in_old,
            old_in_new,
            lost,
        } => Some(Verdict::Both(Ways {
            new_in_old: Way {
                shown: new_in_old,
                blamed: blamed_url(old, &blamed.new_in_old, place),
            },
            old_in_new: Way {
                shown: old_in_new,
                blamed: blamed_url(old, &blamed.old_in_new, place),
            },
            lost,
        })),
        Own::CannotBeUsed { in_old, in_new } => Some(Verdict::CannotBeUsed { in_old, in_new }),
        Own::OnlyInOld => Some(Verdict::OnlyInOld),
        Own::Other => None,
    }
}

fn push_verdict<'s>(
    old: &'s Package<'_>,
    blamed: &Blamed,
    place: usize,
    own: Own<'s>,
    into: &mut Vec<Compared<'s>>,
) -> Result<(), NoMemory>
    ensures { OnOk result (all_said into.new.items ≡ all_said into.old.items
        ++ said_by old.entry.now blamed.now.new_in_old.items blamed.now.old_in_new.items place (own_seen own.entry)) }
{
    let Some((url, _definition)) = old.at(Kind::StructureDefinition, place) else {
        return Ok(());
    };
    match verdict_of(old, blamed, place, own) {
        Some(verdict) => Ok(into.push(Compared { url, verdict })?),
        None => Ok(()),
    }
}

// What is said of each of OLD's profiles, in order.
fn said_of_old<'s>(
    alloc: Global,
    old: &'s Package<'_>,
    blamed: &Blamed,
    all: Vec<Own<'s>>,
) -> Result<Vec<Compared<'s>>, NoMemory>
    ensures { IfOk result (λ v. all_said v.items
        ≡ all_said_by old.entry.now blamed.now.new_in_old.items blamed.now.old_in_new.items 0 (all_owns all.entry.items)) }
{
    let mut said: Vec<Compared<'s>> = Vec::new(alloc);
    for (place, own) in all.into_iter().enumerate() {
        push_verdict(old, blamed, place, own, &mut said)?;
    }
    Ok(said)
}

// ---- what is said of NEW's

// Whether NEW alone has a profile of that url: one that isn't OLD's, and that OLD hasn't.
fn is_new(sides: Comparison<'_, '_, '_>, url: &str, definition: &Json<'_>) -> bool
    ensures { result ≡ is_new sides.entry.old.now sides.entry.mark.now (url.now, tree_of definition.now) }
{
    is_profile(definition) && is_new_url(sides, url)
}

fn is_new_url(sides: Comparison<'_, '_, '_>, url: &str) -> bool
    ensures { result ≡ is_new_url sides.entry.old.now sides.entry.mark.now url.now }
{
    !url.as_bytes().starts_with(sides.mark.as_bytes()) && !has_profile(sides.old, url)
}

fn push_if_new<'s>(
    sides: Comparison<'s, '_, '_>,
    url: &'s str,
    definition: &Json<'_>,
    into: &mut Vec<Compared<'s>>,
) -> Result<(), AllocError>
    ensures { OnOk result (all_said into.new.items ≡ all_said into.old.items
        ++ new_at sides.entry.old.now sides.entry.mark.now (Some (url.entry.now, tree_of definition.now))) }
{
    if is_new(sides, url, definition) {
        let verdict = Verdict::OnlyInNew;
        Ok(into.push(Compared { url, verdict })?)
    } else {
        Ok(())
    }
}

fn push_new_at<'s>(
    sides: Comparison<'s, '_, '_>,
    place: usize,
    into: &mut Vec<Compared<'s>>,
) -> Result<(), AllocError>
    ensures { OnOk result (all_said into.new.items ≡ all_said into.old.items
        ++ new_at sides.entry.old.now sides.entry.mark.now (slice_get sides.entry.new.now.structure_definitions place)) }
{
    match sides.new.at(Kind::StructureDefinition, place) {
        Some((url, definition)) => push_if_new(sides, url, definition, into),
        None => Ok(()),
    }
}

// Those that NEW alone has.
fn push_new<'s>(
    sides: Comparison<'s, '_, '_>,
    into: &mut Vec<Compared<'s>>,
) -> Result<(), AllocError>
    ensures { OnOk result (all_said into.new.items ≡ all_said into.old.items
        ++ all_new sides.entry.old.now sides.entry.new.now sides.entry.mark.now) }
{
    for place in 0..sides.new.len(Kind::StructureDefinition) {
        push_new_at(sides, place, into)?;
    }
    Ok(())
}

/// Each url of which one of two packages has a profile: those of OLD in its order, then those that NEW alone has. Of those that both have, and that can
/// be used in both, it is derived that NEW's narrows OLD's, and that OLD's narrows NEW's; each way holds if it is derived of the profile, and of each
/// that it reaches. The time is near linear in the profiles. The one refusal is want of memory.
pub fn compare<'s>(
    alloc: Global,
    sides: Comparison<'s, '_, '_>,
) -> Result<Vec<Compared<'s>>, NoMemory>
    requires schema { sides.schema.now ≡ schema_of sides.new.now }
    requires old { sides.old_schema.now ≡ schema_of sides.old.now }
    ensures { IfOk result (λ v. IsComparison sides.entry.old.now sides.entry.new.now sides.entry.mark.now (all_said v.items)) }
{
    let all = all_own(alloc, sides)?;
    let blamed = blamed_of(alloc, sides, &all)?;
    let mut said = said_of_old(alloc, sides.old, &blamed, all)?;
    push_new(sides, &mut said)?;
    Ok(said)
}
