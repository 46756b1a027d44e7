//! What is said of each profile of OLD by itself, whatever it reaches.

ghost use Rattle.std.specs.Prelude.{◌≡◌, ◌++◌, IfOk};
ghost use Rattle.fhir_schema.specs.Schemas.{schema_of};
ghost use Rattle.fhir_beside.specs.Views.{profile_seen};
ghost use Rattle.fhir_compare.specs.Losing.{lost_name};
ghost use Rattle.fhir_compare.specs.Owns.{IsBothOf, IsOwnOf, IsOwnAt, AreOwns};
ghost use Rattle.fhir_compare.specs.Views.{own_seen, all_owns};

use crate::losing::lost_name;
use crate::sides::Comparison;
use crate::verdict::Shown;
use crate::ways::{Direction, Two, shown};
use fhir_alike::{has_profile, marked};
use fhir_beside::{Profile, profile_at};
use fhir_json::NoMemory;
use fhir_package::Kind;
use std::alloc::Global;

/// What is shown of a profile of OLD by itself.
#[derive(Drop)]
pub(crate) enum Own<'s> {
    /// Both can be used.
    Both {
        /// That NEW's narrows OLD's.
        new_in_old: Shown<'s>,
        /// That OLD's narrows NEW's.
        old_in_new: Shown<'s>,
        /// What it names that doesn't stay.
        lost: Option<&'s str>,
    },
    /// One can't be used, or none.
    CannotBeUsed {
        /// That of OLD can't.
        in_old: bool,
        /// That of NEW can't.
        in_new: bool,
    },
    /// NEW has none of its url.
    OnlyInOld,
    /// It is no profile.
    Other,
}

// ---- one profile

// Of one that both have and can use.
fn both_of<'s>(
    alloc: Global,
    sides: Comparison<'s, '_, '_>,
    profile: Profile<'s, '_>,
) -> Result<Own<'s>, NoMemory>
    ensures { IfOk result (λ o. IsBothOf sides.entry.old_schema.now sides.entry.schema.now (lost_name sides.entry.old.now sides.entry.new.now sides.entry.old_schema.now sides.entry.schema.now profile.entry.definition.now) profile.entry.url.now (sides.entry.mark.now ++ profile.entry.url.now) (own_seen o)) }
{
    let own = marked(alloc, sides.mark, profile.url)?;
    let two = Two {
        old_schema: sides.old_schema,
        schema: sides.schema,
        url: profile.url,
        own: own.as_str(),
    };
    let new_in_old = shown(alloc, Direction::NewInOld, two)?;
    let old_in_new = shown(alloc, Direction::OldInNew, two)?;
    let lost = lost_name(alloc, sides, profile)?;
    Ok(Own::Both {
        new_in_old,
        old_in_new,
        lost,
    })
}

fn own_of<'s>(
    alloc: Global,
    sides: Comparison<'s, '_, '_>,
    place: usize,
    profile: Profile<'s, '_>,
) -> Result<Own<'s>, NoMemory>
    ensures { IfOk result (λ o. IsOwnOf sides.entry.old.now sides.entry.new.now sides.entry.mark.now sides.entry.old_schema.now sides.entry.schema.now place (profile_seen profile.entry) (own_seen o)) }
{
    if !has_profile(sides.new, profile.url) {
        return Ok(Own::OnlyInOld);
    }
    let in_old = sides.old_schema.reason(place).is_some();
    let in_new = sides.schema.unusable(profile.url).is_some();
    if in_old | in_new {
        return Ok(Own::CannotBeUsed { in_old, in_new });
    }
    both_of(alloc, sides, profile)
}

// Of the definition at a place of OLD.
fn own_at<'s>(
    alloc: Global,
    sides: Comparison<'s, '_, '_>,
    place: usize,
) -> Result<Own<'s>, NoMemory>
    requires schema { sides.schema.now ≡ schema_of sides.new.now }
    requires old { sides.old_schema.now ≡ schema_of sides.old.now }
    ensures { IfOk result (λ o. IsOwnAt sides.entry.old.now sides.entry.new.now sides.entry.mark.now place (own_seen o)) }
{
    match profile_at(sides.old, sides.old_schema, place) {
        Some(profile) => own_of(alloc, sides, place, profile),
        None => Ok(Own::Other),
    }
}

/// What is shown of each definition of OLD by itself, in order.
pub(crate) fn all_own<'s>(
    alloc: Global,
    sides: Comparison<'s, '_, '_>,
) -> Result<Vec<Own<'s>>, NoMemory>
    requires schema { sides.schema.now ≡ schema_of sides.new.now }
    requires old { sides.old_schema.now ≡ schema_of sides.old.now }
    ensures { IfOk result (λ v. AreOwns sides.entry.old.now sides.entry.new.now sides.entry.mark.now (all_owns v.items)) }
{
    let count = sides.old.len(Kind::StructureDefinition);
    let mut all: Vec<Own<'s>> = Vec::with_capacity(alloc, count)?;
    for place in 0..count {
        all.push(own_at(alloc, sides, place)?)?;
    }
    Ok(all)
}
