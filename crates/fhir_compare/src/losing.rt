//! What a profile of OLD names that doesn't mean the same in both packages.

ghost use Rattle.std.specs.Prelude.{◌≡◌, IfOk};
ghost use Rattle.fhir_json.specs.Views.{text_seen};
ghost use Rattle.fhir_facets.specs.Targets.{target_type};
ghost use Rattle.fhir_alike.specs.Naming.{lost_reference};
ghost use Rattle.fhir_compare.specs.Losing.{same_type, target_stays, lost_profile, lost_target, lost_content, first_some, lost_name};

use crate::sides::Comparison;
use fhir_alike::{content_stays, profile_stays, profiles_named, targets_named};
use fhir_beside::Profile;
use fhir_elements::ElementDef;
use fhir_json::NoMemory;
use fhir_schema::Schema;
use std::alloc::Global;

// ---- profiles

// The first profile of a type that a profile names, and that isn't a profile, or none, in both packages.
fn lost_profile<'s>(
    alloc: Global,
    sides: Comparison<'s, '_, '_>,
    profile: Profile<'s, '_>,
) -> Result<Option<&'s str>, NoMemory>
    ensures { IfOk result (λ r. text_seen r ≡ lost_profile sides.entry.old.now sides.entry.new.now profile.entry.definition.now) }
{
    let names = profiles_named(alloc, profile.definition)?;
    for name in &names {
        if !profile_stays(sides.old, sides.new, *name) {
            return Ok(Some(*name));
        }
    }
    Ok(None)
}

// ---- targets

// The type of the definition that a canonical names, if that can be used.
fn target_type<'s>(schema: &'s Schema, canonical: &str) -> Option<&'s str>
    ensures { text_seen result ≡ target_type schema.now canonical.now }
{
    match schema.loaded(canonical) {
        Some(root) => Some(schema.type_code(root)),
        None => None,
    }
}

fn same_type(old: Option<&str>, made: Option<&str>) -> bool
    ensures { result ≡ same_type (text_seen old.entry) (text_seen made.entry) }
{
    match (old, made) {
        (Some(old), Some(made)) => old == made,
        (None, None) => true,
        _ => false,
    }
}

// Whether a target is of one type in both packages, or can be used in neither.
fn target_stays(sides: Comparison<'_, '_, '_>, canonical: &str) -> bool
    ensures { result ≡ target_stays sides.entry.old_schema.now sides.entry.schema.now canonical.now }
{
    same_type(
        target_type(sides.old_schema, canonical),
        target_type(sides.schema, canonical),
    )
}

// The first target that a profile names, and that doesn't stay.
fn lost_target<'s>(
    alloc: Global,
    sides: Comparison<'s, '_, '_>,
    profile: Profile<'s, '_>,
) -> Result<Option<&'s str>, NoMemory>
    ensures { IfOk result (λ r. text_seen r ≡ lost_target sides.entry.old_schema.now sides.entry.schema.now profile.entry.definition.now) }
{
    let targets = targets_named(alloc, profile.definition)?;
    for target in &targets {
        if !target_stays(sides, *target) {
            return Ok(Some(*target));
        }
    }
    Ok(None)
}

// ---- contents

// The content of an element, if it is another one's that doesn't stay.
fn lost_reference<'s>(sides: Comparison<'s, '_, '_>, element: &'s ElementDef) -> Option<&'s str>
    ensures { text_seen result ≡ lost_reference sides.entry.old.now sides.entry.new.now element.entry.now }
{
    let reference = element.content_reference()?;
    if content_stays(sides.old, sides.new, reference) {
        None
    } else {
        Some(reference)
    }
}

// The first reference of an element to the content of another one's that doesn't stay.
fn lost_content<'s>(sides: Comparison<'s, '_, '_>, profile: Profile<'s, '_>) -> Option<&'s str>
    ensures { text_seen result ≡ lost_content sides.entry.old.now sides.entry.new.now profile.entry.definition.now }
{
    for element in profile.definition.elements() {
        let lost = lost_reference(sides, element);
        if lost.is_some() {
            return lost;
        }
    }
    None
}

// ---- all that is named

fn lost_behind<'s>(
    alloc: Global,
    sides: Comparison<'s, '_, '_>,
    profile: Profile<'s, '_>,
) -> Result<Option<&'s str>, NoMemory>
    ensures { IfOk result (λ r. text_seen r
        ≡ first_some (lost_target sides.entry.old_schema.now sides.entry.schema.now profile.entry.definition.now)
        (lost_content sides.entry.old.now sides.entry.new.now profile.entry.definition.now)) }
{
    match lost_target(alloc, sides, profile)? {
        Some(target) => Ok(Some(target)),
        None => Ok(lost_content(sides, profile)),
    }
}

/// The first profile of a type that a profile names and that doesn't stay, or else the first target, or else the first content.
pub(crate) fn lost_name<'s>(
    alloc: Global,
    sides: Comparison<'s, '_, '_>,
    profile: Profile<'s, '_>,
) -> Result<Option<&'s str>, NoMemory>
    ensures { IfOk result (λ r. text_seen r ≡ lost_name sides.entry.old.now sides.entry.new.now sides.entry.old_schema.now sides.entry.schema.now profile.entry.definition.now) }
{
    match lost_profile(alloc, sides, profile)? {
        Some(name) => Ok(Some(name)),
        None => lost_behind(alloc, sides, profile),
    }
}
