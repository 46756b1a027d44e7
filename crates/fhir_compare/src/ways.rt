//! What is shown of the profiles of a url, in one way.

ghost use Rattle.std.specs.Prelude.{◌≡◌, IfOk, IfSome, IsTrue, option_map};
ghost use Rattle.fhir_cert_check.specs.Views.{rule_name};
ghost use Rattle.fhir_derive_check.specs.Blaming.{IsToBlame};
ghost use Rattle.fhir_derive_check.specs.Reaching.{HasCertificate};
ghost use Rattle.fhir_compare.specs.Comparing.{IsShownBy, IsShown, ShowsBy, ShowsBetween, sides_by};
ghost use Rattle.fhir_compare.specs.Views.{direction_seen, shown_seen};

use crate::verdict::Shown;
use fhir_cert_check::Rule;
use fhir_certificate::Pair;
use fhir_counter::{always_conforms, counterexample, never_conforms};
use fhir_derive_check::{DeriveFault, Outcome, diagnose};
use fhir_json::NoMemory;
use fhir_schema::Schema;
use std::alloc::Global;

/// One of the two ways.
#[derive(Clone, Copy)]
pub(crate) enum Direction {
    /// That NEW's narrows OLD's.
    NewInOld,
    /// That OLD's narrows NEW's.
    OldInNew,
}

/// The profiles of a url: the schema of OLD, and that of the package that is made; the url, and the one under which OLD's stands there.
#[derive(Clone, Copy)]
pub(crate) struct Two<'s, 'u> {
    pub(crate) old_schema: &'s Schema,
    pub(crate) schema: &'s Schema,
    pub(crate) url: &'u str,
    pub(crate) own: &'u str,
}

// Whether a resource conforms to the one profile and violates the other, each by its own schema.
fn shows_by(
    alloc: Global,
    one: &Schema,
    other: &Schema,
    url: &str,
    resource: &[u8],
) -> Result<bool, NoMemory>
    ensures { IfOk result (λ yes. IsTrue yes → ShowsBy one.now other.now url.now resource.now) }
{
    if !always_conforms(alloc, one, url, resource)? {
        return Ok(false);
    }
    never_conforms(alloc, other, url, resource)
}

// Whether a resource conforms to the profile of the one side, and not to that of the other.
fn shows_between(
    alloc: Global,
    direction: Direction,
    two: Two<'_, '_>,
    resource: &[u8],
) -> Result<bool, NoMemory>
    ensures { IfOk result (λ yes. IsTrue yes
        → ShowsBetween (direction_seen direction) two.entry.old_schema.now two.entry.schema.now two.entry.url.now resource.now) }
{
    match direction {
        Direction::NewInOld => shows_by(alloc, two.schema, two.old_schema, two.url, resource),
        Direction::OldInNew => shows_by(alloc, two.old_schema, two.schema, two.url, resource),
    }
}

// A resource that was found in the package that is made, if it shows the same of the two folders.
fn kept_if_shown(
    alloc: Global,
    direction: Direction,
    two: Two<'_, '_>,
    found: Option<Vec<u8>>,
) -> Result<Option<Vec<u8>>, NoMemory>
    ensures { IfOk result (λ r. IfSome r (λ bytes.
        ShowsBetween (direction_seen direction) two.entry.old_schema.now two.entry.schema.now two.entry.url.now bytes.items)) }
{
    let Some(resource) = found else {
        return Ok(None);
    };
    if shows_between(alloc, direction, two, &resource)? {
        Ok(Some(resource))
    } else {
        Ok(None)
    }
}

// The derived profile and its base.
fn sides_of<'u>(direction: Direction, two: Two<'_, 'u>) -> (&'u str, &'u str)
    ensures { (result.0.now, result.1.now) ≡ sides_by (direction_seen direction) two.entry.url.now two.entry.own.now }
{
    match direction {
        Direction::NewInOld => (two.url, two.own),
        Direction::OldInNew => (two.own, two.url),
    }
}

fn fails<'s>(
    alloc: Global,
    direction: Direction,
    two: Two<'s, '_>,
    derived: &str,
    base: &str,
    pair: Pair,
    rule: Rule<'s>,
) -> Result<Shown<'s>, NoMemory>
    requires none { HasCertificate two.schema.now derived.now base.now → ⊥ }
    requires blamed { IsToBlame two.schema.now derived.now base.now pair (rule_name rule) }
    ensures { IfOk result (λ w. IsShownBy two.entry.schema.now (derived.now, base.now)
        (ShowsBetween (direction_seen direction) two.entry.old_schema.now two.entry.schema.now two.entry.url.now) (shown_seen w)) }
{
    let found = counterexample(alloc, two.schema, derived, base, pair)?;
    let resource = kept_if_shown(alloc, direction, two, found)?;
    Ok(Shown::Fails {
        pair,
        rule,
        resource,
    })
}

fn shown_between<'s>(
    alloc: Global,
    direction: Direction,
    two: Two<'s, '_>,
    derived: &str,
    base: &str,
) -> Result<Shown<'s>, NoMemory>
    ensures { IfOk result (λ w. IsShownBy two.entry.schema.now (derived.now, base.now)
        (ShowsBetween (direction_seen direction) two.entry.old_schema.now two.entry.schema.now two.entry.url.now) (shown_seen w)) }
{
    match diagnose(alloc, two.schema, derived, base) {
        Ok(Outcome::Derives(_certificate)) => Ok(Shown::Narrows),
        Ok(Outcome::NoCertificate(pair, rule)) => {
            fails(alloc, direction, two, derived, base, pair, rule)
        }
        Err(DeriveFault::Missing(_side)) => Ok(Shown::CannotBeUsed),
        Err(DeriveFault::Unusable(_side)) => Ok(Shown::CannotBeUsed),
        Err(DeriveFault::NoMemory) => Err(NoMemory),
    }
}

/// What is shown of the profiles of a url, in one way: that the one narrows the other, or that no certificate exists; with a resource, if one is found
/// that conforms to the profile of the one side and not to that of the other: OLD's by OLD's own schema, NEW's by that of the package that is made.
pub(crate) fn shown<'s>(
    alloc: Global,
    direction: Direction,
    two: Two<'s, '_>,
) -> Result<Shown<'s>, NoMemory>
    ensures { IfOk result (λ w. IsShown (direction_seen direction) two.entry.old_schema.now two.entry.schema.now two.entry.url.now two.entry.own.now
        (shown_seen w)) }
{
    let (derived, base) = sides_of(direction, two);
    shown_between(alloc, direction, two, derived, base)
}
