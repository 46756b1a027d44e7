//! Each profile of a package, with what is said of it.

ghost use Rattle.std.specs.Prelude.{◌≡◌, ◌++◌, [], ℕ, Bool, map, string_bytes, option_map, if◌then◌else◌, IfOk, OnOk};
ghost use Rattle.std.specs.List.{flat_map, list_all, slice_get};
ghost use Rattle.std.specs.Option.{option_map_or};
ghost use Rattle.fhir_findings.specs.Carrying.{all_carriers};
ghost use Rattle.fhir_audit.specs.Asked.{profile_in, profiles_in};
ghost use Rattle.fhir_audit.specs.Auditing.{IsAudited, AreAudited, IsAudit, are_narrowing};
ghost use Rattle.fhir_audit.specs.Kept.{AreGrouped};
ghost use Rattle.fhir_audit.specs.Marks.{marked};
ghost use Rattle.fhir_audit.specs.Placing.{placed, all_placed};
ghost use Rattle.fhir_audit.specs.Verdicts.{is_narrowing};
ghost use Rattle.fhir_audit.specs.Views.{verdict_seen, audited_seen, all_audited};

use crate::above::{asked_about, is_marked};
use crate::carrying::{Carriers, all_carried, unread_of};
use crate::judging::verdict_of;
use crate::profile::{base_of, is_profile};
use crate::verdict::{Audited, Verdict};
use crate::watch::Watch;
use fhir_json::{Json, NoMemory};
use fhir_package::{Kind, Package, Survey};
use fhir_schema::Schema;
use fhir_vouching::Vouching;
use std::alloc::{AllocError, Global};

// ---- which are asked about

// A profile that is asked about, and where it stands.
#[derive(Clone, Copy)]
pub(crate) struct Profile<'s, 'f> {
    pub(crate) place: usize,
    pub(crate) url: &'s str,
    pub(crate) definition: &'s Json<'f>,
}

// Puts in a definition, if it is marked and a profile.
fn push_if<'s, 'f>(
    is_marked: bool,
    profile: Profile<'s, 'f>,
    into: &mut Vec<Profile<'s, 'f>>,
) -> Result<(), AllocError>
    ensures { OnOk result (all_placed into.new.items ≡ all_placed into.old.items ++ profile_in (λ place. is_marked) (placed profile.entry)) }
{
    if is_marked && is_profile(profile.definition) {
        into.push(profile)?;
    }
    Ok(())
}

// Puts in the definition at a place, if it is marked and a profile.
fn push_profile<'s, 'f>(
    package: &'s Package<'f>,
    marks: &[bool],
    place: usize,
    into: &mut Vec<Profile<'s, 'f>>,
) -> Result<(), AllocError>
    ensures { OnOk result (all_placed into.new.items ≡ all_placed into.old.items
        ++ option_map_or (λ e. profile_in (marked marks.now) (place, e)) (slice_get «package».now.structure_definitions place) []) }
{
    match package.at(Kind::StructureDefinition, place) {
        Some((url, definition)) => push_if(
            is_marked(marks, place),
            Profile {
                place,
                url,
                definition,
            },
            into,
        ),
        None => Ok(()),
    }
}

fn marked_profiles<'s, 'f>(
    alloc: Global,
    package: &'s Package<'f>,
    marks: &[bool],
) -> Result<Vec<Profile<'s, 'f>>, AllocError>
    ensures { IfOk result (λ profiles. all_placed profiles.items ≡ profiles_in (marked marks.now) «package».now) }
{
    let mut profiles: Vec<Profile<'s, 'f>> = Vec::new(alloc);
    for place in 0..package.len(Kind::StructureDefinition) {
        push_profile(package, marks, place, &mut profiles)?;
    }
    Ok(profiles)
}

// ---- what is said of them

fn audited<'s>(
    alloc: Global,
    survey: &'s Survey<'_>,
    schema: &'s Schema,
    carriers: &Carriers<'s>,
    given: Option<&Vouching>,
    profile: Profile<'s, '_>,
) -> Result<Audited<'s>, NoMemory>
    requires { AreGrouped (all_carriers None schema.now survey.now) carriers.now }
    ensures { IfOk result (λ a. IsAudited (option_map (λ texts. texts.now) given.entry) schema.now survey.now (placed profile.entry) (audited_seen a)) }
{
    let Profile {
        place,
        url,
        definition,
    } = profile;
    let base = base_of(survey.package(), definition);
    let verdict = verdict_of(alloc, schema, url, base, given)?;
    let unread = unread_of(alloc, carriers, given, url)?;
    Ok(Audited {
        place,
        url,
        canonical: definition.text_in("baseDefinition"),
        base,
        verdict,
        unread,
    })
}

fn judge_each<'s, V: Watch>(
    alloc: Global,
    survey: &'s Survey<'_>,
    schema: &'s Schema,
    carriers: &Carriers<'s>,
    given: Option<&Vouching>,
    profiles: &[Profile<'s, '_>],
    watch: &mut V,
) -> Result<Vec<Audited<'s>>, NoMemory>
    requires { AreGrouped (all_carriers None schema.now survey.now) carriers.now }
    ensures { IfOk result (λ told. AreAudited (option_map (λ texts. texts.now) given.entry) schema.now survey.now (all_placed profiles.now)
        (all_audited told.items)) }
{
    let mut all: Vec<Audited<'s>> = Vec::new(alloc);
    for (place, profile) in profiles.iter().enumerate() {
        watch.tell(place, profiles.len());
        let one = audited(alloc, survey, schema, carriers, given, *profile)?;
        all.push(one)?;
    }
    Ok(all)
}

/// Each profile of a survey's package, in order, with what is said of it by the schema of the package: all of them, or where there are prefixes
/// those whose urls begin with one, and the profiles that these rest on. Where a user vouches for unread rules by their texts, counterexamples
/// are looked for as these hold, and they aren't told to be unread. How many are judged is told to `watch`. The one refusal is want of memory.
pub fn audit<'s, V: Watch>(
    alloc: Global,
    survey: &'s Survey<'_>,
    schema: &'s Schema,
    prefixes: &[String],
    given: Option<&Vouching>,
    watch: &mut V,
) -> Result<Vec<Audited<'s>>, NoMemory>
    // Each profile that is asked about is told once, in the order of the package: that it narrows its base exactly where a certificate of the
    // two exists.
    ensures { IfOk result (λ told. IsAudit (map string_bytes prefixes.now) (option_map (λ texts. texts.now) given.entry) schema.now survey.now
        (all_audited told.items)) }
{
    let package = survey.package();
    let marks = asked_about(alloc, package, prefixes)?;
    let profiles = marked_profiles(alloc, package, &marks)?;
    let carriers = all_carried(alloc, survey, schema)?;
    judge_each(alloc, survey, schema, &carriers, given, &profiles, watch)
}

fn is_narrowing(audited: &Audited<'_>) -> bool
    ensures { result ≡ is_narrowing (verdict_seen audited.now.verdict) }
{
    match &audited.verdict {
        Verdict::Narrows(_) => true,
        Verdict::DoesNotNarrow { .. }
        | Verdict::IsNotShown { .. }
        | Verdict::CannotBeUsed(_)
        | Verdict::HasNoBase => false,
    }
}

fn all_narrow(audited: &[Audited<'_>]) -> bool
    ensures { result ≡ list_all (λ a. is_narrowing (verdict_seen a.verdict)) audited.now }
{
    audited.iter().all(|one| is_narrowing(one))
}

/// Whether each profile narrows its base.
pub fn are_narrowing(audited: &[Audited<'_>]) -> bool
    ensures { result ≡ are_narrowing (all_audited audited.now) }
{
    all_narrow(audited)
}
