//! How the resource on a line is judged by its type's own definition, and by the profiles that it claims to conform to.

ghost use Rattle.std.specs.Prelude.{◌≡◌, ◌∷◌, ◌++◌, ◌⊎◌, List, false, map, codes, IfOk, OnOk};
ghost use Rattle.std.specs.List.{AllZip};
ghost use Rattle.fhir_json.specs.Grammar.{Reads};
ghost use Rattle.fhir_json.specs.Reading.{is_no_memory};
ghost use Rattle.fhir_json.specs.Tree.{Text, Tree};
ghost use Rattle.fhir_json.specs.Views.{tree_of};
ghost use Rattle.fhir_commands.specs.declared.reply.Standing.TheVariants as standings;
ghost use Rattle.fhir_replies.specs.Outcomes.{IsOutcome};
ghost use Rattle.fhir_telling.specs.Judgements.{JudgementValue};
ghost use Rattle.fhir_telling.specs.Questions.{question_seen, skips};
ghost use Rattle.fhir_telling.specs.Telling.{IsJudgedByType, IsJudgementOf, IsOwnJudgement, AreToldByOwn, IsToldByOwn, IsToldUnread};
ghost use Rattle.fhir_telling.specs.Verdicts.{worst};
ghost use Rattle.fhir_telling.specs.Views.{judgement_seen, told_seen};

use crate::judgement::{Judgement, Told};
use crate::judging::{judged, judgement_of, judgement_with};
use crate::noting::claims_position;
use crate::question::{Profiles, Question, Unknown};
use crate::verdict::{LineVerdict, worse};
use crate::warning::warned;
use fhir_claims::{Claims, claims_are_judged, claims_of, resource_url};
use fhir_commands::Standing;
use fhir_instance::{Misfit, MisfitKind};
use fhir_json::{Json, JsonFault, NoMemory, Position, read};
use fhir_replies::outcome;
use fhir_schema::Schema;
use fhir_validator::{Fault, Issue, Verdict};
use std::alloc::Global;

// That a resource is of a type that isn't there: so it conforms to no profile.
fn untyped(alloc: Global, profile: &str) -> Result<(Standing, Json<'static>), NoMemory>
    ensures standing { IfOk result (λ j. j.0 ≡ standings.Violates) }
    ensures outcome { IfOk result (λ j. IsOutcome (codes "error") (tree_of j.1)) }
{
    let misfit = Misfit {
        kind: MisfitKind::UnknownType,
        place: None,
    };
    let issues = vec![in alloc; Issue::Misfit(misfit)]?;
    let validated = Ok(Verdict::Violates(issues));
    let outcome = outcome(alloc, profile, &validated)?;
    Ok((Standing::Violates, outcome))
}

fn judged_by_type(
    alloc: Global,
    question: Question<'_, '_>,
    bytes: &[u8],
    is_typed: bool,
    own: &str,
) -> Result<(Standing, Json<'static>), NoMemory>
    ensures { IfOk result (λ j. IsJudgedByType is_typed (question_seen question.entry) bytes.now own.now j.0 (tree_of j.1)) }
{
    if is_typed {
        judged(alloc, question, own, bytes)
    } else {
        untyped(alloc, own)
    }
}

// How a resource is judged by its type's own definition at a url, with a warning for each profile that is passed over.
fn own_judgement(
    alloc: Global,
    question: Question<'_, '_>,
    bytes: &[u8],
    resource: &Json<'_>,
    claims: &Claims<'_>,
    own: &str,
) -> Result<Judgement, NoMemory>
    ensures { IfOk result (λ j. IsOwnJudgement (question_seen question.entry) bytes.now claims.now.is_typed own.now (map (λ u. u.now) claims.now.skipped.items) (judgement_seen j)) }
{
    let (standing, outcome) = judged_by_type(alloc, question, bytes, claims.is_typed, own)?;
    let outcome = warned(alloc, question.schema, resource, outcome, &claims.skipped)?;
    judgement_with(alloc, question, own, bytes, standing, outcome, None)
}

// Where a resource claims to conform to profiles, if one of them isn't there or can't be used. It is looked for once.
fn claims_at(
    alloc: Global,
    schema: &Schema,
    bytes: &[u8],
    profiles: &[&str],
) -> Result<Position, NoMemory> {
    if profiles.iter().all(|url| schema.root(*url).is_some()) {
        Ok(Position { line: 1, column: 1 })
    } else {
        claims_position(alloc, schema, bytes)
    }
}

// Puts in how it is judged by each of these profiles.
fn push_judgements(
    alloc: Global,
    question: Question<'_, '_>,
    bytes: &[u8],
    profiles: &[&str],
    into: &mut Vec<Judgement>,
) -> Result<(), NoMemory>
    ensures { OnOk result ((others : List JudgementValue) × AllZip (IsJudgementOf (question_seen question.entry) bytes.now) (map (λ u. u.now) profiles.now) others
        × (map judgement_seen into.new.items ≡ map judgement_seen into.old.items ++ others)) }
{
    let fault_at = Some(claims_at(alloc, question.schema, bytes, profiles)?);
    for profile in profiles {
        into.push(judgement_of(alloc, question, *profile, bytes, fault_at)?)?;
    }
    Ok(())
}

fn worst_of(judgements: &[Judgement]) -> Standing
    ensures { result ≡ worst (map (λ j. j.standing) (map judgement_seen judgements.now)) }
{
    let mut standing = Standing::Conforms;
    for judgement in judgements {
        standing = worse(standing, judgement.standing);
    }
    standing
}

// What is told of a resource that claims this: first by its type's own definition at a url, and then by profiles.
fn told_of_profiles(
    alloc: Global,
    question: Question<'_, '_>,
    bytes: &[u8],
    resource: &Json<'_>,
    claims: &Claims<'_>,
    own: &str,
    profiles: &[&str],
) -> Result<Told, NoMemory>
    ensures { IfOk result (λ told. AreToldByOwn (question_seen question.entry) bytes.now claims.now.is_typed own.now (map (λ u. u.now) profiles.now)
        (map (λ u. u.now) claims.now.skipped.items) (told_seen told)) }
{
    let first = own_judgement(alloc, question, bytes, resource, claims, own)?;
    let mut judgements = vec![in alloc; first]?;
    push_judgements(alloc, question, bytes, profiles, &mut judgements)?;
    let verdict = LineVerdict::of(worst_of(&judgements));
    Ok(Told {
        verdict,
        judgements,
    })
}

// The same, where the first of the profiles is that of its type.
fn told_of_claims(
    alloc: Global,
    question: Question<'_, '_>,
    bytes: &[u8],
    resource: &Json<'_>,
    claims: &Claims<'_>,
) -> Result<Told, NoMemory>
    ensures { IfOk result (λ told. (own : Text) (others : List Text) → map (λ u. u.now) claims.now.profiles.items ≡ own ∷ others
        → AreToldByOwn (question_seen question.entry) bytes.now claims.now.is_typed own others (map (λ u. u.now) claims.now.skipped.items) (told_seen told)) }
{
    match claims.profiles.as_slice() {
        [own, profiles @ ..] => {
            told_of_profiles(alloc, question, bytes, resource, claims, *own, profiles)
        }
        [] => Ok(Told::empty(alloc)),
    }
}

// What is told of bytes that are no JSON.
fn told_unread(
    alloc: Global,
    question: Question<'_, '_>,
    bytes: &[u8],
    fault: JsonFault,
) -> Result<Told, NoMemory>
    ensures { ((t : Tree) → Reads bytes.now t → ⊥) → IfOk result (λ told. IsToldUnread bytes.now (told_seen told)) }
{
    let outcome = outcome(alloc, resource_url(), &Err(Fault::NotJson(fault)))?;
    let judgement = judgement_with(
        alloc,
        question,
        resource_url(),
        bytes,
        Standing::Fault,
        outcome,
        None,
    )?;
    let judgements = vec![in alloc; judgement]?;
    Ok(Told {
        verdict: LineVerdict::Fault,
        judgements,
    })
}

fn skips(profiles: Profiles<'_>) -> bool
    ensures { result ≡ skips profiles.entry }
{
    match profiles {
        Profiles::At(_) | Profiles::Own(Unknown::Faults) => false,
        Profiles::Own(Unknown::Warnings) => true,
    }
}

// What is told of a resource, which the bytes are.
fn told_of_resource(
    alloc: Global,
    question: Question<'_, '_>,
    bytes: &[u8],
    resource: &Json<'_>,
) -> Result<Told, NoMemory>
    ensures { Reads bytes.now (tree_of resource.now) → IfOk result (λ told. IsToldByOwn (question_seen question.entry) bytes.now (told_seen told)) }
{
    claims_are_judged();
    let skips = skips(question.profiles);
    let claims = claims_of(alloc, question.schema, resource, skips)?;
    told_of_claims(alloc, question, bytes, resource, &claims)
}

fn is_no_memory(fault: JsonFault) -> bool
    ensures { result ≡ is_no_memory fault }
{
    matches!(fault, JsonFault::NoMemory)
}

// What is told of bytes for which there is a fault.
fn told_fault(
    alloc: Global,
    question: Question<'_, '_>,
    bytes: &[u8],
    fault: JsonFault,
) -> Result<Told, NoMemory>
    ensures { (is_no_memory fault ≡ false → (t : Tree) → Reads bytes.now t → ⊥) → IfOk result (λ told. IsToldUnread bytes.now (told_seen told)) }
{
    if is_no_memory(fault) {
        Err(NoMemory)
    } else {
        told_unread(alloc, question, bytes, fault)
    }
}

/// What is told of a resource that is judged by its type's own definition, and by the profiles that it claims to conform to. The one
/// refusal is want of memory.
pub(crate) fn told_by_own(
    alloc: Global,
    question: Question<'_, '_>,
    bytes: &[u8],
) -> Result<Told, NoMemory>
    ensures { IfOk result (λ told. IsToldByOwn (question_seen question.entry) bytes.now (told_seen told) ⊎ IsToldUnread bytes.now (told_seen told)) }
{
    match read(alloc, bytes) {
        Ok(resource) => told_of_resource(alloc, question, bytes, &resource),
        Err(fault) => told_fault(alloc, question, bytes, fault),
    }
}
