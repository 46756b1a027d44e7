//! How the resource on a line is judged by a profile.

ghost use Rattle.std.specs.Prelude.{◌≡◌, ◌∷◌, [], IfOk, string_bytes};
ghost use Rattle.fhir_json.specs.Views.{tree_of};
ghost use Rattle.fhir_telling.specs.Judgements.{IsNoted};
ghost use Rattle.fhir_telling.specs.Questions.{question_seen, IsJudgedBy};
ghost use Rattle.fhir_telling.specs.Telling.{IsJudgementOf, IsToldBy};
ghost use Rattle.fhir_telling.specs.Views.{judgement_seen, told_seen};

use crate::judgement::{Judgement, Told};
use crate::noting::notes_of;
use crate::question::Question;
use crate::verdict::LineVerdict;
use fhir_commands::Standing;
use fhir_json::{Json, NoMemory, Position};
use fhir_replies::{judge, judge_given};
use std::alloc::Global;

/// How the resource that bytes are stands with a profile, and the outcome that says so. The one refusal is want of memory.
pub(crate) fn judged(
    alloc: Global,
    question: Question<'_, '_>,
    profile: &str,
    bytes: &[u8],
) -> Result<(Standing, Json<'static>), NoMemory>
    ensures { IfOk result (λ j. IsJudgedBy (question_seen question.entry).schema (question_seen question.entry).texts profile.now bytes.now j.0 (tree_of j.1)) }
{
    match question.given {
        Some(given) => judge_given(alloc, question.schema, profile, bytes, given),
        None => judge(alloc, question.schema, profile, bytes),
    }
}

/// That with the notes on the outcome's issues. Where a fault is may be known. The one refusal is want of memory.
pub(crate) fn judgement_with(
    alloc: Global,
    question: Question<'_, '_>,
    profile: &str,
    bytes: &[u8],
    standing: Standing,
    outcome: Json<'static>,
    fault_at: Option<Position>,
) -> Result<Judgement, NoMemory>
    ensures profile { IfOk result (λ j. string_bytes j.profile ≡ profile.now) }
    ensures standing { IfOk result (λ j. j.standing ≡ standing) }
    ensures outcome { IfOk result (λ j. tree_of j.outcome ≡ tree_of outcome.entry) }
    ensures noted { IfOk result (λ j. IsNoted (judgement_seen j)) }
{
    let notes = notes_of(
        alloc,
        question,
        bytes,
        standing,
        outcome.items_in("issue"),
        fault_at,
    )?;
    let profile = String::from_str(alloc, profile)?;
    Ok(Judgement {
        profile,
        standing,
        outcome,
        notes,
    })
}

/// How the resource that bytes are is judged by a profile. Where a fault is may be known. The one refusal is want of memory.
pub(crate) fn judgement_of(
    alloc: Global,
    question: Question<'_, '_>,
    profile: &str,
    bytes: &[u8],
    fault_at: Option<Position>,
) -> Result<Judgement, NoMemory>
    ensures { IfOk result (λ j. IsJudgementOf (question_seen question.entry) bytes.now profile.now (judgement_seen j)) }
{
    let (standing, outcome) = judged(alloc, question, profile, bytes)?;
    judgement_with(alloc, question, profile, bytes, standing, outcome, fault_at)
}

/// What is told of a resource that is judged by a profile. The one refusal is want of memory.
pub(crate) fn told_by(
    alloc: Global,
    question: Question<'_, '_>,
    profile: &str,
    bytes: &[u8],
) -> Result<Told, NoMemory>
    ensures { IfOk result (λ told. IsToldBy (question_seen question.entry) bytes.now profile.now (told_seen told)) }
{
    let judgement = judgement_of(alloc, question, profile, bytes, None)?;
    let verdict = LineVerdict::of(judgement.standing);
    let judgements = vec![in alloc; judgement]?;
    Ok(Told {
        verdict,
        judgements,
    })
}
