//! What is told of a line.

ghost use Rattle.std.specs.Prelude.{◌≡◌, ◌||◌, ◌==◌, [], ◌∷◌, IfOk};
ghost use Rattle.std.specs.List.{list_all};
ghost use Rattle.fhir_json.specs.Bytes.{space, tab, line_feed, carriage_return};
ghost use Rattle.fhir_telling.specs.Questions.{question_seen};
ghost use Rattle.fhir_telling.specs.Telling.{is_blank, IsJudgedTold, IsLineTold};
ghost use Rattle.fhir_telling.specs.Views.{told_seen};

use crate::judgement::Told;
use crate::judging::told_by;
use crate::own::told_by_own;
use crate::question::{Profiles, Question};
use fhir_inputs::Kind;
use fhir_json::NoMemory;
use std::alloc::Global;

fn is_space(byte: u8) -> bool
    ensures { result ≡ (byte == space || (byte == tab || (byte == line_feed || byte == carriage_return))) }
{
    byte == b' ' || byte == b'\t' || byte == b'\n' || byte == b'\r'
}

fn are_blank(bytes: &[u8]) -> bool
    ensures { result ≡ list_all (λ b. b == space || (b == tab || (b == line_feed || b == carriage_return))) bytes.now }
{
    bytes.iter().all(|byte| is_space(*byte))
}

// Whether a line is blank, in an input of lines.
fn is_blank(kind: Kind, bytes: &[u8]) -> bool
    ensures { result ≡ is_blank kind bytes.now }
{
    match kind {
        Kind::Document => false,
        Kind::Lines => are_blank(bytes),
    }
}

fn judged_told(alloc: Global, question: Question<'_, '_>, bytes: &[u8]) -> Result<Told, NoMemory>
    ensures { IfOk result (λ told. IsJudgedTold (question_seen question.entry).profile (question_seen question.entry) bytes.now (told_seen told)) }
{
    match question.profiles {
        Profiles::At(url) => told_by(alloc, question, url, bytes),
        Profiles::Own(_) => told_by_own(alloc, question, bytes),
    }
}

/// What is told of a line of an input of that kind. The one refusal is want of memory.
pub fn told_of(
    alloc: Global,
    question: Question<'_, '_>,
    kind: Kind,
    bytes: &[u8],
) -> Result<Told, NoMemory>
    ensures { IfOk result (λ told. IsLineTold (is_blank kind bytes.now) (question_seen question.entry) bytes.now (told_seen told)) }
{
    if is_blank(kind, bytes) {
        Ok(Told::empty(alloc))
    } else {
        judged_told(alloc, question, bytes)
    }
}
