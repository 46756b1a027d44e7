//! Judgements on the resource of a line, and what is told of it.

ghost use Rattle.std.specs.Prelude.{◌≡◌};
ghost use Rattle.fhir_json.specs.Views.{tree_of};
ghost use Rattle.fhir_telling.specs.Judgements.{told_empty};
ghost use Rattle.fhir_telling.specs.Views.{told_seen};

use crate::verdict::LineVerdict;
use fhir_commands::Standing;
use fhir_json::{Json, Position};
use std::alloc::Global;

/// What is noted beside an issue.
#[derive(Drop)]
pub struct Note {
    /// Where it is in the resource's text.
    pub at: Position,
    /// What it says in plain words, or nothing.
    pub words: String,
}

/// How a resource stands with a profile, and the outcome that says so, with a note for each of its issues.
#[derive(Drop)]
pub struct Judgement {
    /// The url of the profile.
    pub profile: String,
    /// How the resource stands with it.
    pub standing: Standing,
    /// The OperationOutcome that says so.
    pub outcome: Json<'static>,
    /// The notes, in the order of the outcome's issues.
    pub notes: Vec<Note>,
}

/// The verdict on a line, and the judgements on its resource that it rests on.
#[derive(Drop)]
pub struct Told {
    /// The verdict.
    pub verdict: LineVerdict,
    /// The judgements.
    pub judgements: Vec<Judgement>,
}

impl Told {
    /// That a line is blank.
    pub(crate) fn empty(alloc: Global) -> Told
        ensures { told_seen result ≡ told_empty }
    {
        Told {
            verdict: LineVerdict::Empty,
            judgements: Vec::new(alloc),
        }
    }
}
