//! What is asked about definitions.

ghost use Rattle.std.specs.Prelude.{◌≡◌};
ghost use Rattle.fhir_commands.specs.declared.question.Question.{Question};
ghost use Rattle.fhir_commands.specs.Commands.{asks_same, question_seen};
ghost use Rattle.fhir_commands.specs.Hashing.{hashed, hashed_alike};

use std::hash::{Hash, Hasher};

/// What is asked about definitions, which it leaves as they are.
#[derive(PartialEq, Eq, Drop)]
pub enum Question {
    /// How the bytes of a resource stand with the profile of a url.
    Validate {
        /// The url of the profile.
        profile: String,
        /// The bytes.
        resource: Vec<u8>,
    },
    /// The certificate that a profile narrows its base.
    Derive {
        /// The url of the derived profile.
        derived: String,
        /// The url of the base.
        base: String,
    },
}

// A resource is written as a whole, where a list of bytes would be written byte by byte.
impl Hash for Question {
    ghost hash_input = { λ question. hashed (question_seen question) };

    ghost respects_eq = { hashed_alike };

    fn hash<H: Hasher>(&self, state: &mut H) {
        match self {
            Question::Validate { profile, resource } => {
                profile.hash(state);
                state.write(resource);
            }
            Question::Derive { derived, base } => {
                derived.hash(state);
                base.hash(state);
            }
        }
    }
}

/// Two questions are equal where they are of one kind, and have the same words.
pub fn equal_questions()
    ensures { (p q : Question) → ⟦<Question as PartialEq>⟧.eq p q ≡ asks_same (question_seen p) (question_seen q) }
{}
