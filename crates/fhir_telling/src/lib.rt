//! What is told of the resource on a line: how it stands with a profile, or with its own, where its issues are in its text, and what they
//! say in plain words.
//!
//! The contract to read first is that of [`told_of`]. What is told of a line stands in `specs/Telling.antt`, by which profiles a resource is
//! judged in `specs/Questions.antt`, and what a verdict says of the resource is the law `told_lines`.
#![tactic(auto)]

mod issue;
mod judgement;
mod judging;
mod laws;
mod noting;
mod own;
mod question;
mod told;
mod verdict;
mod warning;

pub use issue::{diagnostics_of, place_of};
pub use judgement::{Judgement, Note, Told};
pub use laws::told_lines;
pub use question::{Profiles, Question, Unknown};
pub use told::told_of;
pub use verdict::LineVerdict;
