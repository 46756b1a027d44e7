//! What is replied by a schema: how a resource stands with a profile, in FHIR's own terms the OperationOutcome of its validation, and what
//! comes of two profiles of which a certificate is to be derived.
//!
//! ```
//! /// How a resource stands with a profile.
//! pub fn standing(
//!     alloc: Global,
//!     schema: &Schema,
//!     profile: &str,
//!     bytes: &[u8],
//! ) -> Result<Standing, NoMemory>
//!     ensures { IfOk result (λ standing. (outcome : Tree) × IsJudged schema.now profile.now bytes.now standing outcome) }
//! {
//!     let (standing, _) = judge(alloc, schema, profile, bytes)?;
//!     Ok(standing)
//! }
//! ```
//!
//! The contract to read first is that of [`judge`]. How a resource stands is in `specs/Standing.antt`, what an outcome is in
//! `specs/Outcomes.antt`, and what is told of two profiles in `specs/Deriving.antt`.
#![tactic(auto)]

mod certifying;
mod judging;
mod outcomes;

pub use certifying::derive_answer;
pub use judging::{judge, judge_given};
pub use outcomes::{OutcomeIssue, outcome, outcome_given, outcome_of};
