//! Validation of resources against profiles.
//!
//! A resource conforms to a profile, violates it, or that is open, since it hangs on rules that aren't read. Each rule that
//! the profile and its types have is judged at each item that it is asked of, whatever the unread rules mean.
//!
//! ```
//! /// Whether a resource conforms to a profile, whatever unread rules mean.
//! pub fn is_valid(alloc: Global, schema: &Schema, profile: &str, bytes: &[u8]) -> Result<bool, Fault>
//!     ensures { (t : Tree) → Reads bytes.now t → IfOk result (λ valid.
//!         IsTrue valid → (meaning : Interpretation) → Conforms schema.now meaning profile.now t) }
//! {
//!     let verdict = validate(alloc, schema, profile, bytes)?;
//!     Ok(verdict.is_conforming())
//! }
//! ```
//!
//! A user may vouch for rules that aren't read, by their texts. Then a resource may conform as these hold, and the verdict lists on
//! which of them that rests.
//!
//! The contracts to read first are those of [`validate`] and [`validate_given`]. `specs/Verdicts.antt` has what a verdict lists and what a fault means,
//! and `specs/Issues.antt` when an issue is right.
#![tactic(auto)]

mod breaches;
mod broken_rule;
mod explaining;
mod fault;
mod hanging;
mod issue;
mod judgement;
mod judging;
mod layout;
mod listing;
mod pair;
mod place;
mod rules;
mod validation;
mod verdict;

pub use broken_rule::BrokenRule;
pub use fault::Fault;
pub use issue::{Breach, Issue, Site};
pub use place::Place;
pub use validation::{validate, validate_given};
pub use verdict::{Verdict, Vouched};
