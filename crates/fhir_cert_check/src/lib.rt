//! Checking certificates: where one is right, each resource that conforms to its derived profile conforms to its base.
//!
//! ```
//! /// Whether bytes are a right certificate, or why they are none.
//! pub fn is_right(alloc: Global, schema: &Schema, bytes: &[u8]) -> Result<bool, CertFault>
//!     ensures { IfOk result (λ yes. IsTrue yes ↔ SpellsCertificate schema.now bytes.now) }
//! {
//!     match check_bytes(alloc, schema, bytes)? {
//!         Answer::Yes => Ok(true),
//!         Answer::No(_, _) => Ok(false),
//!     }
//! }
//! ```
//!
//! Read the contract of `check_bytes` first; its clause `includes` is the theorem, in the words of `specs/Inclusion.antt`.
//! The rules of a pair stand in `specs/Rules.antt`, and their names and texts in `specs/Rule.antt`.
#![tactic(auto)]

mod answer;
mod asked;
mod checking;
mod constraints;
mod ends;
mod held;
mod items;
mod kids;
mod laws;
mod nodes;
mod pair_set;
mod rule;
mod slices;
mod texts;

pub use answer::Answer;
pub use asked::asked_for;
pub use checking::{check, check_bytes, failing, first_failing};
pub use laws::{
    asked_are_nodes, certificates_include, inclusion, migrated_alike, more_pairs,
    rules_look_at_asked,
};
pub use pair_set::{PairSet, same_pairs};
pub use rule::Rule;
pub use texts::{pair_text, rule_text};
