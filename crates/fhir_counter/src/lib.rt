//! Counterexamples: a resource that conforms to one profile and not to another.
//!
//! ```
//! /// A resource that shows that a profile doesn't narrow its base, if one is found where no certificate exists.
//! pub fn refutation(
//!     alloc: Global,
//!     schema: &Schema,
//!     derived: &str,
//!     base: &str,
//! ) -> Result<Option<Vec<u8>>, NoMemory>
//!     ensures { IfOk result (λ found. IfSome found (λ bytes. Shows schema.now derived.now base.now bytes.items)) }
//! {
//!     match derive(alloc, schema, derived, base) {
//!         Ok(Outcome::NoCertificate(pair, _)) => counterexample(alloc, schema, derived, base, pair),
//!         Err(DeriveFault::NoMemory) => Err(NoMemory),
//!         _ => Ok(None),
//!     }
//! }
//! ```
//!
//! The contract to read first is that of [`counterexample`]. It rests on `validate` alone, which judges each candidate on both sides.
//! Where the two profiles may differ `fhir_differences` says, and `fhir_candidates` makes the candidates.
#![tactic(auto)]

mod counter;

pub use counter::{
    always_conforms, counterexample, counterexample_by, counterexample_given, never_conforms,
};
