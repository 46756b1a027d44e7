//! Deriving: the certificate that a profile narrows its base is found, or it is shown that there is none.
//!
//! ```
//! /// Whether there is a certificate for two profiles.
//! pub fn has_certificate(
//!     alloc: Global,
//!     schema: &Schema,
//!     derived: &str,
//!     base: &str,
//! ) -> Result<bool, DeriveFault>
//!     ensures { IfOk result (λ yes. IsTrue yes ↔ HasCertificate schema.now derived.now base.now) }
//! {
//!     match derive(alloc, schema, derived, base)? {
//!         Outcome::Derives(_) => Ok(true),
//!         Outcome::NoCertificate(_, _) => Ok(false),
//!     }
//! }
//! ```
//!
//! Read the contract of [`derive`] first. How pairs are found stands in `specs/Finding.antt`, which of them make the certificate in
//! `specs/Reaching.antt`, what is answered in `specs/Deriving.antt`, and which pair [`diagnose`] blames in `specs/Blaming.antt`.
#![tactic(auto)]

mod blaming;
mod derivation;
mod discovery;
mod fault;
mod laws;
mod outcome;
mod pruning;
mod queue;
mod refusing;

pub use derivation::{derive, diagnose};
pub use fault::{DeriveFault, Side};
pub use laws::{no_way_past_own_children, no_way_to_tenable_pairs, one_discovery};
pub use outcome::Outcome;
