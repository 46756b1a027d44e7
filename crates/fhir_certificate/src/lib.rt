//! Certificates that what conforms to a derived profile conforms to its base, and their text.
//!
//! A certificate names two profiles and lists pairs of nodes. It is read by the nodes of a schema; whether it is right,
//! `fhir_cert_check` says.
//!
//! ```
//! /// How many pairs of items a certificate has, or why the bytes are none.
//! pub fn items_in(alloc: Global, schema: &Schema, bytes: &[u8]) -> Result<usize, CertFault>
//!     ensures { IfOk result (λ n. (c : CertificateValue) × Stands schema.now bytes.now c × (n ≡ length c.items)) }
//! {
//!     let certificate = fhir_certificate::read(alloc, schema, bytes)?;
//!     Ok(certificate.items.len())
//! }
//! ```
//!
//! Read the contract of `read` first. How a certificate is written stands in `specs/Format.antt` (`Spells`), and which
//! one a text is, in `specs/Judging.antt` (`certificate_of`).
#![tactic(auto)]

mod certificate;
mod fault;
mod fields;
mod flaw;
mod format;
mod laws;
mod lines;
mod migrating;
mod numbering;
mod pair;
mod reading;
mod stated;
mod stating;
mod versions;
mod writing;

pub use certificate::{Certificate, fits};
pub use fault::CertFault;
pub use flaw::{Flaw, FlawKind, LinePart, flaws};
pub use laws::{
    format_agrees, migrated_back, versions_as_json, written_back, written_back_in_packages,
};
pub use lines::MAX_PAIRS;
pub use migrating::migrate;
pub use pair::{NodePair, Pair};
pub use reading::read;
pub use writing::write;
