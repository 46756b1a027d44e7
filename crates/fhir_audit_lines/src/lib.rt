//! What an audit tells: lines of text, or JSON objects, and the names of the files of certificates.
//!
//! ```
//! /// What an audit of all profiles of a package tells, in texts.
//! pub fn audit_all(
//!     alloc: Global,
//!     sources: Sources<'_, '_>,
//! ) -> Result<String, NoMemory>
//! {
//!     let audited = audit(alloc, sources.survey, sources.schema, &[], None, &mut Unwatched)?;
//!     fhir_audit_lines::audit_text(alloc, Format::Text, sources, &audited, None)
//! }
//! ```
//!
//! The contracts to read first are those of [`audit_text`] and [`file_names`]. What is told stands in `specs/Telling.antt` and `specs/Report.antt`; the law
//! [`names_differ`] says that no certificate is written over another.
#![tactic(auto)]

mod counting;
mod held_lines;
mod laws;
mod naming;
mod reporting;
mod texts;
mod trees;
mod without;

pub use held_lines::{HeldFile, are_holding};
pub use laws::names_differ;
pub use naming::file_names;
pub use reporting::audit_text;
