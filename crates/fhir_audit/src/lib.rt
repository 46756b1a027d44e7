//! Auditing: each profile of a package, with whether it narrows its base.
//!
//! ```
//! /// Whether each profile of a package narrows its base.
//! pub fn all_narrow(
//!     alloc: Global,
//!     survey: &Survey<'_>,
//!     schema: &Schema,
//! ) -> Result<bool, NoMemory>
//!     ensures { IfOk result (λ all. IsTrue all → AllNarrow [] schema.now survey.now.definitions) }
//! {
//!     let audited = fhir_audit::audit(alloc, survey, schema, &[], None, &mut Unwatched)?;
//!     Ok(fhir_audit::are_narrowing(&audited))
//! }
//! ```
//!
//! The contract to read first is that of [`audit`]. What is said of a profile stands in `specs/Verdicts.antt`, and of which profiles it is said
//! in `specs/Asked.antt`; the law [`narrowing_profiles`] says what it is that all of them narrow, [`profiles_told_once`] that
//! none is left out or told twice, and [`narrowing_exactly`] that a profile is told to narrow its base where a certificate exists, and nowhere else.
#![tactic(auto)]

mod above;
mod against;
mod auditing;
mod carrying;
mod heading;
mod judging;
mod laws;
mod profile;
mod verdict;
mod watch;

pub use against::{Held, Standing, recheck};
pub use auditing::{are_narrowing, audit};
pub use laws::{narrowing_exactly, narrowing_profiles, profiles_told_once};
pub use verdict::{Audited, Verdict};
pub use watch::{Unwatched, Watch};
