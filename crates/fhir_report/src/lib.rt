//! What is told of the files of a folder, their definitions and a certificate: a line for each finding.
//!
//! ```
//! /// Whether nothing is wrong with the files of a subject, and each of its definitions that is selected can be used.
//! pub fn is_clean<'s, 'f: 's>(alloc: Global, subject: Subject<'s, 'f>) -> Result<bool, NoMemory>
//!     ensures { IfOk result (λ is_clean. IsTrue is_clean → IsRightBy subject.entry.selection.now subject.entry.schema.now
//!         subject.entry.survey.now (certificate_seen subject.entry.certificate)) }
//! {
//!     let manner = Manner {
//!         format: Format::Text,
//!         detail: Detail::Once,
//!     };
//!     let report = fhir_report::report_on(alloc, manner, subject)?;
//!     Ok(report.is_clean)
//! }
//! ```
//!
//! The contract to read first is that of [`report_on`]; the law [`reports`] says what it means for the files. What a report says
//! stands in `specs/Report.antt`, on what can never hold in `specs/ContradictionLines.antt`, and on what isn't judged in
//! `specs/CarrierLines.antt`.
#![tactic(auto)]

mod blaming;
mod carrier_lines;
mod certificates;
mod contradiction_lines;
mod failing;
mod finding_lines;
mod lacking;
mod laws;
mod narrowing;
mod reporting;
mod unrecognized_lines;
mod wording;

pub use certificates::{flaw_line, no_line};
pub use failing::no_text;
pub use finding_lines::finding_line;
pub use lacking::LackingTable;
pub use laws::reports;
pub use narrowing::rule_words;
pub use reporting::{CertificateFile, Report, Subject, report_on};
