//! Laws of what the program tells, in the words of the manual (docs/USAGE.md): which status each answer has and on which stream it stands,
//! which of several verdicts is the worst, that counts sum up, that a counterexample refutes, and that what is derived is found right. So a definition
//! that is changed together with its code is refused. They stand apart from the definitions, since nothing stands on them: so they cost no other crate's proof.
#![tactic(auto)]

mod agreements;
mod audits;
mod commands;
mod comparisons;
mod counterexamples;
mod faults;
mod profiles;
mod programs;
mod resources;
mod runs;
mod snapshots;

pub use agreements::{
    checked_folders_are_right, checks_agree_with_certify, derived_certificates_are_right,
    migrated_certificates_are_judged_alike, right_certificates_are_derived,
};
pub use audits::{audits_agree_with_derive, counts_of_audits, statuses_of_audits};
pub use commands::{statuses_of_commands, streams_of_commands};
pub use comparisons::{changes_of_profiles, counts_of_comparisons, parts_of_versions};
pub use counterexamples::{
    audited_counterexamples, counterexamples_refute, shown_resources_are_judged_so,
};
pub use faults::first_faults;
pub use profiles::{certificates_by_status, counterexamples_by_status, reports_by_status};
pub use programs::{statuses_of_words, written_by_status};
pub use resources::{
    given_by_status, narrower_profiles_agree, outcomes_by_status, resources_by_status,
};
pub use runs::{counts_of_runs, resources_in_runs, statuses_of_runs};
pub use snapshots::printed_snapshots_are_used;
