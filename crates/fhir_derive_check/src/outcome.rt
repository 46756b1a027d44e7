//! What is derived.

use fhir_cert_check::Rule;
use fhir_certificate::{Certificate, Pair};

/// What is derived of two profiles.
#[derive(Drop)]
pub enum Outcome<'s> {
    /// A right certificate: what conforms to the derived profile conforms to the base.
    Derives(Certificate),
    /// There is none. Where all pairs that are found count, that pair fails a rule, and that is the first rule: the pair is the first of them, as
    /// `derive` answers, or the one that is to blame, as `diagnose` does. It doesn't say that the derived profile allows more than its base.
    NoCertificate(Pair, Rule<'s>),
}
