//! What is said of a certificate.

use crate::rule::Rule;
use fhir_certificate::Pair;

/// What is said of a certificate.
#[derive(Clone, Copy, Debug, PartialEq, Eq, Drop)]
pub enum Answer<'s> {
    /// It is right: what conforms to its derived profile conforms to its base.
    Yes,
    /// It is not right, since that pair fails that rule. Nothing is said of the two profiles.
    No(Pair, Rule<'s>),
}
