//! What is said of a profile.

use fhir_cert_check::Rule;
use fhir_certificate::{Certificate, Pair};
use fhir_derive_check::Side;

/// What is said of a profile and its base.
#[derive(Drop)]
pub enum Verdict<'s> {
    /// A certificate shows that each resource which conforms to the profile conforms to its base.
    Narrows(Certificate),
    /// There is no certificate, since the pair fails the rule, and the bytes are a resource that conforms to the profile and not to its base.
    DoesNotNarrow {
        /// The pair.
        pair: Pair,
        /// The rule.
        rule: Rule<'s>,
        /// The resource, as compact JSON.
        resource: Vec<u8>,
    },
    /// There is no certificate, since the pair fails the rule, and no such resource was found. It doesn't say that the profile allows more.
    IsNotShown {
        /// The pair.
        pair: Pair,
        /// The rule.
        rule: Rule<'s>,
    },
    /// The profile can't be used, or its base can't.
    CannotBeUsed(Side),
    /// What the profile rests on isn't there.
    HasNoBase,
}

/// A profile with what is said of it.
#[derive(Drop)]
pub struct Audited<'s> {
    /// Its place among the StructureDefinitions of its package, and so among the definitions of its schema.
    pub place: usize,
    /// Its url.
    pub url: &'s str,
    /// The canonical of its base, as it is written.
    pub canonical: Option<&'s str>,
    /// The url of its base, where the package has the definition that the canonical names.
    pub base: Option<&'s str>,
    /// What is said of the two.
    pub verdict: Verdict<'s>,
    /// The texts of the unread rules that its elements carry, each once, but for those that a user vouches for.
    pub unread: Vec<String>,
}
