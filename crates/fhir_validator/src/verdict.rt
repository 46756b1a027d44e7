//! Verdicts.

use crate::issue::{Issue, Site};

/// Whether a resource conforms to a profile, where unread rules may mean anything.
#[derive(Drop)]
pub enum Verdict<'s> {
    /// It does, whatever they mean.
    Conforms,
    /// It doesn't, whatever they mean, for these reasons.
    Violates(Vec<Issue<'s>>),
    /// It does where each of these unread rules holds, and doesn't where none does.
    Open(Vec<Site<'s>>),
}

impl Verdict<'_> {
    ghost use Rattle.std.specs.Prelude.{◌≡◌};
    ghost use Rattle.fhir_validator.specs.Verdicts.{is_conforming, is_violating};

    /// Whether the resource conforms, whatever the unread rules mean.
    pub fn is_conforming(&self) -> bool
        ensures { result ≡ is_conforming self.now }
    {
        matches!(self, Verdict::Conforms)
    }

    /// Whether the resource violates the profile, whatever the unread rules mean.
    pub fn is_violating(&self) -> bool
        ensures { result ≡ is_violating self.now }
    {
        matches!(self, Verdict::Violates(_))
    }
}

/// Whether a resource conforms to a profile, where a user vouches for some of the unread rules.
#[derive(Drop)]
pub enum Vouched<'s> {
    /// It does where these of the given rules hold, whatever the others mean. There is none of them where it conforms whatever
    /// unread rules mean.
    Conforms(Vec<Site<'s>>),
    /// It doesn't, whatever unread rules mean, for these reasons.
    Violates(Vec<Issue<'s>>),
    /// It does where each unread rule holds, and doesn't where the given ones alone do. These of the others stand in the way.
    Open(Vec<Site<'s>>),
}
