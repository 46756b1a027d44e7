//! What is said of the profiles of a url.

ghost use Rattle.std.specs.Prelude.{◌≡◌};
ghost use Rattle.fhir_compare.specs.Comparing.{change_of};
ghost use Rattle.fhir_compare.specs.Views.{ways_seen};

use fhir_cert_check::Rule;
use fhir_certificate::Pair;

/// What is shown of two profiles, in one way.
#[derive(Drop)]
pub enum Shown<'s> {
    /// A certificate exists: each resource that conforms to the one conforms to the other.
    Narrows,
    /// None exists. That pair is the one to blame, and that is the rule that it fails; and if one was found, a resource that conforms to the one and
    /// not to the other.
    Fails {
        /// The pair.
        pair: Pair,
        /// The rule.
        rule: Rule<'s>,
        /// The resource, as JSON: it conforms to the one and not to the other, OLD's as OLD by itself says, NEW's as the package says that is made.
        resource: Option<Vec<u8>>,
    },
    /// OLD's profile can't be used beside NEW's definitions.
    CannotBeUsed,
}

/// One way of two: that NEW's profile narrows OLD's, or that OLD's narrows NEW's.
#[derive(Drop)]
pub struct Way<'s> {
    /// What is shown of the profiles themselves.
    pub shown: Shown<'s>,
    /// The url of a profile that it reaches of which the way isn't shown, if it reaches one: its own, if it is one.
    pub blamed: Option<&'s str>,
}

/// Both ways of the profiles of a url.
#[derive(Drop)]
pub struct Ways<'s> {
    /// That NEW's narrows OLD's.
    pub new_in_old: Way<'s>,
    /// That OLD's narrows NEW's.
    pub old_in_new: Way<'s>,
    /// A canonical that OLD's names, and that doesn't mean the same in both packages: a profile of a type that is a profile in one alone, or else a target
    /// that isn't of one type, or can be used in one alone, or else the content of an element that is of no type of both.
    pub lost: Option<&'s str>,
}

/// What is said of the profiles of a url.
#[derive(Drop)]
pub enum Verdict<'s> {
    /// Both can be used.
    Both(Ways<'s>),
    /// One can't be used, or none.
    CannotBeUsed {
        /// That of OLD can't.
        in_old: bool,
        /// That of NEW can't.
        in_new: bool,
    },
    /// OLD alone has one.
    OnlyInOld,
    /// NEW alone has one.
    OnlyInNew,
}

/// A url of which one of the packages has a profile, with what is said of it.
#[derive(Drop)]
pub struct Compared<'s> {
    /// The url.
    pub url: &'s str,
    /// What is said.
    pub verdict: Verdict<'s>,
}

/// How the profiles of a url that both packages have stand to one another, with the profiles that they reach.
#[derive(Clone, Copy, Debug, PartialEq, Eq)]
pub enum Change {
    /// Each narrows the other.
    Same,
    /// NEW's narrows OLD's.
    Narrows,
    /// OLD's narrows NEW's.
    Widens,
    /// Neither is shown.
    Neither,
}

impl<'s> Ways<'s> {
    /// Which ways hold.
    pub fn change(&self) -> Change
        ensures { result ≡ change_of (ways_seen self.now) }
    {
        match (self.new_in_old.blamed, self.old_in_new.blamed) {
            (None, None) => Change::Same,
            (None, Some(_)) => Change::Narrows,
            (Some(_), None) => Change::Widens,
            (Some(_), Some(_)) => Change::Neither,
        }
    }
}
