//! What a facet comes to.

ghost use Rattle.std.specs.Prelude.{◌≡◌, List, ◌&&◌, ◌||◌, ◌∷◌, []};
ghost use Rattle.fhir_json.specs.Tree.{Text};
ghost use Rattle.fhir_facets.specs.Unread.{Unread as Rule, Reading, meaning_of};
ghost use Rattle.fhir_facets.specs.Views.{unread_seen, holding_at, IsVouched, IsCarried};

use crate::unread::Unread;
use fhir_vouching::Vouching;

/// What a facet comes to, where a user vouches for some of the unread rules by their texts.
#[derive(Clone, Copy)]
pub enum Holding<'a> {
    /// It holds, whatever the unread rules mean.
    Holds,
    /// It fails, whatever they mean.
    Fails,
    /// It holds where the rules do whose texts are given, and fails where no unread rule holds. This is one of those.
    Given(Unread<'a>),
    /// It holds where each unread rule does, and fails where those alone do whose texts are given. This is one of the others.
    Unread(Unread<'a>),
}

impl<'a> Holding<'a> {
    /// What a test comes to.
    pub fn of(holds: bool) -> Holding<'a>
        ensures decided { (r : Reading) → holding_at r result ≡ holds }
        ensures vouched { (texts : List Text) → IsVouched texts result }
        ensures carried { (rules : List Rule) → IsCarried rules result }
    {
        if holds {
            Holding::Holds
        } else {
            Holding::Fails
        }
    }

    /// What an unread rule comes to.
    pub fn of_rule(rule: Unread<'a>, given: &Vouching) -> Holding<'a>
        ensures decided { (r : Reading) → holding_at r result ≡ meaning_of given.now r (unread_seen rule.entry) }
        ensures vouched { IsVouched given.now result }
        ensures carried { IsCarried (unread_seen rule.entry ∷ []) result }
    {
        if given.contains(&rule) {
            Holding::Given(rule)
        } else {
            Holding::Unread(rule)
        }
    }

    /// What two facets come to together, where both have to hold.
    pub(crate) fn and(self, other: Holding<'a>) -> Holding<'a>
        ensures both { (r : Reading) → holding_at r result
            ≡ (holding_at r self.entry && holding_at r other.entry) }
        ensures vouched { (texts : List Text) → IsVouched texts self.entry → IsVouched texts other.entry
            → IsVouched texts result }
        ensures carried { (rules : List Rule) → IsCarried rules self.entry → IsCarried rules other.entry
            → IsCarried rules result }
    {
        match (self, other) {
            (Holding::Fails, _) | (_, Holding::Fails) => Holding::Fails,
            (Holding::Unread(rule), _) | (_, Holding::Unread(rule)) => Holding::Unread(rule),
            (Holding::Given(rule), _) | (_, Holding::Given(rule)) => Holding::Given(rule),
            _ => Holding::Holds,
        }
    }

    /// What two facets come to together, where one has to hold.
    pub(crate) fn or(self, other: Holding<'a>) -> Holding<'a>
        ensures one { (r : Reading) → holding_at r result
            ≡ (holding_at r self.entry || holding_at r other.entry) }
        ensures vouched { (texts : List Text) → IsVouched texts self.entry → IsVouched texts other.entry
            → IsVouched texts result }
        ensures carried { (rules : List Rule) → IsCarried rules self.entry → IsCarried rules other.entry
            → IsCarried rules result }
    {
        match (self, other) {
            (Holding::Holds, _) | (_, Holding::Holds) => Holding::Holds,
            (Holding::Given(rule), _) | (_, Holding::Given(rule)) => Holding::Given(rule),
            (Holding::Unread(rule), _) | (_, Holding::Unread(rule)) => Holding::Unread(rule),
            _ => Holding::Fails,
        }
    }
}
