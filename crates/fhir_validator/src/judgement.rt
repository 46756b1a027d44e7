//! Judgements.

ghost use Rattle.std.specs.Prelude.{◌≡◌, ◌&&◌, ◌||◌};
ghost use Rattle.fhir_facets.specs.Unread.{Reading};
ghost use Rattle.fhir_facets.specs.Views.{holding_at};
ghost use Rattle.fhir_validator.specs.Judgements.{under, same_judgement};

use fhir_facets::Holding;

/// Whether something holds of an item, where unread rules may mean anything and a user vouches for some of them.
#[derive(Clone, Copy, PartialEq, Eq)]
pub(crate) enum Judgement {
    /// It holds, whatever they mean.
    Holds,
    /// It holds where those do that the user vouches for, and fails where none does.
    Given,
    /// It holds where each of them does, and fails where those alone do that the user vouches for.
    Open,
    /// It fails, whatever they mean.
    Fails,
}

impl Judgement {
    /// What a rule comes to.
    pub(crate) fn of(holding: Holding<'_>) -> Judgement
        ensures { (r : Reading) → under r result ≡ holding_at r holding.entry }
    {
        match holding {
            Holding::Holds => Judgement::Holds,
            Holding::Given(_rule) => Judgement::Given,
            Holding::Unread(_rule) => Judgement::Open,
            Holding::Fails => Judgement::Fails,
        }
    }

    /// What two come to, where both have to hold.
    pub(crate) fn and(self, other: Judgement) -> Judgement
        ensures { (r : Reading) → under r result ≡ (under r self && under r other) }
    {
        match (self, other) {
            (Judgement::Fails, _) | (_, Judgement::Fails) => Judgement::Fails,
            (Judgement::Open, _) | (_, Judgement::Open) => Judgement::Open,
            (Judgement::Given, _) | (_, Judgement::Given) => Judgement::Given,
            _ => Judgement::Holds,
        }
    }

    /// What two come to, where one of them has to hold.
    pub(crate) fn or(self, other: Judgement) -> Judgement
        ensures { (r : Reading) → under r result ≡ (under r self || under r other) }
    {
        match (self, other) {
            (Judgement::Holds, _) | (_, Judgement::Holds) => Judgement::Holds,
            (Judgement::Given, _) | (_, Judgement::Given) => Judgement::Given,
            (Judgement::Open, _) | (_, Judgement::Open) => Judgement::Open,
            _ => Judgement::Fails,
        }
    }

    /// Whether it is that one.
    pub(crate) fn is(self, other: Judgement) -> bool
        ensures { result ≡ same_judgement self other }
    {
        self == other
    }
}
