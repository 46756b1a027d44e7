//! Facets.

ghost use Rattle.std.specs.Prelude.{◌≡◌, [], Bool, List};
ghost use Rattle.fhir_facets.specs.Unread.{Unread as Rule, Meaning, Reading, meaning_of};
ghost use Rattle.fhir_facets.specs.Views.{holding_under, holding_at, IsVouched, IsCarried};

use crate::holding::Holding;
use fhir_vouching::Vouching;

/// What an element asks for by one of its fields (FHIR R4, ElementDefinition). No facet takes memory.
pub trait Facet<'a, Asked> {
    /// Whether it holds of what is asked, where unread rules mean so.
    ghost meant: { Meaning → Self → Asked → Bool };

    /// The unread rules that it may hang on, asked so.
    ghost unread_rules: { Self → Asked → List Rule };

    /// Whether the first is as narrow as the second.
    ghost is_narrower: { Self → Self → Bool };

    /// Whether it holds, whatever the unread rules mean; or the first unread rule that it hangs on.
    fn holds(&self, asked: &Asked) -> Holding<'a>
        ensures exact { (b : Bool) → holding_under b result ≡ meant (λ u. b) self.now asked.now }
        ensures vouched { IsVouched [] result }
        ensures carried { IsCarried (unread_rules self.now asked.now) result };

    /// Whether it holds, whatever the unread rules mean; or whether it does where the rules hold whose texts are given, with a
    /// given rule that it hangs on; or the first unread rule that it hangs on and that isn't given.
    fn holds_given(&self, asked: &Asked, given: &Vouching) -> Holding<'a>
        ensures exact { (r : Reading) → holding_at r result ≡ meant (meaning_of given.now r) self.now asked.now }
        ensures vouched { IsVouched given.now result }
        ensures carried { IsCarried (unread_rules self.now asked.now) result };

    /// Whether it is as narrow as another: that one holds wherever this one does.
    fn narrower(&self, base: &Self) -> bool
        ensures { result ≡ is_narrower self.now base.now };
}
