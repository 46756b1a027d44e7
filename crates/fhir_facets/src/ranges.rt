//! Bounds of values (FHIR R4, ElementDefinition, minValue[x] and maxValue[x]).

ghost use Rattle.std.specs.Prelude.{◌≡◌, true, []};
ghost use Rattle.std.specs.Option.{option_map_or};
ghost use Rattle.fhir_json.specs.Views.{property_seen};
ghost use Rattle.fhir_facets.specs.Carried.{bound_unread};
ghost use Rattle.fhir_facets.specs.Ranges.{bound_holds, side_narrower, range_holds, range_narrower};
ghost use Rattle.fhir_facets.specs.Unread.{Reading, meaning_of};
ghost use Rattle.fhir_facets.specs.Views.{side_test, range_seen, range_rules, holding_at, view_seen, IsVouched, IsCarried};

use crate::bounds::{Side, bound_holds, bound_narrower};
use crate::facet::Facet;
use crate::holding::Holding;
use crate::view::View;
use fhir_elements::ElementDef;
use fhir_json::Member;
use fhir_vouching::Vouching;

/// The least and the greatest value that an item may have, each if there is one (FHIR R4, ElementDefinition, minValue[x]
/// and maxValue[x]). Numbers are compared by value, and dates, moments and times of day by their fields, where they have an
/// order; a bound of another type is an unread rule. An item on another scale than a bound's, or without a value, is passed
/// over.
///
/// A bound is read anew each time, in time linear in its text and with no memory taken.
#[derive(Clone, Copy)]
pub struct Range<'a> {
    /// The least value, under its whole name, as `minValueInteger`.
    pub least: Option<&'a Member<'static>>,
    /// The greatest value, under its whole name, as `maxValueDate`.
    pub most: Option<&'a Member<'static>>,
}

impl<'a> Range<'a> {
    /// The bounds of an element.
    pub fn of(element: &'a ElementDef) -> Range<'a>
        ensures { range_seen result ≡ record { least = element.now.min_value; most = element.now.max_value } }
    {
        Range {
            least: element.min_value(),
            most: element.max_value(),
        }
    }
}

fn side_holds<'a>(
    side: Side,
    bound: Option<&'a Member<'static>>,
    view: &View<'_, '_>,
    given: &Vouching,
) -> Holding<'a>
    ensures exact { (r : Reading) → holding_at r result
        ≡ option_map_or (bound_holds (side_test side) (meaning_of given.now r) (view_seen view.now)) (property_seen bound.entry) true }
    ensures vouched { IsVouched given.now result }
    ensures carried { IsCarried (option_map_or bound_unread (property_seen bound.entry) []) result }
{
    match bound {
        Some(bound) => bound_holds(side, bound, view, given),
        None => Holding::Holds,
    }
}

fn side_narrower(side: Side, own: Option<&Member<'_>>, base: Option<&Member<'_>>) -> bool
    ensures { result ≡ side_narrower (side_test side) (property_seen own.entry) (property_seen base.entry) }
{
    let Some(base) = base else {
        return true;
    };
    match own {
        Some(own) => bound_narrower(side, own, base),
        None => false,
    }
}

impl<'a> Facet<'a, View<'_, '_>> for Range<'a> {
    ghost meant = { λ m range view. range_holds m (range_seen range) (view_seen view) };

    ghost unread_rules = { λ range asked. range_rules (range_seen range) };

    ghost is_narrower = { λ range base. range_narrower (range_seen range) (range_seen base) };

    fn holds(&self, asked: &View<'_, '_>) -> Holding<'a> {
        self.holds_given(asked, &Vouching::none())
    }

    fn holds_given(&self, asked: &View<'_, '_>, given: &Vouching) -> Holding<'a> {
        side_holds(Side::Least, self.least, asked, given).and(side_holds(
            Side::Most,
            self.most,
            asked,
            given,
        ))
    }

    fn narrower(&self, base: &Self) -> bool {
        side_narrower(Side::Least, self.least, base.least)
            && side_narrower(Side::Most, self.most, base.most)
    }
}
