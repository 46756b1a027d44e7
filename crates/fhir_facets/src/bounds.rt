//! One bound of a value. A bound is read anew each time, which takes no memory: a decimal and a moment borrow from its text.

ghost use Rattle.std.specs.Prelude.{◌≡◌, false};
ghost use Rattle.std.specs.Option.{option_map, option_map_or};
ghost use Rattle.fhir_json.specs.Views.{tree_of, property_of, tree_seen, property_seen};
ghost use Rattle.fhir_decimal.specs.Reading.{parts};
ghost use Rattle.fhir_decimal.specs.Value.{value_of};
ghost use Rattle.fhir_decimal.specs.Views.{parts_seen};
ghost use Rattle.fhir_prims.specs.Views.{fields_seen};
ghost use Rattle.fhir_facets.specs.Carried.{bound_unread};
ghost use Rattle.fhir_facets.specs.Ranges.{number_in, fields_in, number_order, field_order_of, order_of, is_beyond, scale_holds, bound_holds, is_same_bound, is_narrow_bound, bound_narrower, same_scale, scale_of_code, scale_of_bound};
ghost use Rattle.fhir_facets.specs.Unread.{Reading, meaning_of};
ghost use Rattle.fhir_facets.specs.Views.{side_test, holding_at, view_seen, IsVouched, IsCarried};

use crate::holding::Holding;
use crate::identity::identical;
use crate::scale::{Scale, same_scale, scale_of_bound, scale_of_code};
use crate::unread::Unread;
use crate::view::View;
use fhir_decimal::Decimal;
use fhir_json::{Json, Member};
use fhir_prims::{Moment, cmp_moment};
use fhir_vouching::Vouching;
use std::cmp::Ordering;

/// The side of a value that a bound is on.
#[derive(Clone, Copy, Debug, PartialEq, Eq)]
pub enum Side {
    /// The lower side.
    Least,
    /// The upper side.
    Most,
}

fn is_inside(side: Side, order: Ordering) -> bool
    ensures { result ≡ side_test side order }
{
    match side {
        Side::Least => order.is_ge(),
        Side::Most => order.is_le(),
    }
}

fn number_in<'t>(json: &'t Json<'_>) -> Option<Decimal<'t>>
    ensures { option_map (λ d. value_of (parts_seen d)) result ≡ number_in (tree_of json.now) }
{
    match json.as_number() {
        Some(text) => Decimal::of(text),
        None => None,
    }
}

fn fields_in<'t>(json: &'t Json<'_>) -> Option<Moment<'t>>
    ensures { option_map fields_seen result ≡ fields_in (tree_of json.now) }
{
    match json.as_text() {
        Some(text) => Moment::of(text),
        None => None,
    }
}

fn number_order(left: &Json<'_>, right: &Json<'_>) -> Option<Ordering>
    ensures { result ≡ number_order (tree_of left.now) (tree_of right.now) }
{
    match (number_in(left), number_in(right)) {
        (Some(left), Some(right)) => Some(left.cmp(&right)),
        _ => None,
    }
}

fn field_order(left: &Json<'_>, right: &Json<'_>) -> Option<Ordering>
    ensures { result ≡ field_order_of (tree_of left.now) (tree_of right.now) }
{
    match (fields_in(left), fields_in(right)) {
        (Some(left), Some(right)) => cmp_moment(&left, &right),
        _ => None,
    }
}

fn order_of(scale: Scale, left: &Json<'_>, right: &Json<'_>) -> Option<Ordering>
    ensures { result ≡ order_of scale (tree_of left.now) (tree_of right.now) }
{
    match scale {
        Scale::Number => number_order(left, right),
        Scale::Moment | Scale::Time => field_order(left, right),
    }
}

fn is_beyond(side: Side, scale: Scale, value: &Json<'_>, bound: &Json<'_>) -> bool
    ensures { result ≡ is_beyond (side_test side) scale (tree_of value.now) (tree_of bound.now) }
{
    match order_of(scale, value, bound) {
        Some(order) => is_inside(side, order),
        None => false,
    }
}

fn has_scale(scale: Scale, code: &str) -> bool
    ensures { result ≡ option_map_or (same_scale scale) (scale_of_code code.now) false }
{
    match scale_of_code(code) {
        Some(other) => same_scale(scale, other),
        None => false,
    }
}

fn scale_holds(side: Side, bound: &Json<'_>, view: &View<'_, '_>, scale: Scale) -> bool
    ensures { result ≡ scale_holds (side_test side) (tree_of bound.now) (view_seen view.now) scale }
{
    if !has_scale(scale, view.code) {
        return true;
    }
    match view.json {
        Some(value) => value.is_object() || is_beyond(side, scale, value, bound),
        None => true,
    }
}

/// Whether a value isn't outside a bound; it hangs on the bound where that isn't compared.
pub(crate) fn bound_holds<'a>(
    side: Side,
    bound: &'a Member<'static>,
    view: &View<'_, '_>,
    given: &Vouching,
) -> Holding<'a>
    ensures exact { (r : Reading) → holding_at r result
        ≡ bound_holds (side_test side) (meaning_of given.now r) (view_seen view.now) (property_of bound.now) }
    ensures vouched { IsVouched given.now result }
    ensures carried { IsCarried (bound_unread (property_of bound.now)) result }
{
    match scale_of_bound(bound.name.as_str()) {
        Some(scale) => Holding::of(scale_holds(side, &bound.value, view, scale)),
        None => Holding::of_rule(Unread::Range(bound), given),
    }
}

fn is_same_bound(own: &Member<'_>, base: &Member<'_>) -> bool
    ensures { result ≡ is_same_bound (property_of own.now) (property_of base.now) }
{
    own.name.as_str() == base.name.as_str() && identical(&own.value, &base.value)
}

fn has_scale_of_bound(scale: Scale, property: &str) -> bool
    ensures { result ≡ option_map_or (same_scale scale) (scale_of_bound property.now) false }
{
    match scale_of_bound(property) {
        Some(other) => same_scale(scale, other),
        None => false,
    }
}

fn is_narrow_bound(side: Side, own: &Member<'_>, base: &Json<'_>, scale: Scale) -> bool
    ensures { result ≡ is_narrow_bound (side_test side) (property_of own.now) (tree_of base.now) scale }
{
    has_scale_of_bound(scale, own.name.as_str()) && is_beyond(side, scale, &own.value, base)
}

/// Whether a bound is as narrow as another of its side.
pub(crate) fn bound_narrower(side: Side, own: &Member<'_>, base: &Member<'_>) -> bool
    ensures { result ≡ bound_narrower (side_test side) (property_of own.now) (property_of base.now) }
{
    match scale_of_bound(base.name.as_str()) {
        Some(scale) => is_narrow_bound(side, own, &base.value, scale),
        None => is_same_bound(own, base),
    }
}
