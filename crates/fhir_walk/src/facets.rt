//! The facets of an element, where no unread rule holds.

ghost use Rattle.std.specs.Prelude.{◌≡◌, true, ◌&&◌};
ghost use Rattle.std.specs.Option.{option_map_or};
ghost use Rattle.fhir_schema.specs.Schemas.{element_at};
ghost use Rattle.fhir_instance.specs.View.{item_of};
ghost use Rattle.fhir_facets.specs.Unread.{strict};
ghost use Rattle.fhir_facets.specs.Views.{holding_at};
ghost use Rattle.fhir_conformance.specs.Conformance.{fixed_at, pattern_at, range_at, length_at, binding_at};
ghost use Rattle.fhir_walk.specs.Walks.{none, values_hold, bounds_hold, facets_hold};

use fhir_conformance::view_of;
use fhir_elements::ElementDef;
use fhir_facets::{Binding, Facet, Fixed, Holding, Length, Pattern, Range};
use fhir_instance::Typed;
use fhir_schema::{NodeRef, Schema};
use fhir_vouching::Vouching;

/// Whether an answer is that it holds, whatever unread rules mean.
pub(crate) fn is_held(holding: Holding<'_>) -> bool
    ensures { result ≡ holding_at strict holding.entry }
{
    match holding {
        Holding::Holds => true,
        Holding::Fails => false,
        Holding::Given(_rule) => false,
        Holding::Unread(_rule) => false,
    }
}

fn fixed_holds(item: &Typed<'_, '_>, element: &ElementDef) -> bool
    ensures { result ≡ fixed_at (item_of item.now) element.now }
{
    match element.fixed() {
        Some(fixed) => {
            is_held(Fixed(&fixed.value).holds_given(&view_of(item), &Vouching::none()))
        }
        None => true,
    }
}

fn pattern_holds(item: &Typed<'_, '_>, element: &ElementDef) -> bool
    ensures { result ≡ pattern_at (item_of item.now) element.now }
{
    match element.pattern() {
        Some(pattern) => {
            is_held(Pattern(&pattern.value).holds_given(&view_of(item), &Vouching::none()))
        }
        None => true,
    }
}

fn values_hold(item: &Typed<'_, '_>, element: &ElementDef) -> bool
    ensures { result ≡ values_hold (item_of item.now) element.now }
{
    fixed_holds(item, element) && pattern_holds(item, element)
}

fn range_holds(item: &Typed<'_, '_>, element: &ElementDef) -> bool
    ensures { result ≡ range_at none (item_of item.now) element.now }
{
    is_held(Range::of(element).holds_given(&view_of(item), &Vouching::none()))
}

fn length_holds(item: &Typed<'_, '_>, element: &ElementDef) -> bool
    ensures { result ≡ length_at (item_of item.now) element.now }
{
    match element.max_length() {
        Some(most) => is_held(Length(most).holds_given(&view_of(item), &Vouching::none())),
        None => true,
    }
}

fn bounds_hold(item: &Typed<'_, '_>, element: &ElementDef) -> bool
    ensures { result ≡ bounds_hold (item_of item.now) element.now }
{
    range_holds(item, element) && length_holds(item, element)
}

fn binding_holds(schema: &Schema, item: &Typed<'_, '_>, element: &ElementDef) -> bool
    ensures { result ≡ binding_at schema.now none (item_of item.now) element.now }
{
    match element.required_value_set() {
        Some(canonical) => is_held(Binding::of(schema, canonical).holds_given(
            &view_of(item),
            &Vouching::none(),
        )),
        None => true,
    }
}

fn bounds_and_binding_hold(schema: &Schema, item: &Typed<'_, '_>, element: &ElementDef) -> bool
    ensures { result ≡ (bounds_hold (item_of item.now) element.now && binding_at schema.now none (item_of item.now) element.now) }
{
    bounds_hold(item, element) && binding_holds(schema, item, element)
}

fn element_allows(schema: &Schema, item: &Typed<'_, '_>, element: &ElementDef) -> bool
    ensures { result ≡ facets_hold schema.now (item_of item.now) element.now }
{
    values_hold(item, element) && bounds_and_binding_hold(schema, item, element)
}

/// Whether the facets of a node's element hold of an item.
pub(crate) fn facets_hold(schema: &Schema, item: &Typed<'_, '_>, node: NodeRef) -> bool
    ensures { result ≡ option_map_or (facets_hold schema.now (item_of item.now)) (element_at schema.now node) true }
{
    match schema.element(node) {
        Some(element) => element_allows(schema, item, element),
        None => true,
    }
}
