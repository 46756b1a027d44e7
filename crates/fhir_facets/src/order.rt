//! How the items of an element stand to one another, where it has slices (FHIR R4, ElementDefinition, slicing.ordered and
//! slicing.rules).

ghost use Rattle.std.specs.Prelude.{◌≡◌, ℕ, [], map, Option, is_none, false, not, ◌&&◌, ◌||◌};
ghost use Rattle.std.specs.Option.{option_map_or, option_and_then};
ghost use Rattle.std.specs.List.{list_any};
ghost use Rattle.fhir_json.specs.Bytes.{is_empty};
ghost use Rattle.fhir_schema.specs.Schemas.{element_at, slices, is_closed};
ghost use Rattle.fhir_facets.specs.Order.{orders_items, ends_openly, opens_at_end, is_ordered, is_open_at_end, may_follow, later_of, are_in_order, is_rest_last, place_named, order_holds, is_live, base_place, ordered_narrower, is_new, is_kept, new_come_last, new_are_rest, has_named, end_narrower, order_narrower};

use crate::cardinality::is_forbidden;
use crate::facet::Facet;
use crate::holding::Holding;
use fhir_elements::{ElementDef, SlicingRules};
use fhir_schema::{NodeRef, Schema, Slot};
use fhir_vouching::Vouching;

fn orders_items(element: &ElementDef) -> bool
    ensures { result ≡ orders_items element.now }
{
    match element.slicing() {
        Some(slicing) => slicing.ordered().unwrap_or(false),
        None => false,
    }
}

fn ends_openly(rules: SlicingRules) -> bool
    ensures { result ≡ ends_openly rules }
{
    matches!(rules, SlicingRules::OpenAtEnd)
}

fn rules_of(element: &ElementDef) -> Option<SlicingRules>
    ensures { result ≡ option_and_then (λ s. s.rules) element.now.slicing }
{
    element.slicing()?.rules()
}

fn opens_at_end(element: &ElementDef) -> bool
    ensures { result ≡ opens_at_end element.now }
{
    rules_of(element).is_some_and(|rules| ends_openly(rules))
}

/// Whether the items of a node's element stand in the order of its slices (FHIR R4, ElementDefinition, slicing.ordered).
pub fn is_ordered(schema: &Schema, node: NodeRef) -> bool
    ensures { result ≡ is_ordered schema.now node }
{
    match schema.element(node) {
        Some(element) => orders_items(element),
        None => false,
    }
}

/// Whether items that are in no slice of a node's element stand behind those that are in one (FHIR R4, ElementDefinition,
/// slicing.rules, openAtEnd).
pub fn is_open_at_end(schema: &Schema, node: NodeRef) -> bool
    ensures { result ≡ is_open_at_end schema.now node }
{
    match schema.element(node) {
        Some(element) => opens_at_end(element),
        None => false,
    }
}

/// Whether an item may follow another, by the places of their slices in the definition: the earlier one's slice doesn't stand
/// after the later one's. An item that is in no slice has no place.
pub fn may_follow(earlier: Option<usize>, later: Option<usize>) -> bool
    ensures { result ≡ may_follow earlier later }
{
    match (earlier, later) {
        (Some(earlier), Some(later)) => earlier <= later,
        _ => true,
    }
}

// The last place of a sequence that has one.
fn later_of(earlier: Option<usize>, later: Option<usize>) -> Option<usize>
    ensures { result ≡ later_of earlier later }
{
    match later {
        Some(_place) => later,
        None => earlier,
    }
}

fn place_named(schema: &Schema, node: NodeRef, name: &str) -> Option<usize>
    ensures { result ≡ place_named schema.now node name.now }
{
    match schema.slice(node, name) {
        Some(slice) => Some(slice.entry()),
        None => None,
    }
}

fn are_in_order(schema: &Schema, node: NodeRef, names: &[&str]) -> bool
    ensures { result ≡ are_in_order (map (place_named schema.now node) (map (λ name. name.now) names.now)) }
{
    let mut last = None;
    for name in names {
        let place = place_named(schema, node, name);
        if !may_follow(last, place) {
            return false;
        }
        last = later_of(last, place);
    }
    true
}

fn is_rest_last(schema: &Schema, node: NodeRef, names: &[&str]) -> bool
    ensures { result ≡ is_rest_last (map (place_named schema.now node) (map (λ name. name.now) names.now)) }
{
    let mut is_rest = false;
    for name in names {
        let is_in_none = place_named(schema, node, name).is_none();
        if is_rest & !is_in_none {
            return false;
        }
        is_rest = is_rest | is_in_none;
    }
    true
}

fn is_live(schema: &Schema, node: NodeRef, slice: &Slot) -> bool
    ensures { result ≡ is_live schema.now node slice.now }
{
    let entry = NodeRef {
        definition: node.definition,
        element: slice.entry(),
    };
    match schema.element(entry) {
        Some(element) => !is_forbidden(element),
        None => true,
    }
}

// ---- narrowing

fn base_place(schema: &Schema, n: NodeRef, m: NodeRef, slice: &Slot) -> Option<usize>
    ensures { result ≡ base_place schema.now n m slice.now }
{
    if is_live(schema, n, slice) {
        place_named(schema, m, slice.name())
    } else {
        None
    }
}

fn keeps_order(schema: &Schema, n: NodeRef, m: NodeRef) -> bool
    ensures { result ≡ are_in_order (map (base_place schema.now n m) (slices schema.now n)) }
{
    let mut last = None;
    for slice in schema.slices(n) {
        let place = base_place(schema, n, m, slice);
        if !may_follow(last, place) {
            return false;
        }
        last = later_of(last, place);
    }
    true
}

fn orders_none(schema: &Schema, node: NodeRef) -> bool
    ensures { result ≡ (is_empty (slices schema.now node) || not (is_ordered schema.now node)) }
{
    schema.slices(node).is_empty() || !is_ordered(schema, node)
}

/// Whether the items of a node's element keep the order of a base's: where that is ordered, so is this, and the slices in which
/// items may be, and that the base has too, stand in the base's order (FHIR R4, ElementDefinition, slicing.ordered). It takes no memory,
/// and looks each slice up once.
pub fn ordered_narrower(schema: &Schema, n: NodeRef, m: NodeRef) -> bool
    ensures { result ≡ ordered_narrower schema.now n m }
{
    orders_none(schema, m) || (is_ordered(schema, n) && keeps_order(schema, n, m))
}

fn has_named(schema: &Schema, m: NodeRef, slice: &Slot) -> bool
    ensures { result ≡ has_named schema.now m slice.now }
{
    schema.slice(m, slice.name()).is_some()
}

fn is_new(schema: &Schema, n: NodeRef, m: NodeRef, slice: &Slot) -> bool
    ensures { result ≡ is_new (has_named schema.now m) schema.now n slice.now }
{
    is_live(schema, n, slice) && !has_named(schema, m, slice)
}

fn is_kept(schema: &Schema, n: NodeRef, m: NodeRef, slice: &Slot) -> bool
    ensures { result ≡ is_kept (has_named schema.now m) schema.now n slice.now }
{
    is_live(schema, n, slice) && has_named(schema, m, slice)
}

fn some_new(schema: &Schema, n: NodeRef, m: NodeRef) -> bool
    ensures { result ≡ list_any (is_new (has_named schema.now m) schema.now n) (slices schema.now n) }
{
    schema
        .slices(n)
        .iter()
        .any(|slice| is_new(schema, n, m, slice))
}

fn new_come_last(schema: &Schema, n: NodeRef, m: NodeRef) -> bool
    ensures { result ≡ new_come_last (has_named schema.now m) schema.now n }
{
    let mut after_new = false;
    for slice in schema.slices(n) {
        if after_new & is_kept(schema, n, m, slice) {
            return false;
        }
        after_new = after_new | is_new(schema, n, m, slice);
    }
    true
}

fn are_ordered_last(schema: &Schema, n: NodeRef, m: NodeRef) -> bool
    ensures { result ≡ (is_ordered schema.now n && new_come_last (has_named schema.now m) schema.now n) }
{
    is_ordered(schema, n) && new_come_last(schema, n, m)
}

fn new_are_rest(schema: &Schema, n: NodeRef, m: NodeRef) -> bool
    ensures { result ≡ new_are_rest (has_named schema.now m) schema.now n }
{
    !some_new(schema, n, m) || are_ordered_last(schema, n, m)
}

/// Whether a node's element has slices and is open at its end.
fn ends_none(schema: &Schema, node: NodeRef) -> bool
    ensures { result ≡ (is_empty (slices schema.now node) || not (is_open_at_end schema.now node)) }
{
    schema.slices(node).is_empty() || !is_open_at_end(schema, node)
}

fn keeps_end(schema: &Schema, node: NodeRef) -> bool
    ensures { result ≡ (is_closed schema.now node || is_open_at_end schema.now node) }
{
    schema.is_closed(node) || is_open_at_end(schema, node)
}

fn end_narrower(schema: &Schema, n: NodeRef, m: NodeRef) -> bool
    ensures { result ≡ end_narrower schema.now n m }
{
    ends_none(schema, m) || (keeps_end(schema, n) && new_are_rest(schema, n, m))
}

// ---- the facet

/// How the items of an element that has slices stand to one another (FHIR R4, ElementDefinition, slicing.ordered and slicing.rules): in
/// the order of the slices, and those in none at the end. It is asked of the names of the slices that the items are in; a name that
/// no slice has is that of an item in none.
#[derive(Clone, Copy)]
pub struct Order<'s> {
    /// The schema that the element is in.
    pub schema: &'s Schema,
    /// The element's node.
    pub node: NodeRef,
}

fn keep_order(schema: &Schema, node: NodeRef, names: &[&str]) -> bool
    ensures { result ≡ (not (is_ordered schema.now node) || are_in_order (map (place_named schema.now node) (map (λ name. name.now) names.now))) }
{
    !is_ordered(schema, node) || are_in_order(schema, node, names)
}

fn keep_end(schema: &Schema, node: NodeRef, names: &[&str]) -> bool
    ensures { result ≡ (not (is_open_at_end schema.now node) || is_rest_last (map (place_named schema.now node) (map (λ name. name.now) names.now))) }
{
    !is_open_at_end(schema, node) || is_rest_last(schema, node, names)
}

fn order_holds(schema: &Schema, node: NodeRef, names: &[&str]) -> bool
    ensures { result ≡ order_holds schema.now node (map (λ name. name.now) names.now) }
{
    keep_order(schema, node, names) && keep_end(schema, node, names)
}

impl<'a> Facet<'a, &[&str]> for Order<'_> {
    ghost meant = { λ m order names. order_holds order.schema.now order.node (map (λ name. name.now) names.now) };

    ghost unread_rules = { λ order asked. [] };

    ghost is_narrower = { λ order base. order_narrower order.schema.now order.node base.node };

    fn holds(&self, asked: &&[&str]) -> Holding<'a> {
        self.holds_given(asked, &Vouching::none())
    }

    fn holds_given(&self, asked: &&[&str], _given: &Vouching) -> Holding<'a> {
        Holding::of(order_holds(self.schema, self.node, asked))
    }

    /// Whether the order is as narrow as that of another element, by the schema of this one.
    fn narrower(&self, base: &Self) -> bool {
        ordered_narrower(self.schema, self.node, base.node)
            && end_narrower(self.schema, self.node, base.node)
    }
}
