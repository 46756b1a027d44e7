//! The rules of a node's element at an item, where no unread rule holds.

ghost use Rattle.std.specs.Prelude.{◌≡◌, ◌&&◌, [], length, None, IfSome, IsTrue};
ghost use Rattle.std.specs.Option.{option_copied, option_map_or};
ghost use Rattle.fhir_json.specs.Views.{text_seen};
ghost use Rattle.fhir_elements.specs.Constraint.{must_hold};
ghost use Rattle.fhir_schema.specs.Expressions.{constraint_at};
ghost use Rattle.fhir_schema.specs.Schemas.{element_at};
ghost use Rattle.fhir_instance.specs.Items.{Item};
ghost use Rattle.fhir_instance.specs.View.{item_of};
ghost use Rattle.fhir_facets.specs.Cardinality.{are_enough, are_within};
ghost use Rattle.fhir_conformance.specs.Asks.{constraint_ask, own_constraint_asks, constraint_asks};
ghost use Rattle.fhir_conformance.specs.Conformance.{Around, at_element};
ghost use Rattle.fhir_walk.specs.Walks.{Tells, TellsBeside, passes, pass_all, settled_pass};

use crate::facets::is_held;
use crate::known::nearest_by;
use fhir_conformance::judge_constraint;
use fhir_elements::ConstraintDef;
use fhir_facets::{are_enough, are_within};
use fhir_instance::Typed;
use fhir_schema::{NodeRef, Schema};
use fhir_vouching::Vouching;
use std::alloc::Global;

// The most bytes of an expression that are compared, so that this never costs much more than judging it.
const SHORT: usize = 256;

// How many constraints a node's element has.
fn constraints_of(schema: &Schema, node: NodeRef) -> usize
    ensures { result ≡ option_map_or (λ e. length e.constraints) (element_at schema.now node) 0 }
{
    match schema.element(node) {
        Some(element) => element.constraints().len(),
        None => 0,
    }
}

fn constraint_holds<'t, 'a, 'j>(
    alloc: Global,
    schema: &'t Schema,
    around: &'t Typed<'a, 'j>,
    item: &'t Typed<'a, 'j>,
    node: NodeRef,
    position: usize,
) -> Option<bool>
    ensures { IfSome result (Tells (item_of around.now) (λ here. passes schema.now here (item_of item.now) (constraint_ask node position))) }
{
    let resource = nearest_by(schema, around, item, node);
    let given = Vouching::none();
    match judge_constraint(alloc, schema, resource, item, node, position, &given) {
        Ok(holding) => Some(is_held(holding)),
        Err(_no_memory) => None,
    }
}

fn constraint_of(schema: &Schema, node: NodeRef, position: usize) -> Option<&ConstraintDef>
    ensures { option_copied result ≡ constraint_at schema.now node position }
{
    schema.element(node)?.constraints().get(position)
}

// Whether two texts are there, short, and the same.
fn are_same(one: Option<&str>, other: Option<&str>) -> bool
    ensures { IsTrue result → text_seen one.entry ≡ text_seen other.entry }
{
    match (one, other) {
        (Some(one), Some(other)) => one.len() <= SHORT && one == other,
        _ => false,
    }
}

// Whether a constraint must hold, and asks for what the other asks for.
fn is_as_strict(one: &ConstraintDef, other: &ConstraintDef) -> bool
    ensures must { IsTrue result → IsTrue (must_hold one.now) }
    ensures same { IsTrue result → one.now.expression ≡ other.now.expression }
{
    one.must_hold() && are_same(one.expression(), other.expression())
}

// Whether a constraint of a node holds of each item of which those of another node do: whether that has the same one, at the same
// position.
fn is_among(schema: &Schema, known: NodeRef, node: NodeRef, position: usize) -> bool
    ensures { IsTrue result → (here : Around) (x : Item) → IsTrue (settled_pass schema.now here x (Some known))
        → IsTrue (passes schema.now here x (constraint_ask node position)) }
{
    let Some(one) = constraint_of(schema, known, position) else {
        return false;
    };
    let Some(other) = constraint_of(schema, node, position) else {
        return false;
    };
    is_as_strict(one, other)
}

fn is_settled(schema: &Schema, settled: Option<NodeRef>, node: NodeRef, position: usize) -> bool
    ensures { IsTrue result → (here : Around) (x : Item) → IsTrue (settled_pass schema.now here x settled)
        → IsTrue (passes schema.now here x (constraint_ask node position)) }
{
    match settled {
        Some(known) => is_among(schema, known, node, position),
        None => false,
    }
}

// Whether a constraint holds, where those of a node are known to hold.
fn constraint_holds_beside<'t, 'a, 'j>(
    alloc: Global,
    schema: &'t Schema,
    around: &'t Typed<'a, 'j>,
    item: &'t Typed<'a, 'j>,
    node: NodeRef,
    position: usize,
    settled: Option<NodeRef>,
) -> Option<bool>
    ensures { IfSome result (TellsBeside schema.now (item_of item.now) settled (item_of around.now)
        (λ here. passes schema.now here (item_of item.now) (constraint_ask node position))) }
{
    if is_settled(schema, settled, node, position) {
        return Some(true);
    }
    constraint_holds(alloc, schema, around, item, node, position)
}

fn own_constraints_hold<'t, 'a, 'j>(
    alloc: Global,
    schema: &'t Schema,
    around: &'t Typed<'a, 'j>,
    item: &'t Typed<'a, 'j>,
    node: NodeRef,
    settled: Option<NodeRef>,
) -> Option<bool>
    ensures { IfSome result (TellsBeside schema.now (item_of item.now) settled (item_of around.now)
        (λ here. pass_all schema.now here (item_of item.now) (own_constraint_asks schema.now node))) }
{
    for position in 0..constraints_of(schema, node) {
        if !constraint_holds_beside(alloc, schema, around, item, node, position, settled)? {
            return Some(false);
        }
    }
    Some(true)
}

fn target_constraints_hold<'t, 'a, 'j>(
    alloc: Global,
    schema: &'t Schema,
    around: &'t Typed<'a, 'j>,
    item: &'t Typed<'a, 'j>,
    target: Option<NodeRef>,
) -> Option<bool>
    ensures { IfSome result (Tells (item_of around.now)
        (λ here. pass_all schema.now here (item_of item.now) (option_map_or (own_constraint_asks schema.now) target []))) }
{
    match target {
        Some(target) => own_constraints_hold(alloc, schema, around, item, target, None),
        None => Some(true),
    }
}

/// Whether the constraints of a node hold of an item, and those of the node that it refers to for its content, where that is the
/// nearest resource around the item, and the own constraints of another node are known to hold of it; none where memory is refused.
pub(crate) fn constraints_hold<'t, 'a, 'j>(
    alloc: Global,
    schema: &'t Schema,
    around: &'t Typed<'a, 'j>,
    item: &'t Typed<'a, 'j>,
    node: NodeRef,
    settled: Option<NodeRef>,
) -> Option<bool>
    ensures { IfSome result (TellsBeside schema.now (item_of item.now) settled (item_of around.now)
        (λ here. pass_all schema.now here (item_of item.now) (constraint_asks schema.now node))) }
{
    if !own_constraints_hold(alloc, schema, around, item, node, settled)? {
        return Some(false);
    }
    target_constraints_hold(alloc, schema, around, item, schema.target(node))
}

/// Whether a node's element allows so many items.
pub(crate) fn allows_count(schema: &Schema, node: NodeRef, count: usize) -> bool
    ensures { result ≡ (at_element schema.now (λ e. are_enough e count) node && at_element schema.now (λ e. are_within e count) node) }
{
    match schema.element(node) {
        Some(element) => are_enough(element, count) && are_within(element, count),
        None => true,
    }
}
