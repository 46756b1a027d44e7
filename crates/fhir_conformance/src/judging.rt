//! Whether a rule holds of an item.

ghost use Rattle.std.specs.Prelude.{◌≡◌, [], is_none, IfOk, IsTrue};
ghost use Rattle.std.specs.Option.{option_copied, option_map, option_map_or};
ghost use Rattle.fhir_elements.specs.Constraint.{must_hold};
ghost use Rattle.fhir_fp_syntax.specs.Expression.{expression_of as tree_of};
ghost use Rattle.fhir_nodes.specs.Expressions.{expression_of};
ghost use Rattle.fhir_schema.specs.Expressions.{constraint_at};
ghost use Rattle.fhir_schema.specs.Schemas.{element_at};
ghost use Rattle.fhir_instance.specs.View.{item_of};
ghost use Rattle.fhir_facets.specs.Carried.{range_unread, constraint_unread};
ghost use Rattle.fhir_facets.specs.Cardinality.{are_enough, are_within};
ghost use Rattle.fhir_facets.specs.Order.{may_follow};
ghost use Rattle.fhir_facets.specs.Unread.{Reading, meaning_of};
ghost use Rattle.fhir_facets.specs.Views.{view_seen, holding_at, IsVouched, IsCarried};
ghost use Rattle.fhir_conformance.specs.Conformance.{seen, constraint_passes, constraint_holds, fixed_at, pattern_at, range_at, length_at, binding_at, at_element, entry_allows, count_in, rule_holds};
ghost use Rattle.fhir_conformance.specs.Asks.{constraint as constraint_rule};
ghost use Rattle.fhir_conformance.specs.Meeting.{entry_unread, set_unread, rule_unread};
ghost use Rattle.fhir_conformance.specs.Positions.{slice_place};
ghost use Rattle.fhir_conformance.specs.Views.{rule_name, IsIndexOf};

use crate::ask::ElementRule;
use crate::kids_by_name::KidsByName;
use crate::members::{count_in, is_apart_at, is_sliced_at, slice_place};
use fhir_elements::{ConstraintDef, ElementDef, TypeEntry};
use fhir_facets::{
    Binding, Facet, Fixed, Holding, Length, Pattern, Range, Targets, Unread, View, are_enough,
    are_within, may_follow,
};
use fhir_fp_eval::{Env, holds};
use fhir_fp_syntax::Expr;
use fhir_instance::Typed;
use fhir_json::NoMemory;
use fhir_schema::{NodeRef, Schema};
use fhir_vouching::Vouching;
use std::alloc::Global;

/// What a facet sees of an item.
pub fn view_of<'t, 'j>(item: &'t Typed<'_, 'j>) -> View<'t, 'j>
    ensures { view_seen result ≡ seen (item_of item.now) }
{
    View {
        code: item.code(),
        json: item.json(),
        has_kids: !item.kids().is_empty(),
    }
}

/// Whether an item is of the type of a type entry, and its reference's target one of the entry's (FHIR R4, ElementDefinition,
/// type and type.targetProfile). The profiles that the entry names are no part of it. Where unread rules decide it, it answers
/// one of the entry's: one whose text is given, where those do that are given.
pub fn judge_entry<'s>(
    schema: &'s Schema,
    item: &Typed<'_, '_>,
    entry: &'s TypeEntry,
    given: &Vouching,
) -> Holding<'s>
    ensures exact { (r : Reading) → holding_at r result
        ≡ entry_allows schema.now (meaning_of given.now r) (item_of item.now) entry.now }
    ensures vouched { IsVouched given.now result }
    ensures carried { IsCarried (entry_unread schema.now (item_of item.now) entry.now) result }
{
    if schema.covers(entry.code(), item.code()) {
        Targets { schema, entry }.holds_given(&view_of(item), given)
    } else {
        Holding::Fails
    }
}

fn judge_fixed<'s>(
    schema: &'s Schema,
    item: &Typed<'_, '_>,
    node: NodeRef,
    given: &Vouching,
) -> Holding<'s>
    ensures exact { (r : Reading) → holding_at r result
        ≡ at_element schema.now (fixed_at (item_of item.now)) node }
    ensures vouched { IsVouched given.now result }
    ensures decided { IsCarried [] result }
{
    let Some(element) = schema.element(node) else {
        return Holding::Holds;
    };
    match element.fixed() {
        Some(fixed) => Fixed(&fixed.value).holds_given(&view_of(item), given),
        None => Holding::Holds,
    }
}

fn judge_pattern<'s>(
    schema: &'s Schema,
    item: &Typed<'_, '_>,
    node: NodeRef,
    given: &Vouching,
) -> Holding<'s>
    ensures exact { (r : Reading) → holding_at r result
        ≡ at_element schema.now (pattern_at (item_of item.now)) node }
    ensures vouched { IsVouched given.now result }
    ensures decided { IsCarried [] result }
{
    let Some(element) = schema.element(node) else {
        return Holding::Holds;
    };
    match element.pattern() {
        Some(pattern) => Pattern(&pattern.value).holds_given(&view_of(item), given),
        None => Holding::Holds,
    }
}

fn judge_range<'s>(
    schema: &'s Schema,
    item: &Typed<'_, '_>,
    node: NodeRef,
    given: &Vouching,
) -> Holding<'s>
    ensures exact { (r : Reading) → holding_at r result
        ≡ at_element schema.now (range_at (meaning_of given.now r) (item_of item.now)) node }
    ensures vouched { IsVouched given.now result }
    ensures carried { IsCarried (option_map_or range_unread (element_at schema.now node) []) result }
{
    match schema.element(node) {
        Some(element) => Range::of(element).holds_given(&view_of(item), given),
        None => Holding::Holds,
    }
}

fn judge_length<'s>(
    schema: &'s Schema,
    item: &Typed<'_, '_>,
    node: NodeRef,
    given: &Vouching,
) -> Holding<'s>
    ensures exact { (r : Reading) → holding_at r result
        ≡ at_element schema.now (length_at (item_of item.now)) node }
    ensures vouched { IsVouched given.now result }
    ensures decided { IsCarried [] result }
{
    let Some(element) = schema.element(node) else {
        return Holding::Holds;
    };
    match element.max_length() {
        Some(most) => Length(most).holds_given(&view_of(item), given),
        None => Holding::Holds,
    }
}

fn judge_set<'s>(
    schema: &'s Schema,
    item: &Typed<'_, '_>,
    element: &'s ElementDef,
    given: &Vouching,
) -> Holding<'s>
    ensures exact { (r : Reading) → holding_at r result
        ≡ binding_at schema.now (meaning_of given.now r) (item_of item.now) element.now }
    ensures vouched { IsVouched given.now result }
    ensures carried { IsCarried (set_unread schema.now (item_of item.now) element.now) result }
{
    match element.required_value_set() {
        Some(canonical) => Binding::of(schema, canonical).holds_given(&view_of(item), given),
        None => Holding::Holds,
    }
}

fn judge_binding<'s>(
    schema: &'s Schema,
    item: &Typed<'_, '_>,
    node: NodeRef,
    given: &Vouching,
) -> Holding<'s>
    ensures exact { (r : Reading) → holding_at r result
        ≡ at_element schema.now (binding_at schema.now (meaning_of given.now r) (item_of item.now)) node }
    ensures vouched { IsVouched given.now result }
    ensures carried { IsCarried (option_map_or (set_unread schema.now (item_of item.now)) (element_at schema.now node) []) result }
{
    match schema.element(node) {
        Some(element) => judge_set(schema, item, element, given),
        None => Holding::Holds,
    }
}

fn constraint_of(schema: &Schema, node: NodeRef, position: usize) -> Option<&ConstraintDef>
    ensures { option_copied result ≡ constraint_at schema.now node position }
{
    schema.element(node)?.constraints().get(position)
}

// Whether a constraint that must hold does, by its expression, if that can be read.
fn judge_expression<'s, 't, 'a, 'j>(
    alloc: Global,
    schema: &'t Schema,
    resource: &'t Typed<'a, 'j>,
    item: &'t Typed<'a, 'j>,
    constraint: &'s ConstraintDef,
    expression: Option<&'t Expr>,
    given: &Vouching,
) -> Result<Holding<'s>, NoMemory>
    requires { option_map (λ e. tree_of e.now) expression ≡ expression_of constraint.now }
    ensures exact { IfOk result (λ h. (r : Reading) → holding_at r h
        ≡ constraint_holds schema.now (meaning_of given.now r) (item_of resource.now) (item_of item.now) constraint.now) }
    ensures vouched { IfOk result (IsVouched given.now) }
    ensures carried { IfOk result (λ h. IsTrue (must_hold constraint.now) → IsCarried (constraint_unread constraint.now) h) }
{
    let Some(expression) = expression else {
        return Ok(Holding::of_rule(Unread::of_constraint(constraint), given));
    };
    let env = Env {
        schema,
        resource,
        context: item,
    };
    Ok(Holding::of(holds(alloc, expression, &env, item)?))
}

/// Whether the constraint at a position among those of a node's element holds of an item, where that is the nearest resource at or
/// around it, as [`judge`] says it of the rule. Where there is none, or it needn't hold, it does. The one refusal is want of memory.
pub fn judge_constraint<'s, 't, 'a, 'j>(
    alloc: Global,
    schema: &'s Schema,
    resource: &'t Typed<'a, 'j>,
    item: &'t Typed<'a, 'j>,
    node: NodeRef,
    position: usize,
    given: &Vouching,
) -> Result<Holding<'s>, NoMemory>
    ensures exact { IfOk result (λ h. (r : Reading) → holding_at r h
        ≡ rule_holds schema.now (meaning_of given.now r) (item_of resource.now) (item_of item.now) (constraint_rule position) node) }
    ensures vouched { IfOk result (IsVouched given.now) }
    ensures carried { IfOk result (λ h. IsCarried (option_map_or constraint_unread (constraint_at schema.now node position) []) h) }
{
    let Some(constraint) = constraint_of(schema, node, position) else {
        return Ok(Holding::Holds);
    };
    if !constraint.must_hold() {
        return Ok(Holding::Holds);
    }
    let expression = schema.expression(node, position);
    judge_expression(alloc, schema, resource, item, constraint, expression, given)
}

fn has_enough(schema: &Schema, node: NodeRef, count: usize) -> bool
    ensures { result ≡ at_element schema.now (λ e. are_enough e count) node }
{
    match schema.element(node) {
        Some(element) => are_enough(element, count),
        None => true,
    }
}

fn has_no_more(schema: &Schema, node: NodeRef, count: usize) -> bool
    ensures { result ≡ at_element schema.now (λ e. are_within e count) node }
{
    match schema.element(node) {
        Some(element) => are_within(element, count),
        None => true,
    }
}

fn has_enough_in(
    schema: &Schema,
    item: &Typed<'_, '_>,
    kids_by_name: &KidsByName<'_>,
    node: NodeRef,
    name: &str,
) -> bool
    requires { IsIndexOf (item_of item.now) kids_by_name.now }
    ensures { result ≡ at_element schema.now (λ e. are_enough e (count_in schema.now node name.now (item_of item.now))) node }
{
    has_enough(
        schema,
        node,
        count_in(schema, item, kids_by_name, node, name),
    )
}

fn has_no_more_in(
    schema: &Schema,
    item: &Typed<'_, '_>,
    kids_by_name: &KidsByName<'_>,
    node: NodeRef,
    name: &str,
) -> bool
    requires { IsIndexOf (item_of item.now) kids_by_name.now }
    ensures { result ≡ at_element schema.now (λ e. are_within e (count_in schema.now node name.now (item_of item.now))) node }
{
    has_no_more(
        schema,
        node,
        count_in(schema, item, kids_by_name, node, name),
    )
}

// Whether the child at a position isn't in a slice before that of an earlier one.
fn is_in_order(
    schema: &Schema,
    item: &Typed<'_, '_>,
    node: NodeRef,
    earlier: usize,
    position: usize,
) -> bool
    ensures { result ≡ may_follow (slice_place schema.now (item_of item.now) node earlier) (slice_place schema.now (item_of item.now) node position) }
{
    let before = slice_place(schema, item, node, earlier);
    may_follow(before, slice_place(schema, item, node, position))
}

fn is_in_the_rest(schema: &Schema, item: &Typed<'_, '_>, node: NodeRef, position: usize) -> bool
    ensures { result ≡ is_none (slice_place schema.now (item_of item.now) node position) }
{
    slice_place(schema, item, node, position).is_none()
}

/// Whether a rule of a node's element holds of an item, of which these are the children, and that the nearest resource at
/// or around it (FHIR R4, ElementDefinition). Where unread rules decide it, it answers one of the rule's: one whose text is
/// given, where those do that are given. The one refusal is want of memory.
pub fn judge<'s, 't, 'a, 'j>(
    alloc: Global,
    schema: &'s Schema,
    resource: &'t Typed<'a, 'j>,
    item: &'t Typed<'a, 'j>,
    kids_by_name: &KidsByName<'_>,
    rule: ElementRule<'s>,
    node: NodeRef,
    given: &Vouching,
) -> Result<Holding<'s>, NoMemory>
    requires { IsIndexOf (item_of item.now) kids_by_name.now }
    ensures exact { IfOk result (λ h. (r : Reading) → holding_at r h
        ≡ rule_holds schema.now (meaning_of given.now r) (item_of resource.now) (item_of item.now) (rule_name rule.entry) node) }
    ensures vouched { IfOk result (IsVouched given.now) }
    ensures carried { IfOk result (IsCarried (rule_unread schema.now (item_of item.now) (rule_name rule.entry) node)) }
{
    match rule {
        ElementRule::RootType => Ok(Holding::of(schema.covers(
            schema.type_code(node),
            item.code(),
        ))),
        ElementRule::Fixed => Ok(judge_fixed(schema, item, node, given)),
        ElementRule::Pattern => Ok(judge_pattern(schema, item, node, given)),
        ElementRule::Range => Ok(judge_range(schema, item, node, given)),
        ElementRule::Length => Ok(judge_length(schema, item, node, given)),
        ElementRule::Binding => Ok(judge_binding(schema, item, node, given)),
        ElementRule::TooFew(name) => Ok(Holding::of(has_enough(
            schema,
            node,
            kids_by_name.places(name).len(),
        ))),
        ElementRule::TooMany(name) => Ok(Holding::of(has_no_more(
            schema,
            node,
            kids_by_name.places(name).len(),
        ))),
        ElementRule::TooFewIn(name) => Ok(Holding::of(has_enough_in(
            schema,
            item,
            kids_by_name,
            node,
            name,
        ))),
        ElementRule::TooManyIn(name) => Ok(Holding::of(has_no_more_in(
            schema,
            item,
            kids_by_name,
            node,
            name,
        ))),
        ElementRule::Apart(position) => Ok(Holding::of(is_apart_at(schema, item, node, position))),
        ElementRule::InASlice(position) => Ok(Holding::of(is_sliced_at(
            schema, item, node, position,
        ))),
        ElementRule::InOrder(earlier, position) => Ok(Holding::of(is_in_order(
            schema, item, node, earlier, position,
        ))),
        ElementRule::InTheRest(position) => Ok(Holding::of(is_in_the_rest(
            schema, item, node, position,
        ))),
        ElementRule::Constraint(position) => {
            judge_constraint(alloc, schema, resource, item, node, position, given)
        }
    }
}
