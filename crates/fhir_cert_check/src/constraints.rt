//! The rule on constraints, of a pair of items.

ghost use Rattle.std.specs.Prelude.{◌≡◌, ◌++◌, [], ◌||◌, not, false, List, None, IfOk, option_map};
ghost use Rattle.std.specs.Bool.{OnTrue};
ghost use Rattle.std.specs.List.{flat_map, slice_get};
ghost use Rattle.std.specs.Option.{option_map_or};
ghost use Rattle.std.specs.Str.{bytes_eq};
ghost use Rattle.fhir_json.specs.Memory.{Gives};
ghost use Rattle.fhir_json.specs.Views.{text_seen};
ghost use Rattle.fhir_elements.specs.Constraint.{Constraint, must_hold};
ghost use Rattle.fhir_elements.specs.Tests.{first_of};
ghost use Rattle.fhir_nodes.specs.Expressions.{expression_of};
ghost use Rattle.fhir_fp_syntax.specs.Expression.{expression_of as tree_of};
ghost use Rattle.fhir_schema.specs.Schemas.{target};
ghost use Rattle.fhir_cert_check.specs.Held.{Holds, rule_by};
ghost use Rattle.fhir_cert_check.specs.Rules.{says_same, repeats, constraint_rule, own_constraints, constraints_at, constraint_rules};
ghost use Rattle.fhir_cert_check.specs.Views.{rule_name};

use crate::held::Held;
use crate::rule::Rule;
use fhir_elements::ConstraintDef;
use fhir_entail::{listed_is_entailed, same_is_equal};
use fhir_fp_syntax::Expr;
use fhir_json::NoMemory;
use fhir_schema::{NodeRef, Schema};
use std::alloc::Global;

fn own_constraints(schema: &Schema, node: NodeRef) -> &[ConstraintDef]
    ensures { result.now ≡ own_constraints schema.now node }
{
    match schema.element(node) {
        Some(element) => element.constraints(),
        None => Default::default(),
    }
}

fn taken_over(schema: &Schema, node: NodeRef) -> &[ConstraintDef]
    ensures { result.now ≡ option_map_or (own_constraints schema.now) (target schema.now node) [] }
{
    match schema.target(node) {
        Some(target) => own_constraints(schema, target),
        None => Default::default(),
    }
}

// ---- constraints that are inherited as they are

fn is_text(own: Option<&str>, base: &str) -> bool
    ensures { result ≡ option_map_or (bytes_eq base.now) (text_seen own.entry) false }
{
    match own {
        Some(own) => base == own,
        None => false,
    }
}

fn says_same(own: &ConstraintDef, base: &ConstraintDef) -> bool
    ensures { result ≡ says_same own.now base.now }
{
    match base.expression() {
        Some(expression) => is_text(own.expression(), expression),
        None => own.expression().is_none() && base.key() == own.key(),
    }
}

fn repeats(own: &ConstraintDef, base: &ConstraintDef) -> bool
    ensures { result ≡ repeats own.now base.now }
{
    own.must_hold() && says_same(own, base)
}

fn repeats_at(own: &[ConstraintDef], position: usize, base: &ConstraintDef) -> bool
    ensures { result ≡ option_map_or (λ c. repeats c base.now) (slice_get own.now position) false }
{
    match own.get(position) {
        Some(own) => repeats(own, base),
        None => false,
    }
}

// Whether one needn't hold, or is repeated at that position.
fn is_repeated(own: &[ConstraintDef], position: usize, base: &ConstraintDef) -> bool
    ensures { result ≡ (not (must_hold base.now) || option_map_or (λ c. repeats c base.now) (slice_get own.now position) false) }
{
    !base.must_hold() || repeats_at(own, position, base)
}

// Whether each is so at its own position, as constraints that are inherited mostly are.
fn are_repeated(own: &[ConstraintDef], bases: &[ConstraintDef]) -> bool
    ensures { OnTrue result ((before after : List Constraint)
        → first_of (flat_map (constraint_rule (before ++ own.now ++ after)) bases.now) ≡ None) }
{
    listed_is_entailed();
    same_is_equal();
    for (position, base) in bases.iter().enumerate() {
        if !is_repeated(own, position, base) {
            return false;
        }
    }
    true
}

// ---- others

fn hold_own<'s>(
    alloc: Global,
    schema: &'s Schema,
    node: NodeRef,
    held: Held<'s>,
) -> Result<Held<'s>, NoMemory>
    ensures { IfOk result (λ more. (own : List Constraint) → Holds held.entry own → Holds more (own ++ own_constraints schema.now node)) }
{
    let mut held = held;
    for (position, constraint) in own_constraints(schema, node).iter().enumerate() {
        held.put(alloc, constraint, schema.expression(node, position))?;
    }
    Ok(held)
}

fn held_at<'s>(alloc: Global, schema: &'s Schema, node: NodeRef) -> Result<Held<'s>, NoMemory>
    ensures { IfOk result (λ held. Holds held (constraints_at schema.now node)) }
{
    // Its lifetime is written out, since it may be no other than the schema's.
    let empty: Held<'s> = Held::new(alloc);
    let held = hold_own(alloc, schema, node, empty)?;
    match schema.target(node) {
        Some(target) => hold_own(alloc, schema, target, held),
        None => Ok(held),
    }
}

fn failing_by<'s>(
    held: &Held<'s>,
    base: &'s ConstraintDef,
    expression: Option<&'s Expr>,
) -> Option<Rule<'s>>
    requires { option_map (λ e. tree_of e.now) expression ≡ expression_of base.now }
    ensures { (own : List Constraint) → Holds held.now own → option_map rule_name result ≡ first_of (rule_by held.now own base.now) }
{
    if !base.must_hold() || held.answers(base, expression) {
        None
    } else {
        Some(Rule::Constraint(base.key()))
    }
}

fn unanswered<'s>(schema: &'s Schema, node: NodeRef, held: &Held<'s>) -> Option<Rule<'s>>
    ensures { (own : List Constraint) → Holds held.now own
        → option_map rule_name result ≡ first_of (flat_map (rule_by held.now own) (own_constraints schema.now node)) }
{
    let bases = own_constraints(schema, node);
    for (position, base) in bases.iter().enumerate() {
        let rule = failing_by(held, base, schema.expression(node, position));
        if rule.is_some() {
            return rule;
        }
    }
    None
}

fn first_unanswered<'s>(schema: &'s Schema, node: NodeRef, held: &Held<'s>) -> Option<Rule<'s>>
    ensures { (own : List Constraint) → Holds held.now own
        → option_map rule_name result ≡ first_of (flat_map (rule_by held.now own) (constraints_at schema.now node)) }
{
    let rule = unanswered(schema, node, held);
    if rule.is_some() {
        return rule;
    }
    match schema.target(node) {
        Some(target) => unanswered(schema, target, held),
        None => None,
    }
}

// Whether each constraint that must hold of the base node is repeated at its place.
fn inherits(schema: &Schema, n: NodeRef, m: NodeRef) -> bool
    ensures { OnTrue result (first_of (constraint_rules schema.now n m) ≡ None) }
{
    let own = are_repeated(own_constraints(schema, n), own_constraints(schema, m));
    let over = are_repeated(taken_over(schema, n), taken_over(schema, m));
    own && over
}

/// The first constraint of the base node that must hold and that those of the derived node don't entail. The one refusal is want of memory.
pub(crate) fn constraint_failing<'s>(
    alloc: Global,
    schema: &'s Schema,
    n: NodeRef,
    m: NodeRef,
) -> Result<Option<Rule<'s>>, NoMemory>
    ensures { Gives (option_map rule_name) result (first_of (constraint_rules schema.now n m)) }
{
    listed_is_entailed();
    same_is_equal();
    if inherits(schema, n, m) {
        return Ok(None);
    }
    let held = held_at(alloc, schema, n)?;
    Ok(first_unanswered(schema, m, &held))
}
