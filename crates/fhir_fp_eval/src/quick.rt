//! Expressions that give at most one value, told without a list. What isn't told is left to the evaluator.

ghost use Rattle.std.specs.Prelude.{◌≡◌, ◌∷◌, [], Ok, IfSome, option_map};
ghost use Rattle.std.specs.Ordering.{is_lt, is_le, is_gt, is_ge};
ghost use Rattle.fhir_instance.specs.View.{item_of};
ghost use Rattle.fhir_fp_syntax.specs.Expression.{binary, expression_of};
ghost use Rattle.fhir_fp_values.specs.Values.{node};
ghost use Rattle.fhir_fp_values.specs.Views.{plain_of};
ghost use Rattle.fhir_fp_eval.specs.Views.{world_of};
ghost use Rattle.fhir_fp_values.specs.Equality.{pairs, equality};
ghost use Rattle.fhir_fp_eval.specs.Meaning.{answer, has_value, function_result, operator_result, order_between, den};
ghost use Rattle.fhir_fp_eval.specs.Paths.{then_function, then_operator, given_by, at_most_one, truth_said};

use crate::env::Env;
use crate::literals::number_of;
use crate::paths::Path;
use crate::truths::truth_in;
use crate::words::value_has_value;
use fhir_decimal::Number;
use fhir_fp_syntax::{Expr, Function, Operator};
use fhir_fp_values::{
    Value, alike, kleene_and, kleene_implies, kleene_not, kleene_or, kleene_xor, order_of,
    system_value_of,
};
use fhir_instance::Typed;
use fhir_schema::Schema;
use std::alloc::Global;
use std::cmp::Ordering;

/// The truth of at most one value.
pub(crate) fn truth_said(value: Option<Value<'_, '_, '_>>) -> Option<bool>
    ensures { result ≡ truth_said (option_map plain_of value.entry) }
{
    match value {
        Some(value) => Some(truth_in(system_value_of(value))),
        None => None,
    }
}

fn truth_value<'e, 'a, 'j>(truth: Option<bool>) -> Option<Value<'e, 'a, 'j>>
    ensures { at_most_one (option_map plain_of result) ≡ answer truth }
{
    match truth {
        Some(flag) => Some(Value::Truth(flag)),
        None => None,
    }
}

fn node_value<'e, 'a, 'j>(item: Option<&'e Typed<'a, 'j>>) -> Option<Value<'e, 'a, 'j>>
    ensures { option_map plain_of result ≡ option_map (λ x. node (item_of x.now)) item.entry }
{
    match item {
        Some(item) => Some(Value::Node(item)),
        None => None,
    }
}

fn has_value(value: Option<Value<'_, '_, '_>>) -> bool
    ensures { result ≡ has_value (at_most_one (option_map plain_of value.entry)) }
{
    match value {
        Some(value) => value_has_value(value),
        None => false,
    }
}

// What a function gives of at most one value.
fn function_of_few<'e, 'a, 'j>(
    function: Function,
    value: Option<Value<'e, 'a, 'j>>,
) -> Option<Option<Value<'e, 'a, 'j>>>
    ensures { IfSome result (λ v. function_result function (at_most_one (option_map plain_of value.entry))
        ≡ Ok (at_most_one (option_map plain_of v))) }
{
    match function {
        Function::Exists => Some(Some(Value::Truth(value.is_some()))),
        Function::Empty => Some(Some(Value::Truth(value.is_none()))),
        Function::First => Some(value),
        Function::Not => Some(truth_value(kleene_not(truth_said(value)))),
        Function::HasValue => Some(Some(Value::Truth(has_value(value)))),
        Function::Count | Function::Children | Function::Descendants => None,
    }
}

// What a function gives of a path.
fn function_of_path<'e, 'a, 'j>(
    function: Function,
    path: &Path<'e, 'a, 'j>,
) -> Option<Option<Value<'e, 'a, 'j>>>
    ensures { IfSome result (λ v. function_result function (given_by path.now) ≡ Ok (at_most_one (option_map plain_of v))) }
{
    match function {
        Function::Exists => Some(Some(Value::Truth(path.first().is_some()))),
        Function::Empty => Some(Some(Value::Truth(path.first().is_none()))),
        Function::Count => Some(Some(Value::Number(Number::Count(path.count()?)))),
        Function::First => Some(node_value(path.first())),
        Function::Not | Function::HasValue => function_of_few(function, node_value(path.only()?)),
        Function::Children | Function::Descendants => None,
    }
}

fn same_values(
    alloc: Global,
    left: Value<'_, '_, '_>,
    right: Value<'_, '_, '_>,
) -> Option<Option<bool>>
    ensures { IfSome result (λ r. r ≡ pairs (plain_of left.entry ∷ []) (plain_of right.entry ∷ [])) }
{
    alike(alloc, left, right).ok()
}

fn same(
    alloc: Global,
    left: Option<Value<'_, '_, '_>>,
    right: Option<Value<'_, '_, '_>>,
) -> Option<Option<bool>>
    ensures { IfSome result (λ r. r ≡ equality (at_most_one (option_map plain_of left.entry))
        (at_most_one (option_map plain_of right.entry))) }
{
    match (left, right) {
        (Some(left), Some(right)) => same_values(alloc, left, right),
        _ => Some(None),
    }
}

fn order(
    alloc: Global,
    schema: &Schema,
    left: Option<Value<'_, '_, '_>>,
    right: Option<Value<'_, '_, '_>>,
) -> Option<Option<Ordering>>
    ensures { IfSome result (λ o. order_between schema.now (at_most_one (option_map plain_of left.entry))
        (at_most_one (option_map plain_of right.entry)) ≡ Ok o) }
{
    match (left, right) {
        (Some(left), Some(right)) => order_of(alloc, schema, left, right).ok(),
        _ => Some(None),
    }
}

fn is_less(order: Option<Ordering>) -> Option<bool>
    ensures { result ≡ option_map is_lt order }
{
    match order {
        Some(order) => Some(order.is_lt()),
        None => None,
    }
}

fn is_at_most(order: Option<Ordering>) -> Option<bool>
    ensures { result ≡ option_map is_le order }
{
    match order {
        Some(order) => Some(order.is_le()),
        None => None,
    }
}

fn is_greater(order: Option<Ordering>) -> Option<bool>
    ensures { result ≡ option_map is_gt order }
{
    match order {
        Some(order) => Some(order.is_gt()),
        None => None,
    }
}

fn is_at_least(order: Option<Ordering>) -> Option<bool>
    ensures { result ≡ option_map is_ge order }
{
    match order {
        Some(order) => Some(order.is_ge()),
        None => None,
    }
}

// The truth that an operator gives of at most one value on either side.
fn truth_between(
    alloc: Global,
    schema: &Schema,
    operator: Operator,
    left: Option<Value<'_, '_, '_>>,
    right: Option<Value<'_, '_, '_>>,
) -> Option<Option<bool>>
    ensures { IfSome result (λ p. operator_result schema.now operator (at_most_one (option_map plain_of left.entry))
        (at_most_one (option_map plain_of right.entry)) ≡ Ok (answer p)) }
{
    match operator {
        Operator::And => Some(kleene_and(truth_said(left), truth_said(right))),
        Operator::Or => Some(kleene_or(truth_said(left), truth_said(right))),
        Operator::Xor => Some(kleene_xor(truth_said(left), truth_said(right))),
        Operator::Implies => Some(kleene_implies(truth_said(left), truth_said(right))),
        Operator::Equal => same(alloc, left, right),
        Operator::NotEqual => Some(kleene_not(same(alloc, left, right)?)),
        Operator::Less => Some(is_less(order(alloc, schema, left, right)?)),
        Operator::LessOrEqual => Some(is_at_most(order(alloc, schema, left, right)?)),
        Operator::Greater => Some(is_greater(order(alloc, schema, left, right)?)),
        Operator::GreaterOrEqual => Some(is_at_least(order(alloc, schema, left, right)?)),
        Operator::Index
        | Operator::Intersect
        | Operator::Union
        | Operator::In
        | Operator::Contains => None,
    }
}

fn value_between<'e, 'a, 'j>(
    alloc: Global,
    schema: &Schema,
    operator: Operator,
    left: Option<Value<'_, '_, '_>>,
    right: Option<Value<'_, '_, '_>>,
) -> Option<Option<Value<'e, 'a, 'j>>>
    ensures { IfSome result (λ v. operator_result schema.now operator (at_most_one (option_map plain_of left.entry))
        (at_most_one (option_map plain_of right.entry)) ≡ Ok (at_most_one (option_map plain_of v))) }
{
    let truth = truth_between(alloc, schema, operator, left, right)?;
    Some(truth_value(truth))
}

// What a function gives of an expression.
#[cycle(few)]
fn called<'e, 'a, 'j>(
    alloc: Global,
    env: &Env<'e, 'a, 'j>,
    function: Function,
    base: &'e Expr,
    item: &'e Typed<'a, 'j>,
    depth: usize,
) -> Option<Option<Value<'e, 'a, 'j>>>
    ensures { IfSome result (λ v. then_function function (den (world_of env.now) (expression_of base.now) (node (item_of item.now)))
        ≡ Ok (at_most_one (option_map plain_of v))) }
{
    match Path::of(env, base, item) {
        Some(path) => function_of_path(function, &path),
        None => function_of_few(function, few(alloc, env, base, item, depth)?),
    }
}

// What an operator gives of two expressions.
#[cycle(few)]
fn operated<'e, 'a, 'j>(
    alloc: Global,
    env: &Env<'e, 'a, 'j>,
    operator: Operator,
    left: &'e Expr,
    right: &'e Expr,
    item: &'e Typed<'a, 'j>,
    depth: usize,
) -> Option<Option<Value<'e, 'a, 'j>>>
    ensures { IfSome result (λ v. then_operator (world_of env.now).schema operator
        (den (world_of env.now) (expression_of left.now) (node (item_of item.now)))
        (den (world_of env.now) (expression_of right.now) (node (item_of item.now))) ≡ Ok (at_most_one (option_map plain_of v))) }
{
    let value = few(alloc, env, left, item, depth)?;
    let other = few(alloc, env, right, item, depth)?;
    value_between(alloc, env.schema, operator, value, other)
}

fn operands(expr: &Expr) -> Option<(Operator, &Expr, &Expr)>
    ensures { IfSome result (λ p. expression_of expr.now ≡ binary p.0 (expression_of p.1.now) (expression_of p.2.now)) }
{
    match expr {
        Expr::Binary(operator, left, right) => Some((*operator, &**left, &**right)),
        _ => None,
    }
}

// What an expression of two operands gives.
#[cycle(few)]
fn of_operands<'e, 'a, 'j>(
    alloc: Global,
    env: &Env<'e, 'a, 'j>,
    expr: &'e Expr,
    item: &'e Typed<'a, 'j>,
    depth: usize,
) -> Option<Option<Value<'e, 'a, 'j>>>
    ensures { IfSome result (λ v. den (world_of env.now) (expression_of expr.now) (node (item_of item.now))
        ≡ Ok (at_most_one (option_map plain_of v))) }
{
    match operands(expr) {
        Some((operator, left, right)) => operated(alloc, env, operator, left, right, item, depth),
        None => None,
    }
}

fn path_value<'e, 'a, 'j>(
    env: &Env<'e, 'a, 'j>,
    expr: &'e Expr,
    item: &'e Typed<'a, 'j>,
) -> Option<Option<Value<'e, 'a, 'j>>>
    ensures { IfSome result (λ v. den (world_of env.now) (expression_of expr.now) (node (item_of item.now))
        ≡ Ok (at_most_one (option_map plain_of v))) }
{
    let path = Path::of(env, expr, item)?;
    Some(node_value(path.only()?))
}

/// What an expression gives at an item, where that is told without a list: at most one value, and no fault. Operands are
/// looked into no deeper than so many levels.
#[cycle(few)]
#[tactic(auto, unfolding(crate::specs::Meaning::den))]
pub(crate) fn few<'e, 'a, 'j>(
    alloc: Global,
    env: &Env<'e, 'a, 'j>,
    expr: &'e Expr,
    item: &'e Typed<'a, 'j>,
    depth: usize,
) -> Option<Option<Value<'e, 'a, 'j>>>
    ensures { IfSome result (λ v. den (world_of env.now) (expression_of expr.now) (node (item_of item.now))
        ≡ Ok (at_most_one (option_map plain_of v))) }
{
    if depth == 0 {
        return None;
    }
    match expr {
        Expr::Empty => Some(None),
        Expr::Boolean(flag) => Some(Some(Value::Truth(*flag))),
        Expr::Number(text) => Some(Some(number_of(text.as_str()))),
        Expr::Text(text) => Some(Some(Value::Text(text.as_str()))),
        Expr::This => Some(Some(Value::Node(item))),
        Expr::Resource => Some(Some(Value::Node(env.resource))),
        Expr::Context => Some(Some(Value::Node(env.context))),
        Expr::Name(_) | Expr::Child(_, _) => path_value(env, expr, item),
        Expr::Call(function, base) => called(alloc, env, *function, base, item, depth - 1),
        Expr::Binary(_, _, _) => of_operands(alloc, env, expr, item, depth - 1),
        Expr::Typed(_, _, _) | Expr::Filtered(_, _, _) => None,
    }
}
