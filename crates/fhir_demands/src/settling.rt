//! What an expression asks of the children that an item gets (FHIRPath N1): those that are simple are made true, or untrue.

use crate::named_plan::NamedPlan;
use fhir_fp_syntax::{Expr, Filter, Function, Operator};

fn is_type_name(name: &str) -> bool {
    match name.as_bytes() {
        [first, ..] => first.is_ascii_uppercase(),
        [] => false,
    }
}

// The name of the children at which a path behind another one begins.
fn name_behind<'e>(path: &Expr, front: Option<&'e str>, name: &'e str) -> Option<&'e str> {
    match path {
        Expr::This | Expr::Context | Expr::Resource => Some(name),
        Expr::Name(first) if is_type_name(first.as_str()) => Some(name),
        _ => front,
    }
}

// The name of the children at which a path begins.
fn name_in(path: &Expr) -> Option<&str> {
    match path {
        Expr::Name(name) => Some(name.as_str()),
        Expr::Child(front, name) => name_behind(front, name_in(front), name.as_str()),
        Expr::Call(_, inner) => name_in(inner),
        Expr::Typed(_, inner, _) => name_in(inner),
        Expr::Filtered(_, inner, _) => name_in(inner),
        Expr::Binary(Operator::Index, inner, _) => name_in(inner),
        _ => None,
    }
}

// Whether a path is one name.
fn is_name(path: &Expr) -> bool {
    match path {
        Expr::Name(_) => true,
        Expr::Child(front, _) => match &**front {
            Expr::This | Expr::Context | Expr::Resource => true,
            Expr::Name(first) => is_type_name(first.as_str()),
            _ => false,
        },
        _ => false,
    }
}

fn count_in(path: &Expr, plan: &NamedPlan<'_>) -> Option<usize> {
    let planned = plan.get(name_in(path)?)?;
    Some(planned.count)
}

fn settle_count(path: &Expr, count: usize, plan: &mut NamedPlan<'_>) {
    if let Some(name) = name_in(path) {
        plan.settle(name, count);
    }
}

// Whether there is something at a path, as far as the plan says.
fn is_there(path: &Expr, plan: &NamedPlan<'_>) -> Option<bool> {
    match count_in(path, plan)? {
        0 => Some(false),
        _ if is_name(path) => Some(true),
        _ => None,
    }
}

fn not(truth: Option<bool>) -> Option<bool> {
    match truth {
        Some(truth) => Some(!truth),
        None => None,
    }
}

fn both(left: Option<bool>, right: Option<bool>) -> Option<bool> {
    match (left, right) {
        (Some(false), _) | (_, Some(false)) => Some(false),
        (Some(true), Some(true)) => Some(true),
        _ => None,
    }
}

fn are_same(left: Option<bool>, right: Option<bool>) -> Option<bool> {
    match (left, right) {
        (Some(left), Some(right)) => Some(left == right),
        _ => None,
    }
}

fn combined(operator: Operator, left: Option<bool>, right: Option<bool>) -> Option<bool> {
    match operator {
        Operator::And => both(left, right),
        Operator::Or => not(both(not(left), not(right))),
        Operator::Implies => not(both(left, not(right))),
        Operator::Equal => are_same(left, right),
        Operator::NotEqual | Operator::Xor => not(are_same(left, right)),
        _ => None,
    }
}

// Whether an expression is true, as far as the plan says.
fn truth(expression: &Expr, plan: &NamedPlan<'_>) -> Option<bool> {
    match expression {
        Expr::Boolean(truth) => Some(*truth),
        Expr::Call(Function::Exists, path) => is_there(path, plan),
        Expr::Call(Function::Empty, path) => not(is_there(path, plan)),
        Expr::Call(Function::Not, inner) => not(truth(inner, plan)),
        Expr::Binary(operator, left, right) => {
            combined(*operator, truth(left, plan), truth(right, plan))
        }
        _ => None,
    }
}

fn settle_presence(path: &Expr, is_there: bool, plan: &mut NamedPlan<'_>) {
    let count = count_in(path, plan).unwrap_or(0);
    if is_there {
        settle_count(path, count.max(1), plan);
    } else {
        settle_count(path, 0, plan);
    }
}

fn settle_absence(path: &Expr, wanted: bool, plan: &mut NamedPlan<'_>) {
    // What stands further down needn't be absent where the first name is.
    if is_name(path) || !wanted {
        settle_presence(path, !wanted, plan);
    }
}

// The count for which a comparison to a number is true, or isn't.
fn count_for(operator: Operator, number: usize, wanted: bool) -> Option<usize> {
    let above = number.saturating_add(1);
    match (operator, wanted) {
        (Operator::LessOrEqual, false) | (Operator::Greater, true) => Some(above),
        (Operator::NotEqual, true) | (Operator::Equal, false) => Some(above),
        (Operator::Less, false) | (Operator::GreaterOrEqual, true) => Some(number),
        (Operator::Equal, true) | (Operator::NotEqual, false) => Some(number),
        (Operator::Greater, false) => Some(number),
        (Operator::GreaterOrEqual, false) => number.checked_sub(1),
        _ => None,
    }
}

fn settle_number(
    operator: Operator,
    path: &Expr,
    number: &str,
    wanted: bool,
    plan: &mut NamedPlan<'_>,
) {
    if let Ok(number) = number.parse::<usize>() {
        if let Some(count) = count_for(operator, number, wanted) {
            settle_count(path, count, plan);
        }
    }
}

// How deep an expression is looked into.
const MOST_LEVELS: usize = 16;

/// Plans so that an expression is true, or isn't, where it is a simple one.
pub(crate) fn settle(expression: &Expr, wanted: bool, plan: &mut NamedPlan<'_>) {
    settle_within(MOST_LEVELS, expression, wanted, plan);
}

#[cycle(settling)]
fn settle_within(levels: usize, expression: &Expr, wanted: bool, plan: &mut NamedPlan<'_>) {
    if levels == 0 || truth(expression, plan) == Some(wanted) {
        return;
    }
    match expression {
        Expr::Call(Function::Exists, path) => settle_presence(path, wanted, plan),
        Expr::Filtered(Filter::Exists, path, _) => settle_presence(path, wanted, plan),
        Expr::Call(Function::Empty, path) => settle_absence(path, wanted, plan),
        Expr::Call(Function::Not, inner) => settle_within(levels - 1, inner, !wanted, plan),
        Expr::Binary(operator, left, right) => {
            settle_binary(levels - 1, *operator, (left, right), wanted, plan)
        }
        _ => {}
    }
}

#[cycle(settling)]
fn settle_binary(
    levels: usize,
    operator: Operator,
    sides: (&Expr, &Expr),
    wanted: bool,
    plan: &mut NamedPlan<'_>,
) {
    match operator {
        Operator::And => settle_both(levels, sides, wanted, plan),
        Operator::Or => settle_some(levels, sides, wanted, plan),
        Operator::Implies => settle_implied(levels, sides, wanted, plan),
        Operator::Xor => settle_same(levels, sides, !wanted, plan),
        _ => settle_compared(levels, operator, sides, wanted, plan),
    }
}

#[cycle(settling)]
fn settle_both(levels: usize, sides: (&Expr, &Expr), wanted: bool, plan: &mut NamedPlan<'_>) {
    settle_within(levels, sides.0, wanted, plan);
    if wanted {
        settle_within(levels, sides.1, true, plan);
    }
}

#[cycle(settling)]
fn settle_some(levels: usize, sides: (&Expr, &Expr), wanted: bool, plan: &mut NamedPlan<'_>) {
    settle_within(levels, sides.0, wanted, plan);
    if !wanted || truth(sides.0, plan) == Some(false) {
        settle_within(levels, sides.1, wanted, plan);
    }
}

#[cycle(settling)]
fn settle_implied(levels: usize, sides: (&Expr, &Expr), wanted: bool, plan: &mut NamedPlan<'_>) {
    if !wanted {
        settle_within(levels, sides.0, true, plan);
    }
    settle_within(levels, sides.1, wanted, plan);
}

#[cycle(settling)]
fn settle_compared(
    levels: usize,
    operator: Operator,
    sides: (&Expr, &Expr),
    wanted: bool,
    plan: &mut NamedPlan<'_>,
) {
    match (operator, sides.0, sides.1) {
        (_, Expr::Call(Function::Count, path), Expr::Number(number)) => {
            settle_number(operator, path, number.as_str(), wanted, plan)
        }
        (Operator::Equal, _, _) => settle_same(levels, sides, wanted, plan),
        (Operator::NotEqual, _, _) => settle_same(levels, sides, !wanted, plan),
        _ => {}
    }
}

// Plans so that two expressions are the same, or not, by the second one.
#[cycle(settling)]
fn settle_same(levels: usize, sides: (&Expr, &Expr), wanted: bool, plan: &mut NamedPlan<'_>) {
    if let Some(left) = truth(sides.0, plan) {
        settle_within(levels, sides.1, left == wanted, plan);
    }
}
