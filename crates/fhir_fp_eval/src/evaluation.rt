//! What an expression gives.

ghost use Rattle.std.specs.Prelude.{◌≡◌, IfOk, OnOk, Ok};
ghost use Rattle.std.specs.Option.{option_map};
ghost use Rattle.fhir_json.specs.Memory.{Gives, GivesOr};
ghost use Rattle.fhir_fp_syntax.specs.Expression.{expression_of};
ghost use Rattle.fhir_instance.specs.View.{item_of};
ghost use Rattle.fhir_fp_values.specs.Values.{node};
ghost use Rattle.fhir_fp_values.specs.Faults.{is_no_memory};
ghost use Rattle.fhir_fp_values.specs.Views.{plain_of, plains_of};
ghost use Rattle.fhir_fp_eval.specs.Views.{world_of};
ghost use Rattle.fhir_fp_eval.specs.Meaning.{criteria_hold, with_next, values_where, filtered_by, den, verdict, is_true};
ghost use Rattle.fhir_fp_eval.specs.Spines.{base_of, spine, made_of, steps_of};

use crate::env::Env;
use crate::lists::{children_of, is_empty, single};
use crate::literals::number_of;
use crate::operators::operator_result;
use crate::quick::{few, truth_said};
use crate::truths::truth_of;
use crate::words::{function_result, starts, type_test_result};
use fhir_fp_syntax::{Expr, Filter};
use fhir_fp_values::{EvalFault, Value, is_yes};
use fhir_instance::Typed;
use fhir_json::NoMemory;
use fhir_schema::Schema;
use std::alloc::{AllocError, Global};

// How many levels of operands are looked into before an expression is evaluated.
const DEPTH: usize = 32;

fn filtered_by<'e, 'a, 'j>(
    alloc: Global,
    filter: Filter,
    values: &[Value<'e, 'a, 'j>],
    kept: Vec<Value<'e, 'a, 'j>>,
) -> Result<Vec<Value<'e, 'a, 'j>>, EvalFault>
    ensures { GivesOr is_no_memory (λ v. plains_of v.items) result
        (Ok (filtered_by filter (plains_of values.now) (plains_of kept.entry.items))) }
{
    match filter {
        Filter::Where => Ok(kept),
        Filter::Exists => single(alloc, Value::Truth(!is_empty(&kept))),
        Filter::All => single(alloc, Value::Truth(kept.len() == values.len())),
    }
}

fn keep_if<'e, 'a, 'j>(
    found: &mut Vec<Value<'e, 'a, 'j>>,
    holds: bool,
    value: Value<'e, 'a, 'j>,
) -> Result<(), AllocError>
    ensures { OnOk result (plains_of found.new.items
        ≡ with_next holds (plains_of found.old.items) (plain_of value.entry)) }
{
    if holds {
        found.push(value)?;
    }
    Ok(())
}

// Whether the criteria are true of the value.
#[cycle(evaluate)]
fn criteria_hold<'e, 'a, 'j>(
    alloc: Global,
    env: &Env<'e, 'a, 'j>,
    criteria: &'e Expr,
    this: Value<'e, 'a, 'j>,
) -> Result<bool, EvalFault>
    ensures { GivesOr is_no_memory (λ b. b) result
        (criteria_hold (den (world_of env.now) (expression_of criteria.now)) (plain_of this.entry)) }
{
    let values = evaluate(alloc, env, criteria, this)?;
    Ok(is_yes(truth_of(&values)?))
}

// The values of which the criteria are true. All are looked at.
#[cycle(evaluate)]
fn values_where<'e, 'a, 'j>(
    alloc: Global,
    env: &Env<'e, 'a, 'j>,
    criteria: &'e Expr,
    values: &[Value<'e, 'a, 'j>],
) -> Result<Vec<Value<'e, 'a, 'j>>, EvalFault>
    ensures { GivesOr is_no_memory (λ v. plains_of v.items) result
        (values_where (den (world_of env.now) (expression_of criteria.now)) (plains_of values.now)) }
{
    let mut found = Vec::new(alloc);
    for value in values {
        let holds = criteria_hold(alloc, env, criteria, *value)?;
        keep_if(&mut found, holds, *value)?;
    }
    Ok(found)
}

// The first operand.
fn base_of(expr: &Expr) -> Option<&Expr>
    ensures { option_map (λ e. expression_of e.now) result ≡ base_of (expression_of expr.now) }
{
    match expr {
        Expr::Child(base, _)
        | Expr::Call(_, base)
        | Expr::Typed(_, base, _)
        | Expr::Filtered(_, base, _)
        | Expr::Binary(_, base, _) => Some(base),
        Expr::Empty
        | Expr::Boolean(_)
        | Expr::Number(_)
        | Expr::Text(_)
        | Expr::This
        | Expr::Resource
        | Expr::Context
        | Expr::Name(_) => None,
    }
}

// The expression, its first operand, the first operand of that, and so on.
fn spine_of(alloc: Global, expr: &Expr) -> Result<Vec<&Expr>, AllocError>
    ensures { IfOk result (λ steps. steps_of steps.items ≡ spine (expression_of expr.now)) }
{
    let mut steps = Vec::new(alloc);
    let mut next = Some(expr);
    while let Some(step) = next {
        steps.push(step)?;
        next = base_of(step);
    }
    Ok(steps)
}

// What an expression makes of its first operand's values, where `$this` is the value.
#[cycle(evaluate)]
#[tactic(auto, unfolding(crate::specs::Meaning::den))]
fn made_of<'e, 'a, 'j>(
    alloc: Global,
    env: &Env<'e, 'a, 'j>,
    expr: &'e Expr,
    this: Value<'e, 'a, 'j>,
    values: &[Value<'e, 'a, 'j>],
) -> Result<Vec<Value<'e, 'a, 'j>>, EvalFault>
    ensures { GivesOr is_no_memory (λ v. plains_of v.items) result
        (made_of (world_of env.now) (plain_of this.entry) (expression_of expr.now) (plains_of values.now)) }
{
    match expr {
        Expr::Empty => Ok(Vec::new(alloc)),
        Expr::Boolean(flag) => single(alloc, Value::Truth(*flag)),
        Expr::Number(text) => single(alloc, number_of(text.as_str())),
        Expr::Text(text) => single(alloc, Value::Text(text.as_str())),
        Expr::This => single(alloc, this),
        Expr::Resource => single(alloc, Value::Node(env.resource)),
        Expr::Context => single(alloc, Value::Node(env.context)),
        Expr::Name(name) => starts(alloc, env.schema, name.as_str(), this),
        Expr::Child(_, name) => children_of(alloc, name.as_str(), values),
        Expr::Call(function, _) => function_result(alloc, *function, values),
        Expr::Typed(test, _, name) => type_test_result(
            alloc,
            env.schema,
            *test,
            name.as_str(),
            values,
        ),
        Expr::Filtered(filter, _, criteria) => {
            let found = values_where(alloc, env, criteria, values)?;
            filtered_by(alloc, *filter, values, found)
        }
        Expr::Binary(operator, _, right) => {
            let others = evaluate(alloc, env, right, this)?;
            operator_result(alloc, env.schema, *operator, values, &others)
        }
    }
}

// What the expression gives where `$this` is the value. First operands may lie thousands deep, so they are walked by a loop.
#[cycle(evaluate)]
fn evaluate<'e, 'a, 'j>(
    alloc: Global,
    env: &Env<'e, 'a, 'j>,
    expr: &'e Expr,
    this: Value<'e, 'a, 'j>,
) -> Result<Vec<Value<'e, 'a, 'j>>, EvalFault>
    ensures { GivesOr is_no_memory (λ v. plains_of v.items) result
        (den (world_of env.now) (expression_of expr.now) (plain_of this.entry)) }
{
    let mut steps = spine_of(alloc, expr)?;
    let mut values = Vec::new(alloc);
    while let Some(step) = steps.pop() {
        values = made_of(alloc, env, step, this, &values)?;
    }
    Ok(values)
}

/// What an expression gives at an item. It takes time near linear in what its parts give; `|` and `intersect` compare each
/// value of the one side with each of the other. The refusals are those of the meaning, and want of memory.
pub fn eval<'e, 'a, 'j>(
    alloc: Global,
    expr: &'e Expr,
    env: &Env<'e, 'a, 'j>,
    item: &'e Typed<'a, 'j>,
) -> Result<Vec<Value<'e, 'a, 'j>>, EvalFault>
    ensures exact { GivesOr is_no_memory (λ v. plains_of v.items) result
        (den (world_of env.now) (expression_of expr.now) (node (item_of item.now))) }
{
    evaluate(alloc, env, expr, Value::Node(item))
}

// Whether an expression is true of an item, by the values that it gives.
#[tactic(auto, unfolding(crate::specs::Meaning::is_true))]
fn holds_evaluated<'e, 'a, 'j>(
    alloc: Global,
    env: &Env<'e, 'a, 'j>,
    expr: &'e Expr,
    item: &'e Typed<'a, 'j>,
) -> Result<bool, NoMemory>
    ensures { Gives (λ b. b) result (is_true (world_of env.now) (expression_of expr.now) (item_of item.now)) }
{
    match criteria_hold(alloc, env, expr, Value::Node(item)) {
        Ok(holds) => Ok(holds),
        Err(fault) => match fault {
            EvalFault::Several => Ok(false),
            EvalFault::Kind => Ok(false),
            EvalFault::NoMemory => Err(NoMemory),
        },
    }
}

// Whether an expression is true of an item, where all that is borrowed is borrowed as long.
#[tactic(auto, using(crate::proofs::Visits::told_true))]
fn holds_in<'e, 'a, 'j>(
    alloc: Global,
    expr: &'e Expr,
    schema: &'e Schema,
    resource: &'e Typed<'a, 'j>,
    context: &'e Typed<'a, 'j>,
    item: &'e Typed<'a, 'j>,
) -> Result<bool, NoMemory>
    ensures { Gives (λ b. b) result (is_true
        (record { schema = schema.now; resource = item_of resource.now; context = item_of context.now })
        (expression_of expr.now) (item_of item.now)) }
{
    let env = Env {
        schema,
        resource,
        context,
    };
    match few(alloc, &env, expr, item, DEPTH) {
        Some(value) => Ok(is_yes(truth_said(value))),
        None => holds_evaluated(alloc, &env, expr, item),
    }
}

/// Whether an expression is true of an item: the truth of what it gives there. A fault isn't true, and an empty result
/// isn't. The one refusal is want of memory.
pub fn holds<'a, 'j>(
    alloc: Global,
    expr: &Expr,
    env: &Env<'_, 'a, 'j>,
    item: &Typed<'a, 'j>,
) -> Result<bool, NoMemory>
    ensures exact { Gives (λ b. b) result (is_true (world_of env.now) (expression_of expr.now) (item_of item.now)) }
{
    holds_in(alloc, expr, env.schema, env.resource, env.context, item)
}
