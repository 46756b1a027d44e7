//! What operators give.

ghost use Rattle.std.specs.Prelude.{◌≡◌};
ghost use Rattle.std.specs.Ordering.{is_lt, is_le, is_gt, is_ge};
ghost use Rattle.fhir_json.specs.Memory.{GivesOr};
ghost use Rattle.fhir_fp_values.specs.Equality.{kleene_and, kleene_or, kleene_xor, kleene_implies};
ghost use Rattle.fhir_fp_values.specs.Faults.{is_no_memory};
ghost use Rattle.fhir_fp_values.specs.Views.{plains_of};
ghost use Rattle.fhir_fp_eval.specs.Meaning.{of_truths, order_between, in_order, operator_result};

use crate::comparing::order_between;
use crate::lists::answer;
use crate::sets::member_of;
use crate::truths::truth_of;
use crate::words::at_index;
use fhir_fp_syntax::Operator;
use fhir_fp_values::{
    EvalFault, Value, equality_between, intersection, kleene_and, kleene_implies, kleene_not,
    kleene_or, kleene_xor, union,
};
use fhir_schema::Schema;
use std::alloc::Global;

fn and_of<'e, 'a, 'j>(
    alloc: Global,
    left: &[Value<'e, 'a, 'j>],
    right: &[Value<'e, 'a, 'j>],
) -> Result<Vec<Value<'e, 'a, 'j>>, EvalFault>
    ensures { GivesOr is_no_memory (λ v. plains_of v.items) result (of_truths kleene_and (plains_of left.now) (plains_of right.now)) }
{
    let (truth, other) = (truth_of(left)?, truth_of(right)?);
    answer(alloc, kleene_and(truth, other))
}

fn or_of<'e, 'a, 'j>(
    alloc: Global,
    left: &[Value<'e, 'a, 'j>],
    right: &[Value<'e, 'a, 'j>],
) -> Result<Vec<Value<'e, 'a, 'j>>, EvalFault>
    ensures { GivesOr is_no_memory (λ v. plains_of v.items) result (of_truths kleene_or (plains_of left.now) (plains_of right.now)) }
{
    let (truth, other) = (truth_of(left)?, truth_of(right)?);
    answer(alloc, kleene_or(truth, other))
}

fn xor_of<'e, 'a, 'j>(
    alloc: Global,
    left: &[Value<'e, 'a, 'j>],
    right: &[Value<'e, 'a, 'j>],
) -> Result<Vec<Value<'e, 'a, 'j>>, EvalFault>
    ensures { GivesOr is_no_memory (λ v. plains_of v.items) result (of_truths kleene_xor (plains_of left.now) (plains_of right.now)) }
{
    let (truth, other) = (truth_of(left)?, truth_of(right)?);
    answer(alloc, kleene_xor(truth, other))
}

fn implies_of<'e, 'a, 'j>(
    alloc: Global,
    left: &[Value<'e, 'a, 'j>],
    right: &[Value<'e, 'a, 'j>],
) -> Result<Vec<Value<'e, 'a, 'j>>, EvalFault>
    ensures { GivesOr is_no_memory (λ v. plains_of v.items) result (of_truths kleene_implies (plains_of left.now) (plains_of right.now)) }
{
    let (truth, other) = (truth_of(left)?, truth_of(right)?);
    answer(alloc, kleene_implies(truth, other))
}

fn less_of<'e, 'a, 'j>(
    alloc: Global,
    schema: &Schema,
    left: &[Value<'e, 'a, 'j>],
    right: &[Value<'e, 'a, 'j>],
) -> Result<Vec<Value<'e, 'a, 'j>>, EvalFault>
    ensures { GivesOr is_no_memory (λ v. plains_of v.items) result
        (in_order is_lt (order_between schema.now (plains_of left.now) (plains_of right.now))) }
{
    match order_between(alloc, schema, left, right)? {
        Some(order) => answer(alloc, Some(order.is_lt())),
        None => answer(alloc, None),
    }
}

fn at_most_of<'e, 'a, 'j>(
    alloc: Global,
    schema: &Schema,
    left: &[Value<'e, 'a, 'j>],
    right: &[Value<'e, 'a, 'j>],
) -> Result<Vec<Value<'e, 'a, 'j>>, EvalFault>
    ensures { GivesOr is_no_memory (λ v. plains_of v.items) result
        (in_order is_le (order_between schema.now (plains_of left.now) (plains_of right.now))) }
{
    match order_between(alloc, schema, left, right)? {
        Some(order) => answer(alloc, Some(order.is_le())),
        None => answer(alloc, None),
    }
}

fn greater_of<'e, 'a, 'j>(
    alloc: Global,
    schema: &Schema,
    left: &[Value<'e, 'a, 'j>],
    right: &[Value<'e, 'a, 'j>],
) -> Result<Vec<Value<'e, 'a, 'j>>, EvalFault>
    ensures { GivesOr is_no_memory (λ v. plains_of v.items) result
        (in_order is_gt (order_between schema.now (plains_of left.now) (plains_of right.now))) }
{
    match order_between(alloc, schema, left, right)? {
        Some(order) => answer(alloc, Some(order.is_gt())),
        None => answer(alloc, None),
    }
}

fn at_least_of<'e, 'a, 'j>(
    alloc: Global,
    schema: &Schema,
    left: &[Value<'e, 'a, 'j>],
    right: &[Value<'e, 'a, 'j>],
) -> Result<Vec<Value<'e, 'a, 'j>>, EvalFault>
    ensures { GivesOr is_no_memory (λ v. plains_of v.items) result
        (in_order is_ge (order_between schema.now (plains_of left.now) (plains_of right.now))) }
{
    match order_between(alloc, schema, left, right)? {
        Some(order) => answer(alloc, Some(order.is_ge())),
        None => answer(alloc, None),
    }
}

/// What an operator gives.
pub(crate) fn operator_result<'e, 'a, 'j>(
    alloc: Global,
    schema: &Schema,
    operator: Operator,
    left: &[Value<'e, 'a, 'j>],
    right: &[Value<'e, 'a, 'j>],
) -> Result<Vec<Value<'e, 'a, 'j>>, EvalFault>
    ensures { GivesOr is_no_memory (λ v. plains_of v.items) result
        (operator_result schema.now operator (plains_of left.now) (plains_of right.now)) }
{
    match operator {
        Operator::Index => at_index(alloc, left, right),
        Operator::Intersect => intersection(alloc, left, right),
        Operator::Union => union(alloc, left, right),
        Operator::Less => less_of(alloc, schema, left, right),
        Operator::LessOrEqual => at_most_of(alloc, schema, left, right),
        Operator::Greater => greater_of(alloc, schema, left, right),
        Operator::GreaterOrEqual => at_least_of(alloc, schema, left, right),
        Operator::Equal => answer(alloc, equality_between(alloc, left, right)?),
        Operator::NotEqual => answer(alloc, kleene_not(equality_between(alloc, left, right)?)),
        Operator::In => member_of(alloc, left, right),
        Operator::Contains => member_of(alloc, right, left),
        Operator::And => and_of(alloc, left, right),
        Operator::Or => or_of(alloc, left, right),
        Operator::Xor => xor_of(alloc, left, right),
        Operator::Implies => implies_of(alloc, left, right),
    }
}
