//! What functions give.

ghost use Rattle.std.specs.Prelude.{◌≡◌, ◌∷◌, [], option_map, Ok};
ghost use Rattle.fhir_json.specs.Memory.{GivesOr};
ghost use Rattle.fhir_decimal.specs.Numbers.{number_seen};
ghost use Rattle.fhir_fp_values.specs.Faults.{is_no_memory};
ghost use Rattle.fhir_fp_values.specs.Views.{plain_of, plains_of, system_value_seen};
ghost use Rattle.fhir_fp_eval.specs.Meaning.{starts, function_result, has_value, of_type, of_types, type_test_result, at_from, at_system_value, at_index};

use crate::lists::{
    all_children, all_descendants, answer, children_of, first_of, is_empty, single,
};
use crate::truths::truth_of;
use fhir_decimal::Number;
use fhir_fp_syntax::{Function, TypeTest};
use fhir_fp_values::{EvalFault, SystemValue, Value, item_value, kleene_not, system_value_of};
use fhir_schema::Schema;
use std::alloc::Global;

fn of_type(schema: &Schema, name: &str, value: Value<'_, '_, '_>) -> bool
    ensures { result ≡ of_type schema.now name.now (plain_of value.entry) }
{
    match value {
        Value::Node(item) => schema.derives(item.code(), name),
        _ => false,
    }
}

#[tactic(auto, unfolding(crate::specs::Meaning::of_types))]
fn of_types<'e, 'a, 'j>(
    alloc: Global,
    schema: &Schema,
    name: &str,
    values: &[Value<'e, 'a, 'j>],
) -> Result<Vec<Value<'e, 'a, 'j>>, EvalFault>
    ensures { GivesOr is_no_memory (λ v. plains_of v.items) result (Ok (of_types schema.now name.now (plains_of values.now))) }
{
    let mut found = Vec::new(alloc);
    for value in values {
        if of_type(schema, name, *value) {
            found.push(*value)?;
        }
    }
    Ok(found)
}

/// What `ofType`, `is` and `as` give.
pub(crate) fn type_test_result<'e, 'a, 'j>(
    alloc: Global,
    schema: &Schema,
    test: TypeTest,
    name: &str,
    values: &[Value<'e, 'a, 'j>],
) -> Result<Vec<Value<'e, 'a, 'j>>, EvalFault>
    ensures { GivesOr is_no_memory (λ v. plains_of v.items) result (type_test_result schema.now test name.now (plains_of values.now)) }
{
    if let TypeTest::OfType = test {
        return of_types(alloc, schema, name, values);
    }
    match values {
        [] => Ok(Vec::new(alloc)),
        [value] => match test {
            TypeTest::OfType => of_types(alloc, schema, name, values),
            TypeTest::Is => single(alloc, Value::Truth(of_type(schema, name, *value))),
            TypeTest::As => of_types(alloc, schema, name, values),
        },
        _ => Err(EvalFault::Several),
    }
}

/// What a name gives at the start of a path.
pub(crate) fn starts<'e, 'a, 'j>(
    alloc: Global,
    schema: &Schema,
    name: &str,
    value: Value<'e, 'a, 'j>,
) -> Result<Vec<Value<'e, 'a, 'j>>, EvalFault>
    ensures { GivesOr is_no_memory (λ v. plains_of v.items) result (Ok (starts schema.now name.now (plain_of value.entry))) }
{
    let Value::Node(item) = value else {
        return Ok(Vec::new(alloc));
    };
    let focus = single(alloc, value)?;
    if schema.derives(item.code(), name) {
        Ok(focus)
    } else {
        children_of(alloc, name, &focus)
    }
}

pub(crate) fn value_has_value(value: Value<'_, '_, '_>) -> bool
    ensures { result ≡ has_value (plain_of value.entry ∷ []) }
{
    match value {
        Value::Node(item) => item_value(item).is_some(),
        _ => false,
    }
}

fn has_value(values: &[Value<'_, '_, '_>]) -> bool
    ensures { result ≡ has_value (plains_of values.now) }
{
    match values {
        [value] => value_has_value(*value),
        _ => false,
    }
}

/// What a function without an argument gives.
pub(crate) fn function_result<'e, 'a, 'j>(
    alloc: Global,
    function: Function,
    values: &[Value<'e, 'a, 'j>],
) -> Result<Vec<Value<'e, 'a, 'j>>, EvalFault>
    ensures { GivesOr is_no_memory (λ v. plains_of v.items) result (function_result function (plains_of values.now)) }
{
    match function {
        Function::Exists => single(alloc, Value::Truth(!is_empty(values))),
        Function::Empty => single(alloc, Value::Truth(is_empty(values))),
        Function::Count => single(alloc, Value::Number(Number::Count(values.len()))),
        Function::First => first_of(alloc, values),
        Function::Children => all_children(alloc, values),
        Function::Descendants => all_descendants(alloc, values),
        Function::Not => {
            let truth = truth_of(values)?;
            answer(alloc, kleene_not(truth))
        }
        Function::HasValue => single(alloc, Value::Truth(has_value(values))),
    }
}

fn at_number<'e, 'a, 'j>(
    alloc: Global,
    number: Number<'_>,
    values: &[Value<'e, 'a, 'j>],
) -> Result<Vec<Value<'e, 'a, 'j>>, EvalFault>
    ensures { GivesOr is_no_memory (λ v. plains_of v.items) result
        (Ok (at_from 0 (number_seen number.entry) (plains_of values.now))) }
{
    match number.count_below(values.len()) {
        Some(place) => single(alloc, values[place]),
        None => Ok(Vec::new(alloc)),
    }
}

fn at_system_value<'e, 'a, 'j>(
    alloc: Global,
    said: Option<SystemValue<'_>>,
    values: &[Value<'e, 'a, 'j>],
) -> Result<Vec<Value<'e, 'a, 'j>>, EvalFault>
    ensures { GivesOr is_no_memory (λ v. plains_of v.items) result
        (at_system_value (option_map system_value_seen said.entry) (plains_of values.now)) }
{
    match said {
        Some(SystemValue::Number(number)) => {
            if number.is_whole() {
                at_number(alloc, number, values)
            } else {
                Err(EvalFault::Kind)
            }
        }
        _ => Err(EvalFault::Kind),
    }
}

/// What `a[i]` gives.
pub(crate) fn at_index<'e, 'a, 'j>(
    alloc: Global,
    values: &[Value<'e, 'a, 'j>],
    index: &[Value<'_, '_, '_>],
) -> Result<Vec<Value<'e, 'a, 'j>>, EvalFault>
    ensures { GivesOr is_no_memory (λ v. plains_of v.items) result (at_index (plains_of values.now) (plains_of index.now)) }
{
    match index {
        [] => Ok(Vec::new(alloc)),
        [place] => at_system_value(alloc, system_value_of(*place), values),
        _ => Err(EvalFault::Several),
    }
}
