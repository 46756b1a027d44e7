//! The order of two values (FHIRPath N1, section 6.2).

ghost use Rattle.std.specs.Prelude.{◌≡◌, option_map, option_and_then, Ok, IfOk};
ghost use Rattle.fhir_json.specs.Memory.{GivesOr};
ghost use Rattle.fhir_decimal.specs.Numbers.{number_seen};
ghost use Rattle.fhir_instance.specs.Items.{kids_in};
ghost use Rattle.fhir_instance.specs.View.{item_of, named_in};
ghost use Rattle.fhir_fp_values.specs.Faults.{is_no_memory};
ghost use Rattle.fhir_fp_values.specs.Views.{plain_of, system_value_seen};
ghost use Rattle.fhir_fp_values.specs.Comparing.{system_value_order, first_named, child, number_in, amount, both_or_none, same_child, same_unit, amount_order, quantity_order, is_quantity, item_order, node_order, order_of};

use crate::equality::equal;
use crate::fault::EvalFault;
use crate::system_value::{SystemValue, item_value, system_value_of};
use crate::truths::is_yes;
use crate::value::Value;
use fhir_decimal::Number;
use fhir_instance::{Kid, Typed};
use fhir_json::NoMemory;
use fhir_prims::cmp_moment;
use fhir_schema::Schema;
use std::alloc::Global;
use std::cmp::Ordering;

fn system_value_order(
    left: SystemValue<'_>,
    right: SystemValue<'_>,
) -> Result<Option<Ordering>, EvalFault>
    ensures { GivesOr is_no_memory (λ o. o) result (system_value_order (system_value_seen left.entry) (system_value_seen right.entry)) }
{
    match (left, right) {
        (SystemValue::Number(left), SystemValue::Number(right)) => Ok(Some(left.cmp(&right))),
        (SystemValue::Text(left), SystemValue::Text(right)) => Ok(Some(left.cmp(right))),
        (SystemValue::Moment(left), SystemValue::Moment(right)) => Ok(cmp_moment(&left, &right)),
        (SystemValue::Moment(_), SystemValue::Time(_)) => Ok(None),
        (SystemValue::Time(_), SystemValue::Moment(_)) => Ok(None),
        (SystemValue::Time(left), SystemValue::Time(right)) => Ok(cmp_moment(&left, &right)),
        _ => Err(EvalFault::Kind),
    }
}

fn first_named<'e, 'a, 'j>(kids: &'e [Kid<'a, 'j>], name: &str) -> Option<&'e Typed<'a, 'j>>
    ensures { option_map (λ x. item_of x.now) result ≡ first_named name.now (kids_in (named_in kids.now)) }
{
    for kid in kids {
        if kid.name() == name {
            return Some(kid.item());
        }
    }
    None
}

fn child<'e, 'a, 'j>(item: &'e Typed<'a, 'j>, name: &str) -> Option<&'e Typed<'a, 'j>>
    ensures { option_map (λ x. item_of x.now) result ≡ child name.now (item_of item.now) }
{
    first_named(item.kids(), name)
}

fn number_in<'e>(said: Option<SystemValue<'e>>) -> Option<Number<'e>>
    ensures { option_map number_seen result ≡ option_and_then number_in (option_map system_value_seen said.entry) }
{
    match said {
        Some(SystemValue::Number(number)) => Some(number),
        _ => None,
    }
}

fn amount<'e>(item: &'e Typed<'_, '_>) -> Option<Number<'e>>
    ensures { option_map number_seen result ≡ amount (item_of item.now) }
{
    match child(item, "value") {
        Some(value) => number_in(item_value(value)),
        None => None,
    }
}

fn both_or_none(
    alloc: Global,
    left: Option<&Typed<'_, '_>>,
    right: Option<&Typed<'_, '_>>,
) -> Result<bool, NoMemory>
    ensures { IfOk result (λ r. r ≡ both_or_none (option_map (λ x. item_of x.now) left.entry)
        (option_map (λ x. item_of x.now) right.entry)) }
{
    match (left, right) {
        (Some(left), Some(right)) => Ok(is_yes(equal(alloc, left, right)?)),
        (Some(_), None) => Ok(false),
        (None, Some(_)) => Ok(false),
        (None, None) => Ok(true),
    }
}

fn same_child(
    alloc: Global,
    left: &Typed<'_, '_>,
    right: &Typed<'_, '_>,
    name: &str,
) -> Result<bool, NoMemory>
    ensures { IfOk result (λ r. r ≡ same_child name.now (item_of left.now) (item_of right.now)) }
{
    both_or_none(alloc, child(left, name), child(right, name))
}

fn same_unit(alloc: Global, left: &Typed<'_, '_>, right: &Typed<'_, '_>) -> Result<bool, NoMemory>
    ensures { IfOk result (λ r. r ≡ same_unit (item_of left.now) (item_of right.now)) }
{
    Ok(
        same_child(alloc, left, right, "system")?
            && (same_child(alloc, left, right, "code")? && same_child(alloc, left, right, "unit")?),
    )
}

fn amount_order(left: &Typed<'_, '_>, right: &Typed<'_, '_>) -> Option<Ordering>
    ensures { result ≡ amount_order (item_of left.now) (item_of right.now) }
{
    match (amount(left), amount(right)) {
        (Some(left), Some(right)) => Some(left.cmp(&right)),
        (Some(_), None) => None,
        (None, Some(_)) => None,
        (None, None) => None,
    }
}

fn quantity_order(
    alloc: Global,
    left: &Typed<'_, '_>,
    right: &Typed<'_, '_>,
) -> Result<Option<Ordering>, NoMemory>
    ensures { IfOk result (λ r. r ≡ quantity_order (item_of left.now) (item_of right.now)) }
{
    if same_unit(alloc, left, right)? {
        Ok(amount_order(left, right))
    } else {
        Ok(None)
    }
}

fn is_quantity(schema: &Schema, item: &Typed<'_, '_>) -> bool
    ensures { result ≡ is_quantity schema.now (item_of item.now) }
{
    schema.derives(item.code(), "Quantity")
}

fn item_order(
    alloc: Global,
    schema: &Schema,
    left: &Typed<'_, '_>,
    right: &Typed<'_, '_>,
) -> Result<Option<Ordering>, EvalFault>
    ensures { GivesOr is_no_memory (λ o. o) result (item_order schema.now (item_of left.now) (item_of right.now)) }
{
    if is_quantity(schema, left) & is_quantity(schema, right) {
        Ok(quantity_order(alloc, left, right)?)
    } else {
        Err(EvalFault::Kind)
    }
}

fn node_order(
    alloc: Global,
    schema: &Schema,
    left: Value<'_, '_, '_>,
    right: Value<'_, '_, '_>,
) -> Result<Option<Ordering>, EvalFault>
    ensures { GivesOr is_no_memory (λ o. o) result (node_order schema.now (plain_of left.entry) (plain_of right.entry)) }
{
    match (left, right) {
        (Value::Node(item), Value::Node(other)) => item_order(alloc, schema, item, other),
        _ => Err(EvalFault::Kind),
    }
}

/// The order of two values, none where two of one kind have none; values without a common order of their kind are a fault.
#[tactic(auto, unfolding(crate::specs::Comparing::order_of))]
pub fn order_of(
    alloc: Global,
    schema: &Schema,
    left: Value<'_, '_, '_>,
    right: Value<'_, '_, '_>,
) -> Result<Option<Ordering>, EvalFault>
    ensures { GivesOr is_no_memory (λ o. o) result (order_of schema.now (plain_of left.entry) (plain_of right.entry)) }
{
    match (system_value_of(left), system_value_of(right)) {
        (Some(said), Some(other)) => system_value_order(said, other),
        (Some(_), None) => Err(EvalFault::Kind),
        (None, Some(_)) => Err(EvalFault::Kind),
        (None, None) => node_order(alloc, schema, left, right),
    }
}
