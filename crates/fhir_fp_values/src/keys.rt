//! Keys: texts that equal values have in common.

ghost use Rattle.std.specs.Prelude.{◌≡◌, ◌++◌, codes, string_bytes, option_map, IfOk, OnOk};
ghost use Rattle.fhir_decimal.specs.Numbers.{number_seen};
ghost use Rattle.fhir_decimal.specs.Value.{value_of};
ghost use Rattle.fhir_decimal.specs.Views.{parts_seen};
ghost use Rattle.fhir_prims.specs.Views.{fields_seen};
ghost use Rattle.fhir_number_keys.specs.Keys.{key_of as number_key};
ghost use Rattle.fhir_instance.specs.Items.{type_of, kids_of, kids_in};
ghost use Rattle.fhir_instance.specs.View.{item_of, named_of, named_in};
ghost use Rattle.fhir_fp_values.specs.Keys.{measured, truth_key, field_key, second_key, date_key, clock_key, moment_key, said_key, in_order, written, parts_key, item_key, keyed_kids, node_key, key_of};
ghost use Rattle.fhir_fp_values.specs.Pairing.{kids_seen};
ghost use Rattle.fhir_fp_values.specs.Views.{plain_of, system_value_seen};

use crate::equality::{KidRef, sorted_by_name};
use crate::system_value::{SystemValue, item_value, system_value_of};
use crate::value::Value;
use fhir_decimal::{Decimal, Number};
use fhir_instance::{Kid, Typed};
use fhir_number_keys::push_number_key;
use fhir_prims::Moment;
use itoa::Buffer;
use std::alloc::{AllocError, Global};

// A text behind its length.
fn push_measured(key: &mut String, text: &str) -> Result<(), AllocError>
    ensures { OnOk result (string_bytes key.new ≡ string_bytes key.old ++ measured text.now) }
{
    let mut buffer = Buffer::new();
    key.push_str(buffer.format(text.len()))?;
    key.push_str(":")?;
    key.push_str(text)?;
    Ok(())
}

fn push_text(key: &mut String, text: &str) -> Result<(), AllocError>
    ensures { OnOk result (string_bytes key.new ≡ string_bytes key.old ++ (codes "s" ++ measured text.now)) }
{
    key.push_str("s")?;
    push_measured(key, text)
}

fn truth_key(truth: bool) -> &'static str
    ensures { result.now ≡ truth_key truth }
{
    if truth { "t" } else { "f" }
}

fn push_number(alloc: Global, key: &mut String, number: &Number<'_>) -> Result<(), AllocError>
    ensures { OnOk result (string_bytes key.new
        ≡ string_bytes key.old ++ (codes "n" ++ (number_key (number_seen number.now) ++ codes ";"))) }
{
    key.push_str("n")?;
    push_number_key(alloc, key, number)?;
    key.push_str(";")
}

fn push_field(key: &mut String, field: Option<u32>) -> Result<(), AllocError>
    ensures { OnOk result (string_bytes key.new ≡ string_bytes key.old ++ field_key field) }
{
    let Some(number) = field else {
        return key.push_str(".");
    };
    let mut buffer = Buffer::new();
    key.push_str(":")?;
    key.push_str(buffer.format(number))
}

fn push_second(
    alloc: Global,
    key: &mut String,
    second: Option<Decimal<'_>>,
) -> Result<(), AllocError>
    ensures { OnOk result (string_bytes key.new ≡ string_bytes key.old
        ++ second_key (option_map (λ d. value_of (parts_seen d)) second.entry)) }
{
    let Some(second) = second else {
        return key.push_str(".");
    };
    key.push_str(":")?;
    push_number_key(alloc, key, &Number::Written(second))
}

fn push_date(key: &mut String, moment: &Moment<'_>) -> Result<(), AllocError>
    ensures { OnOk result (string_bytes key.new ≡ string_bytes key.old ++ date_key (fields_seen moment.now)) }
{
    push_field(key, moment.year)?;
    push_field(key, moment.month)?;
    push_field(key, moment.day)
}

fn push_clock(alloc: Global, key: &mut String, moment: &Moment<'_>) -> Result<(), AllocError>
    ensures { OnOk result (string_bytes key.new ≡ string_bytes key.old ++ clock_key (fields_seen moment.now)) }
{
    push_field(key, moment.hour)?;
    push_field(key, moment.minute)?;
    push_second(alloc, key, moment.second)
}

// Puts the key of a moment or a time of day, whichever the kind says, behind the others.
fn push_moment(
    alloc: Global,
    key: &mut String,
    kind: &str,
    moment: &Moment<'_>,
) -> Result<(), AllocError>
    ensures { OnOk result (string_bytes key.new ≡ string_bytes key.old
        ++ (kind.now ++ (moment_key (fields_seen moment.now) ++ codes ";"))) }
{
    key.push_str(kind)?;
    push_date(key, moment)?;
    push_clock(alloc, key, moment)?;
    key.push_str(";")
}

fn push_said(alloc: Global, key: &mut String, said: SystemValue<'_>) -> Result<(), AllocError>
    ensures { OnOk result (string_bytes key.new
        ≡ string_bytes key.old ++ said_key (system_value_seen said.entry)) }
{
    match said {
        SystemValue::Boolean(truth) => key.push_str(truth_key(truth)),
        SystemValue::Number(number) => push_number(alloc, key, &number),
        SystemValue::Text(text) => push_text(key, text),
        SystemValue::Moment(moment) => push_moment(alloc, key, "m", &moment),
        SystemValue::Time(time) => push_moment(alloc, key, "h", &time),
    }
}

#[cycle(keys)]
#[tactic(auto, using(crate::proofs::OneKey::item_key_out))]
fn push_item(alloc: Global, key: &mut String, item: &Typed<'_, '_>) -> Result<(), AllocError>
    ensures { OnOk result (string_bytes key.new ≡ string_bytes key.old ++ item_key (item_of item.now)) }
{
    match item_value(item) {
        Some(said) => push_said(alloc, key, said),
        None => push_parts(alloc, key, item),
    }
}

// The key of an item that says nothing.
#[cycle(keys)]
#[tactic(auto, using(crate::proofs::Heights::height_out))]
fn push_parts(alloc: Global, key: &mut String, item: &Typed<'_, '_>) -> Result<(), AllocError>
    ensures { OnOk result (string_bytes key.new ≡ string_bytes key.old
        ++ parts_key (type_of (item_of item.now)) (keyed_kids (kids_of (item_of item.now)))) }
{
    key.push_str("i")?;
    push_measured(key, item.code())?;
    push_kids(alloc, key, item.kids())?;
    key.push_str(";")?;
    Ok(())
}

#[cycle(keys)]
#[tactic(auto, using(crate::proofs::OneKey::sorted_keys))]
fn push_kids(alloc: Global, key: &mut String, kids: &[Kid<'_, '_>]) -> Result<(), AllocError>
    ensures { OnOk result (string_bytes key.new ≡ string_bytes key.old
        ++ written (in_order (keyed_kids (kids_in (named_in kids.now))))) }
{
    let sorted = sorted_by_name(alloc, kids)?;
    push_sorted(alloc, key, &sorted)
}

#[cycle(keys)]
fn push_sorted(
    alloc: Global,
    key: &mut String,
    kids: &[KidRef<'_, '_, '_>],
) -> Result<(), AllocError>
    ensures { OnOk result (string_bytes key.new ≡ string_bytes key.old
        ++ written (keyed_kids (kids_in (kids_seen kids.now)))) }
{
    for one in kids {
        push_kid(alloc, key, one.kid)?;
    }
    Ok(())
}

#[cycle(keys)]
fn push_kid(alloc: Global, key: &mut String, kid: &Kid<'_, '_>) -> Result<(), AllocError>
    ensures { OnOk result (string_bytes key.new ≡ string_bytes key.old
        ++ (measured (named_of kid.now).0 ++ item_key (named_of kid.now).1)) }
{
    push_measured(key, kid.name())?;
    push_item(alloc, key, kid.item())
}

fn push_node(alloc: Global, key: &mut String, value: Value<'_, '_, '_>) -> Result<(), AllocError>
    ensures { OnOk result (string_bytes key.new ≡ string_bytes key.old ++ node_key (plain_of value.entry)) }
{
    match value {
        Value::Node(item) => push_item(alloc, key, item),
        _ => Ok(()),
    }
}

#[tactic(auto, unfolding(crate::specs::Keys::key_of))]
fn push_value(alloc: Global, key: &mut String, value: Value<'_, '_, '_>) -> Result<(), AllocError>
    ensures { OnOk result (string_bytes key.new ≡ string_bytes key.old ++ key_of (plain_of value.entry)) }
{
    match system_value_of(value) {
        Some(said) => push_said(alloc, key, said),
        None => push_node(alloc, key, value),
    }
}

/// The key of a value, in time near linear in its size. Equal values have one key; others mostly have others.
pub(crate) fn key_of(alloc: Global, value: Value<'_, '_, '_>) -> Result<String, AllocError>
    ensures { IfOk result (λ key. string_bytes key ≡ key_of (plain_of value.entry)) }
{
    let mut key = String::new(alloc);
    push_value(alloc, &mut key, value)?;
    Ok(key)
}
