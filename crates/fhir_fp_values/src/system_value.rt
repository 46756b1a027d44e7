//! What values say, apart from where they stand.

ghost use Rattle.std.specs.Prelude.{◌≡◌, option_map};
ghost use Rattle.fhir_json.specs.Views.{tree_of};
ghost use Rattle.fhir_decimal.specs.Reading.{parts};
ghost use Rattle.fhir_decimal.specs.Value.{value_of};
ghost use Rattle.fhir_decimal.specs.Views.{parts_seen};
ghost use Rattle.fhir_prims.specs.Reading.{fields_of};
ghost use Rattle.fhir_prims.specs.Views.{fields_seen};
ghost use Rattle.fhir_instance.specs.View.{item_of};
ghost use Rattle.fhir_fp_values.specs.Values.{number_of, is_moment_type, text_value, json_value, item_value, system_value};
ghost use Rattle.fhir_fp_values.specs.Views.{plain_of, system_value_seen};

use crate::value::Value;
use fhir_decimal::{Decimal, Number};
use fhir_instance::Typed;
use fhir_json::Json;
use fhir_prims::Moment;

/// What a value says, apart from where it stands.
#[derive(Clone, Copy)]
pub enum SystemValue<'e> {
    /// A boolean.
    Boolean(bool),
    /// A number.
    Number(Number<'e>),
    /// A string.
    Text(&'e str),
    /// A date or a moment.
    Moment(Moment<'e>),
    /// A time of day.
    Time(Moment<'e>),
}

fn is_moment_type(code: &str) -> bool
    ensures { result ≡ is_moment_type code.now }
{
    code == "date" || (code == "dateTime" || code == "instant")
}

fn text_value<'t>(code: &str, text: &'t str) -> Option<SystemValue<'t>>
    ensures { option_map system_value_seen result ≡ text_value code.now text.now }
{
    if is_moment_type(code) {
        return match Moment::of(text) {
            Some(moment) => Some(SystemValue::Moment(moment)),
            None => None,
        };
    }
    if code == "time" {
        return match Moment::of(text) {
            Some(time) => Some(SystemValue::Time(time)),
            None => None,
        };
    }
    Some(SystemValue::Text(text))
}

fn number_value(text: &str) -> Option<SystemValue<'_>>
    ensures { option_map system_value_seen result ≡ option_map (λ p. number_of (value_of p)) (parts text.now) }
{
    match Decimal::of(text) {
        Some(decimal) => Some(SystemValue::Number(Number::Written(decimal))),
        None => None,
    }
}

fn json_value<'t>(code: &str, json: &'t Json<'_>) -> Option<SystemValue<'t>>
    ensures { option_map system_value_seen result ≡ json_value code.now (tree_of json.now) }
{
    match json {
        Json::Null => None,
        Json::Bool(flag) => Some(SystemValue::Boolean(*flag)),
        Json::Num(text) => number_value(text.as_str()),
        Json::Str(text) => text_value(code, text.as_str()),
        Json::Arr(_) => None,
        Json::Obj(_) => None,
    }
}

/// What an item says: the value of a primitive.
pub fn item_value<'e>(item: &'e Typed<'_, '_>) -> Option<SystemValue<'e>>
    ensures { option_map system_value_seen result ≡ item_value (item_of item.now) }
{
    match item.json() {
        Some(json) => json_value(item.code(), json),
        None => None,
    }
}

/// What a value says.
pub fn system_value_of<'e>(value: Value<'e, '_, '_>) -> Option<SystemValue<'e>>
    ensures { option_map system_value_seen result ≡ system_value (plain_of value.entry) }
{
    match value {
        Value::Node(item) => item_value(item),
        Value::Truth(flag) => Some(SystemValue::Boolean(flag)),
        Value::Number(number) => Some(SystemValue::Number(number)),
        Value::Text(text) => Some(SystemValue::Text(text)),
    }
}
