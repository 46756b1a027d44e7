//! Values of primitive types.

use crate::draft::{Done, Draft};
use fhir_demands::{Demand, Task};
use fhir_differences::Change;
use fhir_json::Json;
use fhir_prims::PrimType;
use fhir_schema::{NodeRef, Schema};

/// A value of a type, as JSON spells it, and another one.
fn two_values(prim: PrimType) -> (&'static str, &'static str) {
    match prim {
        PrimType::Boolean => ("true", "false"),
        PrimType::Integer | PrimType::UnsignedInt | PrimType::PositiveInt => ("1", "2"),
        PrimType::Decimal => ("1.0", "2.5"),
        PrimType::Date | PrimType::DateTime => ("\"2000-01-01\"", "\"2001-02-03\""),
        PrimType::Instant => ("\"2000-01-01T00:00:00Z\"", "\"2001-02-03T04:05:06Z\""),
        PrimType::Time => ("\"00:00:00\"", "\"12:34:56\""),
        PrimType::Oid => ("\"urn:oid:1.2\"", "\"urn:oid:1.3\""),
        PrimType::Uuid => (
            "\"urn:uuid:00000000-0000-0000-0000-000000000000\"",
            "\"urn:uuid:00000000-0000-0000-0000-000000000001\"",
        ),
        PrimType::Base64Binary => ("\"AAAA\"", "\"BBBB\""),
        PrimType::Xhtml => (
            "\"<div xmlns=\\\"http://www.w3.org/1999/xhtml\\\">a</div>\"",
            "\"<div xmlns=\\\"http://www.w3.org/1999/xhtml\\\">b</div>\"",
        ),
        _ => ("\"a\"", "\"other-value\""),
    }
}

// The value that has to be there.
fn asked_value<'s>(demand: Demand<'s>) -> Option<&'s Json<'static>> {
    match demand {
        Demand::Fixed(value) => Some(value),
        Demand::Pattern(value) => Some(value),
        _ => None,
    }
}

fn asked_text<'s>(demand: Demand<'s>) -> Option<&'s str> {
    match demand {
        Demand::Text(text) => Some(text),
        Demand::Concept(_system, code) => Some(code),
        _ => None,
    }
}

// The first value that has to be there.
fn first_value<'s>(demands: &[Demand<'s>]) -> Option<&'s Json<'static>> {
    for demand in demands {
        if let Some(value) = asked_value(*demand) {
            return Some(value);
        }
    }
    None
}

fn first_text<'s>(demands: &[Demand<'s>]) -> Option<&'s str> {
    for demand in demands {
        if let Some(text) = asked_text(*demand) {
            return Some(text);
        }
    }
    None
}

fn first_target<'s>(demands: &[Demand<'s>]) -> Option<&'s str> {
    for demand in demands {
        if let Demand::Target(code) = *demand {
            return Some(code);
        }
    }
    None
}

// The bound of a node that a value lies at: the least value, or else the greatest.
fn bound_of<'s>(schema: &'s Schema, node: NodeRef) -> Option<&'s Json<'static>> {
    let element = schema.element(node)?;
    match (element.min_value(), element.max_value()) {
        (Some(bound), _) => Some(&bound.value),
        (None, Some(bound)) => Some(&bound.value),
        (None, None) => None,
    }
}

fn bound_asked<'s>(schema: &'s Schema, demand: Demand<'s>) -> Option<&'s Json<'static>> {
    match demand {
        Demand::Node(node) => bound_of(schema, node),
        _ => None,
    }
}

fn first_bound<'s>(schema: &'s Schema, demands: &[Demand<'s>]) -> Option<&'s Json<'static>> {
    for demand in demands {
        if let Some(bound) = bound_asked(schema, *demand) {
            return Some(bound);
        }
    }
    None
}

// The least value.
fn put_least<'s>(
    draft: &mut Draft,
    schema: &'s Schema,
    demands: &[Demand<'s>],
    spelled: &str,
) -> Done {
    if let Some(code) = first_target(demands) {
        return draft.put_texts(code, "/1");
    }
    if let Some(value) = first_value(demands) {
        return draft.put_json(value);
    }
    if let Some(text) = first_text(demands) {
        return draft.put_text(text);
    }
    match first_bound(schema, demands) {
        Some(bound) => draft.put_json(bound),
        None => draft.put_spelled(spelled),
    }
}

fn put_changed<'s>(
    draft: &mut Draft,
    task: &Task<'_, 's>,
    demands: &[Demand<'s>],
    values: (&str, &str),
) -> Done {
    match task.change_at(demands) {
        Change::OtherValue => draft.put_spelled(values.1),
        Change::Value(json) => draft.put_json(json),
        Change::Spelled(text) => draft.put_spelled(text),
        Change::Long(count) => draft.put_letters(count),
        Change::Concept(_system, code) => draft.put_text(code),
        _ => put_least(draft, task.schema, demands, values.0),
    }
}

/// A value of a primitive type.
pub(crate) fn put_primitive<'s>(
    draft: &mut Draft,
    task: &Task<'_, 's>,
    demands: &[Demand<'s>],
    prim: PrimType,
) -> Done {
    put_changed(draft, task, demands, two_values(prim))
}

/// A text of one of FHIRPath's own types.
pub(crate) fn put_system<'s>(
    draft: &mut Draft,
    task: &Task<'_, 's>,
    demands: &[Demand<'s>],
) -> Done {
    put_changed(draft, task, demands, two_values(PrimType::String))
}
