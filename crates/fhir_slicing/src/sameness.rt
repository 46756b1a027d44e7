//! When two slices are told apart by the same.

ghost use Rattle.std.specs.Prelude.{◌≡◌, map, string_bytes};
ghost use Rattle.std.specs.Str.{bytes_eq};
ghost use Rattle.fhir_json.specs.Views.{tree_of};
ghost use Rattle.fhir_forms.specs.CriteriaSeen.{sought_seen, criterion_seen, criteria_seen};
ghost use Rattle.fhir_slicing.specs.SameCriteria.{same_value, same_lists, same_sought, same_by, same_criterion, same_criteria};

use fhir_elements::DiscriminatorType;
use fhir_json::Json;
use fhir_matching::json_eq;
use fhir_schema::{Criterion, NodeRef, Schema, Sought};

fn same_value(value: &Json<'_>, other: &Json<'_>) -> bool
    ensures { result ≡ same_value (tree_of value.now) (tree_of other.now) }
{
    json_eq(value, other) && json_eq(other, value)
}

fn same_texts(texts: &[String], others: &[String]) -> bool
    ensures { result ≡ same_lists bytes_eq (map string_bytes texts.now) (map string_bytes others.now) }
{
    let mut rest = others;
    for text in texts {
        let [other, after @ ..] = rest else {
            return false;
        };
        if text.as_str() != other.as_str() {
            return false;
        }
        rest = after;
    }
    rest.is_empty()
}

fn same_sought(sought: &Sought, other: &Sought) -> bool
    ensures { result ≡ same_sought (sought_seen sought.now) (sought_seen other.now) }
{
    match (sought, other) {
        (Sought::Fixed(value), Sought::Fixed(other)) => same_value(value, other),
        (Sought::Pattern(pattern), Sought::Pattern(other)) => same_value(pattern, other),
        (Sought::Present, Sought::Present) => true,
        (Sought::Absent, Sought::Absent) => true,
        (Sought::Typed(codes), Sought::Typed(others)) => same_texts(codes, others),
        _ => false,
    }
}

fn same_by(by: DiscriminatorType, other: DiscriminatorType) -> bool
    ensures { result ≡ same_by by other }
{
    match (by, other) {
        (DiscriminatorType::Value, DiscriminatorType::Value) => true,
        (DiscriminatorType::Exists, DiscriminatorType::Exists) => true,
        (DiscriminatorType::Pattern, DiscriminatorType::Pattern) => true,
        (DiscriminatorType::TypeCode, DiscriminatorType::TypeCode) => true,
        (DiscriminatorType::Profile, DiscriminatorType::Profile) => true,
        _ => false,
    }
}

fn same_criterion(criterion: &Criterion, other: &Criterion) -> bool
    ensures { result ≡ same_criterion (criterion_seen criterion.now) (criterion_seen other.now) }
{
    same_by(criterion.by, other.by)
        && criterion.path.as_str() == other.path.as_str()
        && same_texts(&criterion.names, &other.names)
        && same_sought(&criterion.sought, &other.sought)
}

fn same_lists(criteria: &[Criterion], others: &[Criterion]) -> bool
    ensures { result ≡ same_lists same_criterion (criteria_seen criteria.now) (criteria_seen others.now) }
{
    let mut rest = others;
    for criterion in criteria {
        let [other, after @ ..] = rest else {
            return false;
        };
        if !same_criterion(criterion, other) {
            return false;
        }
        rest = after;
    }
    rest.is_empty()
}

/// Whether two slices are told apart by the same: their criteria are the same, one by one (FHIR R4, ElementDefinition,
/// slicing.discriminator). It takes no memory.
pub fn same_criteria(schema: &Schema, node: NodeRef, other: NodeRef) -> bool
    ensures { result ≡ same_criteria schema.now node other }
{
    same_lists(schema.criteria(node), schema.criteria(other))
}
