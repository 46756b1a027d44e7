//! Bounds of values, by the names of their properties.

ghost use Rattle.std.specs.Prelude.{◌≡◌, drop, length, true};
ghost use Rattle.std.specs.Option.{option_map, option_map_or};
ghost use Rattle.std.specs.List.{list_all};
ghost use Rattle.fhir_json.specs.Views.{property_of, property_seen};
ghost use Rattle.fhir_elements.specs.declared.reason.Reason.TheVariants.{WrongField};
ghost use Rattle.fhir_elements.specs.Causes.{reason_of, blamed_reason, reason_unless, is_blame_among};
ghost use Rattle.fhir_definition.specs.Bounds.{compared_type, bound_type, is_lexical_bound, has_lexical_bounds};

use fhir_elements::{Blame, Cause, ElementDef};
use fhir_json::Member;
use fhir_prims::{PrimType, lexical};

// Both stems, `minValue` and `maxValue`, have eight letters.
fn behind_stem(property: &str) -> &[u8]
    ensures { result.now ≡ drop 8 property.now }
{
    let bytes = property.as_bytes();
    if 8 < bytes.len() {
        &bytes[8..]
    } else {
        Default::default()
    }
}

fn compared_type(end: &[u8]) -> Option<PrimType>
    ensures { result ≡ compared_type end.now }
{
    if end == b"Integer".as_slice() {
        Some(PrimType::Integer)
    } else if end == b"UnsignedInt".as_slice() {
        Some(PrimType::UnsignedInt)
    } else if end == b"PositiveInt".as_slice() {
        Some(PrimType::PositiveInt)
    } else if end == b"Decimal".as_slice() {
        Some(PrimType::Decimal)
    } else if end == b"Date".as_slice() {
        Some(PrimType::Date)
    } else if end == b"DateTime".as_slice() {
        Some(PrimType::DateTime)
    } else if end == b"Instant".as_slice() {
        Some(PrimType::Instant)
    } else if end == b"Time".as_slice() {
        Some(PrimType::Time)
    } else {
        None
    }
}

/// The type of the bound that a property as `minValueDate` or `maxValueDecimal` holds (FHIR R4, ElementDefinition,
/// minValue[x] and maxValue[x]); none where bounds of its type aren't compared.
pub fn bound_type(property: &str) -> Option<PrimType>
    ensures { result ≡ bound_type property.now }
{
    compared_type(behind_stem(property))
}

fn is_lexical_bound(bound: &Member<'_>) -> bool
    ensures { result ≡ is_lexical_bound (property_of bound.now) }
{
    match bound_type(bound.name.as_str()) {
        Some(prim) => lexical(prim, &bound.value),
        None => true,
    }
}

fn allows_bound(bound: Option<&Member<'_>>) -> bool
    ensures { result ≡ option_map_or is_lexical_bound (property_seen bound.entry) true }
{
    match bound {
        Some(bound) => is_lexical_bound(bound),
        None => true,
    }
}

fn wrong_bound(element: &ElementDef) -> Option<Cause>
    ensures { option_map reason_of result ≡ reason_unless (has_lexical_bounds element.now) WrongField }
{
    if !allows_bound(element.min_value()) {
        Some(Cause::WrongBound("minValue"))
    } else if !allows_bound(element.max_value()) {
        Some(Cause::WrongBound("maxValue"))
    } else {
        None
    }
}

/// The first element with a bound that is compared and is no value of its type.
pub(crate) fn blame_of_bounds(elements: &[ElementDef]) -> Option<Blame>
    ensures reason { blamed_reason result ≡ reason_unless (list_all has_lexical_bounds elements.now) WrongField }
    ensures element { is_blame_among (length elements.now) result }
{
    for (place, element) in elements.iter().enumerate() {
        if let Some(cause) = wrong_bound(element) {
            return Some(Blame::at(place, cause));
        }
    }
    None
}
