//! The scales of values that have an order.

ghost use Rattle.std.specs.Prelude.{◌≡◌};
ghost use Rattle.fhir_facets.specs.Ranges.{scale_of, same_scale, scale_of_code, scale_of_bound};

use fhir_definition::bound_type;
use fhir_prims::PrimType;

/// A scale of values that have an order.
#[derive(Clone, Copy, Debug, PartialEq, Eq)]
pub enum Scale {
    /// Numbers, by their values.
    Number,
    /// Dates and moments, by their fields.
    Moment,
    /// Times of day, by theirs.
    Time,
}

fn scale_of(prim: PrimType) -> Option<Scale>
    ensures { result ≡ scale_of prim }
{
    match prim {
        PrimType::Integer | PrimType::UnsignedInt | PrimType::PositiveInt | PrimType::Decimal => {
            Some(Scale::Number)
        }
        PrimType::Date | PrimType::DateTime | PrimType::Instant => Some(Scale::Moment),
        PrimType::Time => Some(Scale::Time),
        _ => None,
    }
}

/// Whether two scales are one.
pub(crate) fn same_scale(left: Scale, right: Scale) -> bool
    ensures { result ≡ same_scale left right }
{
    left == right
}

/// The scale of the values of a type, by its code.
pub(crate) fn scale_of_code(code: &str) -> Option<Scale>
    ensures { result ≡ scale_of_code code.now }
{
    match PrimType::of(code) {
        Some(prim) => scale_of(prim),
        None => None,
    }
}

/// The scale of a bound, by its property.
pub(crate) fn scale_of_bound(property: &str) -> Option<Scale>
    ensures { result ≡ scale_of_bound property.now }
{
    match bound_type(property) {
        Some(prim) => scale_of(prim),
        None => None,
    }
}
