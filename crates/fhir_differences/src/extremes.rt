//! The values at the ends of types.

use fhir_prims::PrimType;

/// The least and the greatest value of a type that has an order.
pub(crate) fn extremes(code: &str) -> Option<(&'static str, &'static str)> {
    match PrimType::of(code)? {
        PrimType::Integer => Some(("-2147483648", "2147483647")),
        PrimType::UnsignedInt => Some(("0", "2147483647")),
        PrimType::PositiveInt => Some(("1", "2147483647")),
        PrimType::Decimal => Some(("-1e12", "1e12")),
        PrimType::Date | PrimType::DateTime => Some(("\"0001-01-01\"", "\"9999-12-31\"")),
        PrimType::Instant => Some(("\"0001-01-01T00:00:00Z\"", "\"9999-12-31T23:59:59Z\"")),
        PrimType::Time => Some(("\"00:00:00\"", "\"23:59:59\"")),
        _ => None,
    }
}

/// Whether a type's values are texts of any length.
pub(crate) fn has_length(code: &str) -> bool {
    matches!(
        code,
        "string" | "markdown" | "code" | "uri" | "url" | "canonical" | "id"
    )
}
