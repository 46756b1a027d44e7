//! What is refused before anything is derived: a definition that isn't there, or that can't be used.

ghost use Rattle.std.specs.Prelude.{◌≡◌};
ghost use Rattle.fhir_derive_check.specs.Faults.{is_missing, is_unusable, first_side, derive_refusal};

use crate::fault::{DeriveFault, Side};
use fhir_schema::Schema;

fn is_missing(schema: &Schema, url: &str) -> bool
    ensures { result ≡ is_missing schema.now url.now }
{
    schema.root(url).is_none() && schema.unusable(url).is_none()
}

fn is_unusable(schema: &Schema, url: &str) -> bool
    ensures { result ≡ is_unusable schema.now url.now }
{
    schema.unusable(url).is_some()
}

fn missing_side(schema: &Schema, derived: &str, base: &str) -> Option<Side>
    ensures { result ≡ first_side (is_missing schema.now) derived.now base.now }
{
    if is_missing(schema, derived) {
        return Some(Side::Derived);
    }
    if is_missing(schema, base) {
        return Some(Side::Base);
    }
    None
}

fn unusable_side(schema: &Schema, derived: &str, base: &str) -> Option<Side>
    ensures { result ≡ first_side (is_unusable schema.now) derived.now base.now }
{
    if is_unusable(schema, derived) {
        return Some(Side::Derived);
    }
    if is_unusable(schema, base) {
        return Some(Side::Base);
    }
    None
}

/// Why nothing can be derived of two profiles, if so: that one isn't there comes before that one can't be used.
pub(crate) fn refusal(schema: &Schema, derived: &str, base: &str) -> Option<DeriveFault>
    ensures { result ≡ derive_refusal schema.now derived.now base.now }
{
    match missing_side(schema, derived, base) {
        Some(side) => Some(DeriveFault::Missing(side)),
        None => {
            let side = unusable_side(schema, derived, base)?;
            Some(DeriveFault::Unusable(side))
        }
    }
}
