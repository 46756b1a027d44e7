//! What is first to blame for a definition.

ghost use Rattle.std.specs.Prelude.{◌≡◌, ℕ, ◌<◌};
ghost use Rattle.std.specs.Option.{option_map, option_or};
ghost use Rattle.fhir_elements.specs.Causes.{reason_of, blamed_reason, is_blame_among};

use fhir_elements::{Blame, Cause};

/// What was to blame before; else the element at a place, if there is a cause.
pub(crate) fn first_blame(first: Option<Blame>, place: usize, cause: Option<Cause>) -> Option<Blame>
    ensures reason { blamed_reason result ≡ option_or (blamed_reason first) (option_map reason_of cause) }
    ensures element { (count : ℕ) → is_blame_among count first → place < count → is_blame_among count result }
{
    if first.is_some() {
        return first;
    }
    Some(Blame::at(place, cause?))
}
