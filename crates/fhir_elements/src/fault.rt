//! Why a tree gave no element.

ghost use Rattle.std.specs.Prelude.{◌≡◌};
ghost use Rattle.fhir_elements.specs.declared.fault.ElementFault.TheVariants as faults;

use crate::reason::Reason;
use fhir_json::NoMemory;
use thiserror::Error;

/// Why a tree gave no element.
#[derive(Clone, Copy, Debug, PartialEq, Eq, Error)]
pub enum ElementFault {
    /// It is none.
    #[error("{0}")]
    Unfit(Reason),
    /// A growth of memory was refused.
    #[error("no memory")]
    NoMemory,
}

// Whatever becomes want of memory.
impl<E: Drop> From<E> for ElementFault
where
    NoMemory: From<E>,
{
    ghost from_gives = { λ _ e. e ≡ faults.NoMemory };

    fn from(_error: E) -> ElementFault {
        ElementFault::NoMemory
    }
}
