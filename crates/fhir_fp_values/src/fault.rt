//! Why an expression has no result.

ghost use Rattle.std.specs.Prelude.{◌≡◌};
ghost use Rattle.fhir_fp_values.specs.declared.fault.EvalFault.TheVariants as faults;

use fhir_json::NoMemory;
use thiserror::Error;

/// Why an expression has no result.
#[derive(Clone, Copy, Debug, PartialEq, Eq, Error)]
pub enum EvalFault {
    /// Several items stand where one is wanted.
    #[error("E1")]
    Several,
    /// A value is of the wrong kind.
    #[error("E2")]
    Kind,
    /// A growth of memory was refused.
    #[error("E3")]
    NoMemory,
}

// Whatever becomes want of memory.
impl<E: Drop> From<E> for EvalFault
where
    NoMemory: From<E>,
{
    ghost from_gives = { λ _ e. e ≡ faults.NoMemory };

    fn from(_error: E) -> EvalFault {
        EvalFault::NoMemory
    }
}
