//! Why there is no verdict.

ghost use Rattle.std.specs.Prelude.{◌≡◌};
ghost use Rattle.fhir_validator.specs.declared.fault.Fault.TheVariants as faults;

use fhir_elements::Reason;
use fhir_json::{JsonFault, NoMemory};
use std::fmt;

/// Why there is no verdict. A fault of the profile comes before one of the bytes.
#[derive(Clone, Copy, Debug, PartialEq, Eq)]
pub enum Fault {
    /// The package has no definition at the url.
    Missing,
    /// That definition can't be used, for this reason.
    Unusable(Reason),
    /// The bytes are no text of JSON, for this reason.
    NotJson(JsonFault),
    /// A growth of memory was refused.
    NoMemory,
}

impl fmt::Display for Fault {
    fn fmt<W: fmt::Write>(&self, f: &mut fmt::Formatter<W>) -> fmt::Result {
        match self {
            Fault::Missing => f.write_str("V1"),
            Fault::Unusable(reason) => write!(f, "V2 {reason}"),
            Fault::NotJson(fault) => write!(f, "V3 {fault}"),
            Fault::NoMemory => f.write_str("V4"),
        }
    }
}

impl From<NoMemory> for Fault {
    ghost from_gives = { λ _ e. e ≡ faults.NoMemory };

    fn from(_error: NoMemory) -> Fault {
        Fault::NoMemory
    }
}
