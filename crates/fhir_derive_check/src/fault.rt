//! Why nothing is derived.

ghost use Rattle.std.specs.Prelude.{◌≡◌};
ghost use Rattle.fhir_derive_check.specs.declared.fault.DeriveFault.TheVariants as faults;

use fhir_json::NoMemory;
use std::fmt;

/// One of the two profiles.
#[derive(Clone, Copy, Debug, PartialEq, Eq)]
pub enum Side {
    /// The derived one.
    Derived,
    /// Its base.
    Base,
}

/// Why nothing is derived. `Display` prints the number alone.
#[derive(Clone, Copy, Debug, PartialEq, Eq)]
pub enum DeriveFault {
    /// `D1`: no definition of that profile's url is there. It is the first of the two of which that is so.
    Missing(Side),
    /// `D2`: that profile's definition can't be used. It is the first of the two of which that is so.
    Unusable(Side),
    /// `D3`: memory ran out, which decides nothing.
    NoMemory,
}

impl fmt::Display for DeriveFault {
    fn fmt<W: fmt::Write>(&self, f: &mut fmt::Formatter<W>) -> fmt::Result {
        f.write_str(match self {
            DeriveFault::Missing(_) => "D1",
            DeriveFault::Unusable(_) => "D2",
            DeriveFault::NoMemory => "D3",
        })
    }
}

impl From<NoMemory> for DeriveFault {
    ghost from_gives = { λ _ e. e ≡ faults.NoMemory };

    fn from(_error: NoMemory) -> DeriveFault {
        DeriveFault::NoMemory
    }
}
