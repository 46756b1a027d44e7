//! Why bytes are not taken as a certificate.

ghost use Rattle.std.specs.Prelude.{◌≡◌};
ghost use Rattle.fhir_certificate.specs.declared.fault.CertFault.TheVariants as faults;
ghost use Rattle.fhir_certificate.specs.Faults.{cert_number};

use fhir_json::NoMemory;
use thiserror::Error;

/// Why bytes are not taken as a certificate: the first that applies.
#[derive(Clone, Copy, Debug, PartialEq, Eq, Error)]
#[error("{}", self.number())]
pub enum CertFault {
    /// `C1`: the bytes are not the text of a certificate.
    WrongFormat,
    /// `C2`: a definition is missing or can't be used, or an element is not its definition's.
    UnknownNode,
    /// `C3`: there are more than 16,777,216 pair lines.
    TooManyPairs,
    /// `C4`: a growth of memory was refused.
    NoMemory,
    /// `C5`: the version of a definition that is written isn't the one that it has.
    OtherVersion,
}

impl CertFault {
    /// The number that `Display` prints.
    pub fn number(&self) -> &'static str
        ensures { result.now ≡ cert_number self.now }
    {
        match self {
            CertFault::WrongFormat => "C1",
            CertFault::UnknownNode => "C2",
            CertFault::TooManyPairs => "C3",
            CertFault::NoMemory => "C4",
            CertFault::OtherVersion => "C5",
        }
    }
}

// Whatever becomes want of memory.
impl<E: Drop> From<E> for CertFault
where
    NoMemory: From<E>,
{
    ghost from_gives = { λ _ e. e ≡ faults.NoMemory };

    fn from(_error: E) -> CertFault {
        CertFault::NoMemory
    }
}
