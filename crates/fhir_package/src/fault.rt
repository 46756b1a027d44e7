//! Why a folder could not be loaded.

ghost use Rattle.std.specs.Prelude.{◌≡◌};
ghost use Rattle.fhir_package.specs.declared.fault.LoadFault.TheVariants as faults;
ghost use Rattle.fhir_package.specs.Faults.{load_number};

use fhir_json::NoMemory;
use thiserror::Error;

/// Why a folder could not be loaded: the first fault of the device, or else the first in the order of the files.
#[derive(Debug, Drop, Error)]
pub enum LoadFault {
    /// The device did not list the folder.
    #[error("{}", self.number())]
    Unlisted,
    /// The device did not give the file of this name.
    #[error("{number} {0}", number = self.number())]
    Unreadable(String),
    /// The file of this name is no JSON text.
    #[error("{number} {0}", number = self.number())]
    NotJson(String),
    /// Two different definitions are of one kind and this url.
    #[error("{number} {0}", number = self.number())]
    Clash(String),
    /// A growth of memory was refused.
    #[error("{}", self.number())]
    NoMemory,
}

impl LoadFault {
    /// The number that `Display` prints, before the name or the url.
    pub fn number(&self) -> &'static str
        ensures { result.now ≡ load_number self.now }
    {
        match self {
            LoadFault::Unreadable(_) | LoadFault::Unlisted => "P1",
            LoadFault::NotJson(_) => "P2",
            LoadFault::Clash(_) => "P3",
            LoadFault::NoMemory => "P4",
        }
    }
}

impl From<NoMemory> for LoadFault {
    ghost from_gives = { λ _ e. e ≡ faults.NoMemory };

    fn from(_error: NoMemory) -> LoadFault {
        LoadFault::NoMemory
    }
}
