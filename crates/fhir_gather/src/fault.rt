//! Why nothing is gathered.

ghost use Rattle.std.specs.Prelude.{◌≡◌};
ghost use Rattle.fhir_gather.specs.declared.fault.GatherFault.TheVariants as faults;

use fhir_json::NoMemory;
use fhir_new_folder::{BeginFault, WriteFault};
use std::alloc::{AllocError, AllocFailed};

/// Why nothing is gathered.
#[derive(Debug, Drop)]
pub enum GatherFault {
    /// The folder that is to be made is there.
    Exists,
    /// A part of it was left behind by another run.
    Left,
    /// The device doesn't list a folder.
    Unlisted {
        /// The name of the folder.
        folder: String,
    },
    /// The device doesn't give a file.
    Unreadable {
        /// The name of its folder.
        folder: String,
        /// The name of the file.
        file: String,
    },
    /// A file is no JSON text.
    NotJson {
        /// The name of its folder.
        folder: String,
        /// The name of the file.
        file: String,
    },
    /// The device doesn't take a file, or else the folder that is to be made.
    Unwritten {
        /// The name of the file; none of the folder itself.
        name: Option<String>,
    },
    /// A growth of memory was refused.
    NoMemory,
}

impl From<NoMemory> for GatherFault {
    ghost from_gives = { λ _ e. e ≡ faults.NoMemory };

    fn from(_error: NoMemory) -> GatherFault {
        GatherFault::NoMemory
    }
}

impl From<AllocError> for GatherFault {
    ghost from_gives = { λ _ e. e ≡ faults.NoMemory };

    fn from(_error: AllocError) -> GatherFault {
        GatherFault::NoMemory
    }
}

impl<T: Drop> From<AllocFailed<T>> for GatherFault {
    ghost from_gives = { λ _ e. e ≡ faults.NoMemory };

    fn from(_error: AllocFailed<T>) -> GatherFault {
        GatherFault::NoMemory
    }
}

impl From<BeginFault> for GatherFault {
    ghost use Rattle.fhir_gather.specs.Faults.{begin_fault};
    ghost use Rattle.fhir_gather.specs.Making.{SaysNothing};

    ghost from_gives = { λ fault e. (e ≡ begin_fault fault) × SaysNothing e };

    fn from(fault: BeginFault) -> GatherFault {
        match fault {
            BeginFault::Exists => GatherFault::Exists,
            BeginFault::Left => GatherFault::Left,
            BeginFault::Device => GatherFault::Unwritten { name: None },
        }
    }
}

impl GatherFault {
    ghost use Rattle.fhir_gather.specs.Faults.{write_fault};
    ghost use Rattle.fhir_gather.specs.Making.{SaysNothing};

    /// The fault of a file that isn't written, by its name, or of the folder itself.
    pub fn of_write(fault: WriteFault, name: Option<String>) -> GatherFault
        ensures fault { result ≡ write_fault fault name }
        ensures nothing { SaysNothing result }
    {
        match fault {
            WriteFault::Device => GatherFault::Unwritten { name },
            WriteFault::NoMemory => GatherFault::NoMemory,
        }
    }
}
