//! What a folder in the making is.

ghost use Rattle.std.specs.Prelude.{◌≡◌, ◌≢◌, ℕ, List, [], Option, None, Some, IsSome, OnOk, OnErr};
ghost use Rattle.std.specs.IoError.{error_kind};
ghost use Rattle.std.specs.declared.io.ErrorKind.TheVariants as kinds;
ghost use Rattle.fhir_new_folder.specs.declared.new_folder.WriteFault.TheVariants as faults;
ghost use Rattle.fhir_new_folder.specs.Folders.{Puts};

use std::alloc::{AllocError, AllocFailed};
use std::io;
use std::io::ErrorKind;

/// Why the making of a folder isn't begun.
#[derive(Clone, Copy, Debug, PartialEq, Eq)]
pub enum BeginFault {
    /// Something stands under the folder's name, be it an empty folder or a file.
    Exists,
    /// Something stands under the part's name, left behind by another run maybe.
    Left,
    /// The device failed.
    Device,
}

/// Why a folder in the making isn't written, finished or abandoned.
#[derive(Clone, Copy, Debug, PartialEq, Eq)]
pub enum WriteFault {
    /// The device failed. A part that is missing, and a name that is taken, are such failures.
    Device,
    /// A growth of memory was refused.
    NoMemory,
}

impl From<AllocError> for WriteFault {
    ghost from_gives = { λ _ fault. fault ≡ faults.NoMemory };

    fn from(_error: AllocError) -> WriteFault {
        WriteFault::NoMemory
    }
}

impl<T: Drop> From<AllocFailed<T>> for WriteFault {
    ghost from_gives = { λ _ fault. fault ≡ faults.NoMemory };

    fn from(_error: AllocFailed<T>) -> WriteFault {
        WriteFault::NoMemory
    }
}

impl From<io::Error> for WriteFault {
    ghost from_gives = { λ e fault. (error_kind e ≡ kinds.OutOfMemory → fault ≡ faults.NoMemory)
        × (error_kind e ≢ kinds.OutOfMemory → fault ≡ faults.Device) };

    fn from(error: io::Error) -> WriteFault {
        if error.kind() == ErrorKind::OutOfMemory {
            WriteFault::NoMemory
        } else {
            WriteFault::Device
        }
    }
}

/// A folder that is made whole or not at all: its files are written to a part beside it, which takes the folder's name at the end.
/// It is begun, its files are written, and then it is finished or abandoned. A failed write or finish may leave the part in any
/// state; what stands under the folder's name it never changes.
pub trait NewFolder {
    /// The files of what stands under the folder's name, if anything does.
    ghost whole: { Self → Option (List (List ℕ × List ℕ)) };

    /// The files of what stands under the part's name, if anything does.
    ghost part: { Self → Option (List (List ℕ × List ℕ)) };

    /// Makes the part, without files. It is refused where something stands under one of the two names.
    fn begin(&mut self) -> Result<(), BeginFault>
        ensures no_whole { OnOk result (whole self.old ≡ None) }
        ensures no_part { OnOk result (part self.old ≡ None) }
        ensures begun { OnOk result (part self.new ≡ Some []) }
        ensures unchanged { OnErr result (part self.new ≡ part self.old) }
        ensures whole { whole self.new ≡ whole self.old };

    /// Writes a file into the part, behind those that are there, and syncs it. The caller gives a name that no file there has.
    fn write(&mut self, name: &str, bytes: &[u8]) -> Result<(), WriteFault>
        ensures written { OnOk result (Puts (part self.old) (part self.new) name.now bytes.now) }
        ensures whole { whole self.new ≡ whole self.old };

    /// Syncs the part, and gives it the folder's name. It is refused where something stands under that.
    fn finish(&mut self) -> Result<(), WriteFault>
        ensures no_whole { OnOk result (whole self.old ≡ None) }
        ensures a_part { OnOk result (IsSome (part self.old)) }
        ensures finished { OnOk result (whole self.new ≡ part self.old) }
        ensures no_part { OnOk result (part self.new ≡ None) }
        ensures unfinished { OnErr result (whole self.new ≡ whole self.old) };

    /// Takes the part away with its files.
    fn abandon(&mut self) -> Result<(), WriteFault>
        ensures no_part { OnOk result (part self.new ≡ None) }
        ensures whole { whole self.new ≡ whole self.old };
}
