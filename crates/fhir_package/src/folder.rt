//! What a folder is.

ghost use Rattle.std.specs.Prelude.{◌≡◌, ◌+◌, ℕ, List, Some, map, string_bytes, IfOk};
ghost use Rattle.std.specs.Map.{keys_of, lookup};
ghost use Rattle.std.specs.Str.{bytes_eq};
ghost use Rattle.fhir_package.specs.declared.folder.FolderFault.TheVariants as faults;
ghost use Rattle.fhir_package.specs.Folder.{failed};

use fhir_json::NoMemory;
use std::alloc::Global;

/// Why a folder gave nothing.
#[derive(Clone, Copy, Debug, PartialEq, Eq)]
pub enum FolderFault {
    /// The device failed; a file that the folder doesn't have is such a failure.
    Device,
    /// A growth of memory was refused.
    NoMemory,
}

// Whatever becomes want of memory.
impl<E: Drop> From<E> for FolderFault
where
    NoMemory: From<E>,
{
    ghost from_gives = { λ _ e. e ≡ faults.NoMemory };

    fn from(_error: E) -> FolderFault {
        FolderFault::NoMemory
    }
}

/// A folder of files: a list of names with bytes, which no call changes.
pub trait Folder {
    /// The names with their bytes.
    ghost files: { Self → List (List ℕ × List ℕ) };

    /// How many calls the device has failed.
    ghost failed_calls: { Self → ℕ };

    /// The names.
    fn list(&mut self, alloc: Global) -> Result<Vec<String>, FolderFault>
        ensures names { IfOk result (λ v. map string_bytes v.items ≡ keys_of (files self.old)) }
        ensures files { files self.new ≡ files self.old }
        ensures counted { failed_calls self.new ≡ failed_calls self.old + failed result };

    /// The bytes of a file.
    fn read(&mut self, alloc: Global, name: &str) -> Result<Vec<u8>, FolderFault>
        ensures bytes { IfOk result (λ v. lookup (bytes_eq name.now) (files self.old) ≡ Some v.items) }
        ensures files { files self.new ≡ files self.old }
        ensures counted { failed_calls self.new ≡ failed_calls self.old + failed result };

    /// How many calls the device has failed.
    fn failures(&self) -> u64
        ensures { result ≡ failed_calls self.now };
}
