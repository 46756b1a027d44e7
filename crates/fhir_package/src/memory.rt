//! A folder over memory.

ghost use Rattle.std.specs.Prelude.{◌≡◌, ◌+◌, [], Some, option_map, string_bytes, map, IfOk, IfSome};
ghost use Rattle.std.specs.Option.{option_copied};
ghost use Rattle.std.specs.List.{slice_get};
ghost use Rattle.std.specs.Map.{keys_of, lookup};
ghost use Rattle.std.specs.Str.{bytes_eq};
ghost use Rattle.fhir_names.specs.Places.{Finds};
ghost use Rattle.fhir_package.specs.Folder.{failures_in, failed};
ghost use Rattle.fhir_package.specs.Memory.{given_bytes, memory_file, memory_files, listed, files_of, failures_of};

use crate::folder::{Folder, FolderFault};
use crate::folder_files::FolderFile;
use fhir_json::NoMemory;
use fhir_names::Index;
use std::alloc::{AllocError, Global};
use std::marker::Model;

/// A folder whose files are in memory, or whose listing the device fails to give.
pub struct MemoryFolder {
    files: Option<Vec<FolderFile>>,
    names: Index,
    failures: u64,
}

// A derived drop would be proved anew in each crate that owns one.
impl Drop for MemoryFolder {
    fn drop(self) {
        let MemoryFolder {
            files: _files,
            names: _names,
            failures: _failures,
        } = self;
    }
}

impl Model for MemoryFolder {
    ghost use Rattle.fhir_package.specs.Memory.{FolderValue, listed};

    ghost Value = { FolderValue };

    ghost use Rattle.std.specs.Map.{keys_of};
    ghost use Rattle.fhir_names.specs.Places.{Finds};

    ghost view = { λ m. record { files = listed m.files; failures = m.failures } };

    ghost invariant = { λ m. Finds m.names (keys_of (listed m.files)) };
}

fn index_of(alloc: Global, files: &[FolderFile]) -> Result<Index, AllocError>
    ensures { IfOk result (λ names. Finds names (keys_of (memory_files files.now))) }
{
    let mut names = Index::new(alloc);
    for (place, file) in files.iter().enumerate() {
        names.add(alloc, file.name.as_str(), place)?;
    }
    Ok(names)
}

impl MemoryFolder {
    /// A folder of these files. Of files of one name the first is read. The one refusal is want of memory.
    pub fn new(alloc: Global, files: Vec<FolderFile>) -> Result<MemoryFolder, NoMemory>
        ensures files { IfOk result (λ folder. files_of folder ≡ memory_files files.items) }
        ensures failures { IfOk result (λ folder. failures_of folder ≡ 0) }
    {
        let names = index_of(alloc, &files)?;
        Ok(MemoryFolder {
            files: Some(files),
            names,
            failures: 0,
        })
    }

    /// A folder that the device doesn't list. It has no files, and each listing and each read of it fails.
    pub fn unlisted(alloc: Global) -> MemoryFolder
        ensures files { files_of result ≡ [] }
        ensures failures { failures_of result ≡ 0 }
    {
        MemoryFolder {
            files: None,
            names: Index::new(alloc),
            failures: 0,
        }
    }
}

fn file_at(files: &[FolderFile], place: usize) -> Option<&FolderFile>
    ensures { option_map memory_file (option_copied result) ≡ slice_get (memory_files files.now) place }
{
    files.get(place)
}

fn file_of<'f>(files: &'f [FolderFile], names: &Index, name: &str) -> Option<&'f FolderFile>
    requires { Finds names.now (keys_of (memory_files files.now)) }
    ensures { option_map (λ f. given_bytes f.bytes) (option_copied result)
        ≡ lookup (bytes_eq name.now) (memory_files files.now) }
{
    match names.get(name) {
        Some(place) => file_at(files, place),
        None => None,
    }
}

// The bytes of a name, where the device gives them.
fn bytes_of<'f>(files: &'f Option<Vec<FolderFile>>, names: &Index, name: &str) -> Option<&'f [u8]>
    requires { Finds names.now (keys_of (listed files.now)) }
    ensures { IfSome result (λ bytes. lookup (bytes_eq name.now) (listed files.now) ≡ Some bytes.now) }
{
    let Some(files) = files else {
        return None;
    };
    match file_of(files, names, name) {
        Some(
            FolderFile {
                bytes: Some(bytes),
                ..
            },
        ) => Some(bytes),
        _ => None,
    }
}

fn names_of(alloc: Global, files: &[FolderFile]) -> Result<Vec<String>, FolderFault>
    ensures names { IfOk result (λ v. map string_bytes v.items ≡ keys_of (memory_files files.now)) }
    ensures counted { failed result ≡ 0 }
{
    let mut names = Vec::new(alloc);
    for file in files {
        names.push(file.name.clone()?)?;
    }
    Ok(names)
}

// Counts a failure of the device. A counter that is full can't count one more, and what is blamed on the device has to
// be counted: the call is then refused as if for want of memory, which decides nothing.
fn device_fault(failures: &mut u64) -> FolderFault
    ensures { failures.new ≡ failures.old + failures_in result }
{
    match failures.checked_add(1) {
        Some(more) => {
            *failures = more;
            FolderFault::Device
        }
        None => FolderFault::NoMemory,
    }
}

impl Folder for MemoryFolder {
    ghost use Rattle.fhir_package.specs.Memory.{files_of, failures_of};

    ghost files = { files_of };

    ghost failed_calls = { failures_of };

    fn list(&mut self, alloc: Global) -> Result<Vec<String>, FolderFault> {
        match &self.files {
            Some(files) => names_of(alloc, files),
            None => Err(device_fault(&mut self.failures)),
        }
    }

    fn read(&mut self, alloc: Global, name: &str) -> Result<Vec<u8>, FolderFault> {
        match bytes_of(&self.files, &self.names, name) {
            Some(bytes) => Ok(bytes.to_vec(alloc)?),
            None => Err(device_fault(&mut self.failures)),
        }
    }

    fn failures(&self) -> u64 {
        self.failures
    }
}
