//! The files of a folder that a package is made of.

ghost use Rattle.std.specs.Prelude.{◌≡◌, ◌+◌, ◌≤◌, [], ◌∷◌, map, length, string_bytes, All, IfOk};
ghost use Rattle.std.specs.Map.{keys_of};
ghost use Rattle.fhir_package.specs.Packing.{is_json_name, json_names};
ghost use Rattle.fhir_package.specs.ReadFiles.{IsFrom, unreadable_names, CountsReading};
ghost use Rattle.fhir_package.specs.FilesView.{folder_file, folder_files};

use crate::folder::{Folder, FolderFault};
use fhir_json::NoMemory;
use std::alloc::Global;
use std::collections::BTreeSet;
use std::marker::Model;

/// A file of a folder: its name, and its bytes, or none where the device doesn't give them.
#[derive(Drop)]
pub struct FolderFile {
    /// The name.
    pub name: String,
    /// The bytes, if the device gives them.
    pub bytes: Option<Vec<u8>>,
}

/// The files of a folder whose names end in `.json`, in the order of their names' bytes, each name once.
pub struct FolderFiles {
    files: Vec<FolderFile>,
}

// A derived drop would be proved anew in each crate that owns one.
impl Drop for FolderFiles {
    fn drop(self) {
        let FolderFiles { files: _files } = self;
    }
}

impl Model for FolderFiles {
    ghost use Rattle.fhir_package.specs.ReadFiles.{ReadFiles};
    ghost use Rattle.fhir_package.specs.FilesView.{folder_files};

    ghost Value = { ReadFiles };

    ghost view = { λ f. folder_files f.files.items };
}

/// Whether a name ends in `.json`.
pub fn is_json_name(name: &str) -> bool
    ensures { result ≡ is_json_name name.now }
{
    name.as_bytes().ends_with(b".json")
}

// The names that end in `.json`, in the order of their bytes.
fn json_names(alloc: Global, names: Vec<String>) -> Result<BTreeSet<String>, NoMemory>
    ensures { IfOk result (λ s. map string_bytes s.keys ≡ json_names (map string_bytes names.items)) }
{
    let mut ordered = BTreeSet::new(alloc);
    for name in names {
        if is_json_name(name.as_str()) {
            ordered.insert(name)?;
        }
    }
    Ok(ordered)
}

// Reads a file, without its bytes where the device doesn't give them.
fn read_file<F: Folder>(alloc: Global, folder: &mut F, name: String) -> Result<FolderFile, NoMemory>
    ensures name { IfOk result (λ f. (folder_file f).0 ≡ string_bytes name) }
    ensures bytes { IfOk result (λ f. IsFrom (F.files folder.old) (folder_file f)) }
    ensures files { F.files folder.new ≡ F.files folder.old }
    ensures counted { IfOk result (λ f. F.failed_calls folder.new ≡ F.failed_calls folder.old + length (unreadable_names (folder_file f ∷ []))) }
    ensures none_forgotten { F.failed_calls folder.old ≤ F.failed_calls folder.new }
{
    match folder.read(alloc, name.as_str()) {
        Ok(bytes) => Ok(FolderFile {
            name,
            bytes: Some(bytes),
        }),
        Err(FolderFault::Device) => Ok(FolderFile { name, bytes: None }),
        Err(FolderFault::NoMemory) => Err(NoMemory),
    }
}

impl FolderFiles {
    /// Reads them from a folder, and goes on behind a file that the device doesn't give. The one fault of the device that ends the
    /// reading is that of the listing.
    pub fn read<F: Folder>(alloc: Global, folder: &mut F) -> Result<FolderFiles, FolderFault>
        ensures names { IfOk result (λ f. keys_of f ≡ json_names (keys_of (F.files folder.old))) }
        ensures bytes { IfOk result (All (IsFrom (F.files folder.old))) }
        ensures files { F.files folder.new ≡ F.files folder.old }
        ensures counted { CountsReading (F.failed_calls folder.old) (F.failed_calls folder.new) result }
    {
        let names = folder.list(alloc)?;
        let mut files = Vec::new(alloc);
        for name in json_names(alloc, names)? {
            let file = read_file(alloc, folder, name)?;
            files.push(file)?;
        }
        Ok(FolderFiles { files })
    }

    /// The files, in their order.
    pub fn files(&self) -> &[FolderFile]
        ensures { folder_files result.now ≡ self.now }
    {
        &self.files
    }
}
