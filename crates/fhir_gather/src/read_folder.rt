//! Folders that were read.

ghost use Rattle.std.specs.Prelude.{◌≡◌};
ghost use Rattle.std.specs.Option.{option_map};
ghost use Rattle.fhir_package.specs.FilesView.{folder_file, folder_files};
ghost use Rattle.fhir_gather.specs.Reading.{first_unread_name, first_unread, with_bytes};
ghost use Rattle.fhir_gather.specs.FolderViews.{file_seen, read_folders};

use fhir_package::{FolderFile, FolderFiles};

/// A folder that was read.
#[derive(Drop)]
pub struct ReadFolder {
    /// The name of the folder.
    pub name: String,
    /// Its JSON files.
    pub files: FolderFiles,
}

/// The names of a folder and of a file in it.
#[derive(Clone, Copy)]
pub(crate) struct FileAt<'f> {
    pub(crate) folder: &'f str,
    pub(crate) file: &'f str,
}

// The name of the first file without bytes.
fn first_unread_name(files: &[FolderFile]) -> Option<&str>
    ensures { option_map (λ r. r.now) result ≡ first_unread_name (folder_files files.now) }
{
    for file in files {
        if file.bytes.is_none() {
            return Some(file.name.as_str());
        }
    }
    None
}

/// The first file without bytes.
pub(crate) fn first_unread(folders: &[ReadFolder]) -> Option<FileAt<'_>>
    ensures { option_map file_seen result ≡ first_unread (read_folders folders.now) }
{
    for folder in folders {
        if let Some(file) = first_unread_name(folder.files.files()) {
            return Some(FileAt {
                folder: folder.name.as_str(),
                file,
            });
        }
    }
    None
}

/// The bytes of a file; none where it has none.
pub(crate) fn bytes_of(file: &FolderFile) -> &[u8]
    ensures { result.now ≡ (with_bytes (folder_file file.now)).1 }
{
    match &file.bytes {
        Some(bytes) => bytes,
        None => Default::default(),
    }
}
