//! Folders that are read, with their names.

ghost use Rattle.std.specs.Prelude.{◌≡◌, IfOk, IfErr, string_bytes};
ghost use Rattle.fhir_gather.specs.FolderViews.{read_folder, read_folders};
ghost use Rattle.fhir_gather.specs.Making.{named_files, IsRead, AreRead, SaysNothing};

use crate::fault::GatherFault;
use crate::read_folder::ReadFolder;
use fhir_package::{Folder, FolderFault, FolderFiles};
use std::alloc::Global;

/// A folder and its name.
#[derive(Drop)]
pub struct NamedFolder<F> {
    /// The name by which it is told of.
    pub name: String,
    /// The folder.
    pub folder: F,
}

// Reads a folder, and lets it go.
fn read_folder<F: Folder + Drop>(
    alloc: Global,
    named: NamedFolder<F>,
) -> Result<ReadFolder, GatherFault>
    ensures read { IfOk result (λ r. IsRead (string_bytes named.name, F.files named.folder) (read_folder r)) }
    ensures refused { IfErr result SaysNothing }
{
    let NamedFolder { name, mut folder } = named;
    match FolderFiles::read(alloc, &mut folder) {
        Ok(files) => Ok(ReadFolder { name, files }),
        Err(FolderFault::Device) => Err(GatherFault::Unlisted { folder: name }),
        Err(FolderFault::NoMemory) => Err(GatherFault::NoMemory),
    }
}

/// Reads folders, one after the other, each of which is let go before the next is read.
pub(crate) fn read_each<F: Folder + Drop>(
    alloc: Global,
    folders: Vec<NamedFolder<F>>,
) -> Result<Vec<ReadFolder>, GatherFault>
    ensures read { IfOk result (λ read. AreRead (named_files F.files folders.items) (read_folders read.items)) }
    ensures refused { IfErr result SaysNothing }
{
    let mut read = Vec::new(alloc);
    for folder in folders {
        let folder = read_folder(alloc, folder)?;
        read.push(folder)?;
    }
    Ok(read)
}
