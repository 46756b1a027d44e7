//! From a folder to its package.

ghost use Rattle.std.specs.Prelude.{◌≡◌, Some};
ghost use Rattle.fhir_package.specs.Packing.{pack};
ghost use Rattle.fhir_package.specs.Surveying.{survey};
ghost use Rattle.fhir_package.specs.SurveyView.{fault_seen};
ghost use Rattle.fhir_package.specs.Faults.{IsPacked, CountsLoading, Tells, IsLoaded};

use crate::fault::LoadFault;
use crate::folder::{Folder, FolderFault};
use crate::folder_files::FolderFiles;
use crate::package::Package;
use crate::progress::Silent;
use crate::survey::{FileFault, Survey};
use std::alloc::Global;

// The fault of a loading that tells one of a file.
fn load_fault(alloc: Global, fault: &FileFault<'_>) -> LoadFault
    ensures { Tells result (Some (fault_seen fault.now)) }
{
    let Ok(subject) = String::from_str(alloc, fault.subject()) else {
        return LoadFault::NoMemory;
    };
    match fault {
        FileFault::Unreadable(_) => LoadFault::Unreadable(subject),
        FileFault::NotJson(_) => LoadFault::NotJson(subject),
        FileFault::Clash(_) => LoadFault::Clash(subject),
    }
}

// The package that files are, in memory of its own.
fn load_files(alloc: Global, files: &FolderFiles) -> Result<Package<'static>, LoadFault>
    ensures { IsLoaded result (survey files.now) }
{
    let survey = Survey::of(alloc, files, &mut Silent)?;
    match survey.refusal() {
        Some(fault) => Err(load_fault(alloc, fault)),
        None => Ok(survey.package().detach(alloc)?),
    }
}

/// The package that a folder is, in memory of its own: that of its `FolderFiles`, of which a [`Survey`] finds nothing wrong. The
/// refusals are those of `LoadFault`.
///
/// A StructureDefinition, ValueSet or CodeSystem with a text `url` is taken; a Bundle gives the `resource` of each `entry`;
/// every other tree is passed over. Equal trees of one kind and url are one definition.
pub fn load<F: Folder>(alloc: Global, folder: &mut F) -> Result<Package<'static>, LoadFault>
    // The package is the folder's, or the refusal is, unless the device failed or memory ran out.
    ensures packed { IsPacked result (pack (F.files folder.old)) }
    ensures files { F.files folder.new ≡ F.files folder.old }
    // The device is blamed exactly where it failed in this call.
    ensures counted { CountsLoading (F.failed_calls folder.old) (F.failed_calls folder.new) result }
{
    match FolderFiles::read(alloc, folder) {
        Ok(files) => load_files(alloc, &files),
        Err(FolderFault::Device) => Err(LoadFault::Unlisted),
        Err(FolderFault::NoMemory) => Err(LoadFault::NoMemory),
    }
}
