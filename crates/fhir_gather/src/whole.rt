//! From folders to a new folder.

ghost use Rattle.std.specs.Prelude.{◌≡◌, ◌<◌, ◌++◌, [], None, Some, IfOk, IfErr, OnOk, map, length};
ghost use Rattle.std.specs.Option.{option_map};
ghost use Rattle.fhir_new_folder.specs.Folders.{Puts};
ghost use Rattle.fhir_gather.specs.Gathering.{Folders, all_taken};
ghost use Rattle.fhir_gather.specs.Reading.{folders_with_bytes};
ghost use Rattle.fhir_gather.specs.Views.{taken_seen, all_seen};
ghost use Rattle.fhir_gather.specs.FolderViews.{read_folders};
ghost use Rattle.fhir_gather.specs.Written.{file_name, file_text, written};
ghost use Rattle.fhir_gather.specs.Making.{folders_of, with_json_files, AreRead, file_count, IsMade, LoadsFirst, IsAnswer, SaysNothing};

use crate::fault::GatherFault;
use crate::gathered::Gathered;
use crate::gathering::Gathering;
use crate::kept::Kept;
use crate::laws::loads;
use crate::named_folder::{NamedFolder, read_each};
use crate::package_trees::notes_on;
use crate::read_folder::ReadFolder;
use fhir_json::NoMemory;
use fhir_new_folder::NewFolder;
use fhir_package::{Folder, Progress};
use std::alloc::Global;

// How many files folders have.
fn count_files(folders: &[ReadFolder]) -> Result<usize, NoMemory>
    ensures { IfOk result (λ n. n ≡ file_count (folders_with_bytes (read_folders folders.now))) }
{
    let mut count = 0_usize;
    for folder in folders {
        let Some(more) = count.checked_add(folder.files.files().len()) else {
            return Err(NoMemory);
        };
        count = more;
    }
    Ok(count)
}

fn count_folders(folders: &[ReadFolder]) -> usize
    ensures { result ≡ length (read_folders folders.now) }
{
    folders.len()
}

// Writes a definition as the one at a place, of so many.
fn write_one<N: NewFolder>(
    alloc: Global,
    kept: &Kept<'_>,
    count: usize,
    place: usize,
    out: &mut N,
) -> Result<(), GatherFault>
    requires { place < count }
    ensures written { OnOk result (Puts (N.part out.old) (N.part out.new) (file_name count place (taken_seen kept.now)) (file_text (taken_seen kept.now))) }
    ensures whole { N.whole out.new ≡ N.whole out.old }
    ensures refused { IfErr result SaysNothing }
{
    let name = kept.file_name(alloc, count, place)?;
    let text = kept.file_text(alloc)?;
    match out.write(name.as_str(), &text) {
        Ok(()) => Ok(()),
        Err(fault) => Err(GatherFault::of_write(fault, Some(name))),
    }
}

// Writes definitions, one after the other.
fn write_each<N: NewFolder>(
    alloc: Global,
    kept: &[Kept<'_>],
    out: &mut N,
) -> Result<(), GatherFault>
    ensures written { OnOk result (N.part out.new ≡ option_map (λ files. files ++ written (all_seen kept.now)) (N.part out.old)) }
    ensures whole { N.whole out.new ≡ N.whole out.old }
    ensures refused { IfErr result SaysNothing }
{
    for (place, one) in kept.iter().enumerate() {
        write_one(alloc, one, kept.len(), place, out)?;
    }
    Ok(())
}

// Writes what is gathered of folders that were read into the part of a new folder, which is begun.
fn gather_read<N: NewFolder, P: Progress>(
    alloc: Global,
    folders: &[ReadFolder],
    out: &mut N,
    progress: &mut P,
) -> Result<Gathered, GatherFault>
    requires { N.part out.old ≡ Some [] }
    ensures made { (xs : Folders) → AreRead xs (read_folders folders.now) → IfOk result (IsMade (map with_json_files xs) (N.part out.new)) }
    ensures whole { N.whole out.new ≡ N.whole out.old }
    ensures refused { (xs : Folders) → AreRead xs (read_folders folders.now) → IfErr result (λ fault. IsAnswer fault (all_taken (map with_json_files xs))) }
{
    let gathering = Gathering::of(alloc, folders, progress)?;
    write_each(alloc, gathering.kept(), out)?;
    let notes = notes_on(alloc, folders)?;
    let told = gathering.told(count_folders(folders), count_files(folders)?, notes)?;
    Ok(told)
}

// Writes what is gathered of folders into the part of a new folder, which is begun.
fn gather_into<F: Folder + Drop, N: NewFolder, P: Progress>(
    alloc: Global,
    folders: Vec<NamedFolder<F>>,
    out: &mut N,
    progress: &mut P,
) -> Result<Gathered, GatherFault>
    requires { N.part out.old ≡ Some [] }
    ensures made { IfOk result (IsMade (folders_of F.files folders.items) (N.part out.new)) }
    ensures whole { N.whole out.new ≡ N.whole out.old }
    ensures refused { IfErr result (λ fault. IsAnswer fault (all_taken (folders_of F.files folders.items))) }
{
    let read = read_each(alloc, folders)?;
    gather_read(alloc, &read, out, progress)
}

/// Gathers the definitions of folders, in their order, into the part of a new folder: of each kind and url the first, each in a file of
/// its own. Whoever calls it finishes the new folder, or abandons it. The folders' JSON files are read as a package's are: a
/// StructureDefinition, ValueSet or CodeSystem with a text `url` is taken, a Bundle gives the `resource` of each `entry`, and every other
/// tree is passed over. How many files of a folder are looked through is told to `progress`.
///
/// The new folder is begun first, and so one that is there is refused before a folder is read. Then the faults come in this order: a
/// folder that isn't listed, a file that isn't given, a file that is no JSON, a file that isn't written. Behind each of them the new
/// folder is abandoned.
pub fn gather<F: Folder + Drop, N: NewFolder, P: Progress>(
    alloc: Global,
    folders: Vec<NamedFolder<F>>,
    out: &mut N,
    progress: &mut P,
) -> Result<Gathered, GatherFault>
    // What is written is kept of all definitions in the folders, and what is told is of these.
    ensures made { IfOk result (IsMade (folders_of F.files folders.items) (N.part out.new)) }
    // It loads, and has of each kind and url the first definition that stands in the folders.
    ensures loads { OnOk result (LoadsFirst (folders_of F.files folders.items) (N.part out.new)) }
    // What stands under the new folder's name is as before: where all is written, nothing.
    ensures new { OnOk result (N.whole out.old ≡ None) }
    ensures whole { N.whole out.new ≡ N.whole out.old }
    // A file that is told to be no JSON is the first of these.
    ensures refused { IfErr result (λ fault. IsAnswer fault (all_taken (folders_of F.files folders.items))) }
{
    out.begin()?;
    match gather_into(alloc, folders, out, progress) {
        Ok(told) => {
            loads();
            Ok(told)
        }
        Err(fault) => {
            let _abandoned = out.abandon();
            Err(fault)
        }
    }
}
