//! The files `package.json` of folders.

ghost use Rattle.std.specs.Prelude.{◌≡◌, ◌++◌, ◌∷◌, [], map, option_map, filter_map, IfOk, OnOk};
ghost use Rattle.fhir_archives.specs.Archives.{notes};
ghost use Rattle.fhir_archives.specs.Views.{archive_seen, note_seen};
ghost use Rattle.fhir_package.specs.FilesView.{folder_file, folder_files};
ghost use Rattle.fhir_gather.specs.FolderViews.{read_folder, read_folders};
ghost use Rattle.fhir_gather.specs.PackageTrees.{bytes_named, package_tree, package_trees, package_seen};

use crate::read_folder::ReadFolder;
use fhir_archives::{Note, PackageJson, notes};
use fhir_json::{Json, JsonFault, NoMemory, read};
use fhir_package::FolderFile;
use std::alloc::Global;

/// The tree of a folder's file `package.json`, and the folder's name.
#[derive(Drop)]
pub struct PackageTree<'f> {
    /// The folder's name.
    pub folder: &'f str,
    /// The tree.
    pub json: Json<'f>,
}

fn given_bytes(file: &FolderFile) -> Option<&[u8]>
    ensures { option_map (λ r. r.now) result ≡ (folder_file file.now).1 }
{
    match &file.bytes {
        Some(bytes) => Some(bytes),
        None => None,
    }
}

// The bytes of a file, if there is one of that name and they are given.
fn bytes_named<'f>(files: &'f [FolderFile], name: &str) -> Option<&'f [u8]>
    ensures { option_map (λ r. r.now) result ≡ bytes_named name.now (folder_files files.now) }
{
    for file in files {
        if name == file.name.as_str() {
            return given_bytes(file);
        }
    }
    None
}

// The tree of a folder's file, if it has one that is JSON.
fn package_tree<'f>(
    alloc: Global,
    folder: &'f ReadFolder,
) -> Result<Option<PackageTree<'f>>, NoMemory>
    ensures { IfOk result (λ tree. option_map package_seen tree ≡ package_tree (read_folder folder.now)) }
{
    let Some(bytes) = bytes_named(folder.files.files(), "package.json") else {
        return Ok(None);
    };
    match read(alloc, bytes) {
        Ok(json) => Ok(Some(PackageTree {
            folder: folder.name.as_str(),
            json,
        })),
        Err(JsonFault::NoMemory) => Err(NoMemory),
        Err(_) => Ok(None),
    }
}

fn put_tree<'f>(
    alloc: Global,
    folder: &'f ReadFolder,
    all: &mut Vec<PackageTree<'f>>,
) -> Result<(), NoMemory>
    ensures { OnOk result (map package_seen all.new.items ≡ map package_seen all.old.items ++ filter_map package_tree (read_folder folder.now ∷ [])) }
{
    if let Some(tree) = package_tree(alloc, folder)? {
        all.push(tree)?;
    }
    Ok(())
}

/// The trees of the files `package.json`, of each folder that has one that is JSON, in the order of the folders. The one refusal is want
/// of memory.
pub fn trees_of_packages(
    alloc: Global,
    folders: &[ReadFolder],
) -> Result<Vec<PackageTree<'_>>, NoMemory>
    ensures { IfOk result (λ v. map package_seen v.items ≡ package_trees (read_folders folders.now)) }
{
    let mut all = Vec::new(alloc);
    for folder in folders {
        put_tree(alloc, folder, &mut all)?;
    }
    Ok(all)
}

fn archives_of<'t, 'f>(
    alloc: Global,
    trees: &'t [PackageTree<'f>],
) -> Result<Vec<PackageJson<'t, 'f>>, NoMemory>
    ensures { IfOk result (λ v. map archive_seen v.items ≡ map package_seen trees.now) }
{
    let mut archives: Vec<PackageJson<'t, 'f>> = Vec::new(alloc);
    for tree in trees {
        archives.push(PackageJson {
            folder: tree.folder,
            json: &tree.json,
        })?;
    }
    Ok(archives)
}

/// What is noted of the files `package.json` of folders. The one refusal is want of memory.
pub(crate) fn notes_on(alloc: Global, folders: &[ReadFolder]) -> Result<Vec<Note>, NoMemory>
    ensures { IfOk result (λ v. map note_seen v.items ≡ notes (package_trees (read_folders folders.now))) }
{
    let trees = trees_of_packages(alloc, folders)?;
    notes(alloc, &archives_of(alloc, &trees)?)
}
