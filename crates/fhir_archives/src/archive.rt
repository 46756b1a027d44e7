//! Archives: folders that a published package was unpacked to.

ghost use Rattle.std.specs.Prelude.{◌≡◌, ◌++◌, ◌∷◌, [], map, filter_map, OnOk, IfOk};
ghost use Rattle.std.specs.Option.{option_map};
ghost use Rattle.fhir_archives.specs.Archives.{named, all_named, dependencies_of};
ghost use Rattle.fhir_archives.specs.Views.{archive_seen, named_seen, dependency_seen};

use crate::table::Named;
use fhir_json::{Json, Member, NoMemory};
use std::alloc::Global;

/// A `package.json` of a published archive, and the name of the folder that has it.
#[derive(Clone, Copy)]
pub struct PackageJson<'t, 'j> {
    /// The folder's name.
    pub folder: &'t str,
    /// The tree that the file is.
    pub json: &'t Json<'j>,
}

/// The archive with its name, if it has one.
pub(crate) fn named<'t>(archive: &PackageJson<'t, '_>) -> Option<Named<'t>>
    ensures { option_map named_seen result ≡ named (archive_seen archive.now) }
{
    let name = archive.json.text_in("name")?;
    Some(Named {
        folder: archive.folder,
        name,
        version: archive.json.text_in("version"),
    })
}

fn put_named<'t>(archive: &PackageJson<'t, '_>, all: &mut Vec<Named<'t>>) -> Result<(), NoMemory>
    ensures { OnOk result (map named_seen all.new.items ≡ map named_seen all.old.items ++ filter_map named (archive_seen archive.now ∷ [])) }
{
    if let Some(named) = named(archive) {
        all.push(named)?;
    }
    Ok(())
}

/// Those that have a name, in their order.
pub(crate) fn all_named<'t>(
    alloc: Global,
    archives: &[PackageJson<'t, '_>],
) -> Result<Vec<Named<'t>>, NoMemory>
    ensures { IfOk result (λ v. map named_seen v.items ≡ all_named (map archive_seen archives.now)) }
{
    let mut all = Vec::new(alloc);
    for archive in archives {
        put_named(archive, &mut all)?;
    }
    Ok(all)
}

/// What an archive depends on, in the order of the object.
pub(crate) fn dependencies<'t, 'j>(archive: &PackageJson<'t, 'j>) -> &'t [Member<'j>]
    ensures { map dependency_seen result.now ≡ dependencies_of (archive_seen archive.now) }
{
    match archive.json.field("dependencies") {
        Some(value) => value.members(),
        None => Default::default(),
    }
}
