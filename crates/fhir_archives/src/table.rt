//! The archives that have a name, looked up by it.

ghost use Rattle.std.specs.Prelude.{◌≡◌, ◌||◌, ◌&&◌, None, is_some, map, string_bytes, OnOk, IfOk};
ghost use Rattle.std.specs.Option.{option_map, option_copied};
ghost use Rattle.std.specs.List.{slice_get};
ghost use Rattle.std.specs.Str.{bytes_eq};
ghost use Rattle.std.specs.Ordering.{nat_cmp};
ghost use Rattle.std.specs.Cmp.Lexicographic.{slice_cmp};
ghost use Rattle.std.specs.String.{string_cmp};
ghost use Rattle.std.specs.BTreeMap.{UpdatesBy};
ghost use Rattle.fhir_json.specs.Tree.{Text};
ghost use Rattle.fhir_names.specs.Places.{place_of, Finds};
ghost use Rattle.fhir_archives.specs.Archives.{is_of, is_version, first_of, has_version};
ghost use Rattle.fhir_archives.specs.Known.{knows, Knows};
ghost use Rattle.fhir_archives.specs.Views.{named_seen};

use fhir_json::NoMemory;
use fhir_names::Index;
use std::alloc::Global;
use std::collections::BTreeMap;
use std::marker::Model;

/// An archive that has a name.
#[derive(Clone, Copy)]
pub(crate) struct Named<'t> {
    pub(crate) folder: &'t str,
    pub(crate) name: &'t str,
    pub(crate) version: Option<&'t str>,
}

// Whether the versions under a name have that one.
fn knows(versions: &BTreeMap<String, Index>, name: &str, version: &str) -> bool
    ensures { result ≡ knows versions.now name.now version.now }
{
    match versions.get(name) {
        Some(of_name) => of_name.get(version).is_some(),
        None => false,
    }
}

// Takes away the versions under a name.
fn take_versions(alloc: Global, versions: &mut BTreeMap<String, Index>, name: &str) -> Index
    ensures known { (version : Text) → is_some (place_of result version) ≡ knows versions.old name.now version }
    ensures taken { UpdatesBy string_cmp (λ key. slice_cmp nat_cmp name.now (string_bytes key)) versions.old versions.new None }
{
    match versions.remove(name) {
        Some(of_name) => of_name,
        None => Index::new(alloc),
    }
}

// Puts a version under a name.
fn put_version(
    alloc: Global,
    versions: &mut BTreeMap<String, Index>,
    name: &str,
    version: &str,
) -> Result<(), NoMemory>
    ensures { OnOk result ((n v : Text) → knows versions.new n v
        ≡ (bytes_eq n name.now && bytes_eq v version.now || knows versions.old n v)) }
{
    let mut of_name = take_versions(alloc, versions, name);
    of_name.put(alloc, version, 0)?;
    versions.insert(String::from_str(alloc, name)?, of_name)?;
    Ok(())
}

fn put_named(
    alloc: Global,
    versions: &mut BTreeMap<String, Index>,
    named: &Named<'_>,
) -> Result<(), NoMemory>
    ensures { OnOk result ((n v : Text) → knows versions.new n v
        ≡ (is_of n (named_seen named.now) && is_version v (named_seen named.now) || knows versions.old n v)) }
{
    match named.version {
        Some(version) => put_version(alloc, versions, named.name, version),
        None => Ok(()),
    }
}

// The versions under the names of archives.
fn versions_of(alloc: Global, all: &[Named<'_>]) -> Result<BTreeMap<String, Index>, NoMemory>
    ensures { IfOk result (λ versions. Knows versions (map named_seen all.now)) }
{
    let mut versions = BTreeMap::new(alloc);
    for named in all {
        put_named(alloc, &mut versions, named)?;
    }
    Ok(versions)
}

// The places at which names first stand among those of archives.
fn names_of(alloc: Global, all: &[Named<'_>]) -> Result<Index, NoMemory>
    ensures { IfOk result (λ names. Finds names (map (λ n. n.name) (map named_seen all.now))) }
{
    let mut names = Index::new(alloc);
    for (place, named) in all.iter().enumerate() {
        names.add(alloc, named.name, place)?;
    }
    Ok(names)
}

fn named_at<'a, 't>(all: &'a [Named<'t>], place: usize) -> Option<&'a Named<'t>>
    ensures { option_map named_seen (option_copied result) ≡ slice_get (map named_seen all.now) place }
{
    all.get(place)
}

fn first_of<'a, 't>(all: &'a [Named<'t>], names: &Index, name: &str) -> Option<&'a Named<'t>>
    requires { Finds names.now (map (λ n. n.name) (map named_seen all.now)) }
    ensures { option_map named_seen (option_copied result) ≡ first_of name.now (map named_seen all.now) }
{
    match names.get(name) {
        Some(place) => named_at(all, place),
        None => None,
    }
}

/// Archives that have a name, which are looked up in time logarithmic in their number.
#[derive(Drop)]
pub(crate) struct Table<'t> {
    all: Vec<Named<'t>>,
    names: Index,
    versions: BTreeMap<String, Index>,
}

impl<'t> Model for Table<'t> {
    ghost use Rattle.std.specs.Prelude.{List, map};
    ghost use Rattle.fhir_names.specs.Places.{Finds};
    ghost use Rattle.fhir_archives.specs.Archives as archives;
    ghost use Rattle.fhir_archives.specs.Known.{Knows};
    ghost use Rattle.fhir_archives.specs.Views.{named_seen};

    ghost Value = { List archives.Named };

    ghost view = { λ t. map named_seen t.all.items };

    ghost invariant = { λ t. Finds t.names (map (λ n. n.name) (map named_seen t.all.items)) × Knows t.versions (map named_seen t.all.items) };
}

impl<'t> Table<'t> {
    /// A table of these.
    pub(crate) fn new(alloc: Global, all: Vec<Named<'t>>) -> Result<Table<'t>, NoMemory>
        ensures { IfOk result (λ table. table ≡ map named_seen all.entry.items) }
    {
        let names = names_of(alloc, &all)?;
        let versions = versions_of(alloc, &all)?;
        Ok(Table {
            all,
            names,
            versions,
        })
    }

    /// The first of a name.
    pub(crate) fn first(&self, name: &str) -> Option<&Named<'t>>
        ensures { option_map named_seen (option_copied result) ≡ first_of name.now self.now }
    {
        first_of(&self.all, &self.names, name)
    }

    /// Whether one has a name and a version.
    pub(crate) fn has_version(&self, name: &str, version: &str) -> bool
        ensures { result ≡ has_version name.now version.now self.now }
    {
        knows(&self.versions, name, version)
    }
}
