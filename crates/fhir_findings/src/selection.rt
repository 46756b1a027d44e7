//! What is reported on.

ghost use Rattle.std.specs.Prelude.{◌≡◌, ◌∷◌, ◌++◌, [], None, Some, map, filter, string_bytes, OnOk, IfOk};
ghost use Rattle.std.specs.List.{list_any};
ghost use Rattle.std.specs.Map.{keys_of};
ghost use Rattle.std.specs.Option.{option_map_or};
ghost use Rattle.fhir_json.specs.Memory.{Gives, GivesOr};
ghost use Rattle.fhir_package.specs.Definitions.{of_kind, at_url};
ghost use Rattle.fhir_reach.specs.Keys.{of_url, keys_seen};
ghost use Rattle.fhir_reach.specs.Reach.{is_held};
ghost use Rattle.fhir_reach.specs.Search.{reached};
ghost use Rattle.fhir_findings.specs.Selecting.{begins_with, is_own, own_of, own_urls, all_urls, is_unknown, unknown_place, selection_of, asked_selection, profile_selection, select, is_no_memory, is_selected};

use crate::held::HeldKeys;
use fhir_json::NoMemory;
use fhir_package::{Kind, Package};
use fhir_reach::{Key, reach};
use std::alloc::Global;
use std::marker::Model;

/// Why prefixes select nothing.
#[derive(Clone, Copy, Debug, PartialEq, Eq)]
pub enum SelectFault {
    /// No url begins with the prefix at this place, the first such.
    Unknown(usize),
    /// A growth of memory was refused.
    NoMemory,
}

/// What is reported on: all definitions of a package, or those whose urls begin with one of some prefixes, and what these reach.
#[derive(Drop)]
pub struct Selection {
    keys: Option<HeldKeys>,
}

impl Model for Selection {
    ghost use Rattle.fhir_findings.specs.Selecting.{SelectionValue};

    ghost Value = { SelectionValue };

    ghost view = { λ s. s.keys };
}

fn begins_with(prefix: &str, url: &str) -> bool
    ensures { result ≡ begins_with prefix.now url.now }
{
    url.as_bytes().starts_with(prefix.as_bytes())
}

fn is_own(prefixes: &[String], url: &str) -> bool
    ensures { result ≡ is_own (map string_bytes prefixes.now) url.now }
{
    for prefix in prefixes {
        if begins_with(prefix.as_str(), url) {
            return true;
        }
    }
    false
}

// Whether a url of a kind begins with a prefix.
fn begins_one_of(package: &Package<'_>, kind: Kind, prefix: &str) -> bool
    ensures { result ≡ list_any (begins_with prefix.now) (keys_of (of_kind kind «package».now)) }
{
    package.names(kind).any(|url| begins_with(prefix, url))
}

// Whether a url begins with a prefix.
#[tactic(auto, using(crate::proofs::Selected::begun))]
fn begins_some(package: &Package<'_>, prefix: &str) -> bool
    ensures { result ≡ list_any (begins_with prefix.now) (all_urls «package».now) }
{
    let structure_definition = begins_one_of(package, Kind::StructureDefinition, prefix);
    let value_set = begins_one_of(package, Kind::ValueSet, prefix);
    let code_system = begins_one_of(package, Kind::CodeSystem, prefix);
    structure_definition | value_set | code_system
}

fn is_unknown(package: &Package<'_>, prefix: &str) -> bool
    ensures { result ≡ is_unknown «package».now prefix.now }
{
    !begins_some(package, prefix)
}

fn unknown_place(package: &Package<'_>, prefixes: &[String]) -> Option<usize>
    ensures { result ≡ unknown_place «package».now (map string_bytes prefixes.now) }
{
    for (place, prefix) in prefixes.iter().enumerate() {
        if is_unknown(package, prefix.as_str()) {
            return Some(place);
        }
    }
    None
}

fn push_if_own(
    alloc: Global,
    prefixes: &[String],
    url: &str,
    into: &mut Vec<Key>,
) -> Result<(), NoMemory>
    ensures { OnOk result (keys_seen into.new.items ≡ keys_seen into.old.items ++ map of_url (filter (is_own (map string_bytes prefixes.now)) (url.now ∷ []))) }
{
    if !is_own(prefixes, url) {
        return Ok(());
    }
    let url = String::from_str(alloc, url)?;
    into.push(Key::Url(url))?;
    Ok(())
}

fn push_own(
    alloc: Global,
    package: &Package<'_>,
    kind: Kind,
    prefixes: &[String],
    into: &mut Vec<Key>,
) -> Result<(), NoMemory>
    ensures { OnOk result (keys_seen into.new.items
        ≡ keys_seen into.old.items ++ map of_url (own_of (map string_bytes prefixes.now) (of_kind kind «package».now))) }
{
    for url in package.names(kind) {
        push_if_own(alloc, prefixes, url, into)?;
    }
    Ok(())
}

// The urls that begin with one of the prefixes.
fn own_keys(alloc: Global, package: &Package<'_>, prefixes: &[String]) -> Result<Vec<Key>, NoMemory>
    ensures { IfOk result (λ keys. keys_seen keys.items ≡ map of_url (own_urls (map string_bytes prefixes.now) «package».now)) }
{
    let mut keys = Vec::new(alloc);
    push_own(
        alloc,
        package,
        Kind::StructureDefinition,
        prefixes,
        &mut keys,
    )?;
    push_own(alloc, package, Kind::ValueSet, prefixes, &mut keys)?;
    push_own(alloc, package, Kind::CodeSystem, prefixes, &mut keys)?;
    Ok(keys)
}

fn reached_from(alloc: Global, package: &Package<'_>, own: &[Key]) -> Result<Selection, NoMemory>
    ensures { Gives (λ s. s) result (Some (reached «package».now (keys_seen own.now))) }
{
    let keys = reach(alloc, package, own)?;
    Ok(Selection {
        keys: Some(HeldKeys::of(alloc, keys)?),
    })
}

fn reached_by(
    alloc: Global,
    package: &Package<'_>,
    prefixes: &[String],
) -> Result<Selection, NoMemory>
    ensures { Gives (λ s. s) result (selection_of (map string_bytes prefixes.now) «package».now) }
{
    let own = own_keys(alloc, package, prefixes)?;
    reached_from(alloc, package, &own)
}

fn reached_by_url(alloc: Global, package: &Package<'_>, url: &str) -> Result<Selection, NoMemory>
    ensures { Gives (λ s. s) result (Some (reached «package».now (of_url url.now ∷ []))) }
{
    let url = String::from_str(alloc, url)?;
    let start = vec![in alloc; Key::Url(url)]?;
    reached_from(alloc, package, &start)
}

// The same, and all where there are no prefixes.
fn selected_by(
    alloc: Global,
    package: &Package<'_>,
    prefixes: &[String],
) -> Result<Selection, NoMemory>
    ensures { Gives (λ s. s) result (asked_selection (map string_bytes prefixes.now) «package».now) }
{
    match prefixes {
        [] => Ok(Selection::all()),
        [_, ..] => reached_by(alloc, package, prefixes),
    }
}

impl Selection {
    /// All definitions.
    pub fn all() -> Selection
        ensures { result ≡ None }
    {
        Selection { keys: None }
    }

    /// The definitions of a package whose urls begin with one of some prefixes, and what these reach; or all, where there are no prefixes.
    /// The refusals are those of `SelectFault`: that no url begins with a prefix is one.
    pub fn of(
        alloc: Global,
        package: &Package<'_>,
        prefixes: &[String],
    ) -> Result<Selection, SelectFault>
        ensures { GivesOr is_no_memory (λ s. s) result (select (map string_bytes prefixes.now) «package».now) }
    {
        if let Some(place) = unknown_place(package, prefixes) {
            return Err(SelectFault::Unknown(place));
        }
        match selected_by(alloc, package, prefixes) {
            Ok(selection) => Ok(selection),
            Err(NoMemory) => Err(SelectFault::NoMemory),
        }
    }

    /// The profile or the type at a url, and what it reaches; or none, where the package has no such definition. The one refusal is want
    /// of memory.
    pub fn of_profile(
        alloc: Global,
        package: &Package<'_>,
        url: &str,
    ) -> Result<Option<Selection>, NoMemory>
        ensures { IfOk result (λ s. s ≡ profile_selection url.now «package».now) }
    {
        match package.at_url(Kind::StructureDefinition, url) {
            Some(_definition) => Ok(Some(reached_by_url(alloc, package, url)?)),
            None => Ok(None),
        }
    }

    /// Whether the definition of a kind at a url is reported on. Where not all are, one that the package doesn't have is not.
    pub fn has(&self, package: &Package<'_>, kind: Kind, url: &str) -> bool
        ensures { result ≡ is_selected self.now «package».now kind url.now }
    {
        match &self.keys {
            Some(keys) => match package.at_url(kind, url) {
                Some(definition) => keys.has(kind, url, definition),
                None => false,
            },
            None => true,
        }
    }
}
