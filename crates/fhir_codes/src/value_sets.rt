//! All value sets of a package.

ghost use Rattle.std.specs.Prelude.{◌≡◌, List, map, IfOk, take, codes};
ghost use Rattle.std.specs.Option.{option_map, option_copied, option_and_then};
ghost use Rattle.std.specs.List.{slice_get};
ghost use Rattle.std.specs.Map.{keys_of, lookup};
ghost use Rattle.std.specs.Str.{bytes_eq};
ghost use Rattle.fhir_json.specs.Fields.{field};
ghost use Rattle.fhir_json.specs.Views.{tree_of, tree_seen};
ghost use Rattle.fhir_json.specs.Memory.{Gives};
ghost use Rattle.fhir_names.specs.Places.{Finds};
ghost use Rattle.fhir_codes.specs.Expanding.{expansions_of, expansion_of, at_version, where_version, concepts_in};
ghost use Rattle.fhir_codes.specs.Filled.{AreDone};
ghost use Rattle.fhir_codes.specs.Listing.{found_set, found_sets};
ghost use Rattle.fhir_codes.specs.Placing.{found_at};
ghost use Rattle.fhir_codes.specs.Tables.{found};
ghost use Rattle.fhir_codes.specs.ValueSets.{concepts_of};
ghost use Rattle.fhir_codes.specs.Views.{code_set_seen};

use crate::code_set::CodeSet;
use crate::concept_set::ConceptSet;
use crate::sources::Sources;
use fhir_json::{Json, NoMemory};
use fhir_names::{Canonical, Index};
use fhir_package::{Kind, Package, has_version};
use std::alloc::Global;
use std::marker::Model;

/// A value set: its url and its version, and its concepts, if they can be read.
pub(crate) struct FoundSet {
    pub(crate) url: String,
    pub(crate) version: Option<Json<'static>>,
    pub(crate) concepts: Option<ConceptSet>,
}

// A derived drop would be proved anew in each crate that owns one.
impl Drop for FoundSet {
    fn drop(self) {
        let FoundSet {
            url: _url,
            version: _version,
            concepts: _concepts,
        } = self;
    }
}

/// The value sets of a package with their concepts. They borrow nothing from the package.
pub struct ValueSets {
    entries: Vec<FoundSet>,
    urls: Index,
}

// A derived drop would be proved anew in each crate that owns one.
impl Drop for ValueSets {
    fn drop(self) {
        let ValueSets {
            entries: _entries,
            urls: _urls,
        } = self;
    }
}

impl Model for ValueSets {
    ghost use Rattle.fhir_codes.specs.Expanding.{Expansions};

    ghost Value = { Expansions };

    ghost use Rattle.fhir_json.specs.Coding.{tree_code};
    ghost use Rattle.fhir_codes.specs.Coding.{concepts_code};
    ghost use Rattle.std.specs.Coded.{codes};

    ghost coded = { Prim.hlevel (codes, tree_code, concepts_code) };

    ghost use Rattle.std.specs.Map.{keys_of};
    ghost use Rattle.fhir_names.specs.Places.{Finds};
    ghost use Rattle.fhir_codes.specs.Listing.{found_sets};

    ghost view = { λ v. found_sets v.entries.items };

    ghost invariant = { λ v. Finds v.urls (keys_of (found_sets v.entries.items)) };
}

fn version_of(alloc: Global, json: &Json<'_>) -> Result<Option<Json<'static>>, NoMemory>
    ensures { Gives (λ v. option_map tree_of v) result (field (codes "version") (tree_of json.now)) }
{
    match json.field("version") {
        Some(version) => Ok(Some(version.detach(alloc)?)),
        None => Ok(None),
    }
}

fn shared_at(sources: &Sources<'_, '_>, place: usize) -> Result<Option<ConceptSet>, NoMemory>
    ensures { Gives (λ s. s) result (found_at (found sources.now) place) }
{
    match sources.found_at(place) {
        Some(concepts) => Ok(Some(concepts.share()?)),
        None => Ok(None),
    }
}

fn found_set(
    alloc: Global,
    url: &str,
    json: &Json<'_>,
    concepts: Option<ConceptSet>,
) -> Result<FoundSet, NoMemory>
    ensures { Gives found_set result
        (url.now, record { version = field (codes "version") (tree_of json.now); concepts = concepts }) }
{
    let url = String::from_str(alloc, url)?;
    let version = version_of(alloc, json)?;
    Ok(FoundSet {
        url,
        version,
        concepts,
    })
}

fn found_sets(
    alloc: Global,
    from: &Package<'_>,
    sources: &Sources<'_, '_>,
) -> Result<Vec<FoundSet>, NoMemory>
    requires { AreDone from.now (found sources.now) }
    ensures { IfOk result (λ v. found_sets v.items ≡ expansions_of from.now) }
{
    let mut entries = Vec::new(alloc);
    for place in 0..from.len(Kind::ValueSet) {
        let Some((url, json)) = from.at(Kind::ValueSet, place) else {
            return Ok(entries);
        };
        let concepts = shared_at(sources, place)?;
        let entry = found_set(alloc, url, json, concepts)?;
        entries.push(entry)?;
    }
    Ok(entries)
}

fn entry_at(entries: &[FoundSet], place: usize) -> Option<&FoundSet>
    ensures { option_map found_set (option_copied result) ≡ slice_get (found_sets entries.now) place }
{
    entries.get(place)
}

fn where_version<'v>(entry: &'v FoundSet, version: Option<&str>) -> Option<&'v ConceptSet>
    ensures { option_copied result ≡ where_version (option_map (λ v. v.now) version.entry) (found_set entry.now).1 }
{
    match version {
        Some(version) if !has_version(version, entry.version.as_ref()) => None,
        _ => entry.concepts.as_ref(),
    }
}

impl ValueSets {
    /// The value sets of a package. Each is expanded once, and so is each code system that is taken whole. The one refusal
    /// is want of memory.
    pub fn of(alloc: Global, from: &Package<'_>) -> Result<ValueSets, NoMemory>
        ensures { Gives (λ s. s) result (expansions_of from.now) }
    {
        let mut sources = Sources::of(alloc, from)?;
        sources.expand_all(alloc)?;
        let entries = found_sets(alloc, from, &sources)?;
        let urls = sources.into_places();
        Ok(ValueSets { entries, urls })
    }

    fn entry(&self, url: &str) -> Option<&FoundSet>
        ensures { option_map (λ e. (found_set e).1) (option_copied result) ≡ lookup (bytes_eq url.now) self.now }
    {
        match self.urls.get(url) {
            Some(place) => entry_at(&self.entries, place),
            None => None,
        }
    }

    fn at_version(&self, canonical: &Canonical<'_>) -> Option<&ConceptSet>
        ensures { option_copied result ≡ at_version self.now canonical.now }
    {
        match self.entry(canonical.url()) {
            Some(entry) => where_version(entry, canonical.version()),
            None => None,
        }
    }

    /// The concepts of the value set that a canonical names, if it is there and they can be read.
    pub fn concepts(&self, canonical: &str) -> Option<&ConceptSet>
        ensures { option_copied result ≡ concepts_in self.now canonical.now }
    {
        match Canonical::parse(canonical) {
            Ok(canonical) => self.at_version(&canonical),
            Err(_) => None,
        }
    }
}

/// What the value set that a canonical names is found to mean (FHIR R4, ValueSet, expansion). `ValueSets::of` does the same
/// for all canonicals at once. The one refusal is want of memory.
pub fn expand(alloc: Global, from: &Package<'_>, canonical: &str) -> Result<CodeSet, NoMemory>
    ensures { Gives code_set_seen result (concepts_of from.now canonical.now) }
{
    let mut sources = Sources::of(alloc, from)?;
    sources.expand_all(alloc)?;
    match sources.found_concepts(canonical) {
        Some(concepts) => Ok(CodeSet::Enumerated(concepts.share()?)),
        None => Ok(CodeSet::Unread),
    }
}
