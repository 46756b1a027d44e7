//! Type entries (FHIR R4, ElementDefinition, type).

ghost use Rattle.std.specs.List.{list_all, list_any};
ghost use Rattle.std.specs.Prelude.{◌≡◌, List, ◌∷◌, map, not, is_none, IfOk, OnOk, string_bytes, codes};
ghost use Rattle.std.specs.Str.{bytes_eq};
ghost use Rattle.fhir_elements.specs.CodesSeen.{HaveCodes};
ghost use Rattle.fhir_elements.specs.TypeEntry.{is_type_entry, type_entry_of, has_code, codes_differ};
ghost use Rattle.fhir_json.specs.Fields.{text_at};
ghost use Rattle.fhir_json.specs.Tree.{Tree};
ghost use Rattle.fhir_json.specs.Views.{tree_of, trees_of};

use crate::texts::{all_owned_in, owned_at};
use fhir_json::Json;
use fhir_names::Index;
use std::alloc::{AllocError, Global};
use std::marker::Model;

/// One of an element's types.
#[derive(Drop)]
pub struct TypeEntry {
    code: String,
    profiles: Vec<String>,
    targets: Vec<String>,
}

impl Model for TypeEntry {
    ghost use Rattle.std.specs.Prelude.{map, string_bytes};
    ghost use Rattle.fhir_elements.specs.TypeEntry.{TypeEntry as Shown};

    ghost Value = { Shown };

    ghost view = { λ e. record {
      code = string_bytes e.code;
      profiles = map string_bytes e.profiles.items;
      targets = map string_bytes e.targets.items;
    } };
}

impl TypeEntry {
    /// The type of a code, with the urls of its profiles and those of its target profiles.
    pub fn new(code: String, profiles: Vec<String>, targets: Vec<String>) -> TypeEntry
        ensures code { result.code ≡ string_bytes code }
        ensures profiles { result.profiles ≡ map string_bytes profiles.items }
        ensures targets { result.targets ≡ map string_bytes targets.items }
    {
        TypeEntry {
            code,
            profiles,
            targets,
        }
    }

    /// The type's code.
    pub fn code(&self) -> &str
        ensures { result.now ≡ self.now.code }
    {
        self.code.as_str()
    }

    /// The urls of its profiles.
    pub fn profiles(&self) -> &[String]
        ensures { map string_bytes result.now ≡ self.now.profiles }
    {
        &self.profiles
    }

    /// The urls of its target profiles.
    pub fn targets(&self) -> &[String]
        ensures { map string_bytes result.now ≡ self.now.targets }
    {
        &self.targets
    }
}

fn is_type_entry(json: &Json<'_>) -> bool
    ensures { result ≡ is_type_entry (tree_of json.now) }
{
    json.is_object()
        && json.text_in("code").is_some()
        && json.allows_texts("profile")
        && json.allows_texts("targetProfile")
}

/// Whether each item is a type.
pub(crate) fn are_type_entries(items: &[Json<'_>]) -> bool
    ensures { result ≡ list_all is_type_entry (trees_of items.now) }
{
    for item in items {
        if !is_type_entry(item) {
            return false;
        }
    }
    true
}

fn type_entry_of(alloc: Global, json: &Json<'_>) -> Result<TypeEntry, AllocError>
    ensures { IfOk result (λ e. e ≡ type_entry_of (tree_of json.now)) }
{
    Ok(TypeEntry {
        code: owned_at(alloc, json, "code")?,
        profiles: all_owned_in(alloc, json, "profile")?,
        targets: all_owned_in(alloc, json, "targetProfile")?,
    })
}

/// The types that items are.
pub(crate) fn type_entries_of(
    alloc: Global,
    items: &[Json<'_>],
) -> Result<Vec<TypeEntry>, AllocError>
    ensures { IfOk result (λ v. v.items ≡ map type_entry_of (trees_of items.now)) }
{
    let mut entries = Vec::new(alloc);
    for item in items {
        let entry = type_entry_of(alloc, item)?;
        entries.push(entry)?;
    }
    Ok(entries)
}

fn has_code(items: &[Json<'_>], code: &str) -> bool
    ensures { result ≡ list_any (λ u. bytes_eq code.now (text_at (codes "code") u)) (trees_of items.now) }
{
    for item in items {
        if code == item.text_at("code") {
            return true;
        }
    }
    false
}

// The first place whose code stands at a later one too.
fn repeated_of_few(items: &[Json<'_>]) -> Option<usize>
    ensures { is_none result ≡ codes_differ (trees_of items.now) }
{
    let mut left = items;
    let mut place = 0;
    while let [item, rest @ ..] = left {
        if has_code(rest, item.text_at("code")) {
            return Some(place);
        }
        left = rest;
        place += 1;
    }
    None
}

// Whether the code of an item has no place yet; it then has this one.
fn is_new(
    alloc: Global,
    seen: &mut Index,
    item: &Json<'_>,
    place: usize,
) -> Result<bool, AllocError>
    ensures new { IfOk result (λ new. (ts : List Tree) → HaveCodes seen.old ts → new ≡ not (has_code (tree_of item.now) ts)) }
    ensures seen { OnOk result ((ts : List Tree) → HaveCodes seen.old ts → HaveCodes seen.new (tree_of item.now ∷ ts)) }
{
    let code = item.text_at("code");
    let is_new = !seen.get(code).is_some();
    seen.put(alloc, code, place)?;
    Ok(is_new)
}

// The last place whose code stands at a later one too.
fn repeated_of_many(alloc: Global, items: &[Json<'_>]) -> Result<Option<usize>, AllocError>
    ensures { IfOk result (λ place. is_none place ≡ codes_differ (trees_of items.now)) }
{
    let mut seen = Index::new(alloc);
    let mut i = items.len();
    while i > 0 {
        i -= 1;
        let item = &items[i];
        if !is_new(alloc, &mut seen, item, i)? {
            return Ok(Some(i));
        }
    }
    Ok(None)
}

/// The place of a type whose code another one has, or none where no two have one code. Beyond a few the codes are kept
/// in order, so that n of them cost n log n comparisons.
pub(crate) fn repeated_code(alloc: Global, items: &[Json<'_>]) -> Result<Option<usize>, AllocError>
    ensures { IfOk result (λ place. is_none place ≡ codes_differ (trees_of items.now)) }
{
    if items.len() <= 16 {
        Ok(repeated_of_few(items))
    } else {
        repeated_of_many(alloc, items)
    }
}
