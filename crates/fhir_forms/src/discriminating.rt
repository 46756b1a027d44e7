//! Where a discriminator looks, and what it looks for there.

ghost use Rattle.std.specs.Prelude.{◌≡◌, ◌==◌, [], map, get_or, string_bytes, true, IfOk};
ghost use Rattle.std.specs.Option.{option_copied, option_map, option_map_or, option_and_then};
ghost use Rattle.std.specs.List.{slice_get, slice_split};
ghost use Rattle.std.specs.Result.{result_ok};
ghost use Rattle.fhir_json.specs.Bytes.{dot};
ghost use Rattle.fhir_json.specs.Tree.{string};
ghost use Rattle.fhir_json.specs.Views.{text_seen};
ghost use Rattle.fhir_json.specs.Memory.{Gives};
ghost use Rattle.fhir_names.specs.Canonicals.{read_canonical};
ghost use Rattle.fhir_forms.specs.Criteria.{fixed, names_of, slot_called, end_of_path, value_sought, allows_one, presence_sought, type_sought, sought_by, is_of_value, sole, profile_of_extensions, extension_profile, url_sought, implied_sought, stated_sought, sought_at};
ghost use Rattle.fhir_forms.specs.CriteriaSeen.{sought_seen};

use crate::criterion::Sought;
use crate::property_name::is_choice;
use fhir_elements::{DiscriminatorType, ElementDef, TypeEntry};
use fhir_json::{Json, NoMemory};
use fhir_names::Canonical;
use fhir_nodes::{Slot, SlotList};
use std::alloc::{AllocError, Global};
use std::borrow::CowStr;

fn cut_at_dots(alloc: Global, path: &str) -> Result<Vec<&str>, AllocError>
    ensures { IfOk result (λ pieces. map (λ piece. piece.now) pieces.items ≡ slice_split (λ b. b == dot) path.now) }
{
    path.split('.').collect(alloc)
}

fn owned_texts(alloc: Global, texts: &[&str]) -> Result<Vec<String>, AllocError>
    ensures { IfOk result (λ all. map string_bytes all.items ≡ map (λ text. text.now) texts.now) }
{
    let mut all = Vec::new(alloc);
    for text in texts {
        all.push(String::from_str(alloc, text)?)?;
    }
    Ok(all)
}

/// The names of a path; `$this` has none.
pub(crate) fn names_of(alloc: Global, path: &str) -> Result<Vec<String>, AllocError>
    ensures { IfOk result (λ names. map string_bytes names.items ≡ names_of path.now) }
{
    if path == "$this" {
        return Ok(Vec::new(alloc));
    }
    let pieces = cut_at_dots(alloc, path)?;
    let names = owned_texts(alloc, &pieces)?;
    Ok(names)
}

// The slot of a name, or the choice that is named so without its `[x]`.
fn slot_called<'s>(
    alloc: Global,
    slots: &'s SlotList,
    name: &str,
) -> Result<Option<&'s Slot>, AllocError>
    ensures { IfOk result (λ slot. option_copied slot ≡ slot_called slots.now name.now) }
{
    if is_choice(name) {
        return Ok(None);
    }
    let slot = slots.find(name);
    if slot.is_some() {
        return Ok(slot);
    }
    let mut choice = String::from_str(alloc, name)?;
    choice.push_str("[x]")?;
    Ok(slots.find(choice.as_str()))
}

// The element to which a name leads from the one at a place.
fn next_place(
    alloc: Global,
    slots: &[SlotList],
    place: usize,
    name: &str,
) -> Result<Option<usize>, AllocError>
    ensures { IfOk result (λ next. next ≡ option_map (λ slot. slot.entry) (slot_called (get_or slots.now place []) name.now)) }
{
    let Some(list) = slots.get(place) else {
        return Ok(None);
    };
    match slot_called(alloc, list, name)? {
        Some(slot) => Ok(Some(slot.entry())),
        None => Ok(None),
    }
}

/// The element to which names lead from the one at a place.
pub(crate) fn end_of_path(
    alloc: Global,
    slots: &[SlotList],
    place: usize,
    names: &[String],
) -> Result<Option<usize>, AllocError>
    ensures { IfOk result (λ end. end ≡ end_of_path slots.now place (map string_bytes names.now)) }
{
    let mut at = place;
    for name in names {
        let Some(next) = next_place(alloc, slots, at, name.as_str())? else {
            return Ok(None);
        };
        at = next;
    }
    Ok(Some(at))
}

// The fixed value of an element, or its pattern.
fn value_sought(alloc: Global, element: &ElementDef) -> Result<Option<Sought>, NoMemory>
    ensures { IfOk result (λ sought. option_map sought_seen sought ≡ value_sought element.now) }
{
    if let Some(fixed) = element.fixed() {
        return Ok(Some(Sought::Fixed(fixed.value.detach(alloc)?)));
    }
    match element.pattern() {
        Some(pattern) => Ok(Some(Sought::Pattern(pattern.value.detach(alloc)?))),
        None => Ok(None),
    }
}

fn allows_one(element: &ElementDef) -> bool
    ensures { result ≡ option_map_or allows_one element.now.max true }
{
    match element.max() {
        Some(most) => most.allows(1),
        None => true,
    }
}

fn presence_sought(element: &ElementDef) -> Option<Sought>
    ensures { option_map sought_seen result ≡ presence_sought element.now }
{
    if element.min().unwrap_or(0) > 0 {
        Some(Sought::Present)
    } else if allows_one(element) {
        None
    } else {
        Some(Sought::Absent)
    }
}

fn codes_of(alloc: Global, entries: &[TypeEntry]) -> Result<Vec<String>, AllocError>
    ensures { IfOk result (λ codes. map string_bytes codes.items ≡ map (λ entry. entry.code) entries.now) }
{
    let mut codes = Vec::new(alloc);
    for entry in entries {
        codes.push(String::from_str(alloc, entry.code())?)?;
    }
    Ok(codes)
}

fn type_sought(alloc: Global, element: &ElementDef) -> Result<Option<Sought>, NoMemory>
    ensures { IfOk result (λ sought. option_map sought_seen sought ≡ type_sought element.now) }
{
    let entries = element.types();
    if entries.is_empty() {
        return Ok(None);
    }
    Ok(Some(Sought::Typed(codes_of(alloc, entries)?)))
}

// What a discriminator looks for, by the element to which its path leads.
fn sought_by(
    alloc: Global,
    by: DiscriminatorType,
    element: &ElementDef,
) -> Result<Option<Sought>, NoMemory>
    ensures { IfOk result (λ sought. option_map sought_seen sought ≡ sought_by by element.now) }
{
    match by {
        DiscriminatorType::Value | DiscriminatorType::Pattern => value_sought(alloc, element),
        DiscriminatorType::Exists => Ok(presence_sought(element)),
        DiscriminatorType::TypeCode => type_sought(alloc, element),
        DiscriminatorType::Profile => Ok(None),
    }
}

fn is_of_value(by: DiscriminatorType) -> bool
    ensures { result ≡ is_of_value by }
{
    matches!(by, DiscriminatorType::Value | DiscriminatorType::Pattern)
}

fn profile_of_extensions(entry: &TypeEntry) -> Option<&str>
    ensures { text_seen result ≡ profile_of_extensions entry.now }
{
    if entry.code() != "Extension" {
        return None;
    }
    match entry.profiles() {
        [profile] => Some(profile.as_str()),
        _ => None,
    }
}

// The one profile of an element that is of extensions alone.
fn extension_profile(element: &ElementDef) -> Option<&str>
    ensures { text_seen result ≡ extension_profile element.now }
{
    match element.types() {
        [entry] => profile_of_extensions(entry),
        _ => None,
    }
}

fn text_sought(alloc: Global, text: &str) -> Result<Sought, NoMemory>
    ensures { IfOk result (λ sought. sought_seen sought ≡ fixed (string text.now)) }
{
    let text = String::from_str(alloc, text)?;
    Ok(Sought::Fixed(Json::Str(CowStr::Owned(text))))
}

// The url of the extensions of an element, which is that of its one profile.
fn url_sought(alloc: Global, element: &ElementDef) -> Result<Option<Sought>, NoMemory>
    ensures { IfOk result (λ sought. option_map sought_seen sought ≡ url_sought element.now) }
{
    let Some(profile) = extension_profile(element) else {
        return Ok(None);
    };
    match Canonical::parse(profile) {
        Ok(canonical) => Ok(Some(text_sought(alloc, canonical.url())?)),
        Err(_) => Ok(None),
    }
}

fn implied_sought(
    alloc: Global,
    by: DiscriminatorType,
    path: &str,
    element: &ElementDef,
) -> Result<Option<Sought>, NoMemory>
    ensures { IfOk result (λ sought. option_map sought_seen sought ≡ implied_sought by path.now element.now) }
{
    if is_of_value(by) && path == "url" {
        url_sought(alloc, element)
    } else {
        Ok(None)
    }
}

fn stated_sought(
    alloc: Global,
    slots: &[SlotList],
    elements: &[ElementDef],
    place: usize,
    by: DiscriminatorType,
    names: &[String],
) -> Result<Option<Sought>, NoMemory>
    ensures { IfOk result (λ sought. option_map sought_seen sought
        ≡ option_and_then (sought_by by) (option_and_then (slice_get elements.now) (end_of_path slots.now place (map string_bytes names.now)))) }
{
    let Some(end) = end_of_path(alloc, slots, place, names)? else {
        return Ok(None);
    };
    match elements.get(end) {
        Some(element) => sought_by(alloc, by, element),
        None => Ok(None),
    }
}

fn implied_sought_at(
    alloc: Global,
    elements: &[ElementDef],
    place: usize,
    by: DiscriminatorType,
    path: &str,
) -> Result<Option<Sought>, NoMemory>
    ensures { IfOk result (λ sought. option_map sought_seen sought
        ≡ option_and_then (implied_sought by path.now) (slice_get elements.now place)) }
{
    match elements.get(place) {
        Some(element) => implied_sought(alloc, by, path, element),
        None => Ok(None),
    }
}

/// What a discriminator of that type and path looks for in the slice at a place, where these are the path's names.
pub(crate) fn sought_at(
    alloc: Global,
    slots: &[SlotList],
    elements: &[ElementDef],
    place: usize,
    by: DiscriminatorType,
    path: &str,
    names: &[String],
) -> Result<Option<Sought>, NoMemory>
    requires { map string_bytes names.now ≡ names_of path.now }
    ensures { IfOk result (λ sought. option_map sought_seen sought ≡ sought_at slots.now elements.now place by path.now) }
{
    let stated = stated_sought(alloc, slots, elements, place, by, names)?;
    if stated.is_some() {
        return Ok(stated);
    }
    implied_sought_at(alloc, elements, place, by, path)
}
