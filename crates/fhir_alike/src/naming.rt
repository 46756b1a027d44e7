//! What a profile names, and what that is in a package.

ghost use Rattle.std.specs.Prelude.{◌≡◌, ◌++◌, IfOk, OnOk, map, option_map, string_bytes};
ghost use Rattle.std.specs.List.{flat_map};
ghost use Rattle.fhir_json.specs.Views.{tree_seen};
ghost use Rattle.fhir_names.specs.Texts.{cut_at_first};
ghost use Rattle.fhir_alike.specs.Naming.{hash, place_named, agree, name_stays, profile_stays, is_type, is_type_in_both, content_stays, element_profiles, profiles_named, entry_targets, element_targets, targets_named};

use crate::profile::is_profile;
use fhir_definition::Definition;
use fhir_elements::{ElementDef, TypeEntry};
use fhir_json::{Json, NoMemory};
use fhir_names::Canonical;
use fhir_package::{Kind, Package};
use std::alloc::{AllocError, Global};

/// The place of the definition of a kind that a canonical names.
pub fn place_named(package: &Package<'_>, kind: Kind, canonical: &str) -> Option<usize>
    ensures { result ≡ place_named kind «package».now canonical.now }
{
    match (package.get(kind, canonical), Canonical::parse(canonical)) {
        (Some(_tree), Ok(canonical)) => package.place(kind, canonical.url()),
        _ => None,
    }
}

fn agree(one: bool, other: bool) -> bool
    ensures { result ≡ agree one other }
{
    if one { other } else { !other }
}

/// Whether a canonical names a definition of a kind in both packages, or in none.
pub fn name_stays(old: &Package<'_>, new: &Package<'_>, kind: Kind, canonical: &str) -> bool
    ensures { result ≡ name_stays kind old.now new.now canonical.now }
{
    agree(
        old.get(kind, canonical).is_some(),
        new.get(kind, canonical).is_some(),
    )
}

/// Whether a canonical names a profile in both packages, or in both a definition that is none, or nothing in both.
pub fn profile_stays(old: &Package<'_>, new: &Package<'_>, canonical: &str) -> bool
    ensures { result ≡ profile_stays old.now new.now canonical.now }
{
    match (
        old.get(Kind::StructureDefinition, canonical),
        new.get(Kind::StructureDefinition, canonical),
    ) {
        (Some(old), Some(new)) => agree(is_profile(old), is_profile(new)),
        (None, None) => true,
        _ => false,
    }
}

fn is_type(named: Option<&Json<'_>>) -> bool
    ensures { result ≡ is_type (tree_seen named.entry) }
{
    match named {
        Some(definition) => !is_profile(definition),
        None => false,
    }
}

// Whether a canonical names a definition that is no profile in both packages.
fn is_type_in_both(old: &Package<'_>, new: &Package<'_>, canonical: &str) -> bool
    ensures { result ≡ is_type_in_both old.now new.now canonical.now }
{
    let in_old = is_type(old.get(Kind::StructureDefinition, canonical));
    let in_new = is_type(new.get(Kind::StructureDefinition, canonical));
    in_old & in_new
}

fn cut_at_hash(text: &str) -> Option<(&str, &str)>
    ensures { option_map (λ p. (p.0.now, p.1.now)) result ≡ cut_at_first hash text.now }
{
    text.split_once('#')
}

/// Whether the definition that an element refers to for its content, if it names one, is no profile in both packages. What its content is hangs on a
/// single element then, of which it isn't derived that one narrows the other.
pub fn content_stays(old: &Package<'_>, new: &Package<'_>, reference: &str) -> bool
    ensures { result ≡ content_stays old.now new.now reference.now }
{
    match cut_at_hash(reference) {
        Some((canonical, _id)) => canonical.is_empty() || is_type_in_both(old, new, canonical),
        None => true,
    }
}

fn push_texts<'d>(texts: &'d [String], names: &mut Vec<&'d str>) -> Result<(), AllocError>
    ensures { OnOk result (map (λ n. n.now) names.new.items ≡ map (λ n. n.now) names.old.items ++ map string_bytes texts.entry.now) }
{
    for text in texts {
        names.push(text.as_str())?;
    }
    Ok(())
}

fn push_profiles<'d>(element: &'d ElementDef, names: &mut Vec<&'d str>) -> Result<(), AllocError>
    ensures { OnOk result (map (λ n. n.now) names.new.items ≡ map (λ n. n.now) names.old.items ++ element_profiles element.entry.now) }
{
    for entry in element.types() {
        push_texts(entry.profiles(), names)?;
    }
    Ok(())
}

/// The canonicals of the profiles of types that a definition's elements name, in order. The one refusal is want of memory.
pub fn profiles_named(alloc: Global, definition: &Definition) -> Result<Vec<&str>, NoMemory>
    ensures { IfOk result (λ v. map (λ n. n.now) v.items ≡ profiles_named definition.now) }
{
    let mut names = Vec::new(alloc);
    for element in definition.elements() {
        push_profiles(element, &mut names)?;
    }
    Ok(names)
}

fn push_entry<'d>(entry: &'d TypeEntry, names: &mut Vec<&'d str>) -> Result<(), AllocError>
    ensures { OnOk result (map (λ n. n.now) names.new.items ≡ map (λ n. n.now) names.old.items ++ entry_targets entry.entry.now) }
{
    if entry.code() == "Reference" {
        push_texts(entry.targets(), names)
    } else {
        Ok(())
    }
}

fn push_targets<'d>(element: &'d ElementDef, names: &mut Vec<&'d str>) -> Result<(), AllocError>
    ensures { OnOk result (map (λ n. n.now) names.new.items ≡ map (λ n. n.now) names.old.items ++ element_targets element.entry.now) }
{
    for entry in element.types() {
        push_entry(entry, names)?;
    }
    Ok(())
}

/// The canonicals of the targets of references that a definition's elements name, in order; those of other types aren't judged. The one refusal is want
/// of memory.
pub fn targets_named(alloc: Global, definition: &Definition) -> Result<Vec<&str>, NoMemory>
    ensures { IfOk result (λ v. map (λ n. n.now) v.items ≡ targets_named definition.now) }
{
    let mut names = Vec::new(alloc);
    for element in definition.elements() {
        push_targets(element, &mut names)?;
    }
    Ok(names)
}
