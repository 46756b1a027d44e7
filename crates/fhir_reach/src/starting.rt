//! The keys with which the validation of a resource begins.

ghost use Rattle.std.specs.Prelude.{◌≡◌, [], ◌∷◌, OnOk, IfOk, codes};
ghost use Rattle.std.specs.Option.{option_map_or};
ghost use Rattle.fhir_json.specs.Views.{tree_of, items_view, members_view, property_of};
ghost use Rattle.fhir_json.specs.Fields.{as_text};
ghost use Rattle.fhir_reach.specs.Keys.{of_url, of_code, keys_seen, with_keys};
ghost use Rattle.fhir_reach.specs.Starting.{target_keys, resource_keys, tree_keys, items_keys, members_keys, starts_of};

use crate::key::Key;
use crate::key_set::KeySet;
use fhir_json::{Json, Member, NoMemory};
use fhir_names::relative_target;
use std::alloc::Global;

fn add_target(alloc: Global, found: &mut KeySet, text: &str) -> Result<(), NoMemory>
    ensures { OnOk result (found.new ≡ with_keys found.old (target_keys text.now)) }
{
    match relative_target(text) {
        Some((code, _)) => found.add_code(alloc, code),
        None => Ok(()),
    }
}

fn add_text(alloc: Global, found: &mut KeySet, value: &Json<'_>) -> Result<(), NoMemory>
    ensures { OnOk result (found.new ≡ with_keys found.old (option_map_or (λ code. of_code code ∷ []) (as_text (tree_of value.now)) [])) }
{
    match value.as_text() {
        Some(code) => found.add_code(alloc, code),
        None => Ok(()),
    }
}

fn add_resource_type(
    alloc: Global,
    found: &mut KeySet,
    name: &str,
    value: &Json<'_>,
) -> Result<(), NoMemory>
    ensures { OnOk result (found.new ≡ with_keys found.old (resource_keys name.now (tree_of value.now))) }
{
    if name == "resourceType" {
        return add_text(alloc, found, value);
    }
    Ok(())
}

#[cycle(tree)]
fn add_tree(alloc: Global, found: &mut KeySet, tree: &Json<'_>) -> Result<(), NoMemory>
    ensures { OnOk result (found.new ≡ with_keys found.old (tree_keys (tree_of tree.now))) }
{
    match tree {
        Json::Null => Ok(()),
        Json::Bool(_) => Ok(()),
        Json::Num(_) => Ok(()),
        Json::Str(text) => add_target(alloc, found, text.as_str()),
        Json::Arr(items) => add_items(alloc, found, items),
        Json::Obj(members) => add_members(alloc, found, members),
    }
}

#[cycle(tree)]
fn add_items(alloc: Global, found: &mut KeySet, items: &Vec<Json<'_>>) -> Result<(), NoMemory>
    ensures { OnOk result (found.new ≡ with_keys found.old (items_keys (items_view items.now.items))) }
{
    for item in items {
        add_tree(alloc, found, item)?;
    }
    Ok(())
}

#[cycle(tree)]
fn add_members(alloc: Global, found: &mut KeySet, members: &Vec<Member<'_>>) -> Result<(), NoMemory>
    ensures { OnOk result (found.new ≡ with_keys found.old (members_keys (members_view members.now.items))) }
{
    for member in members {
        add_resource_type(alloc, found, member.name.as_str(), &member.value)?;
        add_tree(alloc, found, &member.value)?;
    }
    Ok(())
}

/// The keys with which the validation of a resource begins: the url of the profile, and each type that a `resourceType` or a relative
/// reference in the resource names; each once.
pub fn starts_of(alloc: Global, profile: &str, resource: &Json<'_>) -> Result<Vec<Key>, NoMemory>
    ensures { IfOk result (λ keys. keys_seen keys.items ≡ starts_of profile.now (tree_of resource.now)) }
{
    let mut found = KeySet::new(alloc);
    found.add_url(alloc, profile)?;
    add_tree(alloc, &mut found, resource)?;
    Ok(found.into_keys())
}
