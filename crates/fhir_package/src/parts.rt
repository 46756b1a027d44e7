//! Parts that are taken out of a tree by value.

ghost use Rattle.std.specs.Prelude.{◌≡◌, map, option_map};
ghost use Rattle.fhir_json.specs.Views.{tree_of, trees_of, items_view, members_view};
ghost use Rattle.fhir_json.specs.Fields.{value_named, field, as_items, items_in};

use fhir_json::{Json, Member};
use std::alloc::Global;
use std::mem;

fn taken<'a>(member: Member<'a>) -> Json<'a>
    ensures { tree_of result ≡ tree_of member.entry.value }
{
    let mut member = member;
    mem::replace(&mut member.value, Json::Null)
}

fn take_named<'a>(members: Vec<Member<'a>>, name: &str) -> Option<Json<'a>>
    ensures { option_map tree_of result ≡ value_named name.now (members_view members.entry.items) }
{
    for member in members {
        if name == member.name.as_str() {
            return Some(taken(member));
        }
    }
    None
}

/// The field of a name.
pub(crate) fn take_field<'a>(alloc: Global, json: Json<'a>, name: &str) -> Option<Json<'a>>
    ensures { option_map tree_of result ≡ field name.now (tree_of json.entry) }
{
    let mut json = json;
    match &mut json {
        Json::Obj(members) => take_named(mem::replace(members, Vec::new(alloc)), name),
        _ => None,
    }
}

fn into_items<'a>(alloc: Global, json: Json<'a>) -> Vec<Json<'a>>
    ensures { items_view result.items ≡ as_items (tree_of json.entry) }
{
    let mut json = json;
    match &mut json {
        Json::Arr(items) => mem::replace(items, Vec::new(alloc)),
        _ => Vec::new(alloc),
    }
}

/// The items of the array in a field; none where it is no array.
#[tactic(auto, using(crate::proofs::Lists::as_list))]
pub(crate) fn take_items<'a>(alloc: Global, json: Json<'a>, name: &str) -> Vec<Json<'a>>
    ensures { trees_of result.items ≡ items_in name.now (tree_of json.entry) }
{
    match take_field(alloc, json, name) {
        Some(value) => into_items(alloc, value),
        None => Vec::new(alloc),
    }
}
