//! Trees in memory of their own, for as long as they are wanted.

ghost use Rattle.std.specs.Prelude.{◌≡◌, map, IfOk};
ghost use Rattle.std.specs.Cow.{cow_str_bytes};
ghost use Rattle.fhir_json.specs.Views.{tree_of, property_of};

use fhir_json::{Json, Member};
use std::alloc::{AllocError, Global};
use std::borrow::CowStr;

fn owned_text<'o>(alloc: Global, text: &str) -> Result<CowStr<'o>, AllocError>
    ensures { IfOk result (λ t. cow_str_bytes t ≡ text.now) }
{
    let text = String::from_str(alloc, text)?;
    Ok(CowStr::Owned(text))
}

/// The same tree. `Json::detach` gives one that lives for ever, which can't stand among others that borrow.
#[cycle(owning)]
pub(crate) fn owned_json<'o>(alloc: Global, json: &Json<'_>) -> Result<Json<'o>, AllocError>
    ensures { IfOk result (λ j. tree_of j ≡ tree_of json.now) }
{
    match json {
        Json::Null => Ok(Json::Null),
        Json::Bool(flag) => Ok(Json::Bool(*flag)),
        Json::Num(text) => Ok(Json::Num(owned_text(alloc, text.as_str())?)),
        Json::Str(text) => Ok(Json::Str(owned_text(alloc, text.as_str())?)),
        Json::Arr(items) => Ok(Json::Arr(owned_items(alloc, items)?)),
        Json::Obj(members) => Ok(Json::Obj(owned_members(alloc, members)?)),
    }
}

#[cycle(owning)]
fn owned_items<'o>(alloc: Global, items: &Vec<Json<'_>>) -> Result<Vec<Json<'o>>, AllocError>
    ensures { IfOk result (λ v. map tree_of v.items ≡ map tree_of items.now.items) }
{
    let mut all = Vec::with_capacity(alloc, items.len())?;
    for item in items {
        let item = owned_json(alloc, item)?;
        all.push(item)?;
    }
    Ok(all)
}

#[cycle(owning)]
fn owned_members<'o>(
    alloc: Global,
    members: &Vec<Member<'_>>,
) -> Result<Vec<Member<'o>>, AllocError>
    ensures { IfOk result (λ v. map property_of v.items ≡ map property_of members.now.items) }
{
    let mut all = Vec::with_capacity(alloc, members.len())?;
    for member in members {
        let name = owned_text(alloc, member.name.as_str())?;
        let value = owned_json(alloc, &member.value)?;
        all.push(Member { name, value })?;
    }
    Ok(all)
}

/// The same member.
pub(crate) fn owned_member<'o>(alloc: Global, member: &Member<'_>) -> Result<Member<'o>, AllocError>
    ensures { IfOk result (λ m. property_of m ≡ property_of member.now) }
{
    let name = owned_text(alloc, member.name.as_str())?;
    let value = owned_json(alloc, &member.value)?;
    Ok(Member { name, value })
}
