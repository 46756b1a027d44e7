//! Members of JSON objects, each where there is something to write.

ghost use Rattle.std.specs.Option.{option_map};
ghost use Rattle.std.specs.Prelude.{◌≡◌, ◌++◌, ◌∷◌, ◌<◌, [], map, IfOk, OnOk, string_bytes};
ghost use Rattle.fhir_json.specs.Tree.{string, object, members_of};
ghost use Rattle.fhir_json.specs.Views.{tree_of, trees_of, property_of, text_seen};
ghost use Rattle.fhir_overlay.specs.Json.{member_if, text_member, array_member, filled_array, present};

use fhir_json::{Json, Member};
use std::alloc::{AllocError, Global};
use std::borrow::CowStr;

fn member(name: &'static str, value: Json<'static>) -> Member<'static>
    ensures { property_of result ≡ (name.now, tree_of value.entry) }
{
    Member {
        name: CowStr::Borrowed(name),
        value,
    }
}

/// The object of members.
pub(crate) fn object(members: Vec<Member<'static>>) -> Json<'static>
    ensures { tree_of result ≡ object (members_of (map property_of members.entry.items)) }
{
    Json::Obj(members)
}

/// Puts a member behind others, if there is one.
pub(crate) fn put(
    members: &mut Vec<Member<'static>>,
    member: Option<Member<'static>>,
) -> Result<(), AllocError>
    ensures { OnOk result (map property_of members.new.items
        ≡ map property_of members.old.items ++ present (option_map property_of member.entry ∷ [])) }
{
    match member {
        Some(member) => Ok(members.push(member)?),
        None => Ok(()),
    }
}

/// The member of a value, if there is one.
pub(crate) fn member_if(name: &'static str, value: Option<Json<'static>>) -> Option<Member<'static>>
    ensures { option_map property_of result ≡ member_if name.now (option_map tree_of value.entry) }
{
    match value {
        Some(value) => Some(member(name, value)),
        None => None,
    }
}

fn text_json(alloc: Global, text: &str) -> Result<Json<'static>, AllocError>
    ensures { IfOk result (λ j. tree_of j ≡ string text.now) }
{
    let text = String::from_str(alloc, text)?;
    Ok(Json::Str(CowStr::Owned(text)))
}

/// The member of a text, if there is one.
pub(crate) fn text_member(
    alloc: Global,
    name: &'static str,
    text: Option<&str>,
) -> Result<Option<Member<'static>>, AllocError>
    ensures { IfOk result (λ m. option_map property_of m ≡ text_member name.now (text_seen text.entry)) }
{
    match text {
        Some(text) => Ok(Some(member(name, text_json(alloc, text)?))),
        None => Ok(None),
    }
}

/// Puts the member of a text behind others, if there is one.
pub(crate) fn put_text(
    alloc: Global,
    members: &mut Vec<Member<'static>>,
    name: &'static str,
    text: Option<&str>,
) -> Result<(), AllocError>
    ensures { OnOk result (map property_of members.new.items
        ≡ map property_of members.old.items ++ present (text_member name.now (text_seen text.entry) ∷ [])) }
{
    let member = text_member(alloc, name, text)?;
    put(members, member)
}

/// The member of an array, unless that is empty.
pub(crate) fn array_member(name: &'static str, items: Vec<Json<'static>>) -> Option<Member<'static>>
    ensures { option_map property_of result ≡ array_member name.now (trees_of items.entry.items) }
{
    if items.is_empty() {
        None
    } else {
        Some(member(name, Json::Arr(items)))
    }
}

/// The trees of texts.
pub(crate) fn text_items(alloc: Global, texts: &[String]) -> Result<Vec<Json<'static>>, AllocError>
    ensures { IfOk result (λ v. trees_of v.items ≡ map string (map string_bytes texts.now)) }
{
    let mut items = Vec::with_capacity(alloc, texts.len())?;
    for text in texts {
        let item = text_json(alloc, text.as_str())?;
        items.push(item)?;
    }
    Ok(items)
}

/// Puts the member of an array of texts behind others, unless that is empty.
pub(crate) fn put_texts(
    alloc: Global,
    members: &mut Vec<Member<'static>>,
    name: &'static str,
    texts: &[String],
) -> Result<(), AllocError>
    ensures { OnOk result (map property_of members.new.items
        ≡ map property_of members.old.items ++ present (array_member name.now (map string (map string_bytes texts.now)) ∷ [])) }
{
    let items = text_items(alloc, texts)?;
    put(members, array_member(name, items))
}
