//! The lines of a resource, with a place marked.

ghost use Rattle.std.specs.Prelude.{◌≡◌, ◌++◌, false, codes, IfOk, OnOk, string_bytes};
ghost use Rattle.std.specs.Str.Lossy.{utf8_lossy};
ghost use Rattle.fhir_json.specs.Tree.{string};
ghost use Rattle.fhir_json.specs.Compact.{compact, comma_if};
ghost use Rattle.fhir_json.specs.Reading.{reading};
ghost use Rattle.fhir_json.specs.Views.{tree_of, items_view, members_view};
ghost use Rattle.fhir_markup.specs.Views.{element_node};
ghost use Rattle.fhir_marked_json.specs.Lines.{deeper, line, name_shown, lines, item_lines, member_lines, lines_of, IsListing};
ghost use Rattle.fhir_marked_json.specs.Views.{told};

use crate::pieces::{Piece, pre_of, put, put_line};
use crate::way::{Way, behind, ends_at, into_item, into_property, is_end, is_shared, steps_of};
use fhir_json::{Json, JsonFault, Member, NoMemory, read};
use fhir_markup::Element;
use fhir_page_frame::json_text;
use std::alloc::{AllocError, Global};
use std::borrow::CowStr;

// The margin of what stands inside.
fn deeper(alloc: Global, margin: &str) -> Result<String, AllocError>
    ensures { IfOk result (λ inner. string_bytes inner ≡ deeper margin.now) }
{
    let mut inner = String::from_str(alloc, margin)?;
    inner.push_str("  ")?;
    Ok(inner)
}

fn json_of(text: &str) -> Json<'_>
    ensures { tree_of result ≡ string text.now }
{
    Json::Str(CowStr::Borrowed(text))
}

fn put_plain(
    alloc: Global,
    json: &Json<'_>,
    is_marked: bool,
    into: &mut Vec<Piece>,
) -> Result<(), NoMemory>
    ensures { OnOk result (told into.new.items ≡ told into.old.items ++ compact (tree_of json.now)) }
{
    let text = json_text(alloc, json)?;
    Ok(put(alloc, text.as_str(), is_marked, into)?)
}

fn put_name(
    alloc: Global,
    name: &str,
    is_marked: bool,
    into: &mut Vec<Piece>,
) -> Result<(), NoMemory>
    ensures { OnOk result (told into.new.items ≡ told into.old.items ++ name_shown name.now) }
{
    put_plain(alloc, &json_of(name), is_marked, into)?;
    Ok(put(alloc, ": ", false, into)?)
}

fn put_comma(alloc: Global, begun: bool, into: &mut Vec<Piece>) -> Result<(), AllocError>
    ensures { OnOk result (told into.new.items ≡ told into.old.items ++ comma_if begun) }
{
    put(alloc, if begun { "," } else { "" }, false, into)
}

#[cycle(listing)]
fn put_value(
    alloc: Global,
    json: &Json<'_>,
    way: Way<'_, '_>,
    margin: &str,
    into: &mut Vec<Piece>,
) -> Result<(), NoMemory>
    ensures { OnOk result (told into.new.items ≡ told into.old.items ++ lines margin.now (tree_of json.now)) }
{
    match json {
        Json::Obj(members) => {
            put(alloc, "{", ends_at(way, members), into)?;
            put_members(
                alloc,
                members,
                behind(way),
                deeper(alloc, margin)?.as_str(),
                into,
            )?;
            put_line(alloc, margin, into)?;
            Ok(put(alloc, "}", false, into)?)
        }
        Json::Arr(items) => {
            put(alloc, "[", false, into)?;
            put_items(alloc, items, way, deeper(alloc, margin)?.as_str(), into)?;
            put_line(alloc, margin, into)?;
            Ok(put(alloc, "]", false, into)?)
        }
        Json::Null | Json::Bool(_) | Json::Num(_) | Json::Str(_) => {
            put_plain(alloc, json, is_end(way), into)
        }
    }
}

// Puts in members, which a way leads to.
#[cycle(listing)]
fn put_members(
    alloc: Global,
    members: &Vec<Member<'_>>,
    way: Way<'_, '_>,
    margin: &str,
    into: &mut Vec<Piece>,
) -> Result<(), NoMemory>
    ensures { OnOk result (told into.new.items ≡ told into.old.items ++ member_lines margin.now false (members_view members.now.items)) }
{
    let mut begun = false;
    for member in members {
        put_comma(alloc, begun, into)?;
        put_line(alloc, margin, into)?;
        let inside = into_property(way, member.name.as_str());
        put_name(alloc, member.name.as_str(), is_shared(inside), into)?;
        put_value(alloc, &member.value, inside, margin, into)?;
        begun = true;
    }
    Ok(())
}

// Puts in the items of a property, which a way leads to.
#[cycle(listing)]
fn put_items(
    alloc: Global,
    items: &Vec<Json<'_>>,
    way: Way<'_, '_>,
    margin: &str,
    into: &mut Vec<Piece>,
) -> Result<(), NoMemory>
    ensures { OnOk result (told into.new.items ≡ told into.old.items ++ item_lines margin.now false (items_view items.now.items)) }
{
    let mut begun = false;
    let mut position: usize = 0;
    for item in items {
        put_comma(alloc, begun, into)?;
        put_line(alloc, margin, into)?;
        put_value(alloc, item, into_item(way, position), margin, into)?;
        begun = true;
        position = position.saturating_add(1);
    }
    Ok(())
}

fn put_json(
    alloc: Global,
    json: &Json<'_>,
    place: &str,
    into: &mut Vec<Piece>,
) -> Result<(), NoMemory>
    ensures { OnOk result (told into.new.items ≡ told into.old.items ++ lines (codes "") (tree_of json.now)) }
{
    let steps = steps_of(alloc, place)?;
    put_value(alloc, json, Some(&steps), "", into)
}

fn put_bytes(alloc: Global, bytes: &[u8], into: &mut Vec<Piece>) -> Result<(), AllocError>
    ensures { OnOk result (told into.new.items ≡ told into.old.items ++ utf8_lossy bytes.now) }
{
    let text = String::from_utf8_lossy(alloc, bytes)?;
    put(alloc, text.as_str(), false, into)
}

fn put_resource(
    alloc: Global,
    resource: &[u8],
    place: &str,
    into: &mut Vec<Piece>,
) -> Result<(), NoMemory>
    ensures { OnOk result (told into.new.items ≡ told into.old.items ++ lines_of resource.now (reading resource.now)) }
{
    match read(alloc, resource) {
        Ok(json) => put_json(alloc, &json, place, into),
        Err(JsonFault::NoMemory) => Err(NoMemory),
        Err(_) => Ok(put_bytes(alloc, resource, into)?),
    }
}

/// The lines of a resource, with the place marked: its bytes as a text, where it isn't JSON. The one refusal is want of memory.
#[tactic(auto, using(crate::proofs::Listings::is_listing))]
pub fn listed(alloc: Global, resource: &[u8], place: &str) -> Result<Element, NoMemory>
    ensures { IfOk result (λ pre. IsListing (lines_of resource.now (reading resource.now)) (element_node pre)) }
{
    let mut pieces = Vec::new(alloc);
    put_resource(alloc, resource, place, &mut pieces)?;
    Ok(pre_of(alloc, &pieces)?)
}
