//! What is said of a url, as JSON objects.

ghost use Rattle.std.specs.Prelude.{◌≡◌, ◌++◌, map, string_bytes, IfOk, OnOk};
ghost use Rattle.fhir_json.specs.Compact.{compact};
ghost use Rattle.fhir_json.specs.Views.{property_of};
ghost use Rattle.fhir_compare.specs.Comparing.{both};
ghost use Rattle.fhir_compare.specs.Views.{ways_seen, verdict_seen};
ghost use Rattle.fhir_compare_lines.specs.Trees.{IsObject, IsObjectIf, AreObjects, IsToldTree, shown_counts, alone_counts, other_counts, last_properties, counts_tree};

use crate::counting::Counts;
use crate::failing::{Direction, Why, is_refuted, way_words, why_of};
use crate::parts::Part;
use crate::sources::{Side, Sources};
use crate::texts::change_word;
use crate::unusable::unusable_line;
use fhir_compare::{Compared, Verdict, Way, Ways};
use fhir_json::{Json, JsonFault, NoMemory, read};
use fhir_lines::{
    Line, Members, object_text, push_texts, put_all, put_count, put_owned, put_text, put_text_if,
    put_value,
};
use std::alloc::{AllocError, Global};
use std::borrow::CowStr;

// The url and the words, and what stands behind them.
fn object_row(
    alloc: Global,
    url: &str,
    words: &'static str,
    further: Members<'static>,
) -> Result<Vec<String>, NoMemory>
    ensures { IfOk result (λ ls. IsObject url.now words.now (map string_bytes ls.items)) }
{
    let mut members: Members<'static> = Vec::new(alloc);
    put_owned("url", String::from_str(alloc, url)?, &mut members)?;
    put_text("verdict", words, &mut members)?;
    put_all(further, &mut members)?;
    let mut rows: Vec<String> = Vec::new(alloc);
    rows.push(object_text(alloc, members)?)?;
    Ok(rows)
}

// ---- ways

// The resource that a text is, or where it is none the text.
fn resource_in(alloc: Global, text: &str) -> Result<Json<'static>, NoMemory> {
    match read(alloc, text.as_bytes()) {
        Ok(resource) => Ok(resource.detach(alloc)?),
        Err(JsonFault::NoMemory) => Err(NoMemory),
        Err(_) => Ok(Json::Str(CowStr::Owned(String::from_str(alloc, text)?))),
    }
}

fn put_resource(
    alloc: Global,
    resource: Option<String>,
    into: &mut Members<'static>,
) -> Result<(), NoMemory> {
    match resource {
        Some(text) => Ok(put_value("counterexample", resource_in(alloc, text.as_str())?, into)?),
        None => Ok(()),
    }
}

fn put_why(alloc: Global, why: Why, into: &mut Members<'static>) -> Result<(), NoMemory> {
    match why {
        Why::Says(text) => Ok(put_owned("text", text, into)?),
        Why::Fails {
            pair,
            rule,
            words,
            resource,
        } => {
            put_owned("pair", pair, into)?;
            put_owned("rule", rule, into)?;
            put_owned("text", words, into)?;
            put_resource(alloc, resource, into)
        }
    }
}

fn way_json(alloc: Global, direction: Direction, why: Why) -> Result<Json<'static>, NoMemory> {
    let mut members: Members<'static> = Vec::new(alloc);
    put_text("way", way_words(direction, is_refuted(&why)), &mut members)?;
    put_why(alloc, why, &mut members)?;
    Ok(Json::Obj(members))
}

fn push_way(
    alloc: Global,
    sources: Sources<'_, '_, '_>,
    url: &str,
    direction: Direction,
    way: &Way<'_>,
    lost: Option<&str>,
    into: &mut Vec<Json<'static>>,
) -> Result<(), NoMemory> {
    match why_of(alloc, sources, url, way, lost)? {
        Some(why) => Ok(into.push(way_json(alloc, direction, why)?)?),
        None => Ok(()),
    }
}

// The ways that aren't shown, if there are any.
fn ways_members(
    alloc: Global,
    sources: Sources<'_, '_, '_>,
    url: &str,
    ways: &Ways<'_>,
) -> Result<Members<'static>, NoMemory> {
    let mut failing: Vec<Json<'static>> = Vec::new(alloc);
    push_way(
        alloc,
        sources,
        url,
        Direction::NewInOld,
        &ways.new_in_old,
        ways.lost,
        &mut failing,
    )?;
    push_way(
        alloc,
        sources,
        url,
        Direction::OldInNew,
        &ways.old_in_new,
        ways.lost,
        &mut failing,
    )?;
    let mut members: Members<'static> = Vec::new(alloc);
    if !failing.is_empty() {
        put_value("ways", Json::Arr(failing), &mut members)?;
    }
    Ok(members)
}

fn ways_rows(
    alloc: Global,
    sources: Sources<'_, '_, '_>,
    url: &str,
    ways: &Ways<'_>,
) -> Result<Vec<String>, NoMemory>
    ensures { IfOk result (λ ls. IsToldTree url.now (both (ways_seen ways.now)) (map string_bytes ls.items)) }
{
    let further = ways_members(alloc, sources, url, ways)?;
    object_row(alloc, url, change_word(ways.change()), further)
}

// ---- profiles that can't be used

fn put_reason(
    alloc: Global,
    line: Option<Line<'_>>,
    into: &mut Members<'static>,
) -> Result<(), AllocError> {
    let Some(line) = line else {
        return Ok(());
    };
    put_text_if("number", line.number.map(|number| number.text()), into)?;
    if let Some(id) = line.id {
        put_owned("element", String::from_str(alloc, id)?, into)?;
    }
    put_owned("text", line.text, into)
}

fn unusable_row<'s, 'f: 's>(
    alloc: Global,
    side: Side<'s, 'f>,
    url: &'s str,
    words: &'static str,
) -> Result<Vec<String>, NoMemory>
    ensures { IfOk result (λ ls. IsObject url.now words.now (map string_bytes ls.items)) }
{
    let mut members: Members<'static> = Vec::new(alloc);
    put_reason(alloc, unusable_line(alloc, side, url)?, &mut members)?;
    object_row(alloc, url, words, members)
}

fn unusable_if<'s, 'f: 's>(
    alloc: Global,
    side: Side<'s, 'f>,
    url: &'s str,
    is_unusable: bool,
    words: &'static str,
) -> Result<Vec<String>, NoMemory>
    ensures { IfOk result (λ ls. IsObjectIf is_unusable url.now words.now (map string_bytes ls.items)) }
{
    if is_unusable {
        unusable_row(alloc, side, url, words)
    } else {
        Ok(Vec::new(alloc))
    }
}

fn unusable_rows<'s>(
    alloc: Global,
    sources: Sources<'s, '_, '_>,
    url: &'s str,
    in_old: bool,
    in_new: bool,
) -> Result<Vec<String>, NoMemory>
    ensures { IfOk result (λ ls. AreObjects in_old in_new url.now (map string_bytes ls.items)) }
{
    let mut rows = unusable_if(alloc, sources.old, url, in_old, "can't be used in OLD")?;
    let others = unusable_if(alloc, sources.new, url, in_new, "can't be used in NEW")?;
    push_texts(others, &mut rows)?;
    Ok(rows)
}

// ---- a url

/// The objects on a url, one a line.
pub(crate) fn tree_lines<'s>(
    alloc: Global,
    sources: Sources<'s, '_, '_>,
    compared: &Compared<'s>,
) -> Result<Vec<String>, NoMemory>
    ensures { IfOk result (λ ls. IsToldTree compared.now.url.now (verdict_seen compared.now.verdict) (map string_bytes ls.items)) }
{
    let url = compared.url;
    match &compared.verdict {
        Verdict::Both(ways) => ways_rows(alloc, sources, url, ways),
        Verdict::CannotBeUsed { in_old, in_new } => {
            unusable_rows(alloc, sources, url, *in_old, *in_new)
        }
        Verdict::OnlyInOld => object_row(alloc, url, "only in OLD", Vec::new(alloc)),
        Verdict::OnlyInNew => object_row(alloc, url, "only in NEW", Vec::new(alloc)),
    }
}

fn put_shown(alloc: Global, counts: Counts, into: &mut Members<'_>) -> Result<(), AllocError>
    ensures { OnOk result (map property_of into.new.items ≡ map property_of into.old.items ++ shown_counts counts) }
{
    put_count(alloc, "profiles", counts.profiles, into)?;
    put_count(alloc, "same", counts.same, into)?;
    put_count(alloc, "narrow", counts.narrow, into)?;
    put_count(alloc, "widen", counts.widen, into)
}

fn put_alone(alloc: Global, counts: Counts, into: &mut Members<'_>) -> Result<(), AllocError>
    ensures { OnOk result (map property_of into.new.items ≡ map property_of into.old.items ++ alone_counts counts) }
{
    put_count(alloc, "onlyInOld", counts.only_in_old, into)?;
    put_count(alloc, "onlyInNew", counts.only_in_new, into)?;
    Ok(())
}

fn put_others(alloc: Global, counts: Counts, into: &mut Members<'_>) -> Result<(), AllocError>
    ensures { OnOk result (map property_of into.new.items ≡ map property_of into.old.items ++ other_counts counts) }
{
    put_count(alloc, "neither", counts.neither, into)?;
    put_count(alloc, "unusable", counts.unusable, into)?;
    put_alone(alloc, counts, into)?;
    Ok(())
}

fn last_members(
    alloc: Global,
    counts: Counts,
    types: usize,
    part: Part,
) -> Result<Members<'static>, AllocError>
    ensures { IfOk result (λ members. map property_of members.items ≡ last_properties counts types part) }
{
    let mut members: Members<'static> = Vec::new(alloc);
    put_shown(alloc, counts, &mut members)?;
    put_others(alloc, counts, &mut members)?;
    put_count(alloc, "typesThatDiffer", types, &mut members)?;
    put_text("version", part.text(), &mut members)?;
    Ok(members)
}

/// The last object: the counts, how many types differ, and the part of a version.
pub(crate) fn last_row(
    alloc: Global,
    counts: Counts,
    types: usize,
    part: Part,
) -> Result<String, NoMemory>
    ensures { IfOk result (λ text. string_bytes text ≡ compact (counts_tree counts types part)) }
{
    let members = last_members(alloc, counts, types, part)?;
    object_text(alloc, members)
}
