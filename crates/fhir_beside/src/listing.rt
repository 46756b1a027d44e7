//! A value set that lists the concepts which it has in OLD.

ghost use Rattle.std.specs.Prelude.{◌≡◌, ◌++◌, ◌∷◌, [], IfOk, OnOk, map, codes};
ghost use Rattle.std.specs.Option.{option_map_or};
ghost use Rattle.fhir_json.specs.Tree.{string};
ghost use Rattle.fhir_json.specs.Views.{tree_of, trees_of, property_of, text_seen};
ghost use Rattle.fhir_codes.specs.Concepts.{concept};
ghost use Rattle.fhir_beside.specs.Listing.{object_of, array_of, include_of, compose_of, listed};

use fhir_codes::SharedConcept;
use fhir_json::{Json, Member, NoMemory};
use std::alloc::{AllocError, Global};
use std::borrow::CowStr;

fn text<'o>(alloc: Global, text: &str) -> Result<Json<'o>, AllocError>
    ensures { IfOk result (λ j. tree_of j ≡ string text.now) }
{
    Ok(Json::Str(CowStr::Owned(String::from_str(alloc, text)?)))
}

fn member<'o>(name: &'static str, value: Json<'o>) -> Member<'o>
    ensures { property_of result ≡ (name.now, tree_of value.entry) }
{
    Member {
        name: CowStr::Borrowed(name),
        value,
    }
}

fn push_text<'o>(
    alloc: Global,
    members: &mut Vec<Member<'o>>,
    name: &'static str,
    value: &str,
) -> Result<(), AllocError>
    ensures { OnOk result (map property_of members.new.items ≡ map property_of members.old.items ++ (name.now, string value.now) ∷ []) }
{
    let value = text(alloc, value)?;
    Ok(members.push(member(name, value))?)
}

fn one_item<'o>(alloc: Global, item: Json<'o>) -> Result<Json<'o>, AllocError>
    ensures { IfOk result (λ j. tree_of j ≡ array_of (tree_of item.entry ∷ [])) }
{
    let mut items: Vec<Json<'o>> = Vec::with_capacity(alloc, 1)?;
    items.push(item)?;
    Ok(Json::Arr(items))
}

fn code_json<'o>(alloc: Global, code: &str) -> Result<Json<'o>, AllocError>
    ensures { IfOk result (λ j. tree_of j ≡ object_of ((codes "code", string code.now) ∷ [])) }
{
    let mut members: Vec<Member<'o>> = Vec::with_capacity(alloc, 1)?;
    push_text(alloc, &mut members, "code", code)?;
    Ok(Json::Obj(members))
}

// An include of one concept.
fn include_json<'o>(alloc: Global, system: &str, code: &str) -> Result<Json<'o>, AllocError>
    ensures { IfOk result (λ j. tree_of j ≡ include_of (concept system.now code.now)) }
{
    let mut members: Vec<Member<'o>> = Vec::with_capacity(alloc, 2)?;
    push_text(alloc, &mut members, "system", system)?;
    let code = code_json(alloc, code)?;
    let codes = one_item(alloc, code)?;
    members.push(member("concept", codes))?;
    Ok(Json::Obj(members))
}

// An include for each concept.
fn includes_json<'o>(alloc: Global, concepts: &[SharedConcept]) -> Result<Json<'o>, NoMemory>
    ensures { IfOk result (λ j. tree_of j ≡ array_of (map include_of concepts.now)) }
{
    let mut includes: Vec<Json<'o>> = Vec::with_capacity(alloc, concepts.len())?;
    for concept in concepts {
        includes.push(include_json(alloc, concept.system(), concept.code())?)?;
    }
    Ok(Json::Arr(includes))
}

fn compose_json<'o>(alloc: Global, concepts: &[SharedConcept]) -> Result<Json<'o>, NoMemory>
    ensures { IfOk result (λ j. tree_of j ≡ compose_of concepts.now) }
{
    let mut members: Vec<Member<'o>> = Vec::with_capacity(alloc, 1)?;
    let includes = includes_json(alloc, concepts)?;
    members.push(member("include", includes))?;
    Ok(Json::Obj(members))
}

fn push_version(
    alloc: Global,
    members: &mut Vec<Member<'_>>,
    version: Option<&str>,
) -> Result<(), AllocError>
    ensures { OnOk result (map property_of members.new.items ≡ map property_of members.old.items
        ++ option_map_or (λ v. (codes "version", string v) ∷ []) (text_seen version.entry) []) }
{
    match version {
        Some(version) => push_text(alloc, members, "version", version),
        None => Ok(()),
    }
}

/// A value set of that url and that version which lists these concepts.
pub(crate) fn listed<'o>(
    alloc: Global,
    url: &str,
    version: Option<&str>,
    concepts: &[SharedConcept],
) -> Result<Json<'o>, NoMemory>
    ensures { IfOk result (λ j. tree_of j ≡ listed url.now (text_seen version.entry) concepts.now) }
{
    let mut members: Vec<Member<'o>> = Vec::with_capacity(alloc, 4)?;
    push_text(alloc, &mut members, "resourceType", "ValueSet")?;
    push_text(alloc, &mut members, "url", url)?;
    push_version(alloc, &mut members, version)?;
    let compose = compose_json(alloc, concepts)?;
    members.push(member("compose", compose))?;
    Ok(Json::Obj(members))
}
