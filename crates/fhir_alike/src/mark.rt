//! A text that begins no text of two packages.

ghost use Rattle.std.specs.Prelude.{◌≡◌, ◌++◌, [], IfOk, OnOk, map, string_bytes};
ghost use Rattle.std.specs.List.{flat_map, slice_get};
ghost use Rattle.std.specs.Option.{option_map_or};
ghost use Rattle.fhir_json.specs.Views.{tree_of, trees_of, property_of};
ghost use Rattle.fhir_package.specs.Definitions.{of_kind};
ghost use Rattle.fhir_alike.specs.Mark.{stem, tail_of, tails_of, texts_in, member_texts, definition_tails, kind_texts, package_texts, fewer_behind, grown, mark_between, BeginsNone};

use fhir_json::{Json, Member, NoMemory};
use fhir_package::{Kind, Package};
use std::alloc::{AllocError, Global};

// What the mark begins with.
fn stem() -> &'static str
    ensures { result.now ≡ stem }
{
    "urn:fhirprof:old:"
}

// Puts in what stands behind a stem, where a text begins with it.
fn push_tail<'t>(stem: &[u8], text: &'t [u8], tails: &mut Vec<&'t [u8]>) -> Result<(), AllocError>
    ensures { OnOk result (map (λ t. t.now) tails.new.items ≡ map (λ t. t.now) tails.old.items ++ tail_of stem.now text.entry.now) }
{
    if text.starts_with(stem) {
        Ok(tails.push(&text[stem.len()..])?)
    } else {
        Ok(())
    }
}

// The same of all strings of a tree.
#[cycle(texts)]
fn push_tree<'t>(
    stem: &[u8],
    json: &'t Json<'_>,
    tails: &mut Vec<&'t [u8]>,
) -> Result<(), AllocError>
    ensures { OnOk result (map (λ t. t.now) tails.new.items
        ≡ map (λ t. t.now) tails.old.items ++ tails_of stem.now (texts_in (tree_of json.entry.now))) }
{
    match json {
        Json::Null | Json::Bool(_) | Json::Num(_) => Ok(()),
        Json::Str(text) => push_tail(stem, text.as_str().as_bytes(), tails),
        Json::Arr(items) => push_items(stem, items, tails),
        Json::Obj(members) => push_members(stem, members, tails),
    }
}

#[cycle(texts)]
fn push_items<'t>(
    stem: &[u8],
    items: &'t Vec<Json<'_>>,
    tails: &mut Vec<&'t [u8]>,
) -> Result<(), AllocError>
    ensures { OnOk result (map (λ t. t.now) tails.new.items
        ≡ map (λ t. t.now) tails.old.items ++ tails_of stem.now (flat_map texts_in (trees_of items.entry.now.items))) }
{
    for item in items {
        push_tree(stem, item, tails)?;
    }
    Ok(())
}

#[cycle(texts)]
fn push_members<'t>(
    stem: &[u8],
    members: &'t Vec<Member<'_>>,
    tails: &mut Vec<&'t [u8]>,
) -> Result<(), AllocError>
    ensures { OnOk result (map (λ t. t.now) tails.new.items
        ≡ map (λ t. t.now) tails.old.items ++ tails_of stem.now (flat_map member_texts (map property_of members.entry.now.items))) }
{
    for member in members {
        push_tree(stem, &member.value, tails)?;
    }
    Ok(())
}

// The same of a definition: of its url, and of its tree.
fn push_definition<'t>(
    stem: &[u8],
    url: &'t str,
    definition: &'t Json<'_>,
    tails: &mut Vec<&'t [u8]>,
) -> Result<(), AllocError>
    ensures { OnOk result (map (λ t. t.now) tails.new.items
        ≡ map (λ t. t.now) tails.old.items ++ definition_tails stem.now (url.entry.now, tree_of definition.entry.now)) }
{
    push_tail(stem, url.as_bytes(), tails)?;
    push_tree(stem, definition, tails)
}

// The same of the definition at a place, if there is one.
fn push_at<'t>(
    stem: &[u8],
    kind: Kind,
    package: &'t Package<'_>,
    place: usize,
    tails: &mut Vec<&'t [u8]>,
) -> Result<(), AllocError>
    ensures { OnOk result (map (λ t. t.now) tails.new.items
        ≡ map (λ t. t.now) tails.old.items ++ option_map_or (definition_tails stem.now) (slice_get (of_kind kind «package».entry.now) place) []) }
{
    match package.at(kind, place) {
        Some((url, definition)) => push_definition(stem, url, definition, tails),
        None => Ok(()),
    }
}

fn push_kind<'t>(
    stem: &[u8],
    kind: Kind,
    package: &'t Package<'_>,
    tails: &mut Vec<&'t [u8]>,
) -> Result<(), AllocError>
    ensures { OnOk result (map (λ t. t.now) tails.new.items
        ≡ map (λ t. t.now) tails.old.items ++ tails_of stem.now (kind_texts kind «package».entry.now)) }
{
    for place in 0..package.len(kind) {
        push_at(stem, kind, package, place, tails)?;
    }
    Ok(())
}

fn push_package<'t>(
    stem: &[u8],
    package: &'t Package<'_>,
    tails: &mut Vec<&'t [u8]>,
) -> Result<(), AllocError>
    ensures { OnOk result (map (λ t. t.now) tails.new.items
        ≡ map (λ t. t.now) tails.old.items ++ tails_of stem.now (package_texts «package».entry.now)) }
{
    push_kind(stem, Kind::StructureDefinition, package, tails)?;
    push_kind(stem, Kind::ValueSet, package, tails)?;
    push_kind(stem, Kind::CodeSystem, package, tails)
}

// Of some texts what stands behind a stem, where they begin with it.
fn tails_of<'t>(alloc: Global, stem: &[u8], texts: &[&'t [u8]]) -> Result<Vec<&'t [u8]>, AllocError>
    ensures { IfOk result (λ v. map (λ t. t.now) v.items ≡ tails_of stem.now (map (λ t. t.now) texts.now)) }
{
    let mut tails = Vec::new(alloc);
    for text in texts {
        push_tail(stem, *text, &mut tails)?;
    }
    Ok(tails)
}

// The digit with which fewer texts begin, with what stands behind it in these.
fn fewer_behind<'t>(
    alloc: Global,
    texts: &[&'t [u8]],
) -> Result<(&'static str, Vec<&'t [u8]>), AllocError>
    ensures { IfOk result (λ r. (r.0.now, map (λ t. t.now) r.1.items) ≡ fewer_behind (map (λ t. t.now) texts.now)) }
{
    let zeros = tails_of(alloc, b"0", texts)?;
    let ones = tails_of(alloc, b"1", texts)?;
    if zeros.len() <= ones.len() {
        Ok(("0", zeros))
    } else {
        Ok(("1", ones))
    }
}

// A mark with digits behind it, so that none of the texts that stood behind it begins with these.
fn grown(alloc: Global, mark: String, tails: Vec<&[u8]>) -> Result<String, AllocError>
    ensures { IfOk result (λ m. string_bytes m ≡ grown (map (λ t. t.now) tails.entry.items) (string_bytes mark)) }
{
    let mut mark = mark;
    let mut tails = tails;
    while !tails.is_empty() {
        let (digit, behind) = fewer_behind(alloc, &tails)?;
        mark.push_str(digit)?;
        tails = behind;
    }
    Ok(mark)
}

/// A text that no text of two packages begins with. Each is looked at once, and each digit behind what the mark begins with leaves at most half of
/// those that have to be looked at again.
pub fn mark_between(alloc: Global, old: &Package<'_>, new: &Package<'_>) -> Result<String, NoMemory>
    ensures mark { IfOk result (λ m. string_bytes m ≡ mark_between old.now new.now) }
    ensures fresh { IfOk result (λ m. BeginsNone (string_bytes m) (package_texts old.now ++ package_texts new.now)) }
{
    let front = stem();
    let mut tails = Vec::new(alloc);
    push_package(front.as_bytes(), old, &mut tails)?;
    push_package(front.as_bytes(), new, &mut tails)?;
    let mark = String::from_str(alloc, front)?;
    Ok(grown(alloc, mark, tails)?)
}

/// A text behind the mark.
pub fn marked(alloc: Global, mark: &str, text: &str) -> Result<String, AllocError>
    ensures { IfOk result (λ t. string_bytes t ≡ mark.now ++ text.now) }
{
    let mut marked = String::from_str(alloc, mark)?;
    marked.push_str(text)?;
    Ok(marked)
}
