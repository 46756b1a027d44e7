//! The concepts that code systems define (FHIR R4, CodeSystem).

ghost use Rattle.std.specs.Prelude.{◌≡◌, [], ◌∷◌, ◌++◌, map, OnOk, false, is_some, codes};
ghost use Rattle.std.specs.Option.{option_map_or};
ghost use Rattle.std.specs.Str.{bytes_eq};
ghost use Rattle.std.specs.Rc.{rc_str_bytes};
ghost use Rattle.fhir_json.specs.Tree.{Text};
ghost use Rattle.fhir_json.specs.Fields.{text_in, text_at};
ghost use Rattle.fhir_json.specs.Views.{tree_of, trees_of, items_view, members_view};
ghost use Rattle.fhir_json.specs.Memory.{Gives};
ghost use Rattle.fhir_codes.specs.CodeSystems.{is_coded, is_concept, nested_are_concepts, is_concept_list, are_concepts, codes_of_concept, nested_codes, codes_of_list, codes_of_concepts, is_complete, codes_defined};
ghost use Rattle.fhir_codes.specs.Concepts.{concept, of_system};
ghost use Rattle.fhir_codes.specs.Adding.{Adds};

use crate::concept_set::ConceptSet;
use crate::shared_concept::SharedConcept;
use crate::texts::Texts;
use fhir_json::{Json, Member, NoMemory};
use std::alloc::Global;
use std::rc::RcStr;

// ---- whether concepts can be read

/// Whether it has a code.
pub(crate) fn is_coded(json: &Json<'_>) -> bool
    ensures { result ≡ is_coded (tree_of json.now) }
{
    json.text_in("code").is_some()
}

#[cycle(concepts)]
fn is_concept(json: &Json<'_>) -> bool
    ensures { result ≡ is_concept (tree_of json.now) }
{
    match json {
        Json::Obj(members) => is_coded(json) && nested_are_concepts(members),
        _ => false,
    }
}

#[cycle(concepts)]
fn nested_are_concepts(members: &Vec<Member<'_>>) -> bool
    ensures { result ≡ nested_are_concepts (members_view members.now.items) }
{
    for member in members {
        if member.name.as_str() == "concept" {
            return is_concept_list(&member.value);
        }
    }
    true
}

#[cycle(concepts)]
fn is_concept_list(json: &Json<'_>) -> bool
    ensures { result ≡ is_concept_list (tree_of json.now) }
{
    match json {
        Json::Arr(items) => are_concepts(items),
        _ => false,
    }
}

#[cycle(concepts)]
fn are_concepts(items: &Vec<Json<'_>>) -> bool
    ensures { result ≡ are_concepts (items_view items.now.items) }
{
    for item in items {
        if !is_concept(item) {
            return false;
        }
    }
    true
}

fn says_complete(json: &Json<'_>) -> bool
    ensures { result ≡ option_map_or (bytes_eq (codes "complete")) (text_in (codes "content") (tree_of json.now)) false }
{
    match json.text_in("content") {
        Some(content) => "complete" == content,
        None => false,
    }
}

/// Whether a code system says that it defines all codes of its system, and its concepts can be read (FHIR R4, CodeSystem,
/// content). It takes no memory.
pub(crate) fn is_complete(json: &Json<'_>) -> bool
    ensures { result ≡ is_complete (tree_of json.now) }
{
    match json {
        Json::Obj(members) => says_complete(json) && nested_are_concepts(members),
        _ => false,
    }
}

// ---- their codes

#[cycle(codes)]
fn put_concept<'t>(json: &'t Json<'_>, out: &mut Vec<&'t str>) -> Result<(), NoMemory>
    ensures { OnOk result (map (λ c. c.now) out.new.items
        ≡ map (λ c. c.now) out.old.items ++ codes_of_concept (tree_of json.now)) }
{
    match json {
        Json::Obj(members) => {
            out.push(json.text_at("code"))?;
            put_nested(members, out)
        }
        _ => Ok(()),
    }
}

#[cycle(codes)]
fn put_nested<'t>(members: &'t Vec<Member<'_>>, out: &mut Vec<&'t str>) -> Result<(), NoMemory>
    ensures { OnOk result (map (λ c. c.now) out.new.items
        ≡ map (λ c. c.now) out.old.items ++ nested_codes (members_view members.now.items)) }
{
    for member in members {
        if member.name.as_str() == "concept" {
            return put_list(&member.value, out);
        }
    }
    Ok(())
}

#[cycle(codes)]
fn put_list<'t>(json: &'t Json<'_>, out: &mut Vec<&'t str>) -> Result<(), NoMemory>
    ensures { OnOk result (map (λ c. c.now) out.new.items ≡ map (λ c. c.now) out.old.items ++ codes_of_list (tree_of json.now)) }
{
    match json {
        Json::Arr(items) => put_concepts(items, out),
        _ => Ok(()),
    }
}

#[cycle(codes)]
fn put_concepts<'t>(items: &'t Vec<Json<'_>>, out: &mut Vec<&'t str>) -> Result<(), NoMemory>
    ensures { OnOk result (map (λ c. c.now) out.new.items
        ≡ map (λ c. c.now) out.old.items ++ codes_of_concepts (items_view items.now.items)) }
{
    for item in items {
        put_concept(item, out)?;
    }
    Ok(())
}

fn put_defined<'t>(json: &'t Json<'_>, out: &mut Vec<&'t str>) -> Result<(), NoMemory>
    ensures { OnOk result (map (λ c. c.now) out.new.items ≡ map (λ c. c.now) out.old.items ++ codes_defined (tree_of json.now)) }
{
    match json {
        Json::Obj(members) => put_nested(members, out),
        _ => Ok(()),
    }
}

fn put_listed<'t>(concepts: &'t [Json<'_>], out: &mut Vec<&'t str>) -> Result<(), NoMemory>
    ensures { OnOk result (map (λ c. c.now) out.new.items
        ≡ map (λ c. c.now) out.old.items ++ map (text_at (codes "code")) (trees_of concepts.now)) }
{
    for json in concepts {
        out.push(json.text_at("code"))?;
    }
    Ok(())
}

// ---- their concepts

// The same codes in the order of their bytes, each once.
fn distinct_codes<'t>(mut codes: Vec<&'t str>) -> Vec<&'t str>
    ensures { (system : Text) → of_system system (map (λ c. c.now) result.items)
        ≡ of_system system (map (λ c. c.now) codes.entry.items) }
{
    codes.sort_unstable();
    codes.dedup();
    codes
}

fn put_code(
    code: &str,
    alloc: Global,
    texts: &mut Texts,
    system: &RcStr,
    out: &mut Vec<SharedConcept>,
) -> Result<(), NoMemory>
    ensures { OnOk result (out.new.items ≡ out.old.items ++ concept (rc_str_bytes system.now) code.now ∷ []) }
{
    let code = texts.share(alloc, code)?;
    let system = system.clone()?;
    out.push(SharedConcept::new(system, code))?;
    Ok(())
}

fn put_codes(
    codes: &[&str],
    alloc: Global,
    texts: &mut Texts,
    system: &RcStr,
    out: &mut Vec<SharedConcept>,
) -> Result<(), NoMemory>
    ensures { OnOk result (Adds (rc_str_bytes system.now) (map (λ c. c.now) codes.now) out.old.items out.new.items) }
{
    for code in codes {
        put_code(code, alloc, texts, system, out)?;
    }
    Ok(())
}

// The texts are made in the order of the table, so that a walk through it is one through memory.
fn concepts_of(
    alloc: Global,
    texts: &mut Texts,
    system: &RcStr,
    codes: Vec<&str>,
) -> Result<ConceptSet, NoMemory>
    ensures { Gives (λ s. s) result (of_system (rc_str_bytes system.now) (map (λ c. c.now) codes.entry.items)) }
{
    let codes = distinct_codes(codes);
    let mut out = Vec::with_capacity(alloc, codes.len())?;
    put_codes(&codes, alloc, texts, system, &mut out)?;
    ConceptSet::of(out)
}

// The concepts of these codes in the system of that url.
fn table_of(
    alloc: Global,
    texts: &mut Texts,
    url: &str,
    codes: Vec<&str>,
) -> Result<ConceptSet, NoMemory>
    ensures { Gives (λ s. s) result (of_system url.now (map (λ c. c.now) codes.entry.items)) }
{
    texts.settle(alloc)?;
    let system = texts.share(alloc, url)?;
    texts.settle(alloc)?;
    concepts_of(alloc, texts, &system, codes)
}

/// The concepts that a code system defines, in the system of that url.
pub(crate) fn concepts_defined(
    alloc: Global,
    texts: &mut Texts,
    url: &str,
    json: &Json<'_>,
) -> Result<ConceptSet, NoMemory>
    ensures { Gives (λ s. s) result (of_system url.now (codes_defined (tree_of json.now))) }
{
    let mut codes = Vec::new(alloc);
    put_defined(json, &mut codes)?;
    table_of(alloc, texts, url, codes)
}

/// The concepts that an include lists, in the system of that url.
pub(crate) fn concepts_listed(
    alloc: Global,
    texts: &mut Texts,
    url: &str,
    concepts: &[Json<'_>],
) -> Result<ConceptSet, NoMemory>
    ensures { Gives (λ s. s) result (of_system url.now (map (text_at (codes "code")) (trees_of concepts.now))) }
{
    let mut codes = Vec::with_capacity(alloc, concepts.len())?;
    put_listed(concepts, &mut codes)?;
    table_of(alloc, texts, url, codes)
}
