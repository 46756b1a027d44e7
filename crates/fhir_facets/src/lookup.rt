//! How an item is looked up in a value set.

ghost use Rattle.std.specs.Prelude.{◌≡◌, true, false};
ghost use Rattle.std.specs.List.{list_any};
ghost use Rattle.std.specs.Option.{option_map_or};
ghost use Rattle.fhir_json.specs.Views.{tree_of, trees_of, tree_seen};
ghost use Rattle.fhir_json.specs.Fields.{as_text};
ghost use Rattle.fhir_prims.specs.Values.{prim_of};
ghost use Rattle.fhir_codes.specs.Concepts.{has_code};
ghost use Rattle.fhir_facets.specs.Bindings.{is_text_prim, is_text_type, is_text, lookup_of, has_coding, has_one_coding, is_in};
ghost use Rattle.fhir_facets.specs.Views.{view_seen};

use crate::view::View;
use fhir_codes::ConceptSet;
use fhir_json::Json;
use fhir_prims::PrimType;
use fhir_schema::is_system;

/// How an item is looked up in a value set.
#[derive(Clone, Copy, Debug, PartialEq, Eq)]
pub enum Lookup {
    /// A primitive's text, as a code of whatever system.
    ByCode,
    /// The system and the code of a Coding.
    ByCoding,
    /// One of the codings of a CodeableConcept.
    ByOneCoding,
}

fn is_text_prim(prim: PrimType) -> bool
    ensures { result ≡ is_text_prim prim }
{
    match prim {
        PrimType::Boolean
        | PrimType::Integer
        | PrimType::UnsignedInt
        | PrimType::PositiveInt
        | PrimType::Decimal => false,
        _ => true,
    }
}

fn names_text_prim(code: &str) -> bool
    ensures { result ≡ option_map_or is_text_prim (prim_of code.now) false }
{
    match PrimType::of(code) {
        Some(prim) => is_text_prim(prim),
        None => false,
    }
}

fn is_text_type(code: &str) -> bool
    ensures { result ≡ is_text_type code.now }
{
    is_system(code) || names_text_prim(code)
}

fn is_text(json: &Json<'_>) -> bool
    ensures { result ≡ is_text (tree_of json.now) }
{
    json.as_text().is_some()
}

fn is_text_or_absent(json: Option<&Json<'_>>) -> bool
    ensures { result ≡ option_map_or is_text (tree_seen json.entry) true }
{
    match json {
        Some(json) => is_text(json),
        None => true,
    }
}

/// How an item is looked up; one of another type isn't.
pub(crate) fn lookup_of(view: &View<'_, '_>) -> Option<Lookup>
    ensures { result ≡ lookup_of (view_seen view.now) }
{
    if view.code == "Coding" {
        Some(Lookup::ByCoding)
    } else if view.code == "CodeableConcept" {
        Some(Lookup::ByOneCoding)
    } else if is_text_type(view.code) && is_text_or_absent(view.json) {
        Some(Lookup::ByCode)
    } else {
        None
    }
}

fn has_coding(set: &ConceptSet, coding: &Json<'_>) -> bool
    ensures { result ≡ has_coding set.now (tree_of coding.now) }
{
    let Some(system) = coding.text_in("system") else {
        return false;
    };
    match coding.text_in("code") {
        Some(code) => set.contains(system, code),
        None => false,
    }
}

fn some_coding_is_in(set: &ConceptSet, codings: &[Json<'_>]) -> bool
    ensures { result ≡ list_any (has_coding set.now) (trees_of codings.now) }
{
    for coding in codings {
        if has_coding(set, coding) {
            return true;
        }
    }
    false
}

fn has_one_coding(set: &ConceptSet, json: &Json<'_>) -> bool
    ensures { result ≡ has_one_coding set.now (tree_of json.now) }
{
    some_coding_is_in(set, json.items_in("coding"))
}

fn has_code(set: &ConceptSet, json: &Json<'_>) -> bool
    ensures { result ≡ option_map_or (λ code. has_code code set.now) (as_text (tree_of json.now)) true }
{
    match json.as_text() {
        Some(code) => set.contains_code(code),
        None => true,
    }
}

/// Whether an item is in a set, looked up so.
pub(crate) fn is_in(how: Lookup, set: &ConceptSet, view: &View<'_, '_>) -> bool
    ensures { result ≡ is_in how set.now (view_seen view.now) }
{
    match (how, view.json) {
        (Lookup::ByCode, Some(json)) => has_code(set, json),
        (Lookup::ByCode, None) => true,
        (Lookup::ByCoding, Some(json)) => has_coding(set, json),
        (Lookup::ByCoding, None) => false,
        (Lookup::ByOneCoding, Some(json)) => has_one_coding(set, json),
        (Lookup::ByOneCoding, None) => false,
    }
}
