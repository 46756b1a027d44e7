//! Resources.

ghost use Rattle.std.specs.Prelude.{◌≡◌, IfOk, IfErr, Some, IsTrue};
ghost use Rattle.fhir_json.specs.Views.{tree_of};
ghost use Rattle.fhir_instance.specs.Typing.{resource, item_with};
ghost use Rattle.fhir_instance.specs.View.{item_of, is_no_memory, IsNoItem};
ghost use Rattle.fhir_instance.specs.Found.{kids_found};

use crate::children::resource_kids;
use crate::found::{Found, FoundMisfit, Step};
use crate::leaves::type_named;
use crate::misfit::{Misfit, MisfitKind, kind_of};
use crate::typed::Typed;
use fhir_json::Json;
use fhir_schema::Schema;
use std::alloc::{AllocError, Global};
use std::fmt::Write;

// `value` of `value[x]`.
fn without_choice(name: &str) -> &str {
    name.strip_suffix("[x]").unwrap_or(name)
}

fn put_step(place: &mut String, step: Step<'_>) -> Result<(), AllocError> {
    place.push('.')?;
    place.push_str(without_choice(step.name))?;
    if let Some(index) = step.index {
        write!(place, "[{index}]")?;
    }
    Ok(())
}

// The place of a misfit, as it's written. Where the outermost has no type that is known, there is none.
fn place_of(
    alloc: Global,
    code: &str,
    misfit: &FoundMisfit<'_>,
) -> Result<Option<String>, AllocError> {
    let Some(property) = misfit.property else {
        return Ok(None);
    };
    if misfit.kind == MisfitKind::UnknownType && misfit.steps.is_empty() {
        return Ok(None);
    }
    let mut place = String::from_str(alloc, code)?;
    let mut i = misfit.steps.len();
    while i > 0 {
        i -= 1;
        put_step(&mut place, misfit.steps[i])?;
    }
    place.push('.')?;
    place.push_str(property)?;
    Ok(Some(place))
}

fn misfit_of(alloc: Global, code: &str, misfit: &FoundMisfit<'_>) -> Misfit {
    match place_of(alloc, code, misfit) {
        Ok(place) => Misfit {
            kind: misfit.kind,
            place,
        },
        Err(_) => no_memory(),
    }
}

fn no_memory() -> Misfit
    ensures { IsTrue (is_no_memory result) }
{
    Misfit {
        kind: MisfitKind::NoMemory,
        place: None,
    }
}

fn item_or_misfit<'a, 'j>(
    alloc: Global,
    code: &'a str,
    json: &'a Json<'j>,
    found: Found<'a, 'j>,
) -> Result<Typed<'a, 'j>, Misfit>
    ensures item { IfOk result (λ x. item_with code.now (Some (tree_of json.now)) (kids_found found.entry) ≡ Some (item_of x)) }
    ensures misfit { IfErr result (λ m. IsNoItem (is_no_memory m)
        (item_with code.now (Some (tree_of json.now)) (kids_found found.entry))) }
{
    let Found { kids, misfit } = found;
    match misfit {
        Some(misfit) => Err(misfit_of(alloc, code, &misfit)),
        None => Ok(Typed {
            code,
            json: Some(json),
            kids,
        }),
    }
}

// What is wrong with a value that doesn't say its type.
fn kind_of_untyped(json: &Json<'_>) -> MisfitKind {
    match json {
        Json::Obj(members) if !members.is_empty() => MisfitKind::UnknownType,
        _ => kind_of(json),
    }
}

/// The item that a JSON value is, as a resource of the type that it names (FHIR R4, JSON representation of resources).
/// The type definitions of the schema say so alone, and no profile. A value that is no resource has a misfit, which is the
/// first in the order of its properties, depth first; so a tree has an item exactly where there is no misfit but want of
/// memory.
pub fn type_resource<'a, 'j>(
    alloc: Global,
    schema: &'a Schema,
    json: &'a Json<'j>,
) -> Result<Typed<'a, 'j>, Misfit>
    ensures item { IfOk result (λ x. resource schema.now (tree_of json.now) ≡ Some (item_of x)) }
    ensures misfit { IfErr result (λ m. IsNoItem (is_no_memory m) (resource schema.now (tree_of json.now))) }
{
    let Some(code) = type_named(json) else {
        return Err(Misfit {
            kind: kind_of_untyped(json),
            place: None,
        });
    };
    match resource_kids(alloc, schema, json, code) {
        Ok(found) => item_or_misfit(alloc, code, json, found),
        Err(_) => Err(no_memory()),
    }
}
