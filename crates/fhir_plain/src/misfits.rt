//! Why a JSON value is no resource, in plain words (FHIR R4, JSON representation of resources).

use crate::shown::{cut, kind_word, shown};
use crate::spot::{Meaning, Spot};
use fhir_json::Json;
use fhir_prims::lexical;
use fhir_schema::{Content, Schema};
use std::alloc::{AllocError, Global};

// What a misfit is told of: a value, where it stands, and what its property means. The outermost value has no meaning.
#[derive(Clone, Copy)]
struct Site<'r, 'j> {
    spot: Spot<'r, 'j>,
    value: Option<&'r Json<'j>>,
    meaning: Option<Meaning<'r>>,
}

impl<'r, 'j> Site<'r, 'j> {
    // That at a place of a resource. A property that isn't there is told of only where it is `resourceType`.
    fn at(schema: &'r Schema, resource: &'r Json<'j>, place: &'r str) -> Option<Site<'r, 'j>> {
        let spot = Spot::at(schema, resource, place)?;
        if place.is_empty() {
            return Some(Site {
                spot,
                value: Some(resource),
                meaning: None,
            });
        }
        let value = spot.named(spot.name);
        if value.is_none() && spot.name != "resourceType" {
            return None;
        }
        Some(Site {
            spot,
            value,
            meaning: spot.meaning(schema),
        })
    }
}

// ---- I1

fn unknown_words(alloc: Global, schema: &Schema, spot: Spot<'_, '_>) -> Result<String, AllocError> {
    let name = cut(alloc, spot.name)?;
    match spot.node {
        Some(node) => {
            let (_, id) = schema.name(node);
            format!(in alloc; "`{id}` has no property `{name}`")
        }
        None => format!(in alloc; "no property `{name}` is known here"),
    }
}

// ---- I2, I3

fn array_words(site: Site<'_, '_>) -> &'static str {
    match site.meaning {
        Some(_) => "one value expected, found an array",
        None => "a resource expected, found an array",
    }
}

fn single_words(alloc: Global, site: Site<'_, '_>) -> Result<String, AllocError> {
    match site.value {
        Some(value) => format!(in alloc; "an array expected, found {}", kind_word(value)),
        None => Ok(String::new(alloc)),
    }
}

// ---- I4

fn is_empty(json: &Json<'_>) -> bool {
    match json {
        Json::Null => true,
        Json::Str(text) => text.as_str().is_empty(),
        Json::Arr(items) => items.is_empty(),
        Json::Obj(members) => members.is_empty(),
        _ => false,
    }
}

// An array among the items of another is wrong for another reason. So is null, where it may stand beside a companion.
fn is_empty_item(json: &Json<'_>, allows_null: bool) -> bool {
    match json {
        Json::Null => !allows_null,
        Json::Arr(_) => false,
        _ => is_empty(json),
    }
}

fn first_empty<'r, 'j>(items: &'r [Json<'j>], allows_null: bool) -> Option<&'r Json<'j>> {
    for item in items {
        if is_empty_item(item, allows_null) {
            return Some(item);
        }
    }
    None
}

fn allows_null(meaning: Option<Meaning<'_>>) -> bool {
    match meaning {
        Some(meaning) => meaning.form.content().is_primitive(),
        None => false,
    }
}

// The value that is empty, or the first in an array.
fn empty_value<'r, 'j>(site: Site<'r, 'j>) -> Option<&'r Json<'j>> {
    let value = site.value?;
    if is_empty(value) {
        return Some(value);
    }
    match value {
        Json::Arr(items) => first_empty(items, allows_null(site.meaning)),
        _ => None,
    }
}

fn empty_words(site: Site<'_, '_>) -> &'static str {
    match empty_value(site) {
        Some(Json::Null) => "a value expected, found null",
        Some(Json::Str(_)) => "a value expected, found an empty text",
        Some(Json::Arr(_)) => "a value expected, found an empty array",
        Some(Json::Obj(_)) => "a value expected, found an empty object",
        _ => "",
    }
}

// ---- I5

fn article(code: &str) -> &'static str {
    match code.as_bytes() {
        [b'a' | b'e' | b'i' | b'o', ..] | [b'u', b'n', ..] => "an",
        _ => "a",
    }
}

fn expected_words(alloc: Global, meaning: Option<Meaning<'_>>) -> Result<String, AllocError> {
    let Some(meaning) = meaning else {
        return String::from_str(alloc, "a resource");
    };
    if meaning.is_companion {
        return String::from_str(alloc, "an object");
    }
    let code = meaning.form.code();
    match meaning.form.content() {
        Content::Primitive(_, _) => format!(in alloc; "{} `{code}`", article(code)),
        Content::System => String::from_str(alloc, "a text"),
        Content::Resource => String::from_str(alloc, "a resource"),
        Content::Complex(_) => format!(in alloc; "an object of the type `{code}`"),
    }
}

fn is_of_content(content: Content, json: &Json<'_>) -> bool {
    match content {
        Content::Primitive(prim, _) => lexical(prim, json),
        Content::System => json.as_text().is_some(),
        Content::Resource | Content::Complex(_) => json.is_object(),
    }
}

// Whether a value isn't what its property holds. One that is empty, or an array, is wrong for another reason.
fn is_wrong(meaning: Option<Meaning<'_>>, json: &Json<'_>) -> bool {
    if json.is_array() || is_empty(json) {
        return false;
    }
    match meaning {
        Some(meaning) if !meaning.is_companion => !is_of_content(meaning.form.content(), json),
        _ => !json.is_object(),
    }
}

fn first_wrong<'r, 'j>(
    meaning: Option<Meaning<'_>>,
    items: &'r [Json<'j>],
) -> Option<&'r Json<'j>> {
    for item in items {
        if is_wrong(meaning, item) {
            return Some(item);
        }
    }
    None
}

// The value that is wrong, or the first in an array.
fn wrong_value<'r, 'j>(site: Site<'r, 'j>) -> Option<&'r Json<'j>> {
    let value = site.value?;
    match value {
        Json::Arr(items) => first_wrong(site.meaning, items),
        _ => Some(value),
    }
}

fn wrong_words(alloc: Global, site: Site<'_, '_>) -> Result<String, AllocError> {
    let expected = expected_words(alloc, site.meaning)?;
    match wrong_value(site) {
        Some(value) => {
            let found = shown(alloc, value)?;
            format!(in alloc; "{expected} expected, found {found}")
        }
        None => format!(in alloc; "{expected} expected"),
    }
}

// ---- I6

fn count_of(json: Option<&Json<'_>>) -> Option<usize> {
    match json {
        Some(Json::Arr(items)) => Some(items.len()),
        _ => None,
    }
}

fn counted(
    alloc: Global,
    count: usize,
    one: &'static str,
    several: &'static str,
) -> Result<String, AllocError> {
    let word = if count == 1 { one } else { several };
    format!(in alloc; "{count} {word}")
}

fn counts_words(alloc: Global, values: usize, companions: usize) -> Result<String, AllocError> {
    let values = counted(alloc, values, "value", "values")?;
    let companions = counted(alloc, companions, "companion", "companions")?;
    format!(in alloc;
        "a property and its companion have to go together: found {values} and {companions}"
    )
}

fn pair_words(alloc: Global, spot: Spot<'_, '_>) -> Result<String, AllocError> {
    let name = spot.name.strip_prefix('_').unwrap_or(spot.name);
    let values = count_of(spot.named(name));
    let companions = count_of(spot.companion_of(name));
    match (values, companions) {
        (Some(values), Some(companions)) if values != companions => {
            counts_words(alloc, values, companions)
        }
        _ => String::from_str(
            alloc,
            "a property and its companion have to go together: null stands where the other has nothing either",
        ),
    }
}

// ---- I7

fn type_words(alloc: Global, spot: Spot<'_, '_>) -> Result<String, AllocError> {
    let found = match spot.named("resourceType") {
        Some(Json::Str(code)) => {
            let code = cut(alloc, code.as_str())?;
            format!(in alloc; "`{code}`")?
        }
        Some(json) => shown(alloc, json)?,
        None => String::from_str(alloc, "none")?,
    };
    format!(in alloc;
        "`resourceType` has to name a type of resources that the package has and that can be used, found {found}"
    )
}

// Other diagnostics are told by themselves, and their places, which may be as many as a resource has, aren't looked for.
fn is_misfit(number: &str) -> bool {
    match number {
        "I1" | "I2" | "I3" | "I4" | "I5" | "I6" | "I7" => true,
        _ => false,
    }
}

/// The words on the misfit of a number at a place of a resource. They are empty where there is nothing at the place, and where it is no misfit.
pub(crate) fn misfit_words(
    alloc: Global,
    schema: &Schema,
    resource: &Json<'_>,
    place: &str,
    number: &str,
) -> Result<String, AllocError> {
    if !is_misfit(number) {
        return Ok(String::new(alloc));
    }
    let Some(site) = Site::at(schema, resource, place) else {
        return Ok(String::new(alloc));
    };
    match number {
        "I1" => unknown_words(alloc, schema, site.spot),
        "I2" => String::from_str(alloc, array_words(site)),
        "I3" => single_words(alloc, site),
        "I4" => String::from_str(alloc, empty_words(site)),
        "I5" => wrong_words(alloc, site),
        "I6" => pair_words(alloc, site.spot),
        "I7" => type_words(alloc, site.spot),
        _ => Ok(String::new(alloc)),
    }
}
