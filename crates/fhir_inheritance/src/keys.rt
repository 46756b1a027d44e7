//! Names of elements among those of all definitions, and the ids that an id leads to.

ghost use Rattle.std.specs.Prelude.{◌≡◌, ◌∷◌, ◌++◌, [], IfOk, OnOk, map, string_bytes};
ghost use Rattle.std.specs.Option.{option_map};
ghost use Rattle.fhir_json.specs.Bytes.{dot, colon};
ghost use Rattle.fhir_names.specs.Texts.{cut_at_first, cut_at_last};
ghost use Rattle.fhir_inheritance.specs.Keys.{key, key_parts, child_id, unsliced, behind, twin_of, names_joined, path_of};

use fhir_json::NoMemory;
use fhir_names::{ElementId, sliced_of};
use std::alloc::Global;

/// The name of an element among those of all definitions, by its id and the url of its definition.
pub fn key(alloc: Global, id: &str, url: &str) -> Result<String, NoMemory>
    ensures { IfOk result (λ t. string_bytes t ≡ key id.now url.now) }
{
    let mut text = String::from_str(alloc, id)?;
    text.push_str("\n")?;
    text.push_str(url)?;
    Ok(text)
}

/// The id and the url that such a name has.
pub(crate) fn key_parts(name: &str) -> Option<(&str, &str)>
    ensures { option_map (λ p. (p.0.now, p.1.now)) result ≡ key_parts name.now }
{
    name.split_once('\n')
}

/// The id of the child of that name.
pub fn child_id(alloc: Global, id: &str, name: &str) -> Result<String, NoMemory>
    ensures { IfOk result (λ t. string_bytes t ≡ child_id id.now name.now) }
{
    let mut text = String::from_str(alloc, id)?;
    text.push_str(".")?;
    text.push_str(name)?;
    Ok(text)
}

fn cut_at_dot(text: &str) -> Option<(&str, &str)>
    ensures { option_map (λ p. (p.0.now, p.1.now)) result ≡ cut_at_first dot text.now }
{
    text.split_once('.')
}

fn cut_at_last_colon(text: &str) -> Option<(&str, &str)>
    ensures { option_map (λ p. (p.0.now, p.1.now)) result ≡ cut_at_last colon text.now }
{
    text.rsplit_once(':')
}

fn unsliced(id: &str) -> &str
    ensures { result.now ≡ unsliced id.now }
{
    match sliced_of(id) {
        Some(sliced) => sliced,
        None => id,
    }
}

fn with_behind(alloc: Global, front: &str, rest: &str) -> Result<String, NoMemory>
    ensures { IfOk result (λ t. string_bytes t ≡ front.now ++ behind rest.now) }
{
    let mut text = String::from_str(alloc, front)?;
    if let Some((_, after)) = cut_at_dot(rest) {
        text.push_str(".")?;
        text.push_str(after)?;
    }
    Ok(text)
}

/// The id with its last slice name taken out, `X.a.b` for `X.a:s.b`; none for an id without slice names.
pub(crate) fn twin_of(alloc: Global, id: &str) -> Result<Option<String>, NoMemory>
    ensures { IfOk result (λ o. option_map string_bytes o ≡ twin_of id.now) }
{
    match cut_at_last_colon(id) {
        Some((front, rest)) => Ok(Some(with_behind(alloc, unsliced(front), rest)?)),
        None => Ok(None),
    }
}

fn names_joined(alloc: Global, id: &ElementId<'_>) -> Result<String, NoMemory>
    ensures { IfOk result (λ t. string_bytes t ≡ names_joined id.now) }
{
    let mut segments = id.segments();
    let Some(first) = segments.next() else {
        return Ok(String::new(alloc));
    };
    let mut path = String::from_str(alloc, first.name)?;
    for segment in segments {
        path.push_str(".")?;
        path.push_str(segment.name)?;
    }
    Ok(path)
}

/// The path of an element of that id (FHIR R4, ElementDefinition, path): the id without its slice names.
pub(crate) fn path_of(alloc: Global, id: &str) -> Result<String, NoMemory>
    ensures { IfOk result (λ t. string_bytes t ≡ path_of id.now) }
{
    match ElementId::parse(id) {
        Ok(id) => names_joined(alloc, &id),
        Err(_) => Ok(String::from_str(alloc, id)?),
    }
}
