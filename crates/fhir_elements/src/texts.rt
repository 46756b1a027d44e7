//! Texts read from fields.

ghost use Rattle.std.specs.Option.{option_map};
ghost use Rattle.std.specs.Prelude.{◌≡◌, map, IfOk, string_bytes};
ghost use Rattle.fhir_json.specs.Fields.{text_in, text_at, texts_in};
ghost use Rattle.fhir_json.specs.Views.{tree_of, text_seen};

use fhir_json::Json;
use std::alloc::{AllocError, Global};

/// The text, if there is one.
pub(crate) fn text_of(text: &Option<String>) -> Option<&str>
    ensures { text_seen result ≡ option_map string_bytes text.now }
{
    match text {
        Some(text) => Some(text.as_str()),
        None => None,
    }
}

/// The text in a field, or the empty one.
pub(crate) fn owned_at(alloc: Global, json: &Json<'_>, name: &str) -> Result<String, AllocError>
    ensures { IfOk result (λ s. string_bytes s ≡ text_at name.now (tree_of json.now)) }
{
    String::from_str(alloc, json.text_at(name))
}

/// The text in a field.
pub(crate) fn owned_in(
    alloc: Global,
    json: &Json<'_>,
    name: &str,
) -> Result<Option<String>, AllocError>
    ensures { IfOk result (λ s. option_map string_bytes s ≡ text_in name.now (tree_of json.now)) }
{
    match json.text_in(name) {
        Some(text) => Ok(Some(String::from_str(alloc, text)?)),
        None => Ok(None),
    }
}

pub(crate) fn all_owned_in(
    alloc: Global,
    json: &Json<'_>,
    name: &str,
) -> Result<Vec<String>, AllocError>
    ensures { IfOk result (λ v. map string_bytes v.items ≡ texts_in name.now (tree_of json.now)) }
{
    let mut texts = Vec::new(alloc);
    let items = json.items_in(name);
    for item in items {
        let text = String::from_str(alloc, item.text_or_empty())?;
        texts.push(text)?;
    }
    Ok(texts)
}
