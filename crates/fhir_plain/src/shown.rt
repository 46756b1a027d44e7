//! JSON values in words.

use fhir_json::Json;
use std::alloc::{AllocError, Global};

/// The first characters of a text, so that it can stand in a line.
pub(crate) fn cut(alloc: Global, text: &str) -> Result<String, AllocError> {
    let mut shown = String::new(alloc);
    for (count, character) in text.chars().enumerate() {
        if count == 60 {
            shown.push_str(" ..")?;
            return Ok(shown);
        }
        shown.push(character)?;
    }
    Ok(shown)
}

/// What kind of value it is.
pub(crate) fn kind_word(json: &Json<'_>) -> &'static str {
    match json {
        Json::Null => "null",
        Json::Bool(true) => "true",
        Json::Bool(false) => "false",
        Json::Num(_) => "a number",
        Json::Str(_) => "a text",
        Json::Arr(_) => "an array",
        Json::Obj(_) => "an object",
    }
}

/// The same, with the text or the number that it is.
pub(crate) fn shown(alloc: Global, json: &Json<'_>) -> Result<String, AllocError> {
    match json {
        Json::Num(number) => {
            let number = cut(alloc, number.as_str())?;
            format!(in alloc; "the number `{number}`")
        }
        Json::Str(text) => {
            let text = cut(alloc, text.as_str())?;
            format!(in alloc; "the text `{text}`")
        }
        _ => String::from_str(alloc, kind_word(json)),
    }
}
