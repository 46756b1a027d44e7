//! How the version of a definition is written.

ghost use Rattle.std.specs.Prelude.{◌≡◌, string_bytes, IfOk};
ghost use Rattle.fhir_json.specs.Compact.{compact};
ghost use Rattle.fhir_json.specs.Reading.{reading};
ghost use Rattle.fhir_json.specs.Tree.{string};
ghost use Rattle.fhir_json.specs.Views.{text_seen, tree_of};
ghost use Rattle.fhir_certificate.specs.Judging.{has_version};
ghost use Rattle.fhir_certificate.specs.Versions.{version_text, is_text_read, is_compact_of, is_version};
ghost use Rattle.fhir_certificate.specs.Views.{stated_seen};

use crate::stated::StatedText;
use fhir_json::{Json, JsonFault, NoMemory, read, write};
use fhir_schema::Schema;
use std::alloc::Global;
use std::borrow::CowStr;

fn compact_text(alloc: Global, json: &Json<'_>) -> Result<String, NoMemory>
    ensures { IfOk result (λ text. string_bytes text ≡ compact (tree_of json.now)) }
{
    let bytes = write(alloc, json)?;
    Ok(String::from_utf8_lossy(alloc, &bytes)?)
}

fn json_text(text: &str) -> Json<'_>
    ensures { tree_of result ≡ string text.now }
{
    Json::Str(CowStr::Borrowed(text))
}

/// How a version is written: as JSON, and `-` where there is none. The one refusal is want of memory.
pub(crate) fn version_text(alloc: Global, version: Option<&str>) -> Result<String, NoMemory>
    ensures { IfOk result (λ text. string_bytes text ≡ version_text (text_seen version.entry)) }
{
    match version {
        Some(version) => compact_text(alloc, &json_text(version)),
        None => Ok(String::from_str(alloc, "-")?),
    }
}

// Whether a text is the compact one of the text that was read of it.
fn is_text_read(alloc: Global, text: &str, json: &Json<'_>) -> Result<bool, NoMemory>
    ensures { IfOk result (λ is. is ≡ is_text_read text.now (tree_of json.now)) }
{
    match json {
        Json::Str(_) => {
            let written = compact_text(alloc, json)?;
            Ok(written.as_str() == text)
        }
        Json::Null | Json::Bool(_) | Json::Num(_) | Json::Arr(_) | Json::Obj(_) => Ok(false),
    }
}

fn is_json_text(alloc: Global, text: &str) -> Result<bool, NoMemory>
    ensures { IfOk result (λ is. is ≡ is_compact_of text.now (reading text.now)) }
{
    match read(alloc, text.as_bytes()) {
        Ok(json) => is_text_read(alloc, text, &json),
        Err(JsonFault::NoMemory) => Err(NoMemory),
        Err(_) => Ok(false),
    }
}

/// Whether a text writes a version, or that there is none. The one refusal is want of memory.
pub(crate) fn is_version(alloc: Global, text: &str) -> Result<bool, NoMemory>
    ensures { IfOk result (λ is. is ≡ is_version text.now) }
{
    if text == "-" {
        return Ok(true);
    }
    is_json_text(alloc, text)
}

/// Whether the version that is written is that of the definition at the url. The one refusal is want of memory.
pub(crate) fn has_version(
    alloc: Global,
    schema: &Schema,
    stated: StatedText<'_>,
) -> Result<bool, NoMemory>
    ensures { IfOk result (λ has. has ≡ has_version schema.now (stated_seen stated.entry)) }
{
    let own = version_text(alloc, schema.version(stated.url))?;
    Ok(stated.version == own.as_str())
}
