//! The JSON values of the primitive types (FHIR R4, Data Types).

ghost use Rattle.std.specs.Prelude.{◌≡◌};
ghost use Rattle.fhir_json.specs.Views.{tree_of};
ghost use Rattle.fhir_prims.specs.Values.{allows_flag, allows_number, allows_text, lexical};

use crate::blanks::{is_base64, is_code};
use crate::moments::{is_date, is_date_time, is_instant, is_time};
use crate::names::{is_oid, is_uuid};
use crate::numbers::{is_decimal, is_integer, is_positive_int, is_unsigned_int};
use crate::prim::PrimType;
use crate::texts::{is_string, is_uri, is_xhtml};
use fhir_json::Json;
use fhir_names::is_id;

fn allows_flag(prim: PrimType) -> bool
    ensures { result ≡ allows_flag prim }
{
    prim == PrimType::Boolean
}

fn allows_number(prim: PrimType, text: &str) -> bool
    ensures { result ≡ allows_number prim text.now }
{
    match prim {
        PrimType::Integer => is_integer(text),
        PrimType::UnsignedInt => is_unsigned_int(text),
        PrimType::PositiveInt => is_positive_int(text),
        PrimType::Decimal => is_decimal(text),
        _ => false,
    }
}

fn allows_text(prim: PrimType, text: &str) -> bool
    ensures { result ≡ allows_text prim text.now }
{
    match prim {
        PrimType::String => is_string(text),
        PrimType::Markdown => is_string(text),
        PrimType::Xhtml => is_xhtml(text),
        PrimType::Code => is_code(text),
        PrimType::Base64Binary => is_base64(text),
        PrimType::Id => is_id(text),
        PrimType::Uri => is_uri(text),
        PrimType::Url => is_uri(text),
        PrimType::Canonical => is_uri(text),
        PrimType::Oid => is_oid(text),
        PrimType::Uuid => is_uuid(text),
        PrimType::Date => is_date(text.as_bytes()),
        PrimType::DateTime => is_date_time(text.as_bytes()),
        PrimType::Instant => is_instant(text.as_bytes()),
        PrimType::Time => is_time(text.as_bytes()),
        _ => false,
    }
}

/// Whether a JSON value is of the type's JSON kind, and its text of the type's form (FHIR R4, Data
/// Types, primitive types). A number is judged by its text, and no text of a type is empty.
pub fn lexical(prim: PrimType, json: &Json<'_>) -> bool
    ensures { result ≡ lexical prim (tree_of json.now) }
{
    match json {
        Json::Bool(_) => allows_flag(prim),
        Json::Num(text) => allows_number(prim, text.as_str()),
        Json::Str(text) => allows_text(prim, text.as_str()),
        Json::Null | Json::Arr(_) | Json::Obj(_) => false,
    }
}
