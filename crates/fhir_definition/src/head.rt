//! The head of a definition: its fields beside the elements.

ghost use Rattle.std.specs.Prelude.{◌≡◌, ◌&&◌, false, true, is_some, is_none, codes};
ghost use Rattle.std.specs.Option.{option_map, option_map_or};
ghost use Rattle.fhir_json.specs.Views.{tree_of};
ghost use Rattle.fhir_json.specs.Fields.{text_in, flag_in, allows_text, allows_flag};
ghost use Rattle.fhir_elements.specs.declared.reason.Reason.TheVariants.{WrongField};
ghost use Rattle.fhir_elements.specs.Causes.{reason_of, reason_unless};
ghost use Rattle.fhir_definition.specs.Kind.{is_primitive_kind};
ghost use Rattle.fhir_definition.specs.Head.{kind_in, is_derivation, has_right_derivation, is_type_definition, is_known_if_primitive, has_right_snapshot, has_right_head};

use crate::kind::TypeKind;
use fhir_elements::Cause;
use fhir_json::Json;
use fhir_prims::{PrimType, is_uri};

/// The kind in a definition's tree.
pub(crate) fn kind_in(json: &Json<'_>) -> Option<TypeKind>
    ensures { result ≡ kind_in (tree_of json.now) }
{
    TypeKind::of(json.text_at("kind"))
}

/// Whether it is abstract; one that doesn't say so isn't.
pub(crate) fn is_abstract(json: &Json<'_>) -> bool
    ensures { result ≡ option_map_or (λ b. b) (flag_in (codes "abstract") (tree_of json.now)) false }
{
    json.flag_in("abstract").unwrap_or(false)
}

fn is_derivation(text: &str) -> bool
    ensures { result ≡ is_derivation text.now }
{
    text == "specialization" || text == "constraint"
}

fn has_derivation(json: &Json<'_>) -> bool
    ensures { result ≡ option_map_or is_derivation (text_in (codes "derivation") (tree_of json.now)) true }
{
    json.text_in("derivation")
        .is_none_or(|derivation| is_derivation(derivation))
}

fn has_right_derivation(json: &Json<'_>) -> bool
    ensures { result ≡ has_right_derivation (tree_of json.now) }
{
    has_derivation(json) && json.allows_text("derivation")
}

/// Whether a StructureDefinition defines a type, and doesn't constrain one (FHIR R4, StructureDefinition, derivation).
pub fn is_type_definition(json: &Json<'_>) -> bool
    ensures { result ≡ is_type_definition (tree_of json.now) }
{
    let derivation = json.text_at("derivation");
    kind_in(json).is_some() && !(derivation == "constraint")
}

fn is_of_primitive_kind(json: &Json<'_>) -> bool
    ensures { result ≡ option_map_or is_primitive_kind (kind_in (tree_of json.now)) false }
{
    kind_in(json).is_some_and(|kind| kind.is_primitive())
}

fn is_known_if_primitive(json: &Json<'_>) -> bool
    ensures { result ≡ is_known_if_primitive (tree_of json.now) }
{
    let defines_primitive = is_type_definition(json) && is_of_primitive_kind(json);
    !defines_primitive || PrimType::of(json.text_at("type")).is_some()
}

fn has_right_snapshot(json: &Json<'_>) -> bool
    ensures { result ≡ has_right_snapshot (tree_of json.now) }
{
    match json.field("snapshot") {
        Some(snapshot) => snapshot.is_object() && snapshot.allows_items("element"),
        None => true,
    }
}

// What is wrong with a field that must be there and isn't as it must be.
fn unfit(json: &Json<'_>, name: &'static str) -> Cause
    ensures { reason_of result ≡ WrongField }
{
    match json.field(name) {
        Some(_) => Cause::WrongField(name),
        None => Cause::MissingField(name),
    }
}

fn wrong_needed(json: &Json<'_>) -> Option<Cause>
    ensures { option_map reason_of result ≡ reason_unless (is_some (kind_in (tree_of json.now))
        && is_some (text_in (codes "type") (tree_of json.now))) WrongField }
{
    if !kind_in(json).is_some() {
        Some(unfit(json, "kind"))
    } else if !json.text_in("type").is_some() {
        Some(unfit(json, "type"))
    } else {
        None
    }
}

fn wrong_optional(json: &Json<'_>) -> Option<&'static str>
    ensures { is_none result ≡ (allows_text (codes "version") (tree_of json.now)
        && allows_flag (codes "abstract") (tree_of json.now)
        && allows_text (codes "baseDefinition") (tree_of json.now)
        && has_right_derivation (tree_of json.now) && has_right_snapshot (tree_of json.now)) }
{
    if !json.allows_text("version") {
        Some("version")
    } else if !json.allows_flag("abstract") {
        Some("abstract")
    } else if !json.allows_text("baseDefinition") {
        Some("baseDefinition")
    } else if !has_right_derivation(json) {
        Some("derivation")
    } else if !has_right_snapshot(json) {
        Some("snapshot")
    } else {
        None
    }
}

/// The first field that isn't of its kind, or not in its set.
pub(crate) fn head_cause(url: &str, json: &Json<'_>) -> Option<Cause>
    ensures { option_map reason_of result ≡ reason_unless (has_right_head url.now (tree_of json.now)) WrongField }
{
    if !is_uri(url) {
        return Some(Cause::BlankInUrl);
    }
    if let Some(cause) = wrong_needed(json) {
        return Some(cause);
    }
    if let Some(name) = wrong_optional(json) {
        return Some(Cause::WrongField(name));
    }
    if !is_known_if_primitive(json) {
        return Some(Cause::UnknownPrimitive);
    }
    None
}
