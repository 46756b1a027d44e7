//! Canonicals that name what a definition itself contains (FHIR R4, References, Contained Resources).

ghost use Rattle.std.specs.Prelude.{◌≡◌, false, map, not, string_bytes};
ghost use Rattle.std.specs.List.{list_any};
ghost use Rattle.std.specs.Option.{option_map, option_map_or};
ghost use Rattle.fhir_json.specs.Views.{text_seen};
ghost use Rattle.fhir_elements.specs.declared.reason.Reason.TheVariants.{WrongField};
ghost use Rattle.fhir_elements.specs.Causes.{reason_of, reason_unless};
ghost use Rattle.fhir_definition.specs.Contained.{is_contained, has_contained_profile, has_contained_target, names_contained};

use fhir_elements::{Cause, ElementDef, TypeEntry};

fn is_contained(canonical: &str) -> bool
    ensures { result ≡ is_contained canonical.now }
{
    canonical.as_bytes().starts_with(b"#")
}

fn has_contained(canonicals: &[String]) -> bool
    ensures { result ≡ list_any is_contained (map string_bytes canonicals.now) }
{
    for canonical in canonicals {
        if is_contained(canonical.as_str()) {
            return true;
        }
    }
    false
}

fn has_contained_profile(types: &[TypeEntry]) -> bool
    ensures { result ≡ list_any has_contained_profile types.now }
{
    for entry in types {
        if has_contained(entry.profiles()) {
            return true;
        }
    }
    false
}

fn has_contained_target(types: &[TypeEntry]) -> bool
    ensures { result ≡ list_any has_contained_target types.now }
{
    for entry in types {
        if has_contained(entry.targets()) {
            return true;
        }
    }
    false
}

fn is_contained_set(value_set: Option<&str>) -> bool
    ensures { result ≡ option_map_or is_contained (text_seen value_set.entry) false }
{
    match value_set {
        Some(canonical) => is_contained(canonical),
        None => false,
    }
}

/// The field by which an element names what its definition itself contains, if it names such.
pub(crate) fn contained_name(element: &ElementDef) -> Option<Cause>
    ensures { option_map reason_of result ≡ reason_unless (not (names_contained element.now)) WrongField }
{
    if has_contained_profile(element.types()) {
        Some(Cause::WrongField("profile"))
    } else if has_contained_target(element.types()) {
        Some(Cause::WrongField("targetProfile"))
    } else if is_contained_set(element.required_value_set()) {
        Some(Cause::WrongField("valueSet"))
    } else {
        None
    }
}
