//! The version of a definition.

ghost use Rattle.std.specs.Prelude.{◌≡◌, false};
ghost use Rattle.std.specs.Option.{option_map_or};
ghost use Rattle.std.specs.Str.{bytes_eq};
ghost use Rattle.fhir_json.specs.Views.{tree_of, tree_seen};
ghost use Rattle.fhir_json.specs.Fields.{as_text};
ghost use Rattle.fhir_package.specs.Canonical.{has_version, is_of_version};

use fhir_json::Json;

fn is_text(json: &Json<'_>, text: &str) -> bool
    ensures { result ≡ option_map_or (bytes_eq text.now) (as_text (tree_of json.now)) false }
{
    match json.as_text() {
        Some(own) => text == own,
        None => false,
    }
}

/// Whether a definition whose `version` is this has no version, or the one that is asked for (FHIR R4, References between
/// Resources, canonical URLs).
pub fn has_version(version: &str, own: Option<&Json<'_>>) -> bool
    ensures { result ≡ has_version version.now (tree_seen own.entry) }
{
    match own {
        Some(own) => is_text(own, version),
        None => true,
    }
}

// Whether a definition has no version, or that one.
pub(crate) fn is_of_version(definition: &Json<'_>, version: &str) -> bool
    ensures { result ≡ is_of_version version.now (tree_of definition.now) }
{
    has_version(version, definition.field("version"))
}
