//! Which definitions are profiles.

ghost use Rattle.std.specs.Prelude.{◌≡◌};
ghost use Rattle.fhir_json.specs.Views.{tree_of};
ghost use Rattle.fhir_alike.specs.Profiles.{is_profile, has_profile};

use fhir_json::Json;
use fhir_package::{Kind, Package};

/// Whether a StructureDefinition is a profile: one that constrains a type.
pub fn is_profile(definition: &Json<'_>) -> bool
    ensures { result ≡ is_profile (tree_of definition.now) }
{
    definition.text_at("derivation") == "constraint"
}

/// Whether a package has a profile at a url.
pub fn has_profile(package: &Package<'_>, url: &str) -> bool
    ensures { result ≡ has_profile «package».now url.now }
{
    match package.at_url(Kind::StructureDefinition, url) {
        Some(definition) => is_profile(definition),
        None => false,
    }
}
