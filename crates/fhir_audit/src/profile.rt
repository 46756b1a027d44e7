//! The profiles of a package, and what they rest on.

ghost use Rattle.std.specs.Prelude.{◌≡◌};
ghost use Rattle.std.specs.Option.{option_and_then};
ghost use Rattle.fhir_package.specs.declared.kind.Kind.TheVariants.{StructureDefinition};
ghost use Rattle.fhir_package.specs.Definitions.{place_in};
ghost use Rattle.fhir_json.specs.Views.{tree_of, text_seen};
ghost use Rattle.fhir_audit.specs.Asked.{is_profile, url_named, base_url, base_of, base_place};

use fhir_json::Json;
use fhir_names::Canonical;
use fhir_package::{Kind, Package};

/// Whether a definition constrains another.
pub(crate) fn is_profile(definition: &Json<'_>) -> bool
    ensures { result ≡ is_profile (tree_of definition.now) }
{
    definition.text_at("derivation") == "constraint"
}

// The url of a canonical.
fn url_named(canonical: &str) -> Option<&str>
    ensures { text_seen result ≡ url_named canonical.now }
{
    match Canonical::parse(canonical) {
        Ok(canonical) => Some(canonical.url()),
        Err(_) => None,
    }
}

/// The url of the definition that a canonical names, where it is there.
pub(crate) fn base_url<'c>(package: &Package<'_>, canonical: &'c str) -> Option<&'c str>
    ensures { text_seen result ≡ base_url «package».now canonical.now }
{
    match package.get(Kind::StructureDefinition, canonical) {
        Some(_definition) => url_named(canonical),
        None => None,
    }
}

/// The url of what a definition rests on, where it is there.
pub(crate) fn base_of<'p>(package: &Package<'_>, definition: &'p Json<'_>) -> Option<&'p str>
    ensures { text_seen result ≡ base_of «package».now (tree_of definition.now) }
{
    match definition.text_in("baseDefinition") {
        Some(canonical) => base_url(package, canonical),
        None => None,
    }
}

fn place_under(package: &Package<'_>, definition: &Json<'_>) -> Option<usize>
    ensures { result ≡ option_and_then (λ url. place_in StructureDefinition url «package».now) (base_of «package».now (tree_of definition.now)) }
{
    let base = base_of(package, definition)?;
    package.place(Kind::StructureDefinition, base)
}

/// The place of what the definition at a place rests on, where it is there.
pub(crate) fn base_place(package: &Package<'_>, place: usize) -> Option<usize>
    ensures { result ≡ base_place «package».now place }
{
    match package.at(Kind::StructureDefinition, place) {
        Some((_url, definition)) => place_under(package, definition),
        None => None,
    }
}
