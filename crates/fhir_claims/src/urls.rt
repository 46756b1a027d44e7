//! The urls by which a resource is judged.

ghost use Rattle.std.specs.Prelude.{◌≡◌, filter_map};
ghost use Rattle.std.specs.Option.{option_map_or};
ghost use Rattle.fhir_json.specs.Fields.{as_text};
ghost use Rattle.fhir_json.specs.Views.{text_seen, tree_of, trees_of};
ghost use Rattle.fhir_claims.specs.Claims.{resource_url, type_node, url_of_node, claimed, unusable_in, named_url, is_known, is_kept};

use fhir_json::Json;
use fhir_names::Canonical;
use fhir_schema::{NodeRef, Schema};

/// The url of the definition of any resource (FHIR R4, Resource).
#[tactic(auto, unfolding(crate::specs::Claims::resource_url))]
pub fn resource_url() -> &'static str
    ensures { result.now ≡ resource_url }
{
    "http://hl7.org/fhir/StructureDefinition/Resource"
}

/// The root of the type that a resource names, if a resource may be of it.
pub(crate) fn type_node(schema: &Schema, resource: &Json<'_>) -> Option<NodeRef>
    ensures { result ≡ type_node schema.now (tree_of resource.now) }
{
    match resource.text_in("resourceType") {
        Some(code) => schema.resource_root(code),
        None => None,
    }
}

/// The url of a type's definition, or of any resource's where there is no type.
pub(crate) fn url_of_type(schema: &Schema, node: Option<NodeRef>) -> &str
    ensures { result.now ≡ option_map_or (url_of_node schema.now) node resource_url }
{
    match node {
        Some(node) => schema.name(node).0,
        None => resource_url(),
    }
}

/// The items of a resource's outermost `meta.profile`.
pub(crate) fn claims_in<'c, 'j>(resource: &'c Json<'j>) -> &'c [Json<'j>]
    ensures { filter_map as_text (trees_of result.now) ≡ claimed (tree_of resource.now) }
{
    match resource.field("meta") {
        Some(meta) => meta.items_in("profile"),
        None => Default::default(),
    }
}

// The url in a canonical, where the definition at it can't be used.
fn unusable_in<'c>(schema: &Schema, canonical: &'c str) -> Option<&'c str>
    ensures { text_seen result ≡ unusable_in schema.now canonical.now }
{
    match Canonical::parse(canonical) {
        Ok(parts) if schema.unusable(parts.url()).is_some() => Some(parts.url()),
        _ => None,
    }
}

fn unloaded_url<'c>(schema: &Schema, canonical: &'c str) -> &'c str
    ensures { result.now ≡ option_map_or (λ url. url) (unusable_in schema.now canonical.now) canonical.now }
{
    match unusable_in(schema, canonical) {
        Some(url) => url,
        None => canonical,
    }
}

/// The url by which a claimed canonical is judged.
pub(crate) fn named_url<'c>(schema: &'c Schema, canonical: &'c str) -> &'c str
    ensures { result.now ≡ named_url schema.now canonical.now }
{
    match schema.loaded(canonical) {
        Some(node) => schema.name(node).0,
        None => unloaded_url(schema, canonical),
    }
}

fn is_known(schema: &Schema, url: &str) -> bool
    ensures { result ≡ is_known schema.now url.now }
{
    schema.root(url).is_some()
}

/// Whether a url is kept: each is, or those alone that are known.
pub(crate) fn is_kept(schema: &Schema, skip_unknown: bool, url: &str) -> bool
    ensures { result ≡ is_kept schema.now skip_unknown url.now }
{
    !skip_unknown || is_known(schema, url)
}
