//! Keys that are looked up.

ghost use Rattle.std.specs.Prelude.{◌≡◌, ◌∷◌, ◌++◌, [], List, IfOk, OnOk};
ghost use Rattle.std.specs.List.{list_any};
ghost use Rattle.fhir_json.specs.Views.{tree_of};
ghost use Rattle.fhir_package.specs.declared.kind.Kind.TheVariants.{StructureDefinition};
ghost use Rattle.fhir_reach.specs.Keys.{KeyValue, of_url, of_code, key_seen, keys_seen, has_key};
ghost use Rattle.fhir_reach.specs.Reach.{type_code_keys, is_held};
ghost use Rattle.fhir_findings.specs.Held.{PlacesKeys};

use fhir_definition::is_type_definition;
use fhir_json::Json;
use fhir_names::Index;
use fhir_package::Kind;
use fhir_reach::Key;
use std::alloc::{AllocError, Global};
use std::marker::Model;

/// Keys. One is looked up in time logarithmic in their number, whatever they are.
#[derive(Drop)]
pub(crate) struct HeldKeys {
    keys: Vec<Key>,
    urls: Index,
    codes: Index,
}

impl Model for HeldKeys {
    ghost use Rattle.std.specs.Prelude.{List};
    ghost use Rattle.fhir_reach.specs.Keys.{KeyValue, keys_seen};
    ghost use Rattle.fhir_findings.specs.Held.{PlacesKeys};

    ghost Value = { List KeyValue };

    ghost view = { λ h. keys_seen h.keys.items };

    ghost invariant = { λ h. PlacesKeys h.urls h.codes (keys_seen h.keys.items) };
}

// Gives a key a place.
fn place_key(
    alloc: Global,
    urls: &mut Index,
    codes: &mut Index,
    key: &Key,
    place: usize,
) -> Result<(), AllocError>
    ensures { OnOk result ((keys : List KeyValue) → PlacesKeys urls.old codes.old keys → PlacesKeys urls.new codes.new (keys ++ key_seen key.now ∷ [])) }
{
    match key {
        Key::Url(url) => urls.put(alloc, url.as_str(), place),
        Key::Code(code) => codes.put(alloc, code.as_str(), place),
    }
}

impl HeldKeys {
    /// These keys.
    pub(crate) fn of(alloc: Global, keys: Vec<Key>) -> Result<HeldKeys, AllocError>
        ensures { IfOk result (λ h. h ≡ keys_seen keys.items) }
    {
        let mut urls = Index::new(alloc);
        let mut codes = Index::new(alloc);
        for (place, key) in keys.iter().enumerate() {
            place_key(alloc, &mut urls, &mut codes, key, place)?;
        }
        Ok(HeldKeys { keys, urls, codes })
    }

    fn has_url(&self, url: &str) -> bool
        ensures { result ≡ has_key self.now (of_url url.now) }
    {
        self.urls.get(url).is_some()
    }

    fn has_code(&self, code: &str) -> bool
        ensures { result ≡ has_key self.now (of_code code.now) }
    {
        self.codes.get(code).is_some()
    }

    fn has_type(&self, definition: &Json<'_>) -> bool
        ensures { result ≡ list_any (has_key self.now) (type_code_keys StructureDefinition (tree_of definition.now)) }
    {
        if !is_type_definition(definition) {
            return false;
        }
        self.has_code(definition.text_at("type"))
    }

    fn has_type_of(&self, kind: Kind, definition: &Json<'_>) -> bool
        ensures { result ≡ list_any (has_key self.now) (type_code_keys kind (tree_of definition.now)) }
    {
        match kind {
            Kind::StructureDefinition => self.has_type(definition),
            Kind::ValueSet => false,
            Kind::CodeSystem => false,
        }
    }

    /// Whether one of the keys stands for the definition of a kind and a url.
    pub(crate) fn has(&self, kind: Kind, url: &str, definition: &Json<'_>) -> bool
        ensures { result ≡ is_held self.now kind url.now (tree_of definition.now) }
    {
        self.has_url(url) || self.has_type_of(kind, definition)
    }
}
