//! Bindings (FHIR R4, ElementDefinition, binding).

ghost use Rattle.std.specs.Prelude.{◌≡◌, ◌<◌, false, Option, IfOk, string_bytes};
ghost use Rattle.std.specs.Option.{option_map, option_map_or};
ghost use Rattle.fhir_elements.specs.Binding.{strength_of, is_binding, binding_of, is_required, required_set};
ghost use Rattle.fhir_json.specs.Views.{tree_of, text_seen};

use crate::codes::{Code, allows_code, code_in};
use crate::texts::{owned_in, text_of};
use fhir_json::Json;
use std::alloc::{AllocError, Global};
use std::marker::Model;

/// How strictly a binding binds.
#[derive(Clone, Copy, Debug, PartialEq, Eq)]
pub enum Strength {
    /// `required`: a code outside the value set is refused.
    Required,
    /// `extensible`: another code may be used where none of the set serves.
    Extensible,
    /// `preferred`: codes of the set are encouraged.
    Preferred,
    /// `example`: the set only shows what is meant.
    Example,
}

impl Code for Strength {
    ghost reads = { strength_of };

    fn of(text: &str) -> Option<Strength> {
        match text {
            "required" => Some(Strength::Required),
            "extensible" => Some(Strength::Extensible),
            "preferred" => Some(Strength::Preferred),
            "example" => Some(Strength::Example),
            _ => None,
        }
    }
}

fn is_required(strength: Strength) -> bool
    ensures { result ≡ is_required strength }
{
    match strength {
        Strength::Required => true,
        Strength::Extensible => false,
        Strength::Preferred => false,
        Strength::Example => false,
    }
}

/// To which codes an element is bound.
#[derive(Drop)]
pub struct BindingDef {
    strength: Option<Strength>,
    value_set: Option<String>,
}

impl Model for BindingDef {
    ghost use Rattle.std.specs.Prelude.{string_bytes};
    ghost use Rattle.std.specs.Option.{option_map};
    ghost use Rattle.fhir_elements.specs.Binding.{Binding};

    ghost Value = { Binding };

    ghost view = { λ b. record { strength = b.strength; value_set = option_map string_bytes b.value_set } };
}

impl BindingDef {
    /// A binding of a strength to the value set of a url.
    pub fn new(strength: Option<Strength>, value_set: Option<String>) -> BindingDef
        ensures strength { result.strength ≡ strength }
        ensures value_set { result.value_set ≡ option_map string_bytes value_set }
    {
        BindingDef {
            strength,
            value_set,
        }
    }

    /// How strictly it binds.
    pub fn strength(&self) -> Option<Strength>
        ensures { result ≡ self.now.strength }
    {
        self.strength
    }

    /// The url of its value set.
    pub fn value_set(&self) -> Option<&str>
        ensures { text_seen result ≡ self.now.value_set }
    {
        text_of(&self.value_set)
    }

    fn is_required(&self) -> bool
        ensures { result ≡ option_map_or is_required self.now.strength false }
    {
        match self.strength {
            Some(strength) => is_required(strength),
            None => false,
        }
    }

    /// The url of the value set that an item's codes have to be in, if it binds so (FHIR R4, Terminologies, required).
    pub fn required_set(&self) -> Option<&str>
        ensures { text_seen result ≡ required_set self.now }
    {
        if self.is_required() {
            self.value_set()
        } else {
            None
        }
    }
}

/// Whether a tree is a binding.
pub(crate) fn is_binding(json: &Json<'_>) -> bool
    ensures { result ≡ is_binding (tree_of json.now) }
{
    json.is_object() && allows_code::<Strength>(json, "strength") && json.allows_text("valueSet")
}

/// The binding that a tree is.
pub(crate) fn binding_of(alloc: Global, json: &Json<'_>) -> Result<BindingDef, AllocError>
    ensures { IfOk result (λ b. b ≡ binding_of (tree_of json.now)) }
{
    Ok(BindingDef {
        strength: code_in(json, "strength"),
        value_set: owned_in(alloc, json, "valueSet")?,
    })
}
