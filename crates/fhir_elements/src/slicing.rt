//! How an element is sliced (FHIR R4, ElementDefinition, slicing).

ghost use Rattle.std.specs.List.{list_all};
ghost use Rattle.std.specs.Prelude.{◌≡◌, ◌<◌, Option, map, IfOk, string_bytes};
ghost use Rattle.std.specs.Option.{option_map};
ghost use Rattle.fhir_elements.specs.Slicing.{discriminator_type_of, slicing_rules_of, is_discriminator, discriminator_of, is_slicing, slicing_of};
ghost use Rattle.fhir_json.specs.Views.{tree_of, trees_of, text_seen};

use crate::codes::{Code, allows_code, code_in};
use crate::texts::{owned_in, text_of};
use fhir_json::Json;
use std::alloc::{AllocError, Global};
use std::marker::Model;

/// By what a discriminator tells slices apart.
#[derive(Clone, Copy, Debug, PartialEq, Eq)]
pub enum DiscriminatorType {
    /// `value`: by the value that an element is fixed to, or its pattern.
    Value,
    /// `exists`: by whether an element is there.
    Exists,
    /// `pattern`: the same as `value`.
    Pattern,
    /// `type`: by the type of an element.
    TypeCode,
    /// `profile`: by the profile to which an element conforms.
    Profile,
}

/// Whether there may be items outside all slices.
#[derive(Clone, Copy, Debug, PartialEq, Eq)]
pub enum SlicingRules {
    /// There may be none.
    Closed,
    /// Items outside all slices may stand anywhere.
    Open,
    /// They may stand behind all others.
    OpenAtEnd,
}

impl Code for DiscriminatorType {
    ghost reads = { discriminator_type_of };

    fn of(text: &str) -> Option<DiscriminatorType> {
        match text {
            "value" => Some(DiscriminatorType::Value),
            "exists" => Some(DiscriminatorType::Exists),
            "pattern" => Some(DiscriminatorType::Pattern),
            "type" => Some(DiscriminatorType::TypeCode),
            "profile" => Some(DiscriminatorType::Profile),
            _ => None,
        }
    }
}

impl Code for SlicingRules {
    ghost reads = { slicing_rules_of };

    fn of(text: &str) -> Option<SlicingRules> {
        match text {
            "closed" => Some(SlicingRules::Closed),
            "open" => Some(SlicingRules::Open),
            "openAtEnd" => Some(SlicingRules::OpenAtEnd),
            _ => None,
        }
    }
}

/// What tells the slices of an element apart.
#[derive(Drop)]
pub struct DiscriminatorDef {
    by: Option<DiscriminatorType>,
    path: Option<String>,
}

impl Model for DiscriminatorDef {
    ghost use Rattle.std.specs.Prelude.{string_bytes};
    ghost use Rattle.std.specs.Option.{option_map};
    ghost use Rattle.fhir_elements.specs.Slicing.{Discriminator};

    ghost Value = { Discriminator };

    ghost view = { λ d. record { by = d.by; path = option_map string_bytes d.path } };
}

impl DiscriminatorDef {
    /// A discriminator of a type, with its path.
    pub fn new(by: Option<DiscriminatorType>, path: Option<String>) -> DiscriminatorDef
        ensures by { result.by ≡ by }
        ensures path { result.path ≡ option_map string_bytes path }
    {
        DiscriminatorDef { by, path }
    }

    /// By what it tells slices apart, its `type`.
    pub fn by(&self) -> Option<DiscriminatorType>
        ensures { result ≡ self.now.by }
    {
        self.by
    }

    /// Where that stands in an item.
    pub fn path(&self) -> Option<&str>
        ensures { text_seen result ≡ self.now.path }
    {
        text_of(&self.path)
    }
}

/// How an element is sliced.
#[derive(Drop)]
pub struct SlicingDef {
    discriminators: Vec<DiscriminatorDef>,
    ordered: Option<bool>,
    rules: Option<SlicingRules>,
}

impl Model for SlicingDef {
    ghost use Rattle.fhir_elements.specs.Slicing.{Slicing};

    ghost Value = { Slicing };

    ghost view = { λ s. record { discriminators = s.discriminators.items; ordered = s.ordered; rules = s.rules } };
}

impl SlicingDef {
    /// A slicing by discriminators, with whether the slices have an order, and with its rules.
    pub fn new(
        discriminators: Vec<DiscriminatorDef>,
        ordered: Option<bool>,
        rules: Option<SlicingRules>,
    ) -> SlicingDef
        ensures discriminators { result.discriminators ≡ discriminators.items }
        ensures ordered { result.ordered ≡ ordered }
        ensures rules { result.rules ≡ rules }
    {
        SlicingDef {
            discriminators,
            ordered,
            rules,
        }
    }

    /// What tells its slices apart.
    pub fn discriminators(&self) -> &[DiscriminatorDef]
        ensures { result.now ≡ self.now.discriminators }
    {
        &self.discriminators
    }

    /// Whether the items of its slices stand in the order of the slices.
    pub fn ordered(&self) -> Option<bool>
        ensures { result ≡ self.now.ordered }
    {
        self.ordered
    }

    /// Whether there may be items outside all slices.
    pub fn rules(&self) -> Option<SlicingRules>
        ensures { result ≡ self.now.rules }
    {
        self.rules
    }
}

fn is_discriminator(json: &Json<'_>) -> bool
    ensures { result ≡ is_discriminator (tree_of json.now) }
{
    json.is_object() && allows_code::<DiscriminatorType>(json, "type") && json.allows_text("path")
}

fn are_discriminators(items: &[Json<'_>]) -> bool
    ensures { result ≡ list_all is_discriminator (trees_of items.now) }
{
    for item in items {
        if !is_discriminator(item) {
            return false;
        }
    }
    true
}

fn discriminator_of(alloc: Global, json: &Json<'_>) -> Result<DiscriminatorDef, AllocError>
    ensures { IfOk result (λ d. d ≡ discriminator_of (tree_of json.now)) }
{
    Ok(DiscriminatorDef {
        by: code_in(json, "type"),
        path: owned_in(alloc, json, "path")?,
    })
}

fn discriminators_of(alloc: Global, items: &[Json<'_>]) -> Result<Vec<DiscriminatorDef>, AllocError>
    ensures { IfOk result (λ v. v.items ≡ map discriminator_of (trees_of items.now)) }
{
    let mut discriminators = Vec::new(alloc);
    for item in items {
        let discriminator = discriminator_of(alloc, item)?;
        discriminators.push(discriminator)?;
    }
    Ok(discriminators)
}

/// Whether a tree is a slicing.
pub(crate) fn is_slicing(json: &Json<'_>) -> bool
    ensures { result ≡ is_slicing (tree_of json.now) }
{
    let discriminators = json.items_in("discriminator");
    json.is_object()
        && json.allows_items("discriminator")
        && are_discriminators(discriminators)
        && json.allows_flag("ordered")
        && allows_code::<SlicingRules>(json, "rules")
}

/// The slicing that a tree is.
pub(crate) fn slicing_of(alloc: Global, json: &Json<'_>) -> Result<SlicingDef, AllocError>
    ensures { IfOk result (λ s. s ≡ slicing_of (tree_of json.now)) }
{
    Ok(SlicingDef {
        discriminators: discriminators_of(alloc, json.items_in("discriminator"))?,
        ordered: json.flag_in("ordered"),
        rules: code_in(json, "rules"),
    })
}
