//! What an element says.

ghost use Rattle.std.specs.Prelude.{◌≡◌};
ghost use Rattle.fhir_element_changes.specs.Tables.{aspect_word};

use crate::constraints::{are_alike, constraints_text};
use fhir_element_texts::{
    cardinality_text, length_text, member_text, members_text, node_types_text,
};
use fhir_elements::{
    BindingDef, ConstraintDef, DiscriminatorDef, DiscriminatorType, ElementDef, SlicingDef,
    SlicingRules, Strength,
};
use fhir_json::NoMemory;
use fhir_schema::{NodeRef, Schema};
use std::alloc::{AllocError, Global};

/// What elements are compared by.
#[derive(Clone, Copy)]
pub enum Aspect {
    /// Which slice it is.
    Slice,
    /// How many items there may be.
    Cardinality,
    /// Of which types they may be.
    Types,
    /// Which value they have.
    Fixed,
    /// What they fit.
    Pattern,
    /// In which value set their codes are.
    Binding,
    /// Between which values they lie.
    Bounds,
    /// How long they may be.
    Length,
    /// How they are sliced.
    Slicing,
    /// Which constraints are true of them.
    Constraints,
}

/// All of them, in the order of a page.
pub(crate) fn each_aspect() -> &'static [Aspect] {
    &[
        Aspect::Slice,
        Aspect::Cardinality,
        Aspect::Types,
        Aspect::Fixed,
        Aspect::Pattern,
        Aspect::Binding,
        Aspect::Bounds,
        Aspect::Length,
        Aspect::Slicing,
        Aspect::Constraints,
    ]
}

impl Aspect {
    /// Its name.
    pub(crate) fn word(self) -> &'static str
        ensures { result.now ≡ aspect_word self }
    {
        match self {
            Aspect::Slice => "slice",
            Aspect::Cardinality => "cardinality",
            Aspect::Types => "types",
            Aspect::Fixed => "fixed",
            Aspect::Pattern => "pattern",
            Aspect::Binding => "binding",
            Aspect::Bounds => "bounds",
            Aspect::Length => "length",
            Aspect::Slicing => "slicing",
            Aspect::Constraints => "constraints",
        }
    }
}

// ---- bindings

fn strength_word(strength: Option<Strength>) -> &'static str {
    match strength {
        Some(Strength::Required) => "required",
        Some(Strength::Extensible) => "extensible",
        Some(Strength::Preferred) => "preferred",
        Some(Strength::Example) => "example",
        None => "of no strength",
    }
}

fn binding_text(alloc: Global, binding: Option<&BindingDef>) -> Result<String, AllocError> {
    let Some(binding) = binding else {
        return String::from_str(alloc, "nothing");
    };
    let strength = strength_word(binding.strength());
    let value_set = binding.value_set().unwrap_or("no value set");
    format!(in alloc; "{value_set} ({strength})")
}

// ---- slicing

fn discriminator_word(by: Option<DiscriminatorType>) -> &'static str {
    match by {
        Some(DiscriminatorType::Value) => "value",
        Some(DiscriminatorType::Exists) => "exists",
        Some(DiscriminatorType::Pattern) => "pattern",
        Some(DiscriminatorType::TypeCode) => "type",
        Some(DiscriminatorType::Profile) => "profile",
        None => "nothing",
    }
}

fn rules_word(rules: Option<SlicingRules>) -> &'static str {
    match rules {
        Some(SlicingRules::Closed) => "closed",
        Some(SlicingRules::Open) => "open",
        Some(SlicingRules::OpenAtEnd) => "open at end",
        None => "without rules",
    }
}

fn push_discriminators(
    discriminators: &[DiscriminatorDef],
    into: &mut String,
) -> Result<(), AllocError> {
    for discriminator in discriminators {
        into.push_str(", by ")?;
        into.push_str(discriminator_word(discriminator.by()))?;
        into.push_str(" at ")?;
        into.push_str(discriminator.path().unwrap_or("no path"))?;
    }
    Ok(())
}

fn slicing_text(alloc: Global, slicing: Option<&SlicingDef>) -> Result<String, AllocError> {
    let Some(slicing) = slicing else {
        return String::from_str(alloc, "nothing");
    };
    let mut text = String::from_str(alloc, rules_word(slicing.rules()))?;
    if slicing.ordered() == Some(true) {
        text.push_str(", in order")?;
    }
    push_discriminators(slicing.discriminators(), &mut text)?;
    Ok(text)
}

// ---- constraints

fn constraints_of(schema: &Schema, node: NodeRef) -> &[ConstraintDef] {
    match schema.element(node) {
        Some(element) => element.constraints(),
        None => Default::default(),
    }
}

// Those that another node's element doesn't have.
fn own_constraints_text(
    alloc: Global,
    schema: &Schema,
    node: NodeRef,
    other: NodeRef,
) -> Result<String, AllocError> {
    let constraints = constraints_of(schema, node);
    let others = constraints_of(schema, other);
    if are_alike(constraints, others) {
        return Ok(String::new(alloc));
    }
    constraints_text(alloc, constraints, others)
}

// ---- all of them

/// What a node says by an aspect, beside another: of its constraints those that the other doesn't have.
pub(crate) fn aspect_text(
    alloc: Global,
    schema: &Schema,
    aspect: Aspect,
    node: NodeRef,
    other: NodeRef,
) -> Result<String, NoMemory> {
    let Some(element) = schema.element(node) else {
        return Ok(String::from_str(alloc, "nothing")?);
    };
    match aspect {
        Aspect::Slice => Ok(String::from_str(alloc, element.slice_name().unwrap_or("nothing"))?),
        Aspect::Cardinality => Ok(cardinality_text(alloc, element)?),
        Aspect::Types => Ok(node_types_text(alloc, schema, node)?),
        Aspect::Fixed => member_text(alloc, element.fixed()),
        Aspect::Pattern => member_text(alloc, element.pattern()),
        Aspect::Binding => Ok(binding_text(alloc, element.binding())?),
        Aspect::Bounds => members_text(alloc, element.min_value(), element.max_value()),
        Aspect::Length => Ok(length_text(alloc, element)?),
        Aspect::Slicing => Ok(slicing_text(alloc, element.slicing())?),
        Aspect::Constraints => Ok(own_constraints_text(alloc, schema, node, other)?),
    }
}
