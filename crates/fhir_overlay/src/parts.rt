//! The parts of an element as JSON.

ghost use Rattle.std.specs.Option.{option_map};
ghost use Rattle.std.specs.Prelude.{◌≡◌, ◌∷◌, ◌<◌, [], map, IfOk};
ghost use Rattle.fhir_json.specs.Tree.{boolean};
ghost use Rattle.fhir_json.specs.Views.{tree_of, trees_of};
ghost use Rattle.fhir_overlay.specs.Json.{strength_code, severity_code, discriminator_code, rules_code, type_entry_tree, constraint_tree, binding_tree, discriminator_tree, slicing_tree};

use crate::members::{array_member, member_if, object, put, put_text, put_texts};
use fhir_elements::{
    BindingDef, ConstraintDef, DiscriminatorDef, DiscriminatorType, Severity, SlicingDef,
    SlicingRules, Strength, TypeEntry,
};
use fhir_json::Json;
use std::alloc::{AllocError, Global};

fn strength_code(strength: Option<Strength>) -> Option<&'static str>
    ensures { option_map (λ t. t.now) result ≡ option_map strength_code strength }
{
    match strength {
        Some(Strength::Required) => Some("required"),
        Some(Strength::Extensible) => Some("extensible"),
        Some(Strength::Preferred) => Some("preferred"),
        Some(Strength::Example) => Some("example"),
        None => None,
    }
}

fn severity_code(severity: Option<Severity>) -> Option<&'static str>
    ensures { option_map (λ t. t.now) result ≡ option_map severity_code severity }
{
    match severity {
        Some(Severity::Error) => Some("error"),
        Some(Severity::Warning) => Some("warning"),
        None => None,
    }
}

fn discriminator_code(by: Option<DiscriminatorType>) -> Option<&'static str>
    ensures { option_map (λ t. t.now) result ≡ option_map discriminator_code by }
{
    match by {
        Some(DiscriminatorType::Value) => Some("value"),
        Some(DiscriminatorType::Exists) => Some("exists"),
        Some(DiscriminatorType::Pattern) => Some("pattern"),
        Some(DiscriminatorType::TypeCode) => Some("type"),
        Some(DiscriminatorType::Profile) => Some("profile"),
        None => None,
    }
}

fn rules_code(rules: Option<SlicingRules>) -> Option<&'static str>
    ensures { option_map (λ t. t.now) result ≡ option_map rules_code rules }
{
    match rules {
        Some(SlicingRules::Closed) => Some("closed"),
        Some(SlicingRules::Open) => Some("open"),
        Some(SlicingRules::OpenAtEnd) => Some("openAtEnd"),
        None => None,
    }
}

fn type_entry_json(alloc: Global, entry: &TypeEntry) -> Result<Json<'static>, AllocError>
    ensures { IfOk result (λ j. tree_of j ≡ type_entry_tree entry.now) }
{
    let mut members = Vec::with_capacity(alloc, 3)?;
    put_text(alloc, &mut members, "code", Some(entry.code()))?;
    put_texts(alloc, &mut members, "profile", entry.profiles())?;
    put_texts(alloc, &mut members, "targetProfile", entry.targets())?;
    Ok(object(members))
}

/// The trees of types.
pub(crate) fn type_items(
    alloc: Global,
    entries: &[TypeEntry],
) -> Result<Vec<Json<'static>>, AllocError>
    ensures { IfOk result (λ v. trees_of v.items ≡ map type_entry_tree entries.now) }
{
    let mut items = Vec::with_capacity(alloc, entries.len())?;
    for entry in entries {
        let item = type_entry_json(alloc, entry)?;
        items.push(item)?;
    }
    Ok(items)
}

fn constraint_json(alloc: Global, constraint: &ConstraintDef) -> Result<Json<'static>, AllocError>
    ensures { IfOk result (λ j. tree_of j ≡ constraint_tree constraint.now) }
{
    let mut members = Vec::with_capacity(alloc, 3)?;
    let severity = severity_code(constraint.severity());
    put_text(alloc, &mut members, "key", Some(constraint.key()))?;
    put_text(alloc, &mut members, "severity", severity)?;
    put_text(alloc, &mut members, "expression", constraint.expression())?;
    Ok(object(members))
}

/// The trees of constraints.
pub(crate) fn constraint_items(
    alloc: Global,
    constraints: &[ConstraintDef],
) -> Result<Vec<Json<'static>>, AllocError>
    ensures { IfOk result (λ v. trees_of v.items ≡ map constraint_tree constraints.now) }
{
    let mut items = Vec::with_capacity(alloc, constraints.len())?;
    for constraint in constraints {
        let item = constraint_json(alloc, constraint)?;
        items.push(item)?;
    }
    Ok(items)
}

fn binding_json(alloc: Global, binding: &BindingDef) -> Result<Json<'static>, AllocError>
    ensures { IfOk result (λ j. tree_of j ≡ binding_tree binding.now) }
{
    let mut members = Vec::with_capacity(alloc, 2)?;
    let strength = strength_code(binding.strength());
    put_text(alloc, &mut members, "strength", strength)?;
    put_text(alloc, &mut members, "valueSet", binding.value_set())?;
    Ok(object(members))
}

/// The tree of a binding, if there is one.
pub(crate) fn binding_json_of(
    alloc: Global,
    binding: Option<&BindingDef>,
) -> Result<Option<Json<'static>>, AllocError>
    ensures { IfOk result (λ j. option_map tree_of j ≡ option_map (λ b. binding_tree b.now) binding.entry) }
{
    match binding {
        Some(binding) => Ok(Some(binding_json(alloc, binding)?)),
        None => Ok(None),
    }
}

fn discriminator_json(
    alloc: Global,
    discriminator: &DiscriminatorDef,
) -> Result<Json<'static>, AllocError>
    ensures { IfOk result (λ j. tree_of j ≡ discriminator_tree discriminator.now) }
{
    let mut members = Vec::with_capacity(alloc, 2)?;
    let by = discriminator_code(discriminator.by());
    put_text(alloc, &mut members, "type", by)?;
    put_text(alloc, &mut members, "path", discriminator.path())?;
    Ok(object(members))
}

fn discriminator_items(
    alloc: Global,
    discriminators: &[DiscriminatorDef],
) -> Result<Vec<Json<'static>>, AllocError>
    ensures { IfOk result (λ v. trees_of v.items ≡ map discriminator_tree discriminators.now) }
{
    let mut items = Vec::with_capacity(alloc, discriminators.len())?;
    for discriminator in discriminators {
        let item = discriminator_json(alloc, discriminator)?;
        items.push(item)?;
    }
    Ok(items)
}

fn flag_json(flag: Option<bool>) -> Option<Json<'static>>
    ensures { option_map tree_of result ≡ option_map boolean flag }
{
    match flag {
        Some(flag) => Some(Json::Bool(flag)),
        None => None,
    }
}

fn slicing_json(alloc: Global, slicing: &SlicingDef) -> Result<Json<'static>, AllocError>
    ensures { IfOk result (λ j. tree_of j ≡ slicing_tree slicing.now) }
{
    let mut members = Vec::with_capacity(alloc, 3)?;
    let discriminators = discriminator_items(alloc, slicing.discriminators())?;
    put(&mut members, array_member("discriminator", discriminators))?;
    put(
        &mut members,
        member_if("ordered", flag_json(slicing.ordered())),
    )?;
    let rules = rules_code(slicing.rules());
    put_text(alloc, &mut members, "rules", rules)?;
    Ok(object(members))
}

/// The tree of a slicing, if there is one.
pub(crate) fn slicing_json_of(
    alloc: Global,
    slicing: Option<&SlicingDef>,
) -> Result<Option<Json<'static>>, AllocError>
    ensures { IfOk result (λ j. option_map tree_of j ≡ option_map (λ s. slicing_tree s.now) slicing.entry) }
{
    match slicing {
        Some(slicing) => Ok(Some(slicing_json(alloc, slicing)?)),
        None => Ok(None),
    }
}
