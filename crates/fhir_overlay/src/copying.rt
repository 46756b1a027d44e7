//! Copies of elements and of their parts.

ghost use Rattle.std.specs.Option.{option_map};
ghost use Rattle.std.specs.Prelude.{◌≡◌, ◌<◌, map, IfOk, string_bytes};
ghost use Rattle.fhir_json.specs.Views.{property_of, text_seen, property_seen};
ghost use Rattle.fhir_elements.specs.Views.{fields_seen};

use fhir_elements::{
    BindingDef, ConstraintDef, DiscriminatorDef, ElementDef, ElementFields, SlicingDef, TypeEntry,
    owned_member,
};
use fhir_json::{Member, NoMemory};
use std::alloc::{AllocError, Global};

fn copied_text(alloc: Global, text: Option<&str>) -> Result<Option<String>, AllocError>
    ensures { IfOk result (λ t. option_map string_bytes t ≡ text_seen text.entry) }
{
    match text {
        Some(text) => Ok(Some(String::from_str(alloc, text)?)),
        None => Ok(None),
    }
}

fn copied_texts(alloc: Global, texts: &[String]) -> Result<Vec<String>, AllocError>
    ensures { IfOk result (λ v. map string_bytes v.items ≡ map string_bytes texts.now) }
{
    let mut all = Vec::with_capacity(alloc, texts.len())?;
    for text in texts {
        let text = String::from_str(alloc, text.as_str())?;
        all.push(text)?;
    }
    Ok(all)
}

fn copied_type(alloc: Global, entry: &TypeEntry) -> Result<TypeEntry, AllocError>
    ensures { IfOk result (λ e. e ≡ entry.now) }
{
    let code = String::from_str(alloc, entry.code())?;
    let profiles = copied_texts(alloc, entry.profiles())?;
    let targets = copied_texts(alloc, entry.targets())?;
    Ok(TypeEntry::new(code, profiles, targets))
}

fn copied_types(alloc: Global, entries: &[TypeEntry]) -> Result<Vec<TypeEntry>, AllocError>
    ensures { IfOk result (λ v. v.items ≡ entries.now) }
{
    let mut all = Vec::with_capacity(alloc, entries.len())?;
    for entry in entries {
        let entry = copied_type(alloc, entry)?;
        all.push(entry)?;
    }
    Ok(all)
}

pub(crate) fn copied_member(
    alloc: Global,
    member: Option<&Member<'static>>,
) -> Result<Option<Member<'static>>, NoMemory>
    ensures { IfOk result (λ m. option_map property_of m ≡ property_seen member.entry) }
{
    match member {
        Some(member) => Ok(Some(owned_member(alloc, member)?)),
        None => Ok(None),
    }
}

fn copied_binding(alloc: Global, binding: &BindingDef) -> Result<BindingDef, AllocError>
    ensures { IfOk result (λ b. b ≡ binding.now) }
{
    let value_set = copied_text(alloc, binding.value_set())?;
    Ok(BindingDef::new(binding.strength(), value_set))
}

fn copied_binding_of(
    alloc: Global,
    binding: Option<&BindingDef>,
) -> Result<Option<BindingDef>, AllocError>
    ensures { IfOk result (λ b. b ≡ option_map (λ b. b.now) binding.entry) }
{
    match binding {
        Some(binding) => Ok(Some(copied_binding(alloc, binding)?)),
        None => Ok(None),
    }
}

pub(crate) fn copied_constraint(
    alloc: Global,
    constraint: &ConstraintDef,
) -> Result<ConstraintDef, AllocError>
    ensures { IfOk result (λ c. c ≡ constraint.now) }
{
    let key = String::from_str(alloc, constraint.key())?;
    let expression = copied_text(alloc, constraint.expression())?;
    Ok(ConstraintDef::new(key, constraint.severity(), expression))
}

fn copied_constraints(
    alloc: Global,
    constraints: &[ConstraintDef],
) -> Result<Vec<ConstraintDef>, AllocError>
    ensures { IfOk result (λ v. v.items ≡ constraints.now) }
{
    let mut all = Vec::with_capacity(alloc, constraints.len())?;
    for constraint in constraints {
        let constraint = copied_constraint(alloc, constraint)?;
        all.push(constraint)?;
    }
    Ok(all)
}

fn copied_discriminator(
    alloc: Global,
    discriminator: &DiscriminatorDef,
) -> Result<DiscriminatorDef, AllocError>
    ensures { IfOk result (λ d. d ≡ discriminator.now) }
{
    let path = copied_text(alloc, discriminator.path())?;
    Ok(DiscriminatorDef::new(discriminator.by(), path))
}

fn copied_discriminators(
    alloc: Global,
    discriminators: &[DiscriminatorDef],
) -> Result<Vec<DiscriminatorDef>, AllocError>
    ensures { IfOk result (λ v. v.items ≡ discriminators.now) }
{
    let mut all = Vec::with_capacity(alloc, discriminators.len())?;
    for discriminator in discriminators {
        let discriminator = copied_discriminator(alloc, discriminator)?;
        all.push(discriminator)?;
    }
    Ok(all)
}

fn copied_slicing(alloc: Global, slicing: &SlicingDef) -> Result<SlicingDef, AllocError>
    ensures { IfOk result (λ s. s ≡ slicing.now) }
{
    let discriminators = copied_discriminators(alloc, slicing.discriminators())?;
    Ok(SlicingDef::new(discriminators, slicing.ordered(), slicing.rules()))
}

fn copied_slicing_of(
    alloc: Global,
    slicing: Option<&SlicingDef>,
) -> Result<Option<SlicingDef>, AllocError>
    ensures { IfOk result (λ s. s ≡ option_map (λ s. s.now) slicing.entry) }
{
    match slicing {
        Some(slicing) => Ok(Some(copied_slicing(alloc, slicing)?)),
        None => Ok(None),
    }
}

/// The texts of an element.
#[derive(Drop)]
pub(crate) struct Texts {
    pub(crate) id: String,
    pub(crate) path: Option<String>,
    pub(crate) slice_name: Option<String>,
    pub(crate) content_reference: Option<String>,
}

/// The choices of an element.
#[derive(Drop)]
pub(crate) struct Choices {
    pub(crate) fixed: Option<Member<'static>>,
    pub(crate) pattern: Option<Member<'static>>,
    pub(crate) min_value: Option<Member<'static>>,
    pub(crate) max_value: Option<Member<'static>>,
}

/// The parts of an element, but for its constraints.
#[derive(Drop)]
pub(crate) struct Parts {
    pub(crate) types: Vec<TypeEntry>,
    pub(crate) binding: Option<BindingDef>,
    pub(crate) slicing: Option<SlicingDef>,
}

pub(crate) fn texts_of(alloc: Global, element: &ElementDef) -> Result<Texts, AllocError>
    ensures id { IfOk result (λ t. string_bytes t.id ≡ element.now.id) }
    ensures path { IfOk result (λ t. option_map string_bytes t.path ≡ element.now.path) }
    ensures slice_name { IfOk result (λ t. option_map string_bytes t.slice_name ≡ element.now.slice_name) }
    ensures content_reference { IfOk result (λ t. option_map string_bytes t.content_reference ≡ element.now.content_reference) }
{
    let id = String::from_str(alloc, element.id())?;
    let path = copied_text(alloc, element.path())?;
    let slice_name = copied_text(alloc, element.slice_name())?;
    let content_reference = copied_text(alloc, element.content_reference())?;
    Ok(Texts {
        id,
        path,
        slice_name,
        content_reference,
    })
}

fn two_copied(
    alloc: Global,
    first: Option<&Member<'static>>,
    second: Option<&Member<'static>>,
) -> Result<(Option<Member<'static>>, Option<Member<'static>>), NoMemory>
    ensures first { IfOk result (λ m. option_map property_of m.0 ≡ property_seen first.entry) }
    ensures second { IfOk result (λ m. option_map property_of m.1 ≡ property_seen second.entry) }
{
    let first = copied_member(alloc, first)?;
    let second = copied_member(alloc, second)?;
    Ok((first, second))
}

pub(crate) fn choices_of(alloc: Global, element: &ElementDef) -> Result<Choices, NoMemory>
    ensures fixed { IfOk result (λ c. option_map property_of c.fixed ≡ element.now.fixed) }
    ensures pattern { IfOk result (λ c. option_map property_of c.pattern ≡ element.now.pattern) }
    ensures min_value { IfOk result (λ c. option_map property_of c.min_value ≡ element.now.min_value) }
    ensures max_value { IfOk result (λ c. option_map property_of c.max_value ≡ element.now.max_value) }
{
    let values = two_copied(alloc, element.fixed(), element.pattern())?;
    let bounds = two_copied(alloc, element.min_value(), element.max_value())?;
    Ok(Choices {
        fixed: values.0,
        pattern: values.1,
        min_value: bounds.0,
        max_value: bounds.1,
    })
}

pub(crate) fn parts_of(alloc: Global, element: &ElementDef) -> Result<Parts, AllocError>
    ensures types { IfOk result (λ p. p.types.items ≡ element.now.types) }
    ensures binding { IfOk result (λ p. p.binding ≡ element.now.binding) }
    ensures slicing { IfOk result (λ p. p.slicing ≡ element.now.slicing) }
{
    let types = copied_types(alloc, element.types())?;
    let binding = copied_binding_of(alloc, element.binding())?;
    let slicing = copied_slicing_of(alloc, element.slicing())?;
    Ok(Parts {
        types,
        binding,
        slicing,
    })
}

fn whole(
    element: &ElementDef,
    texts: Texts,
    choices: Choices,
    parts: Parts,
    constraints: Vec<ConstraintDef>,
) -> ElementFields
    ensures { fields_seen result ≡ record element.now {
      id = string_bytes texts.id;
      path = option_map string_bytes texts.path;
      slice_name = option_map string_bytes texts.slice_name;
      types = parts.types.items;
      content_reference = option_map string_bytes texts.content_reference;
      fixed = option_map property_of choices.fixed;
      pattern = option_map property_of choices.pattern;
      min_value = option_map property_of choices.min_value;
      max_value = option_map property_of choices.max_value;
      binding = parts.binding;
      constraints = constraints.items;
      slicing = parts.slicing;
    } }
{
    let min = element.min();
    let max = element.max();
    let max_length = element.max_length();
    ElementFields {
        id: texts.id,
        path: texts.path,
        slice_name: texts.slice_name,
        min,
        max,
        types: parts.types,
        content_reference: texts.content_reference,
        fixed: choices.fixed,
        pattern: choices.pattern,
        min_value: choices.min_value,
        max_value: choices.max_value,
        max_length,
        binding: parts.binding,
        constraints,
        slicing: parts.slicing,
    }
}

/// The fields of an element, in memory of their own. The one refusal is want of memory.
pub fn copied(alloc: Global, element: &ElementDef) -> Result<ElementFields, NoMemory>
    ensures { IfOk result (λ f. fields_seen f ≡ element.now) }
{
    let constraints = copied_constraints(alloc, element.constraints())?;
    let parts = parts_of(alloc, element)?;
    let texts = texts_of(alloc, element)?;
    let choices = choices_of(alloc, element)?;
    Ok(whole(element, texts, choices, parts, constraints))
}
