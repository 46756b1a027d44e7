//! Elements.

ghost use Rattle.std.specs.Prelude.{◌≡◌, is_none, IfOk};
ghost use Rattle.std.specs.Option.{option_map};
ghost use Rattle.fhir_json.specs.Views.{tree_of, property_of, text_seen, property_seen};
ghost use Rattle.fhir_json.specs.Fields.{field, choice_in};
ghost use Rattle.fhir_json.specs.Memory.{Gives, GivesOr};
ghost use Rattle.fhir_elements.specs.declared.reason.Reason.TheVariants.{WrongField, WrongId};
ghost use Rattle.fhir_elements.specs.Causes.{reason_of, reason_unless};
ghost use Rattle.fhir_elements.specs.TypeEntry.{is_type_entry};
ghost use Rattle.fhir_elements.specs.Constraint.{is_constraint};
ghost use Rattle.fhir_elements.specs.Binding.{is_binding, binding_of};
ghost use Rattle.fhir_elements.specs.Slicing.{is_slicing, slicing_of};
ghost use Rattle.fhir_elements.specs.Views.{fields_seen};
ghost use Rattle.fhir_elements.specs.Element.{allows_part, allows_parts, has_right_texts, has_right_numbers, has_right_choices, has_right_parts, has_right_fields, has_right_bounds, has_readable_id, element_fault, fields_of, element_of, is_no_memory, required_value_set};

use crate::binding::{BindingDef, binding_of, is_binding};
use crate::cause::Cause;
use crate::codes::{allows_code, code_in};
use crate::constraint::{ConstraintDef, are_constraints, constraints_of};
use crate::fault::ElementFault;
use crate::integers::{allows_integer, integer_in};
use crate::max::Max;
use crate::slicing::{SlicingDef, is_slicing, slicing_of};
use crate::texts::{owned_at, owned_in, text_of};
use crate::type_entry::{TypeEntry, are_type_entries, repeated_code, type_entries_of};
use fhir_json::{Json, Member, NoMemory};
use fhir_names::ElementId;
use std::alloc::{AllocError, Global};
use std::borrow::CowStr;
use std::marker::Model;

/// The fields of an element, from which `ElementDef::new` makes one.
#[derive(Drop)]
pub struct ElementFields {
    /// Its id.
    pub id: String,
    /// Its path.
    pub path: Option<String>,
    /// The name of the slice that it is.
    pub slice_name: Option<String>,
    /// How many there are at least.
    pub min: Option<u32>,
    /// How many there are at most.
    pub max: Option<Max>,
    /// Its types.
    pub types: Vec<TypeEntry>,
    /// The element whose content it takes.
    pub content_reference: Option<String>,
    /// The value that it is, under its whole name.
    pub fixed: Option<Member<'static>>,
    /// The value that it contains, under its whole name.
    pub pattern: Option<Member<'static>>,
    /// The least value that it may be, under its whole name.
    pub min_value: Option<Member<'static>>,
    /// The greatest value that it may be, under its whole name.
    pub max_value: Option<Member<'static>>,
    /// How long its text may be.
    pub max_length: Option<i32>,
    /// Its binding.
    pub binding: Option<BindingDef>,
    /// Its constraints.
    pub constraints: Vec<ConstraintDef>,
    /// How it is sliced.
    pub slicing: Option<SlicingDef>,
}

/// An element of a definition.
pub struct ElementDef {
    id: String,
    path: Option<String>,
    slice_name: Option<String>,
    min: Option<u32>,
    max: Option<Max>,
    types: Vec<TypeEntry>,
    content_reference: Option<String>,
    fixed: Option<Member<'static>>,
    pattern: Option<Member<'static>>,
    min_value: Option<Member<'static>>,
    max_value: Option<Member<'static>>,
    max_length: Option<i32>,
    binding: Option<BindingDef>,
    constraints: Vec<ConstraintDef>,
    slicing: Option<SlicingDef>,
}

// A derived drop would be proved anew in each crate that owns one.
impl Drop for ElementDef {
    fn drop(self) {
        let ElementDef {
            id: _id,
            path: _path,
            slice_name: _slice_name,
            min: _min,
            max: _max,
            types: _types,
            content_reference: _content_reference,
            fixed: _fixed,
            pattern: _pattern,
            min_value: _min_value,
            max_value: _max_value,
            max_length: _max_length,
            binding: _binding,
            constraints: _constraints,
            slicing: _slicing,
        } = self;
    }
}

impl Model for ElementDef {
    ghost use Rattle.std.specs.Prelude.{string_bytes};
    ghost use Rattle.std.specs.Option.{option_map};
    ghost use Rattle.fhir_json.specs.Views.{property_of};
    ghost use Rattle.fhir_elements.specs.Element.{Element};

    ghost Value = { Element };

    ghost use Rattle.fhir_json.specs.Coding.{tree_code};
    ghost use Rattle.std.specs.Coded.{codes};

    ghost coded = { Prim.hlevel (codes, tree_code) };

    ghost view = { λ e. record {
      id = string_bytes e.id;
      path = option_map string_bytes e.path;
      slice_name = option_map string_bytes e.slice_name;
      min = e.min;
      max = e.max;
      types = e.types.items;
      content_reference = option_map string_bytes e.content_reference;
      fixed = option_map property_of e.fixed;
      pattern = option_map property_of e.pattern;
      min_value = option_map property_of e.min_value;
      max_value = option_map property_of e.max_value;
      max_length = e.max_length;
      binding = e.binding;
      constraints = e.constraints.items;
      slicing = e.slicing;
    } };
}

// ---- whether a tree is an element

fn allows_types(json: &Json<'_>, name: &str) -> bool
    ensures { result ≡ allows_parts is_type_entry name.now (tree_of json.now) }
{
    let items = json.items_in(name);
    json.allows_items(name) && are_type_entries(items)
}

fn allows_constraints(json: &Json<'_>, name: &str) -> bool
    ensures { result ≡ allows_parts is_constraint name.now (tree_of json.now) }
{
    let items = json.items_in(name);
    json.allows_items(name) && are_constraints(items)
}

fn allows_binding(json: &Json<'_>, name: &str) -> bool
    ensures { result ≡ allows_part is_binding name.now (tree_of json.now) }
{
    json.field(name).is_none_or(|value| is_binding(value))
}

fn allows_slicing(json: &Json<'_>, name: &str) -> bool
    ensures { result ≡ allows_part is_slicing name.now (tree_of json.now) }
{
    json.field(name).is_none_or(|value| is_slicing(value))
}

fn wrong_text(json: &Json<'_>) -> Option<&'static str>
    ensures { is_none result ≡ has_right_texts (tree_of json.now) }
{
    if !json.allows_text("id") {
        Some("id")
    } else if !json.allows_text("path") {
        Some("path")
    } else if !json.allows_text("sliceName") {
        Some("sliceName")
    } else if !json.allows_text("contentReference") {
        Some("contentReference")
    } else {
        None
    }
}

fn wrong_number(json: &Json<'_>) -> Option<&'static str>
    ensures { is_none result ≡ has_right_numbers (tree_of json.now) }
{
    if !json.allows_count("min") {
        Some("min")
    } else if !allows_code::<Max>(json, "max") {
        Some("max")
    } else if !allows_integer(json, "maxLength") {
        Some("maxLength")
    } else {
        None
    }
}

// The stem of a choice that has two forms.
fn twofold_choice(json: &Json<'_>) -> Option<&'static str>
    ensures { is_none result ≡ has_right_choices (tree_of json.now) }
{
    if !json.allows_choice("fixed") {
        Some("fixed")
    } else if !json.allows_choice("pattern") {
        Some("pattern")
    } else if !json.allows_choice("minValue") {
        Some("minValue")
    } else if !json.allows_choice("maxValue") {
        Some("maxValue")
    } else {
        None
    }
}

fn wrong_part(json: &Json<'_>) -> Option<&'static str>
    ensures { is_none result ≡ has_right_parts (tree_of json.now) }
{
    if !allows_types(json, "type") {
        Some("type")
    } else if !allows_constraints(json, "constraint") {
        Some("constraint")
    } else if !allows_binding(json, "binding") {
        Some("binding")
    } else if !allows_slicing(json, "slicing") {
        Some("slicing")
    } else {
        None
    }
}

// The first field that is of a wrong kind, or whose value isn't one that it may have.
fn wrong_field(json: &Json<'_>) -> Option<Cause>
    ensures { option_map reason_of result ≡ reason_unless (has_right_fields (tree_of json.now)) WrongField }
{
    if !json.is_object() {
        return Some(Cause::NoObject);
    }
    if let Some(name) = wrong_text(json) {
        return Some(Cause::WrongField(name));
    }
    if let Some(name) = wrong_number(json) {
        return Some(Cause::WrongField(name));
    }
    if let Some(stem) = twofold_choice(json) {
        return Some(Cause::TwoForms(stem));
    }
    if let Some(name) = wrong_part(json) {
        return Some(Cause::WrongField(name));
    }
    None
}

fn has_right_bounds(json: &Json<'_>) -> bool
    ensures { result ≡ has_right_bounds (tree_of json.now) }
{
    let max: Option<Max> = code_in(json, "max");
    let Some(max) = max else {
        return true;
    };
    match json.count_in("min") {
        Some(min) => max.allows(min),
        None => true,
    }
}

fn wrong_id(json: &Json<'_>) -> Option<Cause>
    ensures { option_map reason_of result ≡ reason_unless (has_readable_id (tree_of json.now)) WrongId }
{
    let Some(id) = json.text_in("id") else {
        return Some(Cause::MissingId);
    };
    match ElementId::parse(id) {
        Ok(_) => None,
        Err(_) => Some(Cause::UnreadableId),
    }
}

/// Why a tree is no element, as the first of these that applies (FHIR R4, ElementDefinition): `NoObject`; `WrongField` or
/// `TwoForms` where a field has a wrong kind or a value outside its set; `MinOverMax`; `RepeatedType`; `MissingId` or
/// `UnreadableId`. The one refusal is want of memory.
pub fn element_cause(alloc: Global, json: &Json<'_>) -> Result<Option<Cause>, NoMemory>
    ensures { Gives (λ cause. option_map reason_of cause) result (element_fault (tree_of json.now)) }
{
    if let Some(cause) = wrong_field(json) {
        return Ok(Some(cause));
    }
    if !has_right_bounds(json) {
        return Ok(Some(Cause::MinOverMax));
    }
    if let Some(place) = repeated_code(alloc, json.items_in("type"))? {
        return Ok(Some(Cause::RepeatedType(place)));
    }
    Ok(wrong_id(json))
}

// ---- the element that it is

/// A copy of a member that borrows nothing. The one refusal is want of memory.
pub fn owned_member(alloc: Global, member: &Member<'_>) -> Result<Member<'static>, NoMemory>
    ensures { Gives property_of result (property_of member.now) }
{
    let name = String::from_str(alloc, member.name.as_str())?;
    let value = member.value.detach(alloc)?;
    Ok(Member {
        name: CowStr::Owned(name),
        value,
    })
}

fn owned_choice(
    alloc: Global,
    json: &Json<'_>,
    stem: &str,
) -> Result<Option<Member<'static>>, NoMemory>
    ensures { Gives (λ m. option_map property_of m) result (choice_in stem.now (tree_of json.now)) }
{
    match json.choice_in(stem) {
        Some(member) => Ok(Some(owned_member(alloc, member)?)),
        None => Ok(None),
    }
}

fn binding_in(alloc: Global, json: &Json<'_>, name: &str) -> Result<Option<BindingDef>, AllocError>
    ensures { IfOk result (λ b. b ≡ option_map binding_of (field name.now (tree_of json.now))) }
{
    match json.field(name) {
        Some(value) => Ok(Some(binding_of(alloc, value)?)),
        None => Ok(None),
    }
}

fn slicing_in(alloc: Global, json: &Json<'_>, name: &str) -> Result<Option<SlicingDef>, AllocError>
    ensures { IfOk result (λ s. s ≡ option_map slicing_of (field name.now (tree_of json.now))) }
{
    match json.field(name) {
        Some(value) => Ok(Some(slicing_of(alloc, value)?)),
        None => Ok(None),
    }
}

/// The element of a tree's fields, each as far as it fits: a field that doesn't fit counts as absent. `element_cause`
/// says whether all do.
pub fn fields_of(alloc: Global, json: &Json<'_>) -> Result<ElementDef, NoMemory>
    ensures { Gives (λ e. e) result (fields_of (tree_of json.now)) }
{
    Ok(ElementDef {
        id: owned_at(alloc, json, "id")?,
        path: owned_in(alloc, json, "path")?,
        slice_name: owned_in(alloc, json, "sliceName")?,
        min: json.count_in("min"),
        max: code_in(json, "max"),
        types: type_entries_of(alloc, json.items_in("type"))?,
        content_reference: owned_in(alloc, json, "contentReference")?,
        fixed: owned_choice(alloc, json, "fixed")?,
        pattern: owned_choice(alloc, json, "pattern")?,
        min_value: owned_choice(alloc, json, "minValue")?,
        max_value: owned_choice(alloc, json, "maxValue")?,
        max_length: integer_in(json, "maxLength"),
        binding: binding_in(alloc, json, "binding")?,
        constraints: constraints_of(alloc, json.items_in("constraint"))?,
        slicing: slicing_in(alloc, json, "slicing")?,
    })
}

impl ElementDef {
    /// The element of such fields, be it one that a tree may be or not.
    pub fn new(fields: ElementFields) -> ElementDef
        ensures { result ≡ fields_seen fields }
    {
        let ElementFields {
            id,
            path,
            slice_name,
            min,
            max,
            types,
            content_reference,
            fixed,
            pattern,
            min_value,
            max_value,
            max_length,
            binding,
            constraints,
            slicing,
        } = fields;
        ElementDef {
            id,
            path,
            slice_name,
            min,
            max,
            types,
            content_reference,
            fixed,
            pattern,
            min_value,
            max_value,
            max_length,
            binding,
            constraints,
            slicing,
        }
    }

    /// The element that a tree is (FHIR R4, ElementDefinition), in memory of its own. A tree that is none is refused
    /// with the reason of the cause that `element_cause` gives. A field that isn't read here is passed over, and an empty array
    /// counts as an absent one.
    pub fn of(alloc: Global, json: &Json<'_>) -> Result<ElementDef, ElementFault>
        ensures { GivesOr is_no_memory (λ e. e) result (element_of (tree_of json.now)) }
    {
        if let Some(cause) = element_cause(alloc, json)? {
            return Err(ElementFault::Unfit(cause.reason()));
        }
        let element = fields_of(alloc, json)?;
        Ok(element)
    }

    /// Its id.
    pub fn id(&self) -> &str
        ensures { result.now ≡ self.now.id }
    {
        self.id.as_str()
    }

    /// Its path.
    pub fn path(&self) -> Option<&str>
        ensures { text_seen result ≡ self.now.path }
    {
        text_of(&self.path)
    }

    /// The name of the slice that it is.
    pub fn slice_name(&self) -> Option<&str>
        ensures { text_seen result ≡ self.now.slice_name }
    {
        text_of(&self.slice_name)
    }

    /// How many there are at least.
    pub fn min(&self) -> Option<u32>
        ensures { result ≡ self.now.min }
    {
        self.min
    }

    /// How many there are at most.
    pub fn max(&self) -> Option<Max>
        ensures { result ≡ self.now.max }
    {
        self.max
    }

    /// Its types.
    pub fn types(&self) -> &[TypeEntry]
        ensures { result.now ≡ self.now.types }
    {
        &self.types
    }

    /// The element whose content it takes, as `#Questionnaire.item`.
    pub fn content_reference(&self) -> Option<&str>
        ensures { text_seen result ≡ self.now.content_reference }
    {
        text_of(&self.content_reference)
    }

    /// The value that it is, under its whole name, as `fixedCode`.
    pub fn fixed(&self) -> Option<&Member<'static>>
        ensures { property_seen result ≡ self.now.fixed }
    {
        self.fixed.as_ref()
    }

    /// The value that it contains, under its whole name, as `patternCoding`.
    pub fn pattern(&self) -> Option<&Member<'static>>
        ensures { property_seen result ≡ self.now.pattern }
    {
        self.pattern.as_ref()
    }

    /// The least value that it may be, under its whole name, as `minValueInteger`.
    pub fn min_value(&self) -> Option<&Member<'static>>
        ensures { property_seen result ≡ self.now.min_value }
    {
        self.min_value.as_ref()
    }

    /// The greatest value that it may be, under its whole name, as `maxValueDate`.
    pub fn max_value(&self) -> Option<&Member<'static>>
        ensures { property_seen result ≡ self.now.max_value }
    {
        self.max_value.as_ref()
    }

    /// How long its text may be.
    pub fn max_length(&self) -> Option<i32>
        ensures { result ≡ self.now.max_length }
    {
        self.max_length
    }

    /// Its binding.
    pub fn binding(&self) -> Option<&BindingDef>
        ensures { option_map (λ b. b.now) result ≡ self.now.binding }
    {
        self.binding.as_ref()
    }

    /// The url of the value set that an item's codes have to be in, if the element says so (FHIR R4, Terminologies, required).
    pub fn required_value_set(&self) -> Option<&str>
        ensures { text_seen result ≡ required_value_set self.now }
    {
        match &self.binding {
            Some(binding) => binding.required_set(),
            None => None,
        }
    }

    /// Its constraints.
    pub fn constraints(&self) -> &[ConstraintDef]
        ensures { result.now ≡ self.now.constraints }
    {
        &self.constraints
    }

    /// How it is sliced.
    pub fn slicing(&self) -> Option<&SlicingDef>
        ensures { option_map (λ s. s.now) result ≡ self.now.slicing }
    {
        self.slicing.as_ref()
    }
}
