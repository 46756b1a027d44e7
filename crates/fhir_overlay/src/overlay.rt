//! One element laid over another.

ghost use Rattle.std.specs.Option.{option_map, option_or};
ghost use Rattle.std.specs.Prelude.{◌≡◌, ◌<◌, IfOk, OnOk, string_bytes};
ghost use Rattle.fhir_json.specs.Views.{property_of, text_seen, property_seen};
ghost use Rattle.fhir_elements.specs.Views.{fields_seen};
ghost use Rattle.fhir_overlay.specs.Overlay.{listed_over, laid_over, as_slice, bounds_fit};
ghost use Rattle.fhir_overlay.specs.Stages.{texts_over, choices_over, numbers_over};

use crate::constraints::add_constraints;
use crate::copying::{choices_of, parts_of, texts_of};
use fhir_elements::{BindingDef, ElementDef, ElementFields, SlicingDef, TypeEntry};
use fhir_json::{Member, NoMemory};
use std::alloc::{AllocError, Global};

fn lay_text(under: &mut Option<String>, over: Option<String>)
    ensures { option_map string_bytes under.new ≡ option_or (option_map string_bytes over) (option_map string_bytes under.old) }
{
    if over.is_some() {
        *under = over;
    }
}

fn lay_types(under: &mut Vec<TypeEntry>, over: Vec<TypeEntry>)
    ensures { under.new.items ≡ listed_over over.items under.old.items }
{
    if !over.is_empty() {
        *under = over;
    }
}

fn lay_member(under: &mut Option<Member<'static>>, over: Option<Member<'static>>)
    ensures { option_map property_of under.new ≡ option_or (option_map property_of over.entry) (option_map property_of under.old) }
{
    if over.is_some() {
        *under = over;
    }
}

fn lay_binding(under: &mut Option<BindingDef>, over: Option<BindingDef>)
    ensures { under.new ≡ option_or over under.old }
{
    if over.is_some() {
        *under = over;
    }
}

fn lay_slicing(under: &mut Option<SlicingDef>, over: Option<SlicingDef>)
    ensures { under.new ≡ option_or over under.old }
{
    if over.is_some() {
        *under = over;
    }
}

fn lay_texts(alloc: Global, under: &mut ElementFields, over: &ElementDef) -> Result<(), AllocError>
    ensures { OnOk result (fields_seen under.new ≡ texts_over over.now (fields_seen under.old)) }
{
    let texts = texts_of(alloc, over)?;
    under.id = texts.id;
    lay_text(&mut under.path, texts.path);
    lay_text(&mut under.slice_name, texts.slice_name);
    lay_text(&mut under.content_reference, texts.content_reference);
    Ok(())
}

fn lay_choices(alloc: Global, under: &mut ElementFields, over: &ElementDef) -> Result<(), NoMemory>
    ensures { OnOk result (fields_seen under.new ≡ choices_over over.now (fields_seen under.old)) }
{
    let choices = choices_of(alloc, over)?;
    lay_member(&mut under.fixed, choices.fixed);
    lay_member(&mut under.pattern, choices.pattern);
    lay_member(&mut under.min_value, choices.min_value);
    lay_member(&mut under.max_value, choices.max_value);
    Ok(())
}

fn lay_numbers(under: &mut ElementFields, over: &ElementDef)
    ensures { fields_seen under.new ≡ numbers_over over.now (fields_seen under.old) }
{
    under.min = over.min().or(under.min);
    under.max = over.max().or(under.max);
    under.max_length = over.max_length().or(under.max_length);
}

fn lay_parts(alloc: Global, under: &mut ElementFields, over: &ElementDef) -> Result<(), AllocError>
    ensures { OnOk result (fields_seen under.new ≡ record (fields_seen under.old) {
      types = listed_over over.now.types under.old.types.items;
      binding = option_or over.now.binding under.old.binding;
      slicing = option_or over.now.slicing under.old.slicing;
    }) }
{
    let parts = parts_of(alloc, over)?;
    lay_types(&mut under.types, parts.types);
    lay_binding(&mut under.binding, parts.binding);
    lay_slicing(&mut under.slicing, parts.slicing);
    Ok(())
}

fn lay_over(alloc: Global, under: &mut ElementFields, over: &ElementDef) -> Result<(), NoMemory>
    ensures { OnOk result (fields_seen under.new ≡ laid_over over.now (fields_seen under.old)) }
{
    lay_texts(alloc, under, over)?;
    lay_choices(alloc, under, over)?;
    lay_numbers(under, over);
    lay_parts(alloc, under, over)?;
    Ok(add_constraints(alloc, &mut under.constraints, over.constraints())?)
}

/// The fields of an element laid over others (FHIR R4, Profiling, snapshots): what `over` says, and where it says nothing,
/// what lies under it. The id is that of `over`, and its constraints come behind those under it, but for those of which
/// the same is there. The one refusal is want of memory.
pub fn laid_over(
    alloc: Global,
    over: &ElementDef,
    under: ElementFields,
) -> Result<ElementFields, NoMemory>
    ensures { IfOk result (λ f. fields_seen f ≡ laid_over over.now (fields_seen under)) }
{
    let mut fields = under;
    lay_over(alloc, &mut fields, over)?;
    Ok(fields)
}

/// The fields as a slice inherits them from the element that it is a slice of: there need be none of it, and it isn't
/// sliced itself.
pub fn as_slice(fields: ElementFields) -> ElementFields
    ensures { fields_seen result ≡ as_slice (fields_seen fields) }
{
    ElementFields {
        min: Some(0),
        slicing: None,
        ..fields
    }
}

/// Whether `min` lies within `max`, where the element has both (FHIR R4, ElementDefinition, min and max).
pub fn bounds_fit(element: &ElementDef) -> bool
    ensures { result ≡ bounds_fit element.now }
{
    let Some(max) = element.max() else {
        return true;
    };
    match element.min() {
        Some(min) => max.allows(min),
        None => true,
    }
}
