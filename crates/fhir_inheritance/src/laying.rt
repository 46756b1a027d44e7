//! The element of an id, where what it inherits is known.

ghost use Rattle.std.specs.Prelude.{◌≡◌, IfOk, map, string_bytes};
ghost use Rattle.std.specs.Option.{option_copied};
ghost use Rattle.fhir_elements.specs.Views.{fields_seen};
ghost use Rattle.fhir_overlay.specs.Overlay.{as_slice};
ghost use Rattle.fhir_inheritance.specs.Elements.{find};
ghost use Rattle.fhir_inheritance.specs.Laying.{is_extension, open_by, implied, slicing_with, moved, over, laid, all_slices, is_touched};

use crate::elements::Elements;
use crate::keys::path_of;
use crate::texts::{all_owned, has_other, with_others};
use fhir_elements::{
    DiscriminatorDef, DiscriminatorType, ElementDef, ElementFields, SlicingDef, SlicingRules,
};
use fhir_json::NoMemory;
use fhir_names::name_of;
use fhir_overlay::{as_slice, copied, laid_over};
use std::alloc::Global;

fn is_extension(name: &str) -> bool
    ensures { result ≡ is_extension name.now }
{
    name == "extension" || name == "modifierExtension"
}

fn open_by(alloc: Global, by: DiscriminatorType, path: &str) -> Result<SlicingDef, NoMemory>
    ensures { IfOk result (λ s. s ≡ open_by by path.now) }
{
    let path = String::from_str(alloc, path)?;
    let mut discriminators = Vec::new(alloc);
    discriminators.push(DiscriminatorDef::new(Some(by), Some(path)))?;
    Ok(SlicingDef::new(discriminators, None, Some(SlicingRules::Open)))
}

// The slicing that is implied of an element of that name.
fn implied(alloc: Global, name: &str) -> Result<Option<SlicingDef>, NoMemory>
    ensures { IfOk result (λ s. s ≡ implied name.now) }
{
    if is_extension(name) {
        return Ok(Some(open_by(alloc, DiscriminatorType::Value, "url")?));
    }
    if name.as_bytes().ends_with(b"[x]") {
        return Ok(Some(open_by(alloc, DiscriminatorType::TypeCode, "$this")?));
    }
    Ok(None)
}

// The same fields, and the slicing that is implied where there are slices and no slicing.
fn with_slicing(
    alloc: Global,
    slices: &[String],
    fields: ElementFields,
) -> Result<ElementFields, NoMemory>
    ensures { IfOk result (λ f. fields_seen f
        ≡ record (fields_seen fields) { slicing = slicing_with (map string_bytes slices.now) (fields_seen fields) }) }
{
    if fields.slicing.is_some() || slices.is_empty() {
        return Ok(fields);
    }
    let slicing = implied(alloc, name_of(fields.id.as_str()))?;
    Ok(ElementFields { slicing, ..fields })
}

fn over(
    alloc: Global,
    element: Option<&ElementDef>,
    inherited: ElementFields,
) -> Result<ElementFields, NoMemory>
    ensures { IfOk result (λ f. fields_seen f ≡ over (option_copied element.entry) (fields_seen inherited)) }
{
    match element {
        Some(element) => laid_over(alloc, element, inherited),
        None => Ok(inherited),
    }
}

/// What the differential says of an element over what that inherits, where it has these slices.
pub(crate) fn laid(
    alloc: Global,
    differential: &Elements,
    slices: &[String],
    inherited: ElementFields,
) -> Result<ElementDef, NoMemory>
    ensures { IfOk result (λ e. e ≡ laid differential.now (map string_bytes slices.now) (fields_seen inherited)) }
{
    let element = differential.get(inherited.id.as_str());
    let fields = over(alloc, element, inherited)?;
    let fields = with_slicing(alloc, slices, fields)?;
    Ok(ElementDef::new(fields))
}

/// The fields of an element, as one of another id inherits them.
pub(crate) fn moved(
    alloc: Global,
    id: &str,
    element: &ElementDef,
) -> Result<ElementFields, NoMemory>
    ensures { IfOk result (λ f. fields_seen f ≡ moved id.now element.now) }
{
    let path = path_of(alloc, id)?;
    let id = String::from_str(alloc, id)?;
    let fields = copied(alloc, element)?;
    Ok(ElementFields {
        id,
        path: Some(path),
        ..fields
    })
}

/// The same of what a slice of the element inherits.
pub(crate) fn moved_as_slice(
    alloc: Global,
    id: &str,
    element: &ElementDef,
) -> Result<ElementFields, NoMemory>
    ensures { IfOk result (λ f. fields_seen f ≡ moved id.now (as_slice element.now)) }
{
    let fields = moved(alloc, id, element)?;
    Ok(as_slice(fields))
}

/// The base's slices of an id, and then the new ones.
pub(crate) fn all_slices(
    alloc: Global,
    differential: &Elements,
    id: &str,
    slices: &[String],
) -> Result<Vec<String>, NoMemory>
    ensures { IfOk result (λ v. map string_bytes v.items ≡ all_slices differential.now id.now (map string_bytes slices.now)) }
{
    let slices = all_owned(alloc, slices)?;
    with_others(alloc, slices, differential.slices_under(id))
}

/// Whether the differential has a child that the base doesn't have, or a slice of one.
pub(crate) fn is_touched(
    alloc: Global,
    differential: &Elements,
    id: &str,
    names: &[String],
) -> Result<bool, NoMemory>
    ensures { IfOk result (λ touched. touched ≡ is_touched differential.now id.now (map string_bytes names.now)) }
{
    if has_other(alloc, differential.names_under(id), names)? {
        return Ok(true);
    }
    has_other(alloc, differential.sliced_names_under(id), names)
}
