//! What is wrong with what a definition brings.

ghost use Rattle.std.specs.Prelude.{◌≡◌, ◌&&◌, IfOk, IfSome, is_none, codes};
ghost use Rattle.std.specs.List.{list_all};
ghost use Rattle.fhir_json.specs.Views.{tree_of, trees_of};
ghost use Rattle.fhir_elements.specs.Element.{element_fault};
ghost use Rattle.fhir_definition.specs.Snapshot.{ids_differ};
ghost use Rattle.fhir_snapshot.specs.declared.fault.SnapNumber.TheVariants.{S3, S4};
ghost use Rattle.fhir_snapshot.specs.Faults.{number_of};
ghost use Rattle.fhir_snapshot.specs.Snapshots.{has_right_part, brings_elements};
ghost use Rattle.fhir_snapshot.specs.Knowing.{IsDraftFault};

use crate::fault::SnapFault;
use fhir_elements::element_cause;
use fhir_inheritance::{Elements, trees_in};
use fhir_json::{Json, NoMemory};
use std::alloc::Global;

fn has_right_part(part: &str, definition: &Json<'_>) -> bool
    ensures { result ≡ has_right_part part.now (tree_of definition.now) }
{
    match definition.field(part) {
        Some(part) => part.is_object() && part.allows_items("element"),
        None => true,
    }
}

// The first tree that is no element.
fn wrong_element<'t, 'j>(
    alloc: Global,
    trees: &'t [Json<'j>],
) -> Result<Option<&'t Json<'j>>, NoMemory>
    ensures { IfOk result (λ tree. is_none tree ≡ list_all (λ e. is_none (element_fault e)) (trees_of trees.now)) }
{
    for tree in trees {
        if element_cause(alloc, tree)?.is_some() {
            return Ok(Some(tree));
        }
    }
    Ok(None)
}

// What is wrong with the elements of a snapshot or a differential.
fn fault_in_part(
    alloc: Global,
    part: &str,
    definition: &Json<'_>,
) -> Result<Option<SnapFault>, NoMemory>
    ensures none { IfOk result (λ f. is_none f ≡ brings_elements part.now (tree_of definition.now)) }
    ensures number { IfOk result (λ f. IfSome f (λ f. number_of f ≡ S3)) }
{
    if !has_right_part(part, definition) {
        return Ok(Some(SnapFault::WrongPart));
    }
    match wrong_element(alloc, trees_in(part, definition))? {
        Some(tree) => {
            let id = String::from_str(alloc, tree.text_at("id"))?;
            Ok(Some(SnapFault::WrongElement(id)))
        }
        None => Ok(None),
    }
}

// An id that stands twice in a differential.
fn repeated(alloc: Global, elements: &Elements) -> Result<Option<SnapFault>, NoMemory>
    ensures none { IfOk result (λ f. is_none f ≡ ids_differ elements.now) }
    ensures number { IfOk result (λ f. IfSome f (λ f. number_of f ≡ S4)) }
{
    match elements.repeated() {
        Some(element) => {
            let id = String::from_str(alloc, element.id())?;
            Ok(Some(SnapFault::RepeatedId(id)))
        }
        None => Ok(None),
    }
}

/// What is wrong with the snapshot that a definition brings.
pub(crate) fn fault_of_snapshot(
    alloc: Global,
    definition: &Json<'_>,
) -> Result<Option<SnapFault>, NoMemory>
    ensures none { IfOk result (λ f. is_none f ≡ brings_elements (codes "snapshot") (tree_of definition.now)) }
    ensures number { IfOk result (λ f. IfSome f (λ f. number_of f ≡ S3)) }
{
    fault_in_part(alloc, "snapshot", definition)
}

/// What is wrong with a differential of these elements.
pub(crate) fn fault_of_differential(
    alloc: Global,
    definition: &Json<'_>,
    elements: &Elements,
) -> Result<Option<SnapFault>, NoMemory>
    ensures none { IfOk result (λ f. is_none f ≡ (brings_elements (codes "differential") (tree_of definition.now) && ids_differ elements.now)) }
    ensures number { IfOk result (λ f. IfSome f (λ f. IsDraftFault (tree_of definition.now) elements.now (number_of f))) }
{
    match fault_in_part(alloc, "differential", definition)? {
        Some(fault) => Ok(Some(fault)),
        None => repeated(alloc, elements),
    }
}
