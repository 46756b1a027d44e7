//! The elements of a definition's snapshot: judging and reading.

ghost use Rattle.std.specs.Prelude.{◌≡◌, ◌||◌, ◌&&◌, map, IfOk, is_some, length, nat_lt};
ghost use Rattle.std.specs.List.{list_all};
ghost use Rattle.fhir_json.specs.Views.{tree_of, trees_of};
ghost use Rattle.std.specs.Option.{option_map};
ghost use Rattle.fhir_elements.specs.declared.reason.Reason.TheVariants.{WrongField};
ghost use Rattle.fhir_elements.specs.Causes.{reason_of, blamed_reason, reason_unless, is_blame_among};
ghost use Rattle.fhir_elements.specs.Element.{fields_of};
ghost use Rattle.fhir_definition.specs.Snapshot.{is_root};
ghost use Rattle.fhir_definition.specs.Definition.{element_trees, is_whole};

use crate::by_id::is_root;
use crate::contained::contained_name;
use fhir_elements::{Blame, Cause, ElementDef, fields_of};
use fhir_json::{Json, NoMemory};
use std::alloc::Global;

/// The trees of the elements of a definition's snapshot, in their order.
pub fn element_trees<'t, 'j>(json: &'t Json<'j>) -> &'t [Json<'j>]
    ensures { trees_of result.now ≡ element_trees (tree_of json.now) }
{
    match json.field("snapshot") {
        Some(snapshot) => snapshot.items_in("element"),
        None => Default::default(),
    }
}

/// What the elements say.
pub(crate) fn elements_of(alloc: Global, items: &[Json<'_>]) -> Result<Vec<ElementDef>, NoMemory>
    ensures { IfOk result (λ v. v.items ≡ map fields_of (trees_of items.now)) }
{
    let mut elements = Vec::new(alloc);
    for item in items {
        let element = fields_of(alloc, item)?;
        elements.push(element)?;
    }
    Ok(elements)
}

fn says_what_it_is(element: &ElementDef) -> bool
    ensures { result ≡ (is_root element.now || nat_lt 0 (length element.now.types)
        || is_some element.now.content_reference) }
{
    is_root(element) || !element.types().is_empty() || element.content_reference().is_some()
}

// What is wrong with an element that is one of a snapshot.
fn lack_of(element: &ElementDef) -> Option<Cause>
    ensures { option_map reason_of result ≡ reason_unless (is_whole element.now) WrongField }
{
    if element.min().is_none() {
        Some(Cause::MissingField("min"))
    } else if element.max().is_none() {
        Some(Cause::MissingField("max"))
    } else if !says_what_it_is(element) {
        Some(Cause::NoType)
    } else {
        contained_name(element)
    }
}

/// The first element that isn't as one of a snapshot must be.
pub(crate) fn blame_of_lacks(elements: &[ElementDef]) -> Option<Blame>
    ensures reason { blamed_reason result ≡ reason_unless (list_all is_whole elements.now) WrongField }
    ensures element { is_blame_among (length elements.now) result }
{
    for (place, element) in elements.iter().enumerate() {
        if let Some(cause) = lack_of(element) {
            return Some(Blame::at(place, cause));
        }
    }
    None
}
