//! What is to blame for a definition that can't be used whatever the others are.

ghost use Rattle.std.specs.Prelude.{◌≡◌, ◌&&◌, ℕ, not, map, length, IfOk};
ghost use Rattle.std.specs.List.{list_all, list_any};
ghost use Rattle.std.specs.Option.{option_map};
ghost use Rattle.fhir_json.specs.Views.{tree_of, trees_of};
ghost use Rattle.fhir_elements.specs.declared.reason.Reason.TheVariants.{WrongField, MinOverMax, RepeatedType, WrongId};
ghost use Rattle.fhir_elements.specs.Causes.{reason_of, blamed_reason, reason_unless, is_blame_among};
ghost use Rattle.fhir_elements.specs.Element.{element_fault, fields_of};
ghost use Rattle.fhir_definition.specs.Head.{has_right_head};
ghost use Rattle.fhir_definition.specs.Bounds.{has_lexical_bounds};
ghost use Rattle.fhir_definition.specs.Cases.{reasons_of, is_case_of};
ghost use Rattle.fhir_definition.specs.Definition.{is_whole, is_wrong_field, is_min_over_max, is_repeated_type, is_wrong_id, element_trees, element_faults, own_fault};

use crate::bounds::blame_of_bounds;
use crate::elements::{blame_of_lacks, element_trees};
use crate::head::head_cause;
use crate::snapshot::Snapshot;
use fhir_elements::{Blame, Cause, ElementDef, Reason, element_cause};
use fhir_json::{Json, NoMemory};
use std::alloc::Global;

fn wrong_field(cause: Option<Cause>) -> Option<Cause>
    ensures { option_map reason_of result ≡ reason_unless (not (is_wrong_field (option_map reason_of cause))) WrongField }
{
    let cause = cause?;
    match cause.reason() {
        Reason::WrongField => Some(cause),
        _ => None,
    }
}

fn min_over_max(cause: Option<Cause>) -> Option<Cause>
    ensures { option_map reason_of result ≡ reason_unless (not (is_min_over_max (option_map reason_of cause))) MinOverMax }
{
    let cause = cause?;
    match cause.reason() {
        Reason::MinOverMax => Some(cause),
        _ => None,
    }
}

fn repeated_type(cause: Option<Cause>) -> Option<Cause>
    ensures { option_map reason_of result ≡ reason_unless (not (is_repeated_type (option_map reason_of cause))) RepeatedType }
{
    let cause = cause?;
    match cause.reason() {
        Reason::RepeatedType => Some(cause),
        _ => None,
    }
}

fn wrong_id(cause: Option<Cause>) -> Option<Cause>
    ensures { option_map reason_of result ≡ reason_unless (not (is_wrong_id (option_map reason_of cause))) WrongId }
{
    let cause = cause?;
    match cause.reason() {
        Reason::WrongId => Some(cause),
        _ => None,
    }
}

// The cause, if it is a case of a reason that elements have.
fn case_of(reason: Reason, cause: Option<Cause>) -> Option<Cause>
    ensures { option_map reason_of result ≡ reason_unless (not (is_case_of reason (option_map reason_of cause))) reason }
{
    match reason {
        Reason::WrongField => wrong_field(cause),
        Reason::MinOverMax => min_over_max(cause),
        Reason::RepeatedType => repeated_type(cause),
        Reason::WrongId => wrong_id(cause),
        _ => None,
    }
}

// The first element whose cause is a case of a reason.
fn first_of(reason: Reason, causes: &[Option<Cause>]) -> Option<Blame>
    ensures reason { blamed_reason result ≡ reason_unless (not (list_any (is_case_of reason) (reasons_of causes.now))) reason }
    ensures element { is_blame_among (length causes.now) result }
{
    for (place, cause) in causes.iter().enumerate() {
        if let Some(cause) = case_of(reason, *cause) {
            return Some(Blame::at(place, cause));
        }
    }
    None
}

fn blame_of_values(elements: &[ElementDef]) -> Option<Blame>
    ensures reason { blamed_reason result ≡ reason_unless (list_all is_whole elements.now && list_all has_lexical_bounds elements.now) WrongField }
    ensures element { is_blame_among (length elements.now) result }
{
    blame_of_lacks(elements).or(blame_of_bounds(elements))
}

fn blame_of_head(url: &str, json: &Json<'_>) -> Option<Blame>
    ensures reason { blamed_reason result ≡ reason_unless (has_right_head url.now (tree_of json.now)) WrongField }
    ensures element { (count : ℕ) → is_blame_among count result }
{
    let cause = head_cause(url, json)?;
    Some(Blame::whole(cause))
}

// The first field that isn't right: of the head, and then of the elements.
fn blame_of_fields(
    url: &str,
    json: &Json<'_>,
    elements: &[ElementDef],
    causes: &[Option<Cause>],
) -> Option<Blame>
    requires { length causes.now ≡ length elements.now }
    ensures reason { blamed_reason result ≡ reason_unless (has_right_head url.now (tree_of json.now)
        && list_all is_whole elements.now && list_all has_lexical_bounds elements.now
        && not (list_any is_wrong_field (reasons_of causes.now))) WrongField }
    ensures element { is_blame_among (length elements.now) result }
{
    blame_of_head(url, json)
        .or(first_of(Reason::WrongField, causes))
        .or(blame_of_values(elements))
}

// Why each tree is no element, if it is none.
fn causes_of(alloc: Global, items: &[Json<'_>]) -> Result<Vec<Option<Cause>>, NoMemory>
    ensures { IfOk result (λ v. reasons_of v.items ≡ map element_fault (trees_of items.now)) }
{
    let mut causes = Vec::new(alloc);
    for item in items {
        let cause = element_cause(alloc, item)?;
        causes.push(cause)?;
    }
    Ok(causes)
}

fn first_blame(
    url: &str,
    json: &Json<'_>,
    snapshot: &Snapshot,
    causes: &[Option<Cause>],
) -> Option<Blame>
    requires reasons { reasons_of causes.now ≡ element_faults (tree_of json.now) }
    requires count { length causes.now ≡ length snapshot.now }
    ensures reason { blamed_reason result ≡ own_fault url.now (tree_of json.now) snapshot.now }
    ensures element { is_blame_among (length snapshot.now) result }
{
    blame_of_fields(url, json, snapshot.elements(), causes)
        .or(first_of(Reason::MinOverMax, causes))
        .or(first_of(Reason::RepeatedType, causes))
        .or(first_of(Reason::WrongId, causes))
        .or(snapshot.blame_of_ids())
}

/// What is to blame for a definition by itself, as the first that is found.
pub(crate) fn own_blame(
    alloc: Global,
    url: &str,
    json: &Json<'_>,
    snapshot: &Snapshot,
) -> Result<Option<Blame>, NoMemory>
    requires { snapshot.now ≡ map fields_of (element_trees (tree_of json.now)) }
    ensures reason { IfOk result (λ blame. blamed_reason blame ≡ own_fault url.now (tree_of json.now) snapshot.now) }
    ensures element { IfOk result (λ blame. is_blame_among (length snapshot.now) blame) }
{
    let causes = causes_of(alloc, element_trees(json))?;
    Ok(first_blame(url, json, snapshot, &causes))
}
