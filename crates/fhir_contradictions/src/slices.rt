//! What the slices of an element ask for that can never hold (FHIR R4, Profiling, slicing).

ghost use Rattle.std.specs.Prelude.{◌≡◌, not, nat_le, IfOk};
ghost use Rattle.std.specs.List.{list_all, list_any, sum_by};
ghost use Rattle.fhir_json.specs.Views.{tree_of, tree_seen, text_seen};
ghost use Rattle.fhir_forms.specs.Criteria.{sole};
ghost use Rattle.fhir_forms.specs.CriteriaSeen.{sought_seen, criterion_seen, criteria_seen};
ghost use Rattle.fhir_schema.specs.Schemas.{slots, slices};
ghost use Rattle.fhir_elements.specs.Max.{is_within};
ghost use Rattle.fhir_facets.specs.Cardinality.{are_within};
ghost use Rattle.fhir_contradictions.specs.Contradictions.{slice_least, asks_too_many, may_share, shares_none, has_other_types, is_scalar, fixes_other, leads_elsewhere, value_of, is_elsewhere, profile_root, has_other_value};

use crate::along::end_along;
use crate::typing::{entry_of, is_untyped};
use fhir_elements::{ElementDef, Max, TypeEntry};
use fhir_json::{Json, NoMemory};
use fhir_matching::json_eq;
use fhir_schema::{Criterion, NodeRef, Schema, Slot, Sought};
use std::alloc::Global;

// ---- how many items they ask for together

fn slice_least(schema: &Schema, node: NodeRef, slice: &Slot) -> usize
    ensures { result ≡ slice_least schema.now node slice.now }
{
    match schema.element(entry_of(node, slice)) {
        Some(element) => element.min().unwrap_or(0) as usize,
        None => 0,
    }
}

fn ask_for_more(schema: &Schema, node: NodeRef, slices: &[Slot], most: usize) -> bool
    ensures { result ≡ not (nat_le (sum_by (slice_least schema.now node) slices.now) most) }
{
    let mut left = most;
    for slice in slices {
        let least = slice_least(schema, node, slice);
        if least > left {
            return true;
        }
        left -= least;
    }
    false
}

fn ask_beyond(schema: &Schema, node: NodeRef, most: Max) -> bool
    ensures { result ≡ not (is_within (sum_by (slice_least schema.now node) (slices schema.now node)) most) }
{
    match most {
        Max::UpTo(most) => ask_for_more(schema, node, schema.slices(node), most as usize),
        Max::Unbounded => false,
    }
}

fn ask_beyond_max(schema: &Schema, node: NodeRef, element: &ElementDef) -> bool
    ensures { result ≡ not (are_within element.now (sum_by (slice_least schema.now node) (slices schema.now node))) }
{
    match element.max() {
        Some(most) => ask_beyond(schema, node, most),
        None => false,
    }
}

/// Whether the slices of a node's element ask for more items together than it may have.
pub(crate) fn asks_too_many(schema: &Schema, node: NodeRef) -> bool
    ensures { result ≡ asks_too_many schema.now node }
{
    match schema.element(node) {
        Some(element) => ask_beyond_max(schema, node, element),
        None => false,
    }
}

// ---- their types

fn may_share(schema: &Schema, one: &str, other: &str) -> bool
    ensures { result ≡ may_share schema.now one.now other.now }
{
    let is_either = schema.covers(one, other) || schema.covers(other, one);
    let are_resources = schema.is_resource(one) && schema.is_resource(other);
    is_either || are_resources
}

fn shares_none(schema: &Schema, others: &[TypeEntry], entry: &TypeEntry) -> bool
    ensures { result ≡ shares_none schema.now others.now entry.now }
{
    others
        .iter()
        .all(|other| !may_share(schema, entry.code(), other.code()))
}

fn share_none(schema: &Schema, others: &[TypeEntry], entries: &[TypeEntry]) -> bool
    ensures { result ≡ list_all (shares_none schema.now others.now) entries.now }
{
    entries
        .iter()
        .all(|entry| shares_none(schema, others, entry))
}

/// Whether no type of a slice is one of the node that it is a slice of.
pub(crate) fn has_other_types(schema: &Schema, node: NodeRef, slice: NodeRef) -> bool
    ensures { result ≡ has_other_types schema.now node slice }
{
    let are_typed = !is_untyped(schema, node) && !is_untyped(schema, slice);
    are_typed && share_none(schema, schema.types(node), schema.types(slice))
}

// ---- the values by which they are told

fn is_scalar(value: &Json<'_>) -> bool
    ensures { result ≡ is_scalar (tree_of value.now) }
{
    match value {
        Json::Null | Json::Bool(_) | Json::Num(_) | Json::Str(_) => true,
        Json::Arr(_) | Json::Obj(_) => false,
    }
}

fn fixes_other(schema: &Schema, value: &Json<'_>, node: NodeRef) -> bool
    ensures { result ≡ fixes_other schema.now (tree_of value.now) node }
{
    let Some(element) = schema.element(node) else {
        return false;
    };
    match element.fixed() {
        Some(fixed) => !json_eq(value, &fixed.value),
        None => false,
    }
}

fn leads_elsewhere(
    alloc: Global,
    schema: &Schema,
    by: Option<NodeRef>,
    node: NodeRef,
    criterion: &Criterion,
    value: &Json<'_>,
) -> Result<bool, NoMemory>
    ensures { IfOk result (λ is. is ≡ leads_elsewhere schema.now by node (criterion_seen criterion.now) (tree_of value.now)) }
{
    match end_along(alloc, schema, by, node, &criterion.names)? {
        Some(end) => Ok(fixes_other(schema, value, end)),
        None => Ok(false),
    }
}

fn value_of(sought: &Sought) -> Option<&Json<'static>>
    ensures { tree_seen result ≡ value_of (sought_seen sought.now) }
{
    match sought {
        Sought::Fixed(value) => { if is_scalar(value) { Some(value) } else { None } }
        _ => None,
    }
}

fn is_elsewhere(
    alloc: Global,
    schema: &Schema,
    by: Option<NodeRef>,
    node: NodeRef,
    criterion: &Criterion,
) -> Result<bool, NoMemory>
    ensures { IfOk result (λ is. is ≡ is_elsewhere schema.now by node (criterion_seen criterion.now)) }
{
    match value_of(&criterion.sought) {
        Some(value) => leads_elsewhere(alloc, schema, by, node, criterion, value),
        None => Ok(false),
    }
}

fn some_is_elsewhere(
    alloc: Global,
    schema: &Schema,
    by: Option<NodeRef>,
    node: NodeRef,
    criteria: &[Criterion],
) -> Result<bool, NoMemory>
    ensures { IfOk result (λ is. is ≡ list_any (is_elsewhere schema.now by node) (criteria_seen criteria.now)) }
{
    for criterion in criteria {
        if is_elsewhere(alloc, schema, by, node, criterion)? {
            return Ok(true);
        }
    }
    Ok(false)
}

fn sole_profile(entry: &TypeEntry) -> Option<&str>
    ensures { text_seen result ≡ sole entry.now.profiles }
{
    match entry.profiles() {
        [profile] => Some(profile.as_str()),
        _ => None,
    }
}

// The root of the one profile of the node's one type.
fn profile_root(schema: &Schema, node: NodeRef) -> Option<NodeRef>
    ensures { result ≡ profile_root schema.now node }
{
    match schema.types(node) {
        [entry] => schema.loaded(sole_profile(entry)?),
        _ => None,
    }
}

/// Whether a slice of a node is told by a value, where the node, or the profile of the slice's type, has another one at that path; and where
/// it may be known which node of a type's definition types the slice's items. The one refusal is want of memory.
pub(crate) fn has_other_value(
    alloc: Global,
    schema: &Schema,
    by: Option<NodeRef>,
    node: NodeRef,
    slice: NodeRef,
) -> Result<bool, NoMemory>
    ensures { IfOk result (λ has. has ≡ has_other_value schema.now by node slice) }
{
    let criteria = schema.criteria(slice);
    if some_is_elsewhere(alloc, schema, by, node, criteria)? {
        return Ok(true);
    }
    match profile_root(schema, slice) {
        Some(root) => some_is_elsewhere(alloc, schema, by, root, criteria),
        None => Ok(false),
    }
}
