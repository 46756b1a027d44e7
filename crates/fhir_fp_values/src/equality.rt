//! When two values are equal (FHIRPath N1, section 6.1).

ghost use Rattle.std.specs.Prelude.{◌≡◌, ℕ, List, option_map, IfOk, OnOk};
ghost use Rattle.std.specs.Cmp.Lexicographic.{slice_cmp};
ghost use Rattle.std.specs.Ordering.{is_eq, nat_cmp};
ghost use Rattle.fhir_prims.specs.Order.{moment_order};
ghost use Rattle.fhir_prims.specs.Views.{fields_seen};
ghost use Rattle.fhir_instance.specs.Items.{kids_in};
ghost use Rattle.fhir_instance.specs.View.{item_of, named_of, named_in};
ghost use Rattle.fhir_fp_values.specs.Equality.{same_system_value, if_same, items_named, by_name, sides_of, equal, same_node, alike, pairs, equality, has};
ghost use Rattle.fhir_fp_values.specs.Pairing.{kids_seen, heights, heights_seen, Ascends, pairwise};
ghost use Rattle.fhir_fp_values.specs.Views.{plain_of, plains_of, system_value_seen};

use crate::system_value::{SystemValue, item_value, system_value_of};
use crate::truths::{is_yes, kleene_and, same_truth};
use crate::value::Value;
use fhir_instance::{Kid, Typed};
use fhir_json::NoMemory;
use fhir_prims::{Moment, cmp_moment};
use std::alloc::{AllocError, Global};
use std::cmp::Ordering;

fn same_moment(left: &Moment<'_>, right: &Moment<'_>) -> Option<bool>
    ensures { result ≡ option_map is_eq (moment_order (fields_seen left.now) (fields_seen right.now)) }
{
    match cmp_moment(left, right) {
        Some(order) => Some(order.is_eq()),
        None => None,
    }
}

fn same_system_value(left: SystemValue<'_>, right: SystemValue<'_>) -> Option<bool>
    ensures { result ≡ same_system_value (system_value_seen left.entry) (system_value_seen right.entry) }
{
    match (left, right) {
        (SystemValue::Boolean(left), SystemValue::Boolean(right)) => Some(same_truth(left, right)),
        (SystemValue::Number(left), SystemValue::Number(right)) => Some(left.eq_value(&right)),
        (SystemValue::Text(left), SystemValue::Text(right)) => Some(left == right),
        (SystemValue::Moment(left), SystemValue::Moment(right)) => same_moment(&left, &right),
        (SystemValue::Time(left), SystemValue::Time(right)) => same_moment(&left, &right),
        _ => Some(false),
    }
}

// A kid, as a value to sort.
#[derive(Clone, Copy)]
pub(crate) struct KidRef<'k, 'a, 'j> {
    pub(crate) kid: &'k Kid<'a, 'j>,
}

fn name_order(left: &Kid<'_, '_>, right: &Kid<'_, '_>) -> Ordering
    ensures { result ≡ slice_cmp nat_cmp (named_of left.now).0 (named_of right.now).0 }
{
    left.name().cmp(right.name())
}

// Puts kids into the order of their names. Those of one name stay in their order.
fn sort_by_name(kids: &mut Vec<KidRef<'_, '_, '_>>) -> Result<(), AllocError>
    ensures ascends { OnOk result (Ascends (kids_seen kids.new.items)) }
    ensures stable { (name : List ℕ) → items_named name (kids_in (kids_seen kids.new.items))
        ≡ items_named name (kids_in (kids_seen kids.old.items)) }
    ensures heights { heights_seen kids.new.items ≡ heights_seen kids.old.items }
{
    kids.sort_by(|left, right| name_order(left.kid, right.kid))
}

// Kids in the order of their names. Those of one name stay in their order.
pub(crate) fn sorted_by_name<'k, 'a, 'j>(
    alloc: Global,
    kids: &'k [Kid<'a, 'j>],
) -> Result<Vec<KidRef<'k, 'a, 'j>>, AllocError>
    ensures ascends { IfOk result (λ v. Ascends (kids_seen v.items)) }
    ensures stable { IfOk result (λ v. (name : List ℕ) → items_named name (kids_in (kids_seen v.items))
        ≡ items_named name (kids_in (named_in kids.now))) }
    ensures heights { IfOk result (λ v. heights_seen v.items ≡ heights (kids_in (named_in kids.now))) }
{
    let mut sorted = Vec::with_capacity(alloc, kids.len())?;
    for kid in kids {
        sorted.push(KidRef { kid })?;
    }
    sort_by_name(&mut sorted)?;
    Ok(sorted)
}

/// Whether two items are equal: by what they say; where they say nothing, if they are of one type and their children of each
/// name are equal in turn, whatever the order in which their types list the names. It takes time near linear in the items'
/// sizes. The one refusal is want of memory.
#[cycle(equal)]
#[tactic(auto, using(crate::proofs::Heights::equal_out))]
pub(crate) fn equal(
    alloc: Global,
    left: &Typed<'_, '_>,
    right: &Typed<'_, '_>,
) -> Result<Option<bool>, NoMemory>
    ensures { IfOk result (λ r. r ≡ equal (item_of left.now) (item_of right.now)) }
{
    match (item_value(left), item_value(right)) {
        (Some(said), Some(other)) => Ok(same_system_value(said, other)),
        (Some(_), None) => Ok(Some(false)),
        (None, Some(_)) => Ok(Some(false)),
        (None, None) => {
            if left.code() == right.code() {
                by_name(alloc, left.kids(), right.kids())
            } else {
                Ok(Some(false))
            }
        }
    }
}

// Whether the kids of each name are equal in turn.
#[cycle(equal)]
fn by_name(
    alloc: Global,
    left: &[Kid<'_, '_>],
    right: &[Kid<'_, '_>],
) -> Result<Option<bool>, NoMemory>
    ensures { IfOk result (λ r. r ≡ by_name (sides_of (kids_in (named_in left.now))) (kids_in (named_in right.now))) }
{
    let own = sorted_by_name(alloc, left)?;
    let others = sorted_by_name(alloc, right)?;
    pairwise(alloc, &own, &others)
}

#[cycle(equal)]
fn equal_named(
    alloc: Global,
    left: &Kid<'_, '_>,
    right: &Kid<'_, '_>,
) -> Result<Option<bool>, NoMemory>
    ensures { IfOk result (λ r. r ≡ if_same (named_of left.now).0 (named_of right.now).0
        (equal (named_of left.now).1 (named_of right.now).1)) }
{
    if left.name() == right.name() {
        equal(alloc, left.item(), right.item())
    } else {
        Ok(Some(false))
    }
}

// Kids, pair by pair.
#[cycle(equal)]
fn pairwise(
    alloc: Global,
    left: &[KidRef<'_, '_, '_>],
    right: &[KidRef<'_, '_, '_>],
) -> Result<Option<bool>, NoMemory>
    ensures { IfOk result (λ r. r ≡ pairwise (kids_seen left.now) (kids_seen right.now)) }
{
    let mut all = Some(true);
    let mut rest = right;
    for one in left {
        let [other, others @ ..] = rest else {
            return Ok(Some(false));
        };
        all = kleene_and(all, equal_named(alloc, one.kid, other.kid)?);
        rest = others;
    }
    match rest {
        [] => Ok(all),
        [_, ..] => Ok(Some(false)),
    }
}

fn same_node(
    alloc: Global,
    left: Value<'_, '_, '_>,
    right: Value<'_, '_, '_>,
) -> Result<Option<bool>, NoMemory>
    ensures { IfOk result (λ r. r ≡ same_node (plain_of left.entry) (plain_of right.entry)) }
{
    match (left, right) {
        (Value::Node(item), Value::Node(other)) => equal(alloc, item, other),
        _ => Ok(Some(false)),
    }
}

/// Whether two values are equal. The one refusal is want of memory.
#[tactic(auto, unfolding(crate::specs::Equality::alike))]
pub fn alike(
    alloc: Global,
    left: Value<'_, '_, '_>,
    right: Value<'_, '_, '_>,
) -> Result<Option<bool>, NoMemory>
    ensures { IfOk result (λ r. r ≡ alike (plain_of left.entry) (plain_of right.entry)) }
{
    match (system_value_of(left), system_value_of(right)) {
        (Some(said), Some(other)) => Ok(same_system_value(said, other)),
        (Some(_), None) => Ok(Some(false)),
        (None, Some(_)) => Ok(Some(false)),
        (None, None) => same_node(alloc, left, right),
    }
}

#[tactic(auto, unfolding(crate::specs::Equality::pairs))]
fn pairs(
    alloc: Global,
    left: &[Value<'_, '_, '_>],
    right: &[Value<'_, '_, '_>],
) -> Result<Option<bool>, NoMemory>
    ensures { IfOk result (λ r. r ≡ pairs (plains_of left.now) (plains_of right.now)) }
{
    let mut all = Some(true);
    let mut rest = right;
    for value in left {
        let [other, others @ ..] = rest else {
            return Ok(Some(false));
        };
        all = kleene_and(all, alike(alloc, *value, *other)?);
        rest = others;
    }
    match rest {
        [] => Ok(all),
        [_, ..] => Ok(Some(false)),
    }
}

/// Whether two lists are equal; undecided where one is empty. The one refusal is want of memory.
pub fn equality_between(
    alloc: Global,
    left: &[Value<'_, '_, '_>],
    right: &[Value<'_, '_, '_>],
) -> Result<Option<bool>, NoMemory>
    ensures { IfOk result (λ r. r ≡ equality (plains_of left.now) (plains_of right.now)) }
{
    if left.is_empty() || right.is_empty() {
        return Ok(None);
    }
    pairs(alloc, left, right)
}

/// Whether a value of the list is equal to this one. The one refusal is want of memory.
pub(crate) fn has(
    alloc: Global,
    seen: &[Value<'_, '_, '_>],
    value: Value<'_, '_, '_>,
) -> Result<bool, NoMemory>
    ensures { IfOk result (λ r. r ≡ has (plains_of seen.now) (plain_of value.entry)) }
{
    for other in seen {
        if is_yes(alike(alloc, *other, value)?) {
            return Ok(true);
        }
    }
    Ok(false)
}
