//! The rules of a slot's elements, and of their slices (FHIR R4, Profiling, slicing).

ghost use Rattle.std.specs.Prelude.{◌≡◌, ◌∷◌, ◌++◌, [], ◌||◌, not, map, true, option_map};
ghost use Rattle.std.specs.Option.{option_copied, option_map_or};
ghost use Rattle.std.specs.List.{flat_map};
ghost use Rattle.fhir_json.specs.Bytes.{is_empty};
ghost use Rattle.fhir_schema.specs.Schemas.{element_at, entry_of, slices, is_closed};
ghost use Rattle.fhir_elements.specs.Tests.{first_of};
ghost use Rattle.fhir_facets.specs.Cardinality.{cardinality_narrower, are_enough};
ghost use Rattle.fhir_slicing.specs.SameCriteria.{same_criteria};
ghost use Rattle.fhir_cert_check.specs.Rule.{entry, slice, criteria, bounds};
ghost use Rattle.fhir_cert_check.specs.Rules.{elements_answer, is_forbidden_at, has_item_pair, is_paired, slice_rules, entry_rules};
ghost use Rattle.fhir_cert_check.specs.Rules.{is_shared, slices_shared, closed_answers, slicing_rules, empty_slice_rule};
ghost use Rattle.fhir_cert_check.specs.Views.{rule_name};
ghost use Rattle.fhir_cert_check.specs.PairSet.{has_pair};

use crate::ends::end_answers;
use crate::nodes::{cardinality_answers, entry_of, has_item_pair, is_forbidden_at};
use crate::pair_set::PairSet;
use crate::rule::Rule;
use fhir_facets::{are_enough, ordered_narrower};
use fhir_schema::{NodeRef, Schema, Slot};
use fhir_slicing::same_criteria;

// ---- slices of the base's element

fn is_paired(schema: &Schema, pairs: &PairSet, n: NodeRef, m: NodeRef) -> bool
    ensures { result ≡ is_paired (has_pair pairs.now) schema.now n m }
{
    is_forbidden_at(schema, n) || has_item_pair(pairs, n, m)
}

fn own_slice_failing<'s>(
    schema: &Schema,
    pairs: &PairSet,
    name: &'s str,
    own: &'s str,
    n: NodeRef,
    m: NodeRef,
) -> Option<Rule<'s>>
    ensures { option_map rule_name result ≡ first_of
        ((same_criteria schema.now n m, criteria name.now own.now)
        ∷ (elements_answer cardinality_narrower schema.now n m, bounds name.now own.now)
        ∷ (is_paired (has_pair pairs.now) schema.now n m, slice name.now own.now) ∷ []) }
{
    if !same_criteria(schema, n, m) {
        return Some(Rule::Criteria { name, slice: own });
    }
    if !cardinality_answers(schema, n, m) {
        return Some(Rule::Bounds { name, slice: own });
    }
    if !is_paired(schema, pairs, n, m) {
        return Some(Rule::Slice { name, slice: own });
    }
    None
}

fn slice_failing<'s>(
    schema: &'s Schema,
    pairs: &PairSet,
    name: &'s str,
    n: NodeRef,
    m: NodeRef,
    base: &'s Slot,
) -> Option<Rule<'s>>
    ensures { option_map rule_name result ≡ first_of (slice_rules (has_pair pairs.now) schema.now name.now n m base.now) }
{
    let slice = base.name();
    let m = entry_of(m, base);
    match schema.slice(n, slice) {
        Some(own) => own_slice_failing(schema, pairs, name, slice, entry_of(n, own), m),
        None => Some(Rule::Slice { name, slice }),
    }
}

fn slices_failing<'s>(
    schema: &'s Schema,
    pairs: &PairSet,
    name: &'s str,
    n: NodeRef,
    m: NodeRef,
) -> Option<Rule<'s>>
    ensures { option_map rule_name result ≡ first_of
        (flat_map (slice_rules (has_pair pairs.now) schema.now name.now n m) (slices schema.now m)) }
{
    for base in schema.slices(m) {
        let rule = slice_failing(schema, pairs, name, n, m, base);
        if rule.is_some() {
            return rule;
        }
    }
    None
}

// ---- closed slicing

/// Whether a base node's element has a slice of the derived one's too, told apart by the same.
pub(crate) fn is_shared(schema: &Schema, n: NodeRef, m: NodeRef, own: &Slot) -> bool
    ensures { result ≡ is_shared schema.now n m own.now }
{
    match schema.slice(m, own.name()) {
        Some(base) => same_criteria(schema, entry_of(n, own), entry_of(m, base)),
        None => false,
    }
}

fn is_shared_or_empty(schema: &Schema, n: NodeRef, m: NodeRef, own: &Slot) -> bool
    ensures { result ≡ (is_forbidden_at schema.now (entry_of n own.now) || is_shared schema.now n m own.now) }
{
    is_forbidden_at(schema, entry_of(n, own)) || is_shared(schema, n, m, own)
}

fn slices_shared(schema: &Schema, n: NodeRef, m: NodeRef) -> bool
    ensures { result ≡ slices_shared schema.now n m }
{
    schema
        .slices(n)
        .iter()
        .all(|own| is_shared_or_empty(schema, n, m, own))
}

fn closes_none(schema: &Schema, node: NodeRef) -> bool
    ensures { result ≡ (is_empty (slices schema.now node) || not (is_closed schema.now node)) }
{
    schema.slices(node).is_empty() || !schema.is_closed(node)
}

fn closed_answers(schema: &Schema, n: NodeRef, m: NodeRef) -> bool
    ensures { result ≡ closed_answers schema.now n m }
{
    closes_none(schema, m) || (schema.is_closed(n) && slices_shared(schema, n, m))
}

// The first rule that the slicings of two elements fail, beside those of each slice.
fn slicing_failing<'s>(schema: &Schema, name: &'s str, n: NodeRef, m: NodeRef) -> Option<Rule<'s>>
    ensures { option_map rule_name result ≡ first_of (slicing_rules schema.now name.now n m) }
{
    if !closed_answers(schema, n, m) {
        return Some(Rule::Closed(name));
    }
    if !ordered_narrower(schema, n, m) {
        return Some(Rule::Ordered(name));
    }
    if !end_answers(schema, n, m) {
        return Some(Rule::End(name));
    }
    None
}

// ---- where no item may be

fn asks_for_none(schema: &Schema, node: NodeRef) -> bool
    ensures { result ≡ option_map_or (λ f. are_enough f 0) (element_at schema.now node) true }
{
    match schema.element(node) {
        Some(element) => are_enough(element, 0),
        None => true,
    }
}

fn empty_slice_failing<'s>(
    schema: &Schema,
    name: &'s str,
    m: NodeRef,
    base: &'s Slot,
) -> Option<Rule<'s>>
    ensures { option_map rule_name result ≡ first_of (empty_slice_rule schema.now name.now m base.now ∷ []) }
{
    let slice = base.name();
    if asks_for_none(schema, entry_of(m, base)) {
        None
    } else {
        Some(Rule::Bounds { name, slice })
    }
}

fn empty_slices_failing<'s>(schema: &'s Schema, name: &'s str, m: NodeRef) -> Option<Rule<'s>>
    ensures { option_map rule_name result ≡ first_of (map (empty_slice_rule schema.now name.now m) (slices schema.now m)) }
{
    for base in schema.slices(m) {
        let rule = empty_slice_failing(schema, name, m, base);
        if rule.is_some() {
            return rule;
        }
    }
    None
}

// ---- the elements of a slot

fn allowed_failing<'s>(
    schema: &'s Schema,
    pairs: &PairSet,
    name: &'s str,
    n: NodeRef,
    m: NodeRef,
) -> Option<Rule<'s>>
    ensures { option_map rule_name result ≡ first_of
        ((has_item_pair (has_pair pairs.now) n m, entry name.now)
        ∷ flat_map (slice_rules (has_pair pairs.now) schema.now name.now n m) (slices schema.now m)
        ++ slicing_rules schema.now name.now n m) }
{
    if !has_item_pair(pairs, n, m) {
        return Some(Rule::Entry(name));
    }
    if let Some(rule) = slices_failing(schema, pairs, name, n, m) {
        return Some(rule);
    }
    slicing_failing(schema, name, n, m)
}

/// The first rule that the elements of a slot fail, but for how many items there may be.
pub(crate) fn entry_failing<'s>(
    schema: &'s Schema,
    pairs: &PairSet,
    name: &'s str,
    n: NodeRef,
    m: NodeRef,
) -> Option<Rule<'s>>
    ensures { option_map rule_name result ≡ first_of (entry_rules (has_pair pairs.now) schema.now name.now n m) }
{
    if is_forbidden_at(schema, n) {
        empty_slices_failing(schema, name, m)
    } else {
        allowed_failing(schema, pairs, name, n, m)
    }
}
