//! The rules of a pair of items.

ghost use Rattle.std.specs.Prelude.{◌≡◌, ◌&&◌, false, map, option_map, string_bytes};
ghost use Rattle.std.specs.List.{list_all, list_any};
ghost use Rattle.std.specs.Option.{option_map_or};
ghost use Rattle.fhir_json.specs.Memory.{Gives};
ghost use Rattle.fhir_elements.specs.Tests.{first_of};
ghost use Rattle.fhir_schema.specs.Covers.{covers};
ghost use Rattle.fhir_schema.specs.Schemas.{loaded};
ghost use Rattle.fhir_facets.specs.Targets.{targets_narrower};
ghost use Rattle.fhir_facets.specs.Values.{fixed_fits, pattern_narrower};
ghost use Rattle.fhir_conformance.specs.Conformance.{is_untyped};
ghost use Rattle.fhir_cert_check.specs.Lists.{each_answers};
ghost use Rattle.fhir_cert_check.specs.Rules.{has_item_pair, profile_answers, profiles_answer, entry_answers, types_answer, roots_answer, type_answers, item_rules};
ghost use Rattle.fhir_cert_check.specs.Rules.{has_kids_pair, code_children_answer, profiles_children_answer, entry_children_answer, type_children_answer, children_answer};
ghost use Rattle.fhir_cert_check.specs.Rules.{is_answered, fixed_answers, pattern_answers, range_answers, length_answers, binding_answers};
ghost use Rattle.fhir_cert_check.specs.Facets.{element_rules, facet_rules};
ghost use Rattle.fhir_cert_check.specs.Views.{rule_name};
ghost use Rattle.fhir_cert_check.specs.PairSet.{has_pair};

use crate::constraints::constraint_failing;
use crate::pair_set::PairSet;
use crate::rule::Rule;
use fhir_certificate::{NodePair, Pair};
use fhir_elements::{ElementDef, TypeEntry};
use fhir_facets::{Binding, Facet, Fixed, Length, Pattern, Range, fixed_fits};
use fhir_json::NoMemory;
use fhir_schema::{NodeRef, Schema};
use fhir_targets::targets_narrower;
use std::alloc::Global;

fn are_paired(schema: &Schema, pairs: &PairSet, own: &str, base: &str) -> bool
    ensures { result ≡ option_map_or (λ n. option_map_or (has_item_pair (has_pair pairs.now) n) (loaded schema.now base.now) false)
        (loaded schema.now own.now) false }
{
    match (schema.loaded(own), schema.loaded(base)) {
        (Some(derived), Some(base)) => pairs.has(Pair::Item(NodePair { derived, base })),
        _ => false,
    }
}

fn profile_answers(schema: &Schema, pairs: &PairSet, own: &str, base: &str) -> bool
    ensures { result ≡ profile_answers (has_pair pairs.now) schema.now own.now base.now }
{
    own == base || are_paired(schema, pairs, own, base)
}

fn answers_one_profile(schema: &Schema, pairs: &PairSet, own: &str, bases: &[String]) -> bool
    ensures { result ≡ list_any (λ base. profile_answers (has_pair pairs.now) schema.now own.now base)
        (map string_bytes bases.now) }
{
    for base in bases {
        if profile_answers(schema, pairs, own, base.as_str()) {
            return true;
        }
    }
    false
}

fn each_profile_answers(schema: &Schema, pairs: &PairSet, owns: &[String], bases: &[String]) -> bool
    ensures { result ≡ each_answers (profile_answers (has_pair pairs.now) schema.now) (map string_bytes owns.now)
        (map string_bytes bases.now) }
{
    for own in owns {
        if !answers_one_profile(schema, pairs, own.as_str(), bases) {
            return false;
        }
    }
    true
}

fn profiles_answer(schema: &Schema, pairs: &PairSet, own: &[String], bases: &[String]) -> bool
    ensures { result ≡ profiles_answer (has_pair pairs.now) schema.now (map string_bytes own.now) (map string_bytes bases.now) }
{
    bases.is_empty() || (!own.is_empty() && each_profile_answers(schema, pairs, own, bases))
}

/// Whether a type entry is of a type that the base's allows, with targets that it allows.
pub(crate) fn code_answers(
    alloc: Global,
    schema: &Schema,
    entry: &TypeEntry,
    base: &TypeEntry,
) -> Result<bool, NoMemory>
    ensures { Gives (λ b. b) result
        (covers schema.now base.now.code entry.now.code && targets_narrower schema.now entry.now base.now) }
{
    if schema.covers(base.code(), entry.code()) {
        targets_narrower(alloc, schema, entry, base)
    } else {
        Ok(false)
    }
}

fn entry_answers(
    alloc: Global,
    schema: &Schema,
    pairs: &PairSet,
    entry: &TypeEntry,
    base: &TypeEntry,
) -> Result<bool, NoMemory>
    ensures { Gives (λ b. b) result (entry_answers (has_pair pairs.now) schema.now entry.now base.now) }
{
    if !code_answers(alloc, schema, entry, base)? {
        return Ok(false);
    }
    Ok(profiles_answer(schema, pairs, entry.profiles(), base.profiles()))
}

fn answers_one(
    alloc: Global,
    schema: &Schema,
    pairs: &PairSet,
    entry: &TypeEntry,
    bases: &[TypeEntry],
) -> Result<bool, NoMemory>
    ensures { Gives (λ b. b) result (list_any (λ base. entry_answers (has_pair pairs.now) schema.now entry.now base) bases.now) }
{
    for base in bases {
        if entry_answers(alloc, schema, pairs, entry, base)? {
            return Ok(true);
        }
    }
    Ok(false)
}

fn each_answers(
    alloc: Global,
    schema: &Schema,
    pairs: &PairSet,
    owns: &[TypeEntry],
    bases: &[TypeEntry],
) -> Result<bool, NoMemory>
    ensures { Gives (λ b. b) result (each_answers (entry_answers (has_pair pairs.now) schema.now) owns.now bases.now) }
{
    for entry in owns {
        if !answers_one(alloc, schema, pairs, entry, bases)? {
            return Ok(false);
        }
    }
    Ok(true)
}

fn is_untyped(schema: &Schema, node: NodeRef) -> bool
    ensures { result ≡ is_untyped schema.now node }
{
    schema.types(node).is_empty()
}

fn types_answer(
    alloc: Global,
    schema: &Schema,
    pairs: &PairSet,
    n: NodeRef,
    m: NodeRef,
) -> Result<bool, NoMemory>
    ensures { Gives (λ b. b) result (types_answer (has_pair pairs.now) schema.now n m) }
{
    if is_untyped(schema, m) {
        return Ok(true);
    }
    if is_untyped(schema, n) {
        return Ok(false);
    }
    each_answers(alloc, schema, pairs, schema.types(n), schema.types(m))
}

fn roots_answer(schema: &Schema, n: NodeRef, m: NodeRef) -> bool
    ensures { result ≡ roots_answer schema.now n m }
{
    schema.is_root(m) && schema.covers(schema.type_code(m), schema.type_code(n))
}

fn type_answers(
    alloc: Global,
    schema: &Schema,
    pairs: &PairSet,
    n: NodeRef,
    m: NodeRef,
) -> Result<bool, NoMemory>
    ensures { Gives (λ b. b) result (type_answers (has_pair pairs.now) schema.now n m) }
{
    if schema.is_root(n) {
        return Ok(roots_answer(schema, n, m));
    }
    if schema.is_root(m) {
        return Ok(false);
    }
    types_answer(alloc, schema, pairs, n, m)
}

fn fixed_answers(own: &ElementDef, base: &ElementDef) -> bool
    ensures { result ≡ fixed_answers own.now base.now }
{
    match (own.fixed(), base.fixed()) {
        (_, None) => true,
        (Some(own), Some(base)) => Fixed(&own.value).narrower(&Fixed(&base.value)),
        (None, Some(_)) => false,
    }
}

fn fixed_value_fits(own: &ElementDef, base: &ElementDef) -> bool
    ensures { result ≡ is_answered (λ p q. fixed_fits p.1 q.1) own.now.fixed base.now.pattern }
{
    match (own.fixed(), base.pattern()) {
        (_, None) => true,
        (Some(own), Some(base)) => fixed_fits(&Fixed(&own.value), &Pattern(&base.value)),
        (None, Some(_)) => false,
    }
}

fn pattern_fits(own: &ElementDef, base: &ElementDef) -> bool
    ensures { result ≡ is_answered (λ p q. pattern_narrower p.1 q.1) own.now.pattern base.now.pattern }
{
    match (own.pattern(), base.pattern()) {
        (_, None) => true,
        (Some(own), Some(base)) => Pattern(&own.value).narrower(&Pattern(&base.value)),
        (None, Some(_)) => false,
    }
}

fn pattern_answers(own: &ElementDef, base: &ElementDef) -> bool
    ensures { result ≡ pattern_answers own.now base.now }
{
    fixed_value_fits(own, base) || pattern_fits(own, base)
}

fn range_answers(own: &ElementDef, base: &ElementDef) -> bool
    ensures { result ≡ range_answers own.now base.now }
{
    Range::of(own).narrower(&Range::of(base))
}

fn length_answers(own: &ElementDef, base: &ElementDef) -> bool
    ensures { result ≡ length_answers own.now base.now }
{
    match (own.max_length(), base.max_length()) {
        (_, None) => true,
        (Some(own), Some(base)) => Length(own).narrower(&Length(base)),
        (None, Some(_)) => false,
    }
}

fn binding_answers(schema: &Schema, own: &ElementDef, base: &ElementDef) -> bool
    ensures { result ≡ binding_answers schema.now own.now base.now }
{
    match (own.required_value_set(), base.required_value_set()) {
        (_, None) => true,
        (Some(own), Some(base)) => Binding::of(schema, own).narrower(&Binding::of(schema, base)),
        (None, Some(_)) => false,
    }
}

fn element_failing<'s>(schema: &Schema, own: &ElementDef, base: &ElementDef) -> Option<Rule<'s>>
    ensures { option_map rule_name result ≡ first_of (element_rules schema.now own.now base.now) }
{
    if !fixed_answers(own, base) {
        return Some(Rule::Fixed);
    }
    if !pattern_answers(own, base) {
        return Some(Rule::Pattern);
    }
    if !range_answers(own, base) {
        return Some(Rule::Range);
    }
    if !length_answers(own, base) {
        return Some(Rule::Length);
    }
    if !binding_answers(schema, own, base) {
        return Some(Rule::Binding);
    }
    None
}

// What is no node asks for nothing, and answers nothing.
fn facet_failing<'s>(schema: &Schema, n: NodeRef, m: NodeRef) -> Option<Rule<'s>>
    ensures { option_map rule_name result ≡ first_of (facet_rules schema.now n m) }
{
    match (schema.element(n), schema.element(m)) {
        (_, None) => None,
        (Some(own), Some(base)) => element_failing(schema, own, base),
        (None, Some(_)) => Some(Rule::Fixed),
    }
}

fn has_kids_pair(pairs: &PairSet, derived: Option<NodeRef>, base: NodeRef) -> bool
    ensures { result ≡ option_map_or (λ derived. has_kids_pair (has_pair pairs.now) derived base) derived false }
{
    match derived {
        Some(derived) => pairs.has(Pair::Kids(NodePair { derived, base })),
        None => false,
    }
}

fn code_children_answer(schema: &Schema, pairs: &PairSet, base: NodeRef, entry: &TypeEntry) -> bool
    ensures { result ≡ code_children_answer (has_pair pairs.now) schema.now base entry.now }
{
    !schema.is_resource(entry.code()) && has_kids_pair(pairs, schema.type_root(entry.code()), base)
}

fn have_kids_pairs(schema: &Schema, pairs: &PairSet, base: NodeRef, profiles: &[String]) -> bool
    ensures { result ≡ list_all
        (λ p. option_map_or (λ root. has_kids_pair (has_pair pairs.now) root base) (loaded schema.now p) false)
        (map string_bytes profiles.now) }
{
    for profile in profiles {
        if !has_kids_pair(pairs, schema.loaded(profile.as_str()), base) {
            return false;
        }
    }
    true
}

fn profiles_children_answer(
    schema: &Schema,
    pairs: &PairSet,
    base: NodeRef,
    entry: &TypeEntry,
) -> bool
    ensures { result ≡ profiles_children_answer (has_pair pairs.now) schema.now base entry.now }
{
    !entry.profiles().is_empty() && have_kids_pairs(schema, pairs, base, entry.profiles())
}

fn entry_children_answer(schema: &Schema, pairs: &PairSet, base: NodeRef, entry: &TypeEntry) -> bool
    ensures { result ≡ entry_children_answer (has_pair pairs.now) schema.now base entry.now }
{
    profiles_children_answer(schema, pairs, base, entry)
        || code_children_answer(schema, pairs, base, entry)
}

fn entries_answer(schema: &Schema, pairs: &PairSet, base: NodeRef, owns: &[TypeEntry]) -> bool
    ensures { result ≡ list_all (entry_children_answer (has_pair pairs.now) schema.now base) owns.now }
{
    owns.iter()
        .all(|entry| entry_children_answer(schema, pairs, base, entry))
}

fn type_children_answer(schema: &Schema, pairs: &PairSet, n: NodeRef, base: NodeRef) -> bool
    ensures { result ≡ type_children_answer (has_pair pairs.now) schema.now n base }
{
    !is_untyped(schema, n) && entries_answer(schema, pairs, base, schema.types(n))
}

fn children_answer(schema: &Schema, pairs: &PairSet, n: NodeRef, m: NodeRef) -> bool
    ensures { result ≡ children_answer (has_pair pairs.now) schema.now n m }
{
    match schema.child_holder(m) {
        Some(base) => {
            has_kids_pair(pairs, schema.holder(n), base)
                || type_children_answer(schema, pairs, n, base)
        }
        None => true,
    }
}

/// The first rule that a pair of items fails.
pub(crate) fn item_failing<'s>(
    alloc: Global,
    schema: &'s Schema,
    pairs: &PairSet,
    n: NodeRef,
    m: NodeRef,
) -> Result<Option<Rule<'s>>, NoMemory>
    ensures { Gives (option_map rule_name) result (first_of (item_rules (has_pair pairs.now) schema.now n m)) }
{
    let is_typed = type_answers(alloc, schema, pairs, n, m)?;
    if !is_typed {
        return Ok(Some(Rule::TypeCode));
    }
    if let Some(rule) = facet_failing(schema, n, m) {
        return Ok(Some(rule));
    }
    if let Some(rule) = constraint_failing(alloc, schema, n, m)? {
        return Ok(Some(rule));
    }
    if !children_answer(schema, pairs, n, m) {
        return Ok(Some(Rule::Children));
    }
    Ok(None)
}
