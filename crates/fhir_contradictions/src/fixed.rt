//! What a fixed value meets that refuses it (FHIR R4, ElementDefinition, fixed[x]).

ghost use Rattle.std.specs.Prelude.{◌≡◌, ◌++◌, ◌∷◌, [], map, true, not, OnOk};
ghost use Rattle.std.specs.List.{list_all, list_any};
ghost use Rattle.fhir_json.specs.Views.{tree_of};
ghost use Rattle.fhir_instance.specs.Typing.{is_filled_text};
ghost use Rattle.fhir_facets.specs.Ranges.{range_holds};
ghost use Rattle.fhir_facets.specs.Bindings.{binding_to, binding_holds};
ghost use Rattle.fhir_facets.specs.Views.{holding_under, view_seen};
ghost use Rattle.fhir_conformance.specs.Conformance.{range_of};
ghost use Rattle.fhir_contradictions.specs.declared.contradiction.Contradiction.TheVariants.{FixedPattern, FixedLength, FixedRange, FixedBinding};
ghost use Rattle.fhir_contradictions.specs.Typing.{allows_code};
ghost use Rattle.fhir_contradictions.specs.Contradictions.{if_so, fixed_contradictions, seen_as, fails_as_each, lenient, misses_pattern, misses_length, fails_as, misses_range, misses_binding, may_have, is_possible, misses_type, fixed_misses};

use crate::contradiction::Contradiction;
use crate::typing::{allows_code, is_untyped, primitive_of, types_under};
use fhir_elements::{ElementDef, TypeEntry};
use fhir_facets::{Binding, Facet, Holding, Length, Range, View};
use fhir_json::Json;
use fhir_matching::matches;
use fhir_nodes::is_system;
use fhir_prims::lexical;
use fhir_schema::{NodeRef, Schema};
use std::alloc::AllocError;

fn misses_pattern(element: &ElementDef, value: &Json<'_>) -> bool
    ensures { result ≡ misses_pattern element.now (tree_of value.now) }
{
    match element.pattern() {
        Some(pattern) => !matches(value, &pattern.value),
        None => false,
    }
}

// ---- rules but those of types

// What a value is as an item of a type, without children.
fn view_as<'a, 'j>(value: &'a Json<'j>, code: &'a str) -> View<'a, 'j>
    ensures { view_seen result ≡ seen_as (tree_of value.now) code.now }
{
    View {
        code,
        json: Some(value),
        has_kids: false,
    }
}

// Whether a facet fails, whatever the unread rules mean.
fn fails(holding: Holding<'_>) -> bool
    ensures { result ≡ not (holding_under true holding.entry) }
{
    match holding {
        Holding::Fails => true,
        Holding::Holds | Holding::Given(_) | Holding::Unread(_) => false,
    }
}

fn misses_length(element: &ElementDef, value: &Json<'_>) -> bool
    ensures { result ≡ misses_length element.now (tree_of value.now) }
{
    let Some(most) = element.max_length() else {
        return false;
    };
    match value.as_text() {
        Some(_text) => fails(Length(most).holds(&view_as(value, ""))),
        None => false,
    }
}

fn is_beyond(element: &ElementDef, value: &Json<'_>, code: &str) -> bool
    ensures { result ≡ not (range_holds lenient (range_of element.now) (seen_as (tree_of value.now) code.now)) }
{
    fails(Range::of(element).holds(&view_as(value, code)))
}

fn is_outside(schema: &Schema, canonical: &str, value: &Json<'_>, code: &str) -> bool
    ensures { result ≡ not (binding_holds lenient (binding_to schema.now canonical.now) (seen_as (tree_of value.now) code.now)) }
{
    fails(Binding::of(schema, canonical).holds(&view_as(value, code)))
}

fn is_beyond_as(schema: &Schema, element: &ElementDef, value: &Json<'_>, code: &str) -> bool
    ensures { result ≡ fails_as schema.now (range_holds lenient (range_of element.now)) (tree_of value.now) code.now }
{
    !schema.is_resource(code) && is_beyond(element, value, code)
}

fn is_outside_as(schema: &Schema, canonical: &str, value: &Json<'_>, code: &str) -> bool
    ensures { result ≡ fails_as schema.now (binding_holds lenient (binding_to schema.now canonical.now)) (tree_of value.now) code.now }
{
    !schema.is_resource(code) && is_outside(schema, canonical, value, code)
}

fn is_beyond_as_each(
    schema: &Schema,
    element: &ElementDef,
    value: &Json<'_>,
    entries: &[TypeEntry],
) -> bool
    ensures { result ≡ list_all (λ entry. fails_as schema.now (range_holds lenient (range_of element.now)) (tree_of value.now) entry.code) entries.now }
{
    entries
        .iter()
        .all(|entry| is_beyond_as(schema, element, value, entry.code()))
}

fn is_outside_as_each(
    schema: &Schema,
    canonical: &str,
    value: &Json<'_>,
    entries: &[TypeEntry],
) -> bool
    ensures { result ≡ list_all (λ entry. fails_as schema.now (binding_holds lenient (binding_to schema.now canonical.now)) (tree_of value.now) entry.code) entries.now }
{
    entries.iter().all(|entry| is_outside_as(schema, canonical, value, entry.code()))
}

fn misses_range(schema: &Schema, node: NodeRef, element: &ElementDef, value: &Json<'_>) -> bool
    ensures { result ≡ misses_range schema.now node element.now (tree_of value.now) }
{
    if schema.is_root(node) {
        return is_beyond_as(schema, element, value, schema.type_code(node));
    }
    !is_untyped(schema, node) && is_beyond_as_each(schema, element, value, schema.types(node))
}

fn misses_set(schema: &Schema, node: NodeRef, canonical: &str, value: &Json<'_>) -> bool
    ensures { result ≡ fails_as_each schema.now node (binding_holds lenient (binding_to schema.now canonical.now)) (tree_of value.now) }
{
    if schema.is_root(node) {
        return is_outside_as(schema, canonical, value, schema.type_code(node));
    }
    !is_untyped(schema, node) && is_outside_as_each(schema, canonical, value, schema.types(node))
}

fn misses_binding(schema: &Schema, node: NodeRef, element: &ElementDef, value: &Json<'_>) -> bool
    ensures { result ≡ misses_binding schema.now node element.now (tree_of value.now) }
{
    match element.required_value_set() {
        Some(canonical) => misses_set(schema, node, canonical, value),
        None => false,
    }
}

// ---- the types themselves

fn is_filled_text(value: &Json<'_>) -> bool
    ensures { result ≡ is_filled_text (tree_of value.now) }
{
    match value.as_text() {
        Some(text) => !text.is_empty(),
        None => false,
    }
}

fn may_have(schema: &Schema, value: &Json<'_>, code: &str) -> bool
    ensures { result ≡ may_have schema.now (tree_of value.now) code.now }
{
    if is_system(code) {
        return is_filled_text(value);
    }
    if schema.is_resource(code) {
        return true;
    }
    match primitive_of(schema, code) {
        Some(primitive) => lexical(primitive, value),
        None => value.is_object(),
    }
}

fn is_possible(schema: &Schema, node: NodeRef, value: &Json<'_>, code: &str) -> bool
    ensures { result ≡ is_possible schema.now node (tree_of value.now) code.now }
{
    allows_code(schema, node, code) && may_have(schema, value, code)
}

fn has_possible(schema: &Schema, node: NodeRef, value: &Json<'_>, entries: &[TypeEntry]) -> bool
    ensures { result ≡ list_any (λ entry. is_possible schema.now node (tree_of value.now) entry.code) entries.now }
{
    entries
        .iter()
        .any(|entry| is_possible(schema, node, value, entry.code()))
}

#[tactic(auto, using(crate::proofs::Lists::any_made))]
fn some_is_possible(schema: &Schema, node: NodeRef, value: &Json<'_>, entries: &[TypeEntry]) -> bool
    ensures { result ≡ list_any (is_possible schema.now node (tree_of value.now)) (map (λ entry. entry.code) entries.now) }
{
    has_possible(schema, node, value, entries)
}

fn has_allowed(schema: &Schema, node: NodeRef, entries: &[TypeEntry]) -> bool
    ensures { result ≡ list_any (λ entry. allows_code schema.now node entry.code) entries.now }
{
    entries
        .iter()
        .any(|entry| allows_code(schema, node, entry.code()))
}

/// Whether a node allows one of some types.
#[tactic(auto, using(crate::proofs::Lists::any_made))]
pub(crate) fn allows_some(schema: &Schema, node: NodeRef, entries: &[TypeEntry]) -> bool
    ensures { result ≡ list_any (allows_code schema.now node) (map (λ entry. entry.code) entries.now) }
{
    has_allowed(schema, node, entries)
}

fn misses_type(schema: &Schema, by: NodeRef, name: &str, node: NodeRef, value: &Json<'_>) -> bool
    ensures { result ≡ misses_type schema.now by name.now node (tree_of value.now) }
{
    let entries = types_under(schema, by, name);
    allows_some(schema, node, entries) && !some_is_possible(schema, node, value, entries)
}

/// Whether the fixed value of a node is a value of no type that its items can have, where they stand under a name and another node types
/// their parents.
pub(crate) fn fixed_misses_type(schema: &Schema, by: NodeRef, name: &str, node: NodeRef) -> bool
    ensures { result ≡ fixed_misses (λ e. misses_type schema.now by name.now node) schema.now node }
{
    let Some(element) = schema.element(node) else {
        return false;
    };
    match element.fixed() {
        Some(fixed) => misses_type(schema, by, name, node, &fixed.value),
        None => false,
    }
}

// ---- all but the types

/// Puts a contradiction in, if it is one.
pub(crate) fn push_if(
    is_one: bool,
    contradiction: Contradiction,
    into: &mut Vec<Contradiction>,
) -> Result<(), AllocError>
    ensures { OnOk result (into.new.items ≡ into.old.items ++ if_so is_one contradiction) }
{
    if is_one {
        into.push(contradiction)?;
    }
    Ok(())
}

fn push_misses(
    schema: &Schema,
    node: NodeRef,
    element: &ElementDef,
    value: &Json<'_>,
    into: &mut Vec<Contradiction>,
) -> Result<(), AllocError>
    ensures { OnOk result (into.new.items ≡ into.old.items
        ++ (if_so (misses_pattern element.now (tree_of value.now)) FixedPattern
        ++ (if_so (misses_length element.now (tree_of value.now)) FixedLength
        ++ (if_so (misses_range schema.now node element.now (tree_of value.now)) FixedRange
        ++ if_so (misses_binding schema.now node element.now (tree_of value.now)) FixedBinding)))) }
{
    push_if(
        misses_pattern(element, value),
        Contradiction::FixedPattern,
        into,
    )?;
    push_if(
        misses_length(element, value),
        Contradiction::FixedLength,
        into,
    )?;
    push_if(
        misses_range(schema, node, element, value),
        Contradiction::FixedRange,
        into,
    )?;
    push_if(
        misses_binding(schema, node, element, value),
        Contradiction::FixedBinding,
        into,
    )
}

/// Puts in what of a node's element refuses its fixed value, but for its types.
pub(crate) fn push_fixed(
    schema: &Schema,
    node: NodeRef,
    into: &mut Vec<Contradiction>,
) -> Result<(), AllocError>
    ensures { OnOk result (into.new.items ≡ into.old.items ++ fixed_contradictions schema.now node) }
{
    let Some(element) = schema.element(node) else {
        return Ok(());
    };
    match element.fixed() {
        Some(fixed) => push_misses(schema, node, element, &fixed.value, into),
        None => Ok(()),
    }
}
