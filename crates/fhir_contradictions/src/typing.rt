//! Of which types the items of an element can be (FHIR R4, JSON representation of resources).

ghost use Rattle.std.specs.Prelude.{◌≡◌, ◌∷◌, ◌++◌, [], map, filter, Some, option_copied, IfOk, OnOk};
ghost use Rattle.std.specs.List.{list_any};
ghost use Rattle.std.specs.Option.{option_and_then, option_map};
ghost use Rattle.fhir_json.specs.Views.{text_seen};
ghost use Rattle.fhir_forms.specs.Criteria.{sole};
ghost use Rattle.fhir_nodes.specs.Contents.{entries_of};
ghost use Rattle.fhir_nodes.specs.Holders.{has_own_types, typing_entries};
ghost use Rattle.fhir_nodes.specs.Types.{primitive_of};
ghost use Rattle.fhir_schema.specs.Schemas.{entry_of, element_at, target};
ghost use Rattle.fhir_conformance.specs.Conformance.{is_untyped};
ghost use Rattle.fhir_contradictions.specs.Typing.{type_codes, codes_under, may_be, allows_code, is_plain, typed_inside, typed_at_slot, typed_under, are_few, are_few_under, typed_by};

use fhir_definition::is_root;
use fhir_elements::{ElementDef, TypeEntry};
use fhir_json::NoMemory;
use fhir_nodes::is_system;
use fhir_prims::PrimType;
use fhir_schema::{NodeRef, Schema, Slot};
use std::alloc::{AllocError, Global};

/// The node of a slot's element, by one of the same definition.
pub(crate) fn entry_of(node: NodeRef, slot: &Slot) -> NodeRef
    ensures { result ≡ entry_of node slot.now }
{
    NodeRef {
        definition: node.definition,
        element: slot.entry(),
    }
}

/// Whether a node names no types.
pub(crate) fn is_untyped(schema: &Schema, node: NodeRef) -> bool
    ensures { result ≡ is_untyped schema.now node }
{
    schema.types(node).is_empty()
}

// ---- the types that items can have

fn entries_of(element: &ElementDef) -> &[TypeEntry]
    ensures { result.now ≡ entries_of element.now }
{
    if is_root(element) {
        Default::default()
    } else {
        element.types()
    }
}

fn has_own_types(schema: &Schema, node: NodeRef, element: &ElementDef) -> bool
    ensures { result ≡ has_own_types schema.now.definitions node element.now }
{
    !element.types().is_empty() && !schema.slots(node).is_empty()
}

// The element that a node refers to for its content.
fn target_element<'s>(schema: &'s Schema, node: NodeRef) -> Option<&'s ElementDef>
    ensures { option_copied result ≡ option_and_then (element_at schema.now) (target schema.now node) }
{
    match schema.target(node) {
        Some(target) => schema.element(target),
        None => None,
    }
}

fn typing_entries<'s>(schema: &'s Schema, node: NodeRef, element: &'s ElementDef) -> &'s [TypeEntry]
    ensures { result.now ≡ typing_entries schema.now.definitions node element.now }
{
    if has_own_types(schema, node, element) {
        return element.types();
    }
    match target_element(schema, node) {
        Some(target) => entries_of(target),
        None => element.types(),
    }
}

/// The types that the items of a type's element can have.
pub(crate) fn types_of_items<'s>(schema: &'s Schema, node: NodeRef) -> &'s [TypeEntry]
    ensures { map (λ entry. entry.code) result.now ≡ type_codes schema.now node }
{
    match schema.element(node) {
        Some(element) => typing_entries(schema, node, element),
        None => Default::default(),
    }
}

/// The types that children of a name can have, where a node of a type's definition types their parent.
pub(crate) fn types_under<'s>(schema: &'s Schema, by: NodeRef, name: &str) -> &'s [TypeEntry]
    ensures { map (λ entry. entry.code) result.now ≡ codes_under schema.now by name.now }
{
    match schema.slot(by, name) {
        Some(slot) => types_of_items(schema, entry_of(by, slot)),
        None => Default::default(),
    }
}

// ---- the types that a node allows

fn may_be(schema: &Schema, allowed: &str, code: &str) -> bool
    ensures { result ≡ may_be schema.now allowed.now code.now }
{
    if schema.is_resource(code) {
        schema.is_resource(allowed)
    } else {
        schema.covers(allowed, code)
    }
}

fn some_allows(schema: &Schema, entries: &[TypeEntry], code: &str) -> bool
    ensures { result ≡ list_any (λ entry. may_be schema.now entry.code code.now) entries.now }
{
    entries
        .iter()
        .any(|entry| may_be(schema, entry.code(), code))
}

/// Whether a type of a node allows a code, where the node names any.
pub(crate) fn allows_code(schema: &Schema, node: NodeRef, code: &str) -> bool
    ensures { result ≡ allows_code schema.now node code.now }
{
    is_untyped(schema, node) || some_allows(schema, schema.types(node), code)
}

// ---- the node that types the children of an item

/// The primitive type that a code names.
pub(crate) fn primitive_of(schema: &Schema, code: &str) -> Option<PrimType>
    ensures { result ≡ primitive_of schema.now.definitions code.now }
{
    let definition = schema.definitions().get(schema.type_place(code)?)?;
    if definition.is_primitive() {
        PrimType::of(code)
    } else {
        None
    }
}

fn is_plain(schema: &Schema, code: &str) -> bool
    ensures { result ≡ is_plain schema.now code.now }
{
    is_system(code) || schema.is_resource(code) || primitive_of(schema, code).is_some()
}

// By which node the children of an item of a type are typed, which stands at an element of a type.
fn typed_inside(schema: &Schema, node: NodeRef, code: &str) -> Option<NodeRef>
    ensures { result ≡ typed_inside schema.now node code.now }
{
    if is_plain(schema, code) {
        return None;
    }
    match schema.child_holder(node) {
        Some(holder) => Some(holder),
        None => schema.type_root(code),
    }
}

fn push_allowed<'s>(
    schema: &Schema,
    node: NodeRef,
    entry: &'s TypeEntry,
    codes: &mut Vec<&'s str>,
) -> Result<(), AllocError>
    ensures { OnOk result (map (λ code. code.now) codes.new.items
        ≡ map (λ code. code.now) codes.old.items ++ filter (allows_code schema.now node) (entry.now.code ∷ [])) }
{
    if allows_code(schema, node, entry.code()) {
        codes.push(entry.code())?;
    }
    Ok(())
}

// The codes of the entries that a node allows.
fn allowed_of<'s>(
    alloc: Global,
    schema: &Schema,
    node: NodeRef,
    entries: &'s [TypeEntry],
) -> Result<Vec<&'s str>, AllocError>
    ensures { IfOk result (λ codes. map (λ code. code.now) codes.items
        ≡ filter (allows_code schema.now node) (map (λ entry. entry.code) entries.now)) }
{
    let mut codes = Vec::new(alloc);
    for entry in entries {
        push_allowed(schema, node, entry, &mut codes)?;
    }
    Ok(codes)
}

fn sole<'s>(codes: &[&'s str]) -> Option<&'s str>
    ensures { text_seen result ≡ sole (map (λ code. code.now) codes.now) }
{
    match codes {
        [code] => Some(*code),
        _ => None,
    }
}

fn typed_at_slot(
    alloc: Global,
    schema: &Schema,
    by: NodeRef,
    node: NodeRef,
    slot: &Slot,
) -> Result<Option<NodeRef>, AllocError>
    ensures { IfOk result (λ inside. inside ≡ typed_at_slot schema.now by node slot.now) }
{
    let entry = entry_of(by, slot);
    let codes = allowed_of(alloc, schema, node, types_of_items(schema, entry))?;
    match sole(&codes) {
        Some(code) => Ok(typed_inside(schema, entry, code)),
        None => Ok(None),
    }
}

// By which node of a type's definition the children of a node's items are typed, where the items stand under a name and another node types
// their parents; none where they can be of several types.
fn typed_under(
    alloc: Global,
    schema: &Schema,
    by: NodeRef,
    name: &str,
    node: NodeRef,
) -> Result<Option<NodeRef>, NoMemory>
    ensures { IfOk result (λ inside. inside ≡ typed_under schema.now by name.now node) }
{
    match schema.slot(by, name) {
        Some(slot) => Ok(typed_at_slot(alloc, schema, by, node, slot)?),
        None => Ok(None),
    }
}

// ---- the same where types are few

/// The node of a type's definition that types the parents of a node's items, with the items' name.
pub(crate) type Under<'s> = (NodeRef, &'s str);

// How many types of an element are compared with others at most, each with each. R4's widest choice has 50.
const MAX_TYPES: usize = 64;

/// Whether so few that each is compared with each of others.
pub(crate) fn are_few(entries: &[TypeEntry]) -> bool
    ensures { result ≡ are_few entries.now }
{
    entries.len() <= MAX_TYPES
}

/// Whether the types of a node are few, and those that its items can have.
pub(crate) fn are_few_under(schema: &Schema, by: NodeRef, name: &str, node: NodeRef) -> bool
    ensures { result ≡ are_few_under schema.now (by, name.now) node }
{
    are_few(schema.types(node)) && are_few(types_under(schema, by, name))
}

fn typed_if_few(
    alloc: Global,
    schema: &Schema,
    by: NodeRef,
    name: &str,
    node: NodeRef,
) -> Result<Option<NodeRef>, NoMemory>
    ensures { IfOk result (λ inside. inside ≡ typed_by schema.now (Some (by, name.now)) node) }
{
    if are_few_under(schema, by, name, node) {
        typed_under(alloc, schema, by, name, node)
    } else {
        Ok(None)
    }
}

/// By which node the children of a node's items are typed, where it is known what the items stand under, and where types are few. The one
/// refusal is want of memory.
pub(crate) fn typed_by(
    alloc: Global,
    schema: &Schema,
    under: Option<Under<'_>>,
    node: NodeRef,
) -> Result<Option<NodeRef>, NoMemory>
    ensures { IfOk result (λ inside. inside ≡ typed_by schema.now (option_map (λ u. (u.0, u.1.now)) under.entry) node) }
{
    match under {
        Some((by, name)) => typed_if_few(alloc, schema, by, name, node),
        None => Ok(None),
    }
}
