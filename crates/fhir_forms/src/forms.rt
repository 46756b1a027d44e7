//! The forms of elements.

ghost use Rattle.std.specs.Prelude.{◌≡◌, ◌++◌, IfOk, OnOk};
ghost use Rattle.std.specs.Option.{option_copied};
ghost use Rattle.std.specs.List.{slice_get};
ghost use Rattle.fhir_forms.specs.Forms.{repeats, typing_node, content_of, form_of, forms_with, slot_forms, forms_under};
ghost use Rattle.fhir_nodes.specs.Slots.{all_slots};

use crate::form::{Content, Form};
use crate::property_name::property_name;
use fhir_definition::Definition;
use fhir_elements::{ElementDef, TypeEntry};
use fhir_names::Name;
use fhir_nodes::{
    NodeRef, Nodes, Slot, Table, child_holder, is_system, names_resource, primitive_of,
    root_of_code, typing_entries,
};
use std::alloc::{AllocError, Global};

fn repeats(element: &ElementDef) -> bool
    ensures { result ≡ repeats element.now }
{
    element.max().is_some_and(|most| most.allows_several())
}

// The node by whose slots the children of an item of the type are typed.
fn typing_node(table: &Table, nodes: &Nodes, node: NodeRef, code: &str) -> Option<NodeRef>
    requires { nodes.now ≡ all_slots table.now }
    ensures { result ≡ typing_node table.now node code.now }
{
    match child_holder(nodes, table, node) {
        Some(holder) => Some(holder),
        None => root_of_code(table, code),
    }
}

fn content_of(table: &Table, nodes: &Nodes, node: NodeRef, code: &str) -> Content
    requires { nodes.now ≡ all_slots table.now }
    ensures { result ≡ content_of table.now node code.now }
{
    if is_system(code) {
        return Content::System;
    }
    if names_resource(table, code) {
        return Content::Resource;
    }
    let below = typing_node(table, nodes, node, code);
    match primitive_of(table, code) {
        Some(prim) => Content::Primitive(prim, below),
        None => Content::Complex(below),
    }
}

// The node of a slot of a definition's element.
fn slot_node(definition: &Definition, slot: &Slot) -> NodeRef
    ensures { result ≡ record { definition = definition.now.place; element = slot.now.entry } }
{
    NodeRef {
        definition: definition.place(),
        element: slot.entry(),
    }
}

fn form_of(
    alloc: Global,
    table: &Table,
    definition: &Definition,
    nodes: &Nodes,
    slot: &Slot,
    element: &ElementDef,
    code: &str,
) -> Result<Form, AllocError>
    requires { nodes.now ≡ all_slots table.now }
    ensures { IfOk result (λ f. f ≡ form_of table.now definition.now slot.now element.now code.now) }
{
    Ok(Form {
        name: Name::of(alloc, slot.name())?,
        property: property_name(alloc, slot.name(), code)?,
        code: String::from_str(alloc, code)?,
        repeats: repeats(element),
        content: content_of(table, nodes, slot_node(definition, slot), code),
        entry: slot.entry(),
    })
}

// The forms of a slot of an element, behind others.
fn push_forms_with(
    alloc: Global,
    table: &Table,
    definition: &Definition,
    nodes: &Nodes,
    slot: &Slot,
    element: &ElementDef,
    forms: &mut Vec<Form>,
) -> Result<(), AllocError>
    requires { nodes.now ≡ all_slots table.now }
    ensures { OnOk result (forms.new.items ≡ forms.old.items ++ forms_with table.now definition.now slot.now element.now) }
{
    for entry in typing_entries(nodes, table, slot_node(definition, slot), element) {
        let code = entry.code();
        forms.push(form_of(alloc, table, definition, nodes, slot, element, code)?)?;
    }
    Ok(())
}

fn element_at(definition: &Definition, place: usize) -> Option<&ElementDef>
    ensures { option_copied result ≡ slice_get definition.now.elements place }
{
    definition.elements().get(place)
}

// The forms of a slot, behind others.
fn push_forms(
    alloc: Global,
    table: &Table,
    definition: &Definition,
    nodes: &Nodes,
    slot: &Slot,
    forms: &mut Vec<Form>,
) -> Result<(), AllocError>
    requires { nodes.now ≡ all_slots table.now }
    ensures { OnOk result (forms.new.items ≡ forms.old.items ++ slot_forms table.now definition.now slot.now) }
{
    match element_at(definition, slot.entry()) {
        Some(element) => { push_forms_with(alloc, table, definition, nodes, slot, element, forms) }
        None => Ok(()),
    }
}

/// The forms of the children of an element of a definition, of which these are the slots.
pub(crate) fn forms_under(
    alloc: Global,
    table: &Table,
    definition: &Definition,
    nodes: &Nodes,
    under: &[Slot],
) -> Result<Vec<Form>, AllocError>
    requires { nodes.now ≡ all_slots table.now }
    ensures { IfOk result (λ v. v.items ≡ forms_under table.now definition.now under.now) }
{
    let mut forms = Vec::new(alloc);
    for slot in under {
        push_forms(alloc, table, definition, nodes, slot, &mut forms)?;
    }
    Ok(forms)
}
