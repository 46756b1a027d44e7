//! What a pair of a certificate fails, in plain words, with what stands in both elements.

ghost use Rattle.std.specs.Prelude.{◌≡◌, ◌++◌, IfOk, codes, string_bytes};
ghost use Rattle.fhir_json.specs.Tree.{Text};
ghost use Rattle.fhir_cert_check.specs.Rule.{rule_text};
ghost use Rattle.fhir_cert_check.specs.Views.{rule_name};

use fhir_cert_check::Rule;
use fhir_certificate::{NodePair, Pair};
use fhir_element_texts::{
    cardinality_text, length_text, member_text, members_text, node_types_text,
};
use fhir_elements::ElementDef;
use fhir_json::NoMemory;
use fhir_schema::{NodeRef, Schema, Slot};
use std::alloc::{AllocError, Global};

fn nodes_of(pair: Pair) -> NodePair {
    match pair {
        Pair::Item(nodes) | Pair::Kids(nodes) => nodes,
    }
}

fn entry_of(node: NodeRef, slot: &Slot) -> NodeRef {
    NodeRef {
        definition: node.definition,
        element: slot.entry(),
    }
}

// The element of a node's slot, and that of a slice of it.
fn slot_node(schema: &Schema, node: NodeRef, name: &str) -> Option<NodeRef> {
    Some(entry_of(node, schema.slot(node, name)?))
}

fn slice_node(schema: &Schema, node: NodeRef, name: &str, slice: &str) -> Option<NodeRef> {
    let node = slot_node(schema, node, name)?;
    Some(entry_of(node, schema.slice(node, slice)?))
}

fn element_at(schema: &Schema, node: Option<NodeRef>) -> Option<&ElementDef> {
    schema.element(node?)
}

// How many there may be of an element, if there is one.
fn cardinality_if(alloc: Global, element: Option<&ElementDef>) -> Result<String, AllocError> {
    match element {
        Some(element) => cardinality_text(alloc, element),
        None => String::from_str(alloc, "nothing"),
    }
}

fn binding_text(alloc: Global, element: &ElementDef) -> Result<String, AllocError> {
    String::from_str(alloc, element.required_value_set().unwrap_or("any codes"))
}

// ---- what is said of a pair that fails a rule

// What the elements of a pair are compared by.
#[derive(Clone, Copy)]
enum Field<'r> {
    Types,
    Fixed,
    Pattern,
    Range,
    Length,
    Binding,
    SlotCardinality(&'r str),
    SliceCardinality { slot: &'r str, slice: &'r str },
}

// What is said of a pair that fails a rule: what both elements say by a field, or what isn't there.
#[derive(Clone, Copy)]
enum Shown<'r> {
    Compared(Field<'r>),
    Lacking(&'static str),
}

fn shown_of(rule: Rule<'_>) -> Shown<'_> {
    match rule {
        Rule::Root => Shown::Lacking("no `item` line pairs the roots of the two profiles"),
        Rule::TypeCode => Shown::Compared(Field::Types),
        Rule::Fixed => Shown::Compared(Field::Fixed),
        Rule::Pattern => Shown::Compared(Field::Pattern),
        Rule::Range => Shown::Compared(Field::Range),
        Rule::Length => Shown::Compared(Field::Length),
        Rule::Binding => Shown::Compared(Field::Binding),
        Rule::Constraint(_) => Shown::Lacking("the derived element's constraints don't entail it"),
        Rule::Children => Shown::Lacking("no `kids` line pairs the children of the two elements"),
        Rule::Slot(_) => Shown::Lacking("the derived profile has no such element there"),
        Rule::Cardinality(name) => Shown::Compared(Field::SlotCardinality(name)),
        Rule::Entry(_) => Shown::Lacking("no `item` line pairs the two elements of this name"),
        Rule::Closed(_) => Shown::Lacking(
            "the base allows items in slices alone, and the derived profile others",
        ),
        Rule::Ordered(_) => Shown::Lacking(
            "the base has items in the order of its slices, and the derived profile in another order, or in any",
        ),
        Rule::End(_) => Shown::Lacking(
            "the base has items that are in no slice at the end, and the derived profile elsewhere too",
        ),
        Rule::Slice { .. } => Shown::Lacking(
            "the derived profile has no such slice, or no `item` line pairs the two",
        ),
        Rule::Criteria { .. } => Shown::Lacking("the two slices are not told apart by the same"),
        Rule::Bounds { name, slice } => Shown::Compared(Field::SliceCardinality {
            slot: name,
            slice,
        }),
    }
}

fn slot_cardinality_text(
    alloc: Global,
    schema: &Schema,
    node: NodeRef,
    slot: &str,
) -> Result<String, AllocError> {
    cardinality_if(alloc, element_at(schema, slot_node(schema, node, slot)))
}

fn slice_cardinality_text(
    alloc: Global,
    schema: &Schema,
    node: NodeRef,
    slot: &str,
    slice: &str,
) -> Result<String, AllocError> {
    cardinality_if(
        alloc,
        element_at(schema, slice_node(schema, node, slot, slice)),
    )
}

// What an element says by a field.
fn field_text(
    alloc: Global,
    schema: &Schema,
    node: NodeRef,
    field: Field<'_>,
) -> Result<String, NoMemory> {
    let Some(element) = schema.element(node) else {
        return Ok(String::from_str(alloc, "nothing")?);
    };
    match field {
        Field::Types => Ok(node_types_text(alloc, schema, node)?),
        Field::Fixed => member_text(alloc, element.fixed()),
        Field::Pattern => members_text(alloc, element.fixed(), element.pattern()),
        Field::Range => members_text(alloc, element.min_value(), element.max_value()),
        Field::Length => Ok(length_text(alloc, element)?),
        Field::Binding => Ok(binding_text(alloc, element)?),
        Field::SlotCardinality(slot) => Ok(slot_cardinality_text(alloc, schema, node, slot)?),
        Field::SliceCardinality { slot, slice } => Ok(slice_cardinality_text(
            alloc, schema, node, slot, slice,
        )?),
    }
}

fn comparison_text(
    alloc: Global,
    schema: &Schema,
    nodes: NodePair,
    rule: Rule<'_>,
    field: Field<'_>,
) -> Result<String, NoMemory>
    ensures { IfOk result (λ text. (more : Text) × (string_bytes text ≡ rule_text (rule_name rule.entry) ++ codes ": " ++ more)) }
{
    let derived = field_text(alloc, schema, nodes.derived, field)?;
    let base = field_text(alloc, schema, nodes.base, field)?;
    Ok(format!(in alloc;
        "{rule}: {derived} in the derived profile isn't within {base} of the base"
    )?)
}

/// Which rule a pair fails, as `Display` prints it, and behind a colon in plain words: with what stands in both elements, where
/// the rule compares that. The one refusal is want of memory.
pub fn rule_words(
    alloc: Global,
    schema: &Schema,
    pair: Pair,
    rule: Rule<'_>,
) -> Result<String, NoMemory>
    ensures { IfOk result (λ text. (more : Text) × (string_bytes text ≡ rule_text (rule_name rule.entry) ++ codes ": " ++ more)) }
{
    match shown_of(rule) {
        Shown::Compared(field) => comparison_text(alloc, schema, nodes_of(pair), rule, field),
        Shown::Lacking(text) => Ok(format!(in alloc; "{rule}: {text}")?),
    }
}
