//! Where a pair fails a rule.

use fhir_cert_check::Rule;
use fhir_certificate::{NodePair, Pair};
use fhir_element_changes::{Aspect, Failing};
use fhir_schema::{NodeRef, Schema};

/// The nodes of a pair.
pub(crate) fn nodes_of(pair: Pair) -> NodePair {
    match pair {
        Pair::Item(nodes) | Pair::Kids(nodes) => nodes,
    }
}

fn slot_node(schema: &Schema, node: NodeRef, name: &str) -> Option<NodeRef> {
    let slot = schema.slot(node, name)?;
    Some(NodeRef {
        definition: node.definition,
        element: slot.entry(),
    })
}

fn slice_node(schema: &Schema, node: NodeRef, name: &str, slice: &str) -> Option<NodeRef> {
    let sliced = slot_node(schema, node, name)?;
    let slot = schema.slice(sliced, slice)?;
    Some(NodeRef {
        definition: node.definition,
        element: slot.entry(),
    })
}

// By which of what is compared a rule fails, if it is one.
fn aspect_of(rule: Rule<'_>) -> Option<Aspect> {
    match rule {
        Rule::TypeCode => Some(Aspect::Types),
        Rule::Fixed => Some(Aspect::Fixed),
        Rule::Pattern => Some(Aspect::Pattern),
        Rule::Range => Some(Aspect::Bounds),
        Rule::Length => Some(Aspect::Length),
        Rule::Binding => Some(Aspect::Binding),
        Rule::Constraint(_) => Some(Aspect::Constraints),
        Rule::Cardinality(_) | Rule::Bounds { .. } => Some(Aspect::Cardinality),
        Rule::Closed(_) | Rule::Ordered(_) | Rule::End(_) | Rule::Criteria { .. } => {
            Some(Aspect::Slicing)
        }
        Rule::Root | Rule::Children | Rule::Slot(_) | Rule::Entry(_) | Rule::Slice { .. } => None,
    }
}

fn node_of(schema: &Schema, node: NodeRef, rule: Rule<'_>) -> Option<NodeRef> {
    match rule {
        Rule::Cardinality(name) | Rule::Closed(name) | Rule::Ordered(name) | Rule::End(name) => {
            slot_node(schema, node, name)
        }
        Rule::Criteria { name, .. } => slot_node(schema, node, name),
        Rule::Bounds { name, slice } => slice_node(schema, node, name, slice),
        _ => Some(node),
    }
}

/// Where a pair fails a rule, if that is by something that is compared.
pub(crate) fn failing_at(schema: &Schema, pair: Pair, rule: Rule<'_>) -> Option<Failing> {
    Some(Failing {
        node: node_of(schema, nodes_of(pair).derived, rule)?,
        aspect: aspect_of(rule)?,
    })
}
