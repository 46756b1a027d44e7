//! What a constraint says in plain words (FHIR R4, ElementDefinition, constraint.human).

use crate::sayings::Sayings;
use fhir_elements::ConstraintDef;
use fhir_schema::{NodeRef, Schema};

// The key, the url and the id of `KEY (URL#ID)`.
fn parts_of(text: &str) -> Option<(&str, &str, &str)> {
    let (key, rest) = text.rsplit_once(" (")?;
    let (url, id) = rest.strip_suffix(')')?.rsplit_once('#')?;
    Some((key, url, id))
}

fn constraints_at(schema: &Schema, node: NodeRef) -> &[ConstraintDef] {
    match schema.element(node) {
        Some(element) => element.constraints(),
        None => Default::default(),
    }
}

// How many constraints of an element are looked through, so that an element of very many takes no long search for each.
const SEARCHED: usize = 1000;

// The first of a key.
fn keyed<'s>(constraints: &'s [ConstraintDef], key: &str) -> Option<&'s ConstraintDef> {
    for (place, constraint) in constraints.iter().enumerate() {
        if place == SEARCHED {
            return None;
        }
        if constraint.key() == key {
            return Some(constraint);
        }
    }
    None
}

// The constraint of a key at a node, or at the one that it refers to for its content.
fn constraint_of<'s>(schema: &'s Schema, node: NodeRef, key: &str) -> Option<&'s ConstraintDef> {
    if let Some(own) = keyed(constraints_at(schema, node), key) {
        return Some(own);
    }
    keyed(constraints_at(schema, schema.target(node)?), key)
}

/// What the constraint says of which an issue tells `KEY (URL#ID)`.
pub(crate) fn invariant_saying<'p>(
    schema: &Schema,
    sayings: &Sayings<'p>,
    text: &str,
) -> Option<&'p str> {
    let (key, url, id) = parts_of(text)?;
    let constraint = constraint_of(schema, schema.node(url, id)?, key)?;
    sayings.get(key, constraint.expression())
}
