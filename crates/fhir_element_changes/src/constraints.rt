//! The constraints of an element, beside those of another.

use fhir_elements::ConstraintDef;
use fhir_names::Index;
use std::alloc::{AllocError, Global};

// A constraint as a page shows it.
fn line_of(alloc: Global, constraint: &ConstraintDef) -> Result<String, AllocError> {
    let key = constraint.key();
    let expression = constraint.expression().unwrap_or("no expression");
    if constraint.must_hold() {
        format!(in alloc; "{key}: {expression}")
    } else {
        format!(in alloc; "{key} (warning): {expression}")
    }
}

fn lines_of(alloc: Global, constraints: &[ConstraintDef]) -> Result<Index, AllocError> {
    let mut lines = Index::new(alloc);
    for (place, constraint) in constraints.iter().enumerate() {
        lines.add(alloc, line_of(alloc, constraint)?.as_str(), place)?;
    }
    Ok(lines)
}

fn push_line(line: &str, into: &mut String) -> Result<(), AllocError> {
    if !into.is_empty() {
        into.push('\n')?;
    }
    into.push_str(line)
}

/// The constraints of an element that another element doesn't have, each as a line.
pub(crate) fn constraints_text(
    alloc: Global,
    constraints: &[ConstraintDef],
    others: &[ConstraintDef],
) -> Result<String, AllocError> {
    let lines = lines_of(alloc, others)?;
    let mut text = String::new(alloc);
    for constraint in constraints {
        let line = line_of(alloc, constraint)?;
        if lines.get(line.as_str()).is_none() {
            push_line(line.as_str(), &mut text)?;
        }
    }
    Ok(text)
}

fn is_same(one: &ConstraintDef, other: &ConstraintDef) -> bool {
    one.key() == other.key()
        && one.expression() == other.expression()
        && one.severity() == other.severity()
}

/// Whether two elements have the same constraints in the same order, which most have that are compared.
pub(crate) fn are_alike(constraints: &[ConstraintDef], others: &[ConstraintDef]) -> bool {
    if constraints.len() != others.len() {
        return false;
    }
    constraints
        .iter()
        .zip(others)
        .all(|(constraint, other)| is_same(constraint, other))
}
