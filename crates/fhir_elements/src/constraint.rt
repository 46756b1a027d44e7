//! Constraints (FHIR R4, ElementDefinition, constraint).

ghost use Rattle.std.specs.List.{list_all};
ghost use Rattle.std.specs.Prelude.{◌≡◌, ◌<◌, Option, map, IfOk, string_bytes};
ghost use Rattle.std.specs.Option.{option_map};
ghost use Rattle.fhir_elements.specs.Constraint.{severity_of, is_error, must_hold, is_constraint, constraint_of};
ghost use Rattle.fhir_json.specs.Views.{tree_of, trees_of, text_seen};

use crate::codes::{Code, allows_code, code_in};
use crate::texts::{owned_at, owned_in, text_of};
use fhir_json::Json;
use std::alloc::{AllocError, Global};
use std::marker::Model;

/// How grave it is that a constraint isn't true.
#[derive(Clone, Copy, Debug, PartialEq, Eq, PartialOrd, Ord)]
pub enum Severity {
    /// `error`: a resource for which it isn't true doesn't conform.
    Error,
    /// `warning`: nothing is refused.
    Warning,
}

impl Code for Severity {
    ghost reads = { severity_of };

    fn of(text: &str) -> Option<Severity> {
        match text {
            "error" => Some(Severity::Error),
            "warning" => Some(Severity::Warning),
            _ => None,
        }
    }
}

fn is_error(severity: Severity) -> bool
    ensures { result ≡ is_error severity }
{
    match severity {
        Severity::Error => true,
        Severity::Warning => false,
    }
}

/// One of an element's constraints.
#[derive(Drop)]
pub struct ConstraintDef {
    key: String,
    severity: Option<Severity>,
    expression: Option<String>,
}

impl Model for ConstraintDef {
    ghost use Rattle.std.specs.Prelude.{string_bytes};
    ghost use Rattle.std.specs.Option.{option_map};
    ghost use Rattle.fhir_elements.specs.Constraint.{Constraint};

    ghost Value = { Constraint };

    ghost view = { λ c. record {
      key = string_bytes c.key;
      severity = c.severity;
      expression = option_map string_bytes c.expression;
    } };
}

impl ConstraintDef {
    /// The constraint of a key, with how grave it is that it isn't true, and its FHIRPath expression.
    pub fn new(key: String, severity: Option<Severity>, expression: Option<String>) -> ConstraintDef
        ensures key { result.key ≡ string_bytes key }
        ensures severity { result.severity ≡ severity }
        ensures expression { result.expression ≡ option_map string_bytes expression }
    {
        ConstraintDef {
            key,
            severity,
            expression,
        }
    }

    /// The constraint's key.
    pub fn key(&self) -> &str
        ensures { result.now ≡ self.now.key }
    {
        self.key.as_str()
    }

    /// How grave it is that the constraint isn't true.
    pub fn severity(&self) -> Option<Severity>
        ensures { result ≡ self.now.severity }
    {
        self.severity
    }

    /// Whether a resource for which the constraint isn't true doesn't conform.
    pub fn must_hold(&self) -> bool
        ensures { result ≡ must_hold self.now }
    {
        self.severity.is_some_and(|severity| is_error(severity))
    }

    /// Its FHIRPath expression.
    pub fn expression(&self) -> Option<&str>
        ensures { text_seen result ≡ self.now.expression }
    {
        text_of(&self.expression)
    }
}

fn is_constraint(json: &Json<'_>) -> bool
    ensures { result ≡ is_constraint (tree_of json.now) }
{
    json.is_object()
        && json.text_in("key").is_some()
        && allows_code::<Severity>(json, "severity")
        && json.allows_text("expression")
}

/// Whether each item is a constraint.
pub(crate) fn are_constraints(items: &[Json<'_>]) -> bool
    ensures { result ≡ list_all is_constraint (trees_of items.now) }
{
    for item in items {
        if !is_constraint(item) {
            return false;
        }
    }
    true
}

fn constraint_of(alloc: Global, json: &Json<'_>) -> Result<ConstraintDef, AllocError>
    ensures { IfOk result (λ c. c ≡ constraint_of (tree_of json.now)) }
{
    Ok(ConstraintDef {
        key: owned_at(alloc, json, "key")?,
        severity: code_in(json, "severity"),
        expression: owned_in(alloc, json, "expression")?,
    })
}

/// The constraints that items are.
pub(crate) fn constraints_of(
    alloc: Global,
    items: &[Json<'_>],
) -> Result<Vec<ConstraintDef>, AllocError>
    ensures { IfOk result (λ v. v.items ≡ map constraint_of (trees_of items.now)) }
{
    let mut constraints = Vec::new(alloc);
    for item in items {
        let constraint = constraint_of(alloc, item)?;
        constraints.push(constraint)?;
    }
    Ok(constraints)
}
