//! Unread rules.

ghost use Rattle.std.specs.Prelude.{◌≡◌};
ghost use Rattle.fhir_json.specs.Views.{property_of};
ghost use Rattle.fhir_facets.specs.Carried.{bound_unread, target_unread, profile_unread, value_set_unread};
ghost use Rattle.fhir_facets.specs.Unread.{unread_constraint, unread_text};
ghost use Rattle.fhir_facets.specs.Views.{unread_seen, printed, rules_in};

use crate::compact::write_compact;
use crate::scale::scale_of_bound;
use fhir_elements::ConstraintDef;
use fhir_json::Member;
use fhir_schema::Schema;
use fhir_vouching::{Progress, Spelled};
use std::cmp::Ordering;
use std::fmt;

/// A rule that a definition has and that isn't judged here. `Display` prints what it says: `range`, its property and its
/// compact value; `target`, `profile` or `binding` and its canonical; `expression` and its text; or `constraint` and its key.
#[derive(Clone, Copy)]
pub enum Unread<'a> {
    /// A bound of a type whose values aren't compared, as `minValueQuantity`.
    Range(&'a Member<'static>),
    /// A target profile that isn't there, or can't be used.
    Target(&'a str),
    /// A profile of a type that isn't there, or can't be used.
    Profile(&'a str),
    /// A required binding to a value set that can't be read, or of an item that isn't looked up in one.
    Binding(&'a str),
    /// A constraint whose expression can't be read, by its text.
    Expression(&'a str),
    /// A constraint without an expression, by its key.
    Constraint(&'a str),
}

impl<'a> Unread<'a> {
    /// The rule that a bound is, where bounds of its type aren't compared.
    pub fn of_bound(bound: &'a Member<'static>) -> Option<Unread<'a>>
        ensures { rules_in result ≡ bound_unread (property_of bound.now) }
    {
        match scale_of_bound(bound.name.as_str()) {
            Some(_scale) => None,
            None => Some(Unread::Range(bound)),
        }
    }

    /// The rule that a target profile is, where it isn't there or can't be used.
    pub fn of_target(schema: &Schema, canonical: &'a str) -> Option<Unread<'a>>
        ensures { rules_in result ≡ target_unread schema.now canonical.now }
    {
        match schema.loaded(canonical) {
            Some(_root) => None,
            None => Some(Unread::Target(canonical)),
        }
    }

    /// The rule that a profile of a type is, where it isn't there or can't be used.
    pub fn of_profile(schema: &Schema, canonical: &'a str) -> Option<Unread<'a>>
        ensures { rules_in result ≡ profile_unread schema.now canonical.now }
    {
        match schema.loaded(canonical) {
            Some(_root) => None,
            None => Some(Unread::Profile(canonical)),
        }
    }

    /// The rule that a required binding to a value set is, where that can't be read. That a binding is of an item which isn't
    /// looked up in value sets is seen at the item alone.
    pub fn of_value_set(schema: &Schema, canonical: &'a str) -> Option<Unread<'a>>
        ensures { rules_in result ≡ value_set_unread schema.now canonical.now }
    {
        match schema.concepts(canonical) {
            Some(_concepts) => None,
            None => Some(Unread::Binding(canonical)),
        }
    }

    /// The rule that a constraint is, where its expression can't be read.
    pub fn of_constraint(constraint: &'a ConstraintDef) -> Unread<'a>
        ensures { unread_seen result ≡ unread_constraint constraint.now }
    {
        match constraint.expression() {
            Some(text) => Unread::Expression(text),
            None => Unread::Constraint(constraint.key()),
        }
    }
}

impl Spelled for Unread<'_> {
    ghost spelled = { λ rule. unread_text (unread_seen rule) };

    fn cmp_text(&self, text: &str) -> Ordering {
        let progress = Progress::of(text);
        let spelled = match self {
            Unread::Range(bound) => progress
                .then("range ")
                .then(bound.name.as_str())
                .then(" ")
                .then_compact(&bound.value),
            Unread::Target(canonical) => progress.then("target ").then(canonical),
            Unread::Profile(canonical) => progress.then("profile ").then(canonical),
            Unread::Binding(canonical) => progress.then("binding ").then(canonical),
            Unread::Expression(text) => progress.then("expression ").then(text),
            Unread::Constraint(key) => progress.then("constraint ").then(key),
        };
        spelled.order()
    }
}

impl fmt::Display for Unread<'_> {
    ghost output = { λ rule. printed rule };

    fn fmt<W: fmt::Write>(&self, f: &mut fmt::Formatter<W>) -> fmt::Result {
        match self {
            Unread::Range(bound) => {
                f.write_str("range ")?;
                f.write_str(bound.name.as_str())?;
                f.write_char(' ')?;
                write_compact(f, &bound.value)
            }
            Unread::Target(canonical) => write!(f, "target {canonical}"),
            Unread::Profile(canonical) => write!(f, "profile {canonical}"),
            Unread::Binding(canonical) => write!(f, "binding {canonical}"),
            Unread::Expression(text) => write!(f, "expression {text}"),
            Unread::Constraint(key) => write!(f, "constraint {key}"),
        }
    }
}
