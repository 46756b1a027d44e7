//! Of which type an item is made.

ghost use Rattle.std.specs.Prelude.{◌≡◌, IfSome, IsTrue};
ghost use Rattle.fhir_demands.specs.Placing.{is_at};

use crate::demand::Demand;
use crate::task::Task;
use fhir_differences::Change;
use fhir_schema::{Content, Form, NodeRef, Schema, Sought};
use std::ops::Range;

fn is_of_some(schema: &Schema, node: NodeRef, code: &str) -> bool {
    let entries = schema.types(node);
    entries.is_empty()
        || entries
            .iter()
            .any(|entry| schema.covers(entry.code(), code))
}

fn is_sought(schema: &Schema, sought: &Sought, code: &str) -> bool {
    match sought {
        Sought::Typed(codes) => codes
            .iter()
            .any(|other| schema.covers(other.as_str(), code)),
        _ => true,
    }
}

// Whether an item of a type can be what it is asked for.
fn suits(schema: &Schema, demand: Demand<'_>, code: &str) -> bool {
    match demand {
        Demand::Node(node) => is_of_some(schema, node, code),
        Demand::Sought([], sought) => is_sought(schema, sought, code),
        Demand::Type(other) => code == other,
        _ => true,
    }
}

fn suits_change(change: Change<'_>, code: &str) -> bool {
    match change {
        Change::OfType(other) => code == other,
        _ => true,
    }
}

fn suits_all(task: &Task<'_, '_>, demands: &[Demand<'_>], code: &str) -> bool {
    for demand in demands {
        if !suits(task.schema, *demand, code) {
            return false;
        }
    }
    suits_change(task.change_at(demands), code)
}

// Whether a child of a form can be what it is asked for.
fn suits_form(task: &Task<'_, '_>, form: &Form, demands: &[Demand<'_>]) -> bool {
    match form.content() {
        Content::Resource => true,
        _ => suits_all(task, demands, form.code()),
    }
}

/// The form of a child that is asked for so, by the forms that begin with the first of its name.
pub fn form_for<'s>(
    task: &Task<'_, 's>,
    forms: &'s [Form],
    name: &str,
    demands: &[Demand<'s>],
) -> Option<&'s Form>
    ensures { IfSome result (λ form. form.now.name ≡ name.now) }
{
    for form in forms {
        if form.name() != name {
            return None;
        }
        if suits_form(task, form, demands) {
            return Some(form);
        }
    }
    None
}

fn is_at(forms: &[Form], name: &str, place: usize) -> bool
    ensures { result ≡ is_at forms.now name.now place }
{
    match forms.get(place) {
        Some(form) => form.name() == name,
        None => false,
    }
}

fn place_within(forms: &[Form], name: &str, places: Range<usize>) -> Option<usize>
    ensures { IfSome result (λ place. IsTrue (is_at forms.now name.now place)) }
{
    for place in places {
        if is_at(forms, name, place) {
            return Some(place);
        }
    }
    None
}

/// A place among forms at which one of a name stands. It is looked for from a place on, and then before it, so that the names of all
/// children in their order take linear time.
pub fn place_of(forms: &[Form], name: &str, near: usize) -> Option<usize>
    ensures { IfSome result (λ place. IsTrue (is_at forms.now name.now place)) }
{
    match place_within(forms, name, near..forms.len()) {
        Some(place) => Some(place),
        None => place_within(forms, name, 0..near),
    }
}

// ---- resources

fn code_of_node<'s>(schema: &'s Schema, node: NodeRef) -> Option<&'s str> {
    for entry in schema.types(node) {
        if schema.resource_root(entry.code()).is_some() {
            return Some(entry.code());
        }
    }
    None
}

fn first_concrete<'s>(schema: &'s Schema, codes: &'s [String]) -> Option<&'s str> {
    for code in codes {
        if schema.resource_root(code.as_str()).is_some() {
            return Some(code.as_str());
        }
    }
    None
}

// The code that is asked for by itself, whatever a node allows.
fn code_named<'s>(schema: &'s Schema, demand: Demand<'s>) -> Option<&'s str> {
    match demand {
        Demand::Type(code) if schema.resource_root(code).is_some() => Some(code),
        Demand::Sought([], Sought::Typed(codes)) => first_concrete(schema, codes),
        _ => None,
    }
}

fn first_named<'s>(schema: &'s Schema, demands: &[Demand<'s>]) -> Option<&'s str> {
    for demand in demands {
        if let Some(code) = code_named(schema, *demand) {
            return Some(code);
        }
    }
    None
}

fn code_allowed<'s>(schema: &'s Schema, demand: Demand<'s>) -> Option<&'s str> {
    match demand {
        Demand::Node(node) => code_of_node(schema, node),
        _ => None,
    }
}

fn first_allowed<'s>(schema: &'s Schema, demands: &[Demand<'s>]) -> Option<&'s str> {
    for demand in demands {
        if let Some(code) = code_allowed(schema, *demand) {
            return Some(code);
        }
    }
    None
}

fn code_changed<'s>(change: Change<'s>) -> Option<&'s str> {
    match change {
        Change::OfType(code) => Some(code),
        _ => None,
    }
}

/// The code of a resource's type, where it is asked for so: what the change says goes before what is asked for by itself, and this before
/// what a node allows.
pub fn resource_code<'s>(task: &Task<'_, 's>, demands: &[Demand<'s>]) -> &'s str {
    if let Some(code) = code_changed(task.change_at(demands)) {
        return code;
    }
    if let Some(code) = first_named(task.schema, demands) {
        return code;
    }
    first_allowed(task.schema, demands).unwrap_or(task.plain)
}
