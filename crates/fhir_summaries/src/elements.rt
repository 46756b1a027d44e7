//! What an element asks by itself.

ghost use Rattle.std.specs.Prelude.{◌≡◌, true, false, not, ◌&&◌};
ghost use Rattle.std.specs.List.{list_all};
ghost use Rattle.std.specs.Option.{option_map_or};
ghost use Rattle.fhir_elements.specs.Constraint.{must_hold};
ghost use Rattle.fhir_summaries.specs.Summaries.{has_no_value, has_no_bound, has_no_error, has_no_rule, is_bare, may_be_absent, one_type};

use fhir_elements::{ElementDef, TypeEntry};
use fhir_nodes::Table;

fn has_no_value(element: &ElementDef) -> bool
    ensures { result ≡ has_no_value element.now }
{
    element.fixed().is_none() && element.pattern().is_none()
}

fn has_no_bound(element: &ElementDef) -> bool
    ensures { result ≡ has_no_bound element.now }
{
    element.min_value().is_none() && element.max_value().is_none() && element.max_length().is_none()
}

fn has_no_error(element: &ElementDef) -> bool
    ensures { result ≡ has_no_error element.now }
{
    for constraint in element.constraints() {
        if constraint.must_hold() {
            return false;
        }
    }
    true
}

fn has_no_rule(element: &ElementDef) -> bool
    ensures { result ≡ has_no_rule element.now }
{
    element.required_value_set().is_none()
        && has_no_error(element)
        && element.content_reference().is_none()
}

/// Whether an element asks nothing of an item, but for its type and its children.
pub(crate) fn is_bare(element: &ElementDef) -> bool
    ensures { result ≡ is_bare element.now }
{
    has_no_value(element) && has_no_bound(element) && has_no_rule(element)
}

/// Whether there need be no item of an element.
pub(crate) fn may_be_absent(element: &ElementDef) -> bool
    ensures { result ≡ may_be_absent element.now }
{
    match element.min() {
        Some(least) => least == 0,
        None => true,
    }
}

/// The place of the definition of the one type that is named, if one is.
pub(crate) fn one_type(table: &Table, entries: &[TypeEntry]) -> Option<usize>
    ensures { result ≡ one_type table.now entries.now }
{
    match entries {
        [entry] => table.type_place(entry.code()),
        _ => None,
    }
}
