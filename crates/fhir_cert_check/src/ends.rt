//! Slicings that are open at their end (FHIR R4, ElementDefinition, slicing.rules).

ghost use Rattle.std.specs.Prelude.{◌≡◌, ◌||◌, ◌&&◌, not};
ghost use Rattle.std.specs.List.{list_any};
ghost use Rattle.fhir_json.specs.Bytes.{is_empty};
ghost use Rattle.fhir_schema.specs.Schemas.{slices, is_closed};
ghost use Rattle.fhir_facets.specs.Order.{is_ordered, is_open_at_end, is_new, is_kept, new_come_last, new_are_rest};
ghost use Rattle.fhir_cert_check.specs.Rules.{is_shared, end_answers};

use crate::nodes::{entry_of, is_forbidden_at};
use crate::slices::is_shared;
use fhir_facets::{is_open_at_end, is_ordered};
use fhir_schema::{NodeRef, Schema, Slot};

// Whether items may be in a slice that the base node's element lacks.
fn is_new(schema: &Schema, n: NodeRef, m: NodeRef, own: &Slot) -> bool
    ensures { result ≡ is_new (is_shared schema.now n m) schema.now n own.now }
{
    !is_forbidden_at(schema, entry_of(n, own)) && !is_shared(schema, n, m, own)
}

// Whether they may be in one that it has.
fn is_kept(schema: &Schema, n: NodeRef, m: NodeRef, own: &Slot) -> bool
    ensures { result ≡ is_kept (is_shared schema.now n m) schema.now n own.now }
{
    !is_forbidden_at(schema, entry_of(n, own)) && is_shared(schema, n, m, own)
}

fn some_new(schema: &Schema, n: NodeRef, m: NodeRef) -> bool
    ensures { result ≡ list_any (is_new (is_shared schema.now n m) schema.now n) (slices schema.now n) }
{
    schema.slices(n).iter().any(|own| is_new(schema, n, m, own))
}

fn new_come_last(schema: &Schema, n: NodeRef, m: NodeRef) -> bool
    ensures { result ≡ new_come_last (is_shared schema.now n m) schema.now n }
{
    let mut after_new = false;
    for own in schema.slices(n) {
        if after_new & is_kept(schema, n, m, own) {
            return false;
        }
        after_new = after_new | is_new(schema, n, m, own);
    }
    true
}

fn are_ordered_last(schema: &Schema, n: NodeRef, m: NodeRef) -> bool
    ensures { result ≡ (is_ordered schema.now n && new_come_last (is_shared schema.now n m) schema.now n) }
{
    is_ordered(schema, n) && new_come_last(schema, n, m)
}

fn new_are_rest(schema: &Schema, n: NodeRef, m: NodeRef) -> bool
    ensures { result ≡ new_are_rest (is_shared schema.now n m) schema.now n }
{
    !some_new(schema, n, m) || are_ordered_last(schema, n, m)
}

fn ends_none(schema: &Schema, node: NodeRef) -> bool
    ensures { result ≡ (is_empty (slices schema.now node) || not (is_open_at_end schema.now node)) }
{
    schema.slices(node).is_empty() || !is_open_at_end(schema, node)
}

fn keeps_end(schema: &Schema, node: NodeRef) -> bool
    ensures { result ≡ (is_closed schema.now node || is_open_at_end schema.now node) }
{
    schema.is_closed(node) || is_open_at_end(schema, node)
}

/// Whether a derived node's element keeps those items at the end that are in no slice of the base node's.
pub(crate) fn end_answers(schema: &Schema, n: NodeRef, m: NodeRef) -> bool
    ensures { result ≡ end_answers schema.now n m }
{
    ends_none(schema, m) || (keeps_end(schema, n) && new_are_rest(schema, n, m))
}
