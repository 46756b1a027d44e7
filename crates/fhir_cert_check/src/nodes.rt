//! What is asked of the elements of two nodes, and of their pair.

ghost use Rattle.std.specs.Prelude.{◌≡◌};
ghost use Rattle.std.specs.Option.{option_copied};
ghost use Rattle.fhir_schema.specs.Schemas.{entry_of};
ghost use Rattle.fhir_facets.specs.Cardinality.{cardinality_narrower};
ghost use Rattle.fhir_cert_check.specs.Rules.{elements_answer, is_forbidden_at, has_item_pair};
ghost use Rattle.fhir_cert_check.specs.PairSet.{has_pair};

use crate::pair_set::PairSet;
use fhir_certificate::{NodePair, Pair};
use fhir_facets::{Cardinality, Facet, is_forbidden};
use fhir_schema::{NodeRef, Schema, Slot};

/// Whether the cardinality of the derived element lies within that of the base's.
pub(crate) fn cardinality_answers(schema: &Schema, n: NodeRef, m: NodeRef) -> bool
    ensures { result ≡ elements_answer cardinality_narrower schema.now n m }
{
    match (schema.element(n), schema.element(m)) {
        (_, None) => true,
        (Some(own), Some(base)) => Cardinality(own).narrower(&Cardinality(base)),
        (None, Some(_)) => false,
    }
}

/// Whether no item may be at a node.
pub(crate) fn is_forbidden_at(schema: &Schema, node: NodeRef) -> bool
    ensures { result ≡ is_forbidden_at schema.now node }
{
    match schema.element(node) {
        Some(element) => is_forbidden(element),
        None => false,
    }
}

/// Whether the pair of items of two nodes is there.
pub(crate) fn has_item_pair(pairs: &PairSet, derived: NodeRef, base: NodeRef) -> bool
    ensures { result ≡ has_item_pair (has_pair pairs.now) derived base }
{
    pairs.has(Pair::Item(NodePair { derived, base }))
}

/// The node of the element of a slot, or of a slice.
pub(crate) fn entry_of(node: NodeRef, slot: &Slot) -> NodeRef
    ensures { result ≡ entry_of node slot.now }
{
    NodeRef {
        definition: node.definition,
        element: slot.entry(),
    }
}
