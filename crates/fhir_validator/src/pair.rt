//! Pairs of a node and an item.

use fhir_schema::NodeRef;

/// A node, and an item that it is asked of.
#[derive(Clone, Copy, PartialEq, Eq, PartialOrd, Ord)]
pub(crate) struct ItemPair {
    /// The item's number.
    pub(crate) item: usize,
    pub(crate) node: NodeRef,
}
