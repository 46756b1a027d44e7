//! Pairs of nodes.

use fhir_schema::NodeRef;

/// A node of the derived definition, or of one that it rests on, and a node of the base's.
#[derive(Clone, Copy, Debug, PartialEq, Eq, PartialOrd, Ord)]
pub struct NodePair {
    /// The node that asks for more.
    pub derived: NodeRef,
    /// The node that asks for less.
    pub base: NodeRef,
}

/// What a pair of nodes says: that each item which conforms to the derived node conforms to the base's, or the same of
/// the children of an item.
#[derive(Clone, Copy, Debug, PartialEq, Eq)]
pub enum Pair {
    /// Of items.
    Item(NodePair),
    /// Of an item's children.
    Kids(NodePair),
}
