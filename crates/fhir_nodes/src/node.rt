//! Nodes.

/// An element of a definition, both by their places.
#[derive(Clone, Copy, Debug, PartialEq, Eq, PartialOrd, Ord)]
pub struct NodeRef {
    /// The place of the definition in the package's order.
    pub definition: usize,
    /// The place of the element in the definition's snapshot.
    pub element: usize,
}
