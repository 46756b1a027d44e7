//! Frames.

/// Of what an object is: that says which of its node's elements it may have.
#[derive(Clone, Copy, Debug, PartialEq, Eq)]
pub enum ObjectRole {
    /// An element's: all of them.
    Element,
    /// A resource: all but `resourceType`, which names its type.
    Resource,
    /// The companion of a primitive: its id and its extensions.
    Companion,
}
