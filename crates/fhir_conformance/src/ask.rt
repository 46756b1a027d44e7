//! Single asks of a node.

use fhir_schema::NodeRef;

/// A rule of a node's element, which is judged at an item by itself.
#[derive(Clone, Copy, Debug, PartialEq, Eq)]
pub enum ElementRule<'s> {
    /// The item is of the type that the root's definition defines or constrains.
    RootType,
    /// The item's value is the fixed one.
    Fixed,
    /// The item's value fits the pattern.
    Pattern,
    /// The item's value lies within the bounds.
    Range,
    /// The item's text has so many characters at most.
    Length,
    /// The item's codes are in the value set of a required binding.
    Binding,
    /// The children of that name are enough.
    TooFew(&'s str),
    /// The children of that name aren't too many.
    TooMany(&'s str),
    /// The children of that name that belong to the slice are enough.
    TooFewIn(&'s str),
    /// The children of that name that belong to the slice aren't too many.
    TooManyIn(&'s str),
    /// The child at that position among all children is in no two of the element's slices.
    Apart(usize),
    /// The child at that position among all children is in one of the element's slices.
    InASlice(usize),
    /// The child at the second position isn't in a slice before that of the child at the first, which stands before it.
    InOrder(usize, usize),
    /// The child at that position, which stands behind one that is in none of the element's slices, is in none either.
    InTheRest(usize),
    /// The constraint at that position among the element's is true.
    Constraint(usize),
}

/// One thing that a node asks of an item.
#[derive(Clone, Copy, Debug)]
pub enum Ask<'s> {
    /// A rule of that node's element holds.
    Own(ElementRule<'s>, NodeRef),
    /// The item is of one of the types of that node, where it names any, and conforms to one of the profiles that the
    /// type names.
    Types(NodeRef),
    /// Whether the item conforms to that root is asked, since a type names it as a profile. The item needn't: one
    /// profile of several is enough.
    Profile(NodeRef),
    /// The item itself conforms to that root too.
    Root(NodeRef),
    /// The child at that position among all children conforms to the node.
    Child(usize, NodeRef),
}
