//! What is known of an element.

use fhir_schema::NodeRef;

/// What is known of an element.
#[derive(Clone, Copy)]
pub struct Known {
    /// The node of a type's definition that types the children of its items, where that can be told.
    pub typed_by: Option<NodeRef>,
    /// Whether none of its items can be there.
    pub is_absent: bool,
}
