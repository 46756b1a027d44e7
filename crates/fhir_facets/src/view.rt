//! What a facet sees of an item.

use fhir_json::Json;

/// What a facet sees of an item.
#[derive(Clone, Copy)]
pub struct View<'a, 'j> {
    /// The code of its type.
    pub code: &'a str,
    /// The tree that it was typed from; of a primitive its value, if it has one.
    pub json: Option<&'a Json<'j>>,
    /// Whether it has children: those of a primitive are its id and its extensions.
    pub has_kids: bool,
}
