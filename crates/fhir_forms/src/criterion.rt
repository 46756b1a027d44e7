//! What tells the items of a slice from others.

use fhir_elements::DiscriminatorType;
use fhir_json::Json;

/// What a discriminator looks for among the items at the end of its path (FHIR R4, Profiling, discriminator).
#[derive(Drop)]
pub enum Sought {
    /// One that is equal to the value.
    Fixed(Json<'static>),
    /// One that fits the pattern.
    Pattern(Json<'static>),
    /// Any item.
    Present,
    /// No item at all.
    Absent,
    /// One of a type that some of the codes covers.
    Typed(Vec<String>),
}

/// A discriminator of an element, with what it looks for in one of the element's slices (FHIR R4, ElementDefinition,
/// slicing.discriminator).
#[derive(Drop)]
pub struct Criterion {
    /// By what it tells slices apart.
    pub by: DiscriminatorType,
    /// Where that stands in an item, as it is written.
    pub path: String,
    /// The names that lead there. The path `$this` is the item itself, and has none.
    pub names: Vec<String>,
    /// What it looks for there.
    pub sought: Sought,
}
