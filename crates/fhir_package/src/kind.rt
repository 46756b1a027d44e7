//! Kinds of definitions.

/// The kinds of resources that a package keeps (FHIR R4, conformance resources).
#[derive(Clone, Copy, Debug, PartialEq, Eq)]
pub enum Kind {
    /// A type or a profile.
    StructureDefinition,
    /// A set of codes.
    ValueSet,
    /// A system of codes.
    CodeSystem,
}
