//! The objects that are looked into.

ghost use Rattle.std.specs.Prelude.{◌≡◌};
ghost use Rattle.fhir_unrecognized.specs.Objects.{object_text};

/// Which object of a definition a member stands in.
#[derive(Clone, Copy, Debug, PartialEq, Eq)]
pub enum Object {
    /// A StructureDefinition itself (<https://hl7.org/fhir/R4/structuredefinition.html>).
    StructureDefinition,
    /// A ValueSet itself (<https://hl7.org/fhir/R4/valueset.html>).
    ValueSet,
    /// A CodeSystem itself (<https://hl7.org/fhir/R4/codesystem.html>).
    CodeSystem,
    /// The `snapshot` of a StructureDefinition.
    Snapshot,
    /// The `differential` of a StructureDefinition.
    Differential,
    /// An element of a snapshot or a differential (<https://hl7.org/fhir/R4/elementdefinition.html>).
    Element,
    /// A `type` of an element.
    ElementType,
    /// The `binding` of an element.
    Binding,
    /// A `constraint` of an element.
    Constraint,
    /// The `slicing` of an element.
    Slicing,
    /// A `discriminator` of a slicing.
    Discriminator,
    /// The `base` of an element.
    Base,
    /// The `compose` of a ValueSet.
    Compose,
    /// An `include` or an `exclude` of a compose.
    Include,
    /// A `concept` of an include.
    ListedConcept,
    /// A `filter` of an include.
    Filter,
    /// A `concept` of a CodeSystem, or of another concept of it.
    Concept,
}

impl Object {
    /// Its name for a message, as `a binding`.
    pub fn text(self) -> &'static str
        ensures { result.now ≡ object_text self }
    {
        match self {
            Object::StructureDefinition => "the definition",
            Object::ValueSet => "the value set",
            Object::CodeSystem => "the code system",
            Object::Snapshot => "the snapshot",
            Object::Differential => "the differential",
            Object::Element => "an element",
            Object::ElementType => "a type",
            Object::Binding => "a binding",
            Object::Constraint => "a constraint",
            Object::Slicing => "a slicing",
            Object::Discriminator => "a discriminator",
            Object::Base => "a base",
            Object::Compose => "the compose",
            Object::Include => "an include",
            Object::ListedConcept => "a listed concept",
            Object::Filter => "a filter",
            Object::Concept => "a concept",
        }
    }
}
