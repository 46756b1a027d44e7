//! Kinds of types.

ghost use Rattle.std.specs.Prelude.{◌≡◌};
ghost use Rattle.fhir_definition.specs.Kind.{kind_of, is_primitive_kind, is_resource_kind};

/// The kinds of types (FHIR R4, StructureDefinition, kind). Logical models aren't among them.
#[derive(Clone, Copy, Debug, PartialEq, Eq)]
pub enum TypeKind {
    /// `primitive-type`: a value without children of its own, as `string`.
    Primitive,
    /// `complex-type`: a group of elements, as `HumanName`.
    Complex,
    /// `resource`: what stands by itself, as `Patient`.
    Resource,
}

impl TypeKind {
    /// The kind that a code is.
    pub(crate) fn of(text: &str) -> Option<TypeKind>
        ensures { result ≡ kind_of text.now }
    {
        match text {
            "primitive-type" => Some(TypeKind::Primitive),
            "complex-type" => Some(TypeKind::Complex),
            "resource" => Some(TypeKind::Resource),
            _ => None,
        }
    }

    /// Whether it is that of primitive types.
    pub fn is_primitive(self) -> bool
        ensures { result ≡ is_primitive_kind self }
    {
        matches!(self, TypeKind::Primitive)
    }

    /// Whether it is that of resources.
    pub fn is_resource(self) -> bool
        ensures { result ≡ is_resource_kind self }
    {
        matches!(self, TypeKind::Resource)
    }
}
