//! Forms: the types of elements, each under a property of its own.

ghost use Rattle.std.specs.Prelude.{◌≡◌};
ghost use Rattle.fhir_forms.specs.Forms.{is_primitive};

use fhir_names::Name;
use fhir_nodes::NodeRef;
use fhir_prims::PrimType;
use std::marker::Model;

/// What the property of a form holds (FHIR R4, JSON representation of resources).
#[derive(Clone, Copy, Debug, PartialEq, Eq)]
pub enum Content {
    /// A value of a primitive type, beside which a companion may stand; and the node by which the companion is typed.
    Primitive(PrimType, Option<NodeRef>),
    /// A text of one of FHIRPath's own types.
    System,
    /// A resource, of the type that its `resourceType` names.
    Resource,
    /// An object, and the node by which it is typed.
    Complex(Option<NodeRef>),
}

impl Content {
    /// Whether it is a value of a primitive type.
    pub fn is_primitive(self) -> bool
        ensures { result ≡ is_primitive self }
    {
        match self {
            Content::Primitive(_prim, _below) => true,
            Content::System => false,
            Content::Resource => false,
            Content::Complex(_below) => false,
        }
    }
}

/// What the name of a property means at a node.
#[derive(Clone, Copy, Debug, PartialEq, Eq)]
pub struct Property {
    /// The form that it belongs to, by its place among the node's.
    pub form: usize,
    /// Whether it is the form's companion, which holds the id and the extensions of a primitive.
    pub is_companion: bool,
}

/// One type of an element: under which property it stands, and what that holds.
#[derive(Drop)]
pub struct Form {
    pub(crate) name: Name,
    pub(crate) property: String,
    pub(crate) code: String,
    pub(crate) repeats: bool,
    pub(crate) content: Content,
    // The place of its element in the definition.
    pub(crate) entry: usize,
}

impl Model for Form {
    ghost use Rattle.std.specs.Prelude.{string_bytes};
    ghost use Rattle.fhir_forms.specs.Forms.{Form as Shown};

    ghost Value = { Shown };

    ghost view = { λ f. record {
      name = f.name;
      property = string_bytes f.property;
      code = string_bytes f.code;
      repeats = f.repeats;
      content = f.content;
    } };
}

impl Form {
    /// The element's name, as `value[x]`.
    pub fn name(&self) -> &str
        ensures { result.now ≡ self.now.name }
    {
        self.name.as_str()
    }

    /// That name, to be compared with others.
    pub fn tagged_name(&self) -> &Name
        ensures { result.now ≡ self.now.name }
    {
        &self.name
    }

    /// The name of its property, as `valueString`.
    pub fn property(&self) -> &str
        ensures { result.now ≡ self.now.property }
    {
        self.property.as_str()
    }

    /// The code of the type.
    pub fn code(&self) -> &str
        ensures { result.now ≡ self.now.code }
    {
        self.code.as_str()
    }

    /// Whether the property holds an array, and not one value.
    pub fn repeats(&self) -> bool
        ensures { result ≡ self.now.repeats }
    {
        self.repeats
    }

    /// What the property holds.
    pub fn content(&self) -> Content
        ensures { result ≡ self.now.content }
    {
        self.content
    }
}
