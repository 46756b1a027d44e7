//! What is known of an element of a snapshot.

ghost use Rattle.std.specs.Prelude.{◌≡◌, IfOk, map, string_bytes};
ghost use Rattle.std.specs.Option.{option_map};
ghost use Rattle.fhir_inheritance.specs.Node.{Node};
ghost use Rattle.fhir_inheritance.specs.Inheriting.{names_in};

use fhir_elements::ElementDef;
use std::marker::Model;

/// An element, and what stands under it.
#[derive(Drop)]
pub struct NodeDef {
    pub(crate) element: ElementDef,
    pub(crate) names: Vec<String>,
    pub(crate) slices: Vec<String>,
    pub(crate) touched: bool,
}

impl Model for NodeDef {
    ghost use Rattle.std.specs.Prelude.{map, string_bytes};
    ghost use Rattle.fhir_inheritance.specs.Node.{Node};

    ghost Value = { Node };

    ghost use Rattle.fhir_json.specs.Coding.{tree_code};
    ghost use Rattle.std.specs.Coded.{codes};

    ghost coded = { Prim.hlevel (codes, tree_code) };

    ghost view = { λ n. record {
      element = n.element;
      names = map string_bytes n.names.items;
      slices = map string_bytes n.slices.items;
      touched = n.touched;
    } };
}

impl NodeDef {
    /// The element.
    pub fn element(&self) -> &ElementDef
        ensures { result.now ≡ self.now.element }
    {
        &self.element
    }

    /// The names of its children, in order.
    pub fn names(&self) -> &[String]
        ensures { map string_bytes result.now ≡ self.now.names }
    {
        &self.names
    }

    /// The ids of its slices, in order.
    pub fn slices(&self) -> &[String]
        ensures { map string_bytes result.now ≡ self.now.slices }
    {
        &self.slices
    }

    /// Whether the differential has a child of it that the base doesn't have, or a slice of one.
    pub fn is_touched(&self) -> bool
        ensures { result ≡ self.now.touched }
    {
        self.touched
    }
}

/// The names of the children of a node, if it is there.
pub(crate) fn names_in(node: &Option<NodeDef>) -> &[String]
    ensures { map string_bytes result.now ≡ names_in node.now }
{
    match node {
        Some(node) => node.names(),
        None => Default::default(),
    }
}
