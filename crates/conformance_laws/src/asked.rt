//! What a node asks of an item (FHIR R4, ElementDefinition; Profiling).

ghost use Rattle.std.specs.Prelude.{◌≡◌, ◌&&◌, false, IsTrue};
ghost use Rattle.fhir_nodes.specs.declared.node.NodeRef.{NodeRef};
ghost use Rattle.fhir_schema.specs.Schemas.{SchemaValue, is_root_node};
ghost use Rattle.fhir_schema.specs.Covers.{covers, type_at};
ghost use Rattle.fhir_instance.specs.Items.{Item, type_of};
ghost use Rattle.fhir_conformance.specs.Conformance.{Interpretation, Around, conforms};
ghost use Rattle.conformance_laws.specs.Asked.{has_value_of, meets_constraints_of, is_of_types, is_of_own_type, has_children_of};

use fhir_schema::roots_are_roots;

/// An item conforms to the root of a definition exactly where it is of the type that the definition defines or constrains, has a value as
/// the root asks, meets the constraints, and has children as these are asked for (FHIR R4, StructureDefinition, snapshot and type). So a
/// profile on a data type may ask for a fixed value, a pattern or a binding at its root.
pub fn items_at_roots()
    ensures { (s : SchemaValue) (meaning : Interpretation) (around : Around) (x : Item) (n : NodeRef) → IsTrue (is_root_node s n)
        → conforms s meaning around x n ≡ (covers s (type_at s n) (type_of x) && (has_value_of s meaning around x n
        && (meets_constraints_of s meaning around x n && has_children_of s meaning around x n))) }
{
    roots_are_roots();
}

/// An item conforms to another element exactly where it is of one of the element's types, and of its profiles; has a value as the element
/// asks; meets the element's constraints, and those of the element that it refers to for its content; conforms to the definition of its own
/// type; and has children as these are asked for (FHIR R4, ElementDefinition, type, contentReference, fixed[x], pattern[x], minValue[x],
/// maxValue[x], maxLength, binding and constraint).
pub fn items_at_elements()
    ensures { (s : SchemaValue) (meaning : Interpretation) (around : Around) (x : Item) (n : NodeRef) → is_root_node s n ≡ false
        → conforms s meaning around x n ≡ (is_of_types s meaning around x n && (has_value_of s meaning around x n
        && (meets_constraints_of s meaning around x n && (is_of_own_type s meaning around x && has_children_of s meaning around x n)))) }
{
    roots_are_roots();
}
