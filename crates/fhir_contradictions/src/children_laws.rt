//! Laws: children and slices by their names, and what is asked of each.

ghost use Rattle.std.specs.Prelude.{◌≡◌, Some, IsTrue};
ghost use Rattle.std.specs.List.{Contains};
ghost use Rattle.fhir_json.specs.Tree.{Text};
ghost use Rattle.fhir_package.specs.Definitions.{Definitions};
ghost use Rattle.fhir_nodes.specs.declared.node.NodeRef.{NodeRef};
ghost use Rattle.fhir_nodes.specs.Slots.{Slot};
ghost use Rattle.fhir_schema.specs.Schemas.{SchemaValue, schema_of, has, slots, slices, entry_of, holder, criteria, type_root};
ghost use Rattle.fhir_instance.specs.Items.{Item, kids_of};
ghost use Rattle.fhir_slicing.specs.Belonging.{belongs};
ghost use Rattle.fhir_conformance.specs.Conformance.{Interpretation, Around, conforms};
ghost use Rattle.fhir_contradictions.specs.Typing.{children_of, typed_under};
ghost use Rattle.fhir_contradictions.specs.Contradictions.{names_differ};
ghost use Rattle.fhir_contradictions.specs.Children.{Conforming, ConformingBoth};

use fhir_schema::least_closed;

/// In a definition that can be used no two children of an element have one name, and no two slices of one (FHIR R4, ElementDefinition, id).
pub fn names_apart()
    ensures children { (p : Definitions) (n : NodeRef) → IsTrue (has (schema_of p) n) → IsTrue (names_differ (slots (schema_of p) n)) }
    ensures slices { (p : Definitions) (n : NodeRef) → IsTrue (has (schema_of p) n) → IsTrue (names_differ (slices (schema_of p) n)) }
{
    least_closed();
}

/// The nodes by which items are typed are of definitions that can be used: the root of a type (`root`), and what types the children of such a
/// node's items (`below`).
pub fn usable_nodes()
    ensures root { (s : SchemaValue) (code : Text) (n : NodeRef) → type_root s code ≡ Some n → IsTrue (has s n) }
    ensures below { (p : Definitions) (by inside n : NodeRef) (name : Text) → IsTrue (has (schema_of p) by)
        → typed_under (schema_of p) by name n ≡ Some inside → IsTrue (has (schema_of p) inside) }
{
    least_closed();
}

/// Each child of an item that conforms to a node conforms to the element of its name (`element`), and to each slice of that to which it belongs
/// (`slice`) (FHIR R4, Profiling).
pub fn conforming_children()
    ensures element { (s : SchemaValue) (meaning : Interpretation) (around : Around) (x y : Item) (n h : NodeRef) (slot : Slot)
        → IsTrue (conforms s meaning around x n) → holder s n ≡ Some h → Contains (slots s h) slot
        → Contains (children_of (kids_of x)) (slot.name, y) → Conforming s meaning y (entry_of h slot) }
    ensures slice { (s : SchemaValue) (meaning : Interpretation) (around : Around) (x y : Item) (n h : NodeRef) (slot slice : Slot)
        → IsTrue (conforms s meaning around x n) → holder s n ≡ Some h → Contains (slots s h) slot
        → Contains (children_of (kids_of x)) (slot.name, y) → Contains (slices s (entry_of h slot)) slice
        → IsTrue (belongs s (criteria s (entry_of h slice)) y) → ConformingBoth s meaning y (entry_of h slot) (entry_of h slice) }
{}
