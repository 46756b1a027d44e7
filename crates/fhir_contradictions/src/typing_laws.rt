//! Laws: of which types the items of an element can be.

ghost use Rattle.std.specs.Prelude.{◌≡◌, Some, IsTrue};
ghost use Rattle.std.specs.List.{Contains};
ghost use Rattle.fhir_json.specs.Tree.{Text, Tree};
ghost use Rattle.fhir_package.specs.Definitions.{Definitions};
ghost use Rattle.fhir_nodes.specs.declared.node.NodeRef.{NodeRef};
ghost use Rattle.fhir_nodes.specs.Slots.{Slot};
ghost use Rattle.fhir_schema.specs.Schemas.{SchemaValue, schema_of, slots, slices, entry_of, holder, resource_root};
ghost use Rattle.fhir_instance.specs.Items.{Item, type_of, kids_of};
ghost use Rattle.fhir_instance.specs.Typing.{Types};
ghost use Rattle.fhir_conformance.specs.Conformance.{Interpretation, Around, conforms};
ghost use Rattle.fhir_contradictions.specs.Typing.{IsTypedBy, children_of, typed_under};
ghost use Rattle.fhir_contradictions.specs.Contradictions.{names_differ, lacks_type, misses_type, fixed_misses};

use fhir_schema::{covering_codes, least_closed};

/// Which node of a type's definition types an item: a resource's the root of its type (`resource`); and where the one that types an item is
/// known, that of a child too, if the child conforms to a node by which it can be of one type alone (`below`).
pub fn typed_items()
    ensures resource { (s : SchemaValue) (t : Tree) (x : Item) (by : NodeRef) → Types s t x → resource_root s (type_of x) ≡ Some by
        → IsTypedBy s by x }
    ensures below { (p : Definitions) (meaning : Interpretation) (around : Around) (x y : Item) (by inside n : NodeRef) (name : Text)
        → IsTrue (names_differ (slots (schema_of p) by)) → IsTypedBy (schema_of p) by x
        → Contains (children_of (kids_of x)) (name, y) → IsTrue (conforms (schema_of p) meaning around y n)
        → typed_under (schema_of p) by name n ≡ Some inside → IsTypedBy (schema_of p) inside y }
{
    least_closed();
    covering_codes();
}

/// No item that a node types conforms to one of whose children an element, or a slice of it, is required and can be of none of its types (FHIR
/// R4, ElementDefinition, type).
pub fn required_types()
    ensures element { (p : Definitions) (meaning : Interpretation) (around : Around) (x : Item) (by n h : NodeRef) (slot : Slot)
        → IsTrue (names_differ (slots (schema_of p) by)) → IsTypedBy (schema_of p) by x
        → holder (schema_of p) n ≡ Some h → Contains (slots (schema_of p) h) slot
        → IsTrue (lacks_type (schema_of p) by slot.name (entry_of h slot)) → IsTrue (conforms (schema_of p) meaning around x n) → ⊥ }
    ensures slice { (p : Definitions) (meaning : Interpretation) (around : Around) (x : Item) (by n h : NodeRef) (slot slice : Slot)
        → IsTrue (names_differ (slots (schema_of p) by)) → IsTypedBy (schema_of p) by x
        → holder (schema_of p) n ≡ Some h → Contains (slots (schema_of p) h) slot
        → Contains (slices (schema_of p) (entry_of h slot)) slice
        → IsTrue (lacks_type (schema_of p) by slot.name (entry_of h slice)) → IsTrue (conforms (schema_of p) meaning around x n) → ⊥ }
{
    least_closed();
    covering_codes();
}

/// No child of an item that a node types conforms to a node whose fixed value is no value of a type that the child can have.
pub fn fixed_types()
    ensures { (p : Definitions) (meaning : Interpretation) (around : Around) (x y : Item) (by n : NodeRef) (name : Text)
        → IsTrue (names_differ (slots (schema_of p) by)) → IsTypedBy (schema_of p) by x
        → Contains (children_of (kids_of x)) (name, y)
        → IsTrue (fixed_misses (λ e. misses_type (schema_of p) by name n) (schema_of p) n)
        → IsTrue (conforms (schema_of p) meaning around y n) → ⊥ }
{
    least_closed();
    covering_codes();
}
