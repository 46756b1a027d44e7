//! Laws: what is told of an element can never hold.

ghost use Rattle.std.specs.Prelude.{◌≡◌, Some, Option, IsTrue};
ghost use Rattle.std.specs.List.{Contains};
ghost use Rattle.fhir_nodes.specs.declared.node.NodeRef.{NodeRef};
ghost use Rattle.fhir_nodes.specs.Slots.{Slot};
ghost use Rattle.fhir_package.specs.Definitions.{Definitions};
ghost use Rattle.fhir_schema.specs.Schemas.{SchemaValue, schema_of, slots, slices, entry_of, holder, criteria};
ghost use Rattle.fhir_instance.specs.Items.{Item};
ghost use Rattle.fhir_slicing.specs.Belonging.{belongs};
ghost use Rattle.fhir_conformance.specs.Conformance.{Interpretation, Around, conforms};
ghost use Rattle.fhir_contradictions.specs.declared.contradiction.Contradiction.{Contradiction as Found};
ghost use Rattle.fhir_contradictions.specs.Typing.{IsTypedIfKnown};
ghost use Rattle.fhir_contradictions.specs.Contradictions.{IsSoundValue, names_differ, asks_too_many, has_other_types, has_other_value, fixed_contradictions};

use crate::children_laws::{conforming_children, names_apart, usable_nodes};
use crate::typing_laws::typed_items;
use fhir_facets::positive;
use fhir_matching::fitting;
use fhir_schema::{covering_codes, least_closed, roots_are_roots};

/// No item conforms to an element whose fixed value another rule of the element refuses (FHIR R4, ElementDefinition, fixed[x]), whatever the
/// unread rules mean. The item's value is one that was read.
pub fn fixed_values()
    ensures { (s : SchemaValue) (meaning : Interpretation) (around : Around) (x : Item) (n : NodeRef) (c : Found)
        → IsSoundValue x → Contains (fixed_contradictions s n) c → IsTrue (conforms s meaning around x n) → ⊥ }
{
    covering_codes();
    fitting();
    positive();
}

/// No item conforms to a node of whose children an element has slices that ask for more items together than it may have (FHIR R4, Profiling,
/// slicing).
pub fn slices_together()
    ensures { (s : SchemaValue) (meaning : Interpretation) (around : Around) (x : Item) (n h : NodeRef) (slot : Slot)
        → holder s n ≡ Some h → Contains (slots s h) slot → IsTrue (names_differ (slices s (entry_of h slot)))
        → IsTrue (asks_too_many s (entry_of h slot)) → IsTrue (conforms s meaning around x n) → ⊥ }
{}

/// No item conforms to an element and to a slice of it whose types share none (FHIR R4, ElementDefinition, type).
pub fn slice_types()
    ensures { (s : SchemaValue) (meaning : Interpretation) (around : Around) (x : Item) (n slice : NodeRef)
        → IsTrue (has_other_types s n slice)
        → IsTrue (conforms s meaning around x n) → IsTrue (conforms s meaning around x slice) → ⊥ }
{
    covering_codes();
}

/// No item belongs to a slice that is told by a value at a path, and conforms to the slice and its element, of which that, or the profile of
/// the slice's type, has another fixed value there (FHIR R4, ElementDefinition, slicing.discriminator).
pub fn slice_values()
    ensures { (p : Definitions) (meaning : Interpretation) (around : Around) (x : Item) (by : Option NodeRef) (n slice : NodeRef)
        → IsTypedIfKnown (schema_of p) by x → IsTrue (has_other_value (schema_of p) by n slice)
        → IsTrue (belongs (schema_of p) (criteria (schema_of p) slice) x)
        → IsTrue (conforms (schema_of p) meaning around x n) → IsTrue (conforms (schema_of p) meaning around x slice) → ⊥ }
{
    roots_are_roots();
    least_closed();
    names_apart();
    usable_nodes();
    typed_items();
    conforming_children();
}
