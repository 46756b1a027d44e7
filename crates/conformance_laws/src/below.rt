//! What stands below an element (FHIR R4, ElementDefinition, id).

ghost use Rattle.std.specs.Prelude.{◌≡◌, ◌↔◌, ◌<◌, ℕ, length, Some, IsTrue};
ghost use Rattle.std.specs.List.{slice_get, Contains};
ghost use Rattle.fhir_definition.specs.Definition.{Definition};
ghost use Rattle.fhir_definition.specs.Snapshot.{child_place, slice_place};
ghost use Rattle.fhir_definition.specs.Standing.{StandsUnder};
ghost use Rattle.fhir_nodes.specs.declared.node.NodeRef.{NodeRef};
ghost use Rattle.fhir_nodes.specs.Slots.{Slot, slot_at, slice_at, is_slot};
ghost use Rattle.fhir_schema.specs.Schemas.{SchemaValue, slots, slices};

use fhir_definition::children_and_slices;

/// Nothing that a definition says of children, or of slices, is passed over. The children of an element are exactly the elements whose ids
/// have its id in front, each under the last name of its id, but for the value of a primitive (`children`). Its slices are exactly the
/// elements whose ids name a slice of it, each under that name (`named_slices`).
pub fn elements_below()
    ensures children { (s : SchemaValue) (n : NodeRef) (d : Definition) (slot : Slot)
        → slice_get s.definitions n.definition ≡ Some d → n.element < length d.elements → Contains (slots s n) slot
        ↔ ((place : ℕ) × (StandsUnder (child_place d.elements) d.elements place n.element) × IsTrue (is_slot s.definitions d place)
        × (slot ≡ slot_at d.elements place)) }
    ensures named_slices { (s : SchemaValue) (n : NodeRef) (d : Definition) (slot : Slot)
        → slice_get s.definitions n.definition ≡ Some d → n.element < length d.elements → Contains (slices s n) slot
        ↔ ((place : ℕ) × (StandsUnder (slice_place d.elements) d.elements place n.element) × (slot ≡ slice_at d.elements place)) }
{
    children_and_slices();
}
