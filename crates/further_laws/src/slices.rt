//! Slices (FHIR R4, Profiling, slicing).

ghost use Rattle.std.specs.Prelude.{◌≡◌, ◌<◌, IsTrue, Some, length, map, is_none};
ghost use Rattle.std.specs.List.{slice_get};
ghost use Rattle.fhir_package.specs.Definitions.{Definitions};
ghost use Rattle.fhir_elements.specs.Element.{Element};
ghost use Rattle.fhir_definition.specs.Definition.{Definition};
ghost use Rattle.fhir_nodes.specs.declared.node.NodeRef.{NodeRef};
ghost use Rattle.fhir_nodes.specs.Slots.{slots_of};
ghost use Rattle.fhir_forms.specs.Slicings.{discriminators_of};
ghost use Rattle.fhir_forms.specs.Criteria.{Criterion, criterion_of, sliced_at};
ghost use Rattle.fhir_schema.specs.Schemas.{SchemaValue, schema_of, has, criteria};
ghost use Rattle.fhir_instance.specs.Items.{Item};
ghost use Rattle.fhir_slicing.specs.Belonging.{two_slices, is_apart};

/// A slice of a definition that can be used has one criterion for each discriminator of the element that it is a slice of, in their
/// order (`each`), and at least one (`some`).
pub fn criteria_of_slices()
    ensures each { (p : Definitions) (n : NodeRef) (d : Definition) (sliced : Element) → IsTrue (has (schema_of p) n)
        → slice_get (schema_of p).definitions n.definition ≡ Some d → sliced_at d.elements n.element ≡ Some sliced
        → map (λ c. Some c) (criteria (schema_of p) n)
        ≡ map (criterion_of (slots_of (schema_of p).definitions d) d.elements n.element) (discriminators_of sliced) }
    ensures some { (p : Definitions) (n : NodeRef) (d : Definition) (sliced : Element) → IsTrue (has (schema_of p) n)
        → slice_get (schema_of p).definitions n.definition ≡ Some d → sliced_at d.elements n.element ≡ Some sliced
        → 0 < length (criteria (schema_of p) n) }
{}

/// Two slices of one element are told of an item exactly where it belongs to two.
pub fn items_in_two_slices()
    ensures { (s : SchemaValue) (n : NodeRef) (x : Item) → is_none (two_slices s n x) ≡ is_apart s n x }
{}
