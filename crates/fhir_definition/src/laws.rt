//! Laws: what the lists of children and slices say.

ghost use Rattle.std.specs.Prelude.{List};
ghost use Rattle.fhir_elements.specs.Element.{Element};
ghost use Rattle.fhir_definition.specs.Snapshot.{child_place, slice_place};
ghost use Rattle.fhir_definition.specs.Children.{children_of, slices_of};
ghost use Rattle.fhir_definition.specs.Standing.{AreUnderEach};

/// The children of an element are those whose id has its id in front, and its slices those whose id names a slice of it: each
/// such element is in its list, and no other is.
pub fn children_and_slices()
    ensures children { (es : List Element) → AreUnderEach (child_place es) es (children_of es) }
    ensures slices { (es : List Element) → AreUnderEach (slice_place es) es (slices_of es) }
{}
