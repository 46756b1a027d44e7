//! Schemas at work.

ghost use Rattle.std.specs.Prelude.{◌≡◌, true, false, None, Some, codes};
ghost use Rattle.fhir_elements.specs.declared.reason.Reason.TheVariants as reasons;
ghost use Rattle.worked_examples.specs.Schemas.{reason_of, reason_with, right, no_min, min_over_max, type_twice, id_twice, of_no_type, orphan, two_roots, no_root, no_target, own_base, sliced_by_profile, no_snapshot, second_reason, covers_type};

/// One small definition for each reason for which a definition can't be used, and one that can.
pub fn reasons_example()
    ensures usable { reason_with right ≡ None }
    ensures wrong_field { reason_with no_min ≡ Some reasons.WrongField }
    ensures min_over_max { reason_with min_over_max ≡ Some reasons.MinOverMax }
    ensures repeated_type { reason_with type_twice ≡ Some reasons.RepeatedType }
    ensures wrong_id { reason_of id_twice ≡ Some reasons.WrongId }
    ensures unusable_type { reason_with of_no_type ≡ Some reasons.UnusableType }
    ensures no_tree { reason_with orphan ≡ Some reasons.NoTree }
    ensures two_roots { reason_with two_roots ≡ Some reasons.NoTree }
    ensures no_root { reason_of no_root ≡ Some reasons.NoTree }
    ensures missing_content { reason_with no_target ≡ Some reasons.MissingContent }
    ensures base_cycle { reason_of own_base ≡ Some reasons.BaseCycle }
    ensures unsupported_slicing { reason_of sliced_by_profile ≡ Some reasons.UnsupportedSlicing }
    ensures no_snapshot { reason_of no_snapshot ≡ Some reasons.NoSnapshot }
    ensures second_type { second_reason ≡ Some reasons.SecondType }
{}

/// A type covers itself, and a type of resources those that rest on it by any number of bases, and not the other way; a type of
/// other things covers itself alone.
pub fn covering_example()
    ensures itself { covers_type (codes "Patient") (codes "Patient") ≡ true }
    ensures next { covers_type (codes "DomainResource") (codes "Patient") ≡ true }
    ensures farther { covers_type (codes "Resource") (codes "Patient") ≡ true }
    ensures turned { covers_type (codes "Patient") (codes "Resource") ≡ false }
    ensures element { covers_type (codes "Element") (codes "Name") ≡ false }
{}
