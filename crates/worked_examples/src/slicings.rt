//! Slicings at work.

ghost use Rattle.std.specs.Prelude.{◌≡◌, None, Some, codes};
ghost use Rattle.fhir_json.specs.Tree.{no_members};
ghost use Rattle.fhir_elements.specs.declared.reason.Reason.TheVariants.{UnsupportedSlicing};
ghost use Rattle.worked_examples.specs.Schemas.{coded};
ghost use Rattle.worked_examples.specs.Slicings.{sliced_by, reason_for, child, any, fixed_to_a, like_a, of_rules, ordered};

/// Which discriminators tell the items of a slice (FHIR R4, ElementDefinition, slicing.discriminator): by a value or a pattern that the
/// element at the path has (`value`, `pattern`), and not where it has none (`no_value`); by whether there is such an element, where there
/// must be one (`present`) or may be none (`absent`), and not where there may be any (`any_number`); by its type (`typed`); and not by a
/// path that leads nowhere (`nowhere`), nor by a kind that isn't read (`by_profile`).
pub fn discriminators_example()
    ensures value { reason_for (sliced_by (codes "value") (codes "c") no_members) (child (codes "0") (codes "*") fixed_to_a) ≡ None }
    ensures pattern { reason_for (sliced_by (codes "pattern") (codes "c") no_members) (child (codes "0") (codes "*") like_a) ≡ None }
    ensures no_value { reason_for (sliced_by (codes "value") (codes "c") no_members) any ≡ Some UnsupportedSlicing }
    ensures present { reason_for (sliced_by (codes "exists") (codes "c") no_members) (child (codes "1") (codes "*") coded) ≡ None }
    ensures absent { reason_for (sliced_by (codes "exists") (codes "c") no_members) (child (codes "0") (codes "0") coded) ≡ None }
    ensures any_number { reason_for (sliced_by (codes "exists") (codes "c") no_members) any ≡ Some UnsupportedSlicing }
    ensures typed { reason_for (sliced_by (codes "type") (codes "c") no_members) any ≡ None }
    ensures nowhere { reason_for (sliced_by (codes "value") (codes "d") no_members) any ≡ Some UnsupportedSlicing }
    ensures by_profile { reason_for (sliced_by (codes "profile") (codes "c") no_members) any ≡ Some UnsupportedSlicing }
{}

/// Slicings can be used whatever their rules are, and whether they are ordered or not.
pub fn orders_of_slices()
    ensures open { reason_for (sliced_by (codes "type") (codes "c") (of_rules (codes "open"))) any ≡ None }
    ensures closed { reason_for (sliced_by (codes "type") (codes "c") (of_rules (codes "closed"))) any ≡ None }
    ensures open_at_end { reason_for (sliced_by (codes "type") (codes "c") (of_rules (codes "openAtEnd"))) any ≡ None }
    ensures ordered { reason_for (sliced_by (codes "type") (codes "c") ordered) any ≡ None }
{}
