//! How many items there may be (FHIR R4, ElementDefinition, min and max).

ghost use Rattle.std.specs.Prelude.{◌≡◌, ◌↔◌, ◌≤◌, ℕ, Some, IsTrue};
ghost use Rattle.fhir_elements.specs.Element.{Element};
ghost use Rattle.fhir_elements.specs.declared.max.Max.TheVariants.{Unbounded, UpTo};
ghost use Rattle.fhir_facets.specs.Cardinality.{are_enough, are_within};

/// Items are enough exactly where they are `min` at least (`least`), and not too many where they are `max` at most (`most`), or where that
/// is `*` (`unbounded`).
pub fn numbers_of_items()
    ensures least { (e : Element) (least n : ℕ) → e.min ≡ Some least → IsTrue (are_enough e n) ↔ (least ≤ n) }
    ensures most { (e : Element) (most n : ℕ) → e.max ≡ Some (UpTo most) → IsTrue (are_within e n) ↔ (n ≤ most) }
    ensures unbounded { (e : Element) (n : ℕ) → e.max ≡ Some Unbounded → IsTrue (are_within e n) }
{}
