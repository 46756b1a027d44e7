//! Bounds of whole numbers.

ghost use Rattle.std.specs.Prelude.{◌≡◌, true, false, codes};
ghost use Rattle.fhir_json.specs.Tree.{number};
ghost use Rattle.fhir_facets.specs.Ranges.{range_holds};
ghost use Rattle.fhir_facets.specs.Unread.{Meaning};
ghost use Rattle.fhir_facets.specs.Example.{from, to};
ghost use Rattle.judged_examples.specs.Ranges.{positive, unsigned};

/// The values of a positiveInt are whole numbers, which have an order (FHIR R4, ElementDefinition, minValue[x] and maxValue[x]). One
/// above a greatest value doesn't meet it (`above`), and one at it does (`at_most`); one below a least value doesn't meet it (`below`),
/// and one at it does (`at_least`). The same holds of bounds of the item's own type (`above_own`, `at_most_own`, `below_own`,
/// `at_least_own`).
pub fn positive_bounds()
    ensures above { (m : Meaning) → range_holds m (to (codes "maxValueInteger") (number (codes "3"))) (positive (codes "4")) ≡ false }
    ensures at_most { (m : Meaning) → range_holds m (to (codes "maxValueInteger") (number (codes "3"))) (positive (codes "3")) ≡ true }
    ensures below { (m : Meaning) → range_holds m (from (codes "minValueInteger") (number (codes "3"))) (positive (codes "2")) ≡ false }
    ensures at_least { (m : Meaning) → range_holds m (from (codes "minValueInteger") (number (codes "3"))) (positive (codes "3")) ≡ true }
    ensures above_own { (m : Meaning) → range_holds m (to (codes "maxValuePositiveInt") (number (codes "3"))) (positive (codes "4")) ≡ false }
    ensures at_most_own { (m : Meaning) → range_holds m (to (codes "maxValuePositiveInt") (number (codes "3"))) (positive (codes "3")) ≡ true }
    ensures below_own { (m : Meaning) → range_holds m (from (codes "minValuePositiveInt") (number (codes "3"))) (positive (codes "2")) ≡ false }
    ensures at_least_own { (m : Meaning) → range_holds m (from (codes "minValuePositiveInt") (number (codes "3"))) (positive (codes "3")) ≡ true }
{}

/// Those of an unsignedInt are so too.
pub fn unsigned_bounds()
    ensures above { (m : Meaning) → range_holds m (to (codes "maxValueInteger") (number (codes "3"))) (unsigned (codes "4")) ≡ false }
    ensures at_most { (m : Meaning) → range_holds m (to (codes "maxValueInteger") (number (codes "3"))) (unsigned (codes "3")) ≡ true }
    ensures below { (m : Meaning) → range_holds m (from (codes "minValueInteger") (number (codes "3"))) (unsigned (codes "2")) ≡ false }
    ensures at_least { (m : Meaning) → range_holds m (from (codes "minValueInteger") (number (codes "3"))) (unsigned (codes "3")) ≡ true }
    ensures above_own { (m : Meaning) → range_holds m (to (codes "maxValueUnsignedInt") (number (codes "3"))) (unsigned (codes "4")) ≡ false }
    ensures at_most_own { (m : Meaning) → range_holds m (to (codes "maxValueUnsignedInt") (number (codes "3"))) (unsigned (codes "3")) ≡ true }
    ensures below_own { (m : Meaning) → range_holds m (from (codes "minValueUnsignedInt") (number (codes "3"))) (unsigned (codes "2")) ≡ false }
    ensures at_least_own { (m : Meaning) → range_holds m (from (codes "minValueUnsignedInt") (number (codes "3"))) (unsigned (codes "3")) ≡ true }
{}
