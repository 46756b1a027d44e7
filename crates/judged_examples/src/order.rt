//! The order of the items of slices.

ghost use Rattle.std.specs.Prelude.{◌≡◌, [], ◌∷◌, map, true, false, Some, codes};
ghost use Rattle.fhir_elements.specs.declared.slicing.SlicingRules.TheVariants as slicings;
ghost use Rattle.fhir_facets.specs.Order.{ends_openly};
ghost use Rattle.fhir_conformance.specs.Conformance.{Interpretation};
ghost use Rattle.judged_examples.specs.Ordering.{judged_steps, may_stand};

/// Where a slicing is ordered, the items stand in the order of the slices (FHIR R4, ElementDefinition, slicing.ordered): in that order they
/// conform (`right`), and turned round they don't (`turned`). Several of one slice may stand behind one another (`of_one_slice`). One in no
/// slice may stand between them (`between`), and doesn't mend a wrong order (`turned_around`).
pub fn ordered_steps()
    ensures right { (meaning : Interpretation) → judged_steps meaning (codes "open") true (codes "boil" ∷ codes "fry" ∷ []) ≡ Some true }
    ensures turned { (meaning : Interpretation) → judged_steps meaning (codes "open") true (codes "fry" ∷ codes "boil" ∷ []) ≡ Some false }
    ensures of_one_slice { (meaning : Interpretation) → judged_steps meaning (codes "open") true (codes "boil" ∷ codes "boil" ∷ []) ≡ Some true }
    ensures between { (meaning : Interpretation)
        → judged_steps meaning (codes "open") true (codes "boil" ∷ codes "bake" ∷ codes "fry" ∷ []) ≡ Some true }
    ensures turned_around { (meaning : Interpretation)
        → judged_steps meaning (codes "open") true (codes "fry" ∷ codes "bake" ∷ codes "boil" ∷ []) ≡ Some false }
{}

/// Where it isn't ordered, they may stand in any order, whatever its rules are.
pub fn unordered_steps()
    ensures open { (meaning : Interpretation) → judged_steps meaning (codes "open") false (codes "fry" ∷ codes "boil" ∷ []) ≡ Some true }
    ensures closed { (meaning : Interpretation) → judged_steps meaning (codes "closed") false (codes "fry" ∷ codes "boil" ∷ []) ≡ Some true }
    ensures open_at_end { (meaning : Interpretation)
        → judged_steps meaning (codes "openAtEnd") false (codes "fry" ∷ codes "boil" ∷ []) ≡ Some true }
{}

/// Where a slicing is open at its end, an item in no slice stands behind all that are in one (FHIR R4, ElementDefinition, slicing.rules,
/// openAtEnd): behind them it conforms (`behind`), and before one it doesn't (`before`, `between`). Where it is open anywhere, it may
/// stand before one (`open`). Of the three rules `openAtEnd` alone says so (`table`).
pub fn steps_at_the_end()
    ensures behind { (meaning : Interpretation) → judged_steps meaning (codes "openAtEnd") false (codes "boil" ∷ codes "bake" ∷ []) ≡ Some true }
    ensures before { (meaning : Interpretation) → judged_steps meaning (codes "openAtEnd") false (codes "bake" ∷ codes "boil" ∷ []) ≡ Some false }
    ensures between { (meaning : Interpretation)
        → judged_steps meaning (codes "openAtEnd") false (codes "boil" ∷ codes "bake" ∷ codes "fry" ∷ []) ≡ Some false }
    ensures open { (meaning : Interpretation) → judged_steps meaning (codes "open") false (codes "bake" ∷ codes "boil" ∷ []) ≡ Some true }
    ensures table { map ends_openly (slicings.Closed ∷ slicings.Open ∷ slicings.OpenAtEnd ∷ []) ≡ false ∷ false ∷ true ∷ [] }
{}

/// The same is said by the names of the slices that the items are in, where a name that no slice has is that of an item in none: of
/// ordered slices (`right`, `turned`, `of_one_slice`), of those in any order (`unordered`), and of a slicing that is open at its end
/// (`behind`, `before`).
pub fn names_in_order()
    ensures right { may_stand (codes "open") true (codes "boil" ∷ codes "fry" ∷ []) ≡ true }
    ensures turned { may_stand (codes "open") true (codes "fry" ∷ codes "boil" ∷ []) ≡ false }
    ensures of_one_slice { may_stand (codes "open") true (codes "boil" ∷ codes "boil" ∷ []) ≡ true }
    ensures unordered { may_stand (codes "open") false (codes "fry" ∷ codes "boil" ∷ []) ≡ true }
    ensures behind { may_stand (codes "openAtEnd") false (codes "boil" ∷ codes "bake" ∷ []) ≡ true }
    ensures before { may_stand (codes "openAtEnd") false (codes "bake" ∷ codes "boil" ∷ []) ≡ false }
{}
