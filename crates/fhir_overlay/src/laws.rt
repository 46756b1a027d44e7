//! Laws: which elements are read of what is written, and what laying one over another keeps.

ghost use Rattle.std.specs.Prelude.{◌≡◌, ◌++◌, ◌||◌, List, Bool, Ok, IsTrue};
ghost use Rattle.std.specs.List.{list_all, list_any};
ghost use Rattle.fhir_json.specs.Tree.{Tree};
ghost use Rattle.fhir_json.specs.Sound.{IsSound};
ghost use Rattle.fhir_elements.specs.Constraint.{Constraint};
ghost use Rattle.fhir_elements.specs.Element.{Element, element_of};
ghost use Rattle.fhir_overlay.specs.Overlay.{same_constraint, with_constraints, all_differ, laid_over, as_slice, bounds_fit};
ghost use Rattle.fhir_overlay.specs.Json.{element_tree};
ghost use Rattle.fhir_overlay.specs.Writable.{is_writable, is_sound};

/// An element that a tree is can be written, and its bounds fit.
pub fn of_elements()
    ensures writable { (t : Tree) (e : Element) → element_of t ≡ Ok e → IsTrue (is_writable e) }
    ensures bounds { (t : Tree) (e : Element) → element_of t ≡ Ok e → IsTrue (bounds_fit e) }
{}

/// An element that can be written, and whose bounds fit, is the one that is read of its tree.
pub fn written_back()
    ensures { (e : Element) → IsTrue (is_writable e) → IsTrue (bounds_fit e) → element_of (element_tree e) ≡ Ok e }
{}

/// An element that is laid over another can be written where both can; and so can one as a slice inherits it.
pub fn laid_elements()
    ensures laid { (over under : Element) → IsTrue (is_writable over) → IsTrue (is_writable under)
        → IsTrue (is_writable (laid_over over under)) }
    ensures sliced { (e : Element) → IsTrue (is_writable e) → IsTrue (is_writable (as_slice e)) }
{}

/// The constraints that lie under others stay, in their order and before those that are added; and of each that lies over
/// them the same is there. No other comes, and where none of those under them is the same as another, none of all is.
pub fn constraints_stay()
    ensures stay { (old more : List Constraint) → (added : List Constraint) × (with_constraints old more ≡ old ++ added) }
    ensures there { (old more : List Constraint)
        → IsTrue (list_all (λ c. list_any (same_constraint c) (with_constraints old more)) more) }
    ensures only { (p : Constraint → Bool) (old more : List Constraint) → IsTrue (list_any p (with_constraints old more))
        → IsTrue (list_any p old || list_any p more) }
    ensures once { (old more : List Constraint) → IsTrue (all_differ old) → IsTrue (all_differ (with_constraints old more)) }
{}

/// An element of a sound tree is sound; laying one over another keeps that, and so does inheriting it as a slice; and a
/// sound element that can be written has a sound tree.
pub fn sound_elements()
    ensures read { (t : Tree) (e : Element) → IsSound t → element_of t ≡ Ok e → IsTrue (is_sound e) }
    ensures laid { (over under : Element) → IsTrue (is_sound over) → IsTrue (is_sound under)
        → IsTrue (is_sound (laid_over over under)) }
    ensures sliced { (e : Element) → IsTrue (is_sound e) → IsTrue (is_sound (as_slice e)) }
    ensures tree { (e : Element) → IsTrue (is_sound e) → IsTrue (is_writable e) → IsSound (element_tree e) }
{}
