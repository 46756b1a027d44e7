//! Rules of pairs at work: whether a derived element answers what its base asks for.

ghost use Rattle.std.specs.Prelude.{◌≡◌, [], ◌∷◌, true, false, None, Some, pos, codes};
ghost use Rattle.fhir_json.specs.Tree.{no_items};
ghost use Rattle.fhir_elements.specs.declared.constraint.Severity.TheVariants.{Error, Warning};
ghost use Rattle.fhir_cert_check.specs.Rule.{fixed, length_limit, slot, cardinality, entry, slice, criteria, bounds, closed};
ghost use Rattle.fhir_cert_check.specs.Rules.{repeats, constraint_answered, constraint_rule, fixed_answers, pattern_answers, length_answers};
ghost use Rattle.worked_examples.specs.Roots.{root_answers, failing_at, child, failing_child, all_pairs, no_pairs};
ghost use Rattle.worked_examples.specs.Sliced.{sliced, slice_of, slice_x, slice_y, failing_slice};
ghost use Rattle.worked_examples.specs.Pairs.{asks, says, bare, fixed_to, like, up_to};

/// A constraint is repeated by one that must hold and has the same expression, whatever its key (`other_key`); where neither has an
/// expression, by the same key (`same_key`). A warning answers nothing (`warning`), and nothing is asked for one (`of_warning`). One without an
/// expression is answered where it is repeated alone (`unread`, `unread_other`).
pub fn constraints_of_pairs()
    ensures other_key { repeats (asks (codes "k-1") Error (codes "a")) (asks (codes "k-2") Error (codes "a")) ≡ true }
    ensures other_expression { repeats (asks (codes "k-1") Error (codes "a")) (asks (codes "k-1") Error (codes "b")) ≡ false }
    ensures warning { repeats (asks (codes "k-1") Warning (codes "a")) (asks (codes "k-1") Error (codes "a")) ≡ false }
    ensures same_key { repeats (says (codes "k-1")) (says (codes "k-1")) ≡ true }
    ensures key_alone { repeats (says (codes "k-1")) (says (codes "k-2")) ≡ false }
    ensures no_expression { repeats (says (codes "k-1")) (asks (codes "k-1") Error (codes "a")) ≡ false }
    ensures unread { constraint_answered (says (codes "k-1") ∷ []) (says (codes "k-1")) ≡ true }
    ensures unread_other { constraint_answered (says (codes "k-1") ∷ []) (says (codes "k-2")) ≡ false }
    ensures of_warning { constraint_rule [] (asks (codes "k-1") Warning (codes "a")) ≡ [] }
{}

/// A pattern is answered by a fixed value that fits it (`by_fixed`), and not by one that doesn't (`by_other`). A fixed value isn't
/// answered by a pattern (`by_pattern`), nor by nothing (`by_nothing`). Where the base asks for none, anything goes (`free`).
pub fn values_of_pairs()
    ensures by_fixed { pattern_answers (fixed_to (codes "a")) (like (codes "a")) ≡ true }
    ensures by_other { pattern_answers (fixed_to (codes "a")) (like (codes "b")) ≡ false }
    ensures by_pattern { fixed_answers (like (codes "a")) (fixed_to (codes "a")) ≡ false }
    ensures by_nothing { fixed_answers bare (fixed_to (codes "a")) ≡ false }
    ensures free { fixed_answers (fixed_to (codes "a")) bare ≡ true }
{}

/// A length is answered by one that is no longer.
pub fn lengths_of_pairs()
    ensures shorter { length_answers (up_to (pos 5)) (up_to (pos 7)) ≡ true }
    ensures same { length_answers (up_to (pos 7)) (up_to (pos 7)) ≡ true }
    ensures longer { length_answers (up_to (pos 7)) (up_to (pos 5)) ≡ false }
    ensures without { length_answers bare (up_to (pos 5)) ≡ false }
    ensures free { length_answers (up_to (pos 5)) bare ≡ true }
{}

/// A root is answered by the root of a type that rests on its type (FHIR R4, StructureDefinition, baseDefinition): Patient is one of
/// DomainResource and of Resource, and not the other way round; types that aren't of resources answer themselves alone.
pub fn roots_of_pairs()
    ensures next { root_answers 2 1 ≡ true }
    ensures farther { root_answers 2 0 ≡ true }
    ensures itself { root_answers 2 2 ≡ true }
    ensures turned { root_answers 1 2 ≡ false }
    ensures element { root_answers 4 3 ≡ false }
{}

/// Of two rules that fail the first in their order is told (`first`): a fixed value before a length. The length is told where it alone
/// fails (`alone`), and nothing where none does (`right`).
pub fn first_rule_of_pairs()
    ensures first { failing_at 1 ≡ Some fixed }
    ensures alone { failing_at 2 ≡ Some length_limit }
    ensures right { failing_at 3 ≡ None }
{}

/// A child of a profile that is there as often, or less often, answers its type's (`narrower`), and one that may be there more often
/// doesn't (`wider`), nor does none (`absent`). Its own pair has to be there (`unpaired`), but for one that may not be there (`forbidden`).
pub fn children_of_pairs()
    ensures narrower { failing_child all_pairs (child (codes "1") (codes "1")) ≡ None }
    ensures wider { failing_child all_pairs (child (codes "0") (codes "2")) ≡ Some (cardinality (codes "b")) }
    ensures absent { failing_child all_pairs no_items ≡ Some (slot (codes "b")) }
    ensures unpaired { failing_child no_pairs (child (codes "0") (codes "1")) ≡ Some (entry (codes "b")) }
    ensures forbidden { failing_child no_pairs (child (codes "0") (codes "0")) ≡ None }
{}

/// What slices of a type's element ask of a profile's. Where the type's are closed, so are the profile's (`open`), and a slice that the
/// type's lacks may have no items (`more`, `empty`); a closed element without slices asks for nothing (`unsliced`). Each slice of the
/// type's is one of the profile's (`missing`), told apart by the same (`other_value`), with no more items (`wider`).
pub fn slices_of_pairs()
    ensures same { failing_slice (sliced (codes "closed") (slice_x (codes "1") no_items)) (sliced (codes "closed") (slice_x (codes "1") no_items))
        ≡ None }
    ensures open { failing_slice (sliced (codes "open") (slice_x (codes "1") no_items)) (sliced (codes "closed") (slice_x (codes "1") no_items))
        ≡ Some (closed (codes "b")) }
    ensures closed { failing_slice (sliced (codes "closed") (slice_x (codes "1") no_items)) (sliced (codes "open") (slice_x (codes "1") no_items))
        ≡ None }
    ensures more { failing_slice (sliced (codes "closed") (slice_x (codes "1") (slice_y (codes "1") no_items)))
        (sliced (codes "closed") (slice_x (codes "1") no_items)) ≡ Some (closed (codes "b")) }
    ensures empty { failing_slice (sliced (codes "closed") (slice_x (codes "1") (slice_y (codes "0") no_items)))
        (sliced (codes "closed") (slice_x (codes "1") no_items)) ≡ None }
    ensures unsliced { failing_slice (sliced (codes "open") no_items) (sliced (codes "closed") no_items) ≡ None }
    ensures missing { failing_slice (sliced (codes "open") no_items) (sliced (codes "open") (slice_x (codes "1") no_items))
        ≡ Some (slice (codes "b") (codes "x")) }
    ensures wider { failing_slice (sliced (codes "open") (slice_x (codes "2") no_items)) (sliced (codes "open") (slice_x (codes "1") no_items))
        ≡ Some (bounds (codes "b") (codes "x")) }
    ensures other_value { failing_slice (sliced (codes "open") (slice_of (codes "A.b:x") (codes "1") (codes "y") no_items))
        (sliced (codes "open") (slice_x (codes "1") no_items)) ≡ Some (criteria (codes "b") (codes "x")) }
{}
