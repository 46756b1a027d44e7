//! Elements that are misspelt.

ghost use Rattle.std.specs.Prelude.{◌≡◌, true};
ghost use Rattle.conformance_laws.specs.Fields.{are_wrong, wrong_texts, wrong_numbers, doubled_choices, wrong_types, wrong_constraints, wrong_bindings, wrong_slicings};

/// A field of another kind than the standard's, or a word that its table doesn't have, is never passed over as if nothing stood there: the
/// element is none, so that its definition can't be used and says yes to nothing (FHIR R4, ElementDefinition; JSON representation of
/// resources). So it is of texts (`texts`), of numbers (`numbers`), of a choice that has two forms (`choices`), of types (`types`), of
/// constraints, as where a severity is `Error` (`constraints`), of bindings, as where a strength is `Required` (`bindings`), and of slicings, as
/// where the rules are `Closed` (`slicings`).
pub fn misspelt_fields()
    ensures texts { are_wrong wrong_texts ≡ true }
    ensures numbers { are_wrong wrong_numbers ≡ true }
    ensures choices { are_wrong doubled_choices ≡ true }
    ensures types { are_wrong wrong_types ≡ true }
    ensures constraints { are_wrong wrong_constraints ≡ true }
    ensures bindings { are_wrong wrong_bindings ≡ true }
    ensures slicings { are_wrong wrong_slicings ≡ true }
{}
