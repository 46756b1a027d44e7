//! Items of slices.

ghost use Rattle.std.specs.Prelude.{◌≡◌, [], ◌∷◌, true, false, codes};
ghost use Rattle.judged_examples.specs.Belonging.{is_of, finding, tag};

/// A discriminator's path names a choice without its `[x]` (FHIR R4, FHIRPath, polymorphic elements): by `value` an item is found whose
/// `value[x]` is the slice's (`choice`), and one with another value isn't (`other`).
pub fn values_of_choices()
    ensures choice { is_of (codes "Case.finding:red") (finding (codes "red")) ≡ true }
    ensures other { is_of (codes "Case.finding:red") (finding (codes "blue")) ≡ false }
{}

/// Where a discriminator's path leads to several items, one that has the slice's value is enough (FHIR R4, ElementDefinition,
/// slicing.discriminator): by `coding.code` a concept belongs whose second coding has the slice's code (`second`), or its first (`first`),
/// and none does without such a coding (`others`), or without codings (`none`).
pub fn values_of_several()
    ensures second { is_of (codes "Case.tag:red") (tag (codes "blue" ∷ codes "red" ∷ [])) ≡ true }
    ensures first { is_of (codes "Case.tag:red") (tag (codes "red" ∷ codes "blue" ∷ [])) ≡ true }
    ensures others { is_of (codes "Case.tag:red") (tag (codes "blue" ∷ codes "green" ∷ [])) ≡ false }
    ensures none { is_of (codes "Case.tag:red") (tag []) ≡ false }
{}
