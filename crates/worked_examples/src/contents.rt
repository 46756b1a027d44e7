//! Content references and companions at work.

ghost use Rattle.std.specs.Prelude.{◌≡◌, [], ◌∷◌, true, None, Some, is_some, codes};
ghost use Rattle.fhir_json.specs.Tree.{no_members};
ghost use Rattle.fhir_elements.specs.declared.reason.Reason.TheVariants as reasons;
ghost use Rattle.fhir_schema.specs.Schemas.{holder, child_holder};
ghost use Rattle.fhir_instance.specs.Typing.{resource};
ghost use Rattle.worked_examples.specs.Schemas.{many, coded};
ghost use Rattle.worked_examples.specs.Roots.{node};
ghost use Rattle.worked_examples.specs.Contents.{refers, referring, names_below, properties_below, reason_at, identified, with_companion, nested};

/// What an element takes over from the one that it refers to (FHIR R4, ElementDefinition, contentReference). A node that has children
/// holds them itself (`itself`), and one that has none the one that it refers to (`referred`), also where that has none (`childless`);
/// one that refers to none has no holder (`none`). The value of a primitive is no child (`value`), also of an element that is of a
/// primitive type by its reference (`value_of_target`). What refers to a root isn't written in JSON (`root`).
pub fn contents_example()
    ensures itself { holder referring (node 1 4) ≡ Some (node 1 4) }
    ensures referred { holder referring (node 1 2) ≡ Some (node 1 1) }
    ensures childless { child_holder referring (node 1 2) ≡ None }
    ensures none { holder referring (node 1 1) ≡ None }
    ensures value { names_below 7 ≡ codes "f" ∷ [] }
    ensures value_of_target { names_below 4 ≡ codes "f" ∷ [] }
    ensures root { properties_below 0 ≡ codes "b" ∷ codes "c" ∷ codes "e" ∷ codes "g" ∷ [] }
{}

/// A type definition refers to elements of type definitions alone; a profile refers to any.
pub fn references_of_types()
    ensures to_a_profile { reason_at (codes "urn:A") (refers (codes "A.b") (codes "urn:P#A.c")) (many (codes "A.c") coded)
        ≡ Some reasons.MissingContent }
    ensures to_itself { reason_at (codes "urn:A") (refers (codes "A.b") (codes "#A")) (many (codes "A.c") coded) ≡ None }
    ensures of_a_profile { reason_at (codes "urn:P") (many (codes "A.b") coded) (refers (codes "A.c") (codes "urn:A#A.b")) ≡ None }
{}

/// A companion of a primitive has no companions itself, also where its id is of a primitive type.
pub fn companions_example()
    ensures plain { is_some (resource identified (with_companion no_members)) ≡ true }
    ensures nested { resource identified (with_companion nested) ≡ None }
{}
