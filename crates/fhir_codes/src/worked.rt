//! A worked package.

ghost use Rattle.std.specs.Prelude.{◌≡◌, [], ◌∷◌, None, Some, is_none, true, codes};
ghost use Rattle.std.specs.List.{list_all};
ghost use Rattle.fhir_codes.specs.Concepts.{of_system};
ghost use Rattle.fhir_codes.specs.ValueSets.{concepts_of};
ghost use Rattle.fhir_codes.specs.Example.{example, example_with, misfits, set_of};

/// What the value sets of a small package have. A code system has a and c, and b nested in a. A value set may have all of it
/// (`all`), or all without one (`without`), or all without what another value set has (`without_other`), or unite two includes
/// (`union_of`). One that lists a and b, of which it takes those that another value set of a, b and d has, without b, has a alone
/// (`both`). A code system of version 2 can be taken as that version (`same_version`). A filter isn't read (`filtered`), nor is a
/// value set that names itself (`itself`) or one that isn't there (`missing`).
pub fn examples()
    ensures all { concepts_of example (codes "urn:all") ≡ Some (set_of (codes "a" ∷ codes "b" ∷ codes "c" ∷ [])) }
    ensures without { concepts_of example (codes "urn:without") ≡ Some (set_of (codes "a" ∷ codes "c" ∷ [])) }
    ensures without_other { concepts_of example (codes "urn:without-other") ≡ Some (set_of (codes "c" ∷ [])) }
    ensures union_of { concepts_of example (codes "urn:united") ≡ Some (set_of (codes "a" ∷ codes "c" ∷ [])) }
    ensures both { concepts_of example (codes "urn:both") ≡ Some (set_of (codes "a" ∷ [])) }
    ensures same_version { concepts_of example (codes "urn:same-version") ≡ Some (of_system (codes "urn:second") (codes "a" ∷ [])) }
    ensures filtered { concepts_of example (codes "urn:filtered") ≡ None }
    ensures itself { concepts_of example (codes "urn:itself") ≡ None }
    ensures missing { concepts_of example (codes "urn:missing") ≡ None }
{}

/// Which value sets of it can't be read besides. Of code systems that are taken whole: one of another version than is named
/// (`other_version`), one that isn't there (`absent`), one that is a fragment (`fragment`) or doesn't say whether it is complete
/// (`untold`), and one that has a concept without a code (`codeless`). Of includes: concepts without a system (`systemless`), one that names neither a system
/// nor a value set (`empty`), a concept without a code (`unlisted`), and an exclude of these (`excluded`). And a value set that
/// isn't composed (`uncomposed`), and each in which a part is of another kind (`misfits`).
pub fn unread_examples()
    ensures other_version { concepts_of example (codes "urn:other-version") ≡ None }
    ensures absent { concepts_of example (codes "urn:absent") ≡ None }
    ensures fragment { concepts_of example (codes "urn:fragment") ≡ None }
    ensures untold { concepts_of example (codes "urn:untold") ≡ None }
    ensures codeless { concepts_of example (codes "urn:codeless") ≡ None }
    ensures systemless { concepts_of example (codes "urn:systemless") ≡ None }
    ensures empty { concepts_of example (codes "urn:empty") ≡ None }
    ensures unlisted { concepts_of example (codes "urn:unlisted") ≡ None }
    ensures excluded { concepts_of example (codes "urn:excluded") ≡ None }
    ensures uncomposed { concepts_of example (codes "urn:uncomposed") ≡ None }
    ensures misfits { list_all (λ t. is_none (concepts_of (example_with t) (codes "urn:more"))) misfits ≡ true }
{}
