//! Code systems at work.

ghost use Rattle.std.specs.Prelude.{◌≡◌, [], ◌∷◌, map, true, false, None, Some, codes};
ghost use Rattle.fhir_codes.specs.ValueSets.{codes_taken, can_take};
ghost use Rattle.fhir_codes.specs.Example.{example};
ghost use Rattle.worked_examples.specs.CodeSystems.{is_taken_whole, finds_second, finds_letters, elsewhere, listed_elsewhere, all_elsewhere};

/// Of which contents a code system is taken whole: `complete` alone (FHIR R4, CodeSystem, content).
pub fn code_system_contents()
    ensures { map is_taken_whole (codes "complete" ∷ codes "fragment" ∷ codes "supplement" ∷ codes "example" ∷ codes "not-present" ∷ [])
        ≡ true ∷ false ∷ false ∷ false ∷ false ∷ [] }
{}

/// Whether an include finds the code system of its url (FHIR R4, ValueSet, compose.include.version). One that names no version finds
/// any (`unversioned`), and one that names a version finds that (`same_version`) and no other (`other_version`), and a code system
/// without a version (`no_version`).
pub fn code_system_versions()
    ensures unversioned { finds_second None ≡ true }
    ensures same_version { finds_second (Some (codes "2")) ≡ true }
    ensures other_version { finds_second (Some (codes "1")) ≡ false }
    ensures no_version { finds_letters (Some (codes "1")) ≡ true }
{}

/// Codes that an include lists are taken also where their code system isn't in the package (`listed`, `taken`); all of them
/// can't be (`all`).
pub fn codes_from_elsewhere()
    ensures listed { can_take example listed_elsewhere elsewhere ≡ true }
    ensures taken { codes_taken example listed_elsewhere elsewhere ≡ codes "a" ∷ [] }
    ensures all { can_take example all_elsewhere elsewhere ≡ false }
{}
