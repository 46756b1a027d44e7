//! Canonicals of profiles and types (FHIR R4, References between Resources, canonical URLs).

ghost use Rattle.std.specs.Prelude.{◌≡◌, [], ◌∷◌, None, Some, codes};
ghost use Rattle.fhirpath_laws.specs.Versions.{places_named};

/// A canonical with a version names a definition of that version, or one that has none (`right`), and none of another version (`other`); without
/// a version it names the definition of its url, whatever its version is (`any`), and one of no definition's url names none (`none`).
pub fn versions_of_canonicals()
    ensures right { places_named (codes "urn:A|1" ∷ codes "urn:B|7" ∷ []) ≡ Some 0 ∷ Some 1 ∷ [] }
    ensures other { places_named (codes "urn:A|2" ∷ codes "urn:A|1.0" ∷ codes "urn:A|" ∷ []) ≡ None ∷ None ∷ None ∷ [] }
    ensures any { places_named (codes "urn:A" ∷ codes "urn:B" ∷ []) ≡ Some 0 ∷ Some 1 ∷ [] }
    ensures none { places_named (codes "urn:C" ∷ codes "urn:" ∷ codes "urn:AA" ∷ []) ≡ None ∷ None ∷ None ∷ [] }
{}
