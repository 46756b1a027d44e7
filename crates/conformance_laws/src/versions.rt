//! Versions of definitions.

ghost use Rattle.std.specs.Prelude.{◌≡◌, None, Some, codes};
ghost use Rattle.conformance_laws.specs.Versions.{found, root_of};

/// Which definition a profile of a type, a target profile or a base names (FHIR R4, Data Types, canonical): that of the url (`url`), and of
/// the version behind `|` (`same_version`), or one without a version (`no_version`). None is named by another version (`other_version`), by a
/// url that no definition has (`missing`), or by a text that is no canonical (`no_canonical`), and none that can't be used (`unusable`). So a
/// profile of another version never stands for the one that is named.
pub fn versions_of_profiles()
    ensures url { found (codes "urn:A") ≡ Some (root_of 0) }
    ensures same_version { found (codes "urn:A|2") ≡ Some (root_of 0) }
    ensures no_version { found (codes "urn:B|1") ≡ Some (root_of 1) }
    ensures other_version { found (codes "urn:A|1") ≡ None }
    ensures missing { found (codes "urn:D") ≡ None }
    ensures no_canonical { found (codes "urn:A|") ≡ None }
    ensures unusable { found (codes "urn:C|2") ≡ None }
{}
