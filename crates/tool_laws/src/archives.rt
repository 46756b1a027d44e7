//! The file `package.json` of a published package (npm, package.json; FHIR NPM Packages).

ghost use Rattle.std.specs.Prelude.{◌≡◌, [], ◌∷◌, None, Some, codes};
ghost use Rattle.fhir_archives.specs.Archives.{name_of, version_of, dependencies_of, no_name, lacking, other, notes};
ghost use Rattle.tool_laws.specs.Archives.{guide, guide_on, core_of, nameless, nothing_said, depends};

/// What such a file says: the package's name and version, and on which versions of which others it depends, in their order. It does not
/// depend on what it is developed with, and on nothing where it names nothing.
pub fn package_files()
    ensures name { name_of guide ≡ Some (codes "example.guide") }
    ensures version { version_of guide ≡ Some (codes "1.2.0") }
    ensures dependencies { dependencies_of guide ≡ depends (codes "hl7.fhir.r4.core") (Some (codes "4.0.1")) ∷ depends (codes "example.base") None ∷ [] }
    ensures no_name { name_of nothing_said ≡ None }
    ensures no_version { version_of nothing_said ≡ None }
    ensures no_dependencies { dependencies_of nothing_said ≡ [] }
{}

/// What is told of packages whose files name these: nothing where the package is there in the version that is asked for (`met`). One that no
/// folder is (`lacking`); one that is there in another version alone, with the first folder that has one (`other`); and one that says no
/// name (`nameless`).
pub fn unmet_dependencies()
    ensures met { notes (guide_on (codes "4.0.1") ∷ core_of (codes "core") (codes "4.0.1") ∷ []) ≡ [] }
    ensures lacking { notes (guide_on (codes "4.0.1") ∷ [])
        ≡ lacking (codes "guide") (codes "hl7.fhir.r4.core") (Some (codes "4.0.1")) ∷ [] }
    ensures other { notes (core_of (codes "first") (codes "3.0.2") ∷ core_of (codes "second") (codes "3.5.0") ∷ guide_on (codes "4.0.1") ∷ [])
        ≡ other (codes "guide") (codes "hl7.fhir.r4.core") (codes "4.0.1") (codes "first") (Some (codes "3.0.2")) ∷ [] }
    ensures nameless { notes (nameless ∷ []) ≡ no_name (codes "folder") ∷ [] }
{}
