//! Files and canonicals at work.

ghost use Rattle.std.specs.Prelude.{◌≡◌, [], ◌∷◌, map, true, false, None, Some, codes};
ghost use Rattle.fhir_package.specs.Packing.{is_json_name, json_names};
ghost use Rattle.worked_examples.specs.Packages.{plain, versioned, found};

/// Which files of a folder are read: those whose names end in `.json`, in the order of their bytes.
pub fn file_names()
    ensures names { map is_json_name (codes "x.json" ∷ codes ".json" ∷ codes "x.JSON" ∷ codes "x.json.bak" ∷ codes "json" ∷ codes "xjson" ∷ [])
        ≡ true ∷ true ∷ false ∷ false ∷ false ∷ false ∷ [] }
    ensures order { json_names (codes "b.json" ∷ codes "a.txt" ∷ codes "B.json" ∷ codes "a.json" ∷ [])
        ≡ codes "B.json" ∷ codes "a.json" ∷ codes "b.json" ∷ [] }
{}

/// Which definition a canonical leads to: the one at the url that has no version or the one behind `|` (FHIR R4, canonical).
pub fn canonicals()
    ensures url { found (codes "urn:plain") ≡ Some plain }
    ensures no_version { found (codes "urn:plain|2") ≡ Some plain }
    ensures same_version { found (codes "urn:versioned|2") ≡ Some versioned }
    ensures other_version { found (codes "urn:versioned|1") ≡ None }
    ensures any_version { found (codes "urn:versioned") ≡ Some versioned }
    ensures missing { found (codes "urn:other") ≡ None }
{}
