//! Surveys of folders at work.

ghost use Rattle.std.specs.Prelude.{◌≡◌, [], ◌∷◌, Some, None, Err, codes};
ghost use Rattle.fhir_json.specs.declared.refusal.Expected.TheVariants as wants;
ghost use Rattle.fhir_package.specs.declared.kind.Kind.TheVariants.{ValueSet};
ghost use Rattle.fhir_package.specs.Packing.{pack, not_json as no_text, clash as two_of};
ghost use Rattle.fhir_package.specs.Surveying.{unreadable, not_json, clash, source_of, survey, refusal};
ghost use Rattle.worked_examples.specs.Positions.{at};
ghost use Rattle.worked_examples.specs.Folders.{survey_of, faults_in, right_in, plain, turned, titled, named, code_system, bundle, with_plain, with_both};

/// What is told of two different definitions of one kind and url: the file of the later one, and behind it that of the earlier, by the
/// order of the names' bytes (`order`). The earlier one is kept (`kept`), with its file (`source`), and each later one is held against
/// it (`third`). The two may stand in one file (`one_file`). Equal ones are no clash (`equal`), and one of them is kept (`once`); nor are
/// two of different kinds (`kinds`), and both of these are kept (`both`).
pub fn clashes_example()
    ensures order { faults_in ((codes "a.json", titled) ∷ (codes "B.json", plain) ∷ [])
        ≡ clash ValueSet (codes "urn:a") (codes "a.json") (codes "B.json") ∷ [] }
    ensures kept { right_in ((codes "a.json", titled) ∷ (codes "B.json", plain) ∷ []) ≡ with_plain }
    ensures source { source_of ValueSet (codes "urn:a") (survey_of ((codes "a.json", titled) ∷ (codes "B.json", plain) ∷ [])) ≡ codes "B.json" }
    ensures third { faults_in ((codes "a.json", plain) ∷ (codes "b.json", titled) ∷ (codes "c.json", named) ∷ [])
        ≡ clash ValueSet (codes "urn:a") (codes "b.json") (codes "a.json")
        ∷ clash ValueSet (codes "urn:a") (codes "c.json") (codes "a.json") ∷ [] }
    ensures one_file { faults_in ((codes "a.json", bundle plain titled) ∷ [])
        ≡ clash ValueSet (codes "urn:a") (codes "a.json") (codes "a.json") ∷ [] }
    ensures equal { faults_in ((codes "a.json", plain) ∷ (codes "b.json", turned) ∷ []) ≡ [] }
    ensures once { right_in ((codes "a.json", plain) ∷ (codes "b.json", turned) ∷ []) ≡ with_plain }
    ensures kinds { faults_in ((codes "a.json", plain) ∷ (codes "b.json", code_system) ∷ []) ≡ [] }
    ensures both { right_in ((codes "a.json", plain) ∷ (codes "b.json", code_system) ∷ []) ≡ with_both }
{}

/// A survey goes on behind each fault (`all`), also behind a file that the device didn't give (`device`), and tells each, in the order of
/// the files. What is right is kept (`right`). A folder is no package for its first fault (`packed`, `clashing`); where the device
/// didn't give a file, it is so for that (`refused`).
pub fn surveys_example()
    ensures all { faults_in ((codes "a.json", codes "[1,]") ∷ (codes "b.json", plain) ∷ (codes "c.json", titled) ∷ (codes "d.json", codes "1 2") ∷ [])
        ≡ not_json (codes "a.json") wants.Value (at 1 4)
        ∷ clash ValueSet (codes "urn:a") (codes "c.json") (codes "b.json")
        ∷ not_json (codes "d.json") wants.End (at 1 3) ∷ [] }
    ensures right { right_in ((codes "a.json", codes "[1,]") ∷ (codes "b.json", plain) ∷ (codes "c.json", titled) ∷ []) ≡ with_plain }
    ensures packed { pack ((codes "a.json", codes "[1,]") ∷ (codes "b.json", plain) ∷ (codes "c.json", titled) ∷ []) ≡ Err (no_text (codes "a.json")) }
    ensures clashing { pack ((codes "b.json", plain) ∷ (codes "c.json", titled) ∷ (codes "d.json", codes "1 2") ∷ []) ≡ Err (two_of (codes "urn:a")) }
    ensures device { (survey ((codes "a.json", Some (codes "[1,]")) ∷ (codes "b.json", None) ∷ (codes "c.json", Some (codes "1 2")) ∷ [])).faults
        ≡ not_json (codes "a.json") wants.Value (at 1 4) ∷ unreadable (codes "b.json") ∷ not_json (codes "c.json") wants.End (at 1 3) ∷ [] }
    ensures refused { refusal (survey ((codes "a.json", Some (codes "[1,]")) ∷ (codes "b.json", None) ∷ [])) ≡ Some (unreadable (codes "b.json")) }
{}
