//! Names of resources, of definitions and of elements.

ghost use Rattle.std.specs.Prelude.{◌≡◌, [], ◌∷◌, map, true, false, None, Some, Ok, Err, codes};
ghost use Rattle.std.specs.List.{repeat};
ghost use Rattle.fhir_names.specs.declared.fault.NameFault.TheVariants.{Empty, SliceOfSlice, Control};
ghost use Rattle.fhir_names.specs.ResourceIds.{is_id};
ghost use Rattle.fhir_names.specs.Targets.{relative_target};
ghost use Rattle.fhir_names.specs.Canonicals.{read_canonical};
ghost use Rattle.fhir_names.specs.Ids.{read_id};
ghost use Rattle.tool_laws.specs.Names.{patient_one, named, sliced};

/// Which texts are ids of resources (FHIR R4, Data Types, id): letters, digits, `-` and `.` (`bytes`), one at least and 64 at most
/// (`longest`, `longer`).
pub fn resource_ids()
    ensures bytes { map is_id (codes "a" ∷ codes "A-z.0" ∷ codes "-" ∷ [] ∷ codes "a_b" ∷ codes "a b" ∷ codes "a/b" ∷ codes "a:b" ∷ (0xc3 ∷ 0xa9 ∷ []) ∷ [])
        ≡ true ∷ true ∷ true ∷ false ∷ false ∷ false ∷ false ∷ false ∷ false ∷ [] }
    ensures longest { is_id (repeat 64 (codes "a")) ≡ true }
    ensures longer { is_id (repeat 65 (codes "a")) ≡ false }
{}

/// Which texts refer to a resource by its type and its id (FHIR R4, References between Resources, literal references), with a version
/// (`version`) or without (`plain`). A whole url does not, nor does what has more or less than that (`none`).
pub fn relative_references()
    ensures plain { relative_target (codes "Patient/1") ≡ Some patient_one }
    ensures version { relative_target (codes "Patient/1/_history/2") ≡ Some patient_one }
    ensures none { map relative_target (codes "Patient" ∷ codes "Patient/" ∷ codes "/1" ∷ codes "/Patient/1" ∷ codes "patient/1" ∷ codes "Patient1/1" ∷ codes "Patient/1/2"
        ∷ codes "Patient/1/_history" ∷ codes "Patient/1/_history/" ∷ codes "Patient/1/history/2" ∷ codes "Patient/1/_history/2/3" ∷ codes "Patient/a_b"
        ∷ codes "#1" ∷ codes "urn:uuid:1" ∷ codes "http://example.org/Patient/1" ∷ [])
        ≡ None ∷ None ∷ None ∷ None ∷ None ∷ None ∷ None ∷ None ∷ None ∷ None ∷ None ∷ None ∷ None ∷ None ∷ None ∷ [] }
{}

/// The url and the version in a canonical (FHIR R4, Data Types, canonical): the version stands behind the last `|` (`version`, `last`).
/// Neither may be empty (`empty`), and there may be no control character (`control`).
pub fn canonicals_with_versions()
    ensures url { read_canonical (codes "http://example.org/p") ≡ Ok (codes "http://example.org/p", None) }
    ensures version { read_canonical (codes "http://example.org/p|1.0") ≡ Ok (codes "http://example.org/p", Some (codes "1.0")) }
    ensures last { read_canonical (codes "a|b|2") ≡ Ok (codes "a|b", Some (codes "2")) }
    ensures empty { map read_canonical (codes "" ∷ codes "|1" ∷ codes "a|" ∷ []) ≡ Err Empty ∷ Err Empty ∷ Err Empty ∷ [] }
    ensures control { map read_canonical (codes "a\n" ∷ codes "a|\t" ∷ []) ≡ Err Control ∷ Err Control ∷ [] }
{}

/// The segments of an element's id (FHIR R4, ElementDefinition, id): a name, and behind the first `:` the name of a slice. A name of a slice
/// within a slice (`/`) isn't read (`slice_of_slice`), and neither are empty names (`empty`) and control characters (`control`).
pub fn element_ids()
    ensures plain { read_id (codes "Patient.name.given") ≡ Ok (named (codes "Patient") ∷ named (codes "name") ∷ named (codes "given") ∷ []) }
    ensures slices { read_id (codes "Patient.extension:a:b.value[x]:valueCode")
        ≡ Ok (named (codes "Patient") ∷ sliced (codes "extension") (codes "a:b") ∷ sliced (codes "value[x]") (codes "valueCode") ∷ []) }
    ensures slice_of_slice { read_id (codes "Patient.name:a/b") ≡ Err SliceOfSlice }
    ensures empty { map read_id (codes "" ∷ codes "Patient." ∷ codes "Patient..name" ∷ codes "Patient.name:" ∷ codes "Patient.:a" ∷ [])
        ≡ Err Empty ∷ Err Empty ∷ Err Empty ∷ Err Empty ∷ Err Empty ∷ [] }
    ensures control { read_id (codes "Patient.na\nme") ≡ Err Control }
{}
