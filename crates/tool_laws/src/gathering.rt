//! What is told of a definition that isn't kept, and how the files of a new folder are called.

ghost use Rattle.std.specs.Prelude.{◌≡◌, ◌++◌, codes};
ghost use Rattle.std.specs.List.{repeat};
ghost use Rattle.fhir_json.specs.Fields.{text_in};
ghost use Rattle.fhir_matching.specs.Equality.{equal};
ghost use Rattle.fhir_package.specs.declared.kind.Kind.TheVariants.{StructureDefinition, ValueSet, CodeSystem};
ghost use Rattle.fhir_gather.specs.Gathering.{Taken, dropped_for};
ghost use Rattle.fhir_gather.specs.Written.{file_name};
ghost use Rattle.tool_laws.specs.Gathering.{taken};

/// What is told of a definition that isn't kept: its own kind and url (`kind`, `url`), where the one stands that is kept (`kept`), where it
/// stands itself (`dropped`), each with its version, if it says one, and whether the two are equal (`equal`).
pub fn what_is_dropped()
    ensures kind { (first second : Taken) → (dropped_for first second).kind ≡ second.definition.kind }
    ensures url { (first second : Taken) → (dropped_for first second).url ≡ second.definition.url }
    ensures kept { (first second : Taken) → (dropped_for first second).first
        ≡ record { folder = first.folder; file = first.file; version = text_in (codes "version") first.definition.tree } }
    ensures dropped { (first second : Taken) → (dropped_for first second).second
        ≡ record { folder = second.folder; file = second.file; version = text_in (codes "version") second.definition.tree } }
    ensures equal { (first second : Taken) → (dropped_for first second).is_equal ≡ equal first.definition.tree second.definition.tree }
{}

/// How the file of a definition is called (docs/USAGE.md, several packages in one folder): by its number, with as many digits as the last one
/// has, its kind, and what a name can have of its url (`example`, `value_set`, `code_system`), of whose bytes it has 150 at most (`long`).
pub fn names_of_files()
    ensures example { file_name 13 2 (taken StructureDefinition (codes "http://example.org/guide/Patient"))
        ≡ codes "03-StructureDefinition-http___example.org_guide_Patient.json" }
    ensures value_set { file_name 9 8 (taken ValueSet (codes "urn:A-b_c.0")) ≡ codes "9-ValueSet-urn_A-b_c.0.json" }
    ensures code_system { file_name 100 9 (taken CodeSystem (codes "a b")) ≡ codes "010-CodeSystem-a_b.json" }
    ensures long { file_name 1 0 (taken ValueSet (repeat 151 (codes "a"))) ≡ codes "1-ValueSet-" ++ (repeat 150 (codes "a") ++ codes ".json") }
{}
