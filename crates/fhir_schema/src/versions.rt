//! Laws on the versions of definitions.

ghost use Rattle.std.specs.Prelude.{◌≡◌, Some, IsUtf8};
ghost use Rattle.fhir_json.specs.Tree.{Text};
ghost use Rattle.fhir_package.specs.Definitions.{Definitions};
ghost use Rattle.fhir_package.specs.Changing.{AreSound};
ghost use Rattle.fhir_schema.specs.Schemas.{schema_of};
ghost use Rattle.fhir_schema.specs.Versions.{version};

/// In the schema of a package of sound definitions the versions are UTF-8.
pub fn versions_are_utf8()
    ensures { (p : Definitions) (url text : Text) → AreSound p → version (schema_of p) url ≡ Some text → IsUtf8 text }
{}
