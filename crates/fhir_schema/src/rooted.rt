//! The law that what can be used has a root.

ghost use Rattle.std.specs.Prelude.{◌≡◌, None, IsTrue, IsSome};
ghost use Rattle.fhir_json.specs.Tree.{Text};
ghost use Rattle.fhir_package.specs.Definitions.{Definitions};
ghost use Rattle.fhir_schema.specs.Schemas.{schema_of, unusable, has_definition, root};

/// A definition that is loaded and has no reason has a root.
pub fn usable_roots()
    ensures { (p : Definitions) (url : Text) → IsTrue (has_definition (schema_of p) url) → unusable (schema_of p) url ≡ None
        → IsSome (root (schema_of p) url) }
{}
