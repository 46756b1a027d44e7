//! Typing (FHIR R4, JSON representation of resources).

ghost use Rattle.std.specs.Prelude.{◌≡◌, [], Some, false, IsTrue};
ghost use Rattle.std.specs.List.{Contains};
ghost use Rattle.fhir_json.specs.Tree.{Text};
ghost use Rattle.fhir_package.specs.Definitions.{Definitions};
ghost use Rattle.fhir_nodes.specs.declared.node.NodeRef.{NodeRef};
ghost use Rattle.fhir_forms.specs.Forms.{Form};
ghost use Rattle.fhir_schema.specs.Settling.{is_type_at};
ghost use Rattle.fhir_schema.specs.Schemas.{schema_of, has, forms, resource_root};
ghost use Rattle.further_laws.specs.Types.{below};

/// A tree is typed by type definitions alone, never by a profile: a resource begins at a node of one (`resources`), from the forms of
/// such a node typing goes on at such nodes (`onward`), and a profile's nodes have no forms (`profiles`).
pub fn typing_by_types()
    ensures resources { (p : Definitions) (code : Text) (n : NodeRef) → resource_root (schema_of p) code ≡ Some n
        → IsTrue (is_type_at (schema_of p).definitions n.definition) }
    ensures onward { (p : Definitions) (n m : NodeRef) (f : Form) → IsTrue (has (schema_of p) n) → Contains (forms (schema_of p) n) f
        → below f.content ≡ Some m → IsTrue (is_type_at (schema_of p).definitions m.definition) }
    ensures profiles { (p : Definitions) (n : NodeRef) → is_type_at (schema_of p).definitions n.definition ≡ false
        → forms (schema_of p) n ≡ [] }
{}
