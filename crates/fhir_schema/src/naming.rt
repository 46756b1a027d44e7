//! Laws on the names of nodes.

ghost use Rattle.std.specs.Prelude.{◌≡◌, ℕ, Some, is_some, IsTrue, IsUtf8};
ghost use Rattle.std.specs.List.{IsDistinct};
ghost use Rattle.std.specs.Map.{keys_of};
ghost use Rattle.std.specs.Str.{bytes_eq};
ghost use Rattle.fhir_json.specs.Tree.{Text};
ghost use Rattle.fhir_names.specs.Texts.{is_plain};
ghost use Rattle.fhir_prims.specs.Texts.{is_uri};
ghost use Rattle.fhir_package.specs.Definitions.{Definitions};
ghost use Rattle.fhir_package.specs.Changing.{AreSound};
ghost use Rattle.fhir_nodes.specs.declared.node.NodeRef.{NodeRef};
ghost use Rattle.fhir_schema.specs.Schemas.{schema_of, has, node, root, url_at, id_of_node};

/// Each node is found by the url of its definition and its id, where no url comes twice, as in each package that is read
/// from a folder, also behind changes. The url is a uri, as is each url under which a root is found, and the id has no
/// character below U+0020.
pub fn nodes_by_name()
    ensures found { (p : Definitions) (n : NodeRef) → IsDistinct bytes_eq (keys_of p.structure_definitions)
        → IsTrue (has (schema_of p) n)
        → node (schema_of p) (url_at (schema_of p) n.definition) (id_of_node (schema_of p) n) ≡ Some n }
    ensures url { (p : Definitions) (n : NodeRef) → IsTrue (has (schema_of p) n)
        → IsTrue (is_uri (url_at (schema_of p) n.definition)) }
    ensures id { (p : Definitions) (n : NodeRef) → IsTrue (has (schema_of p) n)
        → IsTrue (is_plain (id_of_node (schema_of p) n)) }
    ensures root { (p : Definitions) (url : Text) → IsTrue (is_some (root (schema_of p) url)) → IsTrue (is_uri url) }
{}

/// In the schema of a package of sound definitions the urls and ids are UTF-8, and so is the url under which a root is
/// found. A package of files is one, and stays one where a sound definition is put in or one is taken out.
pub fn names_are_utf8()
    ensures url { (p : Definitions) (place : ℕ) → AreSound p → IsUtf8 (url_at (schema_of p) place) }
    ensures id { (p : Definitions) (n : NodeRef) → AreSound p → IsUtf8 (id_of_node (schema_of p) n) }
    ensures root { (p : Definitions) (url : Text) → AreSound p
        → IsTrue (is_some (root (schema_of p) url)) → IsUtf8 url }
{}
