//! Definitions that can be used.

ghost use Rattle.std.specs.Prelude.{◌≡◌, false, None, Some, IsTrue};
ghost use Rattle.fhir_json.specs.Tree.{Text};
ghost use Rattle.fhir_elements.specs.declared.reason.Reason.{Reason};
ghost use Rattle.fhir_definition.specs.Definition.{Definition};
ghost use Rattle.fhir_nodes.specs.declared.node.NodeRef.{NodeRef};
ghost use Rattle.fhir_nodes.specs.Types.{is_resource, type_of_code};
ghost use Rattle.fhir_schema.specs.Schemas.{SchemaValue, unusable, is_usable, root, type_root, loaded, resource_root};

/// What can't be used judges nothing: a definition that has a reason has no root (`none`), and the root of one that is found by its url
/// (`of_url`), by the type that it defines (`of_type`), or by a canonical (`of_canonical`), is of one that can be used.
pub fn roots_can_be_used()
    ensures none { (s : SchemaValue) (url : Text) (reason : Reason) → unusable s url ≡ Some reason → root s url ≡ None }
    ensures of_url { (s : SchemaValue) (url : Text) (n : NodeRef) → root s url ≡ Some n → IsTrue (is_usable s n.definition) }
    ensures of_type { (s : SchemaValue) (code : Text) (n : NodeRef) → type_root s code ≡ Some n → IsTrue (is_usable s n.definition) }
    ensures of_canonical { (s : SchemaValue) (canonical : Text) (n : NodeRef) → loaded s canonical ≡ Some n → IsTrue (is_usable s n.definition) }
{}

/// A resource is of a type of resources that isn't abstract, and is typed by the root of that type's definition (FHIR R4,
/// StructureDefinition, kind and abstract).
pub fn concrete_resources()
    ensures { (s : SchemaValue) (code : Text) (n : NodeRef) → resource_root s code ≡ Some n
        → (d : Definition) × (type_of_code s.definitions code ≡ Some d) × IsTrue (is_resource d) × (d.abstract ≡ false) × (type_root s code ≡ Some n) }
{}
