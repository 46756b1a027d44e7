//! Targets of references (FHIR R4, ElementDefinition, type.targetProfile).

ghost use Rattle.std.specs.Prelude.{◌≡◌, ◌↔◌, None, Some, IsTrue};
ghost use Rattle.std.specs.List.{Contains};
ghost use Rattle.fhir_json.specs.Tree.{Text};
ghost use Rattle.fhir_elements.specs.TypeEntry.{TypeEntry};
ghost use Rattle.fhir_nodes.specs.declared.node.NodeRef.{NodeRef};
ghost use Rattle.fhir_schema.specs.Schemas.{SchemaValue, loaded};
ghost use Rattle.fhir_schema.specs.Covers.{covers, type_at};
ghost use Rattle.fhir_facets.specs.Seen.{Seen};
ghost use Rattle.fhir_facets.specs.Targets.{has_targets, referred_type, target_holds, targets_hold};
ghost use Rattle.fhir_facets.specs.Unread.{Meaning, target};

/// A reference that names a type may stand exactly where one of the target profiles allows that type (`named`): one of a type that covers it
/// (`used`). A target profile that isn't there, or can't be used, is an unread rule and never passed over (`unread`).
pub fn targets_of_references()
    ensures named { (s : SchemaValue) (m : Meaning) (e : TypeEntry) (x : Seen) (type : Text) → IsTrue (has_targets e)
        → referred_type x ≡ Some type → IsTrue (targets_hold s m e x)
        ↔ ((canonical : Text) × (Contains e.targets canonical) × IsTrue (target_holds s m type canonical)) }
    ensures used { (s : SchemaValue) (m : Meaning) (type canonical : Text) (r : NodeRef) → loaded s canonical ≡ Some r
        → target_holds s m type canonical ≡ covers s (type_at s r) type }
    ensures unread { (s : SchemaValue) (m : Meaning) (type canonical : Text) → loaded s canonical ≡ None
        → target_holds s m type canonical ≡ m (target canonical) }
{}
