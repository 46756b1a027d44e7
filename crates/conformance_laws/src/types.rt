//! Types of items and their profiles (FHIR R4, ElementDefinition, type).

ghost use Rattle.std.specs.Prelude.{◌≡◌, ◌⊎◌, Bool, [], false, None, Some, IsTrue};
ghost use Rattle.std.specs.List.{Contains};
ghost use Rattle.fhir_json.specs.Tree.{Text};
ghost use Rattle.fhir_elements.specs.TypeEntry.{TypeEntry};
ghost use Rattle.fhir_nodes.specs.declared.node.NodeRef.{NodeRef};
ghost use Rattle.fhir_schema.specs.Schemas.{SchemaValue, is_root_node, types, loaded};
ghost use Rattle.fhir_instance.specs.Items.{Item};
ghost use Rattle.fhir_facets.specs.Unread.{Meaning, profile};
ghost use Rattle.fhir_conformance.specs.Conformance.{Interpretation, Around, profile_holds, conforms};
ghost use Rattle.conformance_laws.specs.Asked.{IsOfEntry};

use crate::asked::items_at_elements;

/// An item that conforms to an element is of one of the types that the element names, where it names any: of that type's code, with a
/// reference that may have its target, and conforming to one of its profiles, where it names any (FHIR R4, ElementDefinition, type.code,
/// type.targetProfile and type.profile).
pub fn types_of_items()
    ensures { (s : SchemaValue) (meaning : Interpretation) (around : Around) (x : Item) (n : NodeRef) → is_root_node s n ≡ false
        → IsTrue (conforms s meaning around x n)
        → (types s n ≡ []) ⊎ ((e : TypeEntry) × (Contains (types s n) e) × IsOfEntry s meaning around x e) }
{
    items_at_elements();
}

/// To conform to a profile of a type is to conform to its root (`used`). One that isn't there, or can't be used, is an unread rule and never
/// passed over (`unread`).
pub fn profiles_of_types()
    ensures used { (s : SchemaValue) (m : Meaning) (roots : NodeRef → Bool) (x : Item) (p : Text) (r : NodeRef)
        → loaded s p ≡ Some r → profile_holds s m roots x p ≡ roots r }
    ensures unread { (s : SchemaValue) (m : Meaning) (roots : NodeRef → Bool) (x : Item) (p : Text)
        → loaded s p ≡ None → profile_holds s m roots x p ≡ m (profile p) }
{}
