//! Conforming (FHIR R4, Profiling and ElementDefinition).

ghost use Rattle.std.specs.Prelude.{◌≡◌, ◌↔◌, ◌⊎◌, Bool, List, [], IsTrue};
ghost use Rattle.std.specs.List.{Contains, list_all};
ghost use Rattle.fhir_json.specs.Tree.{Text};
ghost use Rattle.fhir_nodes.specs.declared.node.NodeRef.{NodeRef};
ghost use Rattle.fhir_schema.specs.Schemas.{SchemaValue};
ghost use Rattle.fhir_instance.specs.Items.{Item};
ghost use Rattle.fhir_facets.specs.Unread.{Meaning};
ghost use Rattle.fhir_conformance.specs.Asks.{kids_asks, asks};
ghost use Rattle.fhir_conformance.specs.Conformance.{Interpretation, Around, profile_holds, profiles_hold, ask_conforms, conforms};
ghost use Rattle.further_laws.specs.Children.{slots_hold};

use fhir_schema::roots_are_roots;

/// Of the profiles that a type names the item conforms to one, where there are any.
pub fn one_of_several_profiles()
    ensures { (s : SchemaValue) (m : Meaning) (roots : NodeRef → Bool) (x : Item) (profiles : List Text)
        → IsTrue (profiles_hold s m roots x profiles)
        ↔ ((profiles ≡ []) ⊎ ((p : Text) × (Contains profiles p) × IsTrue (profile_holds s m roots x p))) }
{}

/// All that a node asks of an item's children holds exactly where, of each name that these may have, they are enough and not too many,
/// each conforms to the element of that name, none is in two slices, those in a slice conform to it and are enough and not too many,
/// each is in a slice where the slicing is closed, they stand in the order of the slices where it is ordered, so that the places of
/// these in the definition never go down, and none in a slice stands behind one that is in none where it is open at its end.
pub fn children_by_name()
    ensures { (s : SchemaValue) (meaning : Interpretation) (around : Around) (x : Item) (n : NodeRef)
        → list_all (ask_conforms s meaning around x) (kids_asks s x n) ≡ slots_hold s meaning around x n }
{}

/// An item conforms to a node exactly where each thing that the node asks of it holds.
pub fn all_asks()
    ensures { (s : SchemaValue) (meaning : Interpretation) (around : Around) (x : Item) (n : NodeRef)
        → conforms s meaning around x n ≡ list_all (ask_conforms s meaning around x) (asks s x n) }
{
    roots_are_roots();
}
