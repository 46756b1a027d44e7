//! What can never hold (FHIR R4, ElementDefinition).

ghost use Rattle.std.specs.Prelude.{◌≡◌, ℕ, Some, true, false, IsTrue};
ghost use Rattle.std.specs.List.{Contains};
ghost use Rattle.fhir_json.specs.Tree.{Tree};
ghost use Rattle.fhir_json.specs.Sound.{IsSound};
ghost use Rattle.fhir_package.specs.Definitions.{Definitions};
ghost use Rattle.fhir_nodes.specs.declared.node.NodeRef.{NodeRef};
ghost use Rattle.fhir_schema.specs.Schemas.{schema_of, root_in};
ghost use Rattle.fhir_instance.specs.Items.{Item};
ghost use Rattle.fhir_instance.specs.Typing.{Types};
ghost use Rattle.fhir_conformance.specs.Conformance.{Interpretation, Around, conforms};
ghost use Rattle.fhir_contradictions.specs.declared.contradiction.Contradiction.{Contradiction as Found};
ghost use Rattle.fhir_contradictions.specs.Parts.{IsPartOf};
ghost use Rattle.fhir_contradictions.specs.Listing.{contradictions};
ghost use Rattle.further_laws.specs.Standing.{StandsAt, IsPart, refuses_parents};

use crate::parts::sound_parts;
use fhir_contradictions::{
    conforming_children, fixed_types, fixed_values, names_apart, regular_types, required_types,
    slice_types, slice_values, slices_together, typed_items, usable_nodes,
};
use fhir_schema::least_closed;

/// What is told of an element of a profile can never hold. Of a part of a resource that conforms to the profile no item stands at the element
/// (`items`); or, where what is told is that something has to be there and can't be, none at the element above (`parents`). So a resource with
/// such an item violates, whatever the unread rules mean.
pub fn never_held()
    ensures items { (p : Definitions) (meaning : Interpretation) (around : Around) (t : Tree) (x y z : Item) (place : ℕ) (root n : NodeRef) (c : Found)
        → IsSound t → Types (schema_of p) t x → IsPartOf x y
        → root_in (schema_of p) place ≡ Some root → IsTrue (conforms (schema_of p) meaning around y root)
        → Contains (contradictions (schema_of p) place) (n, c) → refuses_parents c ≡ false
        → StandsAt (schema_of p) root y n z → ⊥ }
    ensures parents { (p : Definitions) (meaning : Interpretation) (around : Around) (t : Tree) (x y z : Item) (place : ℕ) (root m n : NodeRef) (c : Found)
        → Types (schema_of p) t x → IsPartOf x y
        → root_in (schema_of p) place ≡ Some root → IsTrue (conforms (schema_of p) meaning around y root)
        → Contains (contradictions (schema_of p) place) (n, c) → refuses_parents c ≡ true
        → StandsAt (schema_of p) root y m z → IsPart (schema_of p) m n → ⊥ }
{
    least_closed();
    sound_parts();
    regular_types();
    names_apart();
    usable_nodes();
    conforming_children();
    typed_items();
    required_types();
    fixed_types();
    fixed_values();
    slices_together();
    slice_types();
    slice_values();
}
