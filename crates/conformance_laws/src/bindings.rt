//! Required bindings (FHIR R4, ElementDefinition, binding; Terminologies, required).

ghost use Rattle.std.specs.Prelude.{◌≡◌, ◌↔◌, None, Some, IsTrue, codes};
ghost use Rattle.std.specs.List.{Contains};
ghost use Rattle.std.specs.FinSet as set;
ghost use Rattle.fhir_json.specs.Tree.{Text, Tree};
ghost use Rattle.fhir_json.specs.Fields.{text_in, items_in};
ghost use Rattle.fhir_codes.specs.Concepts.{Concepts, concept};
ghost use Rattle.fhir_facets.specs.declared.lookup.Lookup.{Lookup};
ghost use Rattle.fhir_facets.specs.Bindings.{Binding, lookup_of, has_coding, has_one_coding, is_in, binding_holds};
ghost use Rattle.fhir_facets.specs.Seen.{Seen};
ghost use Rattle.fhir_facets.specs.Unread.{Meaning, binding};

/// A required binding holds exactly where the value is in the set, if the set is known and the value is looked up in one (`known`). Else it
/// is an unread rule and never passed over (`unknown`, `not_looked_up`).
pub fn bindings_to_sets()
    ensures known { (m : Meaning) (b : Binding) (x : Seen) (s : Concepts) (how : Lookup) → b.concepts ≡ Some s → lookup_of x ≡ Some how
        → binding_holds m b x ≡ is_in how s x }
    ensures unknown { (m : Meaning) (b : Binding) (x : Seen) → b.concepts ≡ None → binding_holds m b x ≡ m (binding b.canonical) }
    ensures not_looked_up { (m : Meaning) (b : Binding) (x : Seen) → lookup_of x ≡ None → binding_holds m b x ≡ m (binding b.canonical) }
{}

/// A Coding is in a set exactly where its system and its code are one of the concepts (`coding`), and a CodeableConcept where one of its
/// codings is (`one_coding`).
pub fn codings_in_sets()
    ensures coding { (s : Concepts) (t : Tree) → IsTrue (has_coding s t)
        ↔ ((system : Text) × (code : Text) × (text_in (codes "system") t ≡ Some system) × (text_in (codes "code") t ≡ Some code)
        × IsTrue (set.contains s (concept system code))) }
    ensures one_coding { (s : Concepts) (t : Tree) → IsTrue (has_one_coding s t)
        ↔ ((coding : Tree) × (Contains (items_in (codes "coding") t) coding) × IsTrue (has_coding s coding)) }
{}
