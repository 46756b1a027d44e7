//! Laws: what the definitions say of one another.

ghost use Rattle.std.specs.Prelude.{◌≡◌, ◌↔◌, ℕ, ℤ, List, Bool, true, None, Some, IsTrue, codes};
ghost use Rattle.std.specs.List.{Contains, list_all};
ghost use Rattle.fhir_json.specs.Tree.{Text, Tree};
ghost use Rattle.fhir_elements.specs.Element.{Element};
ghost use Rattle.fhir_elements.specs.TypeEntry.{TypeEntry};
ghost use Rattle.fhir_nodes.specs.declared.node.NodeRef.{NodeRef};
ghost use Rattle.fhir_schema.specs.Schemas.{SchemaValue};
ghost use Rattle.fhir_facets.specs.Bindings.{Binding, binding_to, binding_holds, binding_narrower, IsFair};
ghost use Rattle.fhir_facets.specs.Example.{reference};
ghost use Rattle.fhir_facets.specs.Cardinality.{cardinality_holds, cardinality_narrower};
ghost use Rattle.fhir_facets.specs.Order.{order_holds, order_narrower, may_be_in};
ghost use Rattle.fhir_facets.specs.Ranges.{Range, range_holds, range_narrower};
ghost use Rattle.fhir_facets.specs.Seen.{Seen};
ghost use Rattle.fhir_facets.specs.Targets.{referred_type, targets_hold, targets_narrower};
ghost use Rattle.fhir_facets.specs.Unread.{Unread, Meaning, unread_text, is_given};
ghost use Rattle.fhir_facets.specs.Values.{fixed_holds, fixed_narrower, pattern_holds, pattern_narrower, fixed_fits, length_holds, length_narrower};

use fhir_codes::{codes_of_subset, subsets};
use fhir_decimal::order_of_values;
use fhir_matching::{equivalence, fitting};
use fhir_prims::order_of_moments;
use fhir_schema::covering_codes;

/// What holds of a narrower facet holds of a wider one, whatever the unread rules mean.
pub fn narrower_holds()
    ensures fixed { (value base : Tree) (x : Seen) → IsTrue (fixed_narrower value base)
        → IsTrue (fixed_holds value x) → IsTrue (fixed_holds base x) }
    ensures pattern { (pattern base : Tree) (x : Seen) → IsTrue (pattern_narrower pattern base)
        → IsTrue (pattern_holds pattern x) → IsTrue (pattern_holds base x) }
    ensures fitted { (value pattern : Tree) (x : Seen) → IsTrue (fixed_fits value pattern)
        → IsTrue (fixed_holds value x) → IsTrue (pattern_holds pattern x) }
    ensures length { (most base : ℤ) (x : Seen) → IsTrue (length_narrower most base)
        → IsTrue (length_holds most x) → IsTrue (length_holds base x) }
    ensures range { (m : Meaning) (r base : Range) (x : Seen) → IsTrue (range_narrower r base)
        → IsTrue (range_holds m r x) → IsTrue (range_holds m base x) }
    ensures targets { (s : SchemaValue) (m : Meaning) (e base : TypeEntry) (x : Seen)
        → IsTrue (targets_narrower s e base) → IsTrue (targets_hold s m e x) → IsTrue (targets_hold s m base x) }
    // A binding, where the unread rules mean something fair.
    ensures binding { (s : SchemaValue) (m : Meaning) (own base : Text) (x : Seen) → IsFair s m
        → IsTrue (binding_narrower (binding_to s own) (binding_to s base))
        → IsTrue (binding_holds m (binding_to s own) x) → IsTrue (binding_holds m (binding_to s base) x) }
    // An order, of names that a slot's items may have: each is a slice in which items may be, or, where the narrower one isn't closed, a
    // slice of neither.
    ensures order { (s : SchemaValue) (n m : NodeRef) (names : List Text) → IsTrue (order_narrower s n m)
        → IsTrue (list_all (may_be_in s n m) names) → IsTrue (order_holds s n names) → IsTrue (order_holds s m names) }
    ensures count { (e base : Element) (n : ℕ) → IsTrue (cardinality_narrower e base)
        → IsTrue (cardinality_holds e n) → IsTrue (cardinality_holds base n) }
{
    equivalence();
    fitting();
    order_of_values();
    order_of_moments();
    covering_codes();
    codes_of_subset();
    subsets();
}

/// Each facet but bounds is as narrow as itself. So a profile that leaves an element as it is narrows it.
pub fn narrower_itself()
    ensures fixed { (value : Tree) → IsTrue (fixed_narrower value value) }
    ensures pattern { (pattern : Tree) → IsTrue (pattern_narrower pattern pattern) }
    ensures length { (most : ℤ) → IsTrue (length_narrower most most) }
    ensures cardinality { (e : Element) → IsTrue (cardinality_narrower e e) }
    ensures binding { (b : Binding) → IsTrue (binding_narrower b b) }
    ensures targets { (s : SchemaValue) (e : TypeEntry) → IsTrue (targets_narrower s e e) }
{
    equivalence();
    fitting();
}

/// A reference that isn't relative, as `#p` or `http://x/Person/1`, may have any target (FHIR R4, References, literal references).
pub fn other_references()
    ensures any { (s : SchemaValue) (m : Meaning) (e : TypeEntry) (x : Seen) → referred_type x ≡ None → IsTrue (targets_hold s m e x) }
    ensures contained { referred_type (reference (codes "#p")) ≡ None }
    ensures absolute { referred_type (reference (codes "http://x/Person/1")) ≡ None }
    ensures relative { referred_type (reference (codes "Person/1")) ≡ Some (codes "Person") }
{}

/// Where more of the unread rules hold, no facet holds of less.
pub fn positive()
    ensures range { (m larger : Meaning) (r : Range) (x : Seen) → ((u : Unread) → IsTrue (m u) → IsTrue (larger u))
        → IsTrue (range_holds m r x) → IsTrue (range_holds larger r x) }
    ensures targets { (s : SchemaValue) (m larger : Meaning) (e : TypeEntry) (x : Seen)
        → ((u : Unread) → IsTrue (m u) → IsTrue (larger u))
        → IsTrue (targets_hold s m e x) → IsTrue (targets_hold s larger e x) }
    ensures binding { (m larger : Meaning) (b : Binding) (x : Seen) → ((u : Unread) → IsTrue (m u) → IsTrue (larger u))
        → IsTrue (binding_holds m b x) → IsTrue (binding_holds larger b x) }
{}

/// Meanings by which each unread rule holds, or none does, are fair.
pub fn fair_meanings()
    ensures { (s : SchemaValue) (b : Bool) → IsFair s (λ u. b) }
{}

/// A rule is given where its whole text is one of those that a user vouches for.
pub fn given_rules()
    ensures { (texts : List Text) (rule : Unread) → (is_given texts rule ≡ true) ↔ Contains texts (unread_text rule) }
{}
