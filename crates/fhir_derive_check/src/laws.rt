//! Laws: what is found from a pair is one list, and what lies on the ways down from it.

ghost use Rattle.std.specs.Prelude.{◌≡◌, List, false};
ghost use Rattle.std.specs.List.{Contains};
ghost use Rattle.fhir_schema.specs.Schemas.{SchemaValue};
ghost use Rattle.fhir_certificate.specs.declared.pair.NodePair.{NodePair};
ghost use Rattle.fhir_certificate.specs.declared.pair.Pair.{Pair};
ghost use Rattle.fhir_certificate.specs.declared.pair.Pair.TheVariants.{Item, Kids};
ghost use Rattle.fhir_cert_check.specs.Asked.{asked_for};
ghost use Rattle.fhir_cert_check.specs.PairSet.{same_pair};
ghost use Rattle.fhir_derive_check.specs.Blaming.{IsOnTheWay, HasOthers};
ghost use Rattle.fhir_derive_check.specs.Finding.{IsDiscovery};
ghost use Rattle.fhir_derive_check.specs.Reaching.{IsTenable};

/// From one pair, one list is found.
pub fn one_discovery()
    ensures { (asks : Pair → List Pair) (root : Pair) (found others : List Pair)
        → IsDiscovery asks root found → IsDiscovery asks root others → found ≡ others }
{}

/// No pair on a way down is tenable, where the first isn't.
pub fn no_way_to_tenable_pairs()
    ensures { (s : SchemaValue) (first p : Pair) → IsOnTheWay s first p → (IsTenable s first → ⊥) → IsTenable s p → ⊥ }
{}

/// No way leads down to a pair of children where each item that asks for it has other children of its own, unless the way begins there.
pub fn no_way_past_own_children()
    ensures { (s : SchemaValue) (first : Pair) (q : NodePair) → IsOnTheWay s first (Kids q) → same_pair (Kids q) first ≡ false
        → ((p : NodePair) → Contains (asked_for s (Item p)) (Kids q) → HasOthers s p.derived q.derived) → ⊥ }
{}
