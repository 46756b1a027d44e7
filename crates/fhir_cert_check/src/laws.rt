//! Laws: what right pairs promise.

ghost use Rattle.std.specs.Prelude.{◌≡◌, Bool, Ok, IsTrue};
ghost use Rattle.std.specs.List.{Contains};
ghost use Rattle.fhir_json.specs.Tree.{Text};
ghost use Rattle.fhir_package.specs.Changing.{AreSound, EachOnce};
ghost use Rattle.fhir_package.specs.Definitions.{Definitions};
ghost use Rattle.fhir_nodes.specs.declared.node.NodeRef.{NodeRef};
ghost use Rattle.fhir_schema.specs.Schemas.{SchemaValue, schema_of};
ghost use Rattle.fhir_certificate.specs.declared.pair.Pair.{Pair};
ghost use Rattle.fhir_cert_check.specs.Rules.{has_item_pair, failing_rule, is_local};
ghost use Rattle.fhir_certificate.specs.Certificate.{CertificateValue};
ghost use Rattle.fhir_certificate.specs.Migrating.{migrated};
ghost use Rattle.fhir_certificate.specs.Reading.{reading};
ghost use Rattle.fhir_cert_check.specs.Checking.{IsRight, IsCertificate, answer_of};
ghost use Rattle.fhir_cert_check.specs.Asked.{asked_for, is_of_nodes};
ghost use Rattle.fhir_cert_check.specs.Inclusion.{IncludesItems, Includes};

use fhir_certificate::migrated_back;
use fhir_conformance::roots_ask_no_root;
use fhir_entail::entailed_is_true;
use fhir_facets::narrower_holds;
use fhir_schema::{covering_codes, least_closed, roots_are_roots};
use fhir_slicing::equal_criteria;

/// Where each pair of a set is right by the set, an item that conforms to the derived node of one of its pairs conforms
/// to the base node, wherever it stands and whatever unread rules mean that is fair.
pub fn inclusion()
    ensures { (s : SchemaValue) (pairs : Pair → Bool) → IsRight s pairs
        → (n m : NodeRef) → IsTrue (has_item_pair pairs n m) → IncludesItems s n m }
{
    covering_codes();
    entailed_is_true();
    narrower_holds();
    roots_are_roots();
    roots_ask_no_root();
    equal_criteria();
}

/// Each resource that conforms to the derived profile of a right certificate conforms to its base, whatever unread rules mean
/// that is fair.
pub fn certificates_include()
    ensures { (s : SchemaValue) (c : CertificateValue) → IsCertificate s c → Includes s c.derived c.base }
{
    inclusion();
}

/// The rules of a pair look at no other pairs than it asks for: where two sets of pairs have the same of those, the same rule is
/// the first that fails, and the pair is right by both sets or by neither.
pub fn rules_look_at_asked()
    ensures first { (s : SchemaValue) (some others : Pair → Bool) (p : Pair)
        → ((q : Pair) → Contains (asked_for s p) q → some q ≡ others q) → failing_rule some s p ≡ failing_rule others s p }
    ensures right { (s : SchemaValue) (some others : Pair → Bool) (p : Pair)
        → ((q : Pair) → Contains (asked_for s p) q → some q ≡ others q) → is_local some s p ≡ is_local others s p }
{}

/// A pair that is right by a set of pairs is right by each set that has all which the first has of the pairs that it asks for, as
/// a larger one has.
pub fn more_pairs()
    ensures { (s : SchemaValue) (some more : Pair → Bool) (p : Pair)
        → ((q : Pair) → Contains (asked_for s p) q → IsTrue (some q) → IsTrue (more q))
        → IsTrue (is_local some s p) → IsTrue (is_local more s p) }
{}

/// A pair of nodes of a package's schema asks for pairs of such nodes alone.
pub fn asked_are_nodes()
    ensures { (d : Definitions) (p q : Pair) → IsTrue (is_of_nodes (schema_of d) p) → Contains (asked_for (schema_of d) p) q
        → IsTrue (is_of_nodes (schema_of d) q) }
{
    least_closed();
}

/// In the schema of a package of sound definitions, each url of a kind once, the same is answered of bytes and of the text that they
/// are migrated to: that both are right, or the same first pair that fails the same rule.
pub fn migrated_alike()
    ensures { (p : Definitions) (bytes text : Text) → AreSound p → EachOnce p → migrated (schema_of p) bytes ≡ Ok text
        → answer_of (reading (schema_of p) bytes) (schema_of p) ≡ answer_of (reading (schema_of p) text) (schema_of p) }
{
    migrated_back();
}
