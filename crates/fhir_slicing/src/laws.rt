//! Laws: what the definitions say of one another.

ghost use Rattle.std.specs.Prelude.{◌≡◌, false, IsTrue, codes};
ghost use Rattle.fhir_json.specs.Tree.{no_members};
ghost use Rattle.fhir_nodes.specs.declared.node.NodeRef.{NodeRef};
ghost use Rattle.fhir_schema.specs.Schemas.{SchemaValue, criteria};
ghost use Rattle.fhir_instance.specs.Items.{Item};
ghost use Rattle.fhir_slicing.specs.Belonging.{belongs};
ghost use Rattle.fhir_slicing.specs.SameCriteria.{same_criteria};
ghost use Rattle.fhir_slicing.specs.Parcels.{of_code, named, title as with_title, nameless, dated, dated_at_place, undated, of_bare_type, extension, is_of, is_in_a_slice, are_told_alike};

use fhir_matching::{equivalence, fitting};

/// Criteria that are the same give the same belonging, for each item.
pub fn equal_criteria()
    ensures same { (s : SchemaValue) (n m : NodeRef) (x : Item) → IsTrue (same_criteria s n m)
        → belongs s (criteria s n) x ≡ belongs s (criteria s m) x }
{
    equivalence();
    fitting();
}

/// Belonging at work on parcels, whose elements are sliced in one way each. A red label belongs to the slice of the red ones
/// (`by_value`), a blue one doesn't (`other_value`), and to no slice at all (`no_slice`). A sender that has the pattern and more
/// belongs to the slice of that pattern (`by_pattern`, `other_pattern`). A stamp with a date belongs to the slice of those with
/// one (`by_presence`, `not_there`), and not to that of those without (`by_absence`, `is_there`). A content belongs to the slice
/// of its type (`by_type`, `other_type`), a paper also where its type rests on the slice's (`by_base_type`), and an extension to that
/// whose profile has its url (`by_url`, `other_url`). Of two discriminators both have to hold (`by_both`, `by_one`). A value and a pattern
/// that ask for the same are told apart by two kinds of discriminators (`of_two_kinds`), and those of one slice by the same (`itself`).
pub fn belonging_examples()
    ensures by_value { IsTrue (is_of (codes "Parcel.label:red") (of_code (codes "red"))) }
    ensures other_value { is_of (codes "Parcel.label:red") (of_code (codes "blue")) ≡ false }
    ensures no_slice { is_in_a_slice (codes "Parcel.label") (of_code (codes "blue")) ≡ false }
    ensures by_pattern { IsTrue (is_of (codes "Parcel.sender:a") (named with_title)) }
    ensures other_pattern { is_of (codes "Parcel.sender:a") nameless ≡ false }
    ensures by_presence { IsTrue (is_of (codes "Parcel.stamp:dated") dated) }
    ensures not_there { is_of (codes "Parcel.stamp:dated") undated ≡ false }
    ensures by_absence { IsTrue (is_of (codes "Parcel.stamp:undated") undated) }
    ensures is_there { is_of (codes "Parcel.stamp:undated") dated ≡ false }
    ensures by_type { IsTrue (is_of (codes "Parcel.content[x]:contentCode") (of_code (codes "c"))) }
    ensures other_type { is_of (codes "Parcel.content[x]:contentCode") (named no_members) ≡ false }
    ensures by_base_type { IsTrue (is_of (codes "Parcel.paper:papers") (of_bare_type (codes "Letter"))) }
    ensures by_both { IsTrue (is_of (codes "Parcel.mark:whole") dated_at_place) }
    ensures by_one { is_of (codes "Parcel.mark:whole") dated ≡ false }
    ensures of_two_kinds { are_told_alike (codes "Parcel.label:red") (codes "Parcel.tint:red") ≡ false }
    ensures itself { IsTrue (are_told_alike (codes "Parcel.label:red") (codes "Parcel.label:red")) }
    ensures by_url { IsTrue (is_of (codes "Parcel.extension:colour") (extension (codes "urn:colour"))) }
    ensures other_url { is_of (codes "Parcel.extension:colour") (extension (codes "urn:size")) ≡ false }
{}
