//! What a child has that the base doesn't have (FHIR R4, Profiling, snapshots).

ghost use Rattle.std.specs.Prelude.{◌≡◌, None, Some, true, codes};
ghost use Rattle.fhir_json.specs.Tree.{Text};
ghost use Rattle.fhir_json.specs.Bytes.{line_feed};
ghost use Rattle.fhir_names.specs.Texts.{lacks};
ghost use Rattle.fhir_names.specs.Parents.{name_of};
ghost use Rattle.fhir_package.specs.Definitions.{Definitions};
ghost use Rattle.fhir_inheritance.specs.Node.{Node};
ghost use Rattle.fhir_inheritance.specs.Sources.{only_type_key, target_key};
ghost use Rattle.fhir_inheritance.specs.Keys.{key, child_id, twin_of};
ghost use Rattle.fhir_snapshot.specs.Order.{IsAt};
ghost use Rattle.snapshot_laws.specs.Children.{IsInherited, IsNewChild};

use fhir_asking::one_answer;
use fhir_inheritance::NodeDef;
use fhir_overlay::constraints_stay;

/// A child that the base doesn't have is like the child of its name that stands under the same element without its last slice
/// (`of_sliced`). Where no slice is above it, it is like that of the element's only type (`of_type`), and where the element has no type that
/// is the only one, like that of the element to which it refers for its content (`of_content`). What the differential doesn't say of it,
/// that one says; and where neither says how it is sliced, that goes by its name.
pub fn new_children()
    ensures of_sliced { (p : Definitions) (url id sliced : Text) (parent n r : Node) (child : IsNewChild p url id parent n)
        → twin_of child.up ≡ Some sliced → lacks line_feed sliced ≡ true → IsAt p url (child_id sliced (name_of id)) r
        → IsInherited child.source.elements id r n }
    ensures of_type { (p : Definitions) (url id root kind : Text) (parent n r : Node) (child : IsNewChild p url id parent n)
        → twin_of child.up ≡ None → only_type_key p parent.element.types ≡ Some (key root kind) → lacks line_feed root ≡ true
        → IsAt p kind (child_id root (name_of id)) r → IsInherited child.source.elements id r n }
    ensures of_content { (p : Definitions) (url id target other : Text) (parent n r : Node) (child : IsNewChild p url id parent n)
        → twin_of child.up ≡ None → only_type_key p parent.element.types ≡ None → target_key p url parent.element ≡ Some (key target other)
        → lacks line_feed target ≡ true → IsAt p other (child_id target (name_of id)) r
        → IsInherited child.source.elements id r n }
{
    one_answer::<NodeDef>();
    constraints_stay();
}

/// The id of the same element without its last slice, by small ids: where the id is that of a slice (`slice`), or stands below one (`below`);
/// of several slices the last one goes (`last`), also where its name has colons (`colons`). An id without slices has none (`none`).
pub fn ids_without_a_slice()
    ensures slice { twin_of (codes "A.b:s") ≡ Some (codes "A.b") }
    ensures below { twin_of (codes "A.b:s.c.d") ≡ Some (codes "A.b.c.d") }
    ensures last { twin_of (codes "A.b:s.c:t.d") ≡ Some (codes "A.b:s.c.d") }
    ensures colons { twin_of (codes "A.b:s:t.c") ≡ Some (codes "A.b.c") }
    ensures none { twin_of (codes "A.b.c") ≡ None }
{}
