//! Snapshots (FHIR R4, Profiling, snapshots).

ghost use Rattle.std.specs.Prelude.{◌≡◌, ◌∷◌, ◌++◌, List, map, None, Some, true, false};
ghost use Rattle.fhir_json.specs.Tree.{Text};
ghost use Rattle.fhir_json.specs.Bytes.{line_feed};
ghost use Rattle.fhir_names.specs.Texts.{lacks};
ghost use Rattle.fhir_names.specs.Parents.{sliced_of};
ghost use Rattle.fhir_elements.specs.Constraint.{Constraint};
ghost use Rattle.fhir_elements.specs.Element.{Element};
ghost use Rattle.fhir_package.specs.Definitions.{Definitions};
ghost use Rattle.fhir_asking.specs.Asking.{Has};
ghost use Rattle.fhir_inheritance.specs.Node.{Node};
ghost use Rattle.fhir_inheritance.specs.Elements.{find};
ghost use Rattle.fhir_inheritance.specs.Lists.{is_among};
ghost use Rattle.fhir_inheritance.specs.Inheriting.{asking};
ghost use Rattle.fhir_inheritance.specs.Sources.{Source, source_at, only_type_key, target_key};
ghost use Rattle.fhir_inheritance.specs.Keys.{child_id, twin_of};
ghost use Rattle.fhir_snapshot.specs.Order.{IsAt, Lists};
ghost use Rattle.snapshot_laws.specs.Snapshots.{BringsChild};

use fhir_asking::{answers_come_of_answers, one_answer};
use fhir_inheritance::NodeDef;
use fhir_overlay::constraints_stay;

/// In a profile that is written by differential each element of the base keeps its constraints, behind which others may come
/// (`constraints`). Where the differential has no element of its id, it is the base's element, but for a slicing (`untouched`).
pub fn base_elements_stay()
    ensures constraints { (p : Definitions) (id url base : Text) (s : Source) (n m : Node) → lacks line_feed id ≡ true
        → source_at p url ≡ Some s → s.written ≡ false → s.base ≡ Some base → IsAt p base id m → IsAt p url id n
        → (added : List Constraint) × (n.element.constraints ≡ m.element.constraints ++ added) }
    ensures untouched { (p : Definitions) (id url base : Text) (s : Source) (n m : Node) → lacks line_feed id ≡ true
        → source_at p url ≡ Some s → s.written ≡ false → s.base ≡ Some base → IsAt p base id m → IsAt p url id n
        → find s.elements id ≡ None → n.element ≡ record (m.element) { slicing = n.element.slicing } }
{
    one_answer::<NodeDef>();
    answers_come_of_answers::<NodeDef>();
    constraints_stay();
}

/// A slice that the base doesn't have has a `min` of 0, unless the differential says another.
pub fn new_slices()
    ensures { (p : Definitions) (id whole url base : Text) (s : Source) (d : Element) (n : Node) → lacks line_feed id ≡ true
        → source_at p url ≡ Some s → s.written ≡ false → s.base ≡ Some base → ((m : Node) → IsAt p base id m → ⊥) → sliced_of id ≡ Some whole
        → find s.elements id ≡ Some d → d.min ≡ None → IsAt p url id n → n.element.min ≡ Some 0 }
{
    one_answer::<NodeDef>();
    answers_come_of_answers::<NodeDef>();
}

/// Where a differential has a child of an element, or a slice of one, that the base doesn't have, all children are there of the same element
/// without its last slice (`of_sliced`), of the element's only type (`of_type`), and of the element to which it refers for its content
/// (`of_content`).
pub fn siblings_come()
    ensures of_sliced { (p : Definitions) (id url sliced name : Text) (n r : Node) → lacks line_feed id ≡ true → BringsChild p url id
        → IsAt p url id n → twin_of id ≡ Some sliced → IsAt p url sliced r → is_among r.names name ≡ true → is_among n.names name ≡ true }
    ensures of_type { (p : Definitions) (id url kind name : Text) (n r : Node) → lacks line_feed id ≡ true → BringsChild p url id
        → IsAt p url id n → only_type_key p n.element.types ≡ Some kind → Has (asking p) kind (Some r)
        → is_among r.names name ≡ true → is_among n.names name ≡ true }
    ensures of_content { (p : Definitions) (id url target name : Text) (n r : Node) → lacks line_feed id ≡ true → BringsChild p url id
        → IsAt p url id n → target_key p url n.element ≡ Some target → Has (asking p) target (Some r)
        → is_among r.names name ≡ true → is_among n.names name ≡ true }
{
    one_answer::<NodeDef>();
}

/// In a snapshot an element is followed by its children, each with what stands under it. Then come its slices, each with what stands
/// under it, and only then the others.
pub fn children_then_slices()
    ensures { (p : Definitions) (url id : Text) (ids : List Text) (es : List Element) → Lists p url es (id ∷ ids)
        → (n : Node) × (children : List Element) × (slices : List Element) × (others : List Element)
        × IsAt p url id n × (es ≡ n.element ∷ (children ++ (slices ++ others)))
        × Lists p url children (map (child_id id) n.names) × Lists p url slices n.slices × Lists p url others ids }
{}
