//! How slices are told apart where nothing says it, and what a new slice has (FHIR R4, Profiling, slicing; ElementDefinition, slicing).

ghost use Rattle.std.specs.Prelude.{◌≡◌, List, [], map, None, Some, Ok};
ghost use Rattle.std.specs.List.{join_with_byte};
ghost use Rattle.fhir_json.specs.Tree.{Text};
ghost use Rattle.fhir_json.specs.Bytes.{dot};
ghost use Rattle.fhir_names.specs.Segments.{SegmentParts};
ghost use Rattle.fhir_names.specs.Ids.{read_id};
ghost use Rattle.fhir_elements.specs.Element.{Element};
ghost use Rattle.fhir_package.specs.Definitions.{Definitions};
ghost use Rattle.fhir_inheritance.specs.Node.{Node};
ghost use Rattle.fhir_snapshot.specs.Order.{IsAt};
ghost use Rattle.snapshot_laws.specs.Slicings.{IsUnsaid, IsSlicedByName, IsNew, IsLike};

use fhir_asking::one_answer;
use fhir_inheritance::NodeDef;
use fhir_overlay::constraints_stay;

/// In a profile that is written by differential an element that has slices is sliced also where nothing says how, neither the differential
/// nor the base: slices of extensions are told apart by the values of their urls, and those of choices by their types. Slices of any other
/// element come with no slicing that nobody says, and so does an element without slices (`IsSlicedByName`).
pub fn implied_slicings()
    ensures { (p : Definitions) (url id : Text) (n : Node) → IsUnsaid p url id n → IsSlicedByName id n }
{
    one_answer::<NodeDef>();
}

/// A slice that the base doesn't have isn't sliced itself, however its element is, where the differential doesn't say so and it has no
/// slices (`unsliced`). What the differential doesn't say of it, its element says, but for how many there have to be (`like`).
pub fn new_slices_are_elements()
    ensures unsliced { (p : Definitions) (url id whole : Text) (d : Element) (n : Node) → IsNew p url id whole d n
        → d.slicing ≡ None → n.slices ≡ [] → n.element.slicing ≡ None }
    ensures like { (p : Definitions) (url id whole : Text) (d : Element) (n w : Node) → IsNew p url id whole d n
        → IsAt p url whole w → IsLike d w.element n.element }
{
    one_answer::<NodeDef>();
    constraints_stay();
}

/// The path of a slice that the base doesn't have is its id without the names of slices, where the differential doesn't say another (FHIR
/// R4, ElementDefinition, id and path).
pub fn paths_of_new_slices()
    ensures { (p : Definitions) (url id whole : Text) (segments : List SegmentParts) (d : Element) (n : Node) → IsNew p url id whole d n
        → d.path ≡ None → read_id id ≡ Ok segments → n.element.path ≡ Some (join_with_byte dot (map (λ s. s.0) segments)) }
{}
