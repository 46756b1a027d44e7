//! What a differential says of an element holds in the snapshot, and of what it doesn't say, the base (FHIR R4, Profiling, snapshots;
//! ElementDefinition).

ghost use Rattle.std.specs.Prelude.{◌≡◌, ◌++◌, List, None, Some, IsSome, true, false};
ghost use Rattle.fhir_json.specs.Tree.{Text};
ghost use Rattle.fhir_json.specs.Bytes.{line_feed};
ghost use Rattle.fhir_names.specs.Texts.{lacks};
ghost use Rattle.fhir_elements.specs.Slicing.{Slicing};
ghost use Rattle.fhir_elements.specs.Element.{Element};
ghost use Rattle.fhir_package.specs.declared.kind.Kind.TheVariants.{StructureDefinition};
ghost use Rattle.fhir_package.specs.Definitions.{Definitions, at_url};
ghost use Rattle.fhir_package.specs.Canonical.{named_by};
ghost use Rattle.fhir_inheritance.specs.Node.{Node};
ghost use Rattle.fhir_inheritance.specs.Elements.{find};
ghost use Rattle.fhir_inheritance.specs.Sources.{Source, source_at, canonical_url};
ghost use Rattle.fhir_snapshot.specs.Order.{IsAt};
ghost use Rattle.snapshot_laws.specs.Differentials.{Holds, Inherits};

use fhir_asking::one_answer;
use fhir_inheritance::NodeDef;
use fhir_overlay::constraints_stay;

/// In a profile that is written by differential all that the differential says of an element holds of it in the snapshot (`said`),
/// whether the base has that element or it is new. What the differential doesn't say of an element of the base, the base says
/// (`inherited`).
pub fn differentials_hold()
    ensures said { (p : Definitions) (id url : Text) (s : Source) (d : Element) (n : Node) → lacks line_feed id ≡ true
        → source_at p url ≡ Some s → s.written ≡ false → find s.elements id ≡ Some d → IsAt p url id n → Holds d n.element }
    ensures inherited { (p : Definitions) (id url base : Text) (s : Source) (d : Element) (n m : Node) → lacks line_feed id ≡ true
        → source_at p url ≡ Some s → s.written ≡ false → s.base ≡ Some base → find s.elements id ≡ Some d → IsAt p base id m → IsAt p url id n
        → Inherits d m.element n.element }
{
    one_answer::<NodeDef>();
    constraints_stay();
}

/// In a profile that is written by differential an element of the base keeps its slicing, where the differential has no element of its id
/// (`stay`); and it keeps its slices, in their order and before those that come (`slices`).
pub fn slicings_stay()
    ensures stay { (p : Definitions) (id url base : Text) (s : Source) (n m : Node) (g : Slicing) → lacks line_feed id ≡ true
        → source_at p url ≡ Some s → s.written ≡ false → s.base ≡ Some base → IsAt p base id m → IsAt p url id n
        → find s.elements id ≡ None → m.element.slicing ≡ Some g → n.element.slicing ≡ Some g }
    ensures slices { (p : Definitions) (id url base : Text) (s : Source) (n m : Node) → lacks line_feed id ≡ true
        → source_at p url ≡ Some s → s.written ≡ false → s.base ≡ Some base → IsAt p base id m → IsAt p url id n
        → (added : List Text) × (n.slices ≡ m.slices ++ added) }
{
    one_answer::<NodeDef>();
}

/// A canonical leads to the definition that it names, so to one of its version (FHIR R4, References between Resources, canonical URLs):
/// where it leads to a url, it names a definition (`there`), the one of that url (`same`); where it leads to none, it names none (`none`).
pub fn bases_are_named()
    ensures there { (p : Definitions) (c url : Text) → canonical_url p c ≡ Some url → IsSome (named_by StructureDefinition c p) }
    ensures same { (p : Definitions) (c url : Text) → canonical_url p c ≡ Some url
        → named_by StructureDefinition c p ≡ at_url StructureDefinition url p }
    ensures none { (p : Definitions) (c : Text) → canonical_url p c ≡ None → named_by StructureDefinition c p ≡ None }
{}
