//! Which ids a snapshot has (FHIR R4, Profiling, snapshots; ElementDefinition, id).

ghost use Rattle.std.specs.Prelude.{◌≡◌, List, Some, true, false};
ghost use Rattle.fhir_json.specs.Tree.{Text};
ghost use Rattle.fhir_elements.specs.Element.{Element};
ghost use Rattle.fhir_package.specs.Definitions.{Definitions};
ghost use Rattle.fhir_definition.specs.Snapshot.{ids_differ};
ghost use Rattle.fhir_inheritance.specs.Sources.{Source, source_at};
ghost use Rattle.fhir_snapshot.specs.Chains.{Rests};
ghost use Rattle.fhir_snapshot.specs.Snapshots.{IsSnapshot};
ghost use Rattle.snapshot_laws.specs.Snapshots.{Stands, AreWhole, RestsWhole};

use fhir_asking::one_answer;
use fhir_inheritance::NodeDef;
use fhir_snapshot::one_completion;

/// In a snapshot no id is there twice (`once`), and each id of the base is there (`of_base`), where the snapshots on which it rests are whole:
/// all that are brought, or the one at which the chain of bases ends, where no url has a line feed. Each id of the differential is there too
/// (`of_differential`), where all that are brought are whole: a content reference may lead into any of them.
pub fn each_id_once()
    ensures once { (p : Definitions) (url : Text) (es : List Element) → RestsWhole p url → IsSnapshot p url es → ids_differ es ≡ true }
    ensures of_base { (p : Definitions) (url base id : Text) (below es : List Element) → RestsWhole p url
        → Rests p url base → IsSnapshot p base below → IsSnapshot p url es → Stands id below → Stands id es }
    ensures of_differential { (p : Definitions) (url id : Text) (s : Source) (es : List Element) → AreWhole p
        → source_at p url ≡ Some s → s.written ≡ false → IsSnapshot p url es → Stands id s.elements → Stands id es }
{
    one_answer::<NodeDef>();
    one_completion();
}
