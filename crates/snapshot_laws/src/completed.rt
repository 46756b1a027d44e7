//! What a definition is that gets its snapshot, and a package whose definitions get theirs (FHIR R4, StructureDefinition, snapshot).

ghost use Rattle.std.specs.Prelude.{◌≡◌, List, true, All, IsTrue, codes};
ghost use Rattle.fhir_json.specs.Tree.{Text, Tree};
ghost use Rattle.fhir_json.specs.Fields.{field, is_object};
ghost use Rattle.fhir_elements.specs.Element.{Element};
ghost use Rattle.fhir_overlay.specs.Overlay.{bounds_fit};
ghost use Rattle.fhir_overlay.specs.Writable.{is_writable, is_sound};
ghost use Rattle.fhir_overlay.specs.Completed.{with_snapshot};
ghost use Rattle.fhir_package.specs.Changing.{AreSound, EachOnce};
ghost use Rattle.fhir_package.specs.Definitions.{Definitions};
ghost use Rattle.fhir_inheritance.specs.Sources.{elements_in};
ghost use Rattle.fhir_snapshot.specs.Completing.{Numbered, IsCompletion};
ghost use Rattle.fhir_snapshot.specs.Snapshots.{IsSnapshot};
ghost use Rattle.snapshot_laws.specs.Right.{AreRight};

use fhir_overlay::{laid_elements, of_elements, sound_elements, written_back};

/// A definition that gets a snapshot keeps each other field that it has, and gets no other (`others`). The elements that are read of its
/// snapshot are those that it got, where each can be written and its bounds fit (`elements`).
pub fn completed_definitions()
    ensures others { (es : List Element) (t : Tree) (name : Text) → is_object t ≡ true → ¬ (name ≡ codes "snapshot")
        → field name (with_snapshot es t) ≡ field name t }
    ensures elements { (es : List Element) (t : Tree) → All (λ e. IsTrue (is_writable e)) es → All (λ e. IsTrue (bounds_fit e)) es
        → elements_in (codes "snapshot") (with_snapshot es t) ≡ es }
{
    written_back();
}

/// Where a package is sound, and its definitions are right, each element of a snapshot is sound and can be written (`elements`). So the elements that are
/// read of a definition which gets a snapshot are those of the snapshot (`read`), the package is sound when it is completed (`sound`), and no url
/// comes twice in it (`once`).
pub fn completed_packages()
    ensures elements { (p : Definitions) (url : Text) (es : List Element) → AreSound p → AreRight p → IsSnapshot p url es
        → All (λ e. IsTrue (is_sound e) × IsTrue (is_writable e)) es }
    ensures read { (p : Definitions) (url : Text) (es : List Element) (t : Tree) → AreSound p → AreRight p → IsSnapshot p url es
        → elements_in (codes "snapshot") (with_snapshot es t) ≡ es }
    ensures sound { (old new : Definitions) (faults : Numbered) → AreSound old → AreRight old → IsCompletion old new faults
        → AreSound new }
    ensures once { (old new : Definitions) (faults : Numbered) → EachOnce old → IsCompletion old new faults → EachOnce new }
{
    of_elements();
    laid_elements();
    sound_elements();
    written_back();
}
