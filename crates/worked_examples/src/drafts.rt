//! Snapshots at work.

ghost use Rattle.std.specs.Prelude.{codes};
ghost use Rattle.fhir_snapshot.specs.Snapshots.{IsSnapshot};
ghost use Rattle.worked_examples.specs.Drafts.{drafts, draft_elements};

/// The snapshot of a small profile that is written by differential (FHIR R4, Profiling, snapshots): what the differential says stands
/// in it, and what it doesn't say is the base's; the slice follows its element.
pub fn draft_example()
    ensures { IsSnapshot drafts (codes "urn:P") draft_elements }
{}
