//! What is found of the snapshot of a definition.

ghost use Rattle.std.specs.Prelude.{◌≡◌, IfOk};
ghost use Rattle.fhir_snapshot.specs.Knowing.{IsOf};

use crate::fault::SnapFault;
use fhir_elements::ElementDef;
use fhir_json::NoMemory;

/// What is found of the snapshot of a definition.
#[derive(Drop)]
pub(crate) enum Outcome {
    /// Its elements.
    Made(Vec<ElementDef>),
    /// Why there is none.
    Faulty(SnapFault),
}

/// The outcome of elements that were made, or weren't for a fault. The one refusal is want of memory.
pub(crate) fn outcome_of(made: Result<Vec<ElementDef>, SnapFault>) -> Result<Outcome, NoMemory>
    ensures { IfOk result (λ o. IsOf o made) }
{
    match made {
        Ok(elements) => Ok(Outcome::Made(elements)),
        Err(SnapFault::NoMemory) => Err(NoMemory),
        Err(fault) => Ok(Outcome::Faulty(fault)),
    }
}
