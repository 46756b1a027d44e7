//! From a text of either format to one of format 2.

ghost use Rattle.fhir_json.specs.Memory.{GivesOr};
ghost use Rattle.fhir_certificate.specs.Faults.{is_no_memory};
ghost use Rattle.fhir_certificate.specs.Migrating.{migrated};

use crate::fault::CertFault;
use crate::reading::read;
use crate::writing::write;
use fhir_schema::Schema;
use std::alloc::Global;

/// The text, in format 2, of the certificate that the bytes are in either format: the same pairs of items, and behind them the same
/// pairs of children, each in their order. A pair that stands twice still does. The refusals are those of `read`.
pub fn migrate(alloc: Global, schema: &Schema, bytes: &[u8]) -> Result<Vec<u8>, CertFault>
    ensures { GivesOr is_no_memory (λ text. text.items) result (migrated schema.now bytes.now) }
{
    let certificate = read(alloc, schema, bytes)?;
    Ok(write(alloc, schema, &certificate)?)
}
