//! What is answered of a certificate that is to be written in the newest format.

ghost use Rattle.std.specs.Prelude.{◌≡◌, IfOk};
ghost use Rattle.fhir_json.specs.Memory.{Gives};
ghost use Rattle.fhir_certificate.specs.Migrating.{migrated};
ghost use Rattle.fhir_answers.specs.Answering.{IsReply, migrate_answer};
ghost use Rattle.fhir_answers.specs.Promising.{IsRead, Migrated};
ghost use Rattle.fhir_answers.specs.Replying.{reply_seen, status_of, migrated_reply};
ghost use Rattle.fhir_answers.specs.Views.{bytes_seen};

use crate::reply::{Reply, Status, fault_reply, unreadable_reply};
use fhir_certificate::{CertFault, migrate};
use fhir_json::NoMemory;
use fhir_schema::Schema;
use std::alloc::Global;

fn migrated_reply(
    alloc: Global,
    name: &str,
    schema: &Schema,
    bytes: &[u8],
) -> Result<Reply, NoMemory>
    ensures told { Gives reply_seen result (migrated_reply name.now (migrated schema.now bytes.now)) }
    ensures promised { IfOk result (λ r. status_of (reply_seen r) ≡ 0 → IsRead schema.now bytes.now) }
{
    match migrate(alloc, schema, bytes) {
        Ok(out) => Ok(Reply::Answer {
            status: Status::Yes,
            out,
        }),
        Err(CertFault::NoMemory) => Err(NoMemory),
        Err(fault) => Ok(fault_reply(alloc, fault.number(), name)?),
    }
}

/// What is answered of the certificate in a file of that name, by its bytes, or by none where it can't be read.
pub(crate) fn migrate_file(
    alloc: Global,
    schema: &Schema,
    name: &str,
    file: Option<&[u8]>,
) -> Result<Reply, NoMemory>
    ensures told { IfOk result (λ r. IsReply (migrate_answer schema.now name.now (bytes_seen file.entry)) (reply_seen r)) }
    ensures promised { IfOk result (λ r. status_of (reply_seen r) ≡ 0 → Migrated schema.now (bytes_seen file.entry)) }
{
    match file {
        Some(bytes) => migrated_reply(alloc, name, schema, bytes),
        None => Ok(unreadable_reply(alloc, name)?),
    }
}
