//! What is answered of a file, by a schema.

ghost use Rattle.std.specs.Prelude.{◌≡◌, ◌++◌, IfOk, false, codes};
ghost use Rattle.fhir_json.specs.Compact.{compact};
ghost use Rattle.fhir_json.specs.Memory.{Gives};
ghost use Rattle.fhir_json.specs.Views.{tree_of};
ghost use Rattle.fhir_overlay.specs.Completed.{elements_tree};
ghost use Rattle.fhir_snapshot.specs.Faults.{number_text};
ghost use Rattle.fhir_report.specs.Faultless.{Promises};
ghost use Rattle.fhir_answers.specs.Answering.{IsAnswered, is_of_memory, IsReply, listed, certify_answer, validate_answer};
ghost use Rattle.fhir_answers.specs.Promising.{Certified, Validated, Listed};
ghost use Rattle.fhir_answers.specs.Replying.{written, reply_seen, status_of, fault_reply, certificate_reply};
ghost use Rattle.fhir_answers.specs.Status.{standing_status};
ghost use Rattle.fhir_replies.specs.Standing.{AlwaysConforms};
ghost use Rattle.fhir_answers.specs.Views.{bytes_seen};

use crate::reply::{Reply, Status, fault_reply, unreadable_reply};
use crate::wrong_reply::wrong_reply;
use fhir_cert_check::check_bytes;
use fhir_certificate::CertFault;
use fhir_commands::Standing;
use fhir_elements::ElementDef;
use fhir_json::{Json, NoMemory, write};
use fhir_overlay::elements_json;
use fhir_package::Package;
use fhir_replies::judge;
use fhir_schema::Schema;
use fhir_snapshot::{SnapNumber, generate};
use std::alloc::Global;

fn certificate_reply(
    alloc: Global,
    name: &str,
    schema: &Schema,
    bytes: &[u8],
) -> Result<Reply, NoMemory>
    ensures told { Gives reply_seen result (certificate_reply name.now schema.now bytes.now) }
    ensures promised { IfOk result (λ r. status_of (reply_seen r) ≡ 0 → Promises schema.now bytes.now) }
{
    match check_bytes(alloc, schema, bytes) {
        Ok(answer) => Ok(wrong_reply(alloc, schema, answer)?),
        Err(CertFault::NoMemory) => Err(NoMemory),
        Err(fault) => Ok(fault_reply(alloc, fault.number(), name)?),
    }
}

/// The status of a resource that stands so.
pub(crate) fn standing_status(standing: Standing) -> Status
    ensures { result ≡ standing_status standing }
{
    match standing {
        Standing::Conforms => Status::Yes,
        Standing::Violates => Status::No,
        Standing::Open => Status::Open,
        Standing::Fault => Status::Fault,
    }
}

/// An outcome on a line.
pub(crate) fn outcome_line(alloc: Global, outcome: &Json<'_>) -> Result<Vec<u8>, NoMemory>
    ensures { IfOk result (λ out. out.items ≡ compact (tree_of outcome.now) ++ codes "\n") }
{
    let mut out = write(alloc, outcome)?;
    out.push(b'\n')?;
    Ok(out)
}

fn resource_reply(
    alloc: Global,
    profile: &str,
    schema: &Schema,
    bytes: &[u8],
) -> Result<Reply, NoMemory>
    ensures told { IfOk result (λ r. IsAnswered schema.now profile.now bytes.now (reply_seen r)) }
    ensures promised { IfOk result (λ r. status_of (reply_seen r) ≡ 0 → AlwaysConforms schema.now profile.now bytes.now) }
{
    let (standing, outcome) = judge(alloc, schema, profile, bytes)?;
    Ok(Reply::Answer {
        status: standing_status(standing),
        out: outcome_line(alloc, &outcome)?,
    })
}

/// What is answered of the certificate in a file of that name, by its bytes, or by none where it can't be read.
pub(crate) fn certify(
    alloc: Global,
    schema: &Schema,
    name: &str,
    file: Option<&[u8]>,
) -> Result<Reply, NoMemory>
    ensures told { IfOk result (λ r. IsReply (certify_answer schema.now name.now (bytes_seen file.entry)) (reply_seen r)) }
    ensures promised { IfOk result (λ r. status_of (reply_seen r) ≡ 0 → Certified schema.now (bytes_seen file.entry)) }
{
    match file {
        Some(bytes) => certificate_reply(alloc, name, schema, bytes),
        None => Ok(unreadable_reply(alloc, name)?),
    }
}

/// What is answered of the resource in a file of that name and a profile, by the file's bytes, or by none where it can't be read.
pub(crate) fn validate_file(
    alloc: Global,
    schema: &Schema,
    profile: &str,
    name: &str,
    file: Option<&[u8]>,
) -> Result<Reply, NoMemory>
    ensures told { IfOk result (λ r. IsReply (validate_answer schema.now profile.now name.now (bytes_seen file.entry)) (reply_seen r)) }
    ensures promised { IfOk result (λ r. status_of (reply_seen r) ≡ 0 → Validated schema.now profile.now (bytes_seen file.entry)) }
{
    match file {
        Some(bytes) => resource_reply(alloc, profile, schema, bytes),
        None => Ok(unreadable_reply(alloc, name)?),
    }
}

/// What is answered of the snapshot of the definition at a url.
pub(crate) fn list_snapshot(
    alloc: Global,
    package: &Package<'_>,
    url: &str,
) -> Result<Reply, NoMemory>
    ensures told { IfOk result (λ r. IsReply (listed «package».now url.now) (reply_seen r)) }
    ensures promised { IfOk result (λ r. status_of (reply_seen r) ≡ 0 → Listed «package».now url.now) }
{
    match generate(alloc, package, url) {
        Ok(elements) => listed_reply(alloc, &elements),
        Err(fault) => unlisted_reply(alloc, fault.number(), url),
    }
}

fn is_of_memory(number: SnapNumber) -> bool
    ensures { result ≡ is_of_memory number }
{
    match number {
        SnapNumber::S1 | SnapNumber::S2 | SnapNumber::S3 | SnapNumber::S4 => false,
        SnapNumber::S5 => true,
    }
}

// That there is no snapshot.
fn unlisted_reply(alloc: Global, number: SnapNumber, url: &str) -> Result<Reply, NoMemory>
    ensures { IfOk result (λ r. (is_of_memory number ≡ false) × (reply_seen r ≡ fault_reply (number_text number) url.now)) }
{
    if is_of_memory(number) {
        return Err(NoMemory);
    }
    Ok(fault_reply(alloc, number.text(), url)?)
}

// The elements on one line.
fn listed_reply(alloc: Global, elements: &[ElementDef]) -> Result<Reply, NoMemory>
    ensures { IfOk result (λ r. reply_seen r ≡ written 0 (compact (elements_tree elements.now) ++ codes "\n")) }
{
    let json = elements_json(alloc, elements)?;
    let mut out = write(alloc, &json)?;
    out.push(b'\n')?;
    Ok(Reply::Answer {
        status: Status::Yes,
        out,
    })
}
