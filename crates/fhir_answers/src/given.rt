//! What is answered where a user vouches for unread rules, and the list of these rules.

ghost use Rattle.std.specs.Prelude.{◌≡◌, ◌++◌, None, Some, IfOk, IfSome, IfNone, IsSome, codes, string_bytes};
ghost use Rattle.fhir_json.specs.Tree.{Text};
ghost use Rattle.fhir_json.specs.Views.{text_seen};
ghost use Rattle.fhir_replies.specs.Standing.{ConformsAsGiven};
ghost use Rattle.fhir_package.specs.declared.kind.Kind.TheVariants.{StructureDefinition};
ghost use Rattle.fhir_package.specs.Definitions.{at_url};
ghost use Rattle.fhir_elements.specs.Numbers.{reason_number};
ghost use Rattle.fhir_answers.specs.Answering.{judged_as_given, IsJudgedReply, IsGivenReply, IsReply, file_answer, given_answer, list_reply, profile_fault, profile_reply, unread_reply};
ghost use Rattle.fhir_schema.specs.Schemas.{root};
ghost use Rattle.fhir_answers.specs.Promising.{ConformsByLines, ValidatedAsGiven, CanBeListed};
ghost use Rattle.fhir_answers.specs.Replying.{reply_seen, status_of, fault_reply};
ghost use Rattle.fhir_answers.specs.Session.{schema_in};
ghost use Rattle.fhir_answers.specs.Views.{bytes_seen, files_seen, file_at};

use crate::answering::{outcome_line, standing_status};
use crate::reply::{Reply, Status, answer_noted, fault_reply, unreadable_reply};
use crate::session::Session;
use fhir_elements::Reason;
use fhir_findings::Selection;
use fhir_json::NoMemory;
use fhir_replies::judge_given;
use fhir_schema::Schema;
use fhir_unread::Given;
use fhir_vouching::GivenFault;
use std::alloc::{AllocError, Global};

/// A file that is asked about.
#[derive(Clone, Copy, Debug)]
pub struct NamedFile<'f> {
    /// Its name.
    pub name: &'f str,
    /// Its bytes, where it can be read.
    pub bytes: Option<&'f [u8]>,
}

/// The bytes of the file at a place among those that words name, where it can be read.
pub(crate) fn file_at(files: &[Option<Vec<u8>>], place: usize) -> Option<&[u8]>
    ensures { bytes_seen result ≡ file_at (files_seen files.now) place }
{
    match files.get(place) {
        Some(file) => file.as_deref(),
        None => None,
    }
}

fn judged_reply(
    alloc: Global,
    schema: &Schema,
    profile: &str,
    bytes: &[u8],
    given: Given,
) -> Result<Reply, NoMemory>
    ensures told { IfOk result (λ r. IsJudgedReply schema.now given.vouching (string_bytes given.notes) profile.now bytes.now (reply_seen r)) }
    ensures promised { IfOk result (λ r. status_of (reply_seen r) ≡ 0 → ConformsAsGiven schema.now given.vouching profile.now bytes.now) }
{
    let Given { vouching, notes } = given;
    let (standing, outcome) = judge_given(alloc, schema, profile, bytes, &vouching)?;
    let out = outcome_line(alloc, &outcome)?;
    Ok(answer_noted(standing_status(standing), out, notes))
}

// By the bytes of the file of that name which gives the texts.
fn texts_reply(
    alloc: Global,
    session: &Session<'_>,
    profile: &str,
    bytes: &[u8],
    name: &str,
    lines: &[u8],
) -> Result<Reply, NoMemory>
    ensures told { IfOk result (λ r. IsGivenReply session.now profile.now bytes.now name.now lines.now (reply_seen r)) }
    ensures promised { IfOk result (λ r. status_of (reply_seen r) ≡ 0
        → ConformsByLines (schema_in session.now) profile.now bytes.now lines.now) }
{
    match session.vouch(alloc, name, lines) {
        Ok(given) => judged_reply(alloc, session.schema(), profile, bytes, given),
        Err(GivenFault::NotUtf8) => Ok(unreadable_reply(alloc, name)?),
        Err(GivenFault::NoMemory) => Err(NoMemory),
    }
}

fn given_reply(
    alloc: Global,
    session: &Session<'_>,
    profile: &str,
    bytes: &[u8],
    given: NamedFile<'_>,
) -> Result<Reply, NoMemory>
    ensures told { IfOk result (λ r. IsReply
        (file_answer (λ lines. judged_as_given session.now profile.now bytes.now given.entry.name.now lines) given.entry.name.now (bytes_seen given.entry.bytes)) (reply_seen r)) }
    ensures promised { IfOk result (λ r. status_of (reply_seen r) ≡ 0 → (lines : Text) × (bytes_seen given.entry.bytes ≡ Some lines)
        × ConformsByLines (schema_in session.now) profile.now bytes.now lines) }
{
    match given.bytes {
        Some(lines) => texts_reply(alloc, session, profile, bytes, given.name, lines),
        None => Ok(unreadable_reply(alloc, given.name)?),
    }
}

/// What is answered of the resource in a file and a profile, where a user vouches for the texts that another file gives.
pub(crate) fn validate_given(
    alloc: Global,
    session: &Session<'_>,
    profile: &str,
    resource: NamedFile<'_>,
    given: NamedFile<'_>,
) -> Result<Reply, NoMemory>
    ensures told { IfOk result (λ r. IsReply
        (given_answer session.now profile.now resource.entry.name.now (bytes_seen resource.entry.bytes) given.entry.name.now (bytes_seen given.entry.bytes)) (reply_seen r)) }
    ensures promised { IfOk result (λ r. status_of (reply_seen r) ≡ 0
        → ValidatedAsGiven (schema_in session.now) profile.now (bytes_seen resource.entry.bytes) (bytes_seen given.entry.bytes)) }
{
    match resource.bytes {
        Some(bytes) => given_reply(alloc, session, profile, bytes, given),
        None => Ok(unreadable_reply(alloc, resource.name)?),
    }
}

// ---- the list

fn selected_reply(
    alloc: Global,
    session: &Session<'_>,
    selection: &Selection,
) -> Result<Reply, NoMemory>
    ensures { IfOk result (λ r. reply_seen r ≡ list_reply session.now selection.now) }
{
    Ok(Reply::Answer {
        status: Status::Yes,
        out: session.listing(alloc, selection)?.into_bytes(),
    })
}

fn unusable_reply(alloc: Global, url: &str, reason: Reason) -> Result<Reply, AllocError>
    ensures { IfOk result (λ r. reply_seen r ≡ fault_reply (codes "V2") (url.now ++ codes " " ++ reason_number reason)) }
{
    let subject = format!(in alloc; "{url} {}", reason.number())?;
    fault_reply(alloc, "V2", subject.as_str())
}

// That the definition at a url isn't there or can't be used.
fn profile_fault(alloc: Global, schema: &Schema, url: &str) -> Result<Reply, AllocError>
    ensures { IfOk result (λ r. reply_seen r ≡ profile_fault schema.now url.now) }
{
    match schema.unusable(url) {
        Some(reason) => unusable_reply(alloc, url, reason),
        None => fault_reply(alloc, "V1", url),
    }
}

/// What is answered where the definition at a url isn't there or can't be used, if that is so. The one refusal is want of memory.
pub fn profile_refusal(
    alloc: Global,
    schema: &Schema,
    url: &str,
) -> Result<Option<Reply>, AllocError>
    ensures usable { IfOk result (λ r. IfNone r (IsSome (root schema.now url.now))) }
    ensures refused { IfOk result (λ r. IfSome r (λ reply. (root schema.now url.now ≡ None) × (reply_seen reply ≡ profile_fault schema.now url.now))) }
{
    match schema.root(url) {
        Some(_) => Ok(None),
        None => Ok(Some(profile_fault(alloc, schema, url)?)),
    }
}

// Of a profile that isn't one of those that can't be used.
fn reached_reply(alloc: Global, session: &Session<'_>, url: &str) -> Result<Reply, NoMemory>
    ensures told { IfOk result (λ r. reply_seen r ≡ profile_reply session.now url.now None) }
    ensures promised { IfOk result (λ r. status_of (reply_seen r) ≡ 0 → IsSome (at_url StructureDefinition url.now session.now.survey.definitions)) }
{
    match Selection::of_profile(alloc, session.definitions(), url)? {
        Some(selection) => selected_reply(alloc, session, &selection),
        None => Ok(fault_reply(alloc, "V1", url)?),
    }
}

fn profile_reply(alloc: Global, session: &Session<'_>, url: &str) -> Result<Reply, NoMemory>
    ensures told { IfOk result (λ r. reply_seen r ≡ unread_reply session.now (Some url.now)) }
    ensures promised { IfOk result (λ r. status_of (reply_seen r) ≡ 0 → CanBeListed session.now.survey.definitions (Some url.now)) }
{
    match session.schema().unusable(url) {
        Some(reason) => Ok(unusable_reply(alloc, url, reason)?),
        None => reached_reply(alloc, session, url),
    }
}

/// The list of the unread rules of a profile and what it reaches, or of all definitions where none is named.
pub(crate) fn list_unread(
    alloc: Global,
    session: &Session<'_>,
    profile: Option<&str>,
) -> Result<Reply, NoMemory>
    ensures told { IfOk result (λ r. reply_seen r ≡ unread_reply session.now (text_seen profile.entry)) }
    ensures promised { IfOk result (λ r. status_of (reply_seen r) ≡ 0
        → CanBeListed session.now.survey.definitions (text_seen profile.entry)) }
{
    match profile {
        Some(url) => profile_reply(alloc, session, url),
        None => selected_reply(alloc, session, &Selection::all()),
    }
}
