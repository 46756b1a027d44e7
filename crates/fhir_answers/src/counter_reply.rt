//! What is answered where a resource is looked for that conforms to a profile and not to its base.

ghost use Rattle.std.specs.Prelude.{◌≡◌, ◌++◌, [], None, Some, IfOk, option_map, codes, string_bytes};
ghost use Rattle.fhir_cert_check.specs.Views.{rule_name};
ghost use Rattle.fhir_answers.specs.Answering.{IsReply, counter_given_answer};
ghost use Rattle.fhir_answers.specs.Promising.{Derived};
ghost use Rattle.fhir_answers.specs.Replying.{reply_seen, status_of, answer_noted, shown_reply};
ghost use Rattle.fhir_answers.specs.Session.{schema_in};
ghost use Rattle.fhir_answers.specs.Showing.{IsCounterReply, IsGivenCounter};
ghost use Rattle.fhir_answers.specs.Views.{bytes_seen};

use crate::derive_reply::side_reply;
use crate::given::NamedFile;
use crate::reply::{Reply, Status, answer_noted, unreadable_reply};
use crate::session::Session;
use crate::wrong_reply::wrong_text;
use fhir_cert_check::Rule;
use fhir_certificate::Pair;
use fhir_counter::counterexample_by;
use fhir_derive_check::{DeriveFault, Outcome, derive};
use fhir_json::NoMemory;
use fhir_schema::Schema;
use fhir_unread::Given;
use fhir_vouching::{GivenFault, Vouching};
use std::alloc::Global;

fn yes_reply(alloc: Global, notes: String) -> Result<Reply, NoMemory>
    ensures { IfOk result (λ r. reply_seen r ≡ answer_noted (string_bytes notes) 0 (codes "yes\n")) }
{
    let out = String::from_str(alloc, "yes\n")?;
    Ok(answer_noted(Status::Yes, out.into_bytes(), notes))
}

fn on_line(mut bytes: Vec<u8>) -> Result<Vec<u8>, NoMemory>
    ensures { IfOk result (λ line. line.items ≡ bytes.items ++ codes "\n") }
{
    bytes.push(b'\n')?;
    Ok(bytes)
}

// The resource that was found, or else the pair that fails a rule.
fn shown_reply(
    alloc: Global,
    schema: &Schema,
    pair: Pair,
    rule: Rule<'_>,
    found: Option<Vec<u8>>,
    notes: String,
) -> Result<Reply, NoMemory>
    ensures { IfOk result (λ r. reply_seen r
        ≡ shown_reply schema.now (string_bytes notes) pair (rule_name rule.entry) (option_map (λ bytes. bytes.items) found)) }
{
    match found {
        Some(bytes) => Ok(answer_noted(Status::No, on_line(bytes)?, notes)),
        None => Ok(answer_noted(
            Status::Open,
            wrong_text(alloc, schema, pair, rule)?.into_bytes(),
            notes,
        )),
    }
}

fn counter_by(
    alloc: Global,
    schema: &Schema,
    derived: &str,
    base: &str,
    given: Option<&Vouching>,
    notes: String,
) -> Result<Reply, NoMemory>
    ensures told { IfOk result (λ r. IsCounterReply (option_map (λ texts. texts.now) given.entry) schema.now (string_bytes notes)
        derived.now base.now (reply_seen r)) }
    ensures promised { IfOk result (λ r. status_of (reply_seen r) ≡ 0 → Derived schema.now derived.now base.now) }
{
    match derive(alloc, schema, derived, base) {
        Ok(Outcome::Derives(_)) => yes_reply(alloc, notes),
        Ok(Outcome::NoCertificate(pair, rule)) => {
            let found = counterexample_by(alloc, schema, derived, base, pair, given)?;
            shown_reply(alloc, schema, pair, rule, found, notes)
        }
        Err(DeriveFault::Missing(side)) => side_reply(alloc, "D1", side, derived, base),
        Err(DeriveFault::Unusable(side)) => side_reply(alloc, "D2", side, derived, base),
        Err(DeriveFault::NoMemory) => Err(NoMemory),
    }
}

/// What is answered of a derived profile and its base.
pub(crate) fn counter_between(
    alloc: Global,
    schema: &Schema,
    derived: &str,
    base: &str,
) -> Result<Reply, NoMemory>
    ensures told { IfOk result (λ r. IsCounterReply None schema.now [] derived.now base.now (reply_seen r)) }
    ensures promised { IfOk result (λ r. status_of (reply_seen r) ≡ 0 → Derived schema.now derived.now base.now) }
{
    counter_by(alloc, schema, derived, base, None, String::new(alloc))
}

// ---- where a user vouches for unread rules

fn vouched_reply(
    alloc: Global,
    schema: &Schema,
    derived: &str,
    base: &str,
    given: Given,
) -> Result<Reply, NoMemory>
    ensures told { IfOk result (λ r. IsCounterReply (Some given.vouching) schema.now (string_bytes given.notes) derived.now base.now
        (reply_seen r)) }
    ensures promised { IfOk result (λ r. status_of (reply_seen r) ≡ 0 → Derived schema.now derived.now base.now) }
{
    let Given { vouching, notes } = given;
    counter_by(alloc, schema, derived, base, Some(&vouching), notes)
}

// By the bytes of the file of that name which gives the texts.
fn lines_reply(
    alloc: Global,
    session: &Session<'_>,
    derived: &str,
    base: &str,
    name: &str,
    lines: &[u8],
) -> Result<Reply, NoMemory>
    ensures told { IfOk result (λ r. IsGivenCounter session.now derived.now base.now name.now lines.now (reply_seen r)) }
    ensures promised { IfOk result (λ r. status_of (reply_seen r) ≡ 0 → Derived (schema_in session.now) derived.now base.now) }
{
    match session.vouch(alloc, name, lines) {
        Ok(given) => vouched_reply(alloc, session.schema(), derived, base, given),
        Err(GivenFault::NotUtf8) => Ok(unreadable_reply(alloc, name)?),
        Err(GivenFault::NoMemory) => Err(NoMemory),
    }
}

/// What is answered of a derived profile and its base, where a user vouches for the texts that a file gives.
pub(crate) fn counter_given(
    alloc: Global,
    session: &Session<'_>,
    derived: &str,
    base: &str,
    given: NamedFile<'_>,
) -> Result<Reply, NoMemory>
    ensures told { IfOk result (λ r. IsReply
        (counter_given_answer session.now derived.now base.now given.entry.name.now (bytes_seen given.entry.bytes)) (reply_seen r)) }
    ensures promised { IfOk result (λ r. status_of (reply_seen r) ≡ 0 → Derived (schema_in session.now) derived.now base.now) }
{
    match given.bytes {
        Some(lines) => lines_reply(alloc, session, derived, base, given.name, lines),
        None => Ok(unreadable_reply(alloc, given.name)?),
    }
}
