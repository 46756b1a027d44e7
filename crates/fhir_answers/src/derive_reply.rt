//! What is answered of two profiles of which a certificate is to be derived.

ghost use Rattle.std.specs.Prelude.{◌≡◌, Some, IfOk};
ghost use Rattle.fhir_certificate.specs.Format.{text_of};
ghost use Rattle.fhir_certificate.specs.Writing.{written_by};
ghost use Rattle.fhir_cert_check.specs.Views.{rule_name};
ghost use Rattle.fhir_answers.specs.Answering.{IsDerivationReply};
ghost use Rattle.fhir_answers.specs.Promising.{Derived};
ghost use Rattle.fhir_answers.specs.Replying.{written, reply_seen, status_of, on_side, fault_reply};
ghost use Rattle.fhir_answers.specs.WrongText.{wrong_text};

use crate::reply::{Reply, Status, fault_reply};
use crate::wrong_reply::wrong_text;
use fhir_cert_check::Rule;
use fhir_certificate::{Certificate, Pair, write};
use fhir_derive_check::{DeriveFault, Outcome, Side, derive};
use fhir_json::NoMemory;
use fhir_schema::Schema;
use std::alloc::Global;

fn on_side<'w>(side: Side, derived: &'w str, base: &'w str) -> &'w str
    ensures { result.now ≡ on_side side derived.now base.now }
{
    match side {
        Side::Derived => derived,
        Side::Base => base,
    }
}

fn derived_reply(
    alloc: Global,
    schema: &Schema,
    certificate: &Certificate,
) -> Result<Reply, NoMemory>
    ensures { IfOk result (λ r. reply_seen r ≡ written 0 (text_of (written_by schema.now certificate.now))) }
{
    Ok(Reply::Answer {
        status: Status::Yes,
        out: write(alloc, schema, certificate)?,
    })
}

fn refuted_reply(
    alloc: Global,
    schema: &Schema,
    pair: Pair,
    rule: Rule<'_>,
) -> Result<Reply, NoMemory>
    ensures { IfOk result (λ r. reply_seen r ≡ written 1 (wrong_text schema.now pair (rule_name rule.entry))) }
{
    Ok(Reply::Answer {
        status: Status::No,
        out: wrong_text(alloc, schema, pair, rule)?.into_bytes(),
    })
}

/// A fault of the profile on a side.
pub(crate) fn side_reply(
    alloc: Global,
    number: &str,
    side: Side,
    derived: &str,
    base: &str,
) -> Result<Reply, NoMemory>
    ensures { IfOk result (λ r. reply_seen r ≡ fault_reply number.now (on_side side derived.now base.now)) }
{
    Ok(fault_reply(alloc, number, on_side(side, derived, base))?)
}

/// What is answered of a derived profile and its base.
pub(crate) fn derive_between(
    alloc: Global,
    schema: &Schema,
    derived: &str,
    base: &str,
) -> Result<Reply, NoMemory>
    ensures told { IfOk result (λ r. IsDerivationReply schema.now derived.now base.now (reply_seen r)) }
    ensures promised { IfOk result (λ r. status_of (reply_seen r) ≡ 0 → Derived schema.now derived.now base.now) }
{
    match derive(alloc, schema, derived, base) {
        Ok(Outcome::Derives(certificate)) => derived_reply(alloc, schema, &certificate),
        Ok(Outcome::NoCertificate(pair, rule)) => refuted_reply(alloc, schema, pair, rule),
        Err(DeriveFault::Missing(side)) => side_reply(alloc, "D1", side, derived, base),
        Err(DeriveFault::Unusable(side)) => side_reply(alloc, "D2", side, derived, base),
        Err(DeriveFault::NoMemory) => Err(NoMemory),
    }
}
