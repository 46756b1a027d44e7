//! What is said of two profiles of which a certificate is to be derived.

ghost use Rattle.std.specs.Prelude.{◌≡◌, ◌+◌, IfOk, length};
ghost use Rattle.fhir_certificate.specs.Format.{text_of};
ghost use Rattle.fhir_certificate.specs.Writing.{written_by};
ghost use Rattle.fhir_cert_check.specs.Rule.{rule_text};
ghost use Rattle.fhir_cert_check.specs.Texts.{pair_text};
ghost use Rattle.fhir_cert_check.specs.Views.{rule_name};
ghost use Rattle.fhir_commands.specs.Replies.{derived, refuted, derive_seen};
ghost use Rattle.fhir_replies.specs.Deriving.{IsDeriveAnswer};

use fhir_cert_check::{Rule, pair_text, rule_text};
use fhir_certificate::{Certificate, Pair, write};
use fhir_commands::DeriveAnswer;
use fhir_derive_check::{DeriveFault, Outcome, derive};
use fhir_json::NoMemory;
use fhir_schema::Schema;
use std::alloc::Global;

fn derived_answer(
    alloc: Global,
    schema: &Schema,
    certificate: &Certificate,
) -> Result<DeriveAnswer, NoMemory>
    ensures { IfOk result (λ a. derive_seen a ≡ derived (text_of (written_by schema.now certificate.now))
        (length certificate.now.items + length certificate.now.kids)) }
{
    let pairs = certificate.items.len() + certificate.kids.len();
    let certificate = write(alloc, schema, certificate)?;
    Ok(DeriveAnswer::Derived { certificate, pairs })
}

fn refuted_answer(
    alloc: Global,
    schema: &Schema,
    pair: Pair,
    rule: Rule<'_>,
) -> Result<DeriveAnswer, NoMemory>
    ensures { IfOk result (λ a. derive_seen a ≡ refuted (pair_text schema.now pair) (rule_text (rule_name rule.entry))) }
{
    let at = pair_text(alloc, schema, pair)?;
    let rule = rule_text(alloc, rule)?;
    Ok(DeriveAnswer::Refuted { at, rule })
}

/// What comes of two profiles, by a schema: the certificate that the derived one narrows its base, or the pair and the rule for which there
/// is none. The one refusal is want of memory.
pub fn derive_answer(
    alloc: Global,
    schema: &Schema,
    derived: &str,
    base: &str,
) -> Result<DeriveAnswer, NoMemory>
    ensures { IfOk result (λ a. IsDeriveAnswer schema.now derived.now base.now (derive_seen a)) }
{
    match derive(alloc, schema, derived, base) {
        Ok(Outcome::Derives(certificate)) => derived_answer(alloc, schema, &certificate),
        Ok(Outcome::NoCertificate(pair, rule)) => refuted_answer(alloc, schema, pair, rule),
        Err(DeriveFault::Missing(_)) => Ok(DeriveAnswer::Missing),
        Err(DeriveFault::Unusable(_)) => Ok(DeriveAnswer::Unusable),
        Err(DeriveFault::NoMemory) => Err(NoMemory),
    }
}
