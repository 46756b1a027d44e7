//! What is said of a profile and its base.

ghost use Rattle.std.specs.Prelude.{◌≡◌, IfOk, option_map};
ghost use Rattle.fhir_json.specs.Views.{text_seen};
ghost use Rattle.fhir_cert_check.specs.Views.{rule_name};
ghost use Rattle.fhir_audit.specs.Verdicts.{verdict_by, IsShownVerdict, IsSaid, IsVerdict};
ghost use Rattle.fhir_audit.specs.Views.{verdict_seen};

use crate::verdict::Verdict;
use fhir_cert_check::Rule;
use fhir_certificate::Pair;
use fhir_counter::counterexample_by;
use fhir_derive_check::{DeriveFault, Outcome, diagnose};
use fhir_json::NoMemory;
use fhir_schema::Schema;
use fhir_vouching::Vouching;
use std::alloc::Global;

fn with_resource<'s>(pair: Pair, rule: Rule<'s>, found: Option<Vec<u8>>) -> Verdict<'s>
    ensures { verdict_seen result ≡ verdict_by pair (rule_name rule.entry) (option_map (λ bytes. bytes.items) found) }
{
    match found {
        Some(resource) => Verdict::DoesNotNarrow {
            pair,
            rule,
            resource,
        },
        None => Verdict::IsNotShown { pair, rule },
    }
}

// Where no certificate exists, since a pair fails a rule.
fn refuted<'s>(
    alloc: Global,
    schema: &Schema,
    url: &str,
    base: &str,
    pair: Pair,
    rule: Rule<'s>,
    given: Option<&Vouching>,
) -> Result<Verdict<'s>, NoMemory>
    ensures { IfOk result (λ v. IsShownVerdict (option_map (λ texts. texts.now) given.entry) schema.now url.now base.now pair (rule_name rule.entry)
        (verdict_seen v)) }
{
    let found = counterexample_by(alloc, schema, url, base, pair, given)?;
    Ok(with_resource(pair, rule, found))
}

fn said_of<'s>(
    alloc: Global,
    schema: &'s Schema,
    url: &str,
    base: &str,
    given: Option<&Vouching>,
) -> Result<Verdict<'s>, NoMemory>
    ensures { IfOk result (λ v. IsSaid (option_map (λ texts. texts.now) given.entry) schema.now url.now base.now (verdict_seen v)) }
{
    match diagnose(alloc, schema, url, base) {
        Ok(Outcome::Derives(certificate)) => Ok(Verdict::Narrows(certificate)),
        Ok(Outcome::NoCertificate(pair, rule)) => {
            refuted(alloc, schema, url, base, pair, rule, given)
        }
        Err(DeriveFault::Missing(_side)) => Ok(Verdict::HasNoBase),
        Err(DeriveFault::Unusable(side)) => Ok(Verdict::CannotBeUsed(side)),
        Err(DeriveFault::NoMemory) => Err(NoMemory),
    }
}

/// What is said of the profile at a url and the base at another, if that is there.
pub(crate) fn verdict_of<'s>(
    alloc: Global,
    schema: &'s Schema,
    url: &str,
    base: Option<&str>,
    given: Option<&Vouching>,
) -> Result<Verdict<'s>, NoMemory>
    ensures { IfOk result (λ v. IsVerdict (option_map (λ texts. texts.now) given.entry) schema.now url.now (text_seen base.entry) (verdict_seen v)) }
{
    match base {
        Some(base) => said_of(alloc, schema, url, base, given),
        None => Ok(Verdict::HasNoBase),
    }
}
