//! Deriving a certificate.

ghost use Rattle.std.specs.Prelude.{◌≡◌, ◌↔◌, true, false, None, Some, filter, is_some, IfOk, IfErr, IfSome, IsTrue};
ghost use Rattle.std.specs.List.{filter_map};
ghost use Rattle.fhir_package.specs.Definitions.{Definitions};
ghost use Rattle.fhir_schema.specs.Schemas.{schema_of};
ghost use Rattle.fhir_certificate.specs.Certificate.{fits};
ghost use Rattle.fhir_cert_check.specs.Checking.{IsCertificate, pairs_of};
ghost use Rattle.fhir_cert_check.specs.Inclusion.{Includes};
ghost use Rattle.fhir_cert_check.specs.PairSet.{has_pair};
ghost use Rattle.fhir_derive_check.specs.Reaching.{HasCertificate, roots_between};
ghost use Rattle.fhir_derive_check.specs.Blaming.{IsToBlame};
ghost use Rattle.fhir_derive_check.specs.Deriving.{IsDerived, IsFirstFailing, none_twice};
ghost use Rattle.fhir_derive_check.specs.Faults.{derive_refusal, is_no_memory};
ghost use Rattle.fhir_derive_check.specs.Views.{certificate_of, failing_of};
ghost use Rattle.fhir_derive_check.specs.Outcomes.{item_of, kids_of, IsListed, IsOutcome, IsOutcomeBetween};

use crate::blaming::{Named, named_wrong};
use crate::discovery::{Follow, discover};
use crate::fault::DeriveFault;
use crate::outcome::Outcome;
use crate::pruning::{failing_pairs, prune};
use crate::refusing::refusal;
use fhir_cert_check::{PairSet, asked_are_nodes, certificates_include, more_pairs};
use fhir_certificate::{Certificate, NodePair, Pair};
use fhir_json::NoMemory;
use fhir_schema::Schema;
use std::alloc::Global;

fn item_of(pair: Pair) -> Option<NodePair>
    ensures { result ≡ item_of pair }
{
    match pair {
        Pair::Item(nodes) => Some(nodes),
        Pair::Kids(_) => None,
    }
}

fn kids_of(pair: Pair) -> Option<NodePair>
    ensures { result ≡ kids_of pair }
{
    match pair {
        Pair::Item(_) => None,
        Pair::Kids(nodes) => Some(nodes),
    }
}

// The pairs of items of a list that a set has.
fn items_in(alloc: Global, pairs: &[Pair], set: &PairSet) -> Result<Vec<NodePair>, NoMemory>
    ensures { IfOk result (λ items. items.items ≡ filter_map item_of (filter (has_pair set.now) pairs.now)) }
{
    Ok(
        pairs
            .iter()
            .copied()
            .filter(|pair| set.has(*pair))
            .filter_map(item_of)
            .collect(alloc)?,
    )
}

// The pairs of children of a list that a set has.
fn kids_in(alloc: Global, pairs: &[Pair], set: &PairSet) -> Result<Vec<NodePair>, NoMemory>
    ensures { IfOk result (λ kids. kids.items ≡ filter_map kids_of (filter (has_pair set.now) pairs.now)) }
{
    Ok(
        pairs
            .iter()
            .copied()
            .filter(|pair| set.has(*pair))
            .filter_map(kids_of)
            .collect(alloc)?,
    )
}

// A certificate of the pairs of a list that a set has.
fn certificate(
    alloc: Global,
    derived: &str,
    base: &str,
    pairs: &[Pair],
    set: &PairSet,
) -> Result<Certificate, NoMemory>
    ensures { IfOk result (IsListed derived.now base.now (filter (has_pair set.now) pairs.now)) }
{
    let items = items_in(alloc, pairs, set)?;
    let kids = kids_in(alloc, pairs, set)?;
    let derived = String::from_str(alloc, derived)?;
    let base = String::from_str(alloc, base)?;
    Ok(Certificate {
        derived,
        base,
        items,
        kids,
    })
}

fn roots_between(schema: &Schema, derived: &str, base: &str) -> Option<NodePair>
    ensures { result ≡ roots_between schema.now derived.now base.now }
{
    let derived = schema.root(derived)?;
    let base = schema.root(base)?;
    Some(NodePair { derived, base })
}

// What is derived between two roots. Where no pair that is found fails, all of them are the certificate.
fn outcome<'s>(
    alloc: Global,
    schema: &'s Schema,
    derived: &str,
    base: &str,
    roots: NodePair,
    named: Named,
) -> Result<Outcome<'s>, NoMemory>
    ensures { IfOk result (IsOutcome named schema.now derived.now base.now roots) }
{
    more_pairs();
    let root = Pair::Item(roots);
    let mut found = discover(alloc, schema, Follow::All, root)?;
    let wrongs = failing_pairs(alloc, schema, &found)?;
    if wrongs.is_empty() {
        let certificate = certificate(alloc, derived, base, &found.order, &found.live)?;
        return Ok(Outcome::Derives(certificate));
    }
    prune(alloc, schema, &mut found, &wrongs)?;
    if !found.live.has(root) {
        let (pair, rule) = named_wrong(alloc, schema, root, &found, &wrongs, named)?;
        return Ok(Outcome::NoCertificate(pair, rule));
    }
    let met = discover(alloc, schema, Follow::Within(&found.live), root)?;
    let certificate = certificate(alloc, derived, base, &found.order, &met.live)?;
    Ok(Outcome::Derives(certificate))
}

// What is derived of two profiles, unless one of them isn't there or can't be used.
fn outcome_between<'s>(
    alloc: Global,
    schema: &'s Schema,
    derived: &str,
    base: &str,
    named: Named,
) -> Result<Outcome<'s>, DeriveFault>
    ensures outcome { IfOk result (IsOutcomeBetween named schema.now derived.now base.now) }
    ensures usable { IfOk result (λ o. derive_refusal schema.now derived.now base.now ≡ None) }
    ensures fault { IfErr result (λ f. is_no_memory f ≡ false → derive_refusal schema.now derived.now base.now ≡ Some f) }
{
    if let Some(fault) = refusal(schema, derived, base) {
        return Err(fault);
    }
    let Some(roots) = roots_between(schema, derived, base) else {
        unreachable!()
    };
    Ok(outcome(alloc, schema, derived, base, roots, named)?)
}

/// The certificate of two profiles, which has the pairs that are reached from their roots, each once, in the order in which they are found;
/// or, where there is no certificate, the first of the pairs that are found that fails a rule, with that rule. The refusals are those of
/// `DeriveFault`. Each pair is found once, and judged again only where it fails or others that it asks for have fallen; one that asks for many
/// pairs, only when no other waits for that. So the time is near linear in the number of pairs and of what they ask for, unless many pairs that
/// ask for many fall one behind the other.
pub fn derive<'s>(
    alloc: Global,
    schema: &'s Schema,
    derived: &str,
    base: &str,
) -> Result<Outcome<'s>, DeriveFault>
    ensures derives { IfOk result (λ o. (is_some (certificate_of o) ≡ true) ↔ HasCertificate schema.now derived.now base.now) }
    ensures reached { IfOk result (λ o. IfSome (certificate_of o) (IsDerived schema.now derived.now base.now)) }
    ensures once { IfOk result (λ o. IfSome (certificate_of o) (λ c. none_twice (pairs_of c) ≡ true)) }
    ensures right { IfOk result (λ o. IfSome (certificate_of o) (IsCertificate schema.now)) }
    ensures includes { IfOk result (λ o. IsTrue (is_some (certificate_of o)) → Includes schema.now derived.now base.now) }
    ensures fits { (d : Definitions) → schema.now ≡ schema_of d → IfOk result (λ o. IfSome (certificate_of o) (λ c. fits schema.now c ≡ true)) }
    ensures refused { IfOk result (λ o. IfSome (failing_of o) (λ f. IsFirstFailing schema.now derived.now base.now f.0 f.1)) }
    ensures usable { IfOk result (λ o. derive_refusal schema.now derived.now base.now ≡ None) }
    ensures fault { IfErr result (λ f. is_no_memory f ≡ false → derive_refusal schema.now derived.now base.now ≡ Some f) }
{
    certificates_include();
    asked_are_nodes();
    outcome_between(alloc, schema, derived, base, Named::First)
}

/// The same certificate; or, where there is none, the pair that is to blame, with the rule that it fails. It is the first of those that are found on
/// a way down from the roots: from a pair to one that it asks for and that is in no certificate. Of an element that has children of its own, the pairs
/// with the definitions of its types aren't gone to. The refusals are those of `derive`, and so is the time.
pub fn diagnose<'s>(
    alloc: Global,
    schema: &'s Schema,
    derived: &str,
    base: &str,
) -> Result<Outcome<'s>, DeriveFault>
    ensures derives { IfOk result (λ o. (is_some (certificate_of o) ≡ true) ↔ HasCertificate schema.now derived.now base.now) }
    ensures reached { IfOk result (λ o. IfSome (certificate_of o) (IsDerived schema.now derived.now base.now)) }
    ensures right { IfOk result (λ o. IfSome (certificate_of o) (IsCertificate schema.now)) }
    ensures includes { IfOk result (λ o. IsTrue (is_some (certificate_of o)) → Includes schema.now derived.now base.now) }
    ensures blamed { IfOk result (λ o. IfSome (failing_of o) (λ f. IsToBlame schema.now derived.now base.now f.0 f.1)) }
    ensures usable { IfOk result (λ o. derive_refusal schema.now derived.now base.now ≡ None) }
    ensures fault { IfErr result (λ f. is_no_memory f ≡ false → derive_refusal schema.now derived.now base.now ≡ Some f) }
{
    certificates_include();
    outcome_between(alloc, schema, derived, base, Named::ToBlame)
}
