//! Blaming: which pair is named where there is no certificate.

ghost use Rattle.std.specs.Prelude.{◌≡◌, ◌<◌, false, length, map, IfOk};
ghost use Rattle.std.specs.List.{find};
ghost use Rattle.fhir_cert_check.specs.PairSet.{has_pair};
ghost use Rattle.fhir_cert_check.specs.Rules.{failing_rule};
ghost use Rattle.fhir_cert_check.specs.Asked.{asked_for};
ghost use Rattle.fhir_cert_check.specs.Views.{rule_name};
ghost use Rattle.fhir_derive_check.specs.Blaming.{IsBlamed};
ghost use Rattle.fhir_derive_check.specs.Finding.{is_in, IsDiscovery};
ghost use Rattle.fhir_derive_check.specs.Outcomes.{IsSettled, IsNamed};
ghost use Rattle.fhir_derive_check.specs.Pruning.{wrong_seen, all_failing};

use crate::discovery::{Follow, Found, discover};
use crate::pruning::Wrong;
use fhir_cert_check::{PairSet, more_pairs};
use fhir_certificate::Pair;
use fhir_json::NoMemory;
use fhir_schema::Schema;
use std::alloc::Global;

/// Which pair is named.
#[derive(Clone, Copy)]
pub(crate) enum Named {
    /// The first that fails.
    First,
    /// The one that is to blame.
    ToBlame,
}

// The first of them whose pair is in a set.
fn first_among<'s>(wrongs: &[Wrong<'s>], set: &PairSet) -> Option<Wrong<'s>>
    ensures { result ≡ find (λ wrong. has_pair set.now wrong.0) wrongs.now }
{
    wrongs.iter().copied().find(|wrong| set.has(wrong.0))
}

// The pair that is to blame: the first that fails of those on a way down from the root.
fn blamed<'s>(
    alloc: Global,
    schema: &'s Schema,
    root: Pair,
    found: &Found,
    wrongs: &[Wrong<'s>],
) -> Result<Wrong<'s>, NoMemory>
    requires discovery { IsDiscovery (asked_for schema.now) root found.now.order.items }
    requires settled { IsSettled schema.now found.now.order.items (has_pair found.now.live) }
    requires all { map wrong_seen wrongs.now ≡ all_failing (failing_rule (is_in found.now.order.items) schema.now) found.now.order.items }
    requires fallen { has_pair found.now.live root ≡ false }
    ensures { IfOk result (λ wrong. IsBlamed schema.now root found.now.order.items wrong.0 (rule_name wrong.1)) }
{
    more_pairs();
    let way = discover(alloc, schema, Follow::Outside(&found.live), root)?;
    match first_among(wrongs, &way.live) {
        Some(wrong) => Ok(wrong),
        None => unreachable!(),
    }
}

/// The pair that is named of those that fail where all that are found count, with the first rule that it fails; where the pair of the roots has fallen.
pub(crate) fn named_wrong<'s>(
    alloc: Global,
    schema: &'s Schema,
    root: Pair,
    found: &Found,
    wrongs: &[Wrong<'s>],
    named: Named,
) -> Result<Wrong<'s>, NoMemory>
    requires discovery { IsDiscovery (asked_for schema.now) root found.now.order.items }
    requires settled { IsSettled schema.now found.now.order.items (has_pair found.now.live) }
    requires all { map wrong_seen wrongs.now ≡ all_failing (failing_rule (is_in found.now.order.items) schema.now) found.now.order.items }
    requires fallen { has_pair found.now.live root ≡ false }
    requires some { 0 < length wrongs.now }
    ensures { IfOk result (λ wrong. IsNamed named schema.now root found.now.order.items wrong.0 (rule_name wrong.1)) }
{
    match named {
        Named::First => Ok(wrongs[0]),
        Named::ToBlame => blamed(alloc, schema, root, found, wrongs),
    }
}
