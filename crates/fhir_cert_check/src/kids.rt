//! The rules of a pair of children.

ghost use Rattle.std.specs.Prelude.{◌≡◌, Some, option_map};
ghost use Rattle.std.specs.Option.{option_copied};
ghost use Rattle.std.specs.List.{flat_map};
ghost use Rattle.fhir_elements.specs.Tests.{first_of};
ghost use Rattle.fhir_cert_check.specs.Rules.{own_slot_rules, slot_rules, kids_rules};
ghost use Rattle.fhir_cert_check.specs.Views.{rule_name};
ghost use Rattle.fhir_cert_check.specs.PairSet.{has_pair};

use crate::nodes::{cardinality_answers, entry_of};
use crate::pair_set::PairSet;
use crate::rule::Rule;
use crate::slices::entry_failing;
use fhir_schema::{NodeRef, Schema, Slot};

fn own_slot_failing<'s>(
    schema: &'s Schema,
    pairs: &PairSet,
    n: NodeRef,
    m: NodeRef,
    slot: &'s Slot,
    own: &Slot,
) -> Option<Rule<'s>>
    ensures { option_map rule_name result ≡ first_of
        (own_slot_rules (has_pair pairs.now) schema.now n m slot.now (Some own.now)) }
{
    let derived = entry_of(n, own);
    let base = entry_of(m, slot);
    if !cardinality_answers(schema, derived, base) {
        return Some(Rule::Cardinality(slot.name()));
    }
    entry_failing(schema, pairs, slot.name(), derived, base)
}

fn slot_failing<'s>(
    schema: &'s Schema,
    pairs: &PairSet,
    n: NodeRef,
    m: NodeRef,
    slot: &'s Slot,
) -> Option<Rule<'s>>
    ensures { option_map rule_name result ≡ first_of (slot_rules (has_pair pairs.now) schema.now n m slot.now) }
{
    match schema.slot(n, slot.name()) {
        Some(own) => own_slot_failing(schema, pairs, n, m, slot, own),
        None => Some(Rule::Slot(slot.name())),
    }
}

/// The first rule that a pair of children fails.
pub(crate) fn kids_failing<'s>(
    schema: &'s Schema,
    pairs: &PairSet,
    n: NodeRef,
    m: NodeRef,
) -> Option<Rule<'s>>
    ensures { option_map rule_name result ≡ first_of (kids_rules (has_pair pairs.now) schema.now n m) }
{
    for slot in schema.slots(m) {
        let rule = slot_failing(schema, pairs, n, m, slot);
        if rule.is_some() {
            return rule;
        }
    }
    None
}
