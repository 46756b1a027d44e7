//! Pairs and rules as texts.

ghost use Rattle.std.specs.Prelude.{◌≡◌, IfOk, string_bytes};
ghost use Rattle.fhir_cert_check.specs.Rule.{rule_text};
ghost use Rattle.fhir_cert_check.specs.Texts.{node_text, pair_word, derived_of, base_of, pair_text};
ghost use Rattle.fhir_cert_check.specs.Views.{rule_name};

use crate::rule::Rule;
use fhir_certificate::Pair;
use fhir_schema::{NodeRef, Schema};
use std::alloc::{AllocError, Global};

fn node_text(alloc: Global, schema: &Schema, node: NodeRef) -> Result<String, AllocError>
    ensures { IfOk result (λ text. string_bytes text ≡ node_text schema.now node) }
{
    let (url, id) = schema.name(node);
    let mut text = String::new(alloc);
    text.push_str(url)?;
    text.push_str("#")?;
    text.push_str(id)?;
    Ok(text)
}

fn pair_word(pair: Pair) -> &'static str
    ensures { result.now ≡ pair_word pair }
{
    match pair {
        Pair::Item(_) => "item ",
        Pair::Kids(_) => "kids ",
    }
}

fn derived_of(pair: Pair) -> NodeRef
    ensures { result ≡ derived_of pair }
{
    match pair {
        Pair::Item(nodes) => nodes.derived,
        Pair::Kids(nodes) => nodes.derived,
    }
}

fn base_of(pair: Pair) -> NodeRef
    ensures { result ≡ base_of pair }
{
    match pair {
        Pair::Item(nodes) => nodes.base,
        Pair::Kids(nodes) => nodes.base,
    }
}

/// A pair as a text: `item` or `kids`, and its two elements, each as URL`#`ID.
pub fn pair_text(alloc: Global, schema: &Schema, pair: Pair) -> Result<String, AllocError>
    ensures { IfOk result (λ text. string_bytes text ≡ pair_text schema.now pair) }
{
    let derived = node_text(alloc, schema, derived_of(pair))?;
    let base = node_text(alloc, schema, base_of(pair))?;
    let mut text = String::from_str(alloc, pair_word(pair))?;
    text.push_str(derived.as_str())?;
    text.push_str(" ")?;
    text.push_str(base.as_str())?;
    Ok(text)
}

/// A rule as its `Display` prints it: its word, and behind a blank what it is about, if anything.
pub fn rule_text(alloc: Global, rule: Rule<'_>) -> Result<String, AllocError>
    ensures { IfOk result (λ text. string_bytes text ≡ rule_text (rule_name rule.entry)) }
{
    format!(in alloc; "{rule}")
}
