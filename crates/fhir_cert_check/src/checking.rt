//! Checking certificates.

ghost use Rattle.std.specs.Prelude.{◌≡◌, ◌↔◌, IsTrue, IfOk, IfErr, Some, None, map, option_map, []};
ghost use Rattle.fhir_json.specs.Memory.{Gives, GivesOr};
ghost use Rattle.fhir_nodes.specs.declared.node.NodeRef.{NodeRef};
ghost use Rattle.fhir_schema.specs.Schemas.{root};
ghost use Rattle.fhir_certificate.specs.declared.pair.NodePair.{NodePair};
ghost use Rattle.fhir_certificate.specs.declared.pair.Pair.TheVariants as variants;
ghost use Rattle.fhir_certificate.specs.Certificate.{fits};
ghost use Rattle.fhir_certificate.specs.Format.{Written, Spells};
ghost use Rattle.fhir_certificate.specs.Faults.{Means, is_no_memory};
ghost use Rattle.fhir_certificate.specs.Reading.{reading};
ghost use Rattle.fhir_cert_check.specs.Rules.{failing_rule, is_local};
ghost use Rattle.fhir_cert_check.specs.Checking.{is_among, roots_of, IsCertificate, pairs_of, first_in, first_wrong, wrong_with, answer_of, SpellsCertificate};
ghost use Rattle.fhir_cert_check.specs.Inclusion.{IncludesItems, Includes};
ghost use Rattle.fhir_cert_check.specs.Views.{failing_seen, rule_seen, is_yes, wrong_in};
ghost use Rattle.fhir_cert_check.specs.PairSet.{has_pair, AreRepeated, MarkRepeated, split_mark, unless_repeated};

use crate::answer::Answer;
use crate::items::item_failing;
use crate::kids::kids_failing;
use crate::laws::inclusion;
use crate::pair_set::{CertificatePairs, PairSet};
use crate::rule::Rule;
use fhir_certificate::{CertFault, Certificate, NodePair, Pair, format_agrees, read};
use fhir_json::NoMemory;
use fhir_schema::Schema;
use std::alloc::Global;

/// The first rule that a pair fails, where the pairs of a set count. The one refusal is want of memory.
pub fn failing<'s>(
    alloc: Global,
    schema: &'s Schema,
    pairs: &PairSet,
    pair: Pair,
) -> Result<Option<Rule<'s>>, NoMemory>
    ensures { Gives rule_seen result (failing_rule (has_pair pairs.now) schema.now pair) }
{
    match pair {
        Pair::Item(nodes) => item_failing(alloc, schema, pairs, nodes.derived, nodes.base),
        Pair::Kids(nodes) => Ok(kids_failing(schema, pairs, nodes.derived, nodes.base)),
    }
}

// A pair that fails a rule, with that rule.
type Wrong<'s> = Result<Option<(Pair, Rule<'s>)>, NoMemory>;

// The first mark, and those behind it.
fn split_mark(marks: &[bool]) -> (bool, &[bool])
    ensures { (result.0, result.1.now) ≡ split_mark marks.now }
{
    match marks {
        [mark, rest @ ..] => (*mark, rest),
        [] => (false, marks),
    }
}

fn failing_unless_repeated<'s>(
    alloc: Global,
    schema: &'s Schema,
    pairs: &PairSet,
    pair: Pair,
    is_repeated: bool,
) -> Result<Option<Rule<'s>>, NoMemory>
    ensures { Gives rule_seen result (unless_repeated is_repeated (failing_rule (has_pair pairs.now) schema.now pair)) }
{
    if is_repeated {
        return Ok(None);
    }
    failing(alloc, schema, pairs, pair)
}

fn first_item<'s>(
    alloc: Global,
    schema: &'s Schema,
    pairs: &PairSet,
    repeated: &[bool],
    nodes: &[NodePair],
) -> Wrong<'s>
    requires { AreRepeated [] repeated.now nodes.now }
    ensures { Gives failing_seen result (first_in (failing_rule (has_pair pairs.now) schema.now) (map variants.Item nodes.now)) }
{
    let mut marks = repeated;
    for pair in nodes {
        let (is_repeated, rest) = split_mark(marks);
        let pair = Pair::Item(*pair);
        if let Some(rule) = failing_unless_repeated(alloc, schema, pairs, pair, is_repeated)? {
            return Ok(Some((pair, rule)));
        }
        marks = rest;
    }
    Ok(None)
}

fn first_kids<'s>(
    alloc: Global,
    schema: &'s Schema,
    pairs: &PairSet,
    repeated: &[bool],
    nodes: &[NodePair],
) -> Wrong<'s>
    requires { AreRepeated [] repeated.now nodes.now }
    ensures { Gives failing_seen result (first_in (failing_rule (has_pair pairs.now) schema.now) (map variants.Kids nodes.now)) }
{
    let mut marks = repeated;
    for pair in nodes {
        let (is_repeated, rest) = split_mark(marks);
        let pair = Pair::Kids(*pair);
        if let Some(rule) = failing_unless_repeated(alloc, schema, pairs, pair, is_repeated)? {
            return Ok(Some((pair, rule)));
        }
        marks = rest;
    }
    Ok(None)
}

// The first pair that fails a rule: each is judged once, however often it stands in the certificate.
fn first_wrong<'s>(
    alloc: Global,
    schema: &'s Schema,
    pairs: &CertificatePairs,
    certificate: &Certificate,
) -> Wrong<'s>
    requires { MarkRepeated pairs.now.repeated_items.items pairs.now.repeated_kids.items certificate.now }
    ensures { Gives failing_seen result (first_in (failing_rule (has_pair pairs.now.set) schema.now) (pairs_of certificate.now)) }
{
    let (repeated, items) = (&pairs.repeated_items, &certificate.items);
    match first_item(alloc, schema, &pairs.set, repeated, items)? {
        Some(wrong) => Ok(Some(wrong)),
        None => {
            let (repeated, kids) = (&pairs.repeated_kids, &certificate.kids);
            first_kids(alloc, schema, &pairs.set, repeated, kids)
        }
    }
}

fn judge<'s>(
    alloc: Global,
    schema: &'s Schema,
    pairs: &CertificatePairs,
    roots: NodePair,
    certificate: &Certificate,
) -> Result<Answer<'s>, NoMemory>
    requires { MarkRepeated pairs.now.repeated_items.items pairs.now.repeated_kids.items certificate.now }
    ensures { Gives wrong_in result (first_wrong schema.now (has_pair pairs.now.set) roots (pairs_of certificate.now)) }
{
    if !pairs.set.has(Pair::Item(roots)) {
        return Ok(Answer::No(Pair::Item(roots), Rule::Root));
    }
    match first_wrong(alloc, schema, pairs, certificate)? {
        Some((pair, rule)) => Ok(Answer::No(pair, rule)),
        None => Ok(Answer::Yes),
    }
}

fn roots_of(schema: &Schema, certificate: &Certificate) -> Option<NodePair>
    ensures { result ≡ roots_of schema.now certificate.now }
{
    let derived = schema.root(&certificate.derived)?;
    let base = schema.root(&certificate.base)?;
    Some(NodePair { derived, base })
}

/// Whether a certificate is right, or else the first pair that fails a rule, with that rule: the pair of the roots, if
/// it lacks that, and then its pairs of items and those of children in their order. Each pair is looked up in a tree of
/// the certificate's pairs, so that the time is near linear in their number. The one refusal is want of memory.
pub fn check<'s>(
    alloc: Global,
    schema: &'s Schema,
    certificate: &Certificate,
) -> Result<Answer<'s>, NoMemory>
    requires { IsTrue (fits schema.now certificate.now) }
    ensures first { (roots : NodePair) → roots_of schema.now certificate.now ≡ Some roots
        → Gives wrong_in result (wrong_with schema.now certificate.now roots) }
    ensures yes { IfOk result (λ answer. IsTrue (is_yes answer) ↔ IsCertificate schema.now certificate.now) }
    ensures includes { IfOk result (λ answer. IsTrue (is_yes answer)
        → Includes schema.now certificate.now.derived certificate.now.base) }
    ensures items { IfOk result (λ answer. IsTrue (is_yes answer) → (n m : NodeRef)
        → root schema.now certificate.now.derived ≡ Some n → root schema.now certificate.now.base ≡ Some m
        → IncludesItems schema.now n m) }
{
    inclusion();
    let pairs = CertificatePairs::of(alloc, certificate)?;
    let Some(roots) = roots_of(schema, certificate) else {
        unreachable!()
    };
    judge(alloc, schema, &pairs, roots, certificate)
}

/// The first rule that a pair fails, where the certificate's pairs count. The one refusal is want of memory.
pub fn first_failing<'s>(
    alloc: Global,
    schema: &'s Schema,
    certificate: &Certificate,
    pair: Pair,
) -> Result<Option<Rule<'s>>, NoMemory>
    ensures first { Gives rule_seen result (failing_rule (is_among certificate.now) schema.now pair) }
    ensures right { IfOk result (λ rule. (rule_seen rule ≡ None)
        ↔ IsTrue (is_local (is_among certificate.now) schema.now pair)) }
{
    let pairs = CertificatePairs::of(alloc, certificate)?;
    failing(alloc, schema, &pairs.set, pair)
}

/// Whether bytes are a right certificate, or else its first pair that fails a rule, with that rule. The refusals are
/// those of `CertFault`: bytes that spell no certificate of the schema's nodes, and want of memory.
pub fn check_bytes<'s>(
    alloc: Global,
    schema: &'s Schema,
    bytes: &[u8],
) -> Result<Answer<'s>, CertFault>
    ensures first { GivesOr is_no_memory wrong_in result (answer_of (reading schema.now bytes.now) schema.now) }
    ensures yes { IfOk result (λ answer. IsTrue (is_yes answer) ↔ SpellsCertificate schema.now bytes.now) }
    ensures refused { IfErr result (λ fault. Means fault schema.now bytes.now) }
    ensures includes { IfOk result (λ answer. IsTrue (is_yes answer) → (w : Written) → Spells bytes.now w
        → Includes schema.now w.derived w.base) }
    ensures items { IfOk result (λ answer. IsTrue (is_yes answer) → (w : Written) → Spells bytes.now w
        → (n m : NodeRef) → root schema.now w.derived ≡ Some n → root schema.now w.base ≡ Some m
        → IncludesItems schema.now n m) }
{
    format_agrees();
    let certificate = read(alloc, schema, bytes)?;
    Ok(check(alloc, schema, &certificate)?)
}
