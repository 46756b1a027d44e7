//! What is said of a profile, in lines of text.

ghost use Rattle.std.specs.Prelude.{◌≡◌, ◌∷◌, ◌++◌, [], map, codes, string_bytes, IfOk, OnOk, if◌then◌else◌};
ghost use Rattle.std.specs.Option.{option_map_or};
ghost use Rattle.std.specs.Str.Lossy.{utf8_lossy};
ghost use Rattle.fhir_json.specs.Tree.{Text};
ghost use Rattle.fhir_json.specs.Views.{text_seen};
ghost use Rattle.fhir_cert_check.specs.Views.{rule_name};
ghost use Rattle.fhir_audit.specs.Views.{verdict_seen, audited_seen};
ghost use Rattle.fhir_audit_lines.specs.Words.{pair_count, pairs_text, base_shown};
ghost use Rattle.fhir_audit_lines.specs.Telling.{under, narrowing_line, failing_line, verdict_front, side_text, unusable_front, lacking_line, is_of_resource, not_looked_for, IsHead, AreDetails, unread_lines, IsToldText};

use fhir_audit::{Audited, Verdict};
use fhir_audit_words::{Sources, unusable_line, verdict_word};
use fhir_cert_check::{Rule, pair_text, rule_text};
use fhir_certificate::{Certificate, Pair};
use fhir_derive_check::Side;
use fhir_json::NoMemory;
use fhir_lines::{push_texts, reason_text};
use fhir_report::rule_words;
use fhir_schema::Schema;
use std::alloc::{AllocError, Global};

/// How many pairs a certificate has.
pub(crate) fn pair_count(certificate: &Certificate) -> usize
    ensures { result ≡ pair_count certificate.now }
{
    certificate.items.len() + certificate.kids.len()
}

fn pairs_text(alloc: Global, count: usize) -> Result<String, AllocError>
    ensures { IfOk result (λ text. string_bytes text ≡ pairs_text count) }
{
    if count == 1 {
        format!(in alloc; "{count} pair")
    } else {
        format!(in alloc; "{count} pairs")
    }
}

/// A line that belongs to the one above it.
pub(crate) fn under(alloc: Global, word: &str, text: &str) -> Result<String, AllocError>
    ensures { IfOk result (λ line. string_bytes line ≡ under word.now text.now) }
{
    format!(in alloc; "  {word}{text}")
}

/// The url of the base; nothing, where it isn't there.
pub(crate) fn base_shown<'s>(audited: &Audited<'s>) -> &'s str
    ensures { result.now ≡ base_shown (audited_seen audited.now) }
{
    match audited.base {
        Some(base) => base,
        None => "",
    }
}

/// Whether resources are of the type of the profile at a url.
pub(crate) fn is_of_resource(schema: &Schema, url: &str) -> bool
    ensures { result ≡ is_of_resource schema.now url.now }
{
    match schema.root(url) {
        Some(root) => schema.is_of_resource(root),
        None => false,
    }
}

// ---- the first line on a profile

fn narrowing_line(
    alloc: Global,
    audited: &Audited<'_>,
    certificate: &Certificate,
) -> Result<String, AllocError>
    ensures { IfOk result (λ line. string_bytes line ≡ narrowing_line (audited_seen audited.now) certificate.now) }
{
    let url = audited.url;
    let base = base_shown(audited);
    let count = pairs_text(alloc, pair_count(certificate))?;
    let pairs = count.as_str();
    format!(in alloc; "{url}: narrows {base} ({pairs})")
}

/// That a pair fails a rule.
pub(crate) fn failing_line(
    alloc: Global,
    schema: &Schema,
    front: &str,
    pair: Pair,
    rule: Rule<'_>,
) -> Result<String, AllocError>
    ensures { IfOk result (λ line. string_bytes line ≡ failing_line schema.now front.now pair (rule_name rule.entry)) }
{
    let pair = pair_text(alloc, schema, pair)?;
    let rule = rule_text(alloc, rule)?;
    let (pair, rule) = (pair.as_str(), rule.as_str());
    format!(in alloc; "{front}: {pair}: {rule}")
}

fn verdict_front(alloc: Global, audited: &Audited<'_>) -> Result<String, AllocError>
    ensures { IfOk result (λ line. string_bytes line ≡ verdict_front (audited_seen audited.now)) }
{
    let url = audited.url;
    let word = verdict_word(&audited.verdict);
    let base = base_shown(audited);
    format!(in alloc; "{url}: {word} {base}")
}

fn refuted_line(
    alloc: Global,
    schema: &Schema,
    audited: &Audited<'_>,
    pair: Pair,
    rule: Rule<'_>,
) -> Result<String, AllocError>
    ensures { IfOk result (λ line. string_bytes line
        ≡ failing_line schema.now (verdict_front (audited_seen audited.now)) pair (rule_name rule.entry)) }
{
    let front = verdict_front(alloc, audited)?;
    failing_line(alloc, schema, front.as_str(), pair, rule)
}

/// The one of the two that can't be used.
pub(crate) fn url_on<'s>(side: Side, audited: &Audited<'s>) -> &'s str {
    match side {
        Side::Derived => audited.url,
        Side::Base => base_shown(audited),
    }
}

fn side_text(alloc: Global, audited: &Audited<'_>, side: Side) -> Result<String, AllocError>
    ensures { IfOk result (λ text. string_bytes text ≡ side_text (audited_seen audited.now) side) }
{
    match side {
        Side::Derived => Ok(String::new(alloc)),
        Side::Base => {
            let base = base_shown(audited);
            format!(in alloc; ": its base {base}")
        }
    }
}

fn unusable_front(alloc: Global, audited: &Audited<'_>, side: Side) -> Result<String, AllocError>
    ensures { IfOk result (λ text. string_bytes text ≡ unusable_front (audited_seen audited.now) side) }
{
    let url = audited.url;
    let side = side_text(alloc, audited, side)?;
    let side = side.as_str();
    format!(in alloc; "{url}: can't be used{side}")
}

fn joined(alloc: Global, front: &str, why: &str) -> Result<String, AllocError>
    ensures { IfOk result (λ line. string_bytes line ≡ front.now ++ why.now) }
{
    format!(in alloc; "{front}{why}")
}

fn unusable_text<'s, 'f: 's>(
    alloc: Global,
    sources: Sources<'s, 'f>,
    audited: &Audited<'s>,
    side: Side,
) -> Result<String, NoMemory>
    ensures { IfOk result (λ line. (why : Text) × (string_bytes line ≡ unusable_front (audited_seen audited.now) side ++ why)) }
{
    let found = unusable_line(alloc, sources, url_on(side, audited))?;
    let why = reason_text(alloc, found.as_ref())?;
    let front = unusable_front(alloc, audited, side)?;
    let line = joined(alloc, front.as_str(), why.as_str())?;
    Ok(line)
}

// The canonical of the base, as it is written.
fn lacking_part(alloc: Global, canonical: Option<&str>) -> Result<String, AllocError>
    ensures { IfOk result (λ text. string_bytes text ≡ option_map_or (λ t. codes ": " ++ t) (text_seen canonical.entry) []) }
{
    match canonical {
        Some(canonical) => format!(in alloc; ": {canonical}"),
        None => Ok(String::new(alloc)),
    }
}

fn lacking_line(alloc: Global, audited: &Audited<'_>) -> Result<String, AllocError>
    ensures { IfOk result (λ line. string_bytes line ≡ lacking_line (audited_seen audited.now)) }
{
    let url = audited.url;
    let part = lacking_part(alloc, audited.canonical)?;
    let part = part.as_str();
    format!(in alloc; "{url}: rests on a base that isn't here{part}")
}

fn head_line<'s, 'f: 's>(
    alloc: Global,
    sources: Sources<'s, 'f>,
    audited: &Audited<'s>,
) -> Result<String, NoMemory>
    ensures { IfOk result (λ line. IsHead sources.entry.schema.now (audited_seen audited.now) (verdict_seen audited.now.verdict) (string_bytes line)) }
{
    match &audited.verdict {
        Verdict::Narrows(certificate) => Ok(narrowing_line(alloc, audited, certificate)?),
        Verdict::DoesNotNarrow { pair, rule, .. } => {
            Ok(refuted_line(alloc, sources.schema, audited, *pair, *rule)?)
        }
        Verdict::IsNotShown { pair, rule } => {
            Ok(refuted_line(alloc, sources.schema, audited, *pair, *rule)?)
        }
        Verdict::CannotBeUsed(side) => unusable_text(alloc, sources, audited, *side),
        Verdict::HasNoBase => Ok(lacking_line(alloc, audited)?),
    }
}

// ---- the lines below it

// What both elements say.
pub(crate) fn words_line(
    alloc: Global,
    schema: &Schema,
    pair: Pair,
    rule: Rule<'_>,
) -> Result<String, NoMemory>
    ensures { IfOk result (λ line. (words : Text) × (string_bytes line ≡ under [] words)) }
{
    let words = rule_words(alloc, schema, pair, rule)?;
    let line = under(alloc, "", words.as_str())?;
    Ok(line)
}

fn resource_line(alloc: Global, resource: &[u8]) -> Result<String, AllocError>
    ensures { IfOk result (λ line. string_bytes line ≡ under (codes "counterexample: ") (utf8_lossy resource.now)) }
{
    let text = String::from_utf8_lossy(alloc, resource)?;
    under(alloc, "counterexample: ", text.as_str())
}

fn push_not_looked_for(
    alloc: Global,
    is_of_resource: bool,
    into: &mut Vec<String>,
) -> Result<(), AllocError>
    ensures { OnOk result (map string_bytes into.new.items ≡ map string_bytes into.old.items
        ++ (if is_of_resource then [] else under [] (codes "no resource is of this type") ∷ [])) }
{
    if !is_of_resource {
        into.push(under(alloc, "", "no resource is of this type")?)?;
    }
    Ok(())
}

fn refuted_details(
    alloc: Global,
    schema: &Schema,
    pair: Pair,
    rule: Rule<'_>,
    resource: &[u8],
) -> Result<Vec<String>, NoMemory>
    ensures { IfOk result (λ ls. (words : Text) × (map string_bytes ls.items
        ≡ under [] words ∷ under (codes "counterexample: ") (utf8_lossy resource.now) ∷ [])) }
{
    let mut lines: Vec<String> = Vec::new(alloc);
    let words = words_line(alloc, schema, pair, rule)?;
    let resource = resource_line(alloc, resource)?;
    lines.push(words)?;
    lines.push(resource)?;
    Ok(lines)
}

fn undecided_details(
    alloc: Global,
    schema: &Schema,
    url: &str,
    pair: Pair,
    rule: Rule<'_>,
) -> Result<Vec<String>, NoMemory>
    ensures { IfOk result (λ ls. (words : Text) × (map string_bytes ls.items ≡ under [] words ∷ not_looked_for schema.now url.now)) }
{
    let mut lines: Vec<String> = Vec::new(alloc);
    let words = words_line(alloc, schema, pair, rule)?;
    lines.push(words)?;
    push_not_looked_for(alloc, is_of_resource(schema, url), &mut lines)?;
    Ok(lines)
}

fn details<'s>(
    alloc: Global,
    schema: &Schema,
    audited: &Audited<'s>,
) -> Result<Vec<String>, NoMemory>
    ensures { IfOk result (λ ls. AreDetails schema.now (audited_seen audited.now) (verdict_seen audited.now.verdict) (map string_bytes ls.items)) }
{
    match &audited.verdict {
        Verdict::Narrows(_) => Ok(Vec::new(alloc)),
        Verdict::DoesNotNarrow {
            pair,
            rule,
            resource,
        } => refuted_details(alloc, schema, *pair, *rule, resource),
        Verdict::IsNotShown { pair, rule } => {
            undecided_details(alloc, schema, audited.url, *pair, *rule)
        }
        Verdict::CannotBeUsed(_) => Ok(Vec::new(alloc)),
        Verdict::HasNoBase => Ok(Vec::new(alloc)),
    }
}

fn push_unread(alloc: Global, texts: &[String], into: &mut Vec<String>) -> Result<(), AllocError>
    ensures { OnOk result (map string_bytes into.new.items ≡ map string_bytes into.old.items ++ unread_lines (map string_bytes texts.now)) }
{
    for text in texts {
        into.push(under(alloc, "unread: ", text.as_str())?)?;
    }
    Ok(())
}

/// The lines on a profile.
pub(crate) fn text_lines<'s, 'f: 's>(
    alloc: Global,
    sources: Sources<'s, 'f>,
    audited: &Audited<'s>,
) -> Result<Vec<String>, NoMemory>
    ensures { IfOk result (λ ls. IsToldText sources.entry.schema.now (audited_seen audited.now) (map string_bytes ls.items)) }
{
    let mut lines: Vec<String> = Vec::new(alloc);
    let head = head_line(alloc, sources, audited)?;
    lines.push(head)?;
    let below = details(alloc, sources.schema, audited)?;
    push_texts(below, &mut lines)?;
    push_unread(alloc, &audited.unread, &mut lines)?;
    Ok(lines)
}
