//! The list of unread rules.

ghost use Rattle.std.specs.Prelude.{◌≡◌, ◌∷◌, ◌++◌, [], codes, None, Some, get_or, map, filter, string_bytes, IfOk, OnOk, IsUtf8};
ghost use Rattle.std.specs.List.{All, flat_map};
ghost use Rattle.fhir_json.specs.Views.{text_seen};
ghost use Rattle.fhir_package.specs.Definitions.{Definitions};
ghost use Rattle.fhir_vouching.specs.Given.{given_lines};
ghost use Rattle.fhir_facets.specs.Unread.{unread_text};
ghost use Rattle.fhir_facets.specs.Views.{unread_seen};
ghost use Rattle.fhir_findings.specs.Carrying.{Carrier as CarrierValue};
ghost use Rattle.fhir_findings.specs.Sentences.{sentence_for};
ghost use Rattle.fhir_findings.specs.Views.{carrier_seen, told_seen, all_told_seen, firsts_seen, texts_seen};
ghost use Rattle.fhir_lines.specs.Lines.{parts_of, constraint_text, lacks_text, count_text};
ghost use Rattle.fhir_unread.specs.Unread.{rule_in, is_rule, given_text, unread_texts};
ghost use Rattle.fhir_unread.specs.Listing.{comment, given_line, heading, saying_text, sayings_for, sentence_shown, entry, listing};
ghost use Rattle.fhir_unread.specs.Seen.{saying_seen, sayings_seen, AreGrouped};

use crate::inside::push_inside;
use crate::saying::{Saying, all_sayings, grouped, said_under};
use crate::telling::{rule_text, told};
use fhir_facets::Unread;
use fhir_findings::{Carried, Carrier, Selection, Told, sentences};
use fhir_json::NoMemory;
use fhir_lines::push_escaped;
use fhir_package::{Package, Survey};
use fhir_schema::Schema;
use std::alloc::{AllocError, Global};
use std::collections::BTreeMap;

// ---- lines

// A line that gives nothing.
fn push_comment(text: &str, into: &mut String) -> Result<(), AllocError>
    ensures { OnOk result (string_bytes into.new ≡ string_bytes into.old ++ comment text.now) }
{
    into.push_str("# ")?;
    push_escaped(text, into)?;
    into.push('\n')
}

// A line that gives a text.
fn push_given(text: &str, into: &mut String) -> Result<(), AllocError>
    ensures { OnOk result (string_bytes into.new ≡ string_bytes into.old ++ given_line text.now) }
{
    push_inside(text, into)?;
    into.push('\n')
}

// ---- what is said of a rule

fn push_part(part: &str, into: &mut String) -> Result<(), AllocError>
    ensures { OnOk result (string_bytes into.new ≡ string_bytes into.old ++ (part.now ++ codes "; ")) }
{
    into.push_str(part)?;
    into.push_str("; ")
}

fn push_keyed(key: &str, sentence: &str, into: &mut String) -> Result<(), AllocError>
    ensures { OnOk result (string_bytes into.new
        ≡ string_bytes into.old ++ ((key.now ++ codes ": " ++ sentence.now) ++ codes "; ")) }
{
    into.push_str(key)?;
    into.push_str(": ")?;
    push_part(sentence, into)
}

fn push_constraint(
    key: Option<&str>,
    sentence: Option<&str>,
    into: &mut String,
) -> Result<(), AllocError>
    ensures { OnOk result (string_bytes into.new ≡ string_bytes into.old
        ++ flat_map (λ part. part ++ codes "; ") (parts_of (constraint_text (text_seen key.entry) (text_seen sentence.entry)))) }
{
    match (key, sentence) {
        (Some(key), Some(sentence)) => push_keyed(key, sentence, into),
        (Some(key), None) => push_part(key, into),
        (None, Some(sentence)) => push_part(sentence, into),
        (None, None) => Ok(()),
    }
}

fn push_lacks(lacks: bool, into: &mut String) -> Result<(), AllocError>
    ensures { OnOk result (string_bytes into.new
        ≡ string_bytes into.old ++ flat_map (λ part. part ++ codes "; ") (parts_of (lacks_text lacks))) }
{
    if lacks {
        push_part("the package lacks it", into)
    } else {
        Ok(())
    }
}

fn counted(alloc: Global, count: usize) -> Result<String, AllocError>
    ensures { IfOk result (λ t. string_bytes t ≡ count_text count) }
{
    if count == 1 {
        format!(in alloc; "{count} element")
    } else {
        format!(in alloc; "{count} elements")
    }
}

fn heading(
    alloc: Global,
    carrier: &Carrier<'_>,
    sentence: Option<&str>,
    count: usize,
) -> Result<String, AllocError>
    ensures { IfOk result (λ t. string_bytes t ≡ heading (carrier_seen carrier.now) (text_seen sentence.entry) count) }
{
    let mut text = String::new(alloc);
    push_constraint(carrier.key, sentence, &mut text)?;
    push_lacks(carrier.lacks, &mut text)?;
    text.push_str(counted(alloc, count)?.as_str())?;
    Ok(text)
}

fn saying_text(alloc: Global, saying: &Saying<'_>) -> Result<String, AllocError>
    ensures { IfOk result (λ t. string_bytes t ≡ saying_text (saying_seen saying.now)) }
{
    let mut text = String::from_str(alloc, saying.url)?;
    text.push('#')?;
    text.push_str(saying.id)?;
    text.push_str(": ")?;
    text.push_str(saying.human)?;
    Ok(text)
}

fn push_saying(alloc: Global, saying: &Saying<'_>, into: &mut String) -> Result<(), AllocError>
    ensures { OnOk result (string_bytes into.new ≡ string_bytes into.old ++ comment (saying_text (saying_seen saying.now))) }
{
    let text = saying_text(alloc, saying)?;
    push_comment(text.as_str(), into)
}

fn push_sayings(alloc: Global, sayings: &[Saying<'_>], into: &mut String) -> Result<(), AllocError>
    ensures { OnOk result (string_bytes into.new
        ≡ string_bytes into.old ++ flat_map (λ y. comment (saying_text y)) (sayings_seen sayings.now)) }
{
    for saying in sayings {
        push_saying(alloc, saying, into)?;
    }
    Ok(())
}

// Where a rule is a constraint that has no expression, what is said under its key.
fn sayings_for<'s>(
    alloc: Global,
    groups: &BTreeMap<&'s str, Vec<Saying<'s>>>,
    rule: Unread<'_>,
) -> Result<Vec<Saying<'s>>, NoMemory>
    ensures { (p : Definitions) → AreGrouped p groups.now
        → IfOk result (λ ys. sayings_seen ys.items ≡ sayings_for p (Some (unread_seen rule.entry))) }
{
    match rule {
        Unread::Range(_) => Ok(Vec::new(alloc)),
        Unread::Target(_) => Ok(Vec::new(alloc)),
        Unread::Profile(_) => Ok(Vec::new(alloc)),
        Unread::Binding(_) => Ok(Vec::new(alloc)),
        Unread::Expression(_) => Ok(Vec::new(alloc)),
        Unread::Constraint(key) => said_under(alloc, groups, key),
    }
}

// And else the sentence of the constraint.
fn sentence_shown<'s>(rule: Unread<'_>, sentence: Option<&'s str>) -> Option<&'s str>
    ensures { (p : Definitions) (c : CarrierValue) → text_seen sentence.entry ≡ sentence_for p c
        → text_seen result ≡ sentence_shown p c (Some (unread_seen rule.entry)) }
{
    match rule {
        Unread::Range(_) => sentence,
        Unread::Target(_) => sentence,
        Unread::Profile(_) => sentence,
        Unread::Binding(_) => sentence,
        Unread::Expression(_) => sentence,
        Unread::Constraint(_) => None,
    }
}

// ---- the list

fn push_rule<'s>(
    alloc: Global,
    groups: &BTreeMap<&'s str, Vec<Saying<'s>>>,
    rule: Unread<'_>,
    one: &Told<'_>,
    sentence: Option<&str>,
    into: &mut String,
) -> Result<(), NoMemory>
    ensures pushed { OnOk result ((p : Definitions) → AreGrouped p groups.now
        → text_seen sentence.entry ≡ sentence_for p (carrier_seen one.now.first)
        → rule_in (carrier_seen one.now.first).carried ≡ Some (unread_seen rule.entry)
        → string_bytes into.new ≡ string_bytes into.old ++ entry p (told_seen one.now)) }
    ensures utf8 { OnOk result (IsUtf8 (unread_text (unread_seen rule.entry))) }
{
    let sayings = sayings_for(alloc, groups, rule)?;
    let sentence = sentence_shown(rule, sentence);
    let heading = heading(alloc, &one.first, sentence, one.count)?;
    let text = rule_text(alloc, rule)?;
    push_comment(heading.as_str(), into)?;
    push_sayings(alloc, &sayings, into)?;
    Ok(push_given(text.as_str(), into)?)
}

// Puts in what is told, if it is a rule.
fn push_entry<'s>(
    alloc: Global,
    groups: &BTreeMap<&'s str, Vec<Saying<'s>>>,
    one: &Told<'_>,
    sentence: Option<&str>,
    into: &mut String,
) -> Result<(), NoMemory>
    ensures pushed { OnOk result ((p : Definitions) → AreGrouped p groups.now
        → text_seen sentence.entry ≡ sentence_for p (carrier_seen one.now.first)
        → string_bytes into.new ≡ string_bytes into.old ++ flat_map (entry p) (filter (λ t. is_rule t.first) (told_seen one.now ∷ []))) }
    ensures utf8 { OnOk result (All IsUtf8 (map (λ t. given_text t.first) (filter (λ t. is_rule t.first) (told_seen one.now ∷ [])))) }
{
    match one.first.carried {
        Carried::Rule(rule) => push_rule(alloc, groups, rule, one, sentence, into),
        Carried::Base(_) => Ok(()),
    }
}

fn sentence_at<'s>(sentences: &[Option<&'s str>], place: usize) -> Option<&'s str>
    ensures { text_seen result ≡ get_or (texts_seen sentences.now) place None }
{
    match sentences.get(place) {
        Some(sentence) => *sentence,
        None => None,
    }
}

fn push_entries<'s>(
    alloc: Global,
    groups: &BTreeMap<&'s str, Vec<Saying<'s>>>,
    told: &[Told<'_>],
    sentences: &[Option<&str>],
    into: &mut String,
) -> Result<(), NoMemory>
    ensures pushed { OnOk result ((p : Definitions) → AreGrouped p groups.now
        → texts_seen sentences.now ≡ map (sentence_for p) (firsts_seen told.now)
        → string_bytes into.new ≡ string_bytes into.old ++ flat_map (entry p) (filter (λ t. is_rule t.first) (all_told_seen told.now))) }
    ensures utf8 { OnOk result (All IsUtf8 (map (λ t. given_text t.first) (filter (λ t. is_rule t.first) (all_told_seen told.now)))) }
{
    for (place, one) in told.iter().enumerate() {
        let sentence = sentence_at(sentences, place);
        push_entry(alloc, groups, one, sentence, into)?;
    }
    Ok(())
}

// The list of the rules among what is told.
fn listing_of(alloc: Global, package: &Package<'_>, told: &[Told<'_>]) -> Result<String, NoMemory>
    ensures listed { IfOk result (λ t. string_bytes t
        ≡ flat_map (entry «package».now) (filter (λ t. is_rule t.first) (all_told_seen told.now))) }
    ensures utf8 { IfOk result (λ _. All IsUtf8 (map (λ t. given_text t.first) (filter (λ t. is_rule t.first) (all_told_seen told.now)))) }
{
    let sentences = sentences(alloc, package, told)?;
    let sayings = all_sayings(alloc, package)?;
    let groups = grouped(alloc, &sayings)?;
    let mut list = String::new(alloc);
    push_entries(alloc, &groups, told, &sentences, &mut list)?;
    Ok(list)
}

/// The list of the unread rules that the selected definitions of a survey's package carry, by the schema of the package: of each text, once, what is
/// said of it in lines that begin with `#`, and the text, as the inside of a JSON string (RFC 8259, section 7). No text of a file begins a line but
/// as such an inside. The one refusal is want of memory.
pub fn unread_listing(
    alloc: Global,
    survey: &Survey<'_>,
    schema: &Schema,
    selection: &Selection,
) -> Result<String, NoMemory>
    ensures listed { IfOk result (λ t. string_bytes t ≡ listing selection.now schema.now survey.now) }
    ensures gives { IfOk result (λ t. map (λ l. l.1) (given_lines (string_bytes t))
        ≡ map (λ text. Some text) (unread_texts selection.now schema.now survey.now)) }
{
    let told = told(alloc, survey, schema, selection)?;
    let list = listing_of(alloc, survey.package(), &told)?;
    Ok(list)
}
