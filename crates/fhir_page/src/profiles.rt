//! What a page says of a profile.

ghost use Rattle.std.specs.Prelude.{◌≡◌, ◌∷◌, [], codes, IfOk};
ghost use Rattle.fhir_json.specs.Tree.{Text};
ghost use Rattle.fhir_audit.specs.Views.{audited_seen, all_audited, verdict_seen};
ghost use Rattle.fhir_audit_words.specs.Words.{verdict_word};
ghost use Rattle.fhir_markup.specs.Markup.{Nodes, none, also, place, fixed, element};
ghost use Rattle.fhir_markup.specs.Views.{element_node};
ghost use Rattle.fhir_markup.specs.declared.names.Tag.TheVariants.{Section, H3};
ghost use Rattle.fhir_markup.specs.declared.names.AttributeName.TheVariants.{Class};
ghost use Rattle.fhir_markup.specs.declared.names.Part.TheVariants.{Profile};
ghost use Rattle.fhir_page_frame.specs.Frame.{saying};
ghost use Rattle.fhir_page.specs.Page.{url_line, verdict_line, IsSection, AreTold};

use crate::counterexample::push_counterexample;
use crate::failing::{failing_at, nodes_of};
use crate::verdicts::class_of;
use fhir_audit::{Audited, Verdict};
use fhir_audit_words::{Sources, unusable_line, verdict_word};
use fhir_cert_check::Rule;
use fhir_certificate::{Certificate, Pair};
use fhir_derive_check::Side;
use fhir_element_changes::{Failing, changed_elements, push_table};
use fhir_json::NoMemory;
use fhir_lines::Line;
use fhir_markup::{Attribute, Element, Part, Tag};
use fhir_names::Index;
use fhir_page_frame::{short_name, worded};
use fhir_report::rule_words;
use std::alloc::{AllocError, Global};

// What profiles are told from: the sources, and the numbers of all that are audited.
#[derive(Clone, Copy)]
struct Telling<'t, 's, 'f> {
    sources: Sources<'s, 'f>,
    numbers: &'t Index,
}

// ---- the verdict

/// What a profile rests on, as it is named where it isn't there.
pub(crate) fn base_name<'s>(audited: &Audited<'s>) -> &'s str {
    audited.base.or(audited.canonical).unwrap_or("")
}

// The url of a base: a link, if it is audited too.
fn base_words(
    alloc: Global,
    numbers: &Index,
    audited: &Audited<'_>,
) -> Result<Element, AllocError> {
    let name = base_name(audited);
    let code = Element::of_text(alloc, Tag::Code, name)?;
    match numbers.get(name) {
        Some(number) => {
            let mut link = Element::new(alloc, Tag::A);
            link.set(Attribute::Link(Part::Profile, number))?;
            link.push(code)?;
            Ok(link)
        }
        None => Ok(code),
    }
}

fn pairs_text(alloc: Global, certificate: &Certificate) -> Result<String, AllocError> {
    let count = certificate
        .items
        .len()
        .saturating_add(certificate.kids.len());
    if count == 1 {
        format!(in alloc; ", which a certificate of {count} pair shows")
    } else {
        format!(in alloc; ", which a certificate of {count} pairs shows")
    }
}

// The base, and how many pairs show that it is narrowed.
fn base_said(alloc: Global, numbers: &Index, audited: &Audited<'_>) -> Result<Element, AllocError> {
    let mut said = Element::new(alloc, Tag::Span);
    said.push_text(alloc, " ")?;
    said.push(base_words(alloc, numbers, audited)?)?;
    if let Verdict::Narrows(certificate) = &audited.verdict {
        said.push_text(alloc, pairs_text(alloc, certificate)?.as_str())?;
    }
    Ok(said)
}

// A line that begins with a verdict.
fn line_of_verdict(
    alloc: Global,
    class: &'static str,
    word: &str,
    more: Element,
) -> Result<Element, AllocError>
    ensures { IfOk result (λ line. element_node line ≡ verdict_line class.now word.now (also (element_node more) none)) }
{
    let mut line = Element::of_class(alloc, Tag::P, "says")?;
    line.push(worded(alloc, Tag::Strong, class, word)?)?;
    line.push(more)?;
    Ok(line)
}

fn verdict_words(
    alloc: Global,
    numbers: &Index,
    audited: &Audited<'_>,
) -> Result<Element, AllocError>
    ensures { IfOk result (λ line. (class : Text) × (more : Nodes) × (element_node line ≡ verdict_line class (verdict_word (verdict_seen audited.now.verdict)) more)) }
{
    let more = base_said(alloc, numbers, audited)?;
    let class = class_of(&audited.verdict);
    let word = verdict_word(&audited.verdict);
    line_of_verdict(alloc, class, word, more)
}

// ---- why

fn push_rule(
    alloc: Global,
    into: &mut Element,
    sources: Sources<'_, '_>,
    pair: Pair,
    rule: Rule<'_>,
) -> Result<(), NoMemory> {
    let words = rule_words(alloc, sources.schema, pair, rule)?;
    let (_url, id) = sources.schema.name(nodes_of(pair).derived);
    let mut said = Element::of_class(alloc, Tag::P, "says")?;
    said.push(Element::of_text(alloc, Tag::Code, id)?)?;
    said.push_text(alloc, ": ")?;
    said.push_text(alloc, words.as_str())?;
    Ok(into.push(said)?)
}

// That no resource was found, and why.
fn push_not_found(
    alloc: Global,
    into: &mut Element,
    sources: Sources<'_, '_>,
    url: &str,
) -> Result<(), AllocError> {
    let is_of_resource = match sources.schema.root(url) {
        Some(root) => sources.schema.is_of_resource(root),
        None => false,
    };
    let words = if is_of_resource {
        "No resource was found that conforms to it and not to its base. This doesn't say that there is none."
    } else {
        "No resource is of this type, so that none is looked for."
    };
    into.push(worded(alloc, Tag::P, "says", words)?)
}

fn unusable_url<'s>(audited: &Audited<'s>, side: Side) -> &'s str {
    match side {
        Side::Derived => audited.url,
        Side::Base => audited.base.unwrap_or(""),
    }
}

// The number, the element and the reason of a line.
fn reason_words(alloc: Global, line: &Line<'_>) -> Result<Element, AllocError> {
    let mut words = Element::of_class(alloc, Tag::P, "says")?;
    if let Some(number) = line.number {
        words.push_text(alloc, number.text())?;
        words.push_text(alloc, " ")?;
    }
    if let Some(id) = line.id {
        words.push(Element::of_text(alloc, Tag::Code, id)?)?;
        words.push_text(alloc, ": ")?;
    }
    words.push_text(alloc, line.text.as_str())?;
    Ok(words)
}

fn push_reason(
    alloc: Global,
    into: &mut Element,
    sources: Sources<'_, '_>,
    audited: &Audited<'_>,
    side: Side,
) -> Result<(), NoMemory> {
    if let Side::Base = side {
        into.push(worded(alloc, Tag::P, "says", "Its base can't be used.")?)?;
    }
    match unusable_line(alloc, sources, unusable_url(audited, side))? {
        Some(line) => Ok(into.push(reason_words(alloc, &line)?)?),
        None => Ok(()),
    }
}

fn push_why(
    alloc: Global,
    into: &mut Element,
    sources: Sources<'_, '_>,
    audited: &Audited<'_>,
) -> Result<(), NoMemory> {
    match &audited.verdict {
        Verdict::Narrows(_) | Verdict::HasNoBase => Ok(()),
        Verdict::DoesNotNarrow { pair, rule, .. } => push_rule(alloc, into, sources, *pair, *rule),
        Verdict::IsNotShown { pair, rule } => {
            push_rule(alloc, into, sources, *pair, *rule)?;
            Ok(push_not_found(alloc, into, sources, audited.url)?)
        }
        Verdict::CannotBeUsed(side) => push_reason(alloc, into, sources, audited, *side),
    }
}

// ---- what differs, what is unread, and the counterexample

fn failing_of(sources: Sources<'_, '_>, verdict: &Verdict<'_>) -> Option<Failing> {
    match verdict {
        Verdict::DoesNotNarrow { pair, rule, .. } | Verdict::IsNotShown { pair, rule } => {
            failing_at(sources.schema, *pair, *rule)
        }
        _ => None,
    }
}

fn push_changes(
    alloc: Global,
    into: &mut Element,
    sources: Sources<'_, '_>,
    audited: &Audited<'_>,
    number: usize,
) -> Result<(), NoMemory> {
    let Some(base) = audited.base else {
        return Ok(());
    };
    let elements = changed_elements(alloc, sources.schema, audited.place, base)?;
    let failing = failing_of(sources, &audited.verdict);
    Ok(push_table(alloc, into, number, &elements, failing)?)
}

fn unread_list(alloc: Global, texts: &[String]) -> Result<Element, AllocError> {
    let mut list = Element::of_class(alloc, Tag::Ul, "unread")?;
    for text in texts {
        let mut item = Element::new(alloc, Tag::Li);
        item.push(Element::of_text(alloc, Tag::Code, text.as_str())?)?;
        list.push(item)?;
    }
    Ok(list)
}

fn push_unread(alloc: Global, into: &mut Element, texts: &[String]) -> Result<(), AllocError> {
    if texts.is_empty() {
        return Ok(());
    }
    into.push(Element::of_text(alloc, Tag::H4, "Unread rules")?)?;
    into.push(worded(
        alloc,
        Tag::P,
        "says",
        "A validation against the profile can be open at best where one of these is asked.",
    )?)?;
    into.push(unread_list(alloc, texts)?)
}

fn push_found(
    alloc: Global,
    into: &mut Element,
    sources: Sources<'_, '_>,
    audited: &Audited<'_>,
) -> Result<(), NoMemory> {
    match &audited.verdict {
        Verdict::DoesNotNarrow { resource, .. } => push_counterexample(
            alloc,
            into,
            sources.schema,
            audited.base.unwrap_or(""),
            resource,
        ),
        _ => Ok(()),
    }
}

// ---- the sections

fn line_of_url(alloc: Global, url: &str) -> Result<Element, AllocError>
    ensures { IfOk result (λ line. element_node line ≡ url_line url.now) }
{
    let mut line = Element::of_class(alloc, Tag::P, "url")?;
    line.push(Element::of_text(alloc, Tag::Code, url)?)?;
    Ok(line)
}

fn opened(alloc: Global, number: usize, name: &str) -> Result<Element, AllocError>
    ensures { IfOk result (λ opened. element_node opened
        ≡ element Section (fixed Class (codes "profile") ∷ place Profile number ∷ []) (also (saying H3 [] name.now) none)) }
{
    let mut section = Element::of_class(alloc, Tag::Section, "profile")?;
    section.set(Attribute::Id(Part::Profile, number))?;
    section.push(Element::of_text(alloc, Tag::H3, name)?)?;
    Ok(section)
}

// All that is told but the verdict: why, with a counterexample, what differs from the base, and what is unread.
fn rest(
    alloc: Global,
    sources: Sources<'_, '_>,
    audited: &Audited<'_>,
    number: usize,
) -> Result<Element, NoMemory> {
    let mut rest = Element::new(alloc, Tag::Div);
    push_why(alloc, &mut rest, sources, audited)?;
    push_found(alloc, &mut rest, sources, audited)?;
    push_changes(alloc, &mut rest, sources, audited, number)?;
    push_unread(alloc, &mut rest, &audited.unread)?;
    Ok(rest)
}

impl Telling<'_, '_, '_> {
    // The section on the profile of a number.
    #[tactic(auto, using(crate::proofs::Pages::is_section))]
    fn section(
        self,
        alloc: Global,
        audited: &Audited<'_>,
        number: usize,
    ) -> Result<Element, NoMemory>
        ensures { IfOk result (λ section. IsSection number (audited_seen audited.now) (element_node section)) }
    {
        let mut section = opened(alloc, number, short_name(audited.url))?;
        section.push(line_of_url(alloc, audited.url)?)?;
        section.push(verdict_words(alloc, self.numbers, audited)?)?;
        section.push(rest(alloc, self.sources, audited, number)?)?;
        Ok(section)
    }
}

fn numbers_of(alloc: Global, audited: &[Audited<'_>]) -> Result<Index, AllocError> {
    let mut numbers = Index::new(alloc);
    for (number, one) in audited.iter().enumerate() {
        numbers.add(alloc, one.url, number)?;
    }
    Ok(numbers)
}

/// The sections on the profiles, in order.
#[tactic(auto, using(crate::proofs::Sections::started, crate::proofs::Sections::ended))]
pub(crate) fn sections(
    alloc: Global,
    sources: Sources<'_, '_>,
    audited: &[Audited<'_>],
) -> Result<Element, NoMemory>
    ensures { IfOk result (λ sections. AreTold (all_audited audited.now) (element_node sections)) }
{
    let numbers = numbers_of(alloc, audited)?;
    let telling = Telling {
        sources,
        numbers: &numbers,
    };
    let mut sections = Element::of_class(alloc, Tag::Div, "profiles")?;
    for (number, one) in audited.iter().enumerate() {
        sections.push(telling.section(alloc, one, number)?)?;
    }
    Ok(sections)
}
