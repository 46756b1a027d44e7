//! The page.

ghost use Rattle.std.specs.Prelude.{◌≡◌, IfOk};
ghost use Rattle.fhir_audit.specs.Views.{all_audited};
ghost use Rattle.fhir_markup.specs.Markup.{Node, document};
ghost use Rattle.fhir_markup.specs.Views.{element_node};
ghost use Rattle.fhir_page.specs.Page.{content_of, IsContent, IsPage};

use crate::counts::{header, title_text};
use crate::profiles::{base_name, sections};
use crate::verdicts::{class_of, is_good, meanings, shape_of};
use fhir_audit::Audited;
use fhir_audit_words::{Counts, Sources, counts_of, verdict_word};
use fhir_base_tree::{Profile, tree};
use fhir_json::NoMemory;
use fhir_markup::{Attribute, Element, Part, Tag, document};
use fhir_package::Survey;
use fhir_page_frame::{page_of, short_name, worded};
use fhir_report::LackingTable;
use fhir_schema::Schema;
use std::alloc::{AllocError, Global};

// The number of the heading of the tree of bases.
const BASES: usize = 1;

fn pointer(alloc: Global, audited: &Audited<'_>, number: usize) -> Result<Element, AllocError> {
    let mut link = Element::of_text(alloc, Tag::A, short_name(audited.url))?;
    link.set(Attribute::Link(Part::Profile, number))?;
    let mut item = Element::new(alloc, Tag::Li);
    item.push(link)?;
    item.push_text(alloc, " ")?;
    item.push(worded(
        alloc,
        Tag::Strong,
        class_of(&audited.verdict),
        verdict_word(&audited.verdict),
    )?)?;
    Ok(item)
}

// Links to the profiles that don't narrow their bases, or aren't shown to.
fn pointers(alloc: Global, audited: &[Audited<'_>]) -> Result<Element, AllocError> {
    let mut list = Element::of_class(alloc, Tag::Ul, "list")?;
    for (number, one) in audited.iter().enumerate() {
        if !is_good(&one.verdict) {
            list.push(pointer(alloc, one, number)?)?;
        }
    }
    Ok(list)
}

fn push_pointers(
    alloc: Global,
    into: &mut Element,
    audited: &[Audited<'_>],
    counts: Counts,
) -> Result<(), AllocError> {
    if counts.narrow == counts.profiles {
        return Ok(());
    }
    into.push(Element::of_text(alloc, Tag::H2, "To look at")?)?;
    into.push(pointers(alloc, audited)?)
}

// A profile of the tree.
fn profile_of<'s>(audited: &Audited<'s>) -> Profile<'s> {
    Profile {
        url: audited.url,
        base: base_name(audited),
        class: class_of(&audited.verdict),
        word: verdict_word(&audited.verdict),
        shape: shape_of(&audited.verdict),
    }
}

fn profiles_of<'s>(alloc: Global, audited: &[Audited<'s>]) -> Result<Vec<Profile<'s>>, AllocError> {
    let mut profiles = Vec::new(alloc);
    for one in audited {
        profiles.push(profile_of(one))?;
    }
    Ok(profiles)
}

fn push_bases(
    alloc: Global,
    into: &mut Element,
    audited: &[Audited<'_>],
) -> Result<(), AllocError> {
    let mut heading = Element::of_text(alloc, Tag::H2, "Bases")?;
    heading.set(Attribute::Id(Part::Heading, BASES))?;
    into.push(heading)?;
    let profiles = profiles_of(alloc, audited)?;
    into.push(tree(
        alloc,
        &profiles,
        Attribute::LabelledBy(Part::Heading, BASES),
    )?)
}

// What stands before the sections: the counts, links to what is to be looked at, and the tree of bases.
fn before(alloc: Global, audited: &[Audited<'_>], counts: Counts) -> Result<Element, AllocError> {
    let mut before = Element::new(alloc, Tag::Div);
    before.push(header(alloc, counts)?)?;
    push_pointers(alloc, &mut before, audited, counts)?;
    push_bases(alloc, &mut before, audited)?;
    before.push(Element::of_text(alloc, Tag::H2, "Profiles")?)?;
    Ok(before)
}

// What stands behind them.
fn behind(alloc: Global) -> Result<Element, AllocError> {
    let mut behind = Element::new(alloc, Tag::Div);
    behind.push(Element::of_text(alloc, Tag::H2, "What the verdicts say")?)?;
    behind.push(meanings(alloc)?)?;
    Ok(behind)
}

fn joined(
    alloc: Global,
    before: Element,
    profiles: Element,
    behind: Element,
) -> Result<Element, AllocError>
    ensures { IfOk result (λ main. element_node main ≡ content_of (element_node before) (element_node profiles) (element_node behind)) }
{
    let mut main = Element::new(alloc, Tag::Main);
    main.push(before)?;
    main.push(profiles)?;
    main.push(behind)?;
    Ok(main)
}

#[tactic(auto, using(crate::proofs::Pages::is_content))]
fn content(
    alloc: Global,
    sources: Sources<'_, '_>,
    audited: &[Audited<'_>],
    counts: Counts,
) -> Result<Element, NoMemory>
    ensures { IfOk result (λ main. IsContent (all_audited audited.now) (element_node main)) }
{
    let before = before(alloc, audited, counts)?;
    let profiles = sections(alloc, sources, audited)?;
    let behind = behind(alloc)?;
    Ok(joined(alloc, before, profiles, behind)?)
}

/// The page of an audit: the counts, the tree of bases, and a section on each profile. It stands alone, and nothing in it runs or is loaded. The
/// one refusal is want of memory.
pub fn page(
    alloc: Global,
    survey: &Survey<'_>,
    schema: &Schema,
    lacking: &LackingTable,
    audited: &[Audited<'_>],
) -> Result<Vec<u8>, NoMemory>
    ensures { IfOk result (λ bytes. (n : Node) × (bytes.items ≡ document n) × IsPage (all_audited audited.now) n) }
{
    let sources = Sources {
        survey,
        schema,
        lacking,
    };
    let counts = counts_of(audited);
    let main = content(alloc, sources, audited, counts)?;
    let page = page_of(alloc, title_text(alloc, counts)?.as_str(), main)?;
    let text = document(alloc, &page)?;
    Ok(text.into_bytes())
}
