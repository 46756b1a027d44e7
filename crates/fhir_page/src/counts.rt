//! The counts.

use fhir_audit_words::Counts;
use fhir_markup::{Element, Tag};
use fhir_page_frame::worded;
use std::alloc::{AllocError, Global};

// One that is none is shown without its colour.
fn class_by(class: &'static str, count: usize) -> &'static str {
    if count == 0 { "none" } else { class }
}

fn push_count(
    alloc: Global,
    into: &mut Element,
    class: &'static str,
    count: usize,
    words: &str,
) -> Result<(), AllocError> {
    let number = format!(in alloc; "{count}")?;
    let mut tile = Element::of_class(alloc, Tag::Div, class_by(class, count))?;
    tile.push(Element::of_text(alloc, Tag::Dt, words)?)?;
    tile.push(Element::of_text(alloc, Tag::Dd, number.as_str())?)?;
    into.push(tile)
}

/// How many profiles there are of each verdict.
pub(crate) fn tiles(alloc: Global, counts: Counts) -> Result<Element, AllocError> {
    let mut list = Element::of_class(alloc, Tag::Dl, "counts")?;
    push_count(alloc, &mut list, "all", counts.profiles, "profiles")?;
    push_count(
        alloc,
        &mut list,
        "narrows",
        counts.narrow,
        "narrow their base",
    )?;
    push_count(alloc, &mut list, "breaks", counts.do_not, "do not")?;
    push_count(
        alloc,
        &mut list,
        "unshown",
        counts.not_shown,
        "aren't shown to",
    )?;
    push_count(
        alloc,
        &mut list,
        "unusable",
        counts.unusable,
        "can't be used",
    )?;
    push_count(
        alloc,
        &mut list,
        "baseless",
        counts.without_base,
        "without a base here",
    )?;
    Ok(list)
}

/// What the page is about, with the counts in front.
pub(crate) fn title_text(alloc: Global, counts: Counts) -> Result<String, AllocError> {
    format!(in alloc;
        "{} of {} profiles narrow their bases",
        counts.narrow, counts.profiles
    )
}

/// The head of the page.
pub(crate) fn header(alloc: Global, counts: Counts) -> Result<Element, AllocError> {
    let mut header = Element::new(alloc, Tag::Header);
    header.push(Element::of_text(alloc, Tag::H1, "Profiles and their bases")?)?;
    header.push(worded(
        alloc,
        Tag::P,
        "lead",
        "A profile narrows its base where each resource that conforms to the profile conforms to its base.",
    )?)?;
    header.push(tiles(alloc, counts)?)?;
    Ok(header)
}
