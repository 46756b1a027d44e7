//! The tree as a picture.

ghost use Rattle.std.specs.Prelude.{IfOk};
ghost use Rattle.fhir_markup.specs.Views.{attribute_of, element_node};
ghost use Rattle.fhir_base_tree.specs.Tree.{IsShown};

use crate::forest::{Forest, Profile, Row, Shape};
use fhir_markup::{Attribute, AttributeName, Element, Part, Tag};
use fhir_page_frame::{scrolled, short_name};
use std::alloc::{AllocError, Global};

// How high a row is, and how far a profile stands behind its base.
const ROW: usize = 24;

const STEP: usize = 20;
// Deeper ones stand below one another.
const DEEPEST: usize = 24;
// How much of a name is shown.
const LONGEST: usize = 64;
// How wide a character is, at most.
const LETTER: usize = 8;

// The lines of a shape, around its middle.
fn path_of(shape: Shape) -> &'static str {
    match shape {
        Shape::Dot => "M-4 0A4 4 0 1 0 4 0A4 4 0 1 0-4 0",
        Shape::Cross => "M-4-4L4 4M4-4L-4 4",
        Shape::Triangle => "M0-5L5 4H-5Z",
        Shape::Square => "M-4-4H4V4H-4Z",
        Shape::Rhomb => "M0-5L5 0L0 5L-5 0Z",
    }
}

fn left_of(row: Row) -> usize {
    row.depth.min(DEEPEST).saturating_mul(STEP)
}

fn top_of(line: usize) -> usize {
    line.saturating_mul(ROW)
}

// The front of a name, if it is long.
fn shown_name(alloc: Global, name: &str) -> Result<String, AllocError> {
    let mut text = String::new(alloc);
    for (place, character) in short_name(name).chars().enumerate() {
        if place == LONGEST {
            text.push('…')?;
            return Ok(text);
        }
        text.push(character)?;
    }
    Ok(text)
}

fn place(element: &mut Element, left: usize, top: usize) -> Result<(), AllocError> {
    element.set(Attribute::Number(AttributeName::X, left))?;
    element.set(Attribute::Number(AttributeName::Y, top))
}

// A line, upright or level.
fn line(
    alloc: Global,
    left: usize,
    top: usize,
    width: usize,
    height: usize,
) -> Result<Element, AllocError> {
    let mut line = Element::of_class(alloc, Tag::Rect, "line")?;
    place(&mut line, left, top)?;
    line.set(Attribute::Number(AttributeName::Width, width))?;
    line.set(Attribute::Number(AttributeName::Height, height))?;
    Ok(line)
}

// From a base down to a row, and to the row's shape.
fn push_lines(
    alloc: Global,
    into: &mut Element,
    base: Row,
    base_line: usize,
    row_line: usize,
) -> Result<(), AllocError> {
    let left = left_of(base).saturating_add(8);
    let top = top_of(base_line).saturating_add(18);
    let bottom = top_of(row_line).saturating_add(12);
    into.push(line(alloc, left, top, 1, bottom.saturating_sub(top))?)?;
    into.push(line(alloc, left, bottom, STEP - 6, 1)?)
}

fn push_row_lines(
    alloc: Global,
    into: &mut Element,
    rows: &[Row],
    row_line: usize,
    row: Row,
) -> Result<(), AllocError> {
    let Some(base_line) = row.base else {
        return Ok(());
    };
    match rows.get(base_line) {
        Some(base) => push_lines(alloc, into, *base, base_line, row_line),
        None => Ok(()),
    }
}

// A shape around its middle.
fn shape(
    alloc: Global,
    left: usize,
    top: usize,
    path: &'static str,
    class: &'static str,
) -> Result<Element, AllocError> {
    let mut inner = Element::new(alloc, Tag::Svg);
    place(&mut inner, left, top)?;
    let mut drawn = Element::of_class(alloc, Tag::Path, class)?;
    drawn.set(Attribute::Fixed(AttributeName::D, path))?;
    inner.push(drawn)?;
    Ok(inner)
}

fn words(
    alloc: Global,
    left: usize,
    top: usize,
    name: &str,
    word: &str,
) -> Result<Element, AllocError> {
    let mut text = Element::new(alloc, Tag::Text);
    place(&mut text, left, top)?;
    let mut named = Element::of_class(alloc, Tag::Tspan, "name")?;
    named.push_text(alloc, name)?;
    text.push(named)?;
    let mut said = Element::of_class(alloc, Tag::Tspan, "word")?;
    said.set(Attribute::Number(AttributeName::Dx, 8))?;
    said.push_text(alloc, word)?;
    text.push(said)?;
    Ok(text)
}

// What is drawn of a row: a name and a word, with a shape in front.
#[derive(Clone, Copy)]
struct Look<'n> {
    name: &'n str,
    word: &'static str,
    path: &'static str,
    class: &'static str,
}

// Puts a row into the picture, in a group, and answers how wide the row is.
fn put_row(
    alloc: Global,
    into: &mut Element,
    mut group: Element,
    row: Row,
    row_line: usize,
    look: Look<'_>,
) -> Result<usize, AllocError> {
    let left = left_of(row).saturating_add(8);
    let middle = top_of(row_line).saturating_add(12);
    let name = shown_name(alloc, look.name)?;
    group.push(shape(alloc, left, middle, look.path, look.class)?)?;
    group.push(words(
        alloc,
        left.saturating_add(14),
        middle.saturating_add(4),
        name.as_str(),
        look.word,
    )?)?;
    into.push(group)?;
    let letters = name.chars().count().saturating_add(look.word.len());
    Ok(
        left.saturating_add(32)
            .saturating_add(letters.saturating_mul(LETTER)),
    )
}

fn put_profile(
    alloc: Global,
    into: &mut Element,
    profile: &Profile<'_>,
    row: Row,
    row_line: usize,
) -> Result<usize, AllocError> {
    let mut group = Element::of_class(alloc, Tag::A, profile.class)?;
    group.set(Attribute::Link(Part::Profile, row.node))?;
    let look = Look {
        name: profile.url,
        word: profile.word,
        path: path_of(profile.shape),
        class: "spot",
    };
    put_row(alloc, into, group, row, row_line, look)
}

fn put_base(
    alloc: Global,
    into: &mut Element,
    name: &str,
    row: Row,
    row_line: usize,
) -> Result<usize, AllocError> {
    let group = Element::of_class(alloc, Tag::G, "base")?;
    let look = Look {
        name,
        word: "base",
        path: path_of(Shape::Dot),
        class: "spot hollow",
    };
    put_row(alloc, into, group, row, row_line, look)
}

fn put_at_line(
    alloc: Global,
    into: &mut Element,
    forest: &Forest<'_>,
    profiles: &[Profile<'_>],
    row: Row,
    row_line: usize,
) -> Result<usize, AllocError> {
    match profiles.get(row.node) {
        Some(profile) => put_profile(alloc, into, profile, row, row_line),
        None => {
            let name = forest.names.get(row.node).copied().unwrap_or("");
            put_base(alloc, into, name, row, row_line)
        }
    }
}

fn titled(alloc: Global) -> Result<Element, AllocError> {
    let mut picture = Element::of_class(alloc, Tag::Svg, "tree")?;
    picture.set(Attribute::Fixed(AttributeName::Role, "group"))?;
    picture.set(Attribute::LabelledBy(Part::Heading, PICTURE))?;
    let mut title = Element::new(alloc, Tag::Title);
    title.set(Attribute::Id(Part::Heading, PICTURE))?;
    title.push_text(
        alloc,
        "Each profile below its base, with its verdict as a shape, a colour and a word",
    )?;
    picture.push(title)?;
    Ok(picture)
}

// The number of the picture's title, among those of headings.
const PICTURE: usize = 0;

fn put_lines(alloc: Global, into: &mut Element, rows: &[Row]) -> Result<(), AllocError> {
    for (row_line, row) in rows.iter().enumerate() {
        push_row_lines(alloc, into, rows, row_line, *row)?;
    }
    Ok(())
}

// Puts in all rows, and answers how wide the widest is.
fn put_rows(
    alloc: Global,
    into: &mut Element,
    forest: &Forest<'_>,
    profiles: &[Profile<'_>],
    rows: &[Row],
) -> Result<usize, AllocError> {
    let mut width: usize = 0;
    for (row_line, row) in rows.iter().enumerate() {
        width = width.max(put_at_line(alloc, into, forest, profiles, *row, row_line)?);
    }
    Ok(width)
}

fn picture(
    alloc: Global,
    forest: &Forest<'_>,
    profiles: &[Profile<'_>],
    rows: &[Row],
) -> Result<Element, AllocError> {
    let mut picture = titled(alloc)?;
    put_lines(alloc, &mut picture, rows)?;
    let width = put_rows(alloc, &mut picture, forest, profiles, rows)?;
    picture.set(Attribute::Number(AttributeName::Width, width))?;
    picture.set(Attribute::Number(AttributeName::Height, top_of(rows.len())))?;
    Ok(picture)
}

/// The tree of bases: each profile below its base, and bases that aren't among the profiles as its roots. The one refusal is want of memory.
#[tactic(auto, using(crate::proofs::Shown::is_shown))]
pub fn tree(
    alloc: Global,
    profiles: &[Profile<'_>],
    named_by: Attribute,
) -> Result<Element, AllocError>
    ensures { IfOk result (λ tree. IsShown (attribute_of named_by) (element_node tree)) }
{
    let forest = Forest::of(alloc, profiles)?;
    let rows = forest.rows(alloc, profiles.len())?;
    let mut around = scrolled(alloc, named_by)?;
    around.push(picture(alloc, &forest, profiles, &rows)?)?;
    Ok(around)
}
