//! Pieces that pages are made of.

ghost use Rattle.std.specs.Prelude.{◌≡◌, IfOk, IfSome, OnOk, string_bytes};
ghost use Rattle.fhir_json.specs.Compact.{compact};
ghost use Rattle.fhir_json.specs.Views.{tree_of};
ghost use Rattle.fhir_markup.specs.Markup.{none, with_child};
ghost use Rattle.fhir_markup.specs.Views.{attribute_of, element_node};
ghost use Rattle.fhir_page_frame.specs.Frame.{classed, saying, term_group, region, IsEnd};

use fhir_json::{Json, NoMemory, write};
use fhir_markup::{Attribute, AttributeName, Element, Tag};
use std::alloc::{AllocError, Global};

/// An element of a class, with a text in it. The one refusal is want of memory.
pub fn worded(
    alloc: Global,
    tag: Tag,
    class: &'static str,
    text: &str,
) -> Result<Element, AllocError>
    ensures { IfOk result (λ made. element_node made ≡ saying tag (classed class.now) text.now) }
{
    let mut element = Element::of_class(alloc, tag, class)?;
    element.push_text(alloc, text)?;
    Ok(element)
}

fn cut_at_last_slash(url: &str) -> Option<(&str, &str)>
    ensures { IfSome result (λ parts. IsEnd url.now parts.1.now) }
{
    url.rsplit_once('/')
}

/// What is after the last slash of a url: a short name. It is the url itself where nothing is.
pub fn short_name(url: &str) -> &str
    ensures { IsEnd url.now result.now }
{
    match cut_at_last_slash(url) {
        Some((_, name)) if !name.is_empty() => name,
        _ => url,
    }
}

/// The text of a value. The one refusal is want of memory.
pub fn json_text(alloc: Global, value: &Json<'_>) -> Result<String, NoMemory>
    ensures { IfOk result (λ text. string_bytes text ≡ compact (tree_of value.now)) }
{
    let bytes = write(alloc, value)?;
    Ok(String::from_utf8_lossy(alloc, &bytes)?)
}

/// A place that is scrolled in itself where it is wider than the window, and that keys lead to, with nothing in it. The one refusal is want of
/// memory.
pub fn scrolled(alloc: Global, named_by: Attribute) -> Result<Element, AllocError>
    ensures { IfOk result (λ place. element_node place ≡ region (attribute_of named_by) none) }
{
    let mut element = Element::of_class(alloc, Tag::Div, "scroll")?;
    element.set(Attribute::Fixed(AttributeName::Role, "region"))?;
    element.set(Attribute::Fixed(AttributeName::Tabindex, "0"))?;
    element.set(named_by)?;
    Ok(element)
}

fn term_group(
    alloc: Global,
    class: &'static str,
    term: &str,
    said: &str,
) -> Result<Element, AllocError>
    ensures { IfOk result (λ group. element_node group ≡ term_group class.now term.now said.now) }
{
    let mut group = Element::of_class(alloc, Tag::Div, class)?;
    group.push(Element::of_text(alloc, Tag::Dt, term)?)?;
    group.push(Element::of_text(alloc, Tag::Dd, said)?)?;
    Ok(group)
}

/// Puts a term and what is said of it into a list of such. The one refusal is want of memory.
pub fn push_term(
    alloc: Global,
    into: &mut Element,
    class: &'static str,
    term: &str,
    said: &str,
) -> Result<(), AllocError>
    ensures { OnOk result (element_node into.new ≡ with_child (element_node into.old) (term_group class.now term.now said.now)) }
{
    let group = term_group(alloc, class, term, said)?;
    into.push(group)
}
