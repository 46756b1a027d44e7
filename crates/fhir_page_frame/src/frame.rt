//! What stands around the content of a page.

ghost use Rattle.std.specs.Prelude.{◌≡◌, ◌∷◌, [], codes, IfOk};
ghost use Rattle.fhir_markup.specs.Markup.{fixed, element, none};
ghost use Rattle.fhir_markup.specs.Views.{element_node};
ghost use Rattle.fhir_markup.specs.declared.names.Tag.TheVariants.{Meta};
ghost use Rattle.fhir_markup.specs.declared.names.AttributeName.TheVariants.{Charset, Name};
ghost use Rattle.fhir_page_frame.specs.Frame.{said_of, head_of, framed, IsPageOf};

use crate::style::{POLICY, style};
use fhir_markup::{Attribute, AttributeName, Element, Tag};
use std::alloc::{AllocError, Global};

fn meta(
    alloc: Global,
    name: AttributeName,
    value: &'static str,
    content: &'static str,
) -> Result<Element, AllocError>
    ensures { IfOk result (λ made. element_node made ≡ said_of name value.now content.now) }
{
    let mut meta = Element::new(alloc, Tag::Meta);
    meta.set(Attribute::Fixed(name, value))?;
    meta.set(Attribute::Fixed(AttributeName::Content, content))?;
    Ok(meta)
}

fn charset(alloc: Global) -> Result<Element, AllocError>
    ensures { IfOk result (λ made. element_node made ≡ element Meta (fixed Charset (codes "utf-8") ∷ []) none) }
{
    let mut meta = Element::new(alloc, Tag::Meta);
    meta.set(Attribute::Fixed(AttributeName::Charset, "utf-8"))?;
    Ok(meta)
}

fn viewport(alloc: Global) -> Result<Element, AllocError>
    ensures { IfOk result (λ made. element_node made ≡ said_of Name (codes "viewport") (codes "width=device-width, initial-scale=1")) }
{
    meta(
        alloc,
        AttributeName::Name,
        "viewport",
        "width=device-width, initial-scale=1",
    )
}

fn head(
    alloc: Global,
    title: &str,
    policy: &'static str,
    style: &str,
) -> Result<Element, AllocError>
    ensures { IfOk result (λ made. element_node made ≡ head_of title.now policy.now style.now) }
{
    let mut head = Element::new(alloc, Tag::Head);
    head.push(charset(alloc)?)?;
    head.push(meta(
        alloc,
        AttributeName::HttpEquiv,
        "Content-Security-Policy",
        policy,
    )?)?;
    head.push(viewport(alloc)?)?;
    head.push(Element::of_text(alloc, Tag::Title, title)?)?;
    head.push(Element::of_text(alloc, Tag::Style, style)?)?;
    Ok(head)
}

// A page of a head and a content.
fn around(alloc: Global, head: Element, content: Element) -> Result<Element, AllocError>
    ensures { IfOk result (λ page. element_node page ≡ framed (element_node head) (element_node content)) }
{
    let mut body = Element::new(alloc, Tag::Body);
    body.push(content)?;
    let mut page = Element::new(alloc, Tag::Html);
    page.set(Attribute::Fixed(AttributeName::Lang, "en"))?;
    page.push(head)?;
    page.push(body)?;
    Ok(page)
}

/// A page of a title and a content. The one refusal is want of memory.
pub fn page_of(alloc: Global, title: &str, content: Element) -> Result<Element, AllocError>
    ensures { IfOk result (λ page. IsPageOf title.now (element_node content) (element_node page)) }
{
    let head = head(alloc, title, POLICY, style())?;
    around(alloc, head, content)
}
