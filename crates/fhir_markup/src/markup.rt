//! The tree of a page.

ghost use Rattle.std.specs.Prelude.{◌≡◌, ◌∷◌, [], IfOk, OnOk};
ghost use Rattle.fhir_markup.specs.Markup.{fixed, none, also, words, element, with_attribute, with_child};
ghost use Rattle.fhir_markup.specs.Views.{attribute_of, element_node};
ghost use Rattle.fhir_markup.specs.declared.names.AttributeName.TheVariants.{Class};

use crate::names::{AttributeName, Part, Tag};
use std::alloc::{AllocError, Global};

/// An attribute of an element. Texts of a package never are in one.
#[derive(Clone, Copy, Debug)]
pub enum Attribute {
    /// One with a fixed text.
    Fixed(AttributeName, &'static str),
    /// One with a number.
    Number(AttributeName, usize),
    /// The place of a part, by its number.
    Id(Part, usize),
    /// The address of such a place. No other address is in a page.
    Link(Part, usize),
    /// Where the words stand that name the element.
    LabelledBy(Part, usize),
}

/// A piece of a page.
#[derive(Drop)]
#[cycle(markup)]
pub enum Markup {
    /// A text, as a reader sees it.
    Words(String),
    /// An element.
    Element(Element),
}

/// An element of a page.
#[derive(Drop)]
#[cycle(markup)]
pub struct Element {
    pub(crate) tag: Tag,
    pub(crate) attributes: Vec<Attribute>,
    pub(crate) children: Vec<Markup>,
}

impl Element {
    /// An element with nothing in it.
    pub fn new(alloc: Global, tag: Tag) -> Element
        ensures { element_node result ≡ element tag [] none }
    {
        Element {
            tag,
            attributes: Vec::new(alloc),
            children: Vec::new(alloc),
        }
    }

    /// One that is of a class, for its looks.
    pub fn of_class(alloc: Global, tag: Tag, class: &'static str) -> Result<Element, AllocError>
        ensures { IfOk result (λ made. element_node made ≡ element tag (fixed Class class.now ∷ []) none) }
    {
        let mut element = Element::new(alloc, tag);
        element.set(Attribute::Fixed(AttributeName::Class, class))?;
        Ok(element)
    }

    /// One with a text in it.
    pub fn of_text(alloc: Global, tag: Tag, text: &str) -> Result<Element, AllocError>
        ensures { IfOk result (λ made. element_node made ≡ element tag [] (also (words text.now) none)) }
    {
        let mut element = Element::new(alloc, tag);
        element.push_text(alloc, text)?;
        Ok(element)
    }

    /// Gives it an attribute, behind those that it has.
    pub fn set(&mut self, attribute: Attribute) -> Result<(), AllocError>
        ensures { OnOk result (element_node self.new ≡ with_attribute (element_node self.old) (attribute_of attribute)) }
    {
        Ok(self.attributes.push(attribute)?)
    }

    /// Puts an element into it, behind what is in it.
    pub fn push(&mut self, child: Element) -> Result<(), AllocError>
        ensures { OnOk result (element_node self.new ≡ with_child (element_node self.old) (element_node child)) }
    {
        Ok(self.children.push(Markup::Element(child))?)
    }

    /// Puts a text into it.
    pub fn push_text(&mut self, alloc: Global, text: &str) -> Result<(), AllocError>
        ensures { OnOk result (element_node self.new ≡ with_child (element_node self.old) (words text.now)) }
    {
        let words = String::from_str(alloc, text)?;
        Ok(self.children.push(Markup::Words(words))?)
    }
}
