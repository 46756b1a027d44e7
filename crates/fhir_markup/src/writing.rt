//! How a page is written.

ghost use Rattle.std.specs.Prelude.{◌≡◌, ◌<◌, ◌++◌, ◌==◌, ◌&&◌, not, map, flat_map, OnOk, string_bytes};
ghost use Rattle.std.specs.Char.{is_control, digit_char};
ghost use Rattle.std.specs.Fmt.{decimal};
ghost use Rattle.fhir_json.specs.Memory.{Gives};
ghost use Rattle.fhir_markup.specs.Markup.{coded, is_turning, is_coded, plain_character, escaped_character, escaped, valued, place_text, attribute_text, start_tag, end_tag, html, html_each, document};
ghost use Rattle.fhir_markup.specs.Views.{attribute_of, node_of, element_node, nodes_seen};

use crate::markup::{Attribute, Element, Markup};
use crate::names::{Part, Tag};
use fhir_json::NoMemory;
use std::alloc::{AllocError, Global};

fn hex_digit(value: u32) -> char
    requires { value < 16 }
    ensures { result ≡ digit_char value }
{
    char::from_digit(value, 16).unwrap_or('0')
}

// Four digits, which are enough for the characters that are shown so.
fn push_code(character: char, into: &mut String) -> Result<(), AllocError>
    ensures { OnOk result (string_bytes into.new ≡ string_bytes into.old ++ coded character) }
{
    let code = u32::from(character);
    into.push_str("\\u")?;
    into.push(hex_digit(code / 4096 % 16))?;
    into.push(hex_digit(code / 256 % 16))?;
    into.push(hex_digit(code / 16 % 16))?;
    into.push(hex_digit(code % 16))
}

fn is_turning(character: char) -> bool
    ensures { result ≡ is_turning character }
{
    let code = u32::from(character);
    (8234 <= code && code <= 8238) || (8294 <= code && code <= 8297)
}

fn is_hidden(character: char) -> bool
    ensures { result ≡ (is_control character && not (character == 10)) }
{
    character.is_control() && character != '\n'
}

fn is_coded(character: char) -> bool
    ensures { result ≡ is_coded character }
{
    is_hidden(character) || is_turning(character)
}

fn push_plain(character: char, into: &mut String) -> Result<(), AllocError>
    ensures { OnOk result (string_bytes into.new ≡ string_bytes into.old ++ plain_character character) }
{
    if is_coded(character) {
        push_code(character, into)
    } else {
        into.push(character)
    }
}

fn push_character(character: char, into: &mut String) -> Result<(), AllocError>
    ensures { OnOk result (string_bytes into.new ≡ string_bytes into.old ++ escaped_character character) }
{
    match character {
        '&' => into.push_str("&amp;"),
        '<' => into.push_str("&lt;"),
        '>' => into.push_str("&gt;"),
        '"' => into.push_str("&quot;"),
        '\'' => into.push_str("&#39;"),
        _ => push_plain(character, into),
    }
}

fn push_escaped(text: &str, into: &mut String) -> Result<(), AllocError>
    ensures { OnOk result (string_bytes into.new ≡ string_bytes into.old ++ escaped text.now) }
{
    for character in text.chars() {
        push_character(character, into)?;
    }
    Ok(())
}

fn push_value(name: &'static str, value: &str, into: &mut String) -> Result<(), AllocError>
    ensures { OnOk result (string_bytes into.new ≡ string_bytes into.old ++ valued name.now (escaped value.now)) }
{
    into.push(' ')?;
    into.push_str(name)?;
    into.push_str("=\"")?;
    push_escaped(value, into)?;
    into.push('"')
}

fn push_count(
    alloc: Global,
    name: &'static str,
    count: usize,
    into: &mut String,
) -> Result<(), AllocError>
    ensures { OnOk result (string_bytes into.new ≡ string_bytes into.old ++ valued name.now (decimal count)) }
{
    let value = format!(in alloc; " {name}=\"{count}\"")?;
    into.push_str(value.as_str())
}

// By a place, as `id`; a front as `#` makes an address of it.
fn push_place(
    alloc: Global,
    name: &'static str,
    front: &'static str,
    part: Part,
    number: usize,
    into: &mut String,
) -> Result<(), AllocError>
    ensures { OnOk result (string_bytes into.new ≡ string_bytes into.old ++ valued name.now (front.now ++ place_text part number)) }
{
    let letter = part.text();
    let value = format!(in alloc; " {name}=\"{front}{letter}{number}\"")?;
    into.push_str(value.as_str())
}

fn push_attribute(alloc: Global, attribute: Attribute, into: &mut String) -> Result<(), AllocError>
    ensures { OnOk result (string_bytes into.new ≡ string_bytes into.old ++ attribute_text (attribute_of attribute)) }
{
    match attribute {
        Attribute::Fixed(name, value) => push_value(name.text(), value, into),
        Attribute::Number(name, count) => push_count(alloc, name.text(), count, into),
        Attribute::Id(part, number) => push_place(alloc, "id", "", part, number, into),
        Attribute::Link(part, number) => push_place(alloc, "href", "#", part, number, into),
        Attribute::LabelledBy(part, number) => {
            push_place(alloc, "aria-labelledby", "", part, number, into)
        }
    }
}

fn push_attributes(
    alloc: Global,
    attributes: &[Attribute],
    into: &mut String,
) -> Result<(), AllocError>
    ensures { OnOk result (string_bytes into.new
        ≡ string_bytes into.old ++ flat_map attribute_text (map attribute_of attributes.now)) }
{
    for attribute in attributes {
        push_attribute(alloc, *attribute, into)?;
    }
    Ok(())
}

fn push_start(
    alloc: Global,
    tag: Tag,
    attributes: &[Attribute],
    into: &mut String,
) -> Result<(), AllocError>
    ensures { OnOk result (string_bytes into.new ≡ string_bytes into.old ++ start_tag tag (map attribute_of attributes.now)) }
{
    into.push('<')?;
    into.push_str(tag.text())?;
    push_attributes(alloc, attributes, into)?;
    into.push('>')
}

fn push_end(tag: Tag, into: &mut String) -> Result<(), AllocError>
    ensures { OnOk result (string_bytes into.new ≡ string_bytes into.old ++ end_tag tag) }
{
    if tag.is_void() {
        return Ok(());
    }
    into.push_str("</")?;
    into.push_str(tag.text())?;
    into.push('>')
}

#[cycle(write)]
fn push_markup(alloc: Global, markup: &Markup, into: &mut String) -> Result<(), AllocError>
    ensures { OnOk result (string_bytes into.new ≡ string_bytes into.old ++ html (node_of markup.now)) }
{
    match markup {
        Markup::Words(text) => push_escaped(text.as_str(), into),
        Markup::Element(element) => push_element(alloc, element, into),
    }
}

#[cycle(write)]
fn push_element(alloc: Global, element: &Element, into: &mut String) -> Result<(), AllocError>
    ensures { OnOk result (string_bytes into.new ≡ string_bytes into.old ++ html (element_node element.now)) }
{
    push_start(alloc, element.tag, &element.attributes, into)?;
    push_children(alloc, &element.children, into)?;
    push_end(element.tag, into)
}

#[cycle(write)]
fn push_children(alloc: Global, children: &Vec<Markup>, into: &mut String) -> Result<(), AllocError>
    ensures { OnOk result (string_bytes into.new ≡ string_bytes into.old ++ html_each (nodes_seen children.now.items)) }
{
    for child in children {
        push_markup(alloc, child, into)?;
    }
    Ok(())
}

/// The page of an element, in UTF-8: each text in it stands escaped, so that a reader of pages sees the text, and each element in its tags.
/// The one refusal is want of memory.
pub fn document(alloc: Global, element: &Element) -> Result<String, NoMemory>
    ensures { Gives string_bytes result (document (element_node element.now)) }
{
    let mut text = String::from_str(alloc, "<!DOCTYPE html>\n")?;
    push_element(alloc, element, &mut text)?;
    Ok(text)
}
