//! How many there may be of an element, how long its texts may be, and which values it has.

ghost use Rattle.std.specs.Prelude.{◌≡◌, ◌++◌, IfOk, OnOk, codes, decimal, string_bytes};
ghost use Rattle.fhir_json.specs.Compact.{compact};
ghost use Rattle.fhir_json.specs.Views.{tree_of, property_of, property_seen};
ghost use Rattle.fhir_element_texts.specs.Texts.{most_text, cardinality_text, length_text, value_text, member_text, members_text};

use fhir_elements::{ElementDef, Max};
use fhir_json::{Json, Member, NoMemory, write};
use itoa::Buffer;
use std::alloc::{AllocError, Global};

fn push_count(count: u32, into: &mut String) -> Result<(), AllocError>
    ensures { OnOk result (string_bytes into.new ≡ string_bytes into.old ++ decimal count) }
{
    into.push_str(Buffer::new().format(count))
}

fn push_most(most: Option<Max>, into: &mut String) -> Result<(), AllocError>
    ensures { OnOk result (string_bytes into.new ≡ string_bytes into.old ++ most_text most) }
{
    match most {
        Some(Max::UpTo(most)) => push_count(most, into),
        Some(Max::Unbounded) | None => into.push_str("*"),
    }
}

/// How many there may be of an element, as `0..1`: without a `min` at least 0, and without a `max` any number. The one refusal is want of memory.
pub fn cardinality_text(alloc: Global, element: &ElementDef) -> Result<String, AllocError>
    ensures { IfOk result (λ text. string_bytes text ≡ cardinality_text element.now) }
{
    let mut text = String::new(alloc);
    push_count(element.min().unwrap_or(0), &mut text)?;
    text.push_str("..")?;
    push_most(element.max(), &mut text)?;
    Ok(text)
}

/// How long an element's texts may be (`maxLength`). The one refusal is want of memory.
pub fn length_text(alloc: Global, element: &ElementDef) -> Result<String, AllocError>
    ensures { IfOk result (λ text. string_bytes text ≡ length_text element.now) }
{
    match element.max_length() {
        Some(length) => String::from_str(alloc, Buffer::new().format(length)),
        None => String::from_str(alloc, "any length"),
    }
}

/// The text of a value. The one refusal is want of memory.
pub fn json_text(alloc: Global, value: &Json<'_>) -> Result<String, NoMemory>
    ensures { IfOk result (λ text. string_bytes text ≡ compact (tree_of value.now)) }
{
    let bytes = write(alloc, value)?;
    Ok(String::from_utf8_lossy(alloc, &bytes)?)
}

// Puts in a value under its whole name.
fn push_value(alloc: Global, member: &Member<'static>, into: &mut String) -> Result<(), NoMemory>
    ensures { OnOk result (string_bytes into.new ≡ string_bytes into.old ++ value_text (property_of member.now)) }
{
    let value = json_text(alloc, &member.value)?;
    into.push_str(member.name.as_str())?;
    into.push_str(" ")?;
    into.push_str(value.as_str())?;
    Ok(())
}

fn value_text(alloc: Global, member: &Member<'static>) -> Result<String, NoMemory>
    ensures { IfOk result (λ text. string_bytes text ≡ value_text (property_of member.now)) }
{
    let mut text = String::new(alloc);
    push_value(alloc, member, &mut text)?;
    Ok(text)
}

fn both_text(
    alloc: Global,
    first: &Member<'static>,
    second: &Member<'static>,
) -> Result<String, NoMemory>
    ensures { IfOk result (λ text. string_bytes text ≡ value_text (property_of first.now) ++ codes ", " ++ value_text (property_of second.now)) }
{
    let mut text = String::new(alloc);
    push_value(alloc, first, &mut text)?;
    text.push_str(", ")?;
    push_value(alloc, second, &mut text)?;
    Ok(text)
}

/// A value under its whole name, as `fixedCode "x"`; `nothing` where there is none. The one refusal is want of memory.
pub fn member_text(alloc: Global, member: Option<&Member<'static>>) -> Result<String, NoMemory>
    ensures { IfOk result (λ text. string_bytes text ≡ member_text (property_seen member.entry)) }
{
    match member {
        Some(member) => value_text(alloc, member),
        None => Ok(String::from_str(alloc, "nothing")?),
    }
}

/// Two values, each under its whole name, with a comma between them; `nothing` where there is none. The one refusal is want of memory.
pub fn members_text(
    alloc: Global,
    first: Option<&Member<'static>>,
    second: Option<&Member<'static>>,
) -> Result<String, NoMemory>
    ensures { IfOk result (λ text. string_bytes text ≡ members_text (property_seen first.entry) (property_seen second.entry)) }
{
    match (first, second) {
        (Some(first), Some(second)) => both_text(alloc, first, second),
        (Some(first), None) => value_text(alloc, first),
        (None, second) => member_text(alloc, second),
    }
}
