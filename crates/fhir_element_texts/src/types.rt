//! Which types an element's items can have.

ghost use Rattle.std.specs.Prelude.{◌≡◌, ◌++◌, IfOk, OnOk, codes, map, string_bytes};
ghost use Rattle.std.specs.List.{flat_map};
ghost use Rattle.fhir_element_texts.specs.Texts.{urls_text, type_text, types_text, node_types_text};

use fhir_elements::TypeEntry;
use fhir_schema::{NodeRef, Schema};
use std::alloc::{AllocError, Global};

fn push_more_urls(urls: &[String], into: &mut String) -> Result<(), AllocError>
    ensures { OnOk result (string_bytes into.new ≡ string_bytes into.old ++ flat_map (λ u. codes " or " ++ u) (map string_bytes urls.now)) }
{
    for url in urls {
        into.push_str(" or ")?;
        into.push_str(url.as_str())?;
    }
    Ok(())
}

fn push_urls(opening: &str, urls: &[String], into: &mut String) -> Result<(), AllocError>
    ensures { OnOk result (string_bytes into.new ≡ string_bytes into.old ++ urls_text opening.now (map string_bytes urls.now)) }
{
    match urls {
        [] => Ok(()),
        [first, others @ ..] => {
            into.push_str(opening)?;
            into.push_str(first.as_str())?;
            push_more_urls(others, into)
        }
    }
}

fn push_type(entry: &TypeEntry, into: &mut String) -> Result<(), AllocError>
    ensures { OnOk result (string_bytes into.new ≡ string_bytes into.old ++ type_text entry.now) }
{
    into.push_str(entry.code())?;
    push_urls(" as ", entry.profiles(), into)?;
    push_urls(" to ", entry.targets(), into)
}

fn push_more_types(entries: &[TypeEntry], into: &mut String) -> Result<(), AllocError>
    ensures { OnOk result (string_bytes into.new ≡ string_bytes into.old ++ flat_map (λ e. codes ", " ++ type_text e) entries.now) }
{
    for entry in entries {
        into.push_str(", ")?;
        push_type(entry, into)?;
    }
    Ok(())
}

/// Types, each with its profiles and targets. The one refusal is want of memory.
pub fn types_text(alloc: Global, entries: &[TypeEntry]) -> Result<String, AllocError>
    ensures { IfOk result (λ text. string_bytes text ≡ types_text entries.now) }
{
    let mut text = String::new(alloc);
    match entries {
        [] => text.push_str("any type")?,
        [first, others @ ..] => {
            push_type(first, &mut text)?;
            push_more_types(others, &mut text)?;
        }
    }
    Ok(text)
}

/// The types of a node's items, each with its profiles and targets; of a root its own type. The one refusal is want of memory.
pub fn node_types_text(alloc: Global, schema: &Schema, node: NodeRef) -> Result<String, AllocError>
    ensures { IfOk result (λ text. string_bytes text ≡ node_types_text schema.now node) }
{
    if schema.is_root(node) {
        String::from_str(alloc, schema.type_code(node))
    } else {
        types_text(alloc, schema.types(node))
    }
}
