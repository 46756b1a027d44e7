//! A counterexample, with the place marked at which it fails the base.

use fhir_json::NoMemory;
use fhir_marked_json::listed;
use fhir_markup::{Element, Tag};
use fhir_schema::Schema;
use fhir_validator::{Breach, Fault, Issue, Verdict, validate};
use std::alloc::{AllocError, Global};

// A rule that the resource breaks, and where.
#[derive(Drop)]
struct Broken {
    place: String,
    rule: String,
    id: String,
}

fn broken_by(alloc: Global, breach: &Breach<'_>) -> Result<Broken, AllocError> {
    Ok(Broken {
        place: format!(in alloc; "{}", breach.place)?,
        rule: format!(in alloc; "{}", breach.rule)?,
        id: String::from_str(alloc, breach.id)?,
    })
}

fn first_broken(alloc: Global, issues: &[Issue<'_>]) -> Result<Option<Broken>, AllocError> {
    for issue in issues {
        if let Issue::Broken(breach) = issue {
            return Ok(Some(broken_by(alloc, breach)?));
        }
    }
    Ok(None)
}

// The first rule of the base that the resource breaks.
fn broken_at(
    alloc: Global,
    schema: &Schema,
    base: &str,
    resource: &[u8],
) -> Result<Option<Broken>, NoMemory> {
    match validate(alloc, schema, base, resource) {
        Ok(Verdict::Violates(issues)) => Ok(first_broken(alloc, &issues)?),
        Err(Fault::NoMemory) => Err(NoMemory),
        _ => Ok(None),
    }
}

fn words_of(alloc: Global, broken: &Broken) -> Result<Element, AllocError> {
    let mut paragraph = Element::of_text(
        alloc,
        Tag::P,
        "It conforms to the profile. To its base it doesn't, by what that asks for at ",
    )?;
    paragraph.push(Element::of_text(alloc, Tag::Code, broken.place.as_str())?)?;
    paragraph.push_text(alloc, " (element ")?;
    paragraph.push(Element::of_text(alloc, Tag::Code, broken.id.as_str())?)?;
    paragraph.push_text(alloc, "): ")?;
    paragraph.push_text(alloc, broken.rule.as_str())?;
    Ok(paragraph)
}

/// Puts in a resource that conforms to a profile and not to its base, with the first rule of the base that it breaks, and the place marked.
pub(crate) fn push_counterexample(
    alloc: Global,
    into: &mut Element,
    schema: &Schema,
    base: &str,
    resource: &[u8],
) -> Result<(), NoMemory> {
    into.push(Element::of_text(alloc, Tag::H4, "Counterexample")?)?;
    let broken = broken_at(alloc, schema, base, resource)?;
    if let Some(broken) = &broken {
        into.push(words_of(alloc, broken)?)?;
    }
    let place = broken.as_ref().map_or("", |broken| broken.place.as_str());
    Ok(into.push(listed(alloc, resource, place)?)?)
}
