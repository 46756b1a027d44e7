//! The way to a place of a resource.

use fhir_json::Member;
use std::alloc::{AllocError, Global};

/// A step down a resource: the name of an element, and which of its items is meant, if it repeats.
#[derive(Clone, Copy)]
pub(crate) struct Step<'t> {
    name: &'t str,
    index: Option<usize>,
}

// `name` and 3 of `name[3]`.
fn step_of(segment: &str) -> Step<'_> {
    let Some((name, rest)) = segment.split_once('[') else {
        return Step {
            name: segment,
            index: None,
        };
    };
    let digits = rest.strip_suffix(']').unwrap_or(rest);
    Step {
        name,
        index: digits.parse::<usize>().ok(),
    }
}

/// The steps of a place, of which the first is the resource itself.
pub(crate) fn steps_of<'t>(alloc: Global, place: &'t str) -> Result<Vec<Step<'t>>, AllocError> {
    let mut steps = Vec::new(alloc);
    for segment in place.split('.') {
        steps.push(step_of(segment))?;
    }
    Ok(steps)
}

// Whether a property is of the element of a name, which may be a choice of types.
fn is_of(property: &str, name: &str) -> bool {
    match property.strip_prefix(name) {
        Some(rest) => is_type(rest),
        None => false,
    }
}

// Whether a text is none, or begins as the name of a type does behind that of a choice.
fn is_type(text: &str) -> bool {
    match text.as_bytes() {
        [first, ..] => first.is_ascii_uppercase(),
        [] => true,
    }
}

/// The way to the place from a value on, which is its first step: none where the way leads elsewhere.
pub(crate) type Way<'w, 't> = Option<&'w [Step<'t>]>;

/// The way behind a value.
pub(crate) fn behind<'w, 't>(way: Way<'w, 't>) -> Way<'w, 't> {
    match way {
        Some([_, rest @ ..]) => Some(rest),
        _ => None,
    }
}

/// Whether the way ends at a value.
pub(crate) fn is_end(way: Way<'_, '_>) -> bool {
    matches!(way, Some([_]))
}

// Whether a step leads into the item at a position: to it, or by it, where it is the first of a property whose items have no positions.
fn leads_into(step: Step<'_>, is_last: bool, position: usize) -> bool {
    match step.index {
        Some(index) => index == position,
        None => position == 0 && !is_last,
    }
}

/// The way into the item at a position, if it leads there.
pub(crate) fn into_item<'w, 't>(way: Way<'w, 't>, position: usize) -> Way<'w, 't> {
    let steps = way?;
    let step = steps.first()?;
    if leads_into(*step, steps.len() == 1, position) {
        way
    } else {
        None
    }
}

/// The way into a property, if it leads there.
pub(crate) fn into_property<'w, 't>(rest: Way<'w, 't>, name: &str) -> Way<'w, 't> {
    match rest {
        Some([step, ..]) if is_of(name, step.name) => rest,
        _ => None,
    }
}

/// Whether the way ends at the property as a whole, whatever items it has.
pub(crate) fn is_shared(way: Way<'_, '_>) -> bool {
    match way {
        Some([step]) => step.index.is_none(),
        _ => false,
    }
}

/// Whether the way ends at an object, or leads to a property that isn't in it.
pub(crate) fn ends_at(way: Way<'_, '_>, members: &[Member<'_>]) -> bool {
    match behind(way) {
        Some([step, ..]) => !members
            .iter()
            .any(|member| is_of(member.name.as_str(), step.name)),
        Some([]) => true,
        None => false,
    }
}
