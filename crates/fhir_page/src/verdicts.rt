//! How a verdict looks.

use fhir_audit::Verdict;
use fhir_base_tree::Shape;
use fhir_markup::{Element, Tag};
use fhir_page_frame::push_term;
use std::alloc::{AllocError, Global};

/// The class of a verdict.
pub(crate) fn class_of(verdict: &Verdict<'_>) -> &'static str {
    match verdict {
        Verdict::Narrows(_) => "narrows",
        Verdict::DoesNotNarrow { .. } => "breaks",
        Verdict::IsNotShown { .. } => "unshown",
        Verdict::CannotBeUsed(_) => "unusable",
        Verdict::HasNoBase => "baseless",
    }
}

/// Whether a verdict is that a profile narrows its base.
pub(crate) fn is_good(verdict: &Verdict<'_>) -> bool {
    matches!(verdict, Verdict::Narrows(_))
}

/// The shape of a verdict in a picture.
pub(crate) fn shape_of(verdict: &Verdict<'_>) -> Shape {
    match verdict {
        Verdict::Narrows(_) => Shape::Dot,
        Verdict::DoesNotNarrow { .. } => Shape::Cross,
        Verdict::IsNotShown { .. } => Shape::Triangle,
        Verdict::CannotBeUsed(_) => Shape::Square,
        Verdict::HasNoBase => Shape::Rhomb,
    }
}

/// What each verdict says.
pub(crate) fn meanings(alloc: Global) -> Result<Element, AllocError> {
    let mut list = Element::of_class(alloc, Tag::Dl, "meanings")?;
    push_term(
        alloc,
        &mut list,
        "narrows",
        "narrows",
        "A certificate shows that each resource which conforms to the profile conforms to its base.",
    )?;
    push_term(
        alloc,
        &mut list,
        "breaks",
        "does not narrow",
        "The resource that is shown conforms to the profile and not to its base.",
    )?;
    push_term(
        alloc,
        &mut list,
        "unshown",
        "isn't shown to narrow",
        "There is no certificate, and no such resource was found. This doesn't say that the profile allows more than its base.",
    )?;
    push_term(
        alloc,
        &mut list,
        "unusable",
        "can't be used",
        "The profile, or its base, isn't judged, for the reason that is given.",
    )?;
    push_term(
        alloc,
        &mut list,
        "baseless",
        "rests on a base that isn't here",
        "The package has no definition that the profile's baseDefinition names.",
    )?;
    Ok(list)
}
