//! What is told of definitions that are not kept.

ghost use Rattle.std.specs.Prelude.{◌≡◌, IfOk, string_bytes};
ghost use Rattle.std.specs.Option.{option_map};
ghost use Rattle.fhir_gather.specs.Gathering.{origin_of, dropped_for};
ghost use Rattle.fhir_gather.specs.Views.{taken_seen, origin_seen, dropped_seen};

use crate::kept::Kept;
use fhir_json::NoMemory;
use fhir_matching::json_eq_in;
use fhir_package::Kind;
use std::alloc::{AllocError, Global};

/// Where a definition stands.
#[derive(Drop)]
pub struct Origin {
    /// The name of the folder.
    pub folder: String,
    /// The name of the file.
    pub file: String,
    /// The version of the definition, if it has one.
    pub version: Option<String>,
}

/// A definition that isn't kept, since one of the same kind and url is.
#[derive(Drop)]
pub struct DroppedOne {
    /// The kind.
    pub kind: Kind,
    /// The url.
    pub url: String,
    /// Where the one stands that is kept.
    pub first: Origin,
    /// Where this one stands.
    pub second: Origin,
    /// Whether the two are equal.
    pub is_equal: bool,
}

// A text in memory of its own, if there is one.
fn owned(alloc: Global, text: Option<&str>) -> Result<Option<String>, AllocError>
    ensures { IfOk result (λ own. option_map string_bytes own ≡ option_map (λ r. r.now) text.entry) }
{
    match text {
        Some(text) => Ok(Some(String::from_str(alloc, text)?)),
        None => Ok(None),
    }
}

fn origin_of(alloc: Global, kept: &Kept<'_>) -> Result<Origin, NoMemory>
    ensures { IfOk result (λ o. origin_seen o ≡ origin_of (taken_seen kept.now)) }
{
    Ok(Origin {
        folder: String::from_str(alloc, kept.folder)?,
        file: String::from_str(alloc, kept.file)?,
        version: owned(alloc, kept.definition.tree().text_in("version"))?,
    })
}

impl DroppedOne {
    /// What is told of the second, where the first is kept.
    pub(crate) fn of(
        alloc: Global,
        first: &Kept<'_>,
        second: Kept<'_>,
    ) -> Result<DroppedOne, NoMemory>
        ensures { IfOk result (λ d. dropped_seen d ≡ dropped_for (taken_seen first.now) (taken_seen second.entry)) }
    {
        let is_equal = json_eq_in(alloc, first.definition.tree(), second.definition.tree())?;
        Ok(DroppedOne {
            kind: second.definition.kind(),
            url: String::from_str(alloc, second.definition.url())?,
            first: origin_of(alloc, first)?,
            second: origin_of(alloc, &second)?,
            is_equal,
        })
    }
}
