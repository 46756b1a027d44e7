//! The definitions that a text numbers.

ghost use Rattle.std.specs.Prelude.{◌≡◌, map, option_map, true, IfOk};
ghost use Rattle.std.specs.Option.{option_map_or};
ghost use Rattle.std.specs.List.{list_all, slice_get};
ghost use Rattle.fhir_json.specs.Views.{text_seen};
ghost use Rattle.fhir_schema.specs.Versions.{can_be_used};
ghost use Rattle.fhir_certificate.specs.Numbers.{url_named};
ghost use Rattle.fhir_certificate.specs.Format.{numbering};
ghost use Rattle.fhir_certificate.specs.Judging.{are_loaded, has_version};
ghost use Rattle.fhir_certificate.specs.Views.{stated_seen};

use crate::versions::has_version;
use fhir_json::NoMemory;
use fhir_names::Index;
use fhir_schema::Schema;
use std::alloc::Global;
use std::marker::Model;

/// A definition that has a line: its url, and how its version is written.
#[derive(Clone, Copy)]
pub(crate) struct StatedText<'a> {
    pub(crate) url: &'a str,
    pub(crate) version: &'a str,
}

/// The definitions that a text numbers; none where it names each by its url.
#[derive(Drop)]
pub(crate) struct Definitions<'a> {
    pub(crate) stated: Option<Vec<StatedText<'a>>>,
    pub(crate) places: Index,
}

impl<'a> Model for Definitions<'a> {
    ghost use Rattle.std.specs.Prelude.{List, Option};
    ghost use Rattle.fhir_certificate.specs.Format.{Stated};
    ghost use Rattle.fhir_certificate.specs.Views.{all_stated, AreNumbered};

    ghost Value = { Option (List Stated) };

    ghost view = { λ d. all_stated d.stated };

    ghost invariant = { λ d. AreNumbered (all_stated d.stated) d.places };
}

fn url_at<'a>(stated: &[StatedText<'a>], place: usize) -> Option<&'a str>
    ensures { text_seen result ≡ option_map (λ d. d.url.now) (slice_get stated.now place) }
{
    match stated.get(place) {
        Some(definition) => Some(definition.url),
        None => None,
    }
}

fn are_loaded(schema: &Schema, stated: &[StatedText<'_>]) -> bool
    ensures { result ≡ list_all (λ d. can_be_used schema.now d.url.now) stated.now }
{
    stated
        .iter()
        .all(|definition| schema.can_be_used(definition.url))
}

fn have_versions(
    alloc: Global,
    schema: &Schema,
    stated: &[StatedText<'_>],
) -> Result<bool, NoMemory>
    ensures { IfOk result (λ are. are ≡ list_all (has_version schema.now) (map stated_seen stated.now)) }
{
    for definition in stated {
        if !has_version(alloc, schema, *definition)? {
            return Ok(false);
        }
    }
    Ok(true)
}

impl<'a> Definitions<'a> {
    /// The url of the definition that a text names, where it has one: by its number, or else by the url itself.
    pub(crate) fn url(&self, text: &'a str) -> Option<&'a str>
        ensures { text_seen result ≡ url_named (numbering self.now) text.now }
    {
        match &self.stated {
            Some(stated) => match self.places.get(text) {
                Some(place) => url_at(stated, place),
                None => None,
            },
            None => Some(text),
        }
    }

    /// Whether each can be used.
    pub(crate) fn are_loaded(&self, schema: &Schema) -> bool
        ensures { result ≡ are_loaded schema.now self.now }
    {
        match &self.stated {
            Some(stated) => are_loaded(schema, stated),
            None => true,
        }
    }

    /// Whether each has the version that is written. The one refusal is want of memory.
    pub(crate) fn have_versions(&self, alloc: Global, schema: &Schema) -> Result<bool, NoMemory>
        ensures { IfOk result (λ are. are ≡ option_map_or (list_all (has_version schema.now)) self.now true) }
    {
        match &self.stated {
            Some(stated) => have_versions(alloc, schema, stated),
            None => Ok(true),
        }
    }
}
