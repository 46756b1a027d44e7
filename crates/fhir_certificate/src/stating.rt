//! The lines that number definitions.

ghost use Rattle.std.specs.Prelude.{◌≡◌, ◌+◌, ◌++◌, ◌∷◌, ◌&&◌, ◌<◌, [], List, length, map, None, Some, is_none, option_map, IfOk, IfSome, OnOk, MatchOption};
ghost use Rattle.std.specs.Option.{option_and_then};
ghost use Rattle.fhir_json.specs.Tree.{Text};
ghost use Rattle.fhir_json.specs.Views.{text_seen};
ghost use Rattle.fhir_names.specs.Places.{place_of, Finds};
ghost use Rattle.fhir_certificate.specs.Numbers.{number_text, number_texts};
ghost use Rattle.fhir_certificate.specs.Format.{Stated};
ghost use Rattle.fhir_certificate.specs.Reading.{lines_of, behind_field, definition_fields, definition_with, definition_of, definition_lines, behind_lines, definitions_at, front_of};
ghost use Rattle.fhir_certificate.specs.Views.{parts_seen, stated_seen};
ghost use Rattle.fhir_certificate.specs.Stating.{AreLines};

use crate::fields::{behind_field, behind_line, cut_at_feed, field_at, is_field};
use crate::stated::{Definitions, StatedText};
use crate::versions::is_version;
use fhir_json::NoMemory;
use fhir_names::Index;
use itoa::Buffer;
use std::alloc::{AllocError, Global};

/// The definitions of the lines that were read, found by their numbers and by their urls.
#[derive(Drop)]
pub(crate) struct DefinitionLines<'a> {
    /// The definitions, in the order of their numbers.
    pub(crate) stated: Vec<StatedText<'a>>,
    numbers: Index,
    urls: Index,
    /// The number of the first whose url another has before it.
    pub(crate) repeated: Option<usize>,
}

// What stands behind a field with that number.
#[tactic(auto, using(crate::proofs::Numbered::number_is))]
fn behind_number(number: usize, text: &str) -> Option<&str>
    ensures { text_seen result ≡ behind_field (number_text number) text.now }
{
    let mut buffer = Buffer::new();
    behind_field(buffer.format(number), text)
}

fn definition_fields(number: usize, line: &str) -> Option<(&str, &str)>
    ensures { parts_seen result ≡ definition_fields number line.now }
{
    let rest = behind_field("def", line)?;
    field_at(behind_number(number, rest)?)
}

fn definition_with<'a>(
    alloc: Global,
    url: &'a str,
    version: &'a str,
) -> Result<Option<StatedText<'a>>, NoMemory>
    ensures { IfOk result (λ d. option_map stated_seen d ≡ definition_with (url.now, version.now)) }
{
    if !is_field(version) {
        return Ok(None);
    }
    if is_version(alloc, version)? {
        Ok(Some(StatedText { url, version }))
    } else {
        Ok(None)
    }
}

fn definition_of(
    alloc: Global,
    number: usize,
    line: &str,
) -> Result<Option<StatedText<'_>>, NoMemory>
    ensures { IfOk result (λ d. option_map stated_seen d ≡ definition_of number line.now) }
{
    match definition_fields(number, line) {
        Some((url, version)) => definition_with(alloc, url, version),
        None => Ok(None),
    }
}

// The definition of that number in the first line, and what stands behind the line.
fn next_definition(
    alloc: Global,
    number: usize,
    text: &str,
) -> Result<Option<(StatedText<'_>, &str)>, NoMemory>
    ensures lines { IfOk result (λ r. MatchOption r (definition_lines number (lines_of text.now) ≡ [])
        (λ p. definition_lines number (lines_of text.now) ≡ stated_seen p.0 ∷ definition_lines (number + 1) (lines_of p.1.now))) }
    ensures behind { IfOk result (λ r. IfSome r (λ p. behind_lines 1 text.now ≡ p.1.now)) }
    ensures shorter { IfOk result (λ r. IfSome r (λ p. length p.1.now < length text.now)) }
{
    let Some((line, rest)) = cut_at_feed(text) else {
        return Ok(None);
    };
    match definition_of(alloc, number, line)? {
        Some(stated) => Ok(Some((stated, rest))),
        None => Ok(None),
    }
}

// Gives a number its place, which is that number.
#[tactic(auto, using(crate::proofs::Numbered::number_is))]
fn put_number(alloc: Global, numbers: &mut Index, place: usize) -> Result<(), AllocError>
    ensures { OnOk result ((names : List Text) → Finds numbers.old names → length names ≡ place
        → Finds numbers.new (names ++ number_text place ∷ [])) }
{
    let mut buffer = Buffer::new();
    numbers.add(alloc, buffer.format(place), place)
}

impl<'a> DefinitionLines<'a> {
    fn new(alloc: Global) -> DefinitionLines<'a>
        ensures { AreLines result [] }
    {
        DefinitionLines {
            stated: Vec::new(alloc),
            numbers: Index::new(alloc),
            urls: Index::new(alloc),
            repeated: None,
        }
    }

    // The first number with a repeated url, once that url has the next number.
    fn repeated_with(&self, url: &str) -> Option<usize>
        ensures { is_none result ≡ (is_none self.now.repeated && is_none (place_of self.now.urls url.now)) }
    {
        if self.repeated.is_some() {
            return self.repeated;
        }
        if self.urls.get(url).is_some() {
            Some(self.stated.len())
        } else {
            None
        }
    }

    fn put(&mut self, alloc: Global, stated: StatedText<'a>) -> Result<(), AllocError>
        ensures { OnOk result ((ds : List Stated) → AreLines self.old ds
            → AreLines self.new (ds ++ stated_seen stated.entry ∷ [])) }
    {
        let place = self.stated.len();
        self.repeated = self.repeated_with(stated.url);
        self.urls.add(alloc, stated.url, place)?;
        put_number(alloc, &mut self.numbers, place)?;
        self.stated.push(stated)?;
        Ok(())
    }
}

/// The definitions in the lines in front, and what stands behind those. The one refusal is want of memory.
pub(crate) fn definition_lines(
    alloc: Global,
    text: &str,
) -> Result<(DefinitionLines<'_>, &str), NoMemory>
    ensures lines { IfOk result (λ r. AreLines r.0 (definition_lines 0 (lines_of text.now))) }
    ensures behind { IfOk result (λ r. r.1.now ≡ behind_lines (length (definition_lines 0 (lines_of text.now))) text.now) }
{
    let mut lines = DefinitionLines::new(alloc);
    let mut rest = text;
    while let Some((stated, behind)) = next_definition(alloc, lines.stated.len(), rest)? {
        lines.put(alloc, stated)?;
        rest = behind;
    }
    Ok((lines, rest))
}

/// The definitions of lines.
pub(crate) fn numbered(lines: DefinitionLines<'_>) -> Definitions<'_>
    requires { Finds lines.numbers (number_texts 0 (map stated_seen lines.stated.items)) }
    ensures { result ≡ Some (map stated_seen lines.entry.stated.items) }
{
    Definitions {
        stated: Some(lines.stated),
        places: lines.numbers,
    }
}

/// That a text numbers no definitions, but names each by its url.
pub(crate) fn no_numbers<'a>(alloc: Global) -> Definitions<'a>
    ensures { result ≡ None }
{
    Definitions {
        stated: None,
        places: Index::new(alloc),
    }
}

// Definitions with different urls, and what stands behind their lines.
type Front<'a> = Result<Option<(Definitions<'a>, &'a str)>, NoMemory>;

fn definitions_at(alloc: Global, text: &str) -> Front<'_>
    ensures { IfOk result (λ r. option_map (λ p. (p.0, p.1.now)) r ≡ definitions_at text.now) }
{
    let (lines, rest) = definition_lines(alloc, text)?;
    if lines.repeated.is_some() {
        return Ok(None);
    }
    Ok(Some((numbered(lines), rest)))
}

/// The definitions that a text numbers, and what stands behind their lines, of either format.
pub(crate) fn front_of(alloc: Global, text: &str) -> Front<'_>
    ensures { IfOk result (λ r. option_map (λ p. (p.0, p.1.now)) r ≡ front_of text.now) }
{
    if let Some(rest) = behind_line("fhirprof-certificate 1", text) {
        return Ok(Some((no_numbers(alloc), rest)));
    }
    match behind_line("fhirprof-certificate 2", text) {
        Some(rest) => definitions_at(alloc, rest),
        None => Ok(None),
    }
}
