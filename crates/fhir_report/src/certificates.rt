//! What is told of a certificate.

ghost use Rattle.std.specs.Prelude.{◌≡◌, ◌++◌, IfOk, None, codes};
ghost use Rattle.fhir_json.specs.Tree.{Text};
ghost use Rattle.fhir_lines.specs.Lines.{file_line, line_seen};
ghost use Rattle.fhir_cert_check.specs.Texts.{pair_text};
ghost use Rattle.fhir_report.specs.Report.{IsOfCertificate};

use crate::failing::no_text;
use crate::narrowing::rule_words;
use fhir_cert_check::Rule;
use fhir_certificate::{Flaw, FlawKind, LinePart, Pair};
use fhir_element_texts::json_text;
use fhir_json::{Json, NoMemory};
use fhir_lines::{FaultNumber, Line};
use fhir_schema::Schema;
use std::alloc::{AllocError, Global};
use std::borrow::CowStr;

fn part_words(part: LinePart) -> &'static str {
    match part {
        LinePart::Utf8 => "bytes of UTF-8 were expected",
        LinePart::FirstLine => "`fhirprof-certificate 2` or `fhirprof-certificate 1` was expected",
        LinePart::Definition => {
            "`def`, the next number, a url that no line above has, and a version as JSON or `-`, parted by tabs, were expected"
        }
        LinePart::Derived => {
            "`derived`, a tab and a url, or in format 2 a definition's number, were expected"
        }
        LinePart::Base => {
            "`base`, a tab and a url, or in format 2 a definition's number, were expected"
        }
        LinePart::PairOrEnd => {
            "`item` or `kids` with the url, or in format 2 the number, and the id of two elements, parted by tabs, or `end`, was expected"
        }
        LinePart::LineFeed => "a line feed was expected behind `end`",
        LinePart::Nothing => "nothing was expected behind the line `end`",
    }
}

// A version by its text of JSON, or that there is none.
fn version_words(alloc: Global, version: Option<&str>) -> Result<String, AllocError> {
    match version {
        Some(version) => format!(in alloc; "version {version}"),
        None => String::from_str(alloc, "no version"),
    }
}

// The version that a certificate names.
fn written_words(alloc: Global, written: &str) -> Result<String, AllocError> {
    if written == "-" {
        version_words(alloc, None)
    } else {
        version_words(alloc, Some(written))
    }
}

// The version that a definition has.
fn own_words(alloc: Global, own: Option<&str>) -> Result<String, NoMemory> {
    let Some(own) = own else {
        return Ok(version_words(alloc, None)?);
    };
    let text = json_text(alloc, &Json::Str(CowStr::Borrowed(own)))?;
    Ok(version_words(alloc, Some(text.as_str()))?)
}

fn versions_text(alloc: Global, written: &str, own: Option<&str>) -> Result<String, NoMemory> {
    let written = written_words(alloc, written)?;
    let own = own_words(alloc, own)?;
    Ok(format!(in alloc;
        "the certificate names {written}, and the definition in this package has {own}"
    )?)
}

fn flaw_text(alloc: Global, kind: FlawKind<'_>) -> Result<String, NoMemory> {
    let words = match kind {
        FlawKind::Expected(part) => part_words(part),
        FlawKind::Definition(_) => "no definition of this url can be used in this package",
        FlawKind::Element(_, _) => "the definition has no such element",
        FlawKind::Version(_, written, own) => return versions_text(alloc, written, own),
    };
    Ok(String::from_str(alloc, words)?)
}

/// The line on a flaw of a certificate in a file.
pub fn flaw_line<'r>(alloc: Global, file: &'r str, flaw: &Flaw<'r>) -> Result<Line<'r>, NoMemory>
    ensures { IfOk result (λ l. IsOfCertificate file.now (line_seen l)) }
{
    let text = flaw_text(alloc, flaw.kind)?;
    let number = FaultNumber::Certificate(flaw.kind.fault());
    let (url, id) = match flaw.kind {
        FlawKind::Expected(_) => (None, None),
        FlawKind::Definition(url) | FlawKind::Version(url, _, _) => (Some(url), None),
        FlawKind::Element(url, id) => (Some(url), Some(id)),
    };
    Ok(Line {
        line: Some(flaw.line),
        url,
        id,
        ..Line::of_file(file, Some(number), text)
    })
}

/// The line on a certificate in a file of which that pair fails that rule.
pub fn no_line<'r>(
    alloc: Global,
    schema: &Schema,
    file: &'r str,
    pair: Pair,
    rule: Rule<'_>,
) -> Result<Line<'r>, NoMemory>
    ensures { IfOk result (λ l. (words : Text)
        × (line_seen l ≡ file_line file.now None (codes "no: " ++ pair_text schema.now pair ++ codes ": " ++ words))) }
{
    let words = rule_words(alloc, schema, pair, rule)?;
    let text = no_text(alloc, schema, pair, words.as_str())?;
    Ok(Line::of_file(file, None, text))
}
