//! From findings to lines.

ghost use Rattle.std.specs.Prelude.{◌≡◌, IfOk, None, Some};
ghost use Rattle.fhir_package.specs.Surveying.{unreadable};
ghost use Rattle.fhir_package.specs.SurveyView.{fault_seen};
ghost use Rattle.fhir_package.specs.declared.survey.FileFault.TheVariants.{NotJson as NotJsonOne, Clash as ClashOne};
ghost use Rattle.fhir_lines.specs.Lines.{line_seen};
ghost use Rattle.fhir_snapshot.specs.Faults.{number_of};
ghost use Rattle.fhir_lines.specs.declared.line.FaultNumber.TheVariants.{Unusable as ByReason, Snapshot as BySnapshot};
ghost use Rattle.fhir_report.specs.Report.{head, fault_head, numbered_head, unusable_head, TellsFinding};

use crate::blaming::Blamed;
use crate::lacking::LackingTable;
use crate::wording::{expected_words, lacking_words};
use fhir_findings::{Finding, Unusable};
use fhir_json::NoMemory;
use fhir_lines::{FaultNumber, Line};
use fhir_package::{Clash, FileFault, Kind, NotJson, Survey};
use fhir_schema::Schema;
use fhir_snapshot::SnapFault;
use std::alloc::{AllocError, Global};

fn no_bytes_line<'s>(alloc: Global, file: &'s str) -> Result<Line<'s>, AllocError>
    ensures { IfOk result (λ l. head (line_seen l) ≡ fault_head (unreadable file.now)) }
{
    let text = String::from_str(alloc, "it can't be read, or is no regular file")?;
    Ok(Line::of_file(file, Some(FaultNumber::Unreadable), text))
}

fn not_json_line<'s, 'f: 's>(alloc: Global, fault: &'s NotJson<'f>) -> Result<Line<'s>, AllocError>
    ensures { IfOk result (λ l. head (line_seen l) ≡ fault_head (fault_seen (NotJsonOne fault.now))) }
{
    let text = String::from_str(alloc, expected_words(fault.expected))?;
    let number = FaultNumber::Json(fault.expected.fault());
    Ok(Line::of_file(fault.file, Some(number), text).at(fault.position))
}

fn kind_word(kind: Kind) -> &'static str {
    match kind {
        Kind::StructureDefinition => "StructureDefinition",
        Kind::ValueSet => "ValueSet",
        Kind::CodeSystem => "CodeSystem",
    }
}

fn clash_line<'s, 'f: 's>(alloc: Global, clash: &'s Clash<'f>) -> Result<Line<'s>, AllocError>
    ensures { IfOk result (λ l. head (line_seen l) ≡ fault_head (fault_seen (ClashOne clash.now))) }
{
    let kind = kind_word(clash.kind);
    let text = format!(in alloc; "another {kind} of this url stands in {}", clash.first)?;
    let file: &'s str = clash.file;
    let mut line = Line::of_file(file, Some(FaultNumber::Clash), text);
    line.url = Some(clash.url.as_str());
    Ok(line)
}

fn file_line<'s, 'f: 's>(alloc: Global, fault: &'s FileFault<'f>) -> Result<Line<'s>, AllocError>
    ensures { IfOk result (λ l. head (line_seen l) ≡ fault_head (fault_seen fault.now)) }
{
    match fault {
        FileFault::Unreadable(file) => no_bytes_line(alloc, *file),
        FileFault::NotJson(fault) => not_json_line(alloc, fault),
        FileFault::Clash(clash) => clash_line(alloc, clash),
    }
}

fn why_text(alloc: Global, blamed: Option<Blamed<'_>>) -> Result<String, AllocError> {
    match blamed {
        Some(blamed) => blamed.text(alloc),
        None => Ok(String::new(alloc)),
    }
}

// What is to blame for the definition at a url, where that can't be used.
fn blame_of<'s>(survey: &Survey<'_>, schema: &'s Schema, url: &str) -> Option<Blamed<'s>> {
    let blame = schema.blame(url)?;
    let package = survey.package();
    let place = package.place(Kind::StructureDefinition, url)?;
    let definition = schema.definitions().get(place)?;
    Some(Blamed {
        schema,
        definition,
        blame,
    })
}

// Of a definition that has a snapshot, or can't be used for another reason.
fn reason_line<'s>(
    alloc: Global,
    survey: &Survey<'_>,
    schema: &'s Schema,
    unusable: &Unusable<'s>,
) -> Result<Line<'s>, AllocError>
    ensures { IfOk result (λ l. head (line_seen l)
        ≡ numbered_head (ByReason unusable.now.reason) (unusable.now.file.now, unusable.now.url.now, unusable.now.reason)) }
{
    let number = FaultNumber::Unusable(unusable.reason);
    let blamed = blame_of(survey, schema, unusable.url);
    let mut line = Line::of_file(unusable.file, Some(number), why_text(alloc, blamed)?);
    line.url = Some(unusable.url);
    line.id = blamed.and_then(|blamed| blamed.id());
    Ok(line)
}

// Of a definition that has no snapshot.
fn lacking_line<'s>(
    alloc: Global,
    unusable: &Unusable<'s>,
    fault: &'s SnapFault,
) -> Result<Line<'s>, AllocError>
    ensures { IfOk result (λ l. head (line_seen l)
        ≡ numbered_head (BySnapshot (number_of fault.now)) (unusable.now.file.now, unusable.now.url.now, unusable.now.reason)) }
{
    let number = FaultNumber::Snapshot(fault.number());
    let text = String::from_str(alloc, lacking_words(fault))?;
    let mut line = Line::of_file(unusable.file, Some(number), text);
    line.url = Some(unusable.url);
    line.id = fault.element();
    Ok(line)
}

fn unusable_line<'s>(
    alloc: Global,
    survey: &Survey<'_>,
    schema: &'s Schema,
    lacking: &'s LackingTable,
    unusable: &Unusable<'s>,
) -> Result<Line<'s>, AllocError>
    ensures { IfOk result (λ l. head (line_seen l)
        ≡ unusable_head lacking.now (unusable.now.file.now, unusable.now.url.now, unusable.now.reason)) }
{
    match lacking.get(unusable.url) {
        Some(fault) => lacking_line(alloc, unusable, fault),
        None => reason_line(alloc, survey, schema, unusable),
    }
}

/// The line of what was found in the package of a survey, by its schema and by what snapshots it lacks. The one refusal is want
/// of memory.
pub fn finding_line<'s, 'f: 's>(
    alloc: Global,
    survey: &'s Survey<'f>,
    schema: &'s Schema,
    lacking: &'s LackingTable,
    finding: &Finding<'s, 'f>,
) -> Result<Line<'s>, NoMemory>
    ensures { IfOk result (λ l. TellsFinding lacking.now finding.now (line_seen l)) }
{
    match finding {
        Finding::File(fault) => Ok(file_line(alloc, fault)?),
        Finding::Unusable(unusable) => {
            Ok(unusable_line(alloc, survey, schema, lacking, unusable)?)
        }
    }
}
