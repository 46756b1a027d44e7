//! The report on a survey of the files of a folder, and on a certificate.

ghost use Rattle.std.specs.Prelude.{◌≡◌, ◌++◌, ◌∷◌, [], map, false, IfOk, OnOk, IsTrue, All, string_bytes};
ghost use Rattle.fhir_certificate.specs.Reading.{reading};
ghost use Rattle.fhir_cert_check.specs.Checking.{answer_of};
ghost use Rattle.fhir_findings.specs.Counting.{counts_text};
ghost use Rattle.fhir_findings.specs.Finding.{fault_told, faults_told, unusable_told, all_told};
ghost use Rattle.fhir_report.specs.Faultless.{IsRight, Promises, IsRightIfAny, PromisesIfAny, IsRightBy, certificate_seen};
ghost use Rattle.fhir_lines.specs.Lines.{text_line, rows, line_seen, lines_seen};
ghost use Rattle.fhir_report.specs.Report.{noted_lines, fault_head, unusable_head, IsOfCertificate, TellsAnswer, TellsCertificate, IsReport};
ghost use Rattle.fhir_report.specs.Growing.{Grows};

use crate::carrier_lines::carried_lines;
use crate::certificates::{flaw_line, no_line};
use crate::contradiction_lines::contradiction_lines;
use crate::finding_lines::finding_line;
use crate::lacking::LackingTable;
use crate::unrecognized_lines::unrecognized_lines;
use fhir_cert_check::{Answer, check_bytes};
use fhir_certificate::{CertFault, Flaw, flaws};
use fhir_findings::{Counts, Finding, Selection, carriers, counts_of, findings, has_faults};
use fhir_json::NoMemory;
use fhir_lines::{FaultNumber, Line, push_row, push_rows};
use fhir_package::Survey;
use fhir_schema::Schema;
use fhir_words::{Detail, Format, Manner};
use std::alloc::{AllocError, Global};

/// A certificate that is reported on.
#[derive(Clone, Copy, Debug)]
pub struct CertificateFile<'r> {
    /// The name of its file.
    pub name: &'r str,
    /// The bytes of its file.
    pub bytes: &'r [u8],
}

/// What is reported on.
#[derive(Clone, Copy)]
pub struct Subject<'s, 'f> {
    /// The survey of the files of a folder.
    pub survey: &'s Survey<'f>,
    /// The schema of the survey's package.
    pub schema: &'s Schema,
    /// The definitions of the package that have no snapshot.
    pub lacking: &'s LackingTable,
    /// How many files there are.
    pub files: usize,
    /// What of the package is reported on.
    pub selection: &'s Selection,
    /// The certificate, if there is one.
    pub certificate: Option<CertificateFile<'s>>,
}

/// A report.
#[derive(Drop)]
pub struct Report {
    /// Whether nothing is wrong.
    pub is_clean: bool,
    /// A line for each finding, and a last one with the counts.
    pub text: String,
}

// Puts in the line of a finding.
fn push_finding<'s, 'f: 's>(
    alloc: Global,
    survey: &'s Survey<'f>,
    schema: &'s Schema,
    lacking: &'s LackingTable,
    finding: &Finding<'s, 'f>,
    lines: &mut Vec<Line<'s>>,
) -> Result<(), NoMemory>
    ensures { OnOk result (Grows lines.old.items lines.new.items (map fault_head (fault_told finding.now))
        (map (unusable_head lacking.now) (unusable_told finding.now))) }
{
    Ok(lines.push(finding_line(alloc, survey, schema, lacking, finding)?)?)
}

// The lines on findings.
fn lines_of<'s, 'f: 's>(
    alloc: Global,
    survey: &'s Survey<'f>,
    schema: &'s Schema,
    lacking: &'s LackingTable,
    found: &[Finding<'s, 'f>],
) -> Result<Vec<Line<'s>>, NoMemory>
    ensures { IfOk result (λ ls. Grows [] ls.items (map fault_head (faults_told found.now))
        (map (unusable_head lacking.now) (all_told found.now))) }
{
    let mut lines: Vec<Line<'s>> = Vec::new(alloc);
    for finding in found {
        push_finding(alloc, survey, schema, lacking, finding, &mut lines)?;
    }
    Ok(lines)
}

// What is told of a certificate, and whether it is right.
#[derive(Drop)]
struct CertificateLines<'r> {
    is_right: bool,
    lines: Vec<Line<'r>>,
}

fn one_line<'r>(
    alloc: Global,
    is_right: bool,
    line: Line<'r>,
) -> Result<CertificateLines<'r>, NoMemory>
    ensures { IfOk result (λ j. (j.is_right ≡ is_right) × (lines_seen j.lines.items ≡ line_seen line.entry ∷ [])) }
{
    let lines = vec![in alloc; line]?;
    Ok(CertificateLines { is_right, lines })
}

fn too_many<'r>(alloc: Global, file: &'r str) -> Result<Line<'r>, AllocError>
    ensures { IfOk result (λ l. IsOfCertificate file.now (line_seen l)) }
{
    let text = String::from_str(alloc, "it has more than 16,777,216 lines of pairs")?;
    let number = FaultNumber::Certificate(CertFault::TooManyPairs);
    Ok(Line::of_file(file, Some(number), text))
}

#[tactic(auto, using(crate::proofs::Told::one_flaw_more))]
fn push_flaw<'r>(
    alloc: Global,
    file: &'r str,
    flaw: &Flaw<'r>,
    lines: &mut Vec<Line<'r>>,
) -> Result<(), NoMemory>
    ensures { All (IsOfCertificate file.now) (lines_seen lines.old.items)
        → OnOk result (All (IsOfCertificate file.now) (lines_seen lines.new.items)) }
{
    Ok(lines.push(flaw_line(alloc, file, flaw)?)?)
}

// What is wrong with the lines of a certificate.
fn flaw_lines<'r>(
    alloc: Global,
    schema: &'r Schema,
    certificate: CertificateFile<'r>,
) -> Result<Vec<Line<'r>>, NoMemory>
    ensures { IfOk result (λ ls. All (IsOfCertificate certificate.entry.name.now) (lines_seen ls.items)) }
{
    let mut lines: Vec<Line<'r>> = Vec::new(alloc);
    for flaw in flaws(alloc, schema, certificate.bytes)? {
        push_flaw(alloc, certificate.name, &flaw, &mut lines)?;
    }
    Ok(lines)
}

fn judge<'r>(
    alloc: Global,
    schema: &'r Schema,
    certificate: CertificateFile<'r>,
) -> Result<CertificateLines<'r>, NoMemory>
    ensures right { IfOk result (λ j. IsTrue j.is_right → IsRight schema.now certificate.entry.bytes.now) }
    ensures promised { IfOk result (λ j. IsTrue j.is_right → Promises schema.now certificate.entry.bytes.now) }
    ensures wrong { IfOk result (λ j. j.is_right ≡ false → IsRight schema.now certificate.entry.bytes.now → ⊥) }
    ensures told { IfOk result (λ j. TellsAnswer schema.now certificate.entry.name.now
        (answer_of (reading schema.now certificate.entry.bytes.now) schema.now) (lines_seen j.lines.items)) }
{
    match check_bytes(alloc, schema, certificate.bytes) {
        Ok(Answer::Yes) => {
            let text = String::from_str(alloc, "yes")?;
            one_line(alloc, true, Line::of_file(certificate.name, None, text))
        }
        Ok(Answer::No(pair, rule)) => {
            let line = no_line(alloc, schema, certificate.name, pair, rule)?;
            one_line(alloc, false, line)
        }
        Err(CertFault::NoMemory) => Err(NoMemory),
        Err(CertFault::TooManyPairs) => {
            one_line(alloc, false, too_many(alloc, certificate.name)?)
        }
        Err(CertFault::WrongFormat | CertFault::UnknownNode | CertFault::OtherVersion) => {
            Ok(CertificateLines {
                is_right: false,
                lines: flaw_lines(alloc, schema, certificate)?,
            })
        }
    }
}

// The same where there may be none: a missing one is right.
fn judge_if_any<'r>(
    alloc: Global,
    schema: &'r Schema,
    certificate: Option<CertificateFile<'r>>,
) -> Result<CertificateLines<'r>, NoMemory>
    ensures right { IfOk result (λ j. IsTrue j.is_right → IsRightIfAny schema.now (certificate_seen certificate.entry)) }
    ensures promised { IfOk result (λ j. IsTrue j.is_right → PromisesIfAny schema.now (certificate_seen certificate.entry)) }
    ensures wrong { IfOk result (λ j. j.is_right ≡ false → IsRightIfAny schema.now (certificate_seen certificate.entry) → ⊥) }
    ensures told { IfOk result (λ j. TellsCertificate schema.now (certificate_seen certificate.entry) (lines_seen j.lines.items)) }
{
    match certificate {
        Some(certificate) => judge(alloc, schema, certificate),
        None => Ok(CertificateLines {
            is_right: true,
            lines: Vec::new(alloc),
        }),
    }
}

fn counts_line(alloc: Global, counts: Counts) -> Result<Line<'static>, AllocError>
    ensures { IfOk result (λ l. line_seen l ≡ text_line (counts_text counts)) }
{
    Ok(Line::of_text(format!(in alloc; "{counts}")?))
}

// The lines on what isn't wrong: members that R4 doesn't have, what can never hold, and what isn't judged.
fn noted_lines<'s>(
    alloc: Global,
    detail: Detail,
    survey: &'s Survey<'_>,
    schema: &'s Schema,
    selection: &Selection,
) -> Result<Vec<Line<'s>>, NoMemory>
    ensures { IfOk result (λ ls. lines_seen ls.items ≡ noted_lines detail selection.now schema.now survey.now) }
{
    let mut lines = unrecognized_lines(alloc, survey, selection)?;
    let mut contradictions = contradiction_lines(alloc, survey, schema, selection)?;
    lines.append(&mut contradictions)?;
    let carriers = carriers(alloc, survey, schema, selection)?;
    let mut carried = carried_lines(alloc, detail, survey.package(), &carriers)?;
    lines.append(&mut carried)?;
    Ok(lines)
}

// The lines of a report but the last: on what was found, on what isn't wrong, and on a certificate.
#[derive(Clone, Copy)]
struct Parts<'p, 'r> {
    found: &'p [Line<'r>],
    noted: &'p [Line<'r>],
    judged: &'p [Line<'r>],
}

// The rows of a report's lines, and a last one with the counts.
fn text_of(
    alloc: Global,
    format: Format,
    parts: Parts<'_, '_>,
    counts: Counts,
) -> Result<String, NoMemory>
    ensures { IfOk result (λ text. string_bytes text
        ≡ rows format (lines_seen parts.entry.found.now ++ lines_seen parts.entry.noted.now ++ lines_seen parts.entry.judged.now
        ++ text_line (counts_text counts) ∷ [])) }
{
    let mut text = String::new(alloc);
    push_rows(alloc, format, parts.found, &mut text)?;
    push_rows(alloc, format, parts.noted, &mut text)?;
    push_rows(alloc, format, parts.judged, &mut text)?;
    push_row(alloc, format, &counts_line(alloc, counts)?, &mut text)?;
    Ok(text)
}

/// The report on a survey and a certificate: a line for each file that can't be read or isn't JSON, for each definition that differs from
/// one before it, and for each that is selected and has no snapshot or can't be used, in the order of the files; then the members
/// of those that are selected which R4 doesn't have, what can never hold in them, and what isn't judged in them; then what is wrong with the certificate, or a yes; then the counts. The one refusal is want of memory.
pub fn report_on<'s, 'f: 's>(
    alloc: Global,
    manner: Manner,
    subject: Subject<'s, 'f>,
) -> Result<Report, NoMemory>
    ensures clean { IfOk result (λ r. IsTrue r.is_clean
        → IsRightBy subject.entry.selection.now subject.entry.schema.now subject.entry.survey.now (certificate_seen subject.entry.certificate)) }
    ensures promised { IfOk result (λ r. IsTrue r.is_clean
        → PromisesIfAny subject.entry.schema.now (certificate_seen subject.entry.certificate)) }
    ensures faulty { IfOk result (λ r. r.is_clean ≡ false
        → IsRightBy subject.entry.selection.now subject.entry.schema.now subject.entry.survey.now (certificate_seen subject.entry.certificate) → ⊥) }
    ensures told { IfOk result (λ r. IsReport manner subject.entry.files subject.entry.selection.now subject.entry.schema.now
        subject.entry.survey.now subject.entry.lacking.now (certificate_seen subject.entry.certificate) (string_bytes r.text)) }
{
    let Subject {
        survey,
        schema,
        lacking,
        files,
        selection,
        certificate,
    } = subject;
    let found = findings(alloc, survey, schema, selection)?;
    let lines = lines_of(alloc, survey, schema, lacking, &found)?;
    let noted = noted_lines(alloc, manner.detail, survey, schema, selection)?;
    let judged = judge_if_any(alloc, schema, certificate)?;
    let counts = counts_of(files, survey, schema);
    let parts = Parts {
        found: &lines,
        noted: &noted,
        judged: &judged.lines,
    };
    let text = text_of(alloc, manner.format, parts, counts)?;
    Ok(Report {
        is_clean: !has_faults(&found) && judged.is_right,
        text,
    })
}
