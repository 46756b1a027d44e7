//! Lines of a report.

ghost use Rattle.std.specs.Prelude.{◌≡◌, ◌++◌, ◌∷◌, [], map, flat_map, None, Some, IfOk, OnOk, option_map, codes, string_bytes};
ghost use Rattle.std.specs.Fmt.{decimal};
ghost use Rattle.std.specs.Option.{option_map_or};
ghost use Rattle.fhir_json.specs.Tree.{string, number, object};
ghost use Rattle.fhir_json.specs.Memory.{Gives};
ghost use Rattle.fhir_json.specs.Views.{tree_of, property_of};
ghost use Rattle.fhir_lines.specs.Lines.{text_line, file_line, number_text, parts_of, group, place_text, name_text, constraint_text, lacks_text, count_text, details_parts, details_text, line_text, reason_text, details_members, line_tree, no_details, details_seen, line_seen};

use crate::members::{Members, put_count_if, put_flag, put_text, put_text_if};
use fhir_certificate::CertFault;
use fhir_elements::Reason;
use fhir_json::{Json, JsonFault, NoMemory, Position};
use fhir_snapshot::SnapNumber;
use std::alloc::{AllocError, Global};
use std::borrow::CowStr;
use std::fmt;

/// The number of a fault. `Display` prints it.
#[derive(Clone, Copy, Debug, PartialEq, Eq)]
pub enum FaultNumber {
    /// `P1`: a file can't be read.
    Unreadable,
    /// `P3`: two definitions of one url differ.
    Clash,
    /// `J1` to `J6`: a file is no JSON text.
    Json(JsonFault),
    /// `U1` to `U11`: a definition can't be used.
    Unusable(Reason),
    /// `S1` to `S4`: a definition has no snapshot.
    Snapshot(SnapNumber),
    /// `C1` to `C3` and `C5`: a line of a certificate isn't written as it should be, or names what isn't there or another version, or
    /// there are too many.
    Certificate(CertFault),
}

impl FaultNumber {
    /// The number's text.
    pub fn text(&self) -> &'static str
        ensures { result.now ≡ number_text self.now }
    {
        match self {
            FaultNumber::Unreadable => "P1",
            FaultNumber::Clash => "P3",
            FaultNumber::Json(fault) => fault.number(),
            FaultNumber::Unusable(reason) => reason.number(),
            FaultNumber::Snapshot(number) => number.text(),
            FaultNumber::Certificate(fault) => fault.number(),
        }
    }
}

impl fmt::Display for FaultNumber {
    fn fmt<W: fmt::Write>(&self, f: &mut fmt::Formatter<W>) -> fmt::Result {
        f.write_str(self.text())
    }
}

/// What is told of something that several elements may carry.
#[derive(Clone, Copy, Debug, PartialEq, Eq)]
pub struct Details<'r> {
    /// The key of a constraint.
    pub key: Option<&'r str>,
    /// What the constraint says for people.
    pub sentence: Option<&'r str>,
    /// Whether it names a definition that the package lacks.
    pub lacks: bool,
    /// How many elements carry it.
    pub count: Option<usize>,
}

impl<'r> Details<'r> {
    /// That nothing is told.
    pub fn none() -> Details<'r>
        ensures { details_seen result ≡ no_details }
    {
        Details {
            key: None,
            sentence: None,
            lacks: false,
            count: None,
        }
    }
}

/// A line of a report: something that was found, and where.
#[derive(Drop)]
pub struct Line<'r> {
    /// The file.
    pub file: Option<&'r str>,
    /// The line in the file, from 1.
    pub line: Option<usize>,
    /// The column in the line, from 1.
    pub column: Option<usize>,
    /// The number of the fault.
    pub number: Option<FaultNumber>,
    /// The url of a definition.
    pub url: Option<&'r str>,
    /// The id of an element of it.
    pub id: Option<&'r str>,
    /// What was found, in plain words.
    pub text: String,
    /// What is told of it, where several elements may carry it.
    pub details: Details<'r>,
}

// Puts in a part, if it is there.
fn push_part<'r>(part: Option<&'r str>, parts: &mut Vec<&'r str>) -> Result<(), AllocError>
    ensures { OnOk result (map (λ p. p.now) parts.new.items
        ≡ map (λ p. p.now) parts.old.items ++ parts_of (option_map (λ p. p.now) part.entry)) }
{
    match part {
        Some(part) => Ok(parts.push(part)?),
        None => Ok(()),
    }
}

fn number_of(alloc: Global, count: Option<usize>) -> Result<Option<String>, AllocError>
    ensures { IfOk result (λ text. option_map string_bytes text ≡ option_map decimal count) }
{
    match count {
        Some(count) => Ok(Some(format!(in alloc; "{count}")?)),
        None => Ok(None),
    }
}

fn keyed_text(alloc: Global, key: &str, sentence: &str) -> Result<String, AllocError>
    ensures { IfOk result (λ text. string_bytes text ≡ key.now ++ codes ": " ++ sentence.now) }
{
    format!(in alloc; "{key}: {sentence}")
}

fn constraint_text(
    alloc: Global,
    key: Option<&str>,
    sentence: Option<&str>,
) -> Result<Option<String>, AllocError>
    ensures { IfOk result (λ text. option_map string_bytes text
        ≡ constraint_text (option_map (λ t. t.now) key.entry) (option_map (λ t. t.now) sentence.entry)) }
{
    match (key, sentence) {
        (Some(key), Some(sentence)) => Ok(Some(keyed_text(alloc, key, sentence)?)),
        (Some(key), None) => Ok(Some(String::from_str(alloc, key)?)),
        (None, Some(sentence)) => Ok(Some(String::from_str(alloc, sentence)?)),
        (None, None) => Ok(None),
    }
}

fn lacks_text(lacks: bool) -> Option<&'static str>
    ensures { option_map (λ t. t.now) result ≡ lacks_text lacks }
{
    if lacks {
        Some("the package lacks it")
    } else {
        None
    }
}

fn elements_text(alloc: Global, count: usize) -> Result<String, AllocError>
    ensures { IfOk result (λ text. string_bytes text ≡ count_text count) }
{
    if count == 1 {
        format!(in alloc; "{count} element")
    } else {
        format!(in alloc; "{count} elements")
    }
}

fn count_text(alloc: Global, count: Option<usize>) -> Result<Option<String>, AllocError>
    ensures { IfOk result (λ text. option_map string_bytes text ≡ option_map count_text count) }
{
    match count {
        Some(count) => Ok(Some(elements_text(alloc, count)?)),
        None => Ok(None),
    }
}

fn push_each(separator: &str, parts: &[&str], into: &mut String) -> Result<(), AllocError>
    ensures { OnOk result (string_bytes into.new
        ≡ string_bytes into.old ++ flat_map (λ p. separator.now ++ p) (map (λ p. p.now) parts.now)) }
{
    for part in parts {
        into.push_str(separator)?;
        into.push_str(*part)?;
    }
    Ok(())
}

// The parts behind one another, and a colon; nothing where there is none.
fn push_group(separator: &str, parts: &[&str], into: &mut String) -> Result<(), AllocError>
    ensures { OnOk result (string_bytes into.new
        ≡ string_bytes into.old ++ group separator.now (map (λ p. p.now) parts.now)) }
{
    match parts {
        [] => Ok(()),
        [first, others @ ..] => {
            into.push_str(*first)?;
            push_each(separator, others, into)?;
            into.push_str(": ")
        }
    }
}

fn number_text(number: Option<FaultNumber>) -> Option<&'static str>
    ensures { option_map (λ t. t.now) result ≡ option_map number_text number }
{
    match number {
        Some(number) => Some(number.text()),
        None => None,
    }
}

impl<'r> Line<'r> {
    /// A line on no file of its own.
    pub fn of_text(text: String) -> Line<'r>
        ensures { line_seen result ≡ text_line (string_bytes text) }
    {
        Line {
            file: None,
            line: None,
            column: None,
            number: None,
            url: None,
            id: None,
            text,
            details: Details::none(),
        }
    }

    /// A line on a file.
    pub fn of_file(file: &'r str, number: Option<FaultNumber>, text: String) -> Line<'r>
        ensures { line_seen result ≡ file_line file.now number (string_bytes text) }
    {
        Line {
            file: Some(file),
            number,
            ..Line::of_text(text)
        }
    }

    /// The same at a place in the file.
    pub fn at(self, position: Position) -> Line<'r>
        ensures { line_seen result ≡ record (line_seen self.entry) { line = Some position.line; column = Some position.column } }
    {
        Line {
            line: Some(position.line),
            column: Some(position.column),
            ..self
        }
    }

    // The file, and where in it.
    fn push_place(&self, alloc: Global, into: &mut String) -> Result<(), AllocError>
        ensures { OnOk result (string_bytes into.new ≡ string_bytes into.old ++ place_text (line_seen self.now)) }
    {
        let line = number_of(alloc, self.line)?;
        let column = number_of(alloc, self.column)?;
        let mut parts = Vec::with_capacity(alloc, 3)?;
        push_part(self.file, &mut parts)?;
        push_part(line.as_deref(), &mut parts)?;
        push_part(column.as_deref(), &mut parts)?;
        push_group(":", &parts, into)
    }

    // The number, the url and the id.
    fn push_name(&self, alloc: Global, into: &mut String) -> Result<(), AllocError>
        ensures { OnOk result (string_bytes into.new ≡ string_bytes into.old ++ name_text (line_seen self.now)) }
    {
        let mut parts = Vec::with_capacity(alloc, 3)?;
        push_part(number_text(self.number), &mut parts)?;
        push_part(self.url, &mut parts)?;
        push_part(self.id, &mut parts)?;
        push_group(" ", &parts, into)
    }

    // What is told of what several elements may carry.
    fn push_details(&self, alloc: Global, into: &mut String) -> Result<(), AllocError>
        ensures { OnOk result (string_bytes into.new ≡ string_bytes into.old ++ details_text (line_seen self.now).details) }
    {
        let constraint = constraint_text(alloc, self.details.key, self.details.sentence)?;
        let count = count_text(alloc, self.details.count)?;
        let mut parts = Vec::with_capacity(alloc, 3)?;
        push_part(constraint.as_deref(), &mut parts)?;
        push_part(lacks_text(self.details.lacks), &mut parts)?;
        push_part(count.as_deref(), &mut parts)?;
        push_each("; ", &parts, into)
    }

    /// The line as a text, without a line feed: `FILE:LINE:COLUMN: NUMBER URL ID: TEXT; KEY: SENTENCE; the package lacks it; COUNT elements`,
    /// and what it doesn't have is left out. The one refusal is want of memory.
    pub fn to_text(&self, alloc: Global) -> Result<String, NoMemory>
        ensures { Gives string_bytes result (line_text (line_seen self.now)) }
    {
        let mut text = String::new(alloc);
        self.push_place(alloc, &mut text)?;
        self.push_name(alloc, &mut text)?;
        text.push_str(self.text.as_str())?;
        self.push_details(alloc, &mut text)?;
        Ok(text)
    }

    // Why something can't be used: the number, the id and the text, each behind a colon.
    fn push_reason(&self, alloc: Global, into: &mut String) -> Result<(), AllocError>
        ensures { OnOk result (string_bytes into.new ≡ string_bytes into.old ++ reason_text (line_seen self.now)) }
    {
        let mut parts = Vec::with_capacity(alloc, 3)?;
        push_part(number_text(self.number), &mut parts)?;
        push_part(self.id, &mut parts)?;
        push_part(Some(self.text.as_str()), &mut parts)?;
        push_each(": ", &parts, into)
    }

    fn put_details<'l>(&'l self, alloc: Global, into: &mut Members<'l>) -> Result<(), AllocError>
        ensures { OnOk result (map property_of into.new.items
            ≡ map property_of into.old.items ++ details_members (line_seen self.now).details) }
    {
        put_text_if("key", self.details.key, into)?;
        put_text_if("human", self.details.sentence, into)?;
        put_flag("lacks", self.details.lacks, into)?;
        put_count_if(alloc, "count", self.details.count, into)
    }

    /// The line as a JSON object, with the members `file`, `line`, `column`, `number`, `url`, `id`, `text`, `key`, `human`, `lacks` and
    /// `count`, each where the line has it. The one refusal is want of memory.
    pub fn to_json<'l>(&'l self, alloc: Global) -> Result<Json<'l>, NoMemory>
        ensures { Gives tree_of result (line_tree (line_seen self.now)) }
    {
        let mut members: Members<'l> = Vec::with_capacity(alloc, 11)?;
        put_text_if("file", self.file, &mut members)?;
        put_count_if(alloc, "line", self.line, &mut members)?;
        put_count_if(alloc, "column", self.column, &mut members)?;
        put_text_if("number", number_text(self.number), &mut members)?;
        put_text_if("url", self.url, &mut members)?;
        put_text_if("id", self.id, &mut members)?;
        put_text("text", self.text.as_str(), &mut members)?;
        self.put_details(alloc, &mut members)?;
        Ok(Json::Obj(members))
    }
}

/// Why something can't be used, as a line says it: `: NUMBER: ID: TEXT`. What the line doesn't have is left out, and where there is no line the
/// text is empty. The one refusal is want of memory.
pub fn reason_text(alloc: Global, line: Option<&Line<'_>>) -> Result<String, AllocError>
    ensures { IfOk result (λ text. string_bytes text ≡ option_map_or (λ l. reason_text (line_seen l.now)) line.entry []) }
{
    let mut text = String::new(alloc);
    if let Some(line) = line {
        line.push_reason(alloc, &mut text)?;
    }
    Ok(text)
}
