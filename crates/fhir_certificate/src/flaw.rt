//! What is wrong with the text of a certificate, line by line.

ghost use Rattle.std.specs.Prelude.{◌≡◌, [], true, false, not, map, ◌&&◌, ◌||◌, None, Some, is_some, is_none, codes, IfOk, OnOk, IsTrue};
ghost use Rattle.std.specs.List.{list_all};
ghost use Rattle.std.specs.Option.{option_map_or};
ghost use Rattle.std.specs.Str.{bytes_eq};
ghost use Rattle.fhir_json.specs.Bytes.{is_empty};
ghost use Rattle.fhir_schema.specs.Schemas.{root, node};
ghost use Rattle.fhir_schema.specs.Versions.{can_be_used};
ghost use Rattle.fhir_certificate.specs.declared.fault.CertFault.TheVariants as faults;
ghost use Rattle.fhir_certificate.specs.Format.{Written, numbering};
ghost use Rattle.fhir_certificate.specs.Judging.{node_of, certificate_of, has_version, has_versions};
ghost use Rattle.fhir_certificate.specs.Reading.{lines_of, pair_lines, pairs_at, written_behind, written_numbered, written_of, reading};
ghost use Rattle.fhir_certificate.specs.Lines.{pair_in, are_known};
ghost use Rattle.fhir_certificate.specs.Views.{name_seen, line_seen, stated_seen};
ghost use Rattle.fhir_certificate.specs.Faults.{is_no_memory};
ghost use Rattle.fhir_certificate.specs.Flaws.{flaw_fault, is_of_format, any_of_format, is_of_version, are_of_versions, fault_of_flaws, fault_of_lines, is_other};

use crate::fault::CertFault;
use crate::fields::behind_line;
use crate::format::{NameText, PairLine, next_pair, url_line};
use crate::reading::read;
use crate::stated::{Definitions, StatedText};
use crate::stating::{definition_lines, front_of, no_numbers, numbered};
use crate::versions::has_version;
use fhir_json::{NoMemory, position_of};
use fhir_names::Index;
use fhir_schema::Schema;
use std::alloc::Global;

/// What stands on a line of a certificate.
#[derive(Clone, Copy, Debug, PartialEq, Eq)]
pub enum LinePart {
    /// Bytes of UTF-8.
    Utf8,
    /// The line that names the format.
    FirstLine,
    /// A definition, with the next number and a url that no other has.
    Definition,
    /// The derived profile: its url, or in format 2 its number.
    Derived,
    /// The base: its url, or in format 2 its number.
    Base,
    /// A pair, or the last line.
    PairOrEnd,
    /// The line feed that ends the last line.
    LineFeed,
    /// Nothing: the line before is the last.
    Nothing,
}

/// What is wrong with a line.
#[derive(Clone, Copy, Debug, PartialEq, Eq)]
pub enum FlawKind<'a> {
    /// `C1`: this doesn't stand there.
    Expected(LinePart),
    /// `C2`: no definition at the url can be used.
    Definition(&'a str),
    /// `C2`: the definition at the url has no element of the id.
    Element(&'a str, &'a str),
    /// `C5`: the definition at the url has another version than the one that is written, as JSON or as `-`: this one, or none.
    Version(&'a str, &'a str, Option<&'a str>),
}

impl FlawKind<'_> {
    /// The fault of a text with such a line.
    pub fn fault(&self) -> CertFault
        ensures { result ≡ flaw_fault self.now }
    {
        match self {
            FlawKind::Expected(_) => CertFault::WrongFormat,
            FlawKind::Definition(_) | FlawKind::Element(_, _) => CertFault::UnknownNode,
            FlawKind::Version(_, _, _) => CertFault::OtherVersion,
        }
    }
}

/// Something that is wrong with a line of a certificate.
#[derive(Clone, Copy, Debug, PartialEq, Eq)]
pub struct Flaw<'a> {
    /// The line, from 1.
    pub line: usize,
    /// What is wrong with it.
    pub kind: FlawKind<'a>,
}

// The flaws that were found, and the names that were told. None is of a version.
#[derive(Drop)]
struct FlawList<'a> {
    found: Vec<Flaw<'a>>,
    told: Index,
    ghost no_versions: { are_of_versions found.items ≡ is_empty found.items },
}

impl<'a> FlawList<'a> {
    fn new(alloc: Global) -> FlawList<'a>
        ensures { result.found.items ≡ [] }
    {
        FlawList {
            found: Vec::new(alloc),
            told: Index::new(alloc),
        }
    }

    fn put(&mut self, line: usize, kind: FlawKind<'a>) -> Result<(), NoMemory>
        requires { is_of_version kind ≡ false }
        ensures format { OnOk result (any_of_format self.new.found.items ≡ (any_of_format self.old.found.items || is_of_format kind.entry)) }
        ensures some { OnOk result (is_empty self.new.found.items ≡ false) }
    {
        Ok(self.found.push(Flaw { line, kind })?)
    }

    // Puts in what is wrong with a name, unless that was told.
    fn put_new(
        &mut self,
        alloc: Global,
        line: usize,
        name: &str,
        kind: FlawKind<'a>,
    ) -> Result<(), NoMemory>
        requires format { is_of_format kind ≡ false }
        requires version { is_of_version kind ≡ false }
        ensures format { OnOk result (any_of_format self.new.found.items ≡ any_of_format self.old.found.items) }
        ensures some { OnOk result (is_empty self.new.found.items ≡ false) }
    {
        if !self.found.is_empty() && self.told.get(name).is_some() {
            return Ok(());
        }
        self.told.put(alloc, name, line)?;
        self.put(line, kind)
    }

    fn take_url(
        &mut self,
        alloc: Global,
        schema: &Schema,
        line: usize,
        url: &'a str,
    ) -> Result<(), NoMemory>
        ensures format { OnOk result (any_of_format self.new.found.items ≡ any_of_format self.old.found.items) }
        ensures none { OnOk result (is_empty self.new.found.items
            ≡ (is_empty self.old.found.items && is_some (root schema.now url.now))) }
    {
        if schema.root(url).is_some() {
            return Ok(());
        }
        self.put_new(alloc, line, url, FlawKind::Definition(url))
    }

    // An element that isn't known, or its definition.
    fn put_unknown(
        &mut self,
        alloc: Global,
        schema: &Schema,
        line: usize,
        name: NameText<'a>,
    ) -> Result<(), NoMemory>
        ensures format { OnOk result (any_of_format self.new.found.items ≡ any_of_format self.old.found.items) }
        ensures some { OnOk result (is_empty self.new.found.items ≡ false) }
    {
        if schema.root(name.url).is_none() {
            return self.put_new(alloc, line, name.url, FlawKind::Definition(name.url));
        }
        let both = format!(in alloc; "{}\t{}", name.url, name.id)?;
        let kind = FlawKind::Element(name.url, name.id);
        self.put_new(alloc, line, both.as_str(), kind)
    }

    fn take_name(
        &mut self,
        alloc: Global,
        schema: &Schema,
        line: usize,
        name: NameText<'a>,
    ) -> Result<(), NoMemory>
        ensures format { OnOk result (any_of_format self.new.found.items ≡ any_of_format self.old.found.items) }
        ensures none { OnOk result (is_empty self.new.found.items
            ≡ (is_empty self.old.found.items && is_some (node_of schema.now (name_seen name.entry)))) }
    {
        if schema.node(name.url, name.id).is_some() {
            return Ok(());
        }
        self.put_unknown(alloc, schema, line, name)
    }

    fn take_pair(
        &mut self,
        alloc: Global,
        schema: &Schema,
        line: usize,
        pair: PairLine<'a>,
    ) -> Result<(), NoMemory>
        ensures format { OnOk result (any_of_format self.new.found.items ≡ any_of_format self.old.found.items) }
        ensures none { OnOk result (is_empty self.new.found.items
            ≡ (is_empty self.old.found.items && is_some (pair_in schema.now (line_seen pair.entry)))) }
    {
        let (derived, base) = match pair {
            PairLine::Item(derived, base) | PairLine::Kids(derived, base) => (derived, base),
        };
        self.take_name(alloc, schema, line, derived)?;
        self.take_name(alloc, schema, line, base)
    }

    // What stands behind the pairs, from a line on.
    fn take_end(&mut self, line: usize, text: &str) -> Result<(), NoMemory>
        ensures format { OnOk result (any_of_format self.new.found.items
            ≡ (any_of_format self.old.found.items || not (bytes_eq text.now (codes "end\n")))) }
        ensures none { bytes_eq text.now (codes "end\n") ≡ true
            → OnOk result (self.new.found.items ≡ self.old.found.items) }
    {
        if text == "end\n" {
            return Ok(());
        }
        if text == "end" {
            self.put(line, FlawKind::Expected(LinePart::LineFeed))
        } else if text.as_bytes().starts_with(b"end\n") {
            self.put(
                line.saturating_add(1),
                FlawKind::Expected(LinePart::Nothing),
            )
        } else {
            self.put(line, FlawKind::Expected(LinePart::PairOrEnd))
        }
    }

    // Takes a url that needn't be that of a profile.
    fn take_loaded(
        &mut self,
        alloc: Global,
        schema: &Schema,
        line: usize,
        url: &'a str,
    ) -> Result<(), NoMemory>
        ensures format { OnOk result (any_of_format self.new.found.items ≡ any_of_format self.old.found.items) }
        ensures none { OnOk result (is_empty self.new.found.items
            ≡ (is_empty self.old.found.items && can_be_used schema.now url.now)) }
    {
        if schema.can_be_used(url) {
            return Ok(());
        }
        self.put_new(alloc, line, url, FlawKind::Definition(url))
    }

    // Takes the definitions of a text, which begin in the second line.
    fn take_definitions(
        &mut self,
        alloc: Global,
        schema: &Schema,
        stated: &[StatedText<'a>],
    ) -> Result<(), NoMemory>
        ensures format { OnOk result (any_of_format self.new.found.items ≡ any_of_format self.old.found.items) }
        ensures none { OnOk result (is_empty self.new.found.items
            ≡ (is_empty self.old.found.items && list_all (λ d. can_be_used schema.now d.url.now) stated.now)) }
    {
        let mut line = 2_usize;
        for definition in stated {
            self.take_loaded(alloc, schema, line, definition.url)?;
            line = line.saturating_add(1);
        }
        Ok(())
    }

    fn take_pairs(
        &mut self,
        alloc: Global,
        schema: &Schema,
        definitions: &Definitions<'a>,
        first: usize,
        text: &'a str,
    ) -> Result<(), NoMemory>
        ensures format { OnOk result (any_of_format self.new.found.items
            ≡ (any_of_format self.old.found.items || is_none (pairs_at (numbering definitions.now) text.now))) }
        ensures none { let ns = numbering definitions.now in
            IsTrue (is_some (pairs_at ns text.now)) → OnOk result (is_empty self.new.found.items
            ≡ (is_empty self.old.found.items && are_known schema.now (pair_lines ns (lines_of text.now)))) }
    {
        let mut line = first;
        let mut rest = text;
        while let Some((pair, behind)) = next_pair(definitions, rest) {
            self.take_pair(alloc, schema, line, pair)?;
            line = line.saturating_add(1);
            rest = behind;
        }
        self.take_end(line, rest)
    }

    // Takes what stands behind the definitions, from a line on.
    fn take_behind(
        &mut self,
        alloc: Global,
        schema: &Schema,
        definitions: &Definitions<'a>,
        line: usize,
        text: &'a str,
    ) -> Result<(), NoMemory>
        ensures format { OnOk result (any_of_format self.new.found.items
            ≡ (any_of_format self.old.found.items || is_none (written_behind definitions.now text.now))) }
        ensures none { (w : Written) → written_behind definitions.now text.now ≡ Some w
            → OnOk result (is_empty self.new.found.items ≡ (is_empty self.old.found.items && is_some (root schema.now w.derived)
            && is_some (root schema.now w.base) && are_known schema.now w.lines)) }
    {
        let Some((derived, rest)) = url_line(definitions, "derived", text) else {
            return self.put(line, FlawKind::Expected(part_at(text)));
        };
        self.take_url(alloc, schema, line, derived)?;
        let line = line.saturating_add(1);
        let Some((base, rest)) = url_line(definitions, "base", rest) else {
            return self.put(line, FlawKind::Expected(LinePart::Base));
        };
        self.take_url(alloc, schema, line, base)?;
        self.take_pairs(alloc, schema, definitions, line.saturating_add(1), rest)
    }

    // Takes a text behind its first line, format 2.
    fn take_numbered(
        &mut self,
        alloc: Global,
        schema: &Schema,
        text: &'a str,
    ) -> Result<(), NoMemory>
        ensures format { OnOk result (any_of_format self.new.found.items
            ≡ (any_of_format self.old.found.items || is_none (written_numbered text.now))) }
        ensures none { (w : Written) → written_numbered text.now ≡ Some w
            → OnOk result (is_empty self.new.found.items ≡ (is_empty self.old.found.items && is_some (certificate_of schema.now w))) }
    {
        let (lines, rest) = definition_lines(alloc, text)?;
        if let Some(number) = lines.repeated {
            return self.put(
                number.saturating_add(2),
                FlawKind::Expected(LinePart::Definition),
            );
        }
        self.take_definitions(alloc, schema, &lines.stated)?;
        let line = lines.stated.len().saturating_add(2);
        let definitions = numbered(lines);
        self.take_behind(alloc, schema, &definitions, line, rest)
    }

    // Takes a text behind its first line, format 1.
    fn take_named(&mut self, alloc: Global, schema: &Schema, text: &'a str) -> Result<(), NoMemory>
        ensures format { OnOk result (any_of_format self.new.found.items
            ≡ (any_of_format self.old.found.items || is_none (written_behind None text.now))) }
        ensures none { (w : Written) → written_behind None text.now ≡ Some w
            → OnOk result (is_empty self.new.found.items ≡ (is_empty self.old.found.items && is_some (certificate_of schema.now w))) }
    {
        let definitions = no_numbers(alloc);
        self.take_behind(alloc, schema, &definitions, 2, text)
    }

    fn take_text(&mut self, alloc: Global, schema: &Schema, text: &'a str) -> Result<(), NoMemory>
        requires { self.old.found.items ≡ [] }
        ensures format { OnOk result (any_of_format self.new.found.items ≡ is_none (written_of text.now)) }
        ensures none { (w : Written) → written_of text.now ≡ Some w
            → OnOk result (is_empty self.new.found.items ≡ is_some (certificate_of schema.now w)) }
    {
        if let Some(rest) = behind_line("fhirprof-certificate 1", text) {
            return self.take_named(alloc, schema, rest);
        }
        match behind_line("fhirprof-certificate 2", text) {
            Some(rest) => self.take_numbered(alloc, schema, rest),
            None => self.put(1, FlawKind::Expected(LinePart::FirstLine)),
        }
    }
}

// What should stand in the line behind the definitions: another one, where it looks like one.
fn part_at(text: &str) -> LinePart {
    if text.as_bytes().starts_with(b"def\t") {
        LinePart::Definition
    } else {
        LinePart::Derived
    }
}

fn version_flaw<'a>(schema: &'a Schema, line: usize, stated: StatedText<'a>) -> Flaw<'a>
    ensures { is_of_version result.kind ≡ true }
{
    let own = schema.version(stated.url);
    Flaw {
        line,
        kind: FlawKind::Version(stated.url, stated.version, own),
    }
}

fn wrong_versions<'a>(
    alloc: Global,
    schema: &'a Schema,
    stated: &[StatedText<'a>],
) -> Result<Vec<Flaw<'a>>, NoMemory>
    ensures versions { IfOk result (λ flaws. are_of_versions flaws.items ≡ true) }
    ensures none { IfOk result (λ flaws. is_empty flaws.items ≡ list_all (has_version schema.now) (map stated_seen stated.now)) }
{
    let mut flaws = Vec::new(alloc);
    let mut line = 2_usize;
    for definition in stated {
        if !has_version(alloc, schema, *definition)? {
            flaws.push(version_flaw(schema, line, *definition))?;
        }
        line = line.saturating_add(1);
    }
    Ok(flaws)
}

fn definition_flaws<'a>(
    alloc: Global,
    schema: &'a Schema,
    definitions: &Definitions<'a>,
) -> Result<Vec<Flaw<'a>>, NoMemory>
    ensures { option_map_or (list_all (has_version schema.now)) definitions.now true ≡ false
        → IfOk result (λ flaws. fault_of_flaws flaws.items ≡ Some faults.OtherVersion) }
{
    match &definitions.stated {
        Some(stated) => wrong_versions(alloc, schema, stated),
        None => Ok(Vec::new(alloc)),
    }
}

// Those of the versions in a text.
fn stated_flaws<'a>(
    alloc: Global,
    schema: &'a Schema,
    text: &'a str,
) -> Result<Vec<Flaw<'a>>, NoMemory>
    ensures { (w : Written) → written_of text.now ≡ Some w → has_versions schema.now w ≡ false
        → IfOk result (λ flaws. fault_of_flaws flaws.items ≡ Some faults.OtherVersion) }
{
    match front_of(alloc, text)? {
        Some((definitions, _)) => definition_flaws(alloc, schema, &definitions),
        None => Ok(Vec::new(alloc)),
    }
}

// Whether a fault is that of another version. Of want of memory nothing is said.
fn is_other(fault: CertFault) -> Result<bool, NoMemory>
    ensures told { IfOk result (λ _. is_no_memory fault ≡ false) }
    ensures other { IfOk result (λ is. is ≡ is_other (Some fault)) }
{
    match fault {
        CertFault::NoMemory => Err(NoMemory),
        CertFault::OtherVersion => Ok(true),
        CertFault::WrongFormat | CertFault::UnknownNode | CertFault::TooManyPairs => Ok(false),
    }
}

// Whether reading fails for a version.
fn has_other(alloc: Global, schema: &Schema, bytes: &[u8]) -> Result<bool, NoMemory>
    ensures { IfOk result (λ has. has ≡ is_other (fault_of_lines (reading schema.now bytes.now))) }
{
    match read(alloc, schema, bytes) {
        Ok(_) => Ok(false),
        Err(fault) => is_other(fault),
    }
}

// Those of the versions that are written, where nothing else is wrong.
fn version_flaws<'a>(
    alloc: Global,
    schema: &'a Schema,
    bytes: &[u8],
    text: &'a str,
) -> Result<Vec<Flaw<'a>>, NoMemory>
    requires { bytes.now ≡ text.now }
    ensures other { IfOk result (λ flaws. fault_of_lines (reading schema.now bytes.now) ≡ Some faults.OtherVersion
        → fault_of_flaws flaws.items ≡ Some faults.OtherVersion) }
    ensures none { IfOk result (λ flaws. fault_of_lines (reading schema.now bytes.now) ≡ None → flaws.items ≡ []) }
{
    if has_other(alloc, schema, bytes)? {
        stated_flaws(alloc, schema, text)
    } else {
        Ok(Vec::new(alloc))
    }
}

// Those of a text.
fn text_flaws<'a>(
    alloc: Global,
    schema: &'a Schema,
    bytes: &[u8],
    text: &'a str,
) -> Result<Vec<Flaw<'a>>, NoMemory>
    requires { bytes.now ≡ text.now }
    ensures { IfOk result (λ flaws. fault_of_flaws flaws.items ≡ fault_of_lines (reading schema.now bytes.now)) }
{
    let mut flaws: FlawList<'a> = FlawList::new(alloc);
    flaws.take_text(alloc, schema, text)?;
    if flaws.found.is_empty() {
        version_flaws(alloc, schema, bytes, text)
    } else {
        Ok(flaws.found)
    }
}

// That the bytes aren't UTF-8 from a line on.
fn utf8_flaws<'a>(alloc: Global, line: usize) -> Result<Vec<Flaw<'a>>, NoMemory>
    ensures { IfOk result (λ flaws. fault_of_flaws flaws.items ≡ Some faults.WrongFormat) }
{
    let mut flaws = FlawList::new(alloc);
    flaws.put(line, FlawKind::Expected(LinePart::Utf8))?;
    Ok(flaws.found)
}

/// What is wrong with the bytes of a certificate, in the order of their lines: each definition and each element that isn't
/// known, at the first line that names it, and the first line that isn't written as it should be, with which it ends; and where
/// nothing else is wrong, each line with another version than its definition has. The one refusal is want of memory.
pub fn flaws<'a>(
    alloc: Global,
    schema: &'a Schema,
    bytes: &'a [u8],
) -> Result<Vec<Flaw<'a>>, NoMemory>
    // Something is wrong with a line exactly where reading fails for its lines, and by the same fault.
    ensures { IfOk result (λ flaws. fault_of_flaws flaws.items ≡ fault_of_lines (reading schema.now bytes.now)) }
{
    match str::from_utf8(bytes) {
        Ok(text) => text_flaws(alloc, schema, bytes, text),
        Err(error) => {
            let line = position_of(bytes, error.valid_up_to()).line;
            utf8_flaws(alloc, line)
        }
    }
}
