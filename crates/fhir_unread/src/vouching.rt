//! What a user vouches for by a file of texts.

ghost use Rattle.std.specs.Prelude.{◌≡◌, ◌↔◌, ◌∷◌, ◌++◌, [], None, Err, map, option_map, string_bytes, IfOk, OnOk, IsUtf8};
ghost use Rattle.std.specs.List.{flat_map};
ghost use Rattle.fhir_vouching.specs.declared.given.GivenFault.TheVariants as GivenFault;
ghost use Rattle.fhir_vouching.specs.Given.{line_seen};
ghost use Rattle.fhir_lines.specs.Lines.{escaped};
ghost use Rattle.fhir_unread.specs.Given.{text_given, texts_given, AreSame, is_known, unknown_lines, note, notes};
ghost use Rattle.fhir_unread.specs.Unread.{unread_texts};

use crate::telling::unread_texts;
use fhir_findings::Selection;
use fhir_json::NoMemory;
use fhir_lines::push_escaped;
use fhir_package::Survey;
use fhir_schema::Schema;
use fhir_vouching::{GivenFault, GivenLine, Progress, Spelled, Vouching, read_given};
use std::alloc::{AllocError, Global};
use std::cmp::Ordering;

/// What a user vouches for by a file of texts.
#[derive(Drop)]
pub struct Given {
    /// The texts.
    pub vouching: Vouching,
    /// What is told of the lines that give no text which a definition carries: a line for each.
    pub notes: String,
}

// A text that is looked up.
#[derive(Clone, Copy)]
struct Sought<'t> {
    text: &'t str,
}

impl Spelled for Sought<'_> {
    ghost spelled = { λ sought. sought.text.now };

    fn cmp_text(&self, text: &str) -> Ordering {
        Progress::of(text).then(self.text).order()
    }
}

// ---- lines whose texts no definition carries

// Whether a line gives one of some texts.
fn is_known(known: &Vouching, line: &GivenLine) -> bool
    ensures { result ≡ is_known known.now (line_seen line.now).1 }
{
    match &line.text {
        Some(text) => known.contains(&Sought {
            text: text.as_str(),
        }),
        None => false,
    }
}

fn note(alloc: Global, name: &str, number: usize) -> Result<String, AllocError>
    ensures { IfOk result (λ n. string_bytes n ≡ note name.now number) }
{
    let text = format!(in alloc; "{name}:{number}: unread lists no such text\n")?;
    Ok(text)
}

// Puts in what is told of a line, if it gives none of some texts.
fn push_unknown(
    alloc: Global,
    name: &str,
    known: &Vouching,
    line: &GivenLine,
    into: &mut String,
) -> Result<(), AllocError>
    ensures { OnOk result (string_bytes into.new
        ≡ string_bytes into.old ++ flat_map (note name.now) (unknown_lines known.now (line_seen line.now ∷ []))) }
{
    if is_known(known, line) {
        return Ok(());
    }
    into.push_str(note(alloc, name, line.number)?.as_str())
}

// What is told of the lines that give none of some texts.
fn notes(
    alloc: Global,
    name: &str,
    known: &Vouching,
    lines: &[GivenLine],
) -> Result<String, AllocError>
    ensures { IfOk result (λ n. string_bytes n ≡ flat_map (note name.now) (unknown_lines known.now (map line_seen lines.now))) }
{
    let mut notes = String::new(alloc);
    for line in lines {
        push_unknown(alloc, name, known, line, &mut notes)?;
    }
    Ok(notes)
}

// ---- the texts of lines

fn push_text(text: Option<String>, into: &mut Vec<String>) -> Result<(), AllocError>
    ensures { OnOk result (map string_bytes into.new.items
        ≡ map string_bytes into.old.items ++ text_given (option_map string_bytes text)) }
{
    if let Some(text) = text {
        into.push(text)?;
    }
    Ok(())
}

fn texts_of(alloc: Global, lines: Vec<GivenLine>) -> Result<Vec<String>, AllocError>
    ensures { IfOk result (λ texts. map string_bytes texts.items
        ≡ flat_map (λ l. text_given l.1) (map line_seen lines.items)) }
{
    let mut texts: Vec<String> = Vec::new(alloc);
    for line in lines {
        push_text(line.text, &mut texts)?;
    }
    Ok(texts)
}

// ---- a file of texts

fn given_by(
    alloc: Global,
    known: &Vouching,
    name: &str,
    lines: Vec<GivenLine>,
) -> Result<Given, NoMemory>
    ensures given { IfOk result (λ g. AreSame g.vouching (flat_map (λ l. text_given l.1) (map line_seen lines.items))) }
    ensures told { IfOk result (λ g. string_bytes g.notes
        ≡ flat_map (note name.now) (unknown_lines known.now (map line_seen lines.items))) }
{
    let notes = notes(alloc, name, known, &lines)?;
    let texts = texts_of(alloc, lines)?;
    Ok(Given {
        vouching: Vouching::of(texts),
        notes,
    })
}

fn given_in(
    alloc: Global,
    survey: &Survey<'_>,
    schema: &Schema,
    name: &str,
    lines: Vec<GivenLine>,
) -> Result<Given, NoMemory>
    ensures given { IfOk result (λ g. AreSame g.vouching (flat_map (λ l. text_given l.1) (map line_seen lines.items))) }
    ensures told { IfOk result (λ g. string_bytes g.notes
        ≡ flat_map (note name.now) (unknown_lines (unread_texts None schema.now survey.now) (map line_seen lines.items))) }
{
    let all = Selection::all();
    let carried = unread_texts(alloc, survey, schema, &all)?;
    let known = Vouching::of(carried);
    given_by(alloc, &known, name, lines)
}

fn shown_name(alloc: Global, name: &str) -> Result<String, AllocError>
    ensures { IfOk result (λ shown. string_bytes shown ≡ escaped name.now) }
{
    let mut shown = String::new(alloc);
    push_escaped(name, &mut shown)?;
    Ok(shown)
}

// The same of a file of that name, of which the control characters are escaped.
fn given_of(
    alloc: Global,
    survey: &Survey<'_>,
    schema: &Schema,
    name: &str,
    lines: Vec<GivenLine>,
) -> Result<Given, NoMemory>
    ensures given { IfOk result (λ g. AreSame g.vouching (flat_map (λ l. text_given l.1) (map line_seen lines.items))) }
    ensures told { IfOk result (λ g. string_bytes g.notes
        ≡ flat_map (note (escaped name.now)) (unknown_lines (unread_texts None schema.now survey.now) (map line_seen lines.items))) }
{
    let shown = shown_name(alloc, name)?;
    given_in(alloc, survey, schema, shown.as_str(), lines)
}

/// What a user vouches for by the bytes of a file of that name: its texts, and what is told of the lines that give none which the definitions of a
/// survey's package carry, by the schema of the package. Such lines change nothing. The refusals are those of `fhir_vouching::read_given`.
pub fn vouch(
    alloc: Global,
    survey: &Survey<'_>,
    schema: &Schema,
    name: &str,
    bytes: &[u8],
) -> Result<Given, GivenFault>
    ensures given { IfOk result (λ g. AreSame g.vouching (texts_given bytes.now)) }
    ensures told { IfOk result (λ g. string_bytes g.notes ≡ notes name.now (unread_texts None schema.now survey.now) bytes.now) }
    ensures not_utf8 { (result ≡ Err GivenFault.NotUtf8) ↔ (¬ IsUtf8 bytes.now) }
{
    let lines = read_given(alloc, bytes)?;
    match given_of(alloc, survey, schema, name, lines) {
        Ok(given) => Ok(given),
        Err(NoMemory) => Err(GivenFault::NoMemory),
    }
}
