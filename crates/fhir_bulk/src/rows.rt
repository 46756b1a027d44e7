//! The rows on a line.

ghost use Rattle.std.specs.Prelude.{◌≡◌, ◌++◌, ◌∷◌, [], ◌<◌, List, length, map, flat_map, zip, ℕ, IfOk, OnOk, if◌then◌else◌, codes, string_bytes};
ghost use Rattle.std.specs.Fmt.{decimal};
ghost use Rattle.fhir_json.specs.Compact.{compact};
ghost use Rattle.fhir_json.specs.Tree.{string};
ghost use Rattle.fhir_json.specs.Views.{tree_of, trees_of};
ghost use Rattle.fhir_lines.specs.Lines.{escaped};
ghost use Rattle.fhir_bulk.specs.Rows.{verdict_word, heading, place_text, words_text, issue_text, line_of, issue_row, is_told, row_if_told, judgement_rows, separated, position_json, profile_start, verdict_start, outcome_start, at_start, outcomes_start, profile_json, verdict_json, at_json, judgement_json, tail, rows, is_good, unread_tail};
ghost use Rattle.fhir_telling.specs.Judgements.{told_memory};
ghost use Rattle.fhir_telling.specs.Views.{note_seen, judgement_seen, told_seen};

use fhir_json::{Json, NoMemory, Position};
use fhir_lines::{push_escaped, push_json};
use fhir_telling::{Judgement, LineVerdict, Note, Told, diagnostics_of, place_of};
use fhir_words::Format;
use itoa::Buffer;
use std::alloc::{AllocError, Global};
use std::borrow::CowStr;

fn verdict_word(format: Format, verdict: LineVerdict) -> &'static str
    ensures { result.now ≡ verdict_word format verdict }
{
    match (format, verdict) {
        (_, LineVerdict::Conforms) => "conforms",
        (_, LineVerdict::Violates) => "violates",
        (_, LineVerdict::Open) => "open",
        (_, LineVerdict::Fault) => "fault",
        (Format::Text, LineVerdict::NoMemory) => "no memory",
        (Format::Json, LineVerdict::NoMemory) => "memory",
        (_, LineVerdict::Empty) => "empty",
    }
}

fn push_number(number: usize, into: &mut String) -> Result<(), AllocError>
    ensures { OnOk result (string_bytes into.new ≡ string_bytes into.old ++ decimal number) }
{
    into.push_str(Buffer::new().format(number))
}

fn push_string(alloc: Global, text: &str, into: &mut String) -> Result<(), NoMemory>
    ensures { OnOk result (string_bytes into.new ≡ string_bytes into.old ++ escaped (compact (string text.now))) }
{
    push_json(alloc, &Json::Str(CowStr::Borrowed(text)), into)
}

// ---- texts

fn push_place(place: &str, into: &mut String) -> Result<(), AllocError>
    ensures { OnOk result (string_bytes into.new ≡ string_bytes into.old ++ place_text place.now) }
{
    if place.is_empty() {
        Ok(())
    } else {
        push_escaped(place, into)?;
        into.push_str(": ")
    }
}

fn push_words(words: &str, into: &mut String) -> Result<(), AllocError>
    ensures { OnOk result (string_bytes into.new ≡ string_bytes into.old ++ words_text words.now) }
{
    if words.is_empty() {
        Ok(())
    } else {
        into.push_str(": ")?;
        push_escaped(words, into)
    }
}

fn push_issue(issue: &Json<'static>, note: &Note, into: &mut String) -> Result<(), AllocError>
    ensures { OnOk result (string_bytes into.new ≡ string_bytes into.old ++ issue_text (tree_of issue.now) (note_seen note.now)) }
{
    push_place(place_of(issue), into)?;
    push_escaped(diagnostics_of(issue), into)?;
    push_words(note.words.as_str(), into)
}

fn line_of(number: usize, at: Position) -> usize
    ensures { result ≡ line_of number at }
{
    number.max(at.line)
}

fn push_issue_row(
    heading: &str,
    number: usize,
    issue: &Json<'static>,
    note: &Note,
    into: &mut String,
) -> Result<(), AllocError>
    ensures { OnOk result (string_bytes into.new ≡ string_bytes into.old ++ issue_row heading.now number (tree_of issue.now, note_seen note.now)) }
{
    into.push_str(heading)?;
    push_number(line_of(number, note.at), into)?;
    into.push_str(":")?;
    push_number(note.at.column, into)?;
    into.push_str(": ")?;
    push_issue(issue, note, into)?;
    into.push_str("\n")
}

// Whether an issue has a row: what says why a resource conforms has none.
fn is_told(issue: &Json<'static>) -> bool
    ensures { result ≡ is_told (tree_of issue.now) }
{
    issue.text_in("severity").unwrap_or("") != "information"
}

fn push_row_if_told(
    heading: &str,
    number: usize,
    issue: &Json<'static>,
    note: &Note,
    into: &mut String,
) -> Result<(), AllocError>
    ensures { OnOk result (string_bytes into.new ≡ string_bytes into.old ++ row_if_told heading.now number (tree_of issue.now, note_seen note.now)) }
{
    if is_told(issue) {
        push_issue_row(heading, number, issue, note, into)
    } else {
        Ok(())
    }
}

fn push_issue_rows(
    heading: &str,
    number: usize,
    issues: &[Json<'static>],
    notes: &[Note],
    into: &mut String,
) -> Result<(), AllocError>
    ensures { OnOk result (string_bytes into.new ≡ string_bytes into.old
        ++ flat_map (row_if_told heading.now number) (zip (trees_of issues.now) (map note_seen notes.now))) }
{
    for (issue, note) in issues.iter().zip(notes) {
        push_row_if_told(heading, number, issue, note, into)?;
    }
    Ok(())
}

fn push_judgement_rows(
    heading: &str,
    number: usize,
    judgement: &Judgement,
    into: &mut String,
) -> Result<(), AllocError>
    ensures { OnOk result (string_bytes into.new ≡ string_bytes into.old ++ judgement_rows heading.now number (judgement_seen judgement.now)) }
{
    let issues = judgement.outcome.items_in("issue");
    push_issue_rows(heading, number, issues, &judgement.notes, into)
}

fn push_texts(
    heading: &str,
    number: usize,
    judgements: &[Judgement],
    into: &mut String,
) -> Result<(), AllocError>
    ensures { OnOk result (string_bytes into.new ≡ string_bytes into.old ++ flat_map (judgement_rows heading.now number) (map judgement_seen judgements.now)) }
{
    for judgement in judgements {
        push_judgement_rows(heading, number, judgement, into)?;
    }
    Ok(())
}

// ---- JSON

fn push_position(number: usize, at: Position, into: &mut String) -> Result<(), AllocError>
    ensures { OnOk result (string_bytes into.new ≡ string_bytes into.old ++ position_json number at) }
{
    into.push_str("[")?;
    push_number(line_of(number, at), into)?;
    into.push_str(",")?;
    push_number(at.column, into)?;
    into.push_str("]")
}

fn push_more_positions(number: usize, notes: &[Note], into: &mut String) -> Result<(), AllocError>
    ensures { OnOk result (string_bytes into.new ≡ string_bytes into.old
        ++ flat_map (λ u. codes "," ++ u) (map (λ note. position_json number note.at) (map note_seen notes.now))) }
{
    for note in notes {
        into.push_str(",")?;
        push_position(number, note.at, into)?;
    }
    Ok(())
}

fn push_positions(number: usize, notes: &[Note], into: &mut String) -> Result<(), AllocError>
    ensures { OnOk result (string_bytes into.new ≡ string_bytes into.old ++ separated (map (λ note. position_json number note.at) (map note_seen notes.now))) }
{
    match notes {
        [] => Ok(()),
        [first, others @ ..] => {
            push_position(number, first.at, into)?;
            push_more_positions(number, others, into)
        }
    }
}

#[tactic(auto, unfolding(crate::specs::Rows::profile_start))]
fn profile_start() -> &'static str
    ensures { result.now ≡ profile_start }
{
    "{\"profile\":"
}

#[tactic(auto, unfolding(crate::specs::Rows::verdict_start))]
fn verdict_start() -> &'static str
    ensures { result.now ≡ verdict_start }
{
    ",\"verdict\":\""
}

#[tactic(auto, unfolding(crate::specs::Rows::outcome_start))]
fn outcome_start() -> &'static str
    ensures { result.now ≡ outcome_start }
{
    "\",\"outcome\":"
}

#[tactic(auto, unfolding(crate::specs::Rows::at_start))]
fn at_start() -> &'static str
    ensures { result.now ≡ at_start }
{
    ",\"at\":["
}

#[tactic(auto, unfolding(crate::specs::Rows::outcomes_start))]
fn outcomes_start() -> &'static str
    ensures { result.now ≡ outcomes_start }
{
    "\",\"outcomes\":["
}

fn push_profile(alloc: Global, profile: &str, into: &mut String) -> Result<(), NoMemory>
    ensures { OnOk result (string_bytes into.new ≡ string_bytes into.old ++ profile_json profile.now) }
{
    into.push_str(profile_start())?;
    push_string(alloc, profile, into)
}

// The verdict, and what stands behind it.
fn push_verdict(verdict: LineVerdict, next: &str, into: &mut String) -> Result<(), AllocError>
    ensures { OnOk result (string_bytes into.new ≡ string_bytes into.old ++ verdict_json verdict next.now) }
{
    into.push_str(verdict_start())?;
    into.push_str(verdict_word(Format::Json, verdict))?;
    into.push_str(next)
}

fn push_at(number: usize, notes: &[Note], into: &mut String) -> Result<(), AllocError>
    ensures { OnOk result (string_bytes into.new ≡ string_bytes into.old ++ at_json number (map note_seen notes.now)) }
{
    into.push_str(at_start())?;
    push_positions(number, notes, into)?;
    into.push_str("]}")
}

fn push_judgement_json(
    alloc: Global,
    number: usize,
    judgement: &Judgement,
    into: &mut String,
) -> Result<(), NoMemory>
    ensures { OnOk result (string_bytes into.new ≡ string_bytes into.old ++ judgement_json number (judgement_seen judgement.now)) }
{
    push_profile(alloc, judgement.profile.as_str(), into)?;
    push_verdict(LineVerdict::of(judgement.standing), outcome_start(), into)?;
    push_json(alloc, &judgement.outcome, into)?;
    Ok(push_at(number, &judgement.notes, into)?)
}

fn push_more_json(
    alloc: Global,
    number: usize,
    judgements: &[Judgement],
    into: &mut String,
) -> Result<(), NoMemory>
    ensures { OnOk result (string_bytes into.new ≡ string_bytes into.old
        ++ flat_map (λ u. codes "," ++ u) (map (judgement_json number) (map judgement_seen judgements.now))) }
{
    for judgement in judgements {
        into.push_str(",")?;
        push_judgement_json(alloc, number, judgement, into)?;
    }
    Ok(())
}

fn push_outcomes(
    alloc: Global,
    number: usize,
    judgements: &[Judgement],
    into: &mut String,
) -> Result<(), NoMemory>
    ensures { OnOk result (string_bytes into.new ≡ string_bytes into.old ++ separated (map (judgement_json number) (map judgement_seen judgements.now))) }
{
    match judgements {
        [] => Ok(()),
        [first, others @ ..] => {
            push_judgement_json(alloc, number, first, into)?;
            push_more_json(alloc, number, others, into)
        }
    }
}

// ---- the rows

fn push_text_tail(
    heading: &str,
    number: usize,
    told: &Told,
    into: &mut String,
) -> Result<(), AllocError>
    ensures { OnOk result (string_bytes into.new ≡ string_bytes into.old ++ tail Format.Text heading.now number (told_seen told.now)) }
{
    into.push_str(": ")?;
    into.push_str(verdict_word(Format::Text, told.verdict))?;
    into.push_str("\n")?;
    push_texts(heading, number, &told.judgements, into)
}

fn push_json_tail(
    alloc: Global,
    heading: &str,
    number: usize,
    told: &Told,
    into: &mut String,
) -> Result<(), NoMemory>
    ensures { OnOk result (string_bytes into.new ≡ string_bytes into.old ++ tail Format.Json heading.now number (told_seen told.now)) }
{
    push_verdict(told.verdict, outcomes_start(), into)?;
    push_outcomes(alloc, number, &told.judgements, into)?;
    Ok(into.push_str("]}\n")?)
}

fn push_tail(
    alloc: Global,
    format: Format,
    heading: &str,
    number: usize,
    told: &Told,
    into: &mut String,
) -> Result<(), NoMemory>
    ensures { OnOk result (string_bytes into.new ≡ string_bytes into.old ++ tail format heading.now number (told_seen told.now)) }
{
    match format {
        Format::Text => Ok(push_text_tail(heading, number, told, into)?),
        Format::Json => push_json_tail(alloc, heading, number, told, into),
    }
}

/// The rows on a line. The one refusal is want of memory.
pub(crate) fn rows_on(
    alloc: Global,
    format: Format,
    heading: &str,
    number: usize,
    told: &Told,
) -> Result<String, NoMemory>
    ensures { IfOk result (λ text. string_bytes text ≡ rows format heading.now number (told_seen told.now)) }
{
    let mut text = String::from_str(alloc, heading)?;
    push_number(number, &mut text)?;
    push_tail(alloc, format, heading, number, told, &mut text)?;
    Ok(text)
}

/// How each row on a file of that name begins. The one refusal is want of memory.
pub(crate) fn heading_of(alloc: Global, format: Format, file: &str) -> Result<String, NoMemory>
    ensures { IfOk result (λ text. string_bytes text ≡ heading format file.now) }
{
    let mut text = String::new(alloc);
    match format {
        Format::Text => {
            push_escaped(file, &mut text)?;
            text.push_str(":")?;
        }
        Format::Json => {
            text.push_str("{\"file\":")?;
            push_string(alloc, file, &mut text)?;
            text.push_str(",\"line\":")?;
        }
    }
    Ok(text)
}

/// What stands behind the number of a line for which memory was refused.
#[tactic(auto, unfolding(crate::specs::Rows::verdict_start, crate::specs::Rows::outcomes_start))]
pub(crate) fn memory_tail(format: Format) -> &'static str
    ensures { (heading : List ℕ) (number : ℕ) → result.now ≡ tail format heading number told_memory }
{
    match format {
        Format::Text => ": no memory\n",
        Format::Json => ",\"verdict\":\"memory\",\"outcomes\":[]}\n",
    }
}

/// What stands behind the number of the line from which on an input can't be read.
pub(crate) fn unread_tail(format: Format) -> &'static str
    ensures { result.now ≡ unread_tail format }
{
    match format {
        Format::Text => ": fault: can't be read\n",
        Format::Json => ",\"verdict\":\"fault\",\"outcomes\":[]}\n",
    }
}
