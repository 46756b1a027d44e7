//! What is noted beside the issues of an outcome: where they are in the resource's text, and what they say in plain words.

ghost use Rattle.std.specs.Prelude.{◌≡◌, length, IfOk, map};
ghost use Rattle.fhir_telling.specs.Views.{note_seen};

use crate::issue::{diagnostics_of, place_of};
use crate::judgement::Note;
use crate::question::Question;
use fhir_commands::Standing;
use fhir_json::{Json, JsonFault, NoMemory, Position, position_of, read, read_or_place};
use fhir_plain::Plain;
use fhir_positions::positions_of;
use fhir_schema::Schema;
use std::alloc::{AllocError, Global};

// The first position of a text.
const FIRST: Position = Position { line: 1, column: 1 };

fn places_of<'j>(alloc: Global, issues: &'j [Json<'static>]) -> Result<Vec<&'j str>, AllocError> {
    let mut places = Vec::with_capacity(alloc, issues.len())?;
    for issue in issues {
        places.push(place_of(issue))?;
    }
    Ok(places)
}

/// Where a resource says to which profiles it claims to conform. The one refusal is want of memory.
pub(crate) fn claims_position(
    alloc: Global,
    schema: &Schema,
    bytes: &[u8],
) -> Result<Position, NoMemory> {
    let positions = positions_of(alloc, schema, bytes, &["Resource.meta.profile"])?;
    Ok(position_at(&positions, 0))
}

// Where it is that nothing could be judged: where the text is no JSON, and else where its profiles are claimed.
fn fault_position(alloc: Global, schema: &Schema, bytes: &[u8]) -> Result<Position, NoMemory> {
    let Err(refusal) = read_or_place(alloc, bytes) else {
        return claims_position(alloc, schema, bytes);
    };
    match refusal.expected.fault() {
        JsonFault::NoMemory => Err(NoMemory),
        _ => Ok(position_of(bytes, bytes.len().saturating_sub(refusal.left))),
    }
}

// Where the items are of which issues speak. Where a fault is may be known.
fn positions_in(
    alloc: Global,
    schema: &Schema,
    bytes: &[u8],
    standing: Standing,
    issues: &[Json<'static>],
    fault_at: Option<Position>,
) -> Result<Vec<Position>, NoMemory> {
    if standing != Standing::Fault {
        return positions_of(alloc, schema, bytes, &places_of(alloc, issues)?);
    }
    let at = match fault_at {
        Some(at) => at,
        None => fault_position(alloc, schema, bytes)?,
    };
    Ok(Vec::from_elem(alloc, at, issues.len())?)
}

fn position_at(positions: &[Position], place: usize) -> Position {
    match positions.get(place) {
        Some(at) => *at,
        None => FIRST,
    }
}

// The resource that the bytes are, if they are one.
fn resource_in(alloc: Global, bytes: &[u8]) -> Result<Option<Json<'_>>, NoMemory> {
    match read(alloc, bytes) {
        Ok(resource) => Ok(Some(resource)),
        Err(JsonFault::NoMemory) => Err(NoMemory),
        Err(_) => Ok(None),
    }
}

// Whether nothing is wrong: what is only informed of isn't put in words.
fn are_good(issues: &[Json<'static>]) -> bool {
    issues
        .iter()
        .all(|issue| issue.text_in("severity") == Some("information"))
}

fn words_on(
    alloc: Global,
    plain: Option<&Plain<'_>>,
    resource: Option<&Json<'_>>,
    issue: &Json<'static>,
) -> Result<String, NoMemory> {
    match plain {
        Some(plain) => plain.words(alloc, resource, place_of(issue), diagnostics_of(issue)),
        None => Ok(String::new(alloc)),
    }
}

fn notes_at(
    alloc: Global,
    plain: Option<&Plain<'_>>,
    resource: Option<&Json<'_>>,
    issues: &[Json<'static>],
    positions: &[Position],
) -> Result<Vec<Note>, NoMemory>
    ensures { IfOk result (λ notes. length notes.items ≡ length issues.now) }
{
    let mut notes = Vec::with_capacity(alloc, issues.len())?;
    for issue in issues {
        let at = position_at(positions, notes.len());
        let words = words_on(alloc, plain, resource, issue)?;
        notes.push(Note { at, words })?;
    }
    Ok(notes)
}

// In words, where these are wanted. Those on a fault don't need the resource.
fn notes_in_words(
    alloc: Global,
    plain: &Plain<'_>,
    bytes: &[u8],
    standing: Standing,
    issues: &[Json<'static>],
    positions: &[Position],
) -> Result<Vec<Note>, NoMemory>
    ensures { IfOk result (λ notes. length notes.items ≡ length issues.now) }
{
    if standing == Standing::Fault {
        return notes_at(alloc, Some(plain), None, issues, positions);
    }
    let resource = resource_in(alloc, bytes)?;
    notes_at(alloc, Some(plain), resource.as_ref(), issues, positions)
}

/// The notes on issues of the resource that bytes are, which stands so with a profile. Where a fault is may be known; else it is looked
/// for. The one refusal is want of memory.
pub(crate) fn notes_of(
    alloc: Global,
    question: Question<'_, '_>,
    bytes: &[u8],
    standing: Standing,
    issues: &[Json<'static>],
    fault_at: Option<Position>,
) -> Result<Vec<Note>, NoMemory>
    ensures { IfOk result (λ notes. length (map note_seen notes.items) ≡ length issues.now) }
{
    let Some(plain) = question.plain else {
        let positions = positions_in(alloc, question.schema, bytes, standing, issues, fault_at)?;
        return notes_at(alloc, None, None, issues, &positions);
    };
    if are_good(issues) {
        return notes_at(alloc, None, None, issues, &[]);
    }
    let positions = positions_in(alloc, question.schema, bytes, standing, issues, fault_at)?;
    notes_in_words(alloc, plain, bytes, standing, issues, &positions)
}
