//! From members that R4 doesn't have to lines.

ghost use Rattle.std.specs.Prelude.{◌≡◌, ◌++◌, ◌∷◌, [], map, OnOk, IfOk, string_bytes};
ghost use Rattle.std.specs.List.{slice_get};
ghost use Rattle.std.specs.Option.{option_map_or};
ghost use Rattle.fhir_json.specs.Views.{tree_of};
ghost use Rattle.fhir_lines.specs.Lines.{line_seen, lines_seen};
ghost use Rattle.fhir_package.specs.Definitions.{of_kind};
ghost use Rattle.fhir_report.specs.UnrecognizedLines.{unrecognized_text, unrecognized_line, lines_at, lines_of_kind, unrecognized_lines};
ghost use Rattle.fhir_unrecognized.specs.Views.{member_seen, members_seen};

use fhir_findings::Selection;
use fhir_json::{Json, NoMemory};
use fhir_lines::Line;
use fhir_package::{Kind, Survey};
use fhir_unrecognized::{Unrecognized, unrecognized_in};
use std::alloc::{AllocError, Global};

fn unrecognized_text(alloc: Global, member: Unrecognized<'_>) -> Result<String, AllocError>
    ensures { IfOk result (λ text. string_bytes text ≡ unrecognized_text (member_seen member.entry)) }
{
    format!(in alloc;
        "`{}` is no member of {} in R4, and isn't read",
        member.name,
        member.object.text()
    )
}

// The line on a member of the definition of a url, which stands in the file.
fn unrecognized_line<'s>(
    alloc: Global,
    file: &'s str,
    url: &'s str,
    member: Unrecognized<'s>,
) -> Result<Line<'s>, AllocError>
    ensures { IfOk result (λ l. line_seen l ≡ unrecognized_line file.now url.now (member_seen member.entry)) }
{
    let text = unrecognized_text(alloc, member)?;
    let mut line = Line::of_file(file, None, text);
    line.url = Some(url);
    line.id = member.id;
    Ok(line)
}

fn push_line<'s>(
    alloc: Global,
    file: &'s str,
    url: &'s str,
    member: Unrecognized<'s>,
    lines: &mut Vec<Line<'s>>,
) -> Result<(), AllocError>
    ensures { OnOk result (lines_seen lines.new.items ≡ lines_seen lines.old.items ++ unrecognized_line file.now url.now (member_seen member.entry) ∷ []) }
{
    lines.push(unrecognized_line(alloc, file, url, member)?)?;
    Ok(())
}

fn push_lines<'s>(
    alloc: Global,
    file: &'s str,
    url: &'s str,
    members: &[Unrecognized<'s>],
    lines: &mut Vec<Line<'s>>,
) -> Result<(), AllocError>
    ensures { OnOk result (lines_seen lines.new.items
        ≡ lines_seen lines.old.items ++ map (unrecognized_line file.now url.now) (members_seen members.now)) }
{
    for member in members {
        push_line(alloc, file, url, *member, lines)?;
    }
    Ok(())
}

// Of the definition of a kind, which stands at a place, if it is reported on.
fn push_lines_in<'s>(
    alloc: Global,
    survey: &'s Survey<'_>,
    selection: &Selection,
    kind: Kind,
    place: usize,
    definition: (&'s str, &'s Json<'_>),
    lines: &mut Vec<Line<'s>>,
) -> Result<(), NoMemory>
    ensures { OnOk result (lines_seen lines.new.items
        ≡ lines_seen lines.old.items ++ lines_at selection.now survey.now kind place (definition.entry.0.now, tree_of definition.entry.1.now)) }
{
    let (url, tree) = definition;
    if !selection.has(survey.package(), kind, url) {
        return Ok(());
    }
    let members = unrecognized_in(alloc, tree)?;
    push_lines(alloc, survey.source(kind, place), url, &members, lines)?;
    Ok(())
}

// Of the definition of a kind at a place, if there is one.
fn push_lines_at<'s>(
    alloc: Global,
    survey: &'s Survey<'_>,
    selection: &Selection,
    kind: Kind,
    place: usize,
    lines: &mut Vec<Line<'s>>,
) -> Result<(), NoMemory>
    ensures { OnOk result (lines_seen lines.new.items ≡ lines_seen lines.old.items
        ++ option_map_or (lines_at selection.now survey.now kind place) (slice_get (of_kind kind survey.now.definitions) place) []) }
{
    match survey.package().at(kind, place) {
        Some(definition) => push_lines_in(alloc, survey, selection, kind, place, definition, lines),
        None => Ok(()),
    }
}

fn push_lines_of<'s>(
    alloc: Global,
    survey: &'s Survey<'_>,
    selection: &Selection,
    kind: Kind,
    lines: &mut Vec<Line<'s>>,
) -> Result<(), NoMemory>
    ensures { OnOk result (lines_seen lines.new.items ≡ lines_seen lines.old.items ++ lines_of_kind selection.now survey.now kind) }
{
    for place in 0..survey.package().len(kind) {
        push_lines_at(alloc, survey, selection, kind, place, lines)?;
    }
    Ok(())
}

/// The lines on members of the definitions that are reported on which R4 doesn't have, of each kind in turn. The one refusal is want of memory.
pub(crate) fn unrecognized_lines<'s>(
    alloc: Global,
    survey: &'s Survey<'_>,
    selection: &Selection,
) -> Result<Vec<Line<'s>>, NoMemory>
    ensures { IfOk result (λ ls. lines_seen ls.items ≡ unrecognized_lines selection.now survey.now) }
{
    let mut lines: Vec<Line<'s>> = Vec::new(alloc);
    push_lines_of(
        alloc,
        survey,
        selection,
        Kind::StructureDefinition,
        &mut lines,
    )?;
    push_lines_of(alloc, survey, selection, Kind::ValueSet, &mut lines)?;
    push_lines_of(alloc, survey, selection, Kind::CodeSystem, &mut lines)?;
    Ok(lines)
}
