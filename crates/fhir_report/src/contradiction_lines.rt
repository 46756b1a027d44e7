//! From what can never hold to lines.

ghost use Rattle.std.specs.Prelude.{◌≡◌, ◌++◌, ◌∷◌, [], map, OnOk, IfOk};
ghost use Rattle.fhir_contradictions.specs.Regular.{are_regular};
ghost use Rattle.fhir_lines.specs.Lines.{line_seen, lines_seen};
ghost use Rattle.fhir_report.specs.ContradictionLines.{contradiction_line, lines_at, lines_from, contradiction_lines};

use fhir_contradictions::{Contradiction, are_regular, contradictions};
use fhir_findings::Selection;
use fhir_json::NoMemory;
use fhir_lines::Line;
use fhir_package::{Kind, Survey};
use fhir_schema::{NodeRef, Schema};
use std::alloc::{AllocError, Global};

// The line on an element, whose definition stands in the file.
fn contradiction_line<'s>(
    alloc: Global,
    schema: &'s Schema,
    file: &'s str,
    node: NodeRef,
    contradiction: Contradiction,
) -> Result<Line<'s>, AllocError>
    ensures { IfOk result (λ l. line_seen l ≡ contradiction_line schema.now file.now (node, contradiction)) }
{
    let (url, id) = schema.name(node);
    let text = String::from_str(alloc, contradiction.text())?;
    let mut line = Line::of_file(file, None, text);
    line.url = Some(url);
    line.id = Some(id);
    Ok(line)
}

fn push_line<'s>(
    alloc: Global,
    schema: &'s Schema,
    file: &'s str,
    found: (NodeRef, Contradiction),
    lines: &mut Vec<Line<'s>>,
) -> Result<(), AllocError>
    ensures { OnOk result (lines_seen lines.new.items ≡ lines_seen lines.old.items ++ contradiction_line schema.now file.now found ∷ []) }
{
    let (node, contradiction) = found;
    lines.push(contradiction_line(alloc, schema, file, node, contradiction)?)?;
    Ok(())
}

fn push_lines<'s>(
    alloc: Global,
    schema: &'s Schema,
    file: &'s str,
    all: &[(NodeRef, Contradiction)],
    lines: &mut Vec<Line<'s>>,
) -> Result<(), AllocError>
    ensures { OnOk result (lines_seen lines.new.items ≡ lines_seen lines.old.items ++ map (contradiction_line schema.now file.now) all.now) }
{
    for found in all {
        push_line(alloc, schema, file, *found, lines)?;
    }
    Ok(())
}

// Of the definition of a url at a place, if it is reported on.
fn push_lines_at<'s>(
    alloc: Global,
    survey: &'s Survey<'_>,
    schema: &'s Schema,
    regular: bool,
    selection: &Selection,
    place: usize,
    url: &str,
    lines: &mut Vec<Line<'s>>,
) -> Result<(), NoMemory>
    requires { regular ≡ are_regular schema.now }
    ensures { OnOk result (lines_seen lines.new.items ≡ lines_seen lines.old.items ++ lines_at selection.now schema.now survey.now place url.now) }
{
    if !selection.has(survey.package(), Kind::StructureDefinition, url) {
        return Ok(());
    }
    let file = survey.source(Kind::StructureDefinition, place);
    let found = contradictions(alloc, schema, regular, place)?;
    push_lines(alloc, schema, file, &found, lines)?;
    Ok(())
}

/// The lines on what elements of the definitions that are reported on ask for that can never hold. The one refusal is want of memory.
pub(crate) fn contradiction_lines<'s>(
    alloc: Global,
    survey: &'s Survey<'_>,
    schema: &'s Schema,
    selection: &Selection,
) -> Result<Vec<Line<'s>>, NoMemory>
    ensures { IfOk result (λ ls. lines_seen ls.items ≡ contradiction_lines selection.now schema.now survey.now) }
{
    let regular = are_regular(schema);
    let mut lines: Vec<Line<'s>> = Vec::new(alloc);
    for (place, url) in survey
        .package()
        .names(Kind::StructureDefinition)
        .enumerate()
    {
        push_lines_at(
            alloc, survey, schema, regular, selection, place, url, &mut lines,
        )?;
    }
    Ok(lines)
}
