//! Why a profile can't be used.

use crate::sources::Side;
use fhir_findings::{Finding, Unusable};
use fhir_json::NoMemory;
use fhir_lines::Line;
use fhir_package::Kind;
use fhir_report::finding_line;
use std::alloc::Global;

// What is found of the definition at a url, where that can't be used.
fn finding_of<'s, 'f: 's>(side: Side<'s, 'f>, url: &'s str) -> Option<Finding<'s, 'f>> {
    let reason = side.schema.unusable(url)?;
    let place = side.survey.package().place(Kind::StructureDefinition, url)?;
    let file = side.survey.source(Kind::StructureDefinition, place);
    Some(Finding::Unusable(Unusable { file, url, reason }))
}

/// The line of `check` on the definition at a url, where that can't be used. The one refusal is want of memory.
pub(crate) fn unusable_line<'s, 'f: 's>(
    alloc: Global,
    side: Side<'s, 'f>,
    url: &'s str,
) -> Result<Option<Line<'s>>, NoMemory> {
    match finding_of(side, url) {
        Some(finding) => Ok(Some(finding_line(
            alloc,
            side.survey,
            side.schema,
            side.lacking,
            &finding,
        )?)),
        None => Ok(None),
    }
}
