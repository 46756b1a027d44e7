//! Why a profile can't be used.

ghost use Rattle.std.specs.Prelude.{◌≡◌, IfOk};
ghost use Rattle.std.specs.Option.{option_map};
ghost use Rattle.fhir_lines.specs.Lines.{line_seen};
ghost use Rattle.fhir_report.specs.Report.{head, unusable_head};
ghost use Rattle.fhir_audit_words.specs.Unusable.{unusable_at};

use crate::sources::Sources;
use fhir_findings::{Finding, Unusable};
use fhir_json::NoMemory;
use fhir_lines::Line;
use fhir_package::Kind;
use fhir_report::finding_line;
use std::alloc::Global;

// The definition at a url, where it can't be used.
fn unusable_at<'s>(sources: Sources<'s, '_>, url: &'s str) -> Option<Unusable<'s>>
    ensures { option_map (λ u. (u.file.now, u.url.now, u.reason)) result ≡ unusable_at sources.entry.schema.now sources.entry.survey.now url.now }
{
    let reason = sources.schema.unusable(url)?;
    let place = sources
        .survey
        .package()
        .place(Kind::StructureDefinition, url)?;
    let file = sources.survey.source(Kind::StructureDefinition, place);
    Some(Unusable { file, url, reason })
}

/// The line of `check` on the definition at a url, where that can't be used. The one refusal is want of memory.
pub fn unusable_line<'s, 'f: 's>(
    alloc: Global,
    sources: Sources<'s, 'f>,
    url: &'s str,
) -> Result<Option<Line<'s>>, NoMemory>
    ensures { IfOk result (λ line. option_map (λ l. head (line_seen l)) line
        ≡ option_map (unusable_head sources.entry.lacking.now) (unusable_at sources.entry.schema.now sources.entry.survey.now url.now)) }
{
    match unusable_at(sources, url) {
        Some(unusable) => Ok(Some(finding_line(
            alloc,
            sources.survey,
            sources.schema,
            sources.lacking,
            &Finding::Unusable(unusable),
        )?)),
        None => Ok(None),
    }
}
