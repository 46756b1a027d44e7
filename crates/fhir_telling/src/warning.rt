//! Warnings of profiles that a resource claims to conform to, and that are passed over.

ghost use Rattle.std.specs.Prelude.{◌≡◌, ◌++◌, length, map, codes, All, IfOk, OnOk};
ghost use Rattle.fhir_json.specs.Views.{tree_of, trees_of};
ghost use Rattle.fhir_replies.specs.Outcomes.{HasSeverity};
ghost use Rattle.fhir_telling.specs.Judgements.{issues_of};
ghost use Rattle.fhir_telling.specs.Telling.{IsWarned};

use fhir_json::{Json, NoMemory};
use fhir_replies::{OutcomeIssue, outcome_of};
use fhir_schema::Schema;
use std::alloc::{AllocError, Global};

// The code (FHIR R4, OperationOutcome, issue.code) and the text of what is wrong with a profile at a url.
fn fault_at(
    alloc: Global,
    schema: &Schema,
    url: &str,
) -> Result<(&'static str, String), AllocError> {
    match schema.unusable(url) {
        Some(reason) => Ok(("not-supported", format!(in alloc; "V2 {url} {reason}")?)),
        None => Ok(("not-found", format!(in alloc; "V1 {url}")?)),
    }
}

// The warning that a profile is passed over.
fn warning_of(
    alloc: Global,
    schema: &Schema,
    place: &str,
    url: &str,
) -> Result<Json<'static>, AllocError>
    ensures { IfOk result (λ json. HasSeverity (codes "warning") (tree_of json)) }
{
    let (code, diagnostics) = fault_at(alloc, schema, url)?;
    let issue = OutcomeIssue {
        severity: "warning",
        code,
        diagnostics,
        expression: Some(String::from_str(alloc, place)?),
    };
    issue.into_json(alloc)
}

// The warnings of several, whose place is where the resource claims to conform to them.
fn warnings_of(
    alloc: Global,
    schema: &Schema,
    place: &str,
    urls: &[&str],
) -> Result<Vec<Json<'static>>, AllocError>
    ensures counted { IfOk result (λ all. length (trees_of all.items) ≡ length urls.now) }
    ensures severe { IfOk result (λ all. All (HasSeverity (codes "warning")) (trees_of all.items)) }
{
    let mut warnings: Vec<Json<'static>> = Vec::with_capacity(alloc, urls.len())?;
    for url in urls {
        warnings.push(warning_of(alloc, schema, place, *url)?)?;
    }
    Ok(warnings)
}

fn push_copies(
    alloc: Global,
    issues: &[Json<'static>],
    into: &mut Vec<Json<'static>>,
) -> Result<(), NoMemory>
    ensures { OnOk result (trees_of into.new.items ≡ trees_of into.old.items ++ trees_of issues.now) }
{
    for issue in issues {
        into.push(issue.detach(alloc)?)?;
    }
    Ok(())
}

// The issues of an outcome, and warnings behind them.
fn joined(
    alloc: Global,
    outcome: &Json<'static>,
    warnings: &[Json<'static>],
) -> Result<Json<'static>, NoMemory>
    ensures { IfOk result (λ json. issues_of (tree_of json) ≡ issues_of (tree_of outcome.now) ++ trees_of warnings.now) }
{
    let mut issues: Vec<Json<'static>> = Vec::new(alloc);
    push_copies(alloc, outcome.items_in("issue"), &mut issues)?;
    push_copies(alloc, warnings, &mut issues)?;
    Ok(outcome_of(alloc, issues)?)
}

// The place where a resource claims to conform to profiles.
fn claims_place(alloc: Global, resource: &Json<'_>) -> Result<String, AllocError> {
    let kind = resource.text_in("resourceType").unwrap_or("Resource");
    format!(in alloc; "{kind}.meta.profile")
}

fn warned_of(
    alloc: Global,
    schema: &Schema,
    resource: &Json<'_>,
    outcome: &Json<'static>,
    urls: &[&str],
) -> Result<Json<'static>, NoMemory>
    ensures { IfOk result (λ json. IsWarned (map (λ u. u.now) urls.now) (tree_of outcome.now) (tree_of json)) }
{
    let place = claims_place(alloc, resource)?;
    let warnings = warnings_of(alloc, schema, place.as_str(), urls)?;
    joined(alloc, outcome, &warnings)
}

/// The outcome of a resource, with a warning for each of these profiles, which are passed over. The one refusal is want of memory.
pub(crate) fn warned(
    alloc: Global,
    schema: &Schema,
    resource: &Json<'_>,
    outcome: Json<'static>,
    urls: &[&str],
) -> Result<Json<'static>, NoMemory>
    ensures { IfOk result (λ json. IsWarned (map (λ u. u.now) urls.now) (tree_of outcome.entry) (tree_of json)) }
{
    if urls.is_empty() {
        Ok(outcome)
    } else {
        warned_of(alloc, schema, resource, &outcome, urls)
    }
}
