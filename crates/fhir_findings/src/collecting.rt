//! From a survey and a schema to what was found.

ghost use Rattle.std.specs.Prelude.{◌≡◌, ◌≤◌, [], ◌∷◌, ◌++◌, drop, filter, length, IfOk, OnOk};
ghost use Rattle.fhir_package.specs.declared.kind.Kind.TheVariants.{StructureDefinition};
ghost use Rattle.fhir_package.specs.SurveyView.{fault_seen, faults_seen};
ghost use Rattle.fhir_findings.specs.Finding.{unusable_at, selected_unusable, faults_told, all_told};
ghost use Rattle.fhir_findings.specs.Selecting.{is_selected};

use crate::finding::{Finding, Unusable, fault_file};
use crate::selection::Selection;
use fhir_json::NoMemory;
use fhir_package::{FileFault, Kind, Survey};
use fhir_schema::Schema;
use std::alloc::{AllocError, Global};

fn push_fault<'s, 'f>(
    fault: &'s FileFault<'f>,
    into: &mut Vec<Finding<'s, 'f>>,
) -> Result<(), AllocError>
    ensures faults { OnOk result (faults_told into.new.items ≡ faults_told into.old.items ++ fault_seen fault.now ∷ []) }
    ensures unusable { OnOk result (all_told into.new.items ≡ all_told into.old.items) }
{
    into.push(Finding::File(fault))?;
    Ok(())
}

// The first place from one on of a fault whose file comes behind this one; where none does, how many faults there are.
fn place_behind(faults: &[FileFault<'_>], from: usize, file: &str) -> usize
    requires { from ≤ length faults.now }
    ensures least { from ≤ result }
    ensures most { result ≤ length faults.now }
{
    let mut place = from;
    while place < faults.len() && fault_file(&faults[place]) <= file {
        place += 1;
    }
    place
}

// Puts in faults.
fn push_faults<'s, 'f>(
    faults: &'s [FileFault<'f>],
    into: &mut Vec<Finding<'s, 'f>>,
) -> Result<(), AllocError>
    ensures faults { OnOk result (faults_told into.new.items ≡ faults_told into.old.items ++ faults_seen faults.now) }
    ensures unusable { OnOk result (all_told into.new.items ≡ all_told into.old.items) }
{
    for fault in faults {
        push_fault(fault, into)?;
    }
    Ok(())
}

// Puts in the faults from a place on whose files don't come behind this one, and gives the place behind them.
fn push_before<'s, 'f>(
    faults: &'s [FileFault<'f>],
    from: usize,
    file: &str,
    into: &mut Vec<Finding<'s, 'f>>,
) -> Result<usize, AllocError>
    requires { from ≤ length faults.now }
    ensures within { IfOk result (λ place. place ≤ length faults.now) }
    ensures faults { IfOk result (λ place. faults_told into.new.items ++ drop place (faults_seen faults.now)
        ≡ faults_told into.old.items ++ drop from (faults_seen faults.now)) }
    ensures unusable { IfOk result (λ place. all_told into.new.items ≡ all_told into.old.items) }
{
    let end = place_behind(faults, from, file);
    push_faults(&faults[from..end], into)?;
    Ok(end)
}

// Puts in the definition of a file at a url, if it can't be used.
fn push_unusable<'s, 'f>(
    schema: &Schema,
    file: &'s str,
    url: &'s str,
    into: &mut Vec<Finding<'s, 'f>>,
) -> Result<(), AllocError>
    ensures faults { OnOk result (faults_told into.new.items ≡ faults_told into.old.items) }
    ensures unusable { OnOk result (all_told into.new.items ≡ all_told into.old.items ++ unusable_at schema.now file.now url.now) }
{
    if let Some(reason) = schema.unusable(url) {
        into.push(Finding::Unusable(Unusable { file, url, reason }))?;
    }
    Ok(())
}

// Puts in the definition of a file at a url, if it is selected and can't be used.
fn push_selected<'s, 'f>(
    survey: &Survey<'_>,
    schema: &Schema,
    selection: &Selection,
    file: &'s str,
    url: &'s str,
    into: &mut Vec<Finding<'s, 'f>>,
) -> Result<(), AllocError>
    ensures faults { OnOk result (faults_told into.new.items ≡ faults_told into.old.items) }
    ensures unusable { OnOk result (all_told into.new.items ≡ all_told into.old.items
        ++ filter (λ u. is_selected selection.now survey.now.definitions StructureDefinition u.1) (unusable_at schema.now file.now url.now)) }
{
    if !selection.has(survey.package(), Kind::StructureDefinition, url) {
        return Ok(());
    }
    push_unusable(schema, file, url, into)
}

/// What is wrong with the files of a survey, and its selected definitions that can't be used, by the schema of its package: in the
/// order of the files, and within one the faults first. The one refusal is want of memory.
#[tactic(auto, using(crate::proofs::Listed::kept_is))]
pub fn findings<'s, 'f>(
    alloc: Global,
    survey: &'s Survey<'f>,
    schema: &'s Schema,
    selection: &Selection,
) -> Result<Vec<Finding<'s, 'f>>, NoMemory>
    ensures faults { IfOk result (λ fs. faults_told fs.items ≡ survey.now.faults) }
    ensures unusable { IfOk result (λ fs. all_told fs.items ≡ selected_unusable selection.now schema.now survey.now) }
{
    let faults = survey.faults();
    let mut found = Vec::new(alloc);
    let mut told = 0;
    for (place, url) in survey
        .package()
        .names(Kind::StructureDefinition)
        .enumerate()
    {
        let file = survey.source(Kind::StructureDefinition, place);
        told = push_before(faults, told, file, &mut found)?;
        push_selected(survey, schema, selection, file, url, &mut found)?;
    }
    push_faults(&faults[told..], &mut found)?;
    Ok(found)
}
