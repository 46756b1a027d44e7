//! The unread rules of a package, each text once.

ghost use Rattle.std.specs.Prelude.{◌≡◌, ◌∷◌, ◌++◌, [], List, ℕ, map, filter, codes, string_bytes, IfOk, OnOk};
ghost use Rattle.fhir_facets.specs.Unread.{unread_text};
ghost use Rattle.fhir_facets.specs.Views.{unread_seen};
ghost use Rattle.fhir_findings.specs.Carrying.{text_of, all_carriers};
ghost use Rattle.fhir_findings.specs.Once.{told_once};
ghost use Rattle.fhir_findings.specs.Views.{told_seen, all_told_seen};
ghost use Rattle.fhir_unread.specs.Unread.{is_rule, given_text, unread_texts};

use fhir_facets::Unread;
use fhir_findings::{Carried, Selection, Told, carriers, told_once};
use fhir_json::NoMemory;
use fhir_package::Survey;
use fhir_schema::Schema;
use std::alloc::Global;

// The text behind the word for unread rules.
fn behind_word(text: &str) -> &str
    requires { (rest : List ℕ) × (text.now ≡ codes "unread " ++ rest) }
    ensures { text.now ≡ codes "unread " ++ result.now }
{
    &text[7..]
}

/// The text of an unread rule, as a user gives it.
pub(crate) fn rule_text(alloc: Global, rule: Unread<'_>) -> Result<String, NoMemory>
    ensures { IfOk result (λ t. string_bytes t ≡ unread_text (unread_seen rule.entry)) }
{
    let text = Carried::Rule(rule).to_text(alloc)?;
    Ok(String::from_str(alloc, behind_word(text.as_str()))?)
}

/// What the selected definitions carry that isn't judged, each text once.
pub(crate) fn told<'s>(
    alloc: Global,
    survey: &'s Survey<'_>,
    schema: &'s Schema,
    selection: &Selection,
) -> Result<Vec<Told<'s>>, NoMemory>
    ensures { IfOk result (λ told. all_told_seen told.items ≡ told_once text_of (all_carriers selection.now schema.now survey.now)) }
{
    let carriers = carriers(alloc, survey, schema, selection)?;
    told_once(alloc, &carriers)
}

fn push_text(alloc: Global, one: &Told<'_>, into: &mut Vec<String>) -> Result<(), NoMemory>
    ensures { OnOk result (map string_bytes into.new.items ≡ map string_bytes into.old.items
        ++ map (λ t. given_text t.first) (filter (λ t. is_rule t.first) (told_seen one.now ∷ []))) }
{
    match one.first.carried {
        Carried::Rule(rule) => {
            into.push(rule_text(alloc, rule)?)?;
            Ok(())
        }
        Carried::Base(_) => Ok(()),
    }
}

fn texts_of(alloc: Global, told: &[Told<'_>]) -> Result<Vec<String>, NoMemory>
    ensures { IfOk result (λ texts. map string_bytes texts.items
        ≡ map (λ t. given_text t.first) (filter (λ t. is_rule t.first) (all_told_seen told.now))) }
{
    let mut texts: Vec<String> = Vec::new(alloc);
    for one in told {
        push_text(alloc, one, &mut texts)?;
    }
    Ok(texts)
}

/// The texts of the unread rules that the selected definitions carry, each once.
pub(crate) fn unread_texts(
    alloc: Global,
    survey: &Survey<'_>,
    schema: &Schema,
    selection: &Selection,
) -> Result<Vec<String>, NoMemory>
    ensures { IfOk result (λ texts. map string_bytes texts.items ≡ unread_texts selection.now schema.now survey.now) }
{
    let told = told(alloc, survey, schema, selection)?;
    texts_of(alloc, &told)
}
