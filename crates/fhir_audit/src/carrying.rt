//! The unread rules that the elements of a definition carry.

ghost use Rattle.std.specs.Prelude.{◌≡◌, ◌∷◌, ◌++◌, [], ℕ, List, None, map, codes, string_bytes, option_map, if◌then◌else◌, IfOk, OnOk};
ghost use Rattle.std.specs.Str.{bytes_eq};
ghost use Rattle.fhir_json.specs.Tree.{Text};
ghost use Rattle.fhir_facets.specs.Unread.{unread_text};
ghost use Rattle.fhir_facets.specs.Views.{unread_seen};
ghost use Rattle.fhir_findings.specs.Carrying.{text_of, all_carriers};
ghost use Rattle.fhir_findings.specs.Once.{told_once};
ghost use Rattle.fhir_findings.specs.Views.{carriers_seen, told_seen, all_told_seen};
ghost use Rattle.fhir_audit.specs.Kept.{kept_under, AreGrouped};
ghost use Rattle.fhir_audit.specs.Unread.{is_given, left_of, texts_told};

use fhir_facets::Unread;
use fhir_findings::{Carried, Carrier, Selection, Told, carriers, told_once};
use fhir_json::NoMemory;
use fhir_package::Survey;
use fhir_schema::Schema;
use fhir_vouching::{Progress, Spelled, Vouching};
use std::alloc::{AllocError, Global};
use std::cmp::Ordering;
use std::collections::BTreeMap;

/// What each definition carries, under its url.
pub(crate) type Carriers<'s> = BTreeMap<&'s str, Vec<Carrier<'s>>>;

fn put<'s>(alloc: Global, groups: &mut Carriers<'s>, carrier: &Carrier<'s>) -> Result<(), NoMemory>
    ensures { OnOk result ((url : Text) → kept_under url groups.new
        ≡ (if bytes_eq url carrier.now.url.now then kept_under url groups.old ++ carrier.now ∷ [] else kept_under url groups.old)) }
{
    groups
        .entry(carrier.url)?
        .or_insert(Vec::new(alloc))
        .push(*carrier)?;
    Ok(())
}

// Carriers under the urls of their definitions, each group in order.
fn grouped<'s>(alloc: Global, carriers: &[Carrier<'s>]) -> Result<Carriers<'s>, NoMemory>
    ensures { IfOk result (λ groups. AreGrouped (carriers_seen carriers.now) groups) }
{
    let mut groups = BTreeMap::new(alloc);
    for carrier in carriers {
        put(alloc, &mut groups, carrier)?;
    }
    Ok(groups)
}

/// What each definition of a survey's package carries that isn't judged.
pub(crate) fn all_carried<'s>(
    alloc: Global,
    survey: &'s Survey<'_>,
    schema: &'s Schema,
) -> Result<Carriers<'s>, NoMemory>
    ensures { IfOk result (λ groups. AreGrouped (all_carriers None schema.now survey.now) groups) }
{
    let all = Selection::all();
    let carriers = carriers(alloc, survey, schema, &all)?;
    grouped(alloc, &carriers)
}

// ---- their texts

// A text that is looked up.
#[derive(Clone, Copy)]
struct Sought<'t> {
    text: &'t str,
}

impl Spelled for Sought<'_> {
    ghost spelled = { λ sought. sought.text.now };

    fn cmp_text(&self, text: &str) -> Ordering {
        Progress::of(text).then(self.text).order()
    }
}

// The text behind the word for unread rules.
fn behind_word(text: &str) -> &str
    requires { (rest : List ℕ) × (text.now ≡ codes "unread " ++ rest) }
    ensures { text.now ≡ codes "unread " ++ result.now }
{
    &text[7..]
}

// The text of an unread rule, as a user gives it.
fn rule_text(alloc: Global, rule: Unread<'_>) -> Result<String, NoMemory>
    ensures { IfOk result (λ t. string_bytes t ≡ unread_text (unread_seen rule.entry)) }
{
    let text = Carried::Rule(rule).to_text(alloc)?;
    Ok(String::from_str(alloc, behind_word(text.as_str()))?)
}

// Whether a user vouches for a text.
fn is_given(given: Option<&Vouching>, text: &str) -> bool
    ensures { result ≡ is_given (option_map (λ texts. texts.now) given.entry) text.now }
{
    match given {
        Some(given) => given.contains(&Sought { text }),
        None => false,
    }
}

fn push_unless(is_given: bool, text: String, into: &mut Vec<String>) -> Result<(), AllocError>
    ensures { OnOk result (map string_bytes into.new.items
        ≡ map string_bytes into.old.items ++ (if is_given then [] else string_bytes text ∷ [])) }
{
    if !is_given {
        into.push(text)?;
    }
    Ok(())
}

// Puts in the text of a rule, unless a user vouches for it.
fn push_rule(
    alloc: Global,
    given: Option<&Vouching>,
    rule: Unread<'_>,
    into: &mut Vec<String>,
) -> Result<(), NoMemory>
    ensures { OnOk result (map string_bytes into.new.items ≡ map string_bytes into.old.items
        ++ left_of (option_map (λ texts. texts.now) given.entry) (unread_text (unread_seen rule.entry) ∷ [])) }
{
    let text = rule_text(alloc, rule)?;
    let is_given = is_given(given, text.as_str());
    Ok(push_unless(is_given, text, into)?)
}

fn push_text(
    alloc: Global,
    given: Option<&Vouching>,
    one: &Told<'_>,
    into: &mut Vec<String>,
) -> Result<(), NoMemory>
    ensures { OnOk result (map string_bytes into.new.items ≡ map string_bytes into.old.items
        ++ left_of (option_map (λ texts. texts.now) given.entry) (texts_told (told_seen one.now ∷ []))) }
{
    match one.first.carried {
        Carried::Rule(rule) => push_rule(alloc, given, rule, into),
        Carried::Base(_) => Ok(()),
    }
}

fn texts_of(
    alloc: Global,
    given: Option<&Vouching>,
    told: &[Told<'_>],
) -> Result<Vec<String>, NoMemory>
    ensures { IfOk result (λ texts. map string_bytes texts.items
        ≡ left_of (option_map (λ t. t.now) given.entry) (texts_told (all_told_seen told.now))) }
{
    let mut texts: Vec<String> = Vec::new(alloc);
    for one in told {
        push_text(alloc, given, one, &mut texts)?;
    }
    Ok(texts)
}

// What is carried under a url, each text once.
fn told_of<'s>(alloc: Global, groups: &Carriers<'s>, url: &str) -> Result<Vec<Told<'s>>, NoMemory>
    ensures { IfOk result (λ told. all_told_seen told.items ≡ told_once text_of (carriers_seen (kept_under url.now groups.now))) }
{
    match groups.get(url) {
        Some(group) => told_once(alloc, group),
        None => told_once(alloc, &[]),
    }
}

/// The texts of the unread rules that the elements of the definition at a url carry, each once, but for those that a user vouches for.
pub(crate) fn unread_of(
    alloc: Global,
    groups: &Carriers<'_>,
    given: Option<&Vouching>,
    url: &str,
) -> Result<Vec<String>, NoMemory>
    ensures { IfOk result (λ texts. map string_bytes texts.items ≡ left_of (option_map (λ t. t.now) given.entry)
        (texts_told (told_once text_of (carriers_seen (kept_under url.now groups.now))))) }
{
    let told = told_of(alloc, groups, url)?;
    texts_of(alloc, given, &told)
}
