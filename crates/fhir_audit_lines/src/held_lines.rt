//! What is told of certificates that were made before.

ghost use Rattle.std.specs.Prelude.{◌≡◌, ◌∷◌, ◌++◌, [], map, codes, string_bytes, Some, IfOk};
ghost use Rattle.std.specs.List.{list_all};
ghost use Rattle.fhir_json.specs.Tree.{Text, string};
ghost use Rattle.fhir_json.specs.Views.{property_of};
ghost use Rattle.fhir_certificate.specs.Faults.{cert_number};
ghost use Rattle.fhir_cert_check.specs.Views.{rule_name};
ghost use Rattle.fhir_audit.specs.Standing.{standing_seen, is_holding};
ghost use Rattle.fhir_audit.specs.Views.{all_audited};
ghost use Rattle.fhir_lines.specs.Each.{AreOnEach};
ghost use Rattle.fhir_audit_lines.specs.Telling.{under, failing_line};
ghost use Rattle.fhir_audit_lines.specs.Held.{held_seen, held_line, failing_members, IsHeldText, IsHeldTree, AreOnFile, AreOnCertificates};

use crate::texts::{failing_line, words_line};
use crate::trees::put_failing;
use crate::without::push_without;
use fhir_audit::{Audited, Held, Standing};
use fhir_cert_check::Rule;
use fhir_certificate::{CertFault, Pair};
use fhir_json::NoMemory;
use fhir_lines::{Members, object_text, push_texts, put_all, put_text};
use fhir_schema::Schema;
use fhir_words::Format;
use std::alloc::{AllocError, Global};

/// A file of a certificate, with how that stands.
#[derive(Drop)]
pub struct HeldFile<'s> {
    /// The file's name.
    pub name: String,
    /// How it stands.
    pub held: Held<'s>,
}

fn is_holding(file: &HeldFile<'_>) -> bool
    ensures { result ≡ is_holding (standing_seen file.now.held.standing) }
{
    match &file.held.standing {
        Standing::Holds => true,
        Standing::Fails(_, _) | Standing::IsFaulty(_) | Standing::IsGone(_) => false,
    }
}

/// Whether each certificate holds.
pub fn are_holding(files: &[HeldFile<'_>]) -> bool
    ensures { result ≡ list_all (λ file. is_holding (standing_seen file.held.standing)) files.now }
{
    files.iter().all(|file| is_holding(file))
}

// ---- a certificate

fn alone(alloc: Global, line: String) -> Result<Vec<String>, AllocError>
    ensures { IfOk result (λ ls. map string_bytes ls.items ≡ string_bytes line ∷ []) }
{
    let mut lines: Vec<String> = Vec::new(alloc);
    lines.push(line)?;
    Ok(lines)
}

fn no_longer(alloc: Global, name: &str) -> Result<String, AllocError>
    ensures { IfOk result (λ text. string_bytes text ≡ name.now ++ codes ": no longer holds") }
{
    format!(in alloc; "{name}: no longer holds")
}

fn failed_line(
    alloc: Global,
    schema: &Schema,
    name: &str,
    pair: Pair,
    rule: Rule<'_>,
) -> Result<String, AllocError>
    ensures { IfOk result (λ line. string_bytes line ≡ failing_line schema.now (name.now ++ codes ": no longer holds") pair (rule_name rule.entry)) }
{
    let front = no_longer(alloc, name)?;
    failing_line(alloc, schema, front.as_str(), pair, rule)
}

// That a pair fails a rule, and what both elements say.
fn failing_text(
    alloc: Global,
    schema: &Schema,
    name: &str,
    pair: Pair,
    rule: Rule<'_>,
) -> Result<Vec<String>, NoMemory>
    ensures { IfOk result (λ ls. (words : Text) × (map string_bytes ls.items
        ≡ failing_line schema.now (name.now ++ codes ": no longer holds") pair (rule_name rule.entry) ∷ under [] words ∷ [])) }
{
    let mut lines: Vec<String> = Vec::new(alloc);
    let line = failed_line(alloc, schema, name, pair, rule)?;
    let words = words_line(alloc, schema, pair, rule)?;
    lines.push(line)?;
    lines.push(words)?;
    Ok(lines)
}

fn faulty_line(alloc: Global, name: &str, fault: CertFault) -> Result<String, AllocError>
    ensures { IfOk result (λ line. string_bytes line ≡ name.now ++ codes ": is no certificate here: " ++ cert_number fault) }
{
    let number = fault.number();
    format!(in alloc; "{name}: is no certificate here: {number}")
}

fn gone_line(alloc: Global, name: &str, url: &str) -> Result<String, AllocError>
    ensures { IfOk result (λ line. string_bytes line ≡ name.now ++ codes ": its profile is gone: " ++ url.now) }
{
    format!(in alloc; "{name}: its profile is gone: {url}")
}

fn held_text(alloc: Global, schema: &Schema, file: &HeldFile<'_>) -> Result<Vec<String>, NoMemory>
    ensures { IfOk result (λ ls. IsHeldText schema.now (string_bytes file.now.name) (standing_seen file.now.held.standing) (map string_bytes ls.items)) }
{
    let name = file.name.as_str();
    match &file.held.standing {
        Standing::Holds => Ok(Vec::new(alloc)),
        Standing::Fails(pair, rule) => failing_text(alloc, schema, name, *pair, *rule),
        Standing::IsFaulty(fault) => Ok(alone(alloc, faulty_line(alloc, name, *fault)?)?),
        Standing::IsGone(url) => Ok(alone(alloc, gone_line(alloc, name, url.as_str())?)?),
    }
}

// The line that spells an object: the file's name, what is said of it, and more.
fn held_line<'m>(
    alloc: Global,
    name: &'m str,
    verdict: &'static str,
    more: Members<'m>,
) -> Result<Vec<String>, NoMemory>
    ensures { IfOk result (λ ls. map string_bytes ls.items ≡ held_line name.now verdict.now (map property_of more.entry.items) ∷ []) }
{
    let mut members: Members<'m> = Vec::new(alloc);
    put_text("certificate", name, &mut members)?;
    put_text("verdict", verdict, &mut members)?;
    put_all(more, &mut members)?;
    let line = object_text(alloc, members)?;
    Ok(alone(alloc, line)?)
}

fn failing_tree(
    alloc: Global,
    schema: &Schema,
    name: &str,
    pair: Pair,
    rule: Rule<'_>,
) -> Result<Vec<String>, NoMemory>
    ensures { IfOk result (λ ls. (words : Text) × (map string_bytes ls.items
        ≡ held_line name.now (codes "no longer holds") (failing_members schema.now pair (rule_name rule.entry) words) ∷ [])) }
{
    let mut more: Members<'_> = Vec::new(alloc);
    put_failing(alloc, schema, pair, rule, &mut more)?;
    let lines = held_line(alloc, name, "no longer holds", more)?;
    Ok(lines)
}

fn faulty_tree(alloc: Global, name: &str, fault: CertFault) -> Result<Vec<String>, NoMemory>
    ensures { IfOk result (λ ls. map string_bytes ls.items
        ≡ held_line name.now (codes "is no certificate here") ((codes "number", string (cert_number fault)) ∷ []) ∷ []) }
{
    let mut more: Members<'_> = Vec::new(alloc);
    put_text("number", fault.number(), &mut more)?;
    held_line(alloc, name, "is no certificate here", more)
}

fn gone_tree(alloc: Global, name: &str, url: &str) -> Result<Vec<String>, NoMemory>
    ensures { IfOk result (λ ls. map string_bytes ls.items
        ≡ held_line name.now (codes "its profile is gone") ((codes "url", string url.now) ∷ []) ∷ []) }
{
    let mut more: Members<'_> = Vec::new(alloc);
    put_text("url", url, &mut more)?;
    held_line(alloc, name, "its profile is gone", more)
}

fn held_tree(alloc: Global, schema: &Schema, file: &HeldFile<'_>) -> Result<Vec<String>, NoMemory>
    ensures { IfOk result (λ ls. IsHeldTree schema.now (string_bytes file.now.name) (standing_seen file.now.held.standing) (map string_bytes ls.items)) }
{
    let name = file.name.as_str();
    match &file.held.standing {
        Standing::Holds => Ok(Vec::new(alloc)),
        Standing::Fails(pair, rule) => failing_tree(alloc, schema, name, *pair, *rule),
        Standing::IsFaulty(fault) => faulty_tree(alloc, name, *fault),
        Standing::IsGone(url) => gone_tree(alloc, name, url.as_str()),
    }
}

fn lines_on(
    alloc: Global,
    format: Format,
    schema: &Schema,
    file: &HeldFile<'_>,
) -> Result<Vec<String>, NoMemory>
    ensures { IfOk result (λ ls. AreOnFile format schema.now (held_seen file.now) (map string_bytes ls.items)) }
{
    match format {
        Format::Text => held_text(alloc, schema, file),
        Format::Json => held_tree(alloc, schema, file),
    }
}

fn lines_on_files(
    alloc: Global,
    format: Format,
    schema: &Schema,
    files: &[HeldFile<'_>],
) -> Result<Vec<String>, NoMemory>
    ensures { IfOk result (λ ls. AreOnEach (AreOnFile format schema.now) (map held_seen files.now) (map string_bytes ls.items)) }
{
    let mut lines: Vec<String> = Vec::new(alloc);
    for file in files {
        let own = lines_on(alloc, format, schema, file)?;
        push_texts(own, &mut lines)?;
    }
    Ok(lines)
}

/// What is told of certificates, and which profiles have none. The one refusal is want of memory.
pub(crate) fn held_lines<'h>(
    alloc: Global,
    format: Format,
    schema: &Schema,
    audited: &[Audited<'h>],
    files: &'h [HeldFile<'_>],
) -> Result<Vec<String>, NoMemory>
    ensures { IfOk result (λ ls. AreOnCertificates format schema.now (all_audited audited.now) (Some (map held_seen files.now)) (map string_bytes ls.items)) }
{
    let mut lines = lines_on_files(alloc, format, schema, files)?;
    push_without(alloc, format, audited, files, &mut lines)?;
    Ok(lines)
}
