//! What is said of a profile, as a JSON object.

ghost use Rattle.std.specs.Prelude.{◌≡◌, ◌++◌, List, map, string_bytes, IfOk, OnOk};
ghost use Rattle.fhir_json.specs.Tree.{Text, Property};
ghost use Rattle.fhir_json.specs.Compact.{compact};
ghost use Rattle.fhir_json.specs.Views.{property_of};
ghost use Rattle.fhir_cert_check.specs.Views.{rule_name};
ghost use Rattle.fhir_audit.specs.Views.{audited_seen};
ghost use Rattle.fhir_audit_lines.specs.Trees.{first_members, IsToldTree, counts_tree};
ghost use Rattle.fhir_audit_lines.specs.Held.{failing_members};

use crate::texts::{is_of_resource, pair_count, url_on};
use fhir_audit::{Audited, Verdict};
use fhir_audit_words::{Counts, Sources, unusable_line, verdict_word};
use fhir_cert_check::{Rule, pair_text, rule_text};
use fhir_certificate::Pair;
use fhir_derive_check::Side;
use fhir_json::{Json, JsonFault, NoMemory, read};
use fhir_lines::{
    Line, Members, object_text, put_all, put_count, put_owned, put_text, put_text_if, put_value,
};
use fhir_report::rule_words;
use fhir_schema::Schema;
use std::alloc::{AllocError, Global};
use std::borrow::CowStr;

/// Puts in that a pair fails a rule, with what both elements say.
pub(crate) fn put_failing(
    alloc: Global,
    schema: &Schema,
    pair: Pair,
    rule: Rule<'_>,
    into: &mut Members<'_>,
) -> Result<(), NoMemory>
    ensures { OnOk result ((words : Text) × (map property_of into.new.items
        ≡ map property_of into.old.items ++ failing_members schema.now pair (rule_name rule.entry) words)) }
{
    put_owned("pair", pair_text(alloc, schema, pair)?, into)?;
    put_owned("rule", rule_text(alloc, rule)?, into)?;
    let words = rule_words(alloc, schema, pair, rule)?;
    put_owned("text", words, into)?;
    Ok(())
}

// The resource that bytes are, or where they are none a text.
fn resource_in(alloc: Global, bytes: &[u8]) -> Result<Json<'_>, NoMemory> {
    match read(alloc, bytes) {
        Ok(resource) => Ok(resource),
        Err(JsonFault::NoMemory) => Err(NoMemory),
        Err(_) => {
            let text = String::from_utf8_lossy(alloc, bytes)?;
            Ok(Json::Str(CowStr::Owned(text)))
        }
    }
}

fn put_resource<'m>(
    alloc: Global,
    bytes: &'m [u8],
    into: &mut Members<'m>,
) -> Result<(), NoMemory> {
    Ok(put_value("counterexample", resource_in(alloc, bytes)?, into)?)
}

fn put_reason<'m, 's: 'm>(
    line: Option<Line<'s>>,
    into: &mut Members<'m>,
) -> Result<(), AllocError> {
    let Some(line) = line else {
        return Ok(());
    };
    put_text_if("number", line.number.map(|number| number.text()), into)?;
    put_text_if("id", line.id, into)?;
    put_owned("text", line.text, into)
}

// Which of the two can't be used, where that is the base, and why.
fn put_unusable<'m, 's: 'm, 'f: 's>(
    alloc: Global,
    sources: Sources<'s, 'f>,
    audited: &Audited<'s>,
    side: Side,
    into: &mut Members<'m>,
) -> Result<(), NoMemory> {
    let url = url_on(side, audited);
    if let Side::Base = side {
        put_text("unusable", url, into)?;
    }
    Ok(put_reason(unusable_line(alloc, sources, url)?, into)?)
}

fn put_not_looked_for(
    sources: Sources<'_, '_>,
    url: &str,
    into: &mut Members<'_>,
) -> Result<(), AllocError> {
    if is_of_resource(sources.schema, url) {
        Ok(())
    } else {
        put_value("of-resources", Json::Bool(false), into)
    }
}

fn put_verdict<'m, 's: 'm, 'f: 's>(
    alloc: Global,
    sources: Sources<'s, 'f>,
    audited: &'m Audited<'s>,
    into: &mut Members<'m>,
) -> Result<(), NoMemory> {
    match &audited.verdict {
        Verdict::Narrows(certificate) => {
            Ok(put_count(alloc, "pairs", pair_count(certificate), into)?)
        }
        Verdict::DoesNotNarrow {
            pair,
            rule,
            resource,
        } => {
            put_failing(alloc, sources.schema, *pair, *rule, into)?;
            put_resource(alloc, resource, into)
        }
        Verdict::IsNotShown { pair, rule } => {
            put_failing(alloc, sources.schema, *pair, *rule, into)?;
            Ok(put_not_looked_for(sources, audited.url, into)?)
        }
        Verdict::CannotBeUsed(side) => put_unusable(alloc, sources, audited, *side, into),
        Verdict::HasNoBase => Ok(put_text_if("canonical", audited.canonical, into)?),
    }
}

fn texts_in<'m>(alloc: Global, texts: &'m [String]) -> Result<Json<'m>, AllocError> {
    let mut items = Vec::with_capacity(alloc, texts.len())?;
    for text in texts {
        items.push(Json::Str(CowStr::Borrowed(text.as_str())))?;
    }
    Ok(Json::Arr(items))
}

fn put_unread<'m>(
    alloc: Global,
    texts: &'m [String],
    into: &mut Members<'m>,
) -> Result<(), AllocError> {
    if texts.is_empty() {
        Ok(())
    } else {
        put_value("unread", texts_in(alloc, texts)?, into)
    }
}

// The url, the verdict, and the url of the base.
fn put_first<'m, 's: 'm>(audited: &'m Audited<'s>, into: &mut Members<'m>) -> Result<(), AllocError>
    ensures { OnOk result (map property_of into.new.items ≡ map property_of into.old.items ++ first_members (audited_seen audited.now)) }
{
    put_text("url", audited.url, into)?;
    put_text("verdict", verdict_word(&audited.verdict), into)?;
    put_text_if("base", audited.base, into)
}

// What stands behind these.
fn further_members<'m, 's: 'm, 'f: 's>(
    alloc: Global,
    sources: Sources<'s, 'f>,
    audited: &'m Audited<'s>,
) -> Result<Members<'m>, NoMemory> {
    let mut members: Members<'m> = Vec::new(alloc);
    put_verdict(alloc, sources, audited, &mut members)?;
    put_unread(alloc, &audited.unread, &mut members)?;
    Ok(members)
}

// The members of the object on a profile.
fn object_members<'m, 's: 'm, 'f: 's>(
    alloc: Global,
    sources: Sources<'s, 'f>,
    audited: &'m Audited<'s>,
) -> Result<Members<'m>, NoMemory>
    ensures { IfOk result (λ members. (more : List Property) × (map property_of members.items ≡ first_members (audited_seen audited.now) ++ more)) }
{
    let mut members: Members<'m> = Vec::new(alloc);
    let further = further_members(alloc, sources, audited)?;
    put_first(audited, &mut members)?;
    put_all(further, &mut members)?;
    Ok(members)
}

/// The line that spells the object on a profile.
pub(crate) fn tree_lines<'s, 'f: 's>(
    alloc: Global,
    sources: Sources<'s, 'f>,
    audited: &Audited<'s>,
) -> Result<Vec<String>, NoMemory>
    ensures { IfOk result (λ ls. IsToldTree (audited_seen audited.now) (map string_bytes ls.items)) }
{
    let mut lines: Vec<String> = Vec::new(alloc);
    let members = object_members(alloc, sources, audited)?;
    let text = object_text(alloc, members)?;
    lines.push(text)?;
    Ok(lines)
}

/// The text of the object with the counts.
pub(crate) fn counts_object(alloc: Global, counts: Counts) -> Result<String, NoMemory>
    ensures { IfOk result (λ text. string_bytes text ≡ compact (counts_tree counts)) }
{
    let mut members = Vec::new(alloc);
    put_count(alloc, "profiles", counts.profiles, &mut members)?;
    put_count(alloc, "narrow", counts.narrow, &mut members)?;
    put_count(alloc, "do-not", counts.do_not, &mut members)?;
    put_count(alloc, "not-shown", counts.not_shown, &mut members)?;
    put_count(alloc, "unusable", counts.unusable, &mut members)?;
    put_count(alloc, "without-base", counts.without_base, &mut members)?;
    object_text(alloc, members)
}
