//! Why a way isn't shown.

ghost use Rattle.std.specs.Prelude.{◌≡◌, ◌++◌, IfOk, codes, string_bytes, option_map};
ghost use Rattle.std.specs.Str.Lossy.{utf8_lossy};
ghost use Rattle.fhir_json.specs.Views.{text_seen};
ghost use Rattle.fhir_compare.specs.Views.{shown_seen, way_seen};
ghost use Rattle.fhir_compare_lines.specs.Words.{way_words};
ghost use Rattle.fhir_compare_lines.specs.Telling.{is_named, lost_text, blamed_text, IsWhy, IsWhyIf, IsFailingWhy, IsUnusableWhy, is_refuted};
ghost use Rattle.fhir_compare_lines.specs.Views.{direction_seen, why_seen};

use crate::sources::{Side, Sources};
use crate::unmarking::unmarked;
use fhir_cert_check::{Rule, pair_text, rule_text};
use fhir_certificate::Pair;
use fhir_compare::{Shown, Way};
use fhir_json::NoMemory;
use fhir_package::Kind;
use fhir_report::rule_words;
use fhir_schema::Schema;
use std::alloc::{AllocError, Global};

/// Why a way isn't shown, in texts without the mark.
#[derive(Drop)]
pub(crate) enum Why {
    /// A pair fails a rule; the words say what both elements say; and a resource shows it, if one was found.
    Fails {
        /// The pair.
        pair: String,
        /// The rule.
        rule: String,
        /// What both elements say.
        words: String,
        /// The resource.
        resource: Option<String>,
    },
    /// For a reason of another kind, in words.
    Says(String),
}

/// One of the two ways.
#[derive(Clone, Copy)]
pub(crate) enum Direction {
    /// NEW's narrows OLD's.
    NewInOld,
    /// OLD's narrows NEW's.
    OldInNew,
}

/// What is said of a way: that the one doesn't narrow the other, where a resource shows it, and else that it isn't shown to.
pub(crate) fn way_words(direction: Direction, is_refuted: bool) -> &'static str
    ensures { result.now ≡ way_words (direction_seen direction) is_refuted }
{
    match (direction, is_refuted) {
        (Direction::NewInOld, true) => "NEW's does not narrow OLD's",
        (Direction::NewInOld, false) => "NEW's isn't shown to narrow OLD's",
        (Direction::OldInNew, true) => "OLD's does not narrow NEW's",
        (Direction::OldInNew, false) => "OLD's isn't shown to narrow NEW's",
    }
}

/// Whether a resource shows that the one doesn't narrow the other.
pub(crate) fn is_refuted(why: &Why) -> bool
    ensures { result ≡ is_refuted (why_seen why.now) }
{
    match why {
        Why::Fails { resource, .. } => resource.is_some(),
        Why::Says(_) => false,
    }
}

fn resource_text(alloc: Global, resource: Option<&Vec<u8>>) -> Result<Option<String>, AllocError>
    ensures { IfOk result (λ r. option_map string_bytes r ≡ option_map (λ bytes. utf8_lossy bytes.now.items) resource.entry) }
{
    match resource {
        Some(bytes) => Ok(Some(String::from_utf8_lossy(alloc, bytes)?)),
        None => Ok(None),
    }
}

fn why_fails(
    alloc: Global,
    sources: Sources<'_, '_, '_>,
    pair: Pair,
    rule: Rule<'_>,
    resource: Option<&Vec<u8>>,
) -> Result<Why, NoMemory>
    ensures { IfOk result (λ why. IsFailingWhy (option_map (λ bytes. utf8_lossy bytes.now.items) resource.entry) (why_seen why)) }
{
    let schema = sources.new.schema;
    let pair_words = pair_text(alloc, schema, pair)?;
    let words = rule_words(alloc, schema, pair, rule)?;
    let rule = rule_text(alloc, rule)?;
    let resource = resource_text(alloc, resource)?;
    Ok(Why::Fails {
        pair: unmarked(alloc, sources.mark, pair_words.as_str())?,
        rule: unmarked(alloc, sources.mark, rule.as_str())?,
        words: unmarked(alloc, sources.mark, words.as_str())?,
        resource,
    })
}

// The number of the reason why the definition at a url can't be used.
fn number_at(schema: &Schema, url: &str) -> &'static str {
    match schema.unusable(url) {
        Some(reason) => reason.number(),
        None => "",
    }
}

fn unusable_text(alloc: Global, number: &str) -> Result<String, AllocError>
    ensures { IfOk result (λ text. string_bytes text ≡ codes "OLD's can't be used beside NEW's definitions: " ++ number.now) }
{
    format!(in alloc; "OLD's can't be used beside NEW's definitions: {number}")
}

// That OLD's profile can't be used beside NEW's definitions.
fn why_unusable(alloc: Global, sources: Sources<'_, '_, '_>, url: &str) -> Result<Why, NoMemory>
    ensures { IfOk result (λ why. IsUnusableWhy (why_seen why)) }
{
    let own = format!(in alloc; "{}{url}", sources.mark)?;
    let number = number_at(sources.new.schema, own.as_str());
    let text = unusable_text(alloc, number)?;
    Ok(Why::Says(text))
}

// Whether a package has a definition that a canonical names.
fn is_named(side: Side<'_, '_>, canonical: &str) -> bool
    ensures { result ≡ is_named side.entry.survey.now.definitions canonical.now }
{
    let package = side.survey.package();
    package.get(Kind::StructureDefinition, canonical).is_some()
}

// What is said of a canonical that doesn't mean the same in both. One of an element's content names no definition as it stands.
fn lost_text(
    alloc: Global,
    sources: Sources<'_, '_, '_>,
    canonical: &str,
) -> Result<String, AllocError>
    ensures { IfOk result (λ text. string_bytes text
        ≡ lost_text sources.entry.old.survey.now.definitions sources.entry.new.survey.now.definitions canonical.now) }
{
    match (
        is_named(sources.old, canonical),
        is_named(sources.new, canonical),
    ) {
        (true, true) => {
            format!(in alloc;
                "it names {canonical}, which in one of the two is no profile, or of another type, or can't be used"
            )
        }
        (false, false) => {
            format!(in alloc;
                "it has the content of {canonical}, which is of no type that both have"
            )
        }
        _ => format!(in alloc; "it names {canonical}, which one of the two alone has"),
    }
}

// Where the way is derived of the profiles themselves.
fn blamed_text(
    alloc: Global,
    sources: Sources<'_, '_, '_>,
    url: &str,
    blamed: &str,
    lost: Option<&str>,
) -> Result<String, AllocError>
    ensures { IfOk result (λ text. string_bytes text
        ≡ blamed_text sources.entry.old.survey.now.definitions sources.entry.new.survey.now.definitions url.now blamed.now (text_seen lost.entry)) }
{
    match lost {
        Some(canonical) if blamed == url => lost_text(alloc, sources, canonical),
        _ => format!(in alloc; "it reaches {blamed}"),
    }
}

fn why_not(
    alloc: Global,
    sources: Sources<'_, '_, '_>,
    url: &str,
    blamed: &str,
    lost: Option<&str>,
    shown: &Shown<'_>,
) -> Result<Why, NoMemory>
    ensures { IfOk result (λ why. IsWhy sources.entry.old.survey.now.definitions sources.entry.new.survey.now.definitions url.now blamed.now (text_seen lost.entry) (shown_seen shown.now) (why_seen why)) }
{
    match shown {
        Shown::Fails {
            pair,
            rule,
            resource,
        } => why_fails(alloc, sources, *pair, *rule, resource.as_ref()),
        Shown::CannotBeUsed => why_unusable(alloc, sources, url),
        Shown::Narrows => Ok(Why::Says(blamed_text(alloc, sources, url, blamed, lost)?)),
    }
}

/// Why a way isn't shown of the profiles of a url, if it isn't.
pub(crate) fn why_of(
    alloc: Global,
    sources: Sources<'_, '_, '_>,
    url: &str,
    way: &Way<'_>,
    lost: Option<&str>,
) -> Result<Option<Why>, NoMemory>
    ensures { IfOk result (λ r. IsWhyIf sources.entry.old.survey.now.definitions sources.entry.new.survey.now.definitions url.now (way_seen way.now).blamed (text_seen lost.entry) (way_seen way.now).shown (option_map why_seen r)) }
{
    match way.blamed {
        Some(blamed) => Ok(Some(why_not(alloc, sources, url, blamed, lost, &way.shown)?)),
        None => Ok(None),
    }
}
