//! What is said of a url, in lines of text.

ghost use Rattle.std.specs.Prelude.{◌≡◌, ◌∷◌, ◌++◌, [], IfOk, OnOk, true, map, codes, option_map, string_bytes};
ghost use Rattle.fhir_json.specs.Tree.{Text};
ghost use Rattle.fhir_json.specs.Views.{text_seen};
ghost use Rattle.fhir_compare.specs.Views.{way_seen, ways_seen, verdict_seen};
ghost use Rattle.fhir_compare_lines.specs.Words.{change_word};
ghost use Rattle.fhir_compare_lines.specs.Telling.{under, named, resource_lines, why_lines, lines_if, AreWayLines, AreWaysLines, AreUnusableIf, AreUnusable, IsToldText};
ghost use Rattle.fhir_compare_lines.specs.Views.{direction_seen, why_seen};

use crate::failing::{Direction, Why, is_refuted, way_words, why_of};
use crate::sources::{Side, Sources};
use crate::unusable::unusable_line;
use fhir_compare::{Change, Compared, Verdict, Way, Ways};
use fhir_json::NoMemory;
use fhir_lines::{push_texts, reason_text};
use std::alloc::{AllocError, Global};

/// A change in a few words.
pub(crate) fn change_word(change: Change) -> &'static str
    ensures { result.now ≡ change_word change }
{
    match change {
        Change::Same => "same",
        Change::Narrows => "narrows",
        Change::Widens => "widens",
        Change::Neither => "neither is shown",
    }
}

// A line that belongs to the one above it.
fn under(alloc: Global, text: &str) -> Result<String, AllocError>
    ensures { IfOk result (λ line. string_bytes line ≡ under text.now) }
{
    format!(in alloc; "  {text}")
}

fn named(alloc: Global, url: &str, words: &str) -> Result<String, AllocError>
    ensures { IfOk result (λ line. string_bytes line ≡ url.now ++ codes ": " ++ words.now) }
{
    format!(in alloc; "{url}: {words}")
}

fn one_line(alloc: Global, url: &str, words: &str) -> Result<Vec<String>, NoMemory>
    ensures { IfOk result (λ ls. map string_bytes ls.items ≡ named url.now words.now ∷ []) }
{
    let mut lines: Vec<String> = Vec::new(alloc);
    lines.push(named(alloc, url, words)?)?;
    Ok(lines)
}

// ---- ways

fn way_line(alloc: Global, way: &str, text: &str) -> Result<String, AllocError>
    ensures { IfOk result (λ line. string_bytes line ≡ under (way.now ++ codes ": " ++ text.now)) }
{
    format!(in alloc; "  {way}: {text}")
}

fn failing_text(alloc: Global, pair: &str, rule: &str) -> Result<String, AllocError>
    ensures { IfOk result (λ text. string_bytes text ≡ pair.now ++ codes ": " ++ rule.now) }
{
    format!(in alloc; "{pair}: {rule}")
}

fn push_resource(
    alloc: Global,
    resource: Option<&str>,
    into: &mut Vec<String>,
) -> Result<(), AllocError>
    ensures { OnOk result (map string_bytes into.new.items ≡ map string_bytes into.old.items ++ resource_lines (text_seen resource.entry)) }
{
    match resource {
        Some(resource) => Ok(into.push(format!(in alloc; "  counterexample: {resource}")?)?),
        None => Ok(()),
    }
}

fn why_lines(alloc: Global, direction: Direction, why: &Why) -> Result<Vec<String>, AllocError>
    ensures { IfOk result (λ ls. map string_bytes ls.items ≡ why_lines (direction_seen direction) (why_seen why.now)) }
{
    let way = way_words(direction, is_refuted(why));
    let mut lines: Vec<String> = Vec::new(alloc);
    match why {
        Why::Says(text) => lines.push(way_line(alloc, way, text.as_str())?)?,
        Why::Fails {
            pair,
            rule,
            words,
            resource,
        } => {
            let text = failing_text(alloc, pair.as_str(), rule.as_str())?;
            lines.push(way_line(alloc, way, text.as_str())?)?;
            lines.push(under(alloc, words.as_str())?)?;
            let resource = resource.as_ref().map(|resource| resource.as_str());
            push_resource(alloc, resource, &mut lines)?;
        }
    }
    Ok(lines)
}

fn lines_if(
    alloc: Global,
    direction: Direction,
    why: Option<Why>,
) -> Result<Vec<String>, AllocError>
    ensures { IfOk result (λ ls. map string_bytes ls.items ≡ lines_if (direction_seen direction) (option_map why_seen why)) }
{
    match why {
        Some(why) => why_lines(alloc, direction, &why),
        None => Ok(Vec::new(alloc)),
    }
}

fn way_lines(
    alloc: Global,
    sources: Sources<'_, '_, '_>,
    url: &str,
    direction: Direction,
    way: &Way<'_>,
    lost: Option<&str>,
) -> Result<Vec<String>, NoMemory>
    ensures { IfOk result (λ ls. AreWayLines sources.entry.old.survey.now.definitions sources.entry.new.survey.now.definitions url.now (direction_seen direction) (text_seen lost.entry) (way_seen way.now) (map string_bytes ls.items)) }
{
    let why = why_of(alloc, sources, url, way, lost)?;
    let lines = lines_if(alloc, direction, why)?;
    Ok(lines)
}

// The line on both, with lines behind it.
fn with_head(
    alloc: Global,
    head: String,
    narrowing: Vec<String>,
    widening: Vec<String>,
) -> Result<Vec<String>, AllocError>
    ensures { IfOk result (λ ls. map string_bytes ls.items
        ≡ string_bytes head ∷ map string_bytes narrowing.items ++ map string_bytes widening.items) }
{
    let mut lines: Vec<String> = Vec::new(alloc);
    lines.push(head)?;
    push_texts(narrowing, &mut lines)?;
    push_texts(widening, &mut lines)?;
    Ok(lines)
}

fn ways_lines(
    alloc: Global,
    sources: Sources<'_, '_, '_>,
    url: &str,
    ways: &Ways<'_>,
) -> Result<Vec<String>, NoMemory>
    ensures { IfOk result (λ ls. AreWaysLines sources.entry.old.survey.now.definitions sources.entry.new.survey.now.definitions url.now (ways_seen ways.now) (map string_bytes ls.items)) }
{
    let head = named(alloc, url, change_word(ways.change()))?;
    let (new, old) = (&ways.new_in_old, &ways.old_in_new);
    let narrowing = way_lines(alloc, sources, url, Direction::NewInOld, new, ways.lost)?;
    let widening = way_lines(alloc, sources, url, Direction::OldInNew, old, ways.lost)?;
    let lines = with_head(alloc, head, narrowing, widening)?;
    Ok(lines)
}

// ---- profiles that can't be used

fn with_reason(alloc: Global, words: &str, why: &str) -> Result<String, AllocError>
    ensures { IfOk result (λ text. string_bytes text ≡ words.now ++ why.now) }
{
    format!(in alloc; "{words}{why}")
}

fn unusable_one<'s, 'f: 's>(
    alloc: Global,
    side: Side<'s, 'f>,
    url: &'s str,
    words: &str,
) -> Result<Vec<String>, NoMemory>
    ensures { IfOk result (λ ls. AreUnusableIf true url.now words.now (map string_bytes ls.items)) }
{
    let found = unusable_line(alloc, side, url)?;
    let why = reason_text(alloc, found.as_ref())?;
    let text = with_reason(alloc, words, why.as_str())?;
    let lines = one_line(alloc, url, text.as_str())?;
    Ok(lines)
}

fn unusable_if<'s, 'f: 's>(
    alloc: Global,
    side: Side<'s, 'f>,
    url: &'s str,
    is_unusable: bool,
    words: &str,
) -> Result<Vec<String>, NoMemory>
    ensures { IfOk result (λ ls. AreUnusableIf is_unusable url.now words.now (map string_bytes ls.items)) }
{
    if is_unusable {
        unusable_one(alloc, side, url, words)
    } else {
        Ok(Vec::new(alloc))
    }
}

fn unusable_lines<'s>(
    alloc: Global,
    sources: Sources<'s, '_, '_>,
    url: &'s str,
    in_old: bool,
    in_new: bool,
) -> Result<Vec<String>, NoMemory>
    ensures { IfOk result (λ ls. AreUnusable in_old in_new url.now (map string_bytes ls.items)) }
{
    let mut lines = unusable_if(alloc, sources.old, url, in_old, "can't be used in OLD")?;
    let others = unusable_if(alloc, sources.new, url, in_new, "can't be used in NEW")?;
    push_texts(others, &mut lines)?;
    Ok(lines)
}

// ---- a url

/// The lines on a url.
pub(crate) fn text_lines<'s>(
    alloc: Global,
    sources: Sources<'s, '_, '_>,
    compared: &Compared<'s>,
) -> Result<Vec<String>, NoMemory>
    ensures { IfOk result (λ ls. IsToldText sources.entry.old.survey.now.definitions sources.entry.new.survey.now.definitions compared.now.url.now (verdict_seen compared.now.verdict) (map string_bytes ls.items)) }
{
    let url = compared.url;
    match &compared.verdict {
        Verdict::Both(ways) => ways_lines(alloc, sources, url, ways),
        Verdict::CannotBeUsed { in_old, in_new } => {
            unusable_lines(alloc, sources, url, *in_old, *in_new)
        }
        Verdict::OnlyInOld => one_line(alloc, url, "only in OLD"),
        Verdict::OnlyInNew => one_line(alloc, url, "only in NEW"),
    }
}
