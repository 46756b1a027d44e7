//! Lists of texts.

ghost use Rattle.std.specs.Prelude.{◌≡◌, IfOk, OnOk, is_some, map, string_bytes, not};
ghost use Rattle.std.specs.List.{list_any};
ghost use Rattle.fhir_names.specs.Places.{Finds, place_of};
ghost use Rattle.fhir_inheritance.specs.Lists.{is_among, with_text, with_others};

use fhir_json::NoMemory;
use fhir_names::Index;
use std::alloc::Global;

/// The same texts in memory of their own.
pub(crate) fn all_owned(alloc: Global, texts: &[String]) -> Result<Vec<String>, NoMemory>
    ensures { IfOk result (λ v. map string_bytes v.items ≡ map string_bytes texts.now) }
{
    let mut all = Vec::new(alloc);
    for text in texts {
        let text = String::from_str(alloc, text.as_str())?;
        all.push(text)?;
    }
    Ok(all)
}

// The places of texts.
fn index_of(alloc: Global, texts: &[String]) -> Result<Index, NoMemory>
    ensures { IfOk result (λ x. Finds x (map string_bytes texts.now)) }
{
    let mut places = Index::new(alloc);
    for (place, text) in texts.iter().enumerate() {
        places.add(alloc, text.as_str(), place)?;
    }
    Ok(places)
}

/// The texts with those of others behind them that aren't there yet, each once.
pub(crate) fn with_others(
    alloc: Global,
    old: Vec<String>,
    others: &[String],
) -> Result<Vec<String>, NoMemory>
    ensures { IfOk result (λ v. map string_bytes v.items ≡ with_others (map string_bytes old.items) (map string_bytes others.now)) }
{
    if others.is_empty() {
        return Ok(old);
    }
    let places = index_of(alloc, &old)?;
    added(alloc, places, old, others)
}

fn added(
    alloc: Global,
    places: Index,
    old: Vec<String>,
    others: &[String],
) -> Result<Vec<String>, NoMemory>
    requires { Finds places (map string_bytes old.items) }
    ensures { IfOk result (λ v. map string_bytes v.items ≡ with_others (map string_bytes old.items) (map string_bytes others.now)) }
{
    let mut places = places;
    let mut all = old;
    for text in others {
        add(alloc, &mut places, &mut all, text.as_str())?;
    }
    Ok(all)
}

fn add(alloc: Global, places: &mut Index, all: &mut Vec<String>, text: &str) -> Result<(), NoMemory>
    requires { Finds places.old (map string_bytes all.old.items) }
    ensures finds { OnOk result (Finds places.new (map string_bytes all.new.items)) }
    ensures added { OnOk result (map string_bytes all.new.items ≡ with_text (map string_bytes all.old.items) text.now) }
{
    if places.get(text).is_some() {
        return Ok(());
    }
    places.add(alloc, text, all.len())?;
    let text = String::from_str(alloc, text)?;
    all.push(text)?;
    Ok(())
}

/// Whether one of some texts isn't among others.
pub(crate) fn has_other(alloc: Global, texts: &[String], among: &[String]) -> Result<bool, NoMemory>
    ensures { IfOk result (λ other. other ≡ list_any (λ text. not (is_among (map string_bytes among.now) text)) (map string_bytes texts.now)) }
{
    if texts.is_empty() {
        return Ok(false);
    }
    let places = index_of(alloc, among)?;
    Ok(any_without_place(&places, texts))
}

fn any_without_place(places: &Index, texts: &[String]) -> bool
    ensures { result ≡ list_any (λ text. not (is_some (place_of places.now text))) (map string_bytes texts.now) }
{
    for text in texts {
        if places.get(text.as_str()).is_none() {
            return true;
        }
    }
    false
}
