//! What isn't judged, each of it once.

ghost use Rattle.std.specs.Prelude.{◌≡◌, ◌+◌, ◌<◌, ◌^◌, ℕ, length, get_or, map, slice_set, IfOk, OnOk};
ghost use Rattle.fhir_names.specs.Places.{Finds};
ghost use Rattle.fhir_findings.specs.declared.once.Told.{Told as ToldOf};
ghost use Rattle.fhir_findings.specs.Carrying.{text_of};
ghost use Rattle.fhir_findings.specs.Once.{told_once};
ghost use Rattle.fhir_findings.specs.Telling.{with_one, texts_told};
ghost use Rattle.fhir_findings.specs.Views.{carrier_seen, carriers_seen, all_told_seen};

use crate::carrier::{Carrier, text_of};
use fhir_json::NoMemory;
use fhir_names::Index;
use std::alloc::Global;

/// What isn't judged, by the first that carries it.
#[derive(Clone, Copy)]
pub struct Told<'s> {
    /// The first that carries it.
    pub first: Carrier<'s>,
    /// How many carry it.
    pub count: usize,
}

// One more carries what is told at a place.
fn count_more(told: &mut Vec<Told<'_>>, place: usize)
    requires within { place < length told.old.items }
    requires room { (d : ToldOf) → (get_or told.old.items place d).count + 1 < 2 ^ 64 }
    ensures { (d : ToldOf) → told.new.items
        ≡ slice_set told.old.items place (record (get_or told.old.items place d) { count = (get_or told.old.items place d).count + 1 }) }
{
    let one = &mut told[place];
    one.count += 1;
}

// Tells one carrier more. The index has the texts that are told.
fn tell<'s>(
    alloc: Global,
    places: &mut Index,
    told: &mut Vec<Told<'s>>,
    carrier: &Carrier<'s>,
) -> Result<(), NoMemory>
    requires found { Finds places.old (texts_told text_of (all_told_seen told.old.items)) }
    requires room { (place : ℕ) (d : ToldOf) → place < length told.old.items → (get_or told.old.items place d).count + 1 < 2 ^ 64 }
    ensures found { OnOk result (Finds places.new (texts_told text_of (all_told_seen told.new.items))) }
    ensures told { OnOk result (all_told_seen told.new.items ≡ with_one text_of (all_told_seen told.old.items) (carrier_seen carrier.now)) }
{
    let text = text_of(alloc, &carrier.carried)?;
    match places.get(text.as_str()) {
        Some(place) => {
            count_more(told, place);
            Ok(())
        }
        None => {
            places.add(alloc, text.as_str(), told.len())?;
            told.push(Told {
                first: *carrier,
                count: 1,
            })?;
            Ok(())
        }
    }
}

/// Each text that carriers carry once, in order: the first that carries it, and how many do. The one refusal is want of memory.
pub fn told_once<'s>(alloc: Global, carriers: &[Carrier<'s>]) -> Result<Vec<Told<'s>>, NoMemory>
    ensures { IfOk result (λ told. all_told_seen told.items ≡ told_once text_of (carriers_seen carriers.now)) }
{
    let mut places = Index::new(alloc);
    let mut told: Vec<Told<'s>> = Vec::new(alloc);
    for carrier in carriers {
        tell(alloc, &mut places, &mut told, carrier)?;
    }
    Ok(told)
}
