//! Chains of bases that come by the definition of a type.

ghost use Rattle.std.specs.Prelude.{◌≡◌, Bool, OnOk, Some, if◌then◌else◌, nat_eq, ℕ};
ghost use Rattle.fhir_json.specs.Tree.{Text};
ghost use Rattle.fhir_json.specs.Views.{text_seen};
ghost use Rattle.fhir_targets.specs.Chains.{code_at, AreReaching, IsReaching, IsAnswer};

use fhir_json::NoMemory;
use fhir_schema::Schema;
use std::collections::BTreeMap;

fn code_at<'c>(places: &BTreeMap<usize, &'c str>, place: usize) -> Option<&'c str>
    ensures { text_seen result ≡ code_at places.now place }
{
    places.get(&place).copied()
}

/// Gives a place a code.
pub(crate) fn put_code<'c>(
    places: &mut BTreeMap<usize, &'c str>,
    place: usize,
    code: &'c str,
) -> Result<(), NoMemory>
    ensures { OnOk result ((p : ℕ) → code_at places.new p ≡ (if nat_eq place p then Some code.entry.now else code_at places.old p)) }
{
    places.insert(place, code)?;
    Ok(())
}

/// The code of the first place that has one on the chain of bases from another.
pub(crate) fn code_above<'c>(
    schema: &Schema,
    places: &BTreeMap<usize, &'c str>,
    start: usize,
) -> Option<&'c str>
    ensures { (codes : Text → Bool) → AreReaching schema.now.definitions codes (code_at places.now)
        → IsAnswer schema.now.definitions codes start (text_seen result) }
{
    let mut place = start;
    for _step in 0..schema.definitions().len() {
        let code = code_at(places, place);
        if code.is_some() {
            return code;
        }
        let Some(base) = schema.base_of_place(place) else {
            return None;
        };
        place = base;
    }
    None
}

/// Gives the code to each place on the chain of bases from another, as far as one has a code. So no place is passed twice.
pub(crate) fn put_chain<'c>(
    schema: &Schema,
    places: &mut BTreeMap<usize, &'c str>,
    start: usize,
    code: &'c str,
) -> Result<(), NoMemory>
    ensures { OnOk result ((codes : Text → Bool) → AreReaching schema.now.definitions codes (code_at places.old)
        → IsReaching schema.now.definitions codes start code.entry.now
        → AreReaching schema.now.definitions codes (code_at places.new)) }
{
    let mut place = start;
    for _step in 0..schema.definitions().len() {
        if code_at(places, place).is_some() {
            return Ok(());
        }
        put_code(places, place, code)?;
        let Some(base) = schema.base_of_place(place) else {
            return Ok(());
        };
        place = base;
    }
    Ok(())
}
