//! Whether the targets of a type entry are as narrow as those of a base.

ghost use Rattle.std.specs.Prelude.{◌≡◌, map, string_bytes};
ghost use Rattle.std.specs.List.{list_all, list_any};
ghost use Rattle.fhir_json.specs.Memory.{Gives};
ghost use Rattle.fhir_facets.specs.Targets.{has_targets, target_narrower, targets_narrower};

use crate::base::BaseTargets;
use fhir_elements::TypeEntry;
use fhir_facets::{Facet, Targets};
use fhir_json::NoMemory;
use fhir_schema::Schema;
use std::alloc::Global;

// So many pairs of targets are compared one by one, which takes no memory.
const FEW: usize = 16;

fn are_few(owns: &[String], bases: &[String]) -> bool {
    owns.len().saturating_mul(bases.len()) <= FEW
}

fn has_targets(entry: &TypeEntry) -> bool
    ensures { result ≡ has_targets entry.now }
{
    entry.code() == "Reference" && !entry.targets().is_empty()
}

fn few_narrower(schema: &Schema, entry: &TypeEntry, base: &TypeEntry) -> bool
    ensures { result ≡ targets_narrower schema.now entry.now base.now }
{
    let own = Targets { schema, entry };
    own.narrower(&Targets {
        schema,
        entry: base,
    })
}

fn are_targets_among(
    alloc: Global,
    schema: &Schema,
    owns: &[String],
    bases: &[String],
) -> Result<bool, NoMemory>
    ensures { Gives (λ b. b) result (list_all (λ t. list_any (target_narrower schema.now t) (map string_bytes bases.now))
        (map string_bytes owns.now)) }
{
    let mut base = BaseTargets::of(alloc, schema, bases)?;
    for own in owns {
        if !base.has(schema, own.as_str())? {
            return Ok(false);
        }
    }
    Ok(true)
}

fn many_narrower(
    alloc: Global,
    schema: &Schema,
    entry: &TypeEntry,
    base: &TypeEntry,
) -> Result<bool, NoMemory>
    ensures { Gives (λ b. b) result (targets_narrower schema.now entry.now base.now) }
{
    if !has_targets(base) {
        return Ok(true);
    }
    if !has_targets(entry) {
        return Ok(false);
    }
    are_targets_among(alloc, schema, entry.targets(), base.targets())
}

/// Whether the targets of a type entry are as narrow as those of another, as `Facet::narrower` of `Targets` says it. It may
/// take memory: beyond a few, the base's targets are put into an order, so that the time is within n log n of both lists and
/// of the chains of bases of their types, whatever their order. The one refusal is want of memory.
pub fn targets_narrower(
    alloc: Global,
    schema: &Schema,
    entry: &TypeEntry,
    base: &TypeEntry,
) -> Result<bool, NoMemory>
    ensures { Gives (λ b. b) result (targets_narrower schema.now entry.now base.now) }
{
    if are_few(entry.targets(), base.targets()) {
        Ok(few_narrower(schema, entry, base))
    } else {
        many_narrower(alloc, schema, entry, base)
    }
}
