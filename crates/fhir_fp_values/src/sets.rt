//! Lists in which each value stands once (FHIRPath N1, sections 5.3 and 6.4). Beyond a few values a table finds those that
//! may be equal, so that the time is within n log n of the values' sizes.

ghost use Rattle.std.specs.Prelude.{◌≡◌, [], List, Ok, if◌then◌else◌, IfOk, OnOk};
ghost use Rattle.fhir_json.specs.Memory.{GivesOr};
ghost use Rattle.fhir_fp_values.specs.declared.value.Value.{Value};
ghost use Rattle.fhir_fp_values.specs.Equality.{is_yes, alike, has};
ghost use Rattle.fhir_fp_values.specs.Faults.{is_no_memory};
ghost use Rattle.fhir_fp_values.specs.Keys.{key_of};
ghost use Rattle.fhir_fp_values.specs.Sets.{add, joined, shared};
ghost use Rattle.fhir_fp_values.specs.Tables.{Holds};
ghost use Rattle.fhir_fp_values.specs.Views.{plain_of, plains_of};

use crate::equality::{alike, has};
use crate::fault::EvalFault;
use crate::keys::key_of;
use crate::table::Table;
use crate::truths::is_yes;
use crate::value::Value;
use fhir_json::NoMemory;
use std::alloc::Global;

const FEW: usize = 16;

// Puts a few values behind those seen, each once.
#[tactic(auto, unfolding(crate::specs::Sets::joined))]
fn join_few<'e, 'a, 'j>(
    alloc: Global,
    seen: &mut Vec<Value<'e, 'a, 'j>>,
    values: &[Value<'e, 'a, 'j>],
) -> Result<(), NoMemory>
    ensures { OnOk result (plains_of seen.new.items
        ≡ joined (plains_of seen.old.items) (plains_of values.now)) }
{
    for value in values {
        if !has(alloc, seen, *value)? {
            seen.push(*value)?;
        }
    }
    Ok(())
}

fn union_of_few<'e, 'a, 'j>(
    alloc: Global,
    left: &[Value<'e, 'a, 'j>],
    right: &[Value<'e, 'a, 'j>],
) -> Result<Vec<Value<'e, 'a, 'j>>, NoMemory>
    ensures { IfOk result (λ v. plains_of v.items
        ≡ joined (joined [] (plains_of left.now)) (plains_of right.now)) }
{
    let mut seen = Vec::new(alloc);
    join_few(alloc, &mut seen, left)?;
    join_few(alloc, &mut seen, right)?;
    Ok(seen)
}

// Puts a value behind those seen, which the table has, unless an equal one is among them.
fn add<'e, 'a, 'j>(
    alloc: Global,
    table: &mut Table<'e, 'a, 'j>,
    seen: &mut Vec<Value<'e, 'a, 'j>>,
    value: Value<'e, 'a, 'j>,
) -> Result<(), NoMemory>
    ensures held { OnOk result (Holds table.old seen.old.items → Holds table.new seen.new.items) }
    ensures added { OnOk result (Holds table.old seen.old.items → plains_of seen.new.items
        ≡ add (plains_of seen.old.items) (plain_of value.entry)) }
{
    if !table.add(alloc, value)? {
        return Ok(());
    }
    seen.push(value)?;
    Ok(())
}

// Puts values behind those seen, which the table has, each once.
#[tactic(auto, unfolding(crate::specs::Sets::joined))]
fn join<'e, 'a, 'j>(
    alloc: Global,
    table: &mut Table<'e, 'a, 'j>,
    seen: &mut Vec<Value<'e, 'a, 'j>>,
    values: &[Value<'e, 'a, 'j>],
) -> Result<(), NoMemory>
    ensures held { OnOk result (Holds table.old seen.old.items → Holds table.new seen.new.items) }
    ensures joined { OnOk result (Holds table.old seen.old.items → plains_of seen.new.items
        ≡ joined (plains_of seen.old.items) (plains_of values.now)) }
{
    for value in values {
        add(alloc, table, seen, *value)?;
    }
    Ok(())
}

fn union_of_many<'e, 'a, 'j>(
    alloc: Global,
    left: &[Value<'e, 'a, 'j>],
    right: &[Value<'e, 'a, 'j>],
) -> Result<Vec<Value<'e, 'a, 'j>>, NoMemory>
    ensures { IfOk result (λ v. plains_of v.items
        ≡ joined (joined [] (plains_of left.now)) (plains_of right.now)) }
{
    let mut table = Table::new(alloc);
    let mut seen = Vec::new(alloc);
    join(alloc, &mut table, &mut seen, left)?;
    join(alloc, &mut table, &mut seen, right)?;
    Ok(seen)
}

/// Both lists joined, each value once, in time near linear in the values' sizes. The one refusal is want of memory.
pub fn union<'e, 'a, 'j>(
    alloc: Global,
    left: &[Value<'e, 'a, 'j>],
    right: &[Value<'e, 'a, 'j>],
) -> Result<Vec<Value<'e, 'a, 'j>>, EvalFault>
    ensures { GivesOr is_no_memory (λ v. plains_of v.items) result
        (Ok (joined (joined [] (plains_of left.now)) (plains_of right.now))) }
{
    if left.len() <= FEW && right.len() <= FEW {
        return Ok(union_of_few(alloc, left, right)?);
    }
    Ok(union_of_many(alloc, left, right)?)
}

#[tactic(auto, unfolding(crate::specs::Sets::shared))]
fn intersection_with_few<'e, 'a, 'j>(
    alloc: Global,
    left: &[Value<'e, 'a, 'j>],
    right: &[Value<'e, 'a, 'j>],
) -> Result<Vec<Value<'e, 'a, 'j>>, NoMemory>
    ensures { IfOk result (λ v. plains_of v.items
        ≡ shared (plains_of right.now) [] (plains_of left.now)) }
{
    let mut seen = Vec::new(alloc);
    for value in left {
        if has(alloc, right, *value)? && !has(alloc, &seen, *value)? {
            seen.push(*value)?;
        }
    }
    Ok(seen)
}

// Puts a value behind those seen, which the table has, if an equal one is among the others and none among them.
fn add_shared<'e, 'a, 'j>(
    alloc: Global,
    others: &Table<'e, 'a, 'j>,
    table: &mut Table<'e, 'a, 'j>,
    seen: &mut Vec<Value<'e, 'a, 'j>>,
    value: Value<'e, 'a, 'j>,
) -> Result<(), NoMemory>
    ensures held { OnOk result (Holds table.old seen.old.items → Holds table.new seen.new.items) }
    ensures added { OnOk result ((ws : List Value) → Holds others.now ws → Holds table.old seen.old.items
        → plains_of seen.new.items ≡ (if has (plains_of ws) (plain_of value.entry)
        then add (plains_of seen.old.items) (plain_of value.entry) else plains_of seen.old.items)) }
{
    if !others.has(alloc, value)? {
        return Ok(());
    }
    add(alloc, table, seen, value)
}

#[tactic(auto, unfolding(crate::specs::Sets::shared))]
fn intersection_with_many<'e, 'a, 'j>(
    alloc: Global,
    left: &[Value<'e, 'a, 'j>],
    right: &[Value<'e, 'a, 'j>],
) -> Result<Vec<Value<'e, 'a, 'j>>, NoMemory>
    ensures { IfOk result (λ v. plains_of v.items
        ≡ shared (plains_of right.now) [] (plains_of left.now)) }
{
    let others = Table::of(alloc, right)?;
    let mut table = Table::new(alloc);
    let mut seen = Vec::new(alloc);
    for value in left {
        add_shared(alloc, &others, &mut table, &mut seen, *value)?;
    }
    Ok(seen)
}

/// The values of the left that are in the right, each once, in time near linear in the values' sizes. The one refusal is want
/// of memory.
pub fn intersection<'e, 'a, 'j>(
    alloc: Global,
    left: &[Value<'e, 'a, 'j>],
    right: &[Value<'e, 'a, 'j>],
) -> Result<Vec<Value<'e, 'a, 'j>>, EvalFault>
    ensures { GivesOr is_no_memory (λ v. plains_of v.items) result
        (Ok (shared (plains_of right.now) [] (plains_of left.now))) }
{
    if right.len() <= FEW {
        return Ok(intersection_with_few(alloc, left, right)?);
    }
    Ok(intersection_with_many(alloc, left, right)?)
}

// Whether a value that has the key is equal to another.
#[tactic(auto, using(crate::proofs::Tables::not_alike))]
fn is_alike_by_key(
    alloc: Global,
    key: &str,
    value: Value<'_, '_, '_>,
    other: Value<'_, '_, '_>,
) -> Result<bool, NoMemory>
    ensures { IfOk result (λ r. key.now ≡ key_of (plain_of value.entry)
        → r ≡ is_yes (alike (plain_of other.entry) (plain_of value.entry))) }
{
    let other_key = key_of(alloc, other)?;
    if key == other_key.as_str() {
        Ok(is_yes(alike(alloc, other, value)?))
    } else {
        Ok(false)
    }
}

// Keys are compared first, so that a large value isn't sorted anew for each of many.
fn is_among_many(
    alloc: Global,
    seen: &[Value<'_, '_, '_>],
    value: Value<'_, '_, '_>,
) -> Result<bool, NoMemory>
    ensures { IfOk result (λ r. r ≡ has (plains_of seen.now) (plain_of value.entry)) }
{
    let key = key_of(alloc, value)?;
    for other in seen {
        if is_alike_by_key(alloc, key.as_str(), value, *other)? {
            return Ok(true);
        }
    }
    Ok(false)
}

/// Whether a value of the list is equal to this one, in time near linear in the values' sizes. The one refusal is want of memory.
pub fn is_among(
    alloc: Global,
    seen: &[Value<'_, '_, '_>],
    value: Value<'_, '_, '_>,
) -> Result<bool, NoMemory>
    ensures { IfOk result (λ r. r ≡ has (plains_of seen.now) (plain_of value.entry)) }
{
    if seen.len() <= FEW {
        return has(alloc, seen, value);
    }
    is_among_many(alloc, seen, value)
}
