//! The schemas that a registry keeps.

ghost use Rattle.std.specs.Prelude.{◌≡◌, true, false, Contains, take, IfOk, IfSome, OnOk, slice_get};
ghost use Rattle.std.specs.List.{list_all};
ghost use Rattle.std.specs.Option.{option_map_or};
ghost use Rattle.fhir_reach.specs.Keys.{key_seen, keys_seen, has_key, same_keys};
ghost use Rattle.fhir_reach.specs.Reach.{restrict};
ghost use Rattle.fhir_registry.specs.Sound.{IsSchemaOf, IsRightFor, AreRightSchemas, IsFirst};

use crate::kept::Kept;
use crate::shared::Shared;
use fhir_json::NoMemory;
use fhir_package::Package;
use fhir_reach::{Key, KeySet, frame, reached_set, restrict, same_sets};
use fhir_schema::Schema;
use fhir_snapshot::complete;
use lru::LruCache;
use std::alloc::Global;

/// Schemas, each under the keys that were asked for.
pub(crate) type Schemas = LruCache<Vec<Key>, Kept<Shared<Schema>>>;

// The schema of the definitions for which keys stand, completed.
fn schema_of(alloc: Global, definitions: &Package<'_>, keys: &KeySet) -> Result<Schema, NoMemory>
    ensures { IfOk result (λ s. IsSchemaOf (restrict definitions.now keys.now) s) }
{
    let mut reached = restrict(alloc, definitions, keys.keys())?;
    complete(alloc, &mut reached)?;
    Schema::build(alloc, &reached)
}

fn build(
    alloc: Global,
    definitions: &Package<'_>,
    keys: KeySet,
) -> Result<Kept<Shared<Schema>>, NoMemory>
    ensures { IfOk result (λ kept. IsRightFor definitions.now keys kept) }
{
    same_sets();
    let schema = schema_of(alloc, definitions, &keys)?;
    Ok(Kept {
        value: Shared::new(alloc, schema)?,
        keys: Shared::new(alloc, keys)?,
    })
}

// One that is kept with the same keys.
fn find_same<'s>(schemas: &'s Schemas, keys: &KeySet) -> Option<&'s Kept<Shared<Schema>>>
    ensures { IfSome result (λ kept. (start : _) × Contains schemas.now.entries (start, kept.now) × (same_keys kept.now.keys keys.now ≡ true)) }
{
    for (_, kept) in schemas {
        if kept.keys.get().has_same(keys) {
            return Some(kept);
        }
    }
    None
}

fn share(kept: &Kept<Shared<Schema>>) -> Result<Kept<Shared<Schema>>, NoMemory>
    ensures value { IfOk result (λ k. k.value ≡ kept.now.value) }
    ensures keys { IfOk result (λ k. k.keys ≡ kept.now.keys) }
{
    Ok(Kept {
        value: kept.value.share()?,
        keys: kept.keys.share()?,
    })
}

// The schema for keys that are reached: one that is kept with the same keys, or a new one.
fn schema_for(
    alloc: Global,
    schemas: &Schemas,
    definitions: &Package<'_>,
    keys: KeySet,
) -> Result<Kept<Shared<Schema>>, NoMemory>
    requires { AreRightSchemas definitions.now schemas.now }
    ensures { IfOk result (λ kept. IsRightFor definitions.now keys kept) }
{
    same_sets();
    match find_same(schemas, &keys) {
        Some(kept) => share(kept),
        None => build(alloc, definitions, keys),
    }
}

fn keep_new(
    alloc: Global,
    schemas: &mut Schemas,
    definitions: &Package<'_>,
    start: Vec<Key>,
) -> Result<(), NoMemory>
    requires { AreRightSchemas definitions.now schemas.old }
    ensures first { OnOk result (IsFirst definitions.now (keys_seen start.items) schemas.new) }
    ensures right { AreRightSchemas definitions.now schemas.new }
    ensures cap { schemas.new.cap ≡ schemas.old.cap }
{
    let keys = reached_set(alloc, definitions, &start)?;
    let kept = schema_for(alloc, schemas, definitions, keys)?;
    schemas.put(start, kept)?;
    Ok(())
}

// Sees that the schema for keys is kept under these keys, as the last used.
fn hold_for(
    alloc: Global,
    schemas: &mut Schemas,
    definitions: &Package<'_>,
    start: Vec<Key>,
) -> Result<(), NoMemory>
    requires { AreRightSchemas definitions.now schemas.old }
    ensures first { OnOk result (IsFirst definitions.now (keys_seen start.items) schemas.new) }
    ensures right { AreRightSchemas definitions.now schemas.new }
    ensures cap { schemas.new.cap ≡ schemas.old.cap }
{
    if schemas.promote(&start) {
        return Ok(());
    }
    keep_new(alloc, schemas, definitions, start)
}

// The first key alone.
fn front_of(alloc: Global, start: &[Key]) -> Result<Vec<Key>, NoMemory>
    ensures { IfOk result (λ front. keys_seen front.items ≡ take 1 (keys_seen start.now)) }
{
    let mut front = Vec::new(alloc);
    if let Some(key) = start.first() {
        front.push(key.copy()?)?;
    }
    Ok(front)
}

fn has_all(keys: &KeySet, start: &[Key]) -> bool
    ensures { result ≡ list_all (λ key. has_key keys.now (key_seen key)) start.now }
{
    start.iter().all(|key| keys.has(key))
}

// Whether all of these keys were reached for the last used one.
fn is_led(schemas: &Schemas, start: &[Key]) -> bool
    ensures { result ≡ option_map_or (λ e. list_all (λ key. has_key e.1.keys (key_seen key)) start.now) (slice_get schemas.now.entries 0) false }
{
    match schemas.peek_mru() {
        Some((_, kept)) => has_all(kept.keys.get(), start),
        None => false,
    }
}

/// Sees that the schema of the definitions that keys reach is kept, as the last used. Mostly the first key reaches the others, as a profile does the
/// types to which a resource refers: then they lead to no more than it does, and one schema serves, whichever the others are.
pub(crate) fn hold(
    alloc: Global,
    schemas: &mut Schemas,
    definitions: &Package<'_>,
    start: Vec<Key>,
) -> Result<(), NoMemory>
    requires { AreRightSchemas definitions.now schemas.old }
    ensures first { OnOk result (IsFirst definitions.now (keys_seen start.items) schemas.new) }
    ensures right { AreRightSchemas definitions.now schemas.new }
    ensures cap { schemas.new.cap ≡ schemas.old.cap }
{
    frame();
    same_sets();
    let front = front_of(alloc, &start)?;
    hold_for(alloc, schemas, definitions, front)?;
    if is_led(schemas, &start) {
        return Ok(());
    }
    hold_for(alloc, schemas, definitions, start)
}
