//! Taking out of a cache what may not stay.

ghost use Rattle.std.specs.Prelude.{◌≡◌, ◌⊎◌, [], OnOk, filter, if◌then◌else◌};
ghost use Rattle.lru.specs.LruCache.{lru_cache, put_entries};
ghost use Rattle.fhir_cache.specs.Retaining.{turned};

use crate::rule::Rule;
use fhir_json::NoMemory;
use lru::LruCache;
use std::hash::Hash;

// Puts a pair that was taken out back, as the first, if it may stay.
fn put_back<Q: Eq + Hash + Drop, V: Drop, R: Rule<V>>(
    cache: &mut LruCache<Q, V>,
    question: Q,
    value: V,
    rule: &R,
) -> Result<(), NoMemory>
    ensures ok { OnOk result (cache.new ≡ (if R.stays rule.now value then lru_cache (put_entries Q.eq cache.old question value) cache.old.cap else cache.old)) }
    ensures cap { cache.new.cap ≡ cache.old.cap }
{
    if rule.stays(&value) {
        cache.put(question, value)?;
        Ok(())
    } else {
        Ok(())
    }
}

// The last pair becomes the first, if it may stay.
fn turn<Q: Eq + Hash + Drop, V: Drop, R: Rule<V>>(
    cache: &mut LruCache<Q, V>,
    rule: &R,
) -> Result<(), NoMemory>
    ensures ok { OnOk result (cache.new ≡ lru_cache (turned (λ e. R.stays rule.now e.1) cache.old.entries) cache.old.cap) }
    ensures cap { cache.new.cap ≡ cache.old.cap }
{
    let _size = cache.len();
    match cache.pop_lru() {
        Some((question, value)) => put_back(cache, question, value, rule),
        None => Ok(()),
    }
}

fn turn_all<Q: Eq + Hash + Drop, V: Drop, R: Rule<V>>(
    cache: &mut LruCache<Q, V>,
    rule: &R,
) -> Result<(), NoMemory>
    ensures ok { OnOk result (cache.new ≡ lru_cache (filter (λ e. R.stays rule.now e.1) cache.old.entries) cache.old.cap) }
    ensures cap { cache.new.cap ≡ cache.old.cap }
{
    for _ in 0..cache.len() {
        turn(cache, rule)?;
    }
    Ok(())
}

/// Takes out the pairs whose value may not stay, and leaves the others in their order. Where memory is refused for that, all go.
pub fn retain<Q: Eq + Hash + Drop, V: Drop, R: Rule<V>>(cache: &mut LruCache<Q, V>, rule: &R)
    ensures { (cache.new ≡ lru_cache (filter (λ e. R.stays rule.now e.1) cache.old.entries) cache.old.cap)
        ⊎ (cache.new ≡ lru_cache [] cache.old.cap) }
{
    match turn_all(cache, rule) {
        Ok(()) => {}
        Err(NoMemory) => cache.clear(),
    }
}
