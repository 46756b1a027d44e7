//! What is kept, and when it is forgotten.

ghost use Rattle.std.specs.Prelude.{◌≡◌};
ghost use Rattle.std.specs.List.{list_any};
ghost use Rattle.fhir_reach.specs.Keys.{key_seen, has_key};

use crate::shared::Shared;
use fhir_cache::Rule;
use fhir_reach::{Key, KeySet};

/// What is kept, with all keys that were reached for it.
#[derive(Drop)]
pub(crate) struct Kept<A> {
    pub(crate) value: A,
    pub(crate) keys: Shared<KeySet>,
}

/// Lets stay what reaches none of the keys that change.
#[derive(Drop)]
pub(crate) struct Untouched<'k> {
    pub(crate) changed: &'k [Key],
}

fn touches(keys: &KeySet, changed: &[Key]) -> bool
    ensures { result ≡ list_any (λ key. has_key keys.now (key_seen key)) changed.now }
{
    changed.iter().any(|key| keys.has(key))
}

impl<'k, A> Rule<Kept<A>> for Untouched<'k> {
    ghost use Rattle.fhir_reach.specs.Keys.{keys_seen};
    ghost use Rattle.fhir_registry.specs.Sound.{is_untouched};

    ghost stays = { λ rule kept. is_untouched (keys_seen rule.changed.now) kept };

    fn stays(&self, value: &Kept<A>) -> bool {
        !touches(value.keys.get(), self.changed)
    }
}
