//! What may stay in a cache.

ghost use Rattle.std.specs.Prelude.{◌≡◌, Bool};

/// A rule by which values stay in a cache or go. A change of what they rest on makes one.
pub trait Rule<V> {
    /// Whether a value may stay.
    ghost stays: { Self → V → Bool };

    /// Whether a value may stay.
    fn stays(&self, value: &V) -> bool
        ensures { result ≡ stays self.now value.now };
}
