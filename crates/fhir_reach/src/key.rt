//! Keys of definitions.

ghost use Rattle.std.specs.Prelude.{◌≡◌, IfOk};
ghost use Rattle.fhir_reach.specs.Keys.{key_seen};

use fhir_json::NoMemory;

/// What stands for definitions.
#[derive(PartialEq, Eq, Hash, Drop)]
pub enum Key {
    /// A url: the definitions of that url, of each kind.
    Url(String),
    /// The code of a type: its type definitions.
    Code(String),
}

impl Key {
    /// The same key in memory of its own.
    pub fn copy(&self) -> Result<Key, NoMemory>
        ensures { IfOk result (λ k. key_seen k ≡ key_seen self.now) }
    {
        match self {
            Key::Url(url) => Ok(Key::Url(url.clone()?)),
            Key::Code(code) => Ok(Key::Code(code.clone()?)),
        }
    }
}
