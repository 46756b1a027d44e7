//! Names with their tags.

ghost use Rattle.std.specs.Prelude.{◌≡◌, ℕ, List, string_bytes, IfOk, ◌<◌};
ghost use Rattle.std.specs.Str.{bytes_eq};
ghost use Rattle.fhir_names.specs.Tags.{next_tag, tag_from};

use std::alloc::{AllocError, Global};
use std::marker::Model;

/// A name that is compared with others many times: it has a tag, a number by which most other names are told apart from it at once.
#[derive(Drop)]
pub struct Name {
    text: String,
    tag: u64,
}

impl Model for Name {
    ghost use Rattle.std.specs.Prelude.{◌≡◌, ℕ, List, string_bytes};
    ghost use Rattle.fhir_names.specs.Tags.{tag_from};

    ghost Value = { List ℕ };

    ghost view = { λ n. string_bytes n.text };

    ghost invariant = { λ n. n.tag ≡ tag_from 0 (string_bytes n.text) };
}

fn next_tag(tag: u64, byte: u8) -> u64
    requires { tag < 1000000007 }
    ensures is { result ≡ next_tag tag byte }
    ensures small { result < 1000000007 }
{
    (tag * 257 + u64::from(byte)) % 1_000_000_007
}

fn tag_of(bytes: &[u8]) -> u64
    ensures { result ≡ tag_from 0 bytes.now }
{
    let mut tag = 0;
    for byte in bytes {
        tag = next_tag(tag, *byte);
    }
    tag
}

impl Name {
    /// A text as a name. The one refusal is want of memory.
    pub fn of(alloc: Global, text: &str) -> Result<Name, AllocError>
        ensures { IfOk result (λ name. name ≡ text.now) }
    {
        let text = String::from_str(alloc, text)?;
        let tag = tag_of(text.as_bytes());
        Ok(Name { text, tag })
    }

    /// Its text.
    pub fn as_str(&self) -> &str
        ensures { result.now ≡ self.now }
    {
        self.text.as_str()
    }

    /// Whether it is the same name as another.
    pub fn is(&self, other: &Name) -> bool
        ensures { result ≡ bytes_eq self.now other.now }
    {
        self.tag == other.tag && self.text == other.text
    }
}
