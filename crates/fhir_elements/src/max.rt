//! How many there may be at most (FHIR R4, ElementDefinition, max).

ghost use Rattle.std.specs.Prelude.{◌≡◌, ◌<◌, Option};
ghost use Rattle.fhir_elements.specs.Max.{max_of, is_within, allows_several};

use crate::codes::Code;
use fhir_json::count_of;

/// How many there may be at most.
#[derive(Clone, Copy, Debug, PartialEq, Eq)]
pub enum Max {
    /// Any number, `*`.
    Unbounded,
    /// So many.
    UpTo(u32),
}

impl Max {
    /// Whether so many are at most as many as there may be.
    pub fn allows(self, count: u32) -> bool
        ensures { result ≡ is_within count self }
    {
        match self {
            Max::Unbounded => true,
            Max::UpTo(most) => count <= most,
        }
    }

    /// Whether more than one may be there.
    pub fn allows_several(self) -> bool
        ensures { result ≡ allows_several self }
    {
        match self {
            Max::Unbounded => true,
            Max::UpTo(most) => most > 1,
        }
    }
}

impl Code for Max {
    ghost reads = { max_of };

    fn of(text: &str) -> Option<Max> {
        if text == "*" {
            return Some(Max::Unbounded);
        }
        match count_of(text) {
            Some(count) => Some(Max::UpTo(count)),
            None => None,
        }
    }
}
