//! What was expected where bytes are refused.

ghost use Rattle.std.specs.Prelude.{◌≡◌};
ghost use Rattle.fhir_json.specs.declared.refusal.Expected.TheVariants as wants;
ghost use Rattle.fhir_json.specs.Refusals.{fault_of, unmet};

use crate::fault::JsonFault;
use crate::memory::NoMemory;

/// What the text of a tree would have where a fault was met.
#[derive(Clone, Copy, Debug, PartialEq, Eq)]
pub enum Expected {
    /// Bytes of UTF-8 (RFC 8259, section 8.1).
    Utf8,
    /// A value: a string, a number, an array, an object, `true`, `false` or `null`.
    Value,
    /// A name in quotation marks.
    Name,
    /// A name that no member before it in the object has (section 4).
    NewName,
    /// The colon behind a name.
    Colon,
    /// A comma, or the bracket that ends the array or the object.
    CommaOrEnd,
    /// The quotation mark that ends a string.
    EndOfString,
    /// A character that may stand in a string without an escape.
    Character,
    /// What stands behind a backslash in a string (section 7): one of `"\/bfnrt`, or `u` and four hexadecimal digits.
    Escape,
    /// The other half of a surrogate pair (section 8.2).
    OtherHalf,
    /// No more than `MAX_DEPTH` arrays and objects inside one another (section 9).
    FewerLevels,
    /// Nothing behind the value but blanks.
    End,
    /// Memory: a growth was refused.
    Memory,
}

impl Expected {
    /// The fault that it is where this is not there.
    pub fn fault(self) -> JsonFault
        ensures { result ≡ fault_of self }
    {
        match self {
            Expected::Utf8 => JsonFault::NotUtf8,
            Expected::NewName => JsonFault::RepeatedName,
            Expected::OtherHalf => JsonFault::LoneSurrogate,
            Expected::FewerLevels => JsonFault::TooDeep,
            Expected::End => JsonFault::Trailing,
            Expected::Memory => JsonFault::NoMemory,
            Expected::Value
            | Expected::Name
            | Expected::Colon
            | Expected::CommaOrEnd
            | Expected::EndOfString
            | Expected::Character
            | Expected::Escape => JsonFault::Syntax,
        }
    }
}

/// Why bytes could not be read: what was expected, and how many bytes were left there.
#[derive(Clone, Copy, Debug, PartialEq, Eq)]
pub struct Refusal {
    /// What was expected.
    pub expected: Expected,
    /// How many bytes were left there.
    pub left: usize,
}

// This was expected at the front of the text.
pub(crate) fn unmet(expected: Expected, text: &str) -> Refusal
    ensures { result ≡ unmet expected text.now }
{
    Refusal {
        expected,
        left: text.len(),
    }
}

// Whatever becomes want of memory.
impl<E: Drop> From<E> for Refusal
where
    NoMemory: From<E>,
{
    ghost from_gives = { λ _ r. r ≡ record { expected = wants.Memory; left = 0 } };

    fn from(_error: E) -> Refusal {
        Refusal {
            expected: Expected::Memory,
            left: 0,
        }
    }
}
