//! What an element asks for that can never hold.

ghost use Rattle.std.specs.Prelude.{◌≡◌};
ghost use Rattle.fhir_contradictions.specs.Texts.{text_of};

use std::fmt;

/// What an element asks for that no item can meet, or no parent of its items. `Display` prints it.
#[derive(Clone, Copy, Debug, PartialEq, Eq)]
pub enum Contradiction {
    /// There has to be an item, and it can be of none of the element's types.
    NoType,
    /// The fixed value is no value of a type that its items can have.
    FixedType,
    /// The slices ask for more items together than there may be.
    TooManySliced,
    /// No type of a slice is one of the element that it is a slice of.
    OtherTypes,
    /// A slice is told by a value, where its element, or the profile of its type, asks for another one at the same path.
    OtherValue,
    /// The fixed value doesn't fit the pattern.
    FixedPattern,
    /// The fixed value has more characters than it may.
    FixedLength,
    /// The fixed value is outside the bounds.
    FixedRange,
    /// The fixed value isn't in the value set of the required binding.
    FixedBinding,
}

impl Contradiction {
    /// What it says, in plain words.
    pub fn text(&self) -> &'static str
        ensures { result.now ≡ text_of self.now }
    {
        match self {
            Contradiction::NoType =>
                "can never hold: it is required, and its items can be of none of its types",
            Contradiction::FixedType =>
                "can never hold: its fixed value is no value of a type that its items can have",
            Contradiction::TooManySliced =>
                "can never hold: its slices together ask for more than its max",
            Contradiction::OtherTypes =>
                "can never hold: none of its types is one of the element that it is a slice of",
            Contradiction::OtherValue =>
                "can never hold: it is told by a value other than the one that is fixed there",
            Contradiction::FixedPattern =>
                "can never hold: its fixed value doesn't fit its pattern",
            Contradiction::FixedLength =>
                "can never hold: its fixed value is longer than its maxLength",
            Contradiction::FixedRange => "can never hold: its fixed value is outside its bounds",
            Contradiction::FixedBinding => "can never hold: its fixed value isn't in its value set",
        }
    }
}

impl fmt::Display for Contradiction {
    fn fmt<W: fmt::Write>(&self, f: &mut fmt::Formatter<W>) -> fmt::Result {
        f.write_str(self.text())
    }
}
