//! Why a definition can't be used.

ghost use Rattle.std.specs.Prelude.{◌≡◌};
ghost use Rattle.fhir_elements.specs.Numbers.{reason_number};

use thiserror::Error;

/// Why a definition can't be used.
#[derive(Clone, Copy, Debug, PartialEq, Eq, Error)]
#[error("{}", self.number())]
pub enum Reason {
    /// `U1`: a field has a wrong JSON kind or a value outside its set, or an element of a snapshot lacks a field that it must
    /// have there.
    WrongField,
    /// `U2`: the `min` of an element is over its `max`.
    MinOverMax,
    /// `U3`: a type code is repeated in one element.
    RepeatedType,
    /// `U4`: the `id` of an element is missing, unreadable or repeated.
    WrongId,
    /// `U5`: the type definition of a type code isn't there, or can't be used itself.
    UnusableType,
    /// `U6`: the elements are no tree: a parent is missing, there is no root or there are two, or two elements spell one property.
    NoTree,
    /// `U7`: the element that a content reference names is missing.
    MissingContent,
    /// `U8`: the chain of `baseDefinition` runs in a cycle.
    BaseCycle,
    /// `U9`: a slicing isn't supported.
    UnsupportedSlicing,
    /// `U10`: there is no snapshot.
    NoSnapshot,
    /// `U11`: another definition of the same type comes before it.
    SecondType,
}

impl Reason {
    /// The number that `Display` prints.
    pub fn number(&self) -> &'static str
        ensures { result.now ≡ reason_number self.now }
    {
        match self {
            Reason::WrongField => "U1",
            Reason::MinOverMax => "U2",
            Reason::RepeatedType => "U3",
            Reason::WrongId => "U4",
            Reason::UnusableType => "U5",
            Reason::NoTree => "U6",
            Reason::MissingContent => "U7",
            Reason::BaseCycle => "U8",
            Reason::UnsupportedSlicing => "U9",
            Reason::NoSnapshot => "U10",
            Reason::SecondType => "U11",
        }
    }
}
