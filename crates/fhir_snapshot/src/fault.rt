//! Why a definition has no snapshot.

ghost use Rattle.std.specs.Prelude.{◌≡◌, IfOk, string_bytes};
ghost use Rattle.fhir_json.specs.Views.{text_seen};
ghost use Rattle.fhir_snapshot.specs.declared.fault.SnapFault.TheVariants as faults;
ghost use Rattle.fhir_snapshot.specs.Faults.{number_of, number_text, element_of};

use fhir_json::NoMemory;
use std::alloc::{AllocError, Global};
use std::fmt;

/// The number of a fault of a snapshot. `Display` prints it.
#[derive(Clone, Copy, Debug, PartialEq, Eq)]
pub enum SnapNumber {
    /// The definition isn't there, or one on which it rests.
    S1,
    /// The chain of `baseDefinition` runs in a cycle.
    S2,
    /// An element is wrong or isn't there, or a type definition brings no snapshot.
    S3,
    /// Two elements of a differential have one id.
    S4,
    /// A growth of memory was refused.
    S5,
}

impl SnapNumber {
    /// The number's text.
    pub fn text(self) -> &'static str
        ensures { result.now ≡ number_text self }
    {
        match self {
            SnapNumber::S1 => "S1",
            SnapNumber::S2 => "S2",
            SnapNumber::S3 => "S3",
            SnapNumber::S4 => "S4",
            SnapNumber::S5 => "S5",
        }
    }
}

impl fmt::Display for SnapNumber {
    fn fmt<W: fmt::Write>(&self, f: &mut fmt::Formatter<W>) -> fmt::Result {
        f.write_str(self.text())
    }
}

/// Why a definition has no snapshot. An element is named by its id, which is empty where it has none.
#[derive(Debug, Drop)]
pub enum SnapFault {
    /// `S1`: the definition isn't there, or one on which it rests.
    Missing,
    /// `S2`: the chain of `baseDefinition` runs in a cycle.
    BaseCycle,
    /// `S3`: a type definition brings no snapshot.
    NoSnapshot,
    /// `S3`: what a definition brings, its snapshot or its differential, isn't of its kind.
    WrongPart,
    /// `S3`: an element that a definition brings is none.
    WrongElement(String),
    /// `S3`: an element isn't there: it inherits nothing, or by way of itself.
    NoElement(String),
    /// `S3`: an element as it is laid together has `min` over `max`.
    MinOverMax(String),
    /// `S4`: two elements of a differential have one id.
    RepeatedId(String),
    /// `S5`: a growth of memory was refused.
    NoMemory,
}

impl SnapFault {
    /// The number that is printed.
    pub fn number(&self) -> SnapNumber
        ensures { result ≡ number_of self.now }
    {
        match self {
            SnapFault::Missing => SnapNumber::S1,
            SnapFault::BaseCycle => SnapNumber::S2,
            SnapFault::NoSnapshot
            | SnapFault::WrongPart
            | SnapFault::WrongElement(_)
            | SnapFault::NoElement(_)
            | SnapFault::MinOverMax(_) => SnapNumber::S3,
            SnapFault::RepeatedId(_) => SnapNumber::S4,
            SnapFault::NoMemory => SnapNumber::S5,
        }
    }

    /// The id of the element that is to blame, if one is.
    pub fn element(&self) -> Option<&str>
        ensures { text_seen result ≡ element_of self.now }
    {
        match self {
            SnapFault::WrongElement(id)
            | SnapFault::NoElement(id)
            | SnapFault::MinOverMax(id)
            | SnapFault::RepeatedId(id) => Some(id.as_str()),
            _ => None,
        }
    }

    // The same fault in memory of its own.
    pub(crate) fn copied(&self, alloc: Global) -> Result<SnapFault, AllocError>
        ensures number { IfOk result (λ f. number_of f ≡ number_of self.now) }
        ensures element { IfOk result (λ f. element_of f ≡ element_of self.now) }
    {
        match self {
            SnapFault::Missing => Ok(SnapFault::Missing),
            SnapFault::BaseCycle => Ok(SnapFault::BaseCycle),
            SnapFault::NoSnapshot => Ok(SnapFault::NoSnapshot),
            SnapFault::WrongPart => Ok(SnapFault::WrongPart),
            SnapFault::WrongElement(id) => Ok(SnapFault::WrongElement(owned(alloc, id)?)),
            SnapFault::NoElement(id) => Ok(SnapFault::NoElement(owned(alloc, id)?)),
            SnapFault::MinOverMax(id) => Ok(SnapFault::MinOverMax(owned(alloc, id)?)),
            SnapFault::RepeatedId(id) => Ok(SnapFault::RepeatedId(owned(alloc, id)?)),
            SnapFault::NoMemory => Ok(SnapFault::NoMemory),
        }
    }
}

fn owned(alloc: Global, text: &String) -> Result<String, AllocError>
    ensures { IfOk result (λ t. string_bytes t ≡ string_bytes text.now) }
{
    String::from_str(alloc, text.as_str())
}

impl fmt::Display for SnapFault {
    fn fmt<W: fmt::Write>(&self, f: &mut fmt::Formatter<W>) -> fmt::Result {
        f.write_str(self.number().text())
    }
}

// Whatever becomes want of memory.
impl<E: Drop> From<E> for SnapFault
where
    NoMemory: From<E>,
{
    ghost from_gives = { λ _ e. e ≡ faults.NoMemory };

    fn from(_error: E) -> SnapFault {
        SnapFault::NoMemory
    }
}
