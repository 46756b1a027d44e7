//! Misfits.

ghost use Rattle.std.specs.Prelude.{◌≡◌};
ghost use Rattle.fhir_instance.specs.Misfits.{misfit_number};

use fhir_json::Json;
use std::fmt;

/// Why a JSON value has no item.
#[derive(Clone, Copy, Debug, PartialEq, Eq)]
pub enum MisfitKind {
    /// A property is no element's of the type.
    UnknownProperty,
    /// An array stands where the type allows one value.
    UnwantedArray,
    /// One value stands where the type asks for an array.
    MissingArray,
    /// A null in place of a value, or an array, an object or a text that is empty.
    Empty,
    /// A value is of another kind of JSON than the type asks for, or is no value of the type.
    WrongValue,
    /// The arrays of a primitive's values and of its companions don't go together: their lengths differ, or null stands at
    /// a place where the other has nothing either.
    Unparallel,
    /// No `resourceType`, or one that names no type that a resource may be of.
    UnknownType,
    /// A growth of memory was refused. Nothing is said of the value.
    NoMemory,
}

impl MisfitKind {
    /// The number that `Display` prints.
    pub fn number(&self) -> &'static str
        ensures { result.now ≡ misfit_number self.now }
    {
        match self {
            MisfitKind::UnknownProperty => "I1",
            MisfitKind::UnwantedArray => "I2",
            MisfitKind::MissingArray => "I3",
            MisfitKind::Empty => "I4",
            MisfitKind::WrongValue => "I5",
            MisfitKind::Unparallel => "I6",
            MisfitKind::UnknownType => "I7",
            MisfitKind::NoMemory => "I8",
        }
    }
}

impl fmt::Display for MisfitKind {
    fn fmt<W: fmt::Write>(&self, f: &mut fmt::Formatter<W>) -> fmt::Result {
        write!(f, "{}", self.number())
    }
}

/// Why a JSON value has no item, and where: the type of the resource, and the names of the elements down to the property.
#[derive(Debug, Drop)]
pub struct Misfit {
    /// What is wrong.
    pub kind: MisfitKind,
    /// The place, as `Patient.name[0].given`. A value that is no resource of a known type has none.
    pub place: Option<String>,
}

impl fmt::Display for Misfit {
    fn fmt<W: fmt::Write>(&self, f: &mut fmt::Formatter<W>) -> fmt::Result {
        match &self.place {
            Some(place) => write!(f, "{} {place}", self.kind),
            None => write!(f, "{}", self.kind),
        }
    }
}

fn kind_where_empty(is_empty: bool) -> MisfitKind {
    if is_empty {
        MisfitKind::Empty
    } else {
        MisfitKind::WrongValue
    }
}

/// What is wrong with a value that is no item of its form.
pub(crate) fn kind_of(json: &Json<'_>) -> MisfitKind {
    match json {
        Json::Null => MisfitKind::Empty,
        Json::Arr(_items) => MisfitKind::UnwantedArray,
        Json::Obj(members) => kind_where_empty(members.is_empty()),
        Json::Str(text) => kind_where_empty(text.as_str().is_empty()),
        _ => MisfitKind::WrongValue,
    }
}

/// What is wrong with a value that stands in place of an array.
pub(crate) fn kind_of_single(json: &Json<'_>) -> MisfitKind {
    match json {
        Json::Null => MisfitKind::Empty,
        _ => MisfitKind::MissingArray,
    }
}
