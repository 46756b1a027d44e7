//! What is to blame for a definition that can't be used.

ghost use Rattle.std.specs.Prelude.{◌≡◌, Some, None};
ghost use Rattle.fhir_elements.specs.Causes.{reason_of};

use crate::reason::Reason;

/// What is to blame for a definition that can't be used. It says more than a `Reason`, which it has one of.
#[derive(Clone, Copy, Debug)]
pub enum Cause {
    /// `U1`: the url has a blank in it.
    BlankInUrl,
    /// `U1`: an element is no object.
    NoObject,
    /// `U1`: a field that must be there isn't.
    MissingField(&'static str),
    /// `U1`: a field is of a wrong kind, or its value isn't one that it may have.
    WrongField(&'static str),
    /// `U1`: a choice is given in two forms, as `fixedCode` and `fixedString` of `fixed`.
    TwoForms(&'static str),
    /// `U1`: an element has neither a type nor a content reference.
    NoType,
    /// `U1`: a bound, `minValue` or `maxValue`, is no value of its type.
    WrongBound(&'static str),
    /// `U1`: FHIR has no primitive type of the code.
    UnknownPrimitive,
    /// `U2`: the `min` of an element is over its `max`.
    MinOverMax,
    /// `U3`: the type entry at this place of an element has the code of another one.
    RepeatedType(usize),
    /// `U4`: an element has no `id`.
    MissingId,
    /// `U4`: the `id` of an element is none.
    UnreadableId,
    /// `U4`: an element before it has the same `id`.
    RepeatedId,
    /// `U5`: the definition of a type isn't there: of the definition's own, or of the type entry at a place.
    MissingType(Option<usize>),
    /// `U5`: that definition is there, and can't be used.
    UnusableType {
        /// The place of the type entry, or none for the definition's own type.
        entry: Option<usize>,
        /// The place of the type's definition in the package's order.
        definition: usize,
        /// The place of the definition on which that one rests in the end; its own, where it rests on no other.
        origin: usize,
    },
    /// `U6`: the element above it isn't there.
    MissingParent,
    /// `U6`: there is no root.
    NoRoot,
    /// `U6`: it is a second root.
    SecondRoot,
    /// `U6`: the child at this place of the snapshot spells a property of JSON that a child before it spells.
    RepeatedProperty(usize),
    /// `U7`: the element that a content reference names isn't there.
    MissingContent,
    /// `U7`: it is there, and its definition can't be used.
    UnusableContent {
        /// The place of that definition in the package's order.
        definition: usize,
        /// The place of the definition on which that one rests in the end; its own, where it rests on no other.
        origin: usize,
    },
    /// `U7`: it is there, in a definition at this place of the package's order that is no type definition, as this one is.
    ContentOfProfile(usize),
    /// `U8`: the chain of `baseDefinition` runs in a cycle.
    BaseCycle,
    /// `U9`: the sliced element has no slicing, or that has no discriminator.
    NoDiscriminator,
    /// `U9`: the discriminator at this place of the slicing finds nothing to look for, or lacks its type or its path.
    UntoldDiscriminator(usize),
    /// `U10`: there is no snapshot.
    NoSnapshot,
    /// `U11`: another definition of the same type comes before it.
    SecondType,
}

impl Cause {
    /// The reason that it is a case of.
    pub fn reason(self) -> Reason
        ensures { result ≡ reason_of self }
    {
        match self {
            Cause::BlankInUrl
            | Cause::NoObject
            | Cause::MissingField(_)
            | Cause::WrongField(_)
            | Cause::TwoForms(_)
            | Cause::NoType
            | Cause::WrongBound(_)
            | Cause::UnknownPrimitive => Reason::WrongField,
            Cause::MinOverMax => Reason::MinOverMax,
            Cause::RepeatedType(_) => Reason::RepeatedType,
            Cause::MissingId | Cause::UnreadableId | Cause::RepeatedId => Reason::WrongId,
            Cause::MissingType(_) | Cause::UnusableType { .. } => Reason::UnusableType,
            Cause::MissingParent | Cause::NoRoot | Cause::SecondRoot | Cause::RepeatedProperty(_) =>
                Reason::NoTree,
            Cause::MissingContent | Cause::UnusableContent { .. } | Cause::ContentOfProfile(_) =>
                Reason::MissingContent,
            Cause::BaseCycle => Reason::BaseCycle,
            Cause::NoDiscriminator | Cause::UntoldDiscriminator(_) => Reason::UnsupportedSlicing,
            Cause::NoSnapshot => Reason::NoSnapshot,
            Cause::SecondType => Reason::SecondType,
        }
    }
}

/// What is to blame for a definition that can't be used, and where.
#[derive(Clone, Copy, Debug)]
pub struct Blame {
    /// The place of an element in the definition's snapshot; none where the definition itself is to blame.
    pub element: Option<usize>,
    /// What is wrong there.
    pub cause: Cause,
}

impl Blame {
    /// That of the definition itself.
    pub fn whole(cause: Cause) -> Blame
        ensures element { result.element ≡ None }
        ensures cause { result.cause ≡ cause }
    {
        Blame {
            element: None,
            cause,
        }
    }

    /// That of the element at a place.
    pub fn at(place: usize, cause: Cause) -> Blame
        ensures element { result.element ≡ Some place }
        ensures cause { result.cause ≡ cause }
    {
        Blame {
            element: Some(place),
            cause,
        }
    }
}
