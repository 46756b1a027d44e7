//! A token of the text.

ghost use Rattle.std.specs.Prelude.{◌≡◌};
ghost use Rattle.fhir_fp_syntax.specs.declared.token.Stop.TheVariants.{NoMemory};

use crate::expr::{Operator, TypeTest};
use std::alloc::{AllocError, AllocFailed};

/// A sign, or a word that is no name.
#[derive(Clone, Copy, Debug, PartialEq, Eq)]
pub enum Mark {
    Open,
    Close,
    OpenBracket,
    CloseBracket,
    Dot,
    Bar,
    Less,
    LessOrEqual,
    Greater,
    GreaterOrEqual,
    Equal,
    NotEqual,
    Braces,
    This,
    Resource,
    Context,
    And,
    Or,
    Xor,
    Implies,
    In,
    Contains,
    Is,
    As,
    True,
    False,
    Div,
    Mod,
}

/// A token. A name in backquotes is a name, whatever it spells. A text is what stands between the quotes of a string, with
/// its escapes.
#[derive(Clone, Copy, Debug)]
pub enum Token<'a> {
    Name(&'a str),
    Text(&'a str),
    Number(&'a str),
    Mark(Mark),
}

/// Why nothing was read.
#[derive(Clone, Copy, Debug, PartialEq, Eq)]
pub enum Stop {
    Unread,
    NoMemory,
}

/// A function that has an argument.
#[derive(Clone, Copy, Debug, PartialEq, Eq)]
pub enum Given {
    Where,
    Exists,
    All,
    Intersect,
    OfType,
}

/// What a token does behind an expression.
#[derive(Clone, Copy, Debug, PartialEq, Eq)]
pub enum Next {
    Call,
    Dot,
    Bracket,
    Typed(TypeTest),
    Binary(Operator),
    Nothing,
}

impl From<AllocError> for Stop {
    ghost from_gives = { λ _ e. e ≡ NoMemory };

    fn from(_e: AllocError) -> Stop {
        Stop::NoMemory
    }
}

impl<T: Drop> From<AllocFailed<T>> for Stop {
    ghost from_gives = { λ _ e. e ≡ NoMemory };

    fn from(_e: AllocFailed<T>) -> Stop {
        Stop::NoMemory
    }
}
