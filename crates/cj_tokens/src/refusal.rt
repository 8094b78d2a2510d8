//! Why a text is refused.

ghost use Rattle.std.specs.Prelude.{◌≡◌};
ghost use Rattle.cj_tokens.specs.declared.refusal.ParseError.TheVariants.{NoMemory};

use std::alloc::{AllocError, AllocFailed};

/// The kind of an offence. Character, Number and Syntax are offences of the first class, and all
/// others of the second, which is judged where there is none of the first.
#[derive(Clone, Copy, Debug, PartialEq, Eq)]
pub enum Kind {
    /// A byte that begins no token, or a text without its closing quote.
    Character,
    /// A number outside the range of an i64.
    Number,
    /// A token that the grammar does not allow there.
    Syntax,
    TooMany,
    NameTwice,
    LabelTwice,
    NoEntry,
    NoRegister,
    NoLabel,
    NoFunction,
    Arguments,
    NotCond,
    Range,
}

/// The first offence of a text: the line of its token, from 1, and its kind.
#[derive(Clone, Copy, Debug, PartialEq, Eq)]
pub struct Refused {
    pub line: u32,
    pub kind: Kind,
}

/// Why a text was not read.
#[derive(Clone, Copy, Debug, PartialEq, Eq)]
pub enum ParseError {
    Refused(Refused),
    NoMemory,
}

impl<T: Drop> From<AllocFailed<T>> for ParseError {
    ghost from_gives = { λ _ error. error ≡ NoMemory };

    fn from(_refused: AllocFailed<T>) -> ParseError {
        ParseError::NoMemory
    }
}

impl From<AllocError> for ParseError {
    ghost from_gives = { λ _ error. error ≡ NoMemory };

    fn from(_error: AllocError) -> ParseError {
        ParseError::NoMemory
    }
}
