//! The words of the command line, as the process is given them.

ghost use Rattle.std.specs.Prelude.{◌≡◌};
ghost use Rattle.cj_driver.specs.declared.words.WordsError.TheVariants.{NoMemory};

use std::alloc::{AllocFailed, Global};
use std::env::Env;
use std::io::ErrorKind;
use std::{env, io};
use thiserror::Error;

/// Why the words are not known.
#[derive(Clone, Copy, Debug, PartialEq, Eq, Error)]
pub enum WordsError {
    /// A word is not UTF-8, so the words are no form of a call.
    #[error("a word is not UTF-8")]
    NotText,
    /// There was no memory for the words.
    #[error("out of memory")]
    NoMemory,
}

impl From<io::Error> for WordsError {
    fn from(error: io::Error) -> WordsError {
        if error.kind() == ErrorKind::OutOfMemory {
            WordsError::NoMemory
        } else {
            WordsError::NotText
        }
    }
}

impl<T: Drop> From<AllocFailed<T>> for WordsError {
    ghost from_gives = { λ _ error. error ≡ NoMemory };

    fn from(_failed: AllocFailed<T>) -> WordsError {
        WordsError::NoMemory
    }
}

/// The words behind the program's name.
pub fn command_words<R: Env + Alloc<A = Global>>(rt: &R) -> Result<Vec<String>, WordsError> {
    let mut words = Vec::new(rt.alloc());
    for word in env::args(rt)?.skip(1) {
        words.push(word)?;
    }
    Ok(words)
}
