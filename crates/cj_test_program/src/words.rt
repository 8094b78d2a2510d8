//! The words of a command line.

use cj_driver::{WordsError, command_words};
use std::alloc::Global;
use std::env::{Env, FillError};
use std::test::Fail;

// The name of the program and one word.
#[derive(Drop)]
struct Given<'a> {
    word: &'a [u8],
    alloc: Global,
}

impl Env for Given<'_> {
    fn arg(&self, i: usize, buf: &mut [u8]) -> Result<usize, FillError> {
        if i > 1 {
            return Err(FillError::NotPresent);
        }
        if buf.len() < self.word.len() {
            return Err(FillError::TooLong);
        }
        buf[..self.word.len()].copy_from_slice(self.word);
        Ok(self.word.len())
    }

    fn var(&self, _name: &str, _buf: &mut [u8]) -> Result<usize, FillError> {
        Err(FillError::NotPresent)
    }

    fn var_at(&self, _i: usize, _buf: &mut [u8]) -> Result<usize, FillError> {
        Err(FillError::NotPresent)
    }
}

impl Alloc for Given<'_> {
    type A = Global;

    fn alloc(&self) -> Global {
        self.alloc
    }
}

#[test]
fn words_are_gathered_if_they_are_text(rt: HostRuntime) -> Result<(), Fail> {
    let alloc = rt.alloc();
    let words = command_words(&Given {
        word: b"alone",
        alloc,
    })?;
    assert_eq!(rt; words.len(), 1);
    assert!(rt; words.iter().all(|word| word.as_str() == "alone"));
    let unreadable = command_words(&Given {
        word: &[0xff],
        alloc,
    });
    assert!(rt; matches!(unreadable, Err(WordsError::NotText)));
    Ok(())
}
