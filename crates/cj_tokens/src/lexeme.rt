//! A token as the grammar's readers see it.

use crate::terminal::Terminal;

/// A token.
#[derive(Clone, Copy, Debug, PartialEq, Eq)]
pub struct Lexeme<'a> {
    /// What it is to the grammar.
    pub terminal: Terminal,
    /// Its line, from 1; no higher than the greatest u32.
    pub line: u32,
    /// Its bytes; those of a text are the ones between its quotes.
    pub text: &'a [u8],
    /// The value of a number; 0 of any other token.
    pub number: i64,
}

/// A token, the place of its first byte, and the place behind its last one.
#[derive(Clone, Copy, Debug)]
pub(crate) struct Scanned<'a> {
    pub(crate) lexeme: Lexeme<'a>,
    pub(crate) start: usize,
    pub(crate) stop: usize,
}
