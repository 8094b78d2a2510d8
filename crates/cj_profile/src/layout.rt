//! The words of a profile.

ghost use Rattle.std.specs.Prelude.{◌≡◌};
ghost use Rattle.cj_profile.specs.Words.{number, first_word};

use cj_ir::limits::{MAX_LABELS, MAX_PARAMS};
use cj_ir::{Edge, FunId, Label};

/// A word of a profile, by what it keeps.
#[derive(Clone, Copy, Debug, PartialEq, Eq)]
pub enum Word {
    /// How many callers have finished.
    Finished,
    /// How often a function was entered.
    Calls(FunId),
    /// How many Assumes of a function's versions have failed.
    Failures(FunId),
    /// The greatest level that was asked for, from 0 to 3.
    Asked(FunId),
    /// The greatest level that was taken.
    Taken(FunId),
    /// The last argument of a parameter, as its two's complement.
    Last {
        function: FunId,
        param: u32,
    },
    /// How many arguments of a parameter agreed with the last one.
    Agreed {
        function: FunId,
        param: u32,
    },
    /// How often a `cond` of the base body took an edge.
    Way {
        function: FunId,
        label: Label,
        edge: Edge,
    },
}

/// Where the words of a function's parameters begin, behind its calls, failures, asked and taken level.
pub const PARAMS_AT: usize = 4;

/// Where the words of its labels begin: a parameter has two words.
pub const LABELS_AT: usize = PARAMS_AT + 2 * MAX_PARAMS as usize;

/// How many words a function has: a label has two.
pub const FUNCTION_WORDS: usize = LABELS_AT + 2 * MAX_LABELS;

impl Word {
    /// The word's number.
    pub fn index(self) -> usize
        ensures { result ≡ number self }
    {
        match self {
            Word::Finished => 0,
            Word::Calls(f) => first_word(f),
            Word::Failures(f) => first_word(f) + 1,
            Word::Asked(f) => first_word(f) + 2,
            Word::Taken(f) => first_word(f) + 3,
            Word::Last { function, param } => first_word(function) + PARAMS_AT + 2 * param as usize,
            Word::Agreed { function, param } => {
                first_word(function) + PARAMS_AT + 2 * param as usize + 1
            }
            Word::Way {
                function,
                label,
                edge: Edge::Then,
            } => first_word(function) + LABELS_AT + 2 * label.0 as usize,
            Word::Way {
                function,
                label,
                edge: Edge::Else,
            } => first_word(function) + LABELS_AT + 2 * label.0 as usize + 1,
        }
    }
}

fn first_word(f: FunId) -> usize
    ensures { result ≡ first_word f }
{
    FUNCTION_WORDS * f.0 as usize + 1
}
