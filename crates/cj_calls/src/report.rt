//! What a call's run is answered with.

use cj_base::{End, Frame, Waitings};
use cj_ir::{Duplicate, FunId, NoMemory, Sequence, Values};

/// A lookup of a function when it is entered: the offset of the version that was found, 0 for the base body.
#[derive(Clone, Copy, Debug, PartialEq, Eq)]
pub struct Look {
    pub function: FunId,
    pub offset: u64,
}

/// A rebuilt stack: after `turn` base turns the base run's top frame is `top`, and its waiting frames begin
/// with `waiting`, the innermost first.
#[derive(Debug, Drop)]
pub struct Note {
    pub turn: u64,
    pub top: Frame,
    pub waiting: Waitings,
}

pub type Looks = Sequence<Look>;

pub type Notes = Sequence<Note>;

pub type Reports = Sequence<Report>;

/// Notes that a report keeps: the first ones of its run.
pub const MAX_NOTES: usize = 256;

/// The report of a call.
#[derive(Debug, Drop)]
pub struct Report {
    /// The prints of the base run after `base_turns` turns.
    pub printed: Values,
    /// The end of that run; the turn limit where it has not ended.
    pub end: End,
    /// The turns that were made, the one that ended the run counted: 1 to the call's limit.
    pub turns: u64,
    /// The turns of the base run for which they stand.
    pub base_turns: u64,
    /// How many Assumes failed.
    pub fails: u64,
    /// The first `MAX_NOTES` rebuilt stacks, in order.
    pub notes: Notes,
    /// All lookups, in order.
    pub looks: Looks,
}

impl Duplicate for Look {
    fn copy(&self) -> Result<Look, NoMemory> {
        Ok(*self)
    }
}
