//! Scripts: hints for the profile, and the calls to be made.

use crate::checker::Checked;
use crate::duplicate::Duplicate;
use crate::language::{Edge, FunId, Label, Values};
use crate::memory::NoMemory;
use crate::sequence::Sequence;

/// A hint for the profile.
#[derive(Clone, Copy, Debug, PartialEq, Eq)]
pub enum Setup {
    /// Expects that value of a parameter, which is counted from 0.
    Guess {
        function: FunId,
        param: u32,
        value: i64,
    },
    /// Expects that an edge of a `cond` is never taken.
    Cold {
        function: FunId,
        label: Label,
        edge: Edge,
    },
    /// Compiles a function at a level from 1 to 3 before the calls.
    Warm {
        function: FunId,
        level: u8,
    },
}

/// A call of a script: its arguments, the cells of its memory (at most 65,536), and its limit of turns
/// (1 to 1,000,000).
#[derive(Debug, Drop)]
pub struct ScriptCall {
    pub function: FunId,
    pub args: Values,
    pub cells: u32,
    pub limit: u32,
}

pub type Setups = Sequence<Setup>;

pub type ScriptCalls = Sequence<ScriptCall>;

/// What follows the program in a text: the hints, and then the calls.
#[derive(Debug, Drop)]
pub struct Script {
    pub setups: Setups,
    pub calls: ScriptCalls,
}

/// A program with its script.
#[derive(Debug, Drop)]
pub struct Input {
    pub checked: Checked,
    pub script: Script,
}

impl Duplicate for ScriptCall {
    fn copy(&self) -> Result<ScriptCall, NoMemory> {
        let args = self.args.copy()?;
        Ok(ScriptCall {
            function: self.function,
            args,
            cells: self.cells,
            limit: self.limit,
        })
    }
}

impl Duplicate for Setup {
    fn copy(&self) -> Result<Setup, NoMemory> {
        Ok(*self)
    }
}
