//! Frames and configurations.

use cj_ir::{Duplicate, FunId, Label, NoMemory, Reg, Sequence, Values};

/// An activation of a function: the label at which it stands, and one value for each register of the function.
#[derive(Debug, Drop)]
pub struct Frame {
    pub function: FunId,
    pub label: Label,
    pub regs: Values,
}

/// An activation that waits for a call's value, at the label after the call. `dest` is the register that the value
/// goes into.
#[derive(Debug, Drop)]
pub struct Waiting {
    pub function: FunId,
    pub label: Label,
    pub regs: Values,
    pub dest: Reg,
}

/// Waiting frames, the innermost last.
pub type Stack = Sequence<Waiting>;

/// Waiting frames, the innermost first.
pub type Waitings = Sequence<Waiting>;

/// A state of the base machine. The cells of the memory have the addresses from 0.
#[derive(Debug, Drop)]
pub struct Config {
    pub top: Frame,
    pub waiting: Stack,
    pub memory: Values,
}

/// How a run ends.
#[derive(Clone, Copy, Debug, PartialEq, Eq)]
pub enum End {
    /// The called function returned this value.
    Returned(i64),
    /// A `fail` was executed there.
    Failed { function: FunId, label: Label },
    /// A load or store at this address, which is negative or not below the memory's size.
    Address(i64),
    /// A division by zero.
    Divide,
    /// As many turns were made as the call's limit says. No turn gives this end.
    TurnLimit,
}

/// Whether the run goes on after a turn.
#[derive(Clone, Copy, Debug, PartialEq, Eq)]
pub enum Turned {
    Running,
    /// The turn ended the run.
    Ended(End),
}

impl Duplicate for Frame {
    fn copy(&self) -> Result<Frame, NoMemory> {
        let regs = self.regs.copy()?;
        Ok(Frame {
            function: self.function,
            label: self.label,
            regs,
        })
    }
}

impl Duplicate for Waiting {
    fn copy(&self) -> Result<Waiting, NoMemory> {
        let regs = self.regs.copy()?;
        Ok(Waiting {
            function: self.function,
            label: self.label,
            regs,
            dest: self.dest,
        })
    }
}
