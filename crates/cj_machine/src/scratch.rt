//! A list of values that is used again and again.

ghost use Rattle.std.specs.Prelude.{◌≡◌, ◌≤◌, [], ◌++◌, length, map, All, IfOk, OnOk, IsOk};
ghost use Rattle.cj_ir.specs.Values.{operand_value, IsOperandWithin};
ghost use Rattle.cj_draft.specs.declared.limits.TheConstants.{MAX_CODE_REGS};

use cj_draft::limits::MAX_CODE_REGS;
use cj_draft::{Pair, Pairs};
use cj_ir::{NoMemory, Operand};
use std::alloc::Global;
use std::marker::Model;

/// Values that are read before registers are written: a call's arguments, and what a Move assigns. Contracts see the
/// list of them. It has room for as many values as a Move can assign.
#[derive(Debug, Drop)]
pub struct Scratch {
    values: Vec<i64>,
}

impl Model for Scratch {
    ghost use Rattle.std.specs.Prelude.{◌≤◌, List, ℤ, vec_capacity};
    ghost use Rattle.cj_draft.specs.declared.limits.TheConstants.{MAX_CODE_REGS};

    ghost Value = { List ℤ };

    ghost view = { λ s. s.values.items };

    ghost invariant = { λ s. MAX_CODE_REGS ≤ vec_capacity s.values };
}

impl Scratch {
    /// An empty list with its room.
    pub fn new(alloc: Global) -> Result<Scratch, NoMemory>
        ensures { IfOk result (λ scratch. scratch ≡ []) }
    {
        let values = Vec::with_capacity(alloc, MAX_CODE_REGS as usize)?;
        Ok(Scratch { values })
    }

    pub fn items(&self) -> &[i64]
        ensures { result.now ≡ self.now }
    {
        self.values.as_slice()
    }

    // Reads operands, over registers that have all of theirs.
    pub(crate) fn read(&mut self, operands: &[Operand], regs: &[i64]) -> Result<(), NoMemory>
        requires { All (IsOperandWithin (length regs.now)) operands.now }
        ensures { OnOk result (self.new ≡ map (operand_value regs.now) operands.now) }
    {
        self.values.clear();
        for operand in operands {
            self.values.push(operand.value(regs))?;
        }
        Ok(())
    }

    // Reads what a Move assigns. It takes no memory.
    pub(crate) fn read_pairs(&mut self, pairs: &Pairs, regs: &[i64])
        requires few { length pairs.now ≤ MAX_CODE_REGS }
        requires within { All (λ pair. IsOperandWithin (length regs.now) pair.value) pairs.now }
        ensures { self.new ≡ map (λ pair. operand_value regs.now pair.value) pairs.now }
    {
        self.values.clear();
        for pair in pairs.items() {
            let pushed = self.values.push(pair.value.value(regs));
            prove!(pushed.is_ok());
        }
    }
}
