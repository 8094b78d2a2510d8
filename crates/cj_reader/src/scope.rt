//! What is known where an instruction stands.

ghost use Rattle.cj_ir.specs.declared.limits.TheConstants.{MAX_REGS};
ghost use Rattle.std.specs.Prelude.{◌≤◌, length};

use cj_ir::{FunId, Name};
use indexmap::IndexMap;

/// A function that may be called, with its number of parameters.
#[derive(Clone, Copy, Debug, PartialEq, Eq)]
pub struct Callee {
    pub function: FunId,
    pub params: u32,
}

/// The lines of a function: how many there are, and for each number the place of the first line that has it.
#[derive(Drop)]
pub struct Labels {
    pub places: IndexMap<i64, u32>,
    pub count: u32,
}

/// The functions of a text: how many there are, and for each name the first one that has it.
#[derive(Drop)]
pub struct Functions<'a> {
    pub callees: IndexMap<&'a [u8], Callee>,
    pub count: u32,
}

/// What is known where an instruction stands: the registers, the lines and the functions.
#[derive(Clone, Copy)]
pub struct Scope<'s> {
    pub registers: &'s [Name],
    pub labels: &'s Labels,
    pub functions: &'s Functions<'s>,
    ghost few: { length registers.now ≤ MAX_REGS },
}
