//! Frames at their entry.

ghost use Rattle.std.specs.Prelude.{◌≡◌, ◌++◌, pos, replicate, IfOk, OnOk};
ghost use Rattle.cj_ir.specs.Program.{reg_count};
ghost use Rattle.cj_base.specs.Machine.{entry_frame};

use crate::machine::Frame;
use cj_ir::{FunId, Label, NoMemory, Program, Values};

/// A function's frame as it is entered, at its first label: the arguments stand in its first registers, and 0 in
/// all others.
#[tactic(auto, unfolding(crate::specs::Machine::entry_frame, crate::specs::Machine::entry_regs))]
pub fn entry_frame(program: &Program, function: FunId, args: Values) -> Result<Frame, NoMemory>
    ensures { IfOk result (λ frame. frame ≡ entry_frame program.now function args) }
{
    let mut regs = args;
    let given = regs.items().len();
    let count = reg_count(program, function);
    push_zeros(&mut regs, count.saturating_sub(given))?;
    Ok(Frame {
        function,
        label: Label(0),
        regs,
    })
}

/// Appends that many zeros. Want of memory may leave some of them.
pub fn push_zeros(values: &mut Values, count: usize) -> Result<(), NoMemory>
    ensures { OnOk result (values.new ≡ values.old ++ replicate count (pos 0)) }
{
    for _ in 0..count {
        values.push(0)?;
    }
    Ok(())
}

// A function's number of registers.
fn reg_count(program: &Program, function: FunId) -> usize
    ensures { result ≡ reg_count program.now function }
{
    match program.functions.items().get(function.0 as usize) {
        None => 0,
        Some(function) => function.regs.items().len(),
    }
}
