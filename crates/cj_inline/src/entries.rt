//! The move that enters the callee.

ghost use Rattle.std.specs.Prelude.{◌≡◌, ◌+◌, ◌<◌, ◌≤◌, IfOk};
ghost use Rattle.cj_draft.specs.Inlining.{entry_pairs};
ghost use Rattle.cj_draft.specs.declared.instructions.VInstr.TheVariants.{Move};
ghost use Rattle.cj_inline.specs.Entries.{entry_pair};
ghost use Rattle.cj_draft.specs.declared.limits.TheConstants.{MAX_CODE_REGS};

use cj_draft::{Pair, Pairs, VInstr};
use cj_ir::{Label, NoMemory, Operand, Reg};
use std::alloc::Global;

/// The move to the callee's entry, which stands in the place of the call: the callee's registers, so many after the
/// caller's, get the arguments, and 0 after them.
pub(crate) fn entry_move(
    alloc: Global,
    regs: u32,
    count: u32,
    to: Label,
    args: &[Operand],
) -> Result<VInstr, NoMemory>
    requires { regs + count ≤ MAX_CODE_REGS }
    ensures { IfOk result (λ made. made ≡ Move (entry_pairs regs args.now count) to) }
{
    let pairs = entry_pairs(alloc, regs, args, count)?;
    Ok(VInstr::Move { pairs, next: to })
}

/// The assignments to the callee's registers, from `first` on.
fn entry_pairs(alloc: Global, first: u32, args: &[Operand], count: u32) -> Result<Pairs, NoMemory>
    requires { first + count ≤ MAX_CODE_REGS }
    ensures { IfOk result (λ pairs. pairs ≡ entry_pairs first args.now count) }
{
    let mut pairs = Pairs::new(alloc);
    for index in 0..count {
        pairs.push(entry_pair(first, args, index))?;
    }
    Ok(pairs)
}

/// The assignment to the callee's register of that number.
#[tactic(auto, unfolding(crate::specs::Entries::entry_pair, crate::specs::Entries::or_zero))]
fn entry_pair(first: u32, args: &[Operand], index: u32) -> Pair
    requires { first + index < MAX_CODE_REGS }
    ensures { result ≡ entry_pair first args.now index }
{
    let value = match args.get(index as usize) {
        Some(&arg) => arg,
        None => Operand::Const(0),
    };
    Pair {
        dest: Reg(first + index),
        value,
    }
}
