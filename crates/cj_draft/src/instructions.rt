//! Instructions of versions and drafts.

ghost use Rattle.std.specs.Prelude.{◌≡◌, IfOk};
ghost use Rattle.cj_draft.specs.declared.instructions.VInstr.TheVariants.{Move, Call, Assume, Anchor};

use crate::points::Point;
use cj_ir::{Duplicate, Expr, FunId, Guards, Label, NoMemory, Operand, Operands, Reg, Sequence};

/// One assignment of a move.
#[derive(Clone, Copy, Debug, PartialEq, Eq)]
pub struct Pair {
    pub dest: Reg,
    pub value: Operand,
}

/// Assignments that are made at once, to different registers.
pub type Pairs = Sequence<Pair>;

/// An instruction of a version or a draft.
#[derive(Debug, Drop)]
pub enum VInstr {
    Nop {
        next: Label,
    },
    Op {
        dest: Reg,
        expr: Expr,
        next: Label,
    },
    Move {
        pairs: Pairs,
        next: Label,
    },
    Cond {
        test: Operand,
        then_to: Label,
        else_to: Label,
    },
    Call {
        dest: Reg,
        function: FunId,
        args: Operands,
        next: Label,
    },
    Return {
        value: Operand,
    },
    Print {
        value: Operand,
        next: Label,
    },
    Load {
        dest: Reg,
        address: Operand,
        next: Label,
    },
    Store {
        address: Operand,
        value: Operand,
        next: Label,
    },
    /// Ends the run with the failure of the base function's label.
    Fail {
        function: FunId,
        label: Label,
    },
    /// Goes on where all guards hold. Otherwise the run leaves the version for the base frames of the target, `back`
    /// base turns ago.
    Assume {
        guards: Guards,
        back: u32,
        target: Point,
        next: Label,
    },
    /// Marks a place at which an Assume may stand. Versions have none.
    Anchor {
        back: u32,
        target: Point,
        next: Label,
    },
}

impl Duplicate for Pair {
    fn copy(&self) -> Result<Pair, NoMemory> {
        Ok(*self)
    }
}

impl Duplicate for VInstr {
    fn copy(&self) -> Result<VInstr, NoMemory> {
        match *self {
            VInstr::Nop { next } => Ok(VInstr::Nop { next }),
            VInstr::Op { dest, expr, next } => Ok(VInstr::Op { dest, expr, next }),
            VInstr::Move { ref pairs, next } => copied_move(pairs, next),
            VInstr::Cond {
                test,
                then_to,
                else_to,
            } => Ok(VInstr::Cond {
                test,
                then_to,
                else_to,
            }),
            VInstr::Call {
                dest,
                function,
                ref args,
                next,
            } => copied_call(dest, function, args, next),
            VInstr::Return { value } => Ok(VInstr::Return { value }),
            VInstr::Print { value, next } => Ok(VInstr::Print { value, next }),
            VInstr::Load {
                dest,
                address,
                next,
            } => Ok(VInstr::Load {
                dest,
                address,
                next,
            }),
            VInstr::Store {
                address,
                value,
                next,
            } => Ok(VInstr::Store {
                address,
                value,
                next,
            }),
            VInstr::Fail { function, label } => Ok(VInstr::Fail { function, label }),
            VInstr::Assume {
                ref guards,
                back,
                ref target,
                next,
            } => copied_assume(guards, back, target, next),
            VInstr::Anchor {
                back,
                ref target,
                next,
            } => copied_anchor(back, target, next),
        }
    }
}

/// The Move of a copy of these assignments. Fails only for want of memory.
fn copied_move(pairs: &Pairs, next: Label) -> Result<VInstr, NoMemory>
    ensures { IfOk result (λ twin. twin ≡ Move pairs.now next) }
{
    let pairs = pairs.copy()?;
    Ok(VInstr::Move { pairs, next })
}

/// The Call with a copy of these arguments. Fails only for want of memory.
fn copied_call(dest: Reg, function: FunId, args: &Operands, next: Label) -> Result<VInstr, NoMemory>
    ensures { IfOk result (λ twin. twin ≡ Call dest function args.now next) }
{
    let args = args.copy()?;
    Ok(VInstr::Call {
        dest,
        function,
        args,
        next,
    })
}

/// The Assume of copies of these guards and this target. Fails only for want of memory.
fn copied_assume(
    guards: &Guards,
    back: u32,
    target: &Point,
    next: Label,
) -> Result<VInstr, NoMemory>
    ensures { IfOk result (λ twin. twin ≡ Assume guards.now back target.now next) }
{
    let guards = guards.copy()?;
    let target = target.copy()?;
    Ok(VInstr::Assume {
        guards,
        back,
        target,
        next,
    })
}

/// The Anchor of a copy of this target. Fails only for want of memory.
fn copied_anchor(back: u32, target: &Point, next: Label) -> Result<VInstr, NoMemory>
    ensures { IfOk result (λ twin. twin ≡ Anchor back target.now next) }
{
    let target = target.copy()?;
    Ok(VInstr::Anchor { back, target, next })
}
