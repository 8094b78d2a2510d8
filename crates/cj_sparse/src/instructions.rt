//! What instructions read and assign, and where they go on.

ghost use Rattle.std.specs.Prelude.{◌≡◌, ◌==◌};
ghost use Rattle.std.specs.List.{list_any};
ghost use Rattle.std.specs.Option.{is_some};
ghost use Rattle.cj_ir.specs.Values.{expr_operands};
ghost use Rattle.cj_ir.specs.declared.language.Reg.{Reg};
ghost use Rattle.cj_const.specs.Knowledge.{known, known_value, folded_operands, evaluated};
ghost use Rattle.cj_const.specs.Flow.{after_op, along, leaves};
ghost use Rattle.cj_sparse.specs.Reading.{is_register, is_guarded, reads, assigns};

use crate::guards::may_hold;
use cj_const::flow::branch;
use cj_const::knowledge::{Outcome, Row, evaluated, folded_operands, known_value};
use cj_draft::{Pair, VInstr};
use cj_ir::{Expr, Guard, Label, Operand, Reg};

#[tactic(auto, unfolding(crate::specs::Reading::is_register))]
fn is_register(operand: &Operand, reg: Reg) -> bool
    ensures { result ≡ is_register reg.0 operand.now }
{
    match operand {
        Operand::Reg(other) => other.0 == reg.0,
        Operand::Const(_) => false,
    }
}

#[tactic(auto, unfolding(crate::specs::Reading::is_guarded))]
fn is_guarded(guard: &Guard, reg: Reg) -> bool
    ensures { result ≡ is_guarded reg.0 guard.now }
{
    match guard {
        Guard::Is { reg: guarded, .. } => guarded.0 == reg.0,
        Guard::Never => false,
    }
}

/// Whether the register is one of the expression's operands.
fn is_operand(expr: &Expr, reg: Reg) -> bool
    ensures { result ≡ list_any (is_register reg.0) (expr_operands expr.now) }
{
    match expr {
        Expr::Copy(a) | Expr::Neg(a) | Expr::Eqz(a) => is_register(a, reg),
        Expr::Add(a, b)
        | Expr::Sub(a, b)
        | Expr::Mul(a, b)
        | Expr::Div(a, b)
        | Expr::Rem(a, b)
        | Expr::Eq(a, b)
        | Expr::Lt(a, b) => is_register(a, reg) || is_register(b, reg),
    }
}

fn is_moved(pairs: &[Pair], reg: Reg) -> bool
    ensures { result ≡ list_any (λ pair. is_register reg.0 pair.value) pairs.now }
{
    pairs.iter().any(|pair| is_register(&pair.value, reg))
}

fn is_any_guarded(guards: &[Guard], reg: Reg) -> bool
    ensures { result ≡ list_any (is_guarded reg.0) guards.now }
{
    guards.iter().any(|guard| is_guarded(guard, reg))
}

/// Whether what is known of the register decides where the instruction goes on, or what other registers have then.
#[tactic(auto, unfolding(crate::specs::Reading::reads))]
pub(crate) fn reads(instr: &VInstr, reg: Reg) -> bool
    ensures { result ≡ reads instr.now reg.0 }
{
    match instr {
        VInstr::Op { expr, .. } => is_operand(expr, reg),
        VInstr::Move { pairs, .. } => is_moved(pairs.items(), reg),
        VInstr::Cond { test, .. } => is_register(test, reg),
        VInstr::Assume { guards, .. } => is_any_guarded(guards.items(), reg),
        _ => false,
    }
}

fn is_dest(pairs: &[Pair], reg: Reg) -> bool
    ensures { result ≡ list_any (λ pair. pair.dest.0 == reg.0) pairs.now }
{
    pairs.iter().any(|pair| pair.dest.0 == reg.0)
}

/// Whether the instruction gives the register a value of its own.
#[tactic(auto, unfolding(crate::specs::Reading::assigns))]
pub(crate) fn assigns(instr: &VInstr, reg: Reg) -> bool
    ensures { result ≡ assigns instr.now reg.0 }
{
    match instr {
        VInstr::Op { dest, .. } | VInstr::Call { dest, .. } | VInstr::Load { dest, .. } => {
            dest.0 == reg.0
        }
        VInstr::Move { pairs, .. } => is_dest(pairs.items(), reg),
        _ => false,
    }
}

/// Whether an expression may have a value over what the row knows.
#[tactic(auto, unfolding(cj_const::specs::Flow::after_op))]
fn may_have_value(row: &Row, expr: &Expr) -> bool
    ensures { (dest : Reg) → result ≡ is_some (after_op (known row.now) dest (evaluated (folded_operands (known row.now) expr.now))) }
{
    match evaluated(&folded_operands(row.items(), expr)) {
        Outcome::ZeroDivisor => false,
        Outcome::Unknown | Outcome::Value(_) => true,
    }
}

/// Whether a cond with this test may go on to a label.
#[tactic(auto, unfolding(cj_const::specs::Flow::along))]
fn may_take(row: &Row, test: &Operand, then_to: Label, else_to: Label, to: Label) -> bool
    ensures { result ≡ is_some (along (known row.now) (known_value (known row.now) test.now) then_to else_to to) }
{
    match known_value(row.items(), test) {
        None => true,
        Some(value) => branch(value, then_to, else_to).0 == to.0,
    }
}

/// Whether anything leaves the instruction along its edge to a label.
#[tactic(auto, unfolding(cj_const::specs::Flow::leaves))]
pub(crate) fn goes_on(row: &Row, instr: &VInstr, to: Label) -> bool
    ensures { result ≡ is_some (leaves (known row.now) instr.now to) }
{
    match *instr {
        VInstr::Op { ref expr, .. } => may_have_value(row, expr),
        VInstr::Cond {
            ref test,
            then_to,
            else_to,
        } => may_take(row, test, then_to, else_to, to),
        VInstr::Assume { ref guards, .. } => may_hold(row.items(), guards.items()),
        VInstr::Return { .. } | VInstr::Fail { .. } => false,
        _ => true,
    }
}
