//! The words of operands, expressions and guards.

ghost use Rattle.std.specs.Prelude.{◌≡◌, ◌++◌, ◌∷◌, OnOk};
ghost use Rattle.cj_spelling.specs.Kinds.{expr_number};
ghost use Rattle.cj_spelling.specs.Spelling.{operand_words, two_operands, expr_words, guard_words};
ghost use Rattle.cj_spelling.specs.Values.{HasOperandValue, HasTwoValues, HasExprValues, HasGuardValue};

use crate::counts::added;
use crate::kinds::ExprKind;
use crate::spelled::{Spelled, Words};
use cj_ir::{Expr, Guard, NoMemory, Operand};

impl Spelled for Operand {
    ghost words_of = { operand_words };

    ghost has_values = { HasOperandValue };

    fn count(&self, so_far: u64) -> u64 {
        added(so_far, 2)
    }

    fn write(&self, out: &mut Words) -> Result<(), NoMemory> {
        match *self {
            Operand::Reg(reg) => {
                out.push(0)?;
                reg.write(out)
            }
            Operand::Const(value) => {
                out.push(1)?;
                out.push(value.cast_unsigned())
            }
        }
    }
}

// The words of two operands behind the number of their operator.
fn write_two(kind: ExprKind, one: Operand, other: Operand, out: &mut Words) -> Result<(), NoMemory>
    ensures words { OnOk result (out.new ≡ out.old ++ expr_number kind ∷ two_operands one other) }
    ensures values { OnOk result (HasTwoValues one other) }
{
    out.push(kind.number())?;
    one.write(out)?;
    other.write(out)
}

// The words of an operand behind the number of its operator.
fn write_one(kind: ExprKind, operand: Operand, out: &mut Words) -> Result<(), NoMemory>
    ensures words { OnOk result (out.new ≡ out.old ++ expr_number kind ∷ operand_words operand) }
    ensures values { OnOk result (HasOperandValue operand) }
{
    out.push(kind.number())?;
    operand.write(out)
}

impl Spelled for Expr {
    ghost words_of = { expr_words };

    ghost has_values = { HasExprValues };

    fn count(&self, so_far: u64) -> u64 {
        match self {
            Expr::Copy(_) | Expr::Neg(_) | Expr::Eqz(_) => added(so_far, 3),
            Expr::Add(_, _)
            | Expr::Sub(_, _)
            | Expr::Mul(_, _)
            | Expr::Div(_, _)
            | Expr::Rem(_, _)
            | Expr::Eq(_, _)
            | Expr::Lt(_, _) => added(so_far, 5),
        }
    }

    fn write(&self, out: &mut Words) -> Result<(), NoMemory> {
        match *self {
            Expr::Copy(a) => write_one(ExprKind::Copy, a, out),
            Expr::Neg(a) => write_one(ExprKind::Neg, a, out),
            Expr::Eqz(a) => write_one(ExprKind::Eqz, a, out),
            Expr::Add(a, b) => write_two(ExprKind::Add, a, b, out),
            Expr::Sub(a, b) => write_two(ExprKind::Sub, a, b, out),
            Expr::Mul(a, b) => write_two(ExprKind::Mul, a, b, out),
            Expr::Div(a, b) => write_two(ExprKind::Div, a, b, out),
            Expr::Rem(a, b) => write_two(ExprKind::Rem, a, b, out),
            Expr::Eq(a, b) => write_two(ExprKind::Eq, a, b, out),
            Expr::Lt(a, b) => write_two(ExprKind::Lt, a, b, out),
        }
    }
}

impl Spelled for Guard {
    ghost words_of = { guard_words };

    ghost has_values = { HasGuardValue };

    fn count(&self, so_far: u64) -> u64 {
        match self {
            Guard::Never => added(so_far, 1),
            Guard::Is { .. } => added(so_far, 3),
        }
    }

    fn write(&self, out: &mut Words) -> Result<(), NoMemory> {
        match *self {
            Guard::Never => out.push(0),
            Guard::Is { reg, value } => {
                out.push(1)?;
                reg.write(out)?;
                out.push(value.cast_unsigned())
            }
        }
    }
}
