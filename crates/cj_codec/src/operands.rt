//! Operands, expressions and guards, read from their words.

ghost use Rattle.std.specs.Prelude.{◌≡◌, ◌<◌, ◌≤◌, IfErr};
ghost use Rattle.cj_codec.specs.declared.reader.ReadError.TheVariants as read_error;
ghost use Rattle.cj_codec.specs.Reading.{operand_at, operands_at, expr_at, expr_by, guard_at};
ghost use Rattle.cj_spelling.specs.Kinds.{expr_number};
ghost use Rattle.cj_codec.specs.Answers.{left, Gives};

use crate::items::Item;
use crate::reader::{Limits, ReadError, WordReader};
use cj_ir::{Expr, Guard, Operand};
use cj_spelling::ExprKind;
use std::alloc::Global;

/// A register of the code or a constant.
#[tactic(auto, unfolding(crate::specs::Reading::operand_at))]
pub fn read_operand(words: &mut WordReader<'_>, limits: Limits) -> Result<Operand, ReadError>
    ensures reads { Gives result (left words.new) (operand_at limits (left words.old)) }
    ensures err { IfErr result (λ error. error ≡ read_error.NoSpelling) }
{
    match words.next()? {
        0 => {
            let reg = words.reg(limits)?;
            Ok(Operand::Reg(reg))
        }
        1 => {
            let value = words.value()?;
            Ok(Operand::Const(value))
        }
        _ => Err(ReadError::NoSpelling),
    }
}

impl Item for Operand {
    ghost reading = { operand_at };

    fn read(
        _alloc: Global,
        words: &mut WordReader<'_>,
        limits: Limits,
    ) -> Result<Operand, ReadError>
        ensures reads { Gives result (left words.new) (operand_at limits (left words.old)) }
        ensures err { IfErr result (λ error. error ≡ read_error.NoSpelling) }
    {
        read_operand(words, limits)
    }
}

// Two operands.
#[tactic(auto, unfolding(crate::specs::Reading::operands_at))]
fn read_operands(
    words: &mut WordReader<'_>,
    limits: Limits,
) -> Result<(Operand, Operand), ReadError>
    ensures reads { Gives result (left words.new) (operands_at limits (left words.old)) }
    ensures err { IfErr result (λ error. error ≡ read_error.NoSpelling) }
{
    let one = read_operand(words, limits)?;
    let other = read_operand(words, limits)?;
    Ok((one, other))
}

// An expression with one operand.
fn read_unary(kind: ExprKind, words: &mut WordReader<'_>, limits: Limits) -> Result<Expr, ReadError>
    requires { expr_number kind < 3 }
    ensures reads { Gives result (left words.new) (expr_by limits (expr_number kind) (left words.old)) }
    ensures err { IfErr result (λ error. error ≡ read_error.NoSpelling) }
{
    let a = read_operand(words, limits)?;
    Ok(match kind {
        ExprKind::Copy => Expr::Copy(a),
        ExprKind::Neg => Expr::Neg(a),
        _ => Expr::Eqz(a),
    })
}

// An expression with two operands.
fn read_binary(
    kind: ExprKind,
    words: &mut WordReader<'_>,
    limits: Limits,
) -> Result<Expr, ReadError>
    requires { 3 ≤ expr_number kind }
    ensures reads { Gives result (left words.new) (expr_by limits (expr_number kind) (left words.old)) }
    ensures err { IfErr result (λ error. error ≡ read_error.NoSpelling) }
{
    let (a, b) = read_operands(words, limits)?;
    Ok(match kind {
        ExprKind::Add => Expr::Add(a, b),
        ExprKind::Sub => Expr::Sub(a, b),
        ExprKind::Mul => Expr::Mul(a, b),
        ExprKind::Div => Expr::Div(a, b),
        ExprKind::Rem => Expr::Rem(a, b),
        ExprKind::Eq => Expr::Eq(a, b),
        _ => Expr::Lt(a, b),
    })
}

// An expression of that kind.
fn read_expr_kind(
    kind: ExprKind,
    words: &mut WordReader<'_>,
    limits: Limits,
) -> Result<Expr, ReadError>
    ensures reads { Gives result (left words.new) (expr_by limits (expr_number kind) (left words.old)) }
    ensures err { IfErr result (λ error. error ≡ read_error.NoSpelling) }
{
    match kind {
        ExprKind::Copy | ExprKind::Neg | ExprKind::Eqz => read_unary(kind, words, limits),
        ExprKind::Add
        | ExprKind::Sub
        | ExprKind::Mul
        | ExprKind::Div
        | ExprKind::Rem
        | ExprKind::Eq
        | ExprKind::Lt => read_binary(kind, words, limits),
    }
}

/// An expression.
#[tactic(auto, using(crate::proofs::NoKinds::no_expr), unfolding(crate::specs::Reading::expr_at))]
pub fn read_expr(words: &mut WordReader<'_>, limits: Limits) -> Result<Expr, ReadError>
    ensures reads { Gives result (left words.new) (expr_at limits (left words.old)) }
    ensures err { IfErr result (λ error. error ≡ read_error.NoSpelling) }
{
    let number = words.next()?;
    match ExprKind::of(number) {
        Some(kind) => read_expr_kind(kind, words, limits),
        None => Err(ReadError::NoSpelling),
    }
}

impl Item for Guard {
    ghost reading = { guard_at };

    #[tactic(auto, unfolding(crate::specs::Reading::guard_at))]
    fn read(_alloc: Global, words: &mut WordReader<'_>, limits: Limits) -> Result<Guard, ReadError>
        ensures reads { Gives result (left words.new) (guard_at limits (left words.old)) }
        ensures err { IfErr result (λ error. error ≡ read_error.NoSpelling) }
    {
        match words.next()? {
            0 => Ok(Guard::Never),
            1 => {
                let reg = words.reg(limits)?;
                let value = words.value()?;
                Ok(Guard::Is { reg, value })
            }
            _ => Err(ReadError::NoSpelling),
        }
    }
}
