//! The operators between two operands.

ghost use Rattle.std.specs.Prelude.{◌≡◌};
ghost use Rattle.cj_reader.specs.Reading.{operator_of, applied};

use cj_ir::{Expr, Operand};
use cj_tokens::Terminal;

/// An operator between two operands.
#[derive(Clone, Copy, Debug, PartialEq, Eq)]
pub enum Operator {
    Add,
    Sub,
    Mul,
    Div,
    Rem,
    Eq,
    Lt,
}

/// The operator that a mark is.
#[tactic(auto, unfolding(crate::specs::Reading::operator_of))]
pub fn operator_at(mark: Terminal) -> Option<Operator>
    ensures { result ≡ operator_of mark }
{
    match mark {
        Terminal::Plus => Some(Operator::Add),
        Terminal::Minus => Some(Operator::Sub),
        Terminal::Star => Some(Operator::Mul),
        Terminal::Slash => Some(Operator::Div),
        Terminal::Percent => Some(Operator::Rem),
        Terminal::Equals => Some(Operator::Eq),
        Terminal::Less => Some(Operator::Lt),
        _ => None,
    }
}

/// The operator between these operands.
pub fn applied(operator: Operator, left: Operand, right: Operand) -> Expr
    ensures { result ≡ applied operator left right }
{
    match operator {
        Operator::Add => Expr::Add(left, right),
        Operator::Sub => Expr::Sub(left, right),
        Operator::Mul => Expr::Mul(left, right),
        Operator::Div => Expr::Div(left, right),
        Operator::Rem => Expr::Rem(left, right),
        Operator::Eq => Expr::Eq(left, right),
        Operator::Lt => Expr::Lt(left, right),
    }
}
