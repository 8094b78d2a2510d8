//! What is known of registers.

ghost use Rattle.std.specs.Prelude.{◌≡◌, ◌<◌, All, IfOk, length, slice_set};
ghost use Rattle.cj_const.specs.Knowledge.{told_by, known, known_value, folded_operand, folded_operands, is_constant, are_constants, evaluated};

use cj_draft::Fact;
use cj_ir::{Expr, NoMemory, Operand, Reg, Sequence, eval};
use std::alloc::Global;

/// For each register of a code its value, where it is known.
pub type Row = Sequence<Option<i64>>;

/// What is known of an expression's value.
#[derive(Clone, Copy)]
pub enum Outcome {
    /// An operand is not known.
    Unknown,
    Value(i64),
    /// There is none, since the divisor is 0.
    ZeroDivisor,
}

/// What the facts tell of a register.
fn told_by(facts: &[Fact], reg: Reg) -> Option<i64>
    ensures { result ≡ told_by facts.now reg.0 }
{
    for fact in facts {
        if fact.reg.0 == reg.0 {
            return Some(fact.value);
        }
    }
    None
}

/// The row of a code with that many registers, of which all facts speak.
pub fn row_of(alloc: Global, facts: &[Fact], regs: u32) -> Result<Row, NoMemory>
    requires { All (λ fact. fact.reg.0 < regs) facts.now }
    ensures told { IfOk result (λ row. known row ≡ told_by facts.now) }
    ensures width { IfOk result (λ row. length row ≡ regs) }
{
    let mut row = Row::new(alloc);
    for reg in 0..regs {
        row.push(told_by(facts, Reg(reg)))?;
    }
    Ok(row)
}

/// The row with other knowledge of a register.
pub(crate) fn with_known(row: &Row, dest: Reg, now: Option<i64>) -> Result<Row, NoMemory>
    requires { dest.0 < length row.now }
    ensures { IfOk result (λ made. made ≡ slice_set row.now dest.0 now) }
{
    let mut made = copied(row)?;
    made.set(dest.0 as usize, now);
    Ok(made)
}

pub(crate) fn copied(row: &Row) -> Result<Row, NoMemory>
    ensures { IfOk result (λ twin. twin ≡ row.now) }
{
    let mut twin = Row::new(row.allocator());
    for &slot in row.items() {
        twin.push(slot)?;
    }
    Ok(twin)
}

/// What the row knows of a register.
#[tactic(auto, unfolding(crate::specs::Knowledge::known))]
pub fn known(row: &[Option<i64>], reg: Reg) -> Option<i64>
    ensures { result ≡ known row.now reg.0 }
{
    match row.get(reg.0 as usize) {
        None => None,
        Some(&value) => value,
    }
}

/// The operand's value, where the row knows it.
#[tactic(auto, unfolding(crate::specs::Knowledge::known_value))]
pub fn known_value(row: &[Option<i64>], operand: &Operand) -> Option<i64>
    ensures { result ≡ known_value (known row.now) operand.now }
{
    match *operand {
        Operand::Reg(reg) => known(row, reg),
        Operand::Const(value) => Some(value),
    }
}

/// The operand, and a constant in its place where its value is known.
#[tactic(auto, unfolding(crate::specs::Knowledge::folded_operand, crate::specs::Knowledge::constant_or))]
pub(crate) fn folded_operand(row: &[Option<i64>], operand: &Operand) -> Operand
    ensures { result ≡ folded_operand (known row.now) operand.now }
{
    match known_value(row, operand) {
        None => *operand,
        Some(value) => Operand::Const(value),
    }
}

/// The expression with constants in the place of operands whose values are known.
#[tactic(auto, unfolding(cj_draft::specs::Operands::with_operands))]
pub fn folded_operands(row: &[Option<i64>], expr: &Expr) -> Expr
    ensures { result ≡ folded_operands (known row.now) expr.now }
{
    let folded = |operand: &Operand| folded_operand(row, operand);
    match expr {
        Expr::Copy(a) => Expr::Copy(folded(a)),
        Expr::Neg(a) => Expr::Neg(folded(a)),
        Expr::Eqz(a) => Expr::Eqz(folded(a)),
        Expr::Add(a, b) => Expr::Add(folded(a), folded(b)),
        Expr::Sub(a, b) => Expr::Sub(folded(a), folded(b)),
        Expr::Mul(a, b) => Expr::Mul(folded(a), folded(b)),
        Expr::Div(a, b) => Expr::Div(folded(a), folded(b)),
        Expr::Rem(a, b) => Expr::Rem(folded(a), folded(b)),
        Expr::Eq(a, b) => Expr::Eq(folded(a), folded(b)),
        Expr::Lt(a, b) => Expr::Lt(folded(a), folded(b)),
    }
}

#[tactic(auto, unfolding(crate::specs::Knowledge::is_constant))]
fn is_constant(operand: &Operand) -> bool
    ensures { result ≡ is_constant operand.now }
{
    match operand {
        Operand::Reg(_) => false,
        Operand::Const(_) => true,
    }
}

#[tactic(auto, unfolding(crate::specs::Knowledge::are_constants))]
fn are_constants(expr: &Expr) -> bool
    ensures { result ≡ are_constants expr.now }
{
    match expr {
        Expr::Copy(a) | Expr::Neg(a) | Expr::Eqz(a) => is_constant(a),
        Expr::Add(a, b)
        | Expr::Sub(a, b)
        | Expr::Mul(a, b)
        | Expr::Div(a, b)
        | Expr::Rem(a, b)
        | Expr::Eq(a, b)
        | Expr::Lt(a, b) => is_constant(a) && is_constant(b),
    }
}

/// What is known of the expression's value.
#[tactic(auto, unfolding(crate::specs::Knowledge::evaluated, crate::specs::Knowledge::outcome_of))]
pub fn evaluated(expr: &Expr) -> Outcome
    ensures { result ≡ evaluated expr.now }
{
    if !are_constants(expr) {
        return Outcome::Unknown;
    }
    match eval(expr, &[]) {
        None => Outcome::ZeroDivisor,
        Some(value) => Outcome::Value(value),
    }
}
