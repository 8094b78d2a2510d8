//! Instructions over what is known of their registers.

ghost use Rattle.std.specs.Prelude.{◌≡◌, IfOk, OnOk, map, List};
ghost use Rattle.std.specs.List.{list_any, filter};
ghost use Rattle.cj_const.specs.Knowledge.{known, folded_operand};
ghost use Rattle.cj_const.specs.Folding.{folded_expr, folded_pair, folded_cond, is_false, is_open, folded_guards, folded_instr};

use crate::flow::branch;
use crate::knowledge::{
    Outcome, Row, evaluated, folded_operand, folded_operands, known, known_value,
};
use cj_draft::{Pair, Pairs, VInstr};
use cj_ir::{Expr, Guard, Guards, Label, NoMemory, Operand, Operands};

/// The expression with constants in the place of known registers, or a copy of its value where it has one.
#[tactic(auto, unfolding(crate::specs::Folding::folded_expr, crate::specs::Folding::copy_or))]
fn folded_expr(row: &Row, expr: &Expr) -> Expr
    ensures { result ≡ folded_expr (known row.now) expr.now }
{
    let folded = folded_operands(row.items(), expr);
    match evaluated(&folded) {
        Outcome::Value(value) => Expr::Copy(Operand::Const(value)),
        Outcome::Unknown | Outcome::ZeroDivisor => folded,
    }
}

/// The assignments with constants in the place of known registers.
fn folded_pairs(row: &Row, pairs: &Pairs) -> Result<Pairs, NoMemory>
    ensures { IfOk result (λ made. made ≡ map (folded_pair (known row.now)) pairs.now) }
{
    let mut made = Pairs::new(pairs.allocator());
    for pair in pairs.items() {
        made.push(folded_pair(row, pair))?;
    }
    Ok(made)
}

#[tactic(auto, unfolding(crate::specs::Folding::folded_pair))]
fn folded_pair(row: &Row, pair: &Pair) -> Pair
    ensures { result ≡ folded_pair (known row.now) pair.now }
{
    let value = folded_operand(row.items(), &pair.value);
    Pair {
        dest: pair.dest,
        value,
    }
}

/// The arguments with constants in the place of known registers.
fn folded_args(row: &Row, args: &Operands) -> Result<Operands, NoMemory>
    ensures { IfOk result (λ made. made ≡ map (folded_operand (known row.now)) args.now) }
{
    let mut made = Operands::new(args.allocator());
    for operand in args.items() {
        made.push(folded_operand(row.items(), operand))?;
    }
    Ok(made)
}

/// A cond, or a nop to the label that it takes where its test is known.
#[tactic(auto, unfolding(crate::specs::Folding::folded_cond))]
fn folded_cond(test: Operand, value: Option<i64>, then_to: Label, else_to: Label) -> VInstr
    ensures { result ≡ folded_cond test value then_to else_to }
{
    match value {
        None => VInstr::Cond {
            test,
            then_to,
            else_to,
        },
        Some(value) => VInstr::Nop {
            next: branch(value, then_to, else_to),
        },
    }
}

/// Whether a guard is false. `never` always is.
#[tactic(auto, unfolding(crate::specs::Folding::is_false, crate::specs::Folding::is_other))]
fn is_false(row: &Row, guard: &Guard) -> bool
    ensures { result ≡ is_false (known row.now) guard.now }
{
    match *guard {
        Guard::Is { reg, value } => match known(row.items(), reg) {
            None => false,
            Some(known) => known != value,
        },
        Guard::Never => true,
    }
}

/// Whether nothing is known of a guard's register.
#[tactic(auto, unfolding(crate::specs::Folding::is_open, crate::specs::Folding::is_open_at))]
fn is_open(row: &Row, guard: &Guard) -> bool
    ensures { result ≡ is_open (known row.now) guard.now }
{
    match *guard {
        Guard::Is { reg, .. } => match known(row.items(), reg) {
            None => true,
            Some(_) => false,
        },
        Guard::Never => true,
    }
}

fn is_any_false(row: &Row, guards: &[Guard]) -> bool
    ensures { result ≡ list_any (is_false (known row.now)) guards.now }
{
    guards.iter().any(|guard| is_false(row, guard))
}

fn open_guards(row: &Row, guards: &Guards) -> Result<Guards, NoMemory>
    ensures { IfOk result (λ made. made ≡ filter (is_open (known row.now)) guards.now) }
{
    let mut made = Guards::new(guards.allocator());
    for guard in guards.items() {
        if is_open(row, guard) {
            made.push(*guard)?;
        }
    }
    Ok(made)
}

/// `never` alone where a guard is false; else those that are not known to be true.
#[tactic(auto, unfolding(crate::specs::Folding::folded_guards))]
fn folded_guards(row: &Row, guards: &Guards) -> Result<Guards, NoMemory>
    ensures { IfOk result (λ made. made ≡ folded_guards (known row.now) guards.now) }
{
    if is_any_false(row, guards.items()) {
        let mut made = Guards::new(guards.allocator());
        made.push(Guard::Never)?;
        return Ok(made);
    }
    open_guards(row, guards)
}

/// Folds an instruction over what the row knows.
#[tactic(auto, unfolding(crate::specs::Folding::folded_instr))]
pub(crate) fn fold_instr(row: &Row, instr: &mut VInstr) -> Result<(), NoMemory>
    ensures { OnOk result (instr.new ≡ folded_instr (known row.now) instr.old) }
{
    match instr {
        VInstr::Op { expr, .. } => *expr = folded_expr(row, expr),
        VInstr::Move { pairs, .. } => *pairs = folded_pairs(row, pairs)?,
        VInstr::Cond {
            test,
            then_to,
            else_to,
        } => {
            let value = known_value(row.items(), test);
            *instr = folded_cond(*test, value, *then_to, *else_to);
        }
        VInstr::Call { args, .. } => *args = folded_args(row, args)?,
        VInstr::Return { value } => *value = folded_operand(row.items(), value),
        VInstr::Print { value, .. } => *value = folded_operand(row.items(), value),
        VInstr::Load { address, .. } => *address = folded_operand(row.items(), address),
        VInstr::Store { address, value, .. } => {
            *address = folded_operand(row.items(), address);
            *value = folded_operand(row.items(), value);
        }
        VInstr::Assume { guards, .. } => *guards = folded_guards(row, guards)?,
        VInstr::Nop { .. } | VInstr::Fail { .. } | VInstr::Anchor { .. } => {}
    }
    Ok(())
}
