//! What leaves a label along an edge.

ghost use Rattle.std.specs.Prelude.{◌≡◌, ◌<◌, All, IfOk, IfSome, length, Some};
ghost use Rattle.std.specs.Option.{option_map};
ghost use Rattle.cj_draft.specs.WellNamed.{IsGuardWithin};
ghost use Rattle.cj_base.specs.Machine.{branch};
ghost use Rattle.cj_const.specs.Knowledge.{known};
ghost use Rattle.cj_const.specs.Flow.{after_op, after_move, along, with_guard, with_guards, leaves};
ghost use Rattle.cj_const.specs.Search.{WritesWithin, arrived};

use crate::knowledge::{
    Outcome, Row, copied, evaluated, folded_operands, known, known_value, with_known,
};
use cj_draft::{Pair, VInstr};
use cj_ir::{Guard, Label, NoMemory, Reg};

/// After an op.
#[tactic(auto, unfolding(crate::specs::Flow::after_op), using(crate::proofs::Rows::known_after))]
fn after_op(row: &Row, dest: Reg, outcome: Outcome) -> Result<Option<Row>, NoMemory>
    requires { dest.0 < length row.now }
    ensures leaves { IfOk result (λ made. option_map known made ≡ after_op (known row.now) dest outcome) }
    ensures width { IfOk result (λ made. IfSome made (λ new. length new ≡ length row.now)) }
{
    let now = match outcome {
        Outcome::Unknown => None,
        Outcome::Value(value) => Some(value),
        Outcome::ZeroDivisor => return Ok(None),
    };
    let made = with_known(row, dest, now)?;
    Ok(Some(made))
}

/// After a move.
fn after_move(row: &Row, pairs: &[Pair]) -> Result<Row, NoMemory>
    requires { All (λ pair. pair.dest.0 < length row.now) pairs.now }
    ensures leaves { IfOk result (λ made. known made ≡ after_move (known row.now) pairs.now (known row.now)) }
    ensures width { IfOk result (λ made. length made ≡ length row.now) }
{
    let mut made = copied(row)?;
    for pair in pairs {
        made.set(pair.dest.0 as usize, known_value(row.items(), &pair.value));
    }
    Ok(made)
}

/// Along an edge of a cond with this test.
#[tactic(auto, unfolding(crate::specs::Flow::along))]
fn along(
    row: &Row,
    test: Option<i64>,
    then_to: Label,
    else_to: Label,
    to: Label,
) -> Result<Option<Row>, NoMemory>
    ensures leaves { IfOk result (λ made. option_map known made ≡ along (known row.now) test then_to else_to to) }
    ensures width { IfOk result (λ made. IfSome made (λ new. length new ≡ length row.now)) }
{
    if let Some(value) = test {
        if branch(value, then_to, else_to).0 != to.0 {
            return Ok(None);
        }
    }
    let made = copied(row)?;
    Ok(Some(made))
}

/// The row with a guard that holds. `false`: the guard is false.
#[tactic(auto, unfolding(crate::specs::Flow::with_guard, crate::specs::Flow::with_value))]
fn with_guard(row: &mut Row, guard: &Guard) -> bool
    requires { IsGuardWithin (length row.old) guard.now }
    ensures leaves { arrived result row.new ≡ with_guard guard.now (known row.old) }
    ensures width { length row.new ≡ length row.old }
{
    match *guard {
        Guard::Is { reg, value } => match known(row.items(), reg) {
            None => {
                row.set(reg.0 as usize, Some(value));
                true
            }
            Some(known) => known == value,
        },
        Guard::Never => false,
    }
}

/// After guards that hold.
pub fn with_guards(row: &Row, guards: &[Guard]) -> Result<Option<Row>, NoMemory>
    requires { All (IsGuardWithin (length row.now)) guards.now }
    ensures leaves { IfOk result (λ made. option_map known made ≡ with_guards guards.now (Some (known row.now))) }
    ensures width { IfOk result (λ made. IfSome made (λ new. length new ≡ length row.now)) }
{
    let mut made = copied(row)?;
    for guard in guards {
        if !with_guard(&mut made, guard) {
            return Ok(None);
        }
    }
    Ok(Some(made))
}

/// What leaves the instruction along its edge to a label. `None`: nothing arrives.
#[tactic(auto, unfolding(crate::specs::Flow::leaves), using(crate::proofs::Rows::known_after))]
pub fn leaves(row: &Row, instr: &VInstr, to: Label) -> Result<Option<Row>, NoMemory>
    requires { WritesWithin (length row.now) instr.now }
    ensures leaves { IfOk result (λ made. option_map known made ≡ leaves (known row.now) instr.now to) }
    ensures width { IfOk result (λ made. IfSome made (λ new. length new ≡ length row.now)) }
{
    match *instr {
        VInstr::Op { dest, ref expr, .. } => {
            let outcome = evaluated(&folded_operands(row.items(), expr));
            let made = after_op(row, dest, outcome)?;
            Ok(made)
        }
        VInstr::Move { ref pairs, .. } => {
            let made = after_move(row, pairs.items())?;
            Ok(Some(made))
        }
        VInstr::Cond {
            ref test,
            then_to,
            else_to,
        } => {
            let test = known_value(row.items(), test);
            let made = along(row, test, then_to, else_to, to)?;
            Ok(made)
        }
        VInstr::Call { dest, .. } => {
            let made = with_known(row, dest, None)?;
            Ok(Some(made))
        }
        VInstr::Load { dest, .. } => {
            let loaded = with_known(row, dest, None)?;
            Ok(Some(loaded))
        }
        VInstr::Assume { ref guards, .. } => {
            let made = with_guards(row, guards.items())?;
            Ok(made)
        }
        VInstr::Nop { .. } | VInstr::Print { .. } | VInstr::Store { .. } | VInstr::Anchor { .. } =>
            {
                let made = copied(row)?;
                Ok(Some(made))
            }
        VInstr::Return { .. } | VInstr::Fail { .. } => Ok(None),
    }
}

/// The label of a conditional branch.
#[tactic(auto, unfolding(cj_base::specs::Machine::branch))]
pub fn branch(test: i64, then_to: Label, else_to: Label) -> Label
    ensures { result ≡ branch test then_to else_to }
{
    if test == 0 { else_to } else { then_to }
}
