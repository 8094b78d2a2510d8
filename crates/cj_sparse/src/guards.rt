//! Whether guards may hold together.

ghost use Rattle.std.specs.Prelude.{◌≡◌, Some};
ghost use Rattle.std.specs.Option.{is_some};
ghost use Rattle.cj_const.specs.Knowledge.{known};
ghost use Rattle.cj_const.specs.Flow.{with_guards};
ghost use Rattle.cj_sparse.specs.Holding.{asked_by, asked, fits, may_follow};

use cj_const::knowledge::known;
use cj_ir::{Guard, Reg};

/// The value that the first of these guards asks of a register. `None`: none is of the register.
#[tactic(auto, unfolding(crate::specs::Holding::asked))]
fn asked(guards: &[Guard], reg: Reg) -> Option<i64>
    ensures { result ≡ asked guards.now reg.0 }
{
    for guard in guards {
        let found = asked_by(guard, reg);
        if found.is_some() {
            return found;
        }
    }
    None
}

/// The value that a guard asks of a register. `None`: it is not of the register.
#[tactic(auto, unfolding(crate::specs::Holding::asked_by))]
fn asked_by(guard: &Guard, reg: Reg) -> Option<i64>
    ensures { result ≡ asked_by reg.0 guard.now }
{
    match *guard {
        Guard::Is {
            reg: guarded,
            value,
        } => if guarded.0 == reg.0 {
            Some(value)
        } else {
            None
        },
        Guard::Never => None,
    }
}

/// Whether a register may have a value of which this is known.
#[tactic(auto, unfolding(crate::specs::Holding::fits))]
fn fits(value: i64, told: Option<i64>) -> bool
    ensures { result ≡ fits value told }
{
    match told {
        None => true,
        Some(told) => told == value,
    }
}

/// Whether a guard may hold where all before it do.
#[tactic(auto, unfolding(crate::specs::Holding::may_follow, crate::specs::Holding::fits, cj_const::specs::Folding::or_else))]
fn may_follow(row: &[Option<i64>], before: &[Guard], guard: &Guard) -> bool
    ensures { result ≡ may_follow (known row.now) before.now guard.now }
{
    match *guard {
        Guard::Is { reg, value } => match known(row, reg) {
            None => fits(value, asked(before, reg)),
            Some(told) => told == value,
        },
        Guard::Never => false,
    }
}

/// Whether all of the guards may hold.
pub(crate) fn may_hold(row: &[Option<i64>], guards: &[Guard]) -> bool
    ensures { result ≡ is_some (with_guards guards.now (Some (known row.now))) }
{
    for (at, guard) in guards.iter().enumerate() {
        if !may_follow(row, &guards[..at], guard) {
            return false;
        }
    }
    true
}
