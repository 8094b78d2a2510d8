//! What is asked of the guards that go to an Assume.

ghost use Rattle.std.specs.Prelude.{◌≡◌, ◌+◌};
ghost use Rattle.cj_rows.specs.Guards.{guard_offence, register_offence, guards_offence};

use cj_draft::{Room, Skipped, limits, told};
use cj_ir::Guard;

/// Guards of an Assume, at most.
const MAX_GUARDS: usize = limits::MAX_GUARDS as usize;

/// The first of the guards whose register is not in a draft with that many registers. `None`: all are.
pub fn register_offence(regs: u32, guards: &[Guard]) -> Option<Skipped>
    ensures { result ≡ register_offence regs guards.now }
{
    for guard in guards {
        if let Some(skipped) = guard_offence(regs, guard) {
            return Some(skipped);
        }
    }
    None
}

#[tactic(auto, unfolding(crate::specs::Guards::guard_offence, crate::specs::Guards::if_missing))]
fn guard_offence(regs: u32, guard: &Guard) -> Option<Skipped>
    ensures { result ≡ guard_offence regs guard.now }
{
    match *guard {
        Guard::Is { reg, .. } => {
            if reg.0 < regs {
                None
            } else {
                Some(Skipped::NoRegister { reg })
            }
        }
        Guard::Never => None,
    }
}

/// Whether an Assume has more than 8 guards, its own and further ones. A count above the greatest of `u32` is told as that.
pub fn guards_offence(own: usize, count: usize) -> Option<Skipped>
    ensures { result ≡ guards_offence (own + count) }
{
    let all = own.saturating_add(count);
    if all <= MAX_GUARDS {
        return None;
    }
    Some(Skipped::Full {
        room: Room::Guards,
        count: told(all),
    })
}
