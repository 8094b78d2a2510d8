//! The roles of a run, each with its seats.

ghost use Rattle.std.specs.Prelude.{◌≡◌, ◌<◌, ◌≤◌, IfOk, OnOk};
ghost use Rattle.cj_publish.specs.Seats.{view_of};
ghost use Rattle.cj_publish.specs.Views.{given};
ghost use Rattle.cj_roles.specs.Roles.{RoleFits, AreNew, roles_in};
ghost use Rattle.cj_roles.specs.Dealt.{CanBeSplit, HasSplit, Deals, HasDealt};

use crate::role::{Job, Role, Slot};
use cj_ir::NoMemory;
use cj_profile::ProfileSeat;
use cj_publish::CodeSeat;
use cj_records::Store;
use std::alloc::Global;

/// A slot for each role, callers first, with seats that are split off those of the store.
pub(crate) fn deal(
    alloc: Global,
    store: &mut Store,
    callers: u32,
    workers: u32,
) -> Result<Vec<Slot>, NoMemory>
    requires store { CanBeSplit store.old }
    requires splits { (store.old.code_seat.splits ≡ 0) × (store.old.profile_seat.splits ≡ 0) }
    requires few { (callers ≤ 4) × (workers ≤ 4) }
    ensures { IfOk result (λ slots. HasDealt store.old (roles_in callers workers) slots.items store.new) }
{
    let mut slots = Vec::new(alloc);
    for first in 0..callers {
        add_role(store, Role::Caller { first, callers }, &mut slots)?;
    }
    for _worker in 0..workers {
        add_role(store, Role::Worker { callers }, &mut slots)?;
    }
    Ok(slots)
}

/// One role more.
fn add_role(store: &mut Store, role: Role, slots: &mut Vec<Slot>) -> Result<(), NoMemory>
    requires store { CanBeSplit store.old }
    requires role { RoleFits role }
    requires splits { (store.old.code_seat.splits < 16) × (store.old.profile_seat.splits < 16) }
    ensures { OnOk result (Deals store.old role slots.old.items slots.new.items store.new) }
{
    let (code_seat, profile_seat) = split_seats(store);
    slots.push(Slot::Given(Job {
        role,
        code_seat,
        profile_seat,
    }))?;
    Ok(())
}

/// A seat more at each table of the store, split off its own: new, and having seen what that one had.
fn split_seats(store: &mut Store) -> (CodeSeat, ProfileSeat)
    requires store { CanBeSplit store.old }
    requires splits { (store.old.code_seat.splits < 16) × (store.old.profile_seat.splits < 16) }
    ensures split { HasSplit 1 store.old store.new }
    ensures new { AreNew store.old.code store.old.profile result.0 result.1 }
    ensures given { view_of result.0 ≡ given (view_of store.old.code_seat) }
{
    let code_seat = store.code.split(&mut store.code_seat);
    let profile_seat = store.profile.split(&mut store.profile_seat);
    (code_seat, profile_seat)
}
