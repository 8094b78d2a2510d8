//! The seats of roles that have ended, joined into those of the store.

ghost use Rattle.std.specs.Prelude.{◌≡◌, [], ◌∷◌, ◌++◌, None, false, reverse, All, IfOk, OnOk};
ghost use Rattle.cj_profile.specs.Seats as counts;
ghost use Rattle.cj_publish.specs.Seats.{view_of, Belongs};
ghost use Rattle.cj_roles.specs.Slots.{SlotJoins};
ghost use Rattle.cj_roles.specs.Joined.{CanJoin, TakesIn, JoinsSlot, JoinsAll};

use crate::role::{RoleDone, Slot};
use cj_calls::Report;
use cj_ir::NoMemory;
use cj_notes::Works;
use cj_profile::ProfileSeat;
use cj_publish::CodeSeat;
use cj_records::Store;
use std::alloc::Global;
use std::collections::VecDeque;

/// What roles have answered: the reports of each, and the notes of all behind those of the `warm` lines.
#[derive(Drop)]
pub(crate) struct Answers {
    pub(crate) piles: VecDeque<VecDeque<Report>>,
    pub(crate) work: Works,
}

/// Joins the seats of all roles, in order, and confirms what the store's seat then knows.
pub(crate) fn join_all(
    alloc: Global,
    store: &mut Store,
    slots: Vec<Slot>,
    warm: Works,
) -> Result<Answers, NoMemory>
    requires store { CanJoin store.old }
    requires slots { All (SlotJoins store.old.code store.old.profile) slots.items }
    ensures { IfOk result (λ answers. JoinsAll slots.items warm store.old answers store.new) }
{
    let mut answers = Answers {
        piles: VecDeque::new(alloc),
        work: warm,
    };
    for slot in slots {
        join_slot(store, slot, &mut answers)?;
    }
    store.code.confirm(&mut store.code_seat);
    Ok(answers)
}

/// Joins the seats of a role, and keeps what it has answered.
fn join_slot(store: &mut Store, slot: Slot, answers: &mut Answers) -> Result<(), NoMemory>
    requires store { CanJoin store.old }
    requires slot { SlotJoins store.old.code store.old.profile slot }
    ensures { OnOk result (JoinsSlot slot store.old answers.old store.new answers.new) }
{
    let Slot::Ended(done) = slot else {
        return Err(NoMemory);
    };
    let RoleDone {
        reports,
        work,
        code_seat,
        profile_seat,
    } = done;
    join_seats(store, code_seat, profile_seat);
    keep(answers, reports, work)?;
    Ok(())
}

/// Keeps the reports and the notes of a role behind those of the roles before it.
fn keep(answers: &mut Answers, reports: VecDeque<Report>, work: Works) -> Result<(), NoMemory>
    ensures piles { OnOk result (answers.new.piles.items ≡ answers.old.piles.items ++ reports ∷ []) }
    ensures work { OnOk result (answers.new.work ≡ answers.old.work ++ work) }
{
    answers.piles.push_back(reports)?;
    append(&mut answers.work, work)
}

/// Joins two seats into those of the store.
fn join_seats(store: &mut Store, code_seat: CodeSeat, profile_seat: ProfileSeat)
    requires store { CanJoin store.old }
    requires code { Belongs store.old.code code_seat × (code_seat.first ≡ false) × ((view_of code_seat).claim ≡ None) }
    requires profile { counts.Belongs store.old.profile profile_seat × (profile_seat.first ≡ false) }
    ensures { TakesIn store.old code_seat profile_seat store.new }
{
    store.code.join(&mut store.code_seat, code_seat);
    store.profile.join(&mut store.profile_seat, profile_seat);
}

/// Appends notes to others.
fn append(work: &mut Works, more: Works) -> Result<(), NoMemory>
    ensures { OnOk result (work.new ≡ work.old ++ more) }
{
    let mut turned = Works::new(more.allocator());
    pour(&mut turned, more)?;
    pour(work, turned)
}

/// Appends notes to others, the last one first.
fn pour(work: &mut Works, mut more: Works) -> Result<(), NoMemory>
    ensures { OnOk result (work.new ≡ work.old ++ reverse more) }
{
    while let Some(note) = more.pop() {
        work.push(note)?;
    }
    Ok(())
}
