//! The roles in threads, each in its slot.

ghost use Rattle.std.specs.Prelude.{IfOk};
ghost use Rattle.std.specs.List.{AllZip};
ghost use Rattle.cj_publish.specs.Seats.{view_of};
ghost use Rattle.cj_publish.specs.declared.view.View.{View};
ghost use Rattle.cj_roles.specs.declared.role.Role.{Role};
ghost use Rattle.cj_roles.specs.Roles.{IsRun, JobFits, RoleEnds};
ghost use Rattle.cj_roles.specs.Slots.{SlotFits, SlotEnds, IsFor, HasEnded};

use crate::caller::run_caller;
use crate::role::{Job, Role, RoleDone, Shared, Slot};
use crate::worker::run_worker;
use cj_io::Gate;
use cj_ir::NoMemory;
use std::alloc::Global;
use std::sync::Wait;
use std::thread::Threads;
use std::{mem, thread};

// So many callers and workers there are at most.
const MOST_ROLES: usize = 8;

/// Runs the roles beside each other, each in a thread of its own where one can be made. It takes no memory for that.
pub(crate) fn run_slots<R: Threads + Wait + Sync, G: Gate + Sync>(
    rt: &R,
    alloc: Global,
    shared: &Shared<'_>,
    gate: &G,
    slots: &mut [Slot],
)
    requires run { IsRun shared.now }
    requires given { (v : View) × (roles : _) × AllZip (IsFor shared.now.code.now shared.now.profile.now v) roles slots.old }
    ensures { (v : View) (roles : _) → AllZip (IsFor shared.now.code.now shared.now.profile.now v) roles slots.old
        → AllZip (HasEnded shared.now.calls.now shared.now.code.now shared.now.profile.now v) roles slots.new }
{
    let run = |_: usize, slot: &mut Slot|
        requires { IsRun shared.now × SlotFits shared.now.code.now shared.now.profile.now slot.now }
        ensures { SlotEnds shared.entry.now.calls.now shared.entry.now.code.now shared.entry.now.profile.now slot.entry.now slot.exit.now }
    { run_slot(rt, alloc, shared, gate, slot) };
    thread::for_each_mut(rt, slots, MOST_ROLES, &run);
}

/// Runs the role that was given to a slot.
fn run_slot<R: Wait, G: Gate>(rt: &R, alloc: Global, shared: &Shared<'_>, gate: &G, slot: &mut Slot)
    requires run { IsRun shared.now }
    requires given { SlotFits shared.now.code.now shared.now.profile.now slot.old }
    ensures { SlotEnds shared.now.calls.now shared.now.code.now shared.now.profile.now slot.old slot.new }
{
    let Slot::Given(job) = mem::replace(slot, Slot::Lost) else {
        unreachable!()
    };
    if let Ok(done) = run_role(rt, alloc, shared, gate, job) {
        *slot = Slot::Ended(done);
    }
}

/// Runs a role, from its start to its end.
fn run_role<R: Wait, G: Gate>(
    rt: &R,
    alloc: Global,
    shared: &Shared<'_>,
    gate: &G,
    job: Job,
) -> Result<RoleDone, NoMemory>
    requires run { IsRun shared.now }
    requires fits { JobFits shared.now.code.now shared.now.profile.now job }
    ensures { IfOk result (RoleEnds shared.now.calls.now shared.now.code.now shared.now.profile.now (view_of job.code_seat) job.role) }
{
    let Job {
        role,
        code_seat,
        profile_seat,
    } = job;
    match role {
        Role::Caller { first, callers } => {
            run_caller(alloc, shared, gate, first, callers, code_seat, profile_seat)
        }
        Role::Worker { callers } => {
            run_worker(rt, alloc, shared, gate, callers, code_seat, profile_seat)
        }
    }
}
