//! A worker.

ghost use Rattle.std.specs.Prelude.{IfOk};
ghost use Rattle.cj_publish.specs.Seats.{view_of};
ghost use Rattle.cj_roles.specs.Roles.{IsRun, AreNew, RoleEnds};
ghost use Rattle.cj_roles.specs.declared.role.Role.TheVariants as role;

use crate::role::{RoleDone, Shared};
use cj_io::Gate;
use cj_ir::NoMemory;
use cj_profile::ProfileSeat;
use cj_publish::CodeSeat;
use cj_worker::Worker;
use std::alloc::Global;
use std::collections::VecDeque;
use std::sync::Wait;

/// Works until so many callers have finished.
pub(crate) fn run_worker<R: Wait, G: Gate>(
    rt: &R,
    alloc: Global,
    shared: &Shared<'_>,
    gate: &G,
    callers: u32,
    code_seat: CodeSeat,
    profile_seat: ProfileSeat,
) -> Result<RoleDone, NoMemory>
    requires run { IsRun shared.now }
    requires seats { AreNew shared.now.code.now shared.now.profile.now code_seat profile_seat }
    ensures { IfOk result (RoleEnds shared.now.calls.now shared.now.code.now shared.now.profile.now (view_of code_seat) (role.Worker callers)) }
{
    let mut worker = Worker::new(
        alloc,
        shared.checked,
        shared.code,
        code_seat,
        shared.profile,
        profile_seat,
    );
    let work = worker.work_until_stopped(rt, u64::from(callers), gate)?;
    let (code_seat, profile_seat) = worker.into_seats();
    Ok(RoleDone {
        reports: VecDeque::new(alloc),
        work,
        code_seat,
        profile_seat,
    })
}
