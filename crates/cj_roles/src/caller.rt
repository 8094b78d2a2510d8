//! A caller.

ghost use Rattle.std.specs.Prelude.{◌≡◌, ◌+◌, ◌<◌, ◌≤◌, length, map, All, IfOk, OnOk};
ghost use Rattle.cj_script.specs.Fitting.{FitsCall};
ghost use Rattle.cj_base.specs.Run.{begun};
ghost use Rattle.cj_profile.specs.Seats as counts;
ghost use Rattle.cj_publish.specs.Seats.{view_of};
ghost use Rattle.cj_session.specs.Sessions.{IsReady, Stays};
ghost use Rattle.cj_records.specs.Chains.{share};
ghost use Rattle.cj_roles.specs.Calls.{RunsCall, RunsCalls, IsCounted, HasFinished};
ghost use Rattle.cj_roles.specs.Roles.{IsRun, AreNew, RoleEnds};
ghost use Rattle.cj_roles.specs.declared.role.Role.TheVariants as role;

use crate::role::{RoleDone, Shared};
use cj_calls::Report;
use cj_io::Gate;
use cj_ir::{NoMemory, ScriptCall};
use cj_notes::Works;
use cj_profile::{Profile, ProfileSeat};
use cj_publish::CodeSeat;
use cj_script::limits::MAX_CALLS;
use cj_session::{Session, Versions};
use std::alloc::Global;
use std::collections::VecDeque;

/// What a caller has come to when it is counted as finished: its reports, or want of memory, and the seats.
#[derive(Drop)]
pub(crate) struct CallerDone {
    pub(crate) answer: Result<VecDeque<Report>, NoMemory>,
    pub(crate) code_seat: CodeSeat,
    pub(crate) profile_seat: ProfileSeat,
}

/// Runs the calls that fall to a caller, in order.
pub(crate) fn run_caller<G: Gate>(
    alloc: Global,
    shared: &Shared<'_>,
    gate: &G,
    first: u32,
    callers: u32,
    code_seat: CodeSeat,
    profile_seat: ProfileSeat,
) -> Result<RoleDone, NoMemory>
    requires run { IsRun shared.now }
    requires callers { (first < callers) × (callers ≤ 4) }
    requires seats { AreNew shared.now.code.now shared.now.profile.now code_seat profile_seat }
    ensures { IfOk result (RoleEnds shared.now.calls.now shared.now.code.now shared.now.profile.now (view_of code_seat) (role.Caller first callers)) }
{
    let versions = Versions::new(alloc);
    let session = Session::new(
        alloc,
        shared.checked,
        shared.code,
        code_seat,
        shared.profile,
        profile_seat,
        versions,
    );
    let done = run_and_finish(alloc, shared, gate, first, callers, session);
    let reports = done.answer?;
    let work = Works::new(alloc);
    Ok(RoleDone {
        reports,
        work,
        code_seat: done.code_seat,
        profile_seat: done.profile_seat,
    })
}

/// Runs the calls of a caller. Then it is counted as finished, also where memory ran out.
fn run_and_finish<G: Gate>(
    alloc: Global,
    shared: &Shared<'_>,
    gate: &G,
    first: u32,
    callers: u32,
    mut session: Session<'_>,
) -> CallerDone
    requires run { IsRun shared.now }
    requires callers { (first < callers) × (callers ≤ 4) }
    requires ready { IsReady session }
    requires tables { (session.checked.now ≡ shared.now.checked.now) × (session.profile.now ≡ shared.now.profile.now) }
    ensures own { counts.Belongs shared.now.profile.now result.profile_seat }
    ensures finished { HasFinished (map begun (share callers first shared.now.calls.now)) session.entry result }
{
    let answer = run_calls(alloc, &mut session, gate, shared.calls, first, callers);
    let (code_seat, profile_seat) = end_session(session, shared.profile);
    CallerDone {
        answer,
        code_seat,
        profile_seat,
    }
}

/// Ends the session of a caller, and counts the caller as finished.
fn end_session(session: Session<'_>, profile: &Profile) -> (CodeSeat, ProfileSeat)
    requires ready { IsReady session }
    requires profile { session.profile.now ≡ profile.now }
    ensures code { result.0 ≡ session.entry.code_seat }
    ensures own { counts.Belongs profile.now result.1 }
    ensures same { counts.IsSame session.entry.profile_seat result.1 }
    ensures counted { IsCounted session.entry.profile_seat result.1 }
{
    let (code_seat, mut profile_seat) = session.into_seats();
    profile.finish_caller(&mut profile_seat);
    (code_seat, profile_seat)
}

/// Runs the call at `first`, and each that lies another `callers` further on.
fn run_calls<G: Gate>(
    alloc: Global,
    session: &mut Session<'_>,
    gate: &G,
    calls: &[ScriptCall],
    first: u32,
    callers: u32,
) -> Result<VecDeque<Report>, NoMemory>
    requires ready { IsReady session.old }
    requires calls { All (FitsCall session.old.checked.now.functions) calls.now }
    requires few { length calls.now ≤ MAX_CALLS }
    requires callers { (first < callers) × (callers ≤ 4) }
    ensures ready { IsReady session.new }
    ensures stays { Stays session.old session.new }
    ensures ran { IfOk result (λ reports. RunsCalls (map begun (share callers first calls.now)) reports.items session.old session.new) }
{
    let mut reports = VecDeque::new(alloc);
    let mut at = first as usize;
    while at < calls.len() {
        run_call(session, gate, &calls[at], at as u32 + 1, &mut reports)?;
        at += callers as usize;
    }
    Ok(reports)
}

/// Runs the call of that number between its two gates, and keeps its report.
fn run_call<G: Gate>(
    session: &mut Session<'_>,
    gate: &G,
    call: &ScriptCall,
    number: u32,
    reports: &mut VecDeque<Report>,
) -> Result<(), NoMemory>
    requires ready { IsReady session.old }
    requires call { FitsCall session.old.checked.now.functions call.now }
    ensures ready { IsReady session.new }
    ensures stays { Stays session.old session.new }
    ensures ran { OnOk result (RunsCall (begun call.now) reports.old.items reports.new.items session.old session.new) }
{
    gate.before_call(number);
    let report = session.run(call)?;
    gate.after_call(number);
    reports.push_back(report)?;
    Ok(())
}
