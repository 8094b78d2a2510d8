//! Calls, each followed by one work.

ghost use Rattle.std.specs.Prelude.{◌≡◌, [], map, All, IfOk};
ghost use Rattle.cj_script.specs.Fitting.{FitsCall};
ghost use Rattle.cj_base.specs.Run.{begun};
ghost use Rattle.cj_parts.specs.Runs.{Ran};
ghost use Rattle.cj_notes.specs.Works.{WorkedOne};
ghost use Rattle.cj_session.specs.Versions.{AreKnown};
ghost use Rattle.cj_alone.specs.Seats.{view_at, reads_at, IsFree, AreSame};
ghost use Rattle.cj_alone.specs.Rounds.{RoundMade, RoundsMade};

use crate::seats::Seats;
use cj_calls::{Report, Reports};
use cj_ir::{Checked, NoMemory, ScriptCall};
use cj_notes::{WorkNote, Works};
use cj_profile::Profile;
use cj_publish::CodeTable;
use cj_session::laws::later_views_know_the_versions;
use cj_session::{Session, Versions};
use cj_worker::Worker;
use std::alloc::Global;

/// What the calls so far have come to: the seats as the last work left them, a report of each call, and a note of each work
/// behind those of the `warm` lines.
#[derive(Drop)]
pub(crate) struct Progress {
    pub(crate) seats: Seats,
    pub(crate) reports: Reports,
    pub(crate) work: Works,
}

/// Runs each call, in order, and does one work after it.
pub(crate) fn run_calls(
    alloc: Global,
    checked: &Checked,
    code: &CodeTable,
    profile: &Profile,
    start: Progress,
    calls: &[ScriptCall],
) -> Result<Progress, NoMemory>
    requires free { IsFree checked.now code.now profile.now start.seats }
    requires calls { All (FitsCall checked.now.functions) calls.now }
    requires none { start.reports ≡ [] }
    ensures free { IfOk result (λ done. IsFree checked.now code.now profile.now done.seats) }
    ensures same { IfOk result (λ done. AreSame start.seats done.seats) }
    ensures rounds { IfOk result (RoundsMade checked.now (map begun calls.now) start) }
{
    let mut so_far = (start, Versions::new(alloc));
    for call in calls {
        so_far = run_round(alloc, checked, code, profile, so_far, call)?;
    }
    Ok(so_far.0)
}

/// Runs a call, and does one work after it. The versions that the calls before it have read are lent to it.
fn run_round<'a>(
    alloc: Global,
    checked: &'a Checked,
    code: &'a CodeTable,
    profile: &'a Profile,
    before: (Progress, Versions<'a>),
    call: &ScriptCall,
) -> Result<(Progress, Versions<'a>), NoMemory>
    requires free { IsFree checked.now code.now profile.now before.0.seats }
    requires known { AreKnown checked.now (view_at before.0.seats) before.1 }
    requires call { FitsCall checked.now.functions call.now }
    ensures free { IfOk result (λ after. IsFree checked.now code.now profile.now after.0.seats) }
    ensures known { IfOk result (λ after. AreKnown checked.now (view_at after.0.seats) after.1) }
    ensures same { IfOk result (λ after. AreSame before.entry.0.seats after.0.seats) }
    ensures round { IfOk result (λ after. RoundMade checked.now (begun call.now) before.entry.0 after.0) }
{
    let (progress, versions) = before;
    let Progress {
        seats,
        mut reports,
        mut work,
    } = progress;
    let (report, seats, versions) = run_call(alloc, checked, code, profile, seats, versions, call)?;
    let (note, seats) = work_once(alloc, checked, code, profile, seats)?;
    later_views_know_the_versions();
    reports.push(report)?;
    work.push(note)?;
    let progress = Progress {
        seats,
        reports,
        work,
    };
    Ok((progress, versions))
}

/// Runs a call in a session.
fn run_call<'a>(
    alloc: Global,
    checked: &'a Checked,
    code: &'a CodeTable,
    profile: &'a Profile,
    seats: Seats,
    versions: Versions<'a>,
    call: &ScriptCall,
) -> Result<(Report, Seats, Versions<'a>), NoMemory>
    requires free { IsFree checked.now code.now profile.now seats }
    requires known { AreKnown checked.now (view_at seats) versions }
    requires call { FitsCall checked.now.functions call.now }
    ensures free { IfOk result (λ made. IsFree checked.now code.now profile.now made.1) }
    ensures known { IfOk result (λ made. AreKnown checked.now (view_at made.1) made.2) }
    ensures same { IfOk result (λ made. AreSame seats made.1) }
    ensures ran { IfOk result (λ made. Ran checked.now (begun call.now) made.0 (view_at seats) (view_at made.1) (reads_at seats) (reads_at made.1)) }
{
    let mut session = Session::new(
        alloc,
        checked,
        code,
        seats.code,
        profile,
        seats.profile,
        versions,
    );
    let report = session.run(call)?;
    let (code, profile, versions) = session.into_parts();
    Ok((report, Seats { code, profile }, versions))
}

/// Does one work.
fn work_once(
    alloc: Global,
    checked: &Checked,
    code: &CodeTable,
    profile: &Profile,
    seats: Seats,
) -> Result<(WorkNote, Seats), NoMemory>
    requires free { IsFree checked.now code.now profile.now seats }
    ensures free { IfOk result (λ made. IsFree checked.now code.now profile.now made.1) }
    ensures same { IfOk result (λ made. AreSame seats made.1) }
    ensures worked { IfOk result (λ made. WorkedOne checked.now made.0 (view_at seats) (view_at made.1) (reads_at seats) (reads_at made.1)) }
{
    let mut worker = Worker::new(alloc, checked, code, seats.code, profile, seats.profile);
    let note = worker.work_one()?;
    let (code, profile) = worker.into_seats();
    Ok((note, Seats { code, profile }))
}
