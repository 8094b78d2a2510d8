//! The run of a call.

ghost use Rattle.std.specs.Prelude.{◌≡◌, ◌≤◌, ◌++◌, length, Some, IfOk, OnErr};
ghost use Rattle.cj_ir.specs.WellFormed.{Takes};
ghost use Rattle.cj_base.specs.Run.{begun};
ghost use Rattle.cj_calls.specs.Reports.{ReportStands, IsWhole};
ghost use Rattle.cj_machine.specs.VersionRuns.{version_report};
ghost use Rattle.cj_machine.specs.Memories.{base_memory, version_memory};
ghost use Rattle.cj_machine.specs.Marks.{run_marks};
ghost use Rattle.cj_engine.specs.Watching.{Keeps};
ghost use Rattle.cj_engine.specs.Stopped.{Stopped};
ghost use Rattle.cj_engine.specs.Engines.{begun_with, end_after};

use crate::engine::{Engine, Ran};
use crate::watch::Watch;
use cj_base::{End, Turned};
use cj_calls::Report;
use cj_ir::{Checked, NoMemory, ScriptCall, Values, zeros};
use std::alloc::Global;

/// The run of a call: turns are made until one ends the run, or until as many were made as the call's limit says.
pub fn run<W: Watch>(
    alloc: Global,
    checked: &Checked,
    call: &ScriptCall,
    watch: &mut W,
) -> Result<Report, NoMemory>
    requires takes { Takes checked.now.functions call.now.function (length call.now.args) }
    requires limit { (1 ≤ call.now.limit) × (call.now.limit ≤ 1000000) }
    requires ready { W.ready watch.old }
    requires program { W.program watch.old ≡ checked.now }
    ensures looked { IfOk result (λ report. W.trail watch.new ≡ W.trail watch.old ++ report.looks) }
    ensures report { IfOk result (λ report. version_report checked.now (W.codes watch.new) report.looks (begun call.now) ≡ Some report) }
    ensures headline { IfOk result (λ report. ReportStands checked.now (begun call.now) report × IsWhole checked.now (begun call.now) report) }
    ensures went { IfOk result (λ report. W.went watch.old watch.new
        (run_marks checked.now (W.codes watch.new) report.looks (begun call.now) call.now.limit)) }
    ensures stopped { OnErr result (Stopped checked.now (W.went watch.old watch.new) (W.codes watch.new)
        (W.trail watch.old) (W.trail watch.new) (begun call.now)) }
    ensures keeps { Keeps W.program W.codes W.stays W.ready watch.old watch.new }
{
    let memory = zeros(alloc, call.cells as usize)?;
    let ran = run_from(alloc, checked, call, memory, watch)?;
    Ok(ran.report)
}

/// The run of a call that begins with this memory, however many cells the call asks for, and the memory that it leaves:
/// that of the base run after the report's base turns.
pub fn run_from<W: Watch>(
    alloc: Global,
    checked: &Checked,
    call: &ScriptCall,
    memory: Values,
    watch: &mut W,
) -> Result<Ran, NoMemory>
    requires takes { Takes checked.now.functions call.now.function (length call.now.args) }
    requires limit { (1 ≤ call.now.limit) × (call.now.limit ≤ 1000000) }
    requires ready { W.ready watch.old }
    requires program { W.program watch.old ≡ checked.now }
    ensures looked { IfOk result (λ ran. W.trail watch.new ≡ W.trail watch.old ++ ran.report.looks) }
    ensures report { IfOk result (λ ran. version_report checked.now (W.codes watch.new) ran.report.looks (begun_with call.now memory) ≡ Some ran.report) }
    ensures headline { IfOk result (λ ran. ReportStands checked.now (begun_with call.now memory) ran.report × IsWhole checked.now (begun_with call.now memory) ran.report) }
    ensures went { IfOk result (λ ran. W.went watch.old watch.new
        (run_marks checked.now (W.codes watch.new) ran.report.looks (begun_with call.now memory) call.now.limit)) }
    ensures memory { IfOk result (λ ran. version_memory checked.now (W.codes watch.new) ran.report.looks (begun_with call.now memory) ≡ Some ran.memory) }
    ensures agrees { IfOk result (λ ran. ran.memory ≡ base_memory checked.now (begun_with call.now memory) ran.report.base_turns) }
    ensures stopped { OnErr result (Stopped checked.now (W.went watch.old watch.new) (W.codes watch.new)
        (W.trail watch.old) (W.trail watch.new) (begun_with call.now memory)) }
    ensures keeps { Keeps W.program W.codes W.stays W.ready watch.old watch.new }
{
    let _program = checked.program();
    let mut engine = Engine::start_from(alloc, checked, call, memory, watch)?;
    let turned = engine.advance(watch, u64::from(call.limit))?;
    Ok(engine.ran(end_after(turned)))
}

// The end of a run after its last turn, which is the turn limit where no turn ended it.
#[tactic(auto, unfolding(crate::specs::Engines::end_after))]
fn end_after(turned: Turned) -> End
    ensures { result ≡ end_after turned }
{
    match turned {
        Turned::Running => End::TurnLimit,
        Turned::Ended(end) => end,
    }
}
