//! What is made is written, and with what status the call ends.

ghost use Rattle.std.specs.Prelude.{◌≡◌};
ghost use Rattle.cj_script.specs.Fitting.{FitsScript};
ghost use Rattle.cj_events.specs.Playable.{CanPlay};
ghost use Rattle.cj_driver.specs.TeamCommands.{IsFew};
ghost use Rattle.cj_driver.specs.Steps.{Finishes, StopFinishes, Writes};
ghost use Rattle.cj_driver.specs.Texts.{OwesOnInput, OwesPlay, OwesSummary, OwesTeam, OwesTeamSummary};

use crate::command::Job;
use crate::finish::Finish;
use crate::jobs::{Answer, perform, perform_bench, perform_play, perform_team, perform_team_bench};
use crate::reading::Stop;
use crate::team::Team;
use cj_io::{Gate, Sink, write_whole};
use cj_ir::{Checked, Input, NoMemory};
use cj_world::Events;
use std::alloc::Global;
use std::sync::Wait;
use std::thread::Threads;

/// How a call ends where no text was read.
pub(crate) fn finish_stop(alloc: Global, stop: Stop) -> Finish
    ensures { StopFinishes stop result }
{
    match stop {
        Stop::Refused(refused) => Finish::stopped(alloc, 3, Some(refused)),
        Stop::ReadFault => Finish::stopped(alloc, 4, None),
        Stop::TooLong => Finish::stopped(alloc, 7, None),
        Stop::NoMemory => Finish::stopped(alloc, 6, None),
    }
}

/// Does the job on the input, and writes the text.
pub(crate) fn finish_input<K: Sink>(alloc: Global, job: Job, input: &Input, sink: &mut K) -> Finish
    requires { FitsScript input.now.checked input.now.script }
    ensures { Finishes (OwesOnInput job input.now) (K.written sink.old) (K.written sink.new) (K.faults sink.old) (K.faults sink.new) result }
{
    match perform(alloc, job, input) {
        Ok(answer) => write_answer(answer, sink),
        Err(NoMemory) => Finish::stopped(alloc, 6, None),
    }
}

/// Plays the events, and writes the text.
pub(crate) fn finish_replay<K: Sink>(
    alloc: Global,
    stats: bool,
    checked: &Checked,
    events: &Events,
    sink: &mut K,
) -> Finish
    requires { CanPlay checked.now events.now }
    ensures { Finishes (OwesPlay stats (checked.now, events.now)) (K.written sink.old) (K.written sink.new) (K.faults sink.old) (K.faults sink.new) result }
{
    match perform_play(alloc, stats, checked, events) {
        Ok(answer) => write_answer(answer, sink),
        Err(NoMemory) => Finish::stopped(alloc, 6, None),
    }
}

/// Runs the calls of the generated input, and writes the summary.
pub(crate) fn finish_bench<K: Sink>(alloc: Global, number: u32, sink: &mut K) -> Finish
    ensures { Finishes (OwesSummary number) (K.written sink.old) (K.written sink.new) (K.faults sink.old) (K.faults sink.new) result }
{
    match perform_bench(alloc, number) {
        Ok(answer) => write_answer(answer, sink),
        Err(NoMemory) => Finish::stopped(alloc, 6, None),
    }
}

/// Runs the calls of the input by a team, and writes the text.
pub(crate) fn finish_team<R: Threads + Wait + Sync, K: Sink, G: Gate + Sync>(
    rt: &R,
    alloc: Global,
    team: Team,
    input: &Input,
    gate: &G,
    sink: &mut K,
) -> Finish
    requires fits { FitsScript input.now.checked input.now.script }
    requires few { IsFew team }
    ensures { Finishes (OwesTeam team input.now) (K.written sink.old) (K.written sink.new) (K.faults sink.old) (K.faults sink.new) result }
{
    match perform_team(rt, alloc, team, input, gate) {
        Ok(answer) => write_answer(answer, sink),
        Err(NoMemory) => Finish::stopped(alloc, 6, None),
    }
}

/// Runs the calls of the generated input by a team, and writes the summary.
pub(crate) fn finish_team_bench<R: Threads + Wait + Sync, K: Sink, G: Gate + Sync>(
    rt: &R,
    alloc: Global,
    number: u32,
    team: Team,
    gate: &G,
    sink: &mut K,
) -> Finish
    requires few { IsFew team }
    ensures { Finishes (OwesTeamSummary number team) (K.written sink.old) (K.written sink.new) (K.faults sink.old) (K.faults sink.new) result }
{
    match perform_team_bench(rt, alloc, number, team, gate) {
        Ok(answer) => write_answer(answer, sink),
        Err(NoMemory) => Finish::stopped(alloc, 6, None),
    }
}

/// Writes the text, and keeps what was made.
fn write_answer<K: Sink>(answer: Answer, sink: &mut K) -> Finish
    ensures { Writes answer.made answer.text.items (K.written sink.old) (K.written sink.new) (K.faults sink.old) (K.faults sink.new) result }
{
    let status = match write_whole(sink, &answer.text) {
        Ok(()) => 0,
        Err(_fault) => 5,
    };
    Finish {
        status,
        refused: None,
        made: answer.made,
    }
}
