//! The top call with callers and workers in threads.

ghost use Rattle.std.specs.Prelude.{◌≡◌, map, ℕ, List, Option};
ghost use Rattle.std.specs.String.{string_bytes};
ghost use Rattle.cj_text.specs.Reads.{Reads};
ghost use Rattle.cj_driver.specs.TeamCommands.{team_command_of, IsFew};
ghost use Rattle.cj_driver.specs.Outside.{outside};
ghost use Rattle.cj_driver.specs.Answers.{Answers, AnswersUnread, ByTeamWords};
ghost use Rattle.cj_driver.specs.Texts.{OwesTeam, OwesTeamSummary};

use crate::finish::Finish;
use crate::finishing::{finish_stop, finish_team, finish_team_bench};
use crate::reading::read_input;
use crate::team::{Team, TeamCommand};
use cj_io::{Gate, Sink, Source};
use std::alloc::Global;
use std::sync::Wait;
use std::thread::Threads;

/// Reads an input from the source, runs its calls by callers and workers in threads, and writes the answer to the sink.
///
/// The words are one of the forms `run C W` and `bench N C W`, with 1 to 4 callers, 0 to 4 workers, and N of one to six digits.
/// Script call i, counted from 0, is made by caller i mod C; the reports stand in the order of the script. What is owed for
/// each report, the statuses and their causes are those of `top_alone` for `alone` and `bench N`, in every schedule. The gate is
/// told of each call before and after it, and nothing rests on what it does. The call may wait, and nothing is said of time, nor
/// that a worker makes a version.
pub fn top<R: Threads + Wait + Sync, S: Source, K: Sink, G: Gate + Sync>(
    rt: &R,
    alloc: Global,
    words: &[String],
    source: &mut S,
    sink: &mut K,
    gate: &G,
) -> Finish
    ensures { ByTeamWords (team_command_of (map string_bytes words.now)) (outside (S.left source.old) (S.left source.new) (K.written sink.old) (K.written sink.new) (S.faults source.old) (S.faults source.new) (K.faults sink.old) (K.faults sink.new)) result }
{
    match TeamCommand::of(words) {
        Some(TeamCommand::Run(team)) => answer_team(rt, alloc, team, source, sink, gate),
        Some(TeamCommand::Bench { number, team }) => {
            answer_team_bench(rt, alloc, number, team, sink, gate)
        }
        None => Finish::stopped(alloc, 2, None),
    }
}

/// What is answered for an input.
fn answer_team<R: Threads + Wait + Sync, S: Source, K: Sink, G: Gate + Sync>(
    rt: &R,
    alloc: Global,
    team: Team,
    source: &mut S,
    sink: &mut K,
    gate: &G,
) -> Finish
    requires { IsFew team }
    ensures { Answers Reads (OwesTeam team) (outside (S.left source.old) (S.left source.new) (K.written sink.old) (K.written sink.new) (S.faults source.old) (S.faults source.new) (K.faults sink.old) (K.faults sink.new)) result }
{
    match read_input(alloc, source) {
        Ok(input) => finish_team(rt, alloc, team, &input, gate, sink),
        Err(stop) => finish_stop(alloc, stop),
    }
}

/// What is answered for the bench of a number, whatever the source is.
fn answer_team_bench<R: Threads + Wait + Sync, K: Sink, G: Gate + Sync>(
    rt: &R,
    alloc: Global,
    number: u32,
    team: Team,
    sink: &mut K,
    gate: &G,
) -> Finish
    requires { IsFew team }
    ensures { (given : Option (List ℕ)) (reads : ℕ) → AnswersUnread (OwesTeamSummary number team) (outside given given (K.written sink.old) (K.written sink.new) reads reads (K.faults sink.old) (K.faults sink.new)) result }
{
    finish_team_bench(rt, alloc, number, team, gate, sink)
}
