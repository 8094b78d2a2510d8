//! What a command makes of a text.

ghost use Rattle.std.specs.Prelude.{IfOk};
ghost use Rattle.cj_script.specs.Fitting.{FitsScript};
ghost use Rattle.cj_events.specs.Playable.{CanPlay};
ghost use Rattle.cj_driver.specs.TeamCommands.{IsFew};
ghost use Rattle.cj_driver.specs.Texts.{OwesOnInput, OwesPlay, OwesSummary, OwesTeam, OwesTeamSummary, AloneAnswers, TeamAnswers};

use crate::command::Job;
use crate::finish::Made;
use crate::team::Team;
use cj_alone::alone_with;
use cj_bench::{generated, summary_of};
use cj_calls::{Reports, text_of};
use cj_io::Gate;
use cj_ir::{Checked, Input, NoMemory};
use cj_roles::run_roles;
use cj_text::print_input;
use cj_world::{Events, play};
use std::alloc::Global;
use std::sync::Wait;
use std::thread::Threads;

/// How many words a code table has.
const TABLE_WORDS: u32 = 1_048_576;

/// What a command made, and the bytes that are owed for it.
#[derive(Drop)]
pub struct Answer {
    pub made: Made,
    pub text: Vec<u8>,
}

/// Runs an input's calls on one thread, with a look for a job after each.
fn run_alone(alloc: Global, input: &Input) -> Result<Made, NoMemory>
    requires { FitsScript input.now.checked input.now.script }
    ensures { IfOk result (AloneAnswers input.now) }
{
    let _program = input.checked.program();
    let (reports, work, store) = alone_with(alloc, input, TABLE_WORDS)?;
    Ok(Made {
        reports,
        work,
        store: Some(store),
    })
}

/// Runs an input's calls by callers and workers in threads.
fn run_team<R: Threads + Wait + Sync, G: Gate + Sync>(
    rt: &R,
    alloc: Global,
    team: Team,
    input: &Input,
    gate: &G,
) -> Result<Made, NoMemory>
    requires fits { FitsScript input.now.checked input.now.script }
    requires few { IsFew team }
    ensures { IfOk result (TeamAnswers team input.now) }
{
    let (reports, work, store) = run_roles(rt, alloc, input, team.callers, team.workers, gate)?;
    Ok(Made {
        reports,
        work,
        store: Some(store),
    })
}

/// What the job makes of the input.
pub fn perform(alloc: Global, job: Job, input: &Input) -> Result<Answer, NoMemory>
    requires { FitsScript input.now.checked input.now.script }
    ensures { IfOk result (λ answer. OwesOnInput job input.now answer.made answer.text.items) }
{
    match job {
        Job::Alone { stats } => {
            let made = run_alone(alloc, input)?;
            let text = text_of(alloc, &input.checked, &made.reports, stats)?;
            Ok(Answer { made, text })
        }
        Job::Format => {
            let text = print_input(alloc, input)?;
            Ok(Answer {
                made: Made::nothing(alloc),
                text,
            })
        }
    }
}

/// What a team makes of the input.
pub fn perform_team<R: Threads + Wait + Sync, G: Gate + Sync>(
    rt: &R,
    alloc: Global,
    team: Team,
    input: &Input,
    gate: &G,
) -> Result<Answer, NoMemory>
    requires fits { FitsScript input.now.checked input.now.script }
    requires few { IsFew team }
    ensures { IfOk result (λ answer. OwesTeam team input.now answer.made answer.text.items) }
{
    let made = run_team(rt, alloc, team, input, gate)?;
    let text = text_of(alloc, &input.checked, &made.reports, false)?;
    Ok(Answer { made, text })
}

/// The reports of the play of the events, and their text.
pub fn perform_play(
    alloc: Global,
    stats: bool,
    checked: &Checked,
    events: &Events,
) -> Result<Answer, NoMemory>
    requires { CanPlay checked.now events.now }
    ensures { IfOk result (λ answer. OwesPlay stats (checked.now, events.now) answer.made answer.text.items) }
{
    let played = play(alloc, checked, events)?;
    let text = text_of(alloc, checked, &played.reports, stats)?;
    Ok(Answer {
        made: Made::reports_alone(alloc, played.reports),
        text,
    })
}

/// The reports of the generated input's calls, and their summary.
pub fn perform_bench(alloc: Global, number: u32) -> Result<Answer, NoMemory>
    ensures { IfOk result (λ answer. OwesSummary number answer.made answer.text.items) }
{
    let input = generated(alloc, number)?;
    let made = run_alone(alloc, &input)?;
    let text = summary_of(alloc, number, &made.reports)?;
    Ok(Answer { made, text })
}

/// The same by callers and workers in threads.
pub fn perform_team_bench<R: Threads + Wait + Sync, G: Gate + Sync>(
    rt: &R,
    alloc: Global,
    number: u32,
    team: Team,
    gate: &G,
) -> Result<Answer, NoMemory>
    requires few { IsFew team }
    ensures { IfOk result (λ answer. OwesTeamSummary number team answer.made answer.text.items) }
{
    let input = generated(alloc, number)?;
    let made = run_team(rt, alloc, team, &input, gate)?;
    let text = summary_of(alloc, number, &made.reports)?;
    Ok(Answer { made, text })
}
