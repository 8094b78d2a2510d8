//! The words of the command line that ask for callers and workers in threads.

ghost use Rattle.std.specs.Prelude.{◌≡◌, ◌≤◌, map, IfSome};
ghost use Rattle.std.specs.String.{string_bytes};
ghost use Rattle.cj_driver.specs.TeamCommands.{digit_of, team_of, run_of, bench_with, team_command_of, IsFew, team_in};

use crate::command::{Command, bench_of};

/// How many threads make calls, 1 to 4, and how many make versions, 0 to 4.
#[derive(Clone, Copy, Debug, PartialEq, Eq)]
pub struct Team {
    pub callers: u32,
    pub workers: u32,
}

/// What callers and workers are asked to do.
#[derive(Clone, Copy, Debug, PartialEq, Eq)]
pub enum TeamCommand {
    /// Reads an input from the source, runs its calls, and writes the text of their reports.
    Run(Team),
    /// Runs the calls of the generated input of that number, and writes the summary of their reports.
    Bench { number: u32, team: Team },
}

impl TeamCommand {
    /// The command that the words are; none where they are no form of the call.
    #[tactic(auto, unfolding(crate::specs::TeamCommands::team_command_of, crate::specs::TeamCommands::run_of))]
    pub fn of(words: &[String]) -> Option<TeamCommand>
        ensures command { result ≡ team_command_of (map string_bytes words.now) }
        ensures few { IfSome result (λ command. IsFew (team_in command)) }
    {
        match words {
            [word, callers, workers] => {
                if word.as_bytes() != "run".as_bytes() {
                    return None;
                }
                run_of(team_of(callers.as_bytes(), workers.as_bytes()))
            }
            [word, number, callers, workers] => {
                if word.as_bytes() != "bench".as_bytes() {
                    return None;
                }
                bench_with(
                    number.as_str(),
                    team_of(callers.as_bytes(), workers.as_bytes()),
                )
            }
            _ => None,
        }
    }
}

#[tactic(auto, unfolding(crate::specs::TeamCommands::run_of))]
fn run_of(team: Option<Team>) -> Option<TeamCommand>
    requires few { IfSome team IsFew }
    ensures command { result ≡ run_of team }
    ensures few { IfSome result (λ command. IsFew (team_in command)) }
{
    match team {
        Some(team) => Some(TeamCommand::Run(team)),
        None => None,
    }
}

// The bench of a number of one to six digits, by a team.
#[tactic(auto, unfolding(crate::specs::TeamCommands::bench_with, crate::specs::Commands::bench_of))]
fn bench_with(number: &str, team: Option<Team>) -> Option<TeamCommand>
    requires few { IfSome team IsFew }
    ensures command { result ≡ bench_with number.now team }
    ensures few { IfSome result (λ command. IsFew (team_in command)) }
{
    let Some(team) = team else { return None };
    match bench_of(number) {
        Some(Command::Bench { number }) => Some(TeamCommand::Bench { number, team }),
        _ => None,
    }
}

#[tactic(auto, unfolding(crate::specs::TeamCommands::team_of, crate::specs::TeamCommands::team_with))]
fn team_of(callers: &[u8], workers: &[u8]) -> Option<Team>
    ensures team { result ≡ team_of callers.now workers.now }
    ensures few { IfSome result IsFew }
{
    let callers = digit_of(1, 4, callers);
    let workers = digit_of(0, 4, workers);
    match (callers, workers) {
        (Some(callers), Some(workers)) => Some(Team { callers, workers }),
        _ => None,
    }
}

// The number that a word of one digit writes, from the least to the greatest.
#[tactic(auto, unfolding(crate::specs::TeamCommands::digit_of))]
fn digit_of(least: u8, greatest: u8, word: &[u8]) -> Option<u32>
    requires { (least ≤ 9) × (greatest ≤ 9) }
    ensures digit { result ≡ digit_of least greatest word.now }
    ensures within { IfSome result (λ digit. (least ≤ digit) × (digit ≤ greatest)) }
{
    match word {
        [byte] => {
            if b'0' + least <= *byte && *byte <= b'0' + greatest {
                Some(u32::from(*byte - b'0'))
            } else {
                None
            }
        }
        _ => None,
    }
}
