//! The start of a call, and its whole run.

ghost use Rattle.std.specs.Prelude.{◌≡◌, ◌≤◌, length, IfOk};
ghost use Rattle.cj_ir.specs.WellFormed.{Takes};
ghost use Rattle.cj_base.specs.Machine.{config_of};
ghost use Rattle.cj_base.specs.Fits.{Fits};
ghost use Rattle.cj_base.specs.Run.{begun, start_of};
ghost use Rattle.cj_base.specs.Whole.{IsOutcomeOf, IsWhole};

use crate::entry::entry_frame;
use crate::machine::{Config, End, Stack, Turned};
use cj_ir::{Checked, Duplicate, NoMemory, ScriptCall, Values, zeros};
use std::alloc::Global;

impl Config {
    /// The configuration in which a call starts: the entry frame of its function, no waiting frame, and as many cells
    /// as the call asks for, all 0. A call gives as many arguments as its function has parameters.
    #[tactic(auto, using(crate::proofs::FitsLemmas::start_fits), unfolding(crate::specs::Machine::config_of, crate::specs::Run::begun, crate::specs::Run::start_of))]
    pub fn start(alloc: Global, checked: &Checked, call: &ScriptCall) -> Result<Config, NoMemory>
        requires { Takes checked.now.functions call.now.function (length call.now.args) }
        ensures start { IfOk result (λ config. config_of config ≡ start_of checked.now (begun call.now)) }
        ensures fits { IfOk result (λ config. Fits checked.now (config_of config)) }
    {
        let top = entry_frame(checked.program(), call.function, call.args.copy()?)?;
        let memory = zeros(alloc, call.cells as usize)?;
        Ok(Config {
            top,
            waiting: Stack::new(alloc),
            memory,
        })
    }
}

/// What a run printed, how it ended, and how many turns it made, the one that ended it counted.
#[derive(Debug, Drop)]
pub struct Outcome {
    pub printed: Values,
    pub end: End,
    pub turns: u64,
}

/// The run of a call: turns are made until one ends the run, or until as many were made as the call's limit says.
///
/// TurnLimit: `turns` is the limit, and the run has not ended.
pub fn run(alloc: Global, checked: &Checked, call: &ScriptCall) -> Result<Outcome, NoMemory>
    requires { Takes checked.now.functions call.now.function (length call.now.args) }
    ensures outcome { IfOk result (IsOutcomeOf checked.now (begun call.now)) }
    ensures whole { IfOk result (IsWhole checked.now (begun call.now)) }
{
    let mut config = Config::start(alloc, checked, call)?;
    let mut printed = Values::new(alloc);
    for turn in 0..call.limit {
        if let Turned::Ended(end) = config.turn(checked, &mut printed)? {
            return Ok(Outcome {
                printed,
                end,
                turns: u64::from(turn) + 1,
            });
        }
    }
    Ok(Outcome {
        printed,
        end: End::TurnLimit,
        turns: u64::from(call.limit),
    })
}
