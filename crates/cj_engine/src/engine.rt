//! The engine: a run, turn by turn.

ghost use Rattle.std.specs.Prelude.{◌≡◌, ◌<◌, ◌≤◌, ◌+◌, [], length, IfOk, IfErr, OnErr, slice_get, true, false};
ghost use Rattle.cj_ir.specs.WellFormed.{Takes};
ghost use Rattle.cj_base.specs.Run.{Begun, begun};
ghost use Rattle.cj_activations.specs.Changes.{all_registers};
ghost use Rattle.cj_machine.specs.Versions.{Continues, version_turn};
ghost use Rattle.cj_machine.specs.VersionRuns.{version_start, report_of};
ghost use Rattle.cj_machine.specs.Marks.{turn_marks, start_marks};
ghost use Rattle.cj_machine.specs.Stands.{Stands, Holds};
ghost use Rattle.cj_engine.specs.Watching.{Gains, Keeps, TellsAtMost};
ghost use Rattle.cj_machine.specs.Machines.{progress_of};
ghost use Rattle.cj_machine.specs.Stepping.{TurnTakesMemory};
ghost use Rattle.cj_engine.specs.Engines.{begun_with, HasRoom, goes_on};
ghost use Rattle.cj_machine.specs.CallRuns.{IsUnderWay, IsRun, RunGoes};
ghost use Rattle.cj_engine.specs.Stretches.{Onward, Halted};

use crate::runner::Runner;
use crate::watch::Watch;
use cj_base::{End, Turned};
use cj_calls::{Looks, Report};
use cj_ir::{Checked, NoMemory, ScriptCall, Values, zeros};
use std::alloc::Global;
use std::marker::Model;

/// A run of a call on base bodies and versions. Contracts see its program, its state, its looks, and whether a further
/// turn can be made.
#[derive(Debug, Drop)]
pub struct Engine<'p> {
    runner: Runner<'p>,
    running: bool,
}

impl<'p> Model for Engine<'p> {
    ghost use Rattle.cj_engine.specs.Engines.{EngineView};

    ghost Value = { EngineView };

    ghost use Rattle.cj_machine.specs.Machines.{state_of};

    ghost view = { λ e. record {
      program = e.runner.checked.now;
      state = state_of e.runner.machine;
      looks = e.runner.machine.looks;
      running = e.running;
    } };
}

/// What a run has given, and the memory that it leaves.
#[derive(Debug, Drop)]
pub struct Ran {
    pub report: Report,
    pub memory: Values,
}

impl<'p> Engine<'p> {
    /// The run of a call after its function is entered, with as many cells of memory as the call asks for, all 0.
    pub fn start<W: Watch>(
        alloc: Global,
        checked: &'p Checked,
        call: &ScriptCall,
        watch: &mut W,
    ) -> Result<Engine<'p>, NoMemory>
        requires takes { Takes checked.now.functions call.now.function (length call.now.args) }
        requires limit { (1 ≤ call.now.limit) × (call.now.limit ≤ 1000000) }
        requires ready { W.ready watch.old }
        requires program { W.program watch.old ≡ checked.now }
        ensures made { IfOk result (λ engine. version_start checked.now (W.codes watch.new) (slice_get engine.looks 0) (begun call.now) ≡ Continues engine.state) }
        ensures run { IfOk result (λ engine. IsRun checked.now (W.codes watch.new) engine.looks (begun call.now) engine.state) }
        ensures program { IfOk result (λ engine. engine.program ≡ checked.now) }
        ensures running { IfOk result (λ engine. engine.running ≡ true) }
        ensures no_turns { IfOk result (λ engine. engine.state.turns ≡ 0) }
        ensures gains { IfOk result (λ engine. Gains [] engine.looks (W.trail watch.old) (W.trail watch.new)) }
        ensures went { IfOk result (λ engine. W.went watch.old watch.new (start_marks (begun call.now))) }
        ensures told { OnErr result (TellsAtMost (W.went watch.old watch.new) (W.trail watch.old) (W.trail watch.new) (start_marks (begun call.now))) }
        ensures keeps { Keeps W.program W.codes W.stays W.ready watch.old watch.new }
    {
        let memory = zeros(alloc, call.cells as usize)?;
        let engine = Engine::start_from(alloc, checked, call, memory, watch)?;
        Ok(engine)
    }

    /// The run of a call after its function is entered, with this memory, however many cells the call asks for.
    pub fn start_from<W: Watch>(
        alloc: Global,
        checked: &'p Checked,
        call: &ScriptCall,
        memory: Values,
        watch: &mut W,
    ) -> Result<Engine<'p>, NoMemory>
        requires takes { Takes checked.now.functions call.now.function (length call.now.args) }
        requires limit { (1 ≤ call.now.limit) × (call.now.limit ≤ 1000000) }
        requires ready { W.ready watch.old }
        requires program { W.program watch.old ≡ checked.now }
        ensures made { IfOk result (λ engine. version_start checked.now (W.codes watch.new) (slice_get engine.looks 0) (begun_with call.now memory) ≡ Continues engine.state) }
        ensures run { IfOk result (λ engine. IsRun checked.now (W.codes watch.new) engine.looks (begun_with call.now memory) engine.state) }
        ensures program { IfOk result (λ engine. engine.program ≡ checked.now) }
        ensures running { IfOk result (λ engine. engine.running ≡ true) }
        ensures no_turns { IfOk result (λ engine. engine.state.turns ≡ 0) }
        ensures gains { IfOk result (λ engine. Gains [] engine.looks (W.trail watch.old) (W.trail watch.new)) }
        ensures went { IfOk result (λ engine. W.went watch.old watch.new (start_marks (begun_with call.now memory))) }
        ensures told { OnErr result (TellsAtMost (W.went watch.old watch.new) (W.trail watch.old) (W.trail watch.new) (start_marks (begun_with call.now memory))) }
        ensures keeps { Keeps W.program W.codes W.stays W.ready watch.old watch.new }
    {
        let runner = Runner::start(alloc, checked, call, memory, watch)?;
        Ok(Engine {
            runner,
            running: true,
        })
    }

    /// One turn. A call enters its function by a look of the watch, a `cond` of a base frame and a failed Assume are
    /// told to it. No instruction but a call, a print and a failing Assume takes memory.
    ///
    /// Where there is no memory the run is where it was, and can't go on. The watch was told nothing, or an entry.
    pub fn turn<W: Watch>(&mut self, watch: &mut W) -> Result<Turned, NoMemory>
        requires running { self.old.running ≡ true }
        requires ready { W.ready watch.old }
        requires program { W.program watch.old ≡ self.old.program }
        requires way { IsUnderWay self.old.program (W.codes watch.old) self.old.state }
        ensures made { IfOk result (λ answer.
            version_turn self.old.program (W.codes watch.new) (slice_get self.new.looks (length self.old.looks)) self.old.state ≡ progress_of answer self.new.state) }
        ensures gains { IfOk result (λ answer. Gains self.old.looks self.new.looks (W.trail watch.old) (W.trail watch.new)) }
        ensures went { IfOk result (λ answer. W.went watch.old watch.new (turn_marks self.old.program (W.codes watch.new) self.old.state)) }
        ensures holds { IfOk result (λ answer. (call : Begun) →
            Stands self.old.program (W.codes watch.old) call self.old.state → Holds self.old.program (W.codes watch.new) call (progress_of answer self.new.state)) }
        ensures goes { IfOk result (λ answer. (call : Begun) →
            IsRun self.old.program (W.codes watch.old) self.old.looks call self.old.state → self.old.state.turns < call.limit →
            RunGoes self.old.program (W.codes watch.new) self.new.looks call answer self.new.state) }
        ensures one_more { IfOk result (λ answer. self.new.state.turns ≡ self.old.state.turns + 1) }
        ensures running { IfOk result (λ answer. self.new.running ≡ goes_on answer) }
        ensures only_then { IfErr result (λ refused. TurnTakesMemory self.old.program (W.codes watch.new) self.old.state) }
        ensures no_memory { OnErr result (self.new ≡ record self.old { running = false }) }
        ensures told { OnErr result (TellsAtMost (W.went watch.old watch.new) (W.trail watch.old) (W.trail watch.new)
            (turn_marks self.old.program (W.codes watch.new) self.old.state)) }
        ensures program { self.new.program ≡ self.old.program }
        ensures keeps { Keeps W.program W.codes W.stays W.ready watch.old watch.new }
    {
        let _program = self.runner.checked.program();
        self.running = false;
        let turned = self.runner.advance(watch, 1)?;
        self.running = goes_on(turned);
        Ok(turned)
    }

    /// Up to `count` turns: as many, unless the run ends before. The version, or the function's lines, are fetched once for
    /// the turns that an activation makes one after the other.
    ///
    /// Where there is no memory the run is where the turns before brought it, and can't go on.
    pub fn advance<W: Watch>(&mut self, watch: &mut W, count: u64) -> Result<Turned, NoMemory>
        requires running { self.old.running ≡ true }
        requires ready { W.ready watch.old }
        requires program { W.program watch.old ≡ self.old.program }
        requires room { HasRoom self.old.program (W.codes watch.old) count self.old.state }
        ensures onward { IfOk result (λ answer.
            Onward self.old.program (W.went watch.old watch.new) (W.codes watch.new) self.new.looks count self.old.state answer self.new.state) }
        ensures gains { IfOk result (λ answer. Gains self.old.looks self.new.looks (W.trail watch.old) (W.trail watch.new)) }
        ensures goes { IfOk result (λ answer. (call : Begun) →
            IsRun self.old.program (W.codes watch.old) self.old.looks call self.old.state → self.old.state.turns + count ≤ call.limit →
            RunGoes self.old.program (W.codes watch.new) self.new.looks call answer self.new.state) }
        ensures running { IfOk result (λ answer. self.new.running ≡ goes_on answer) }
        ensures no_memory { OnErr result (self.new.running ≡ false) }
        ensures halted { OnErr result (Halted self.old.program (W.went watch.old watch.new) (W.codes watch.new)
            self.old.looks self.new.looks (W.trail watch.old) (W.trail watch.new) count self.old.state self.new.state) }
        ensures program { self.new.program ≡ self.old.program }
        ensures keeps { Keeps W.program W.codes W.stays W.ready watch.old watch.new }
    {
        let _program = self.runner.checked.program();
        self.running = false;
        let turned = self.runner.advance(watch, count)?;
        self.running = goes_on(turned);
        Ok(turned)
    }

    /// Whether a further turn can be made: the last one neither ended the run nor found no memory.
    pub fn running(&self) -> bool
        ensures { result ≡ self.now.running }
    {
        self.running
    }

    pub fn looks(&self) -> &Looks
        ensures { result.now ≡ self.now.looks }
    {
        &self.runner.machine.looks
    }

    /// The report of a run that ended so, or that reached its limit. It takes no memory.
    pub fn report(self, end: End) -> Report
        ensures { result ≡ report_of self.entry.looks end self.entry.state }
    {
        self.ran(end).report
    }

    /// The same, with the memory that the run leaves. It takes no memory.
    pub fn ran(self, end: End) -> Ran
        ensures report { result.report ≡ report_of self.entry.looks end self.entry.state }
        ensures memory { result.memory ≡ self.entry.state.memory }
    {
        let machine = self.runner.machine;
        Ran {
            report: Report {
                printed: machine.printed,
                end,
                turns: machine.turns,
                base_turns: machine.base_turns,
                fails: machine.fails,
                notes: machine.notes,
                looks: machine.looks,
            },
            memory: machine.memory,
        }
    }
}

#[tactic(auto, unfolding(cj_machine::specs::Machines::state_of))]
impl Engine<'_> {
    pub fn turns(&self) -> u64
        ensures { result ≡ self.now.state.turns }
    {
        self.runner.machine.turns
    }

    pub fn base_turns(&self) -> u64
        ensures { result ≡ self.now.state.base_turns }
    {
        self.runner.machine.base_turns
    }

    pub fn printed(&self) -> &Values
        ensures { result.now ≡ self.now.state.printed }
    {
        &self.runner.machine.printed
    }

    /// The registers of all activations, those of the outermost first.
    pub fn registers(&self) -> &[i64]
        ensures { result.now ≡ all_registers self.now.state.stack }
    {
        self.runner.machine.activations.registers()
    }
}

// Whether the run goes on after a turn.
#[tactic(auto, unfolding(crate::specs::Engines::goes_on))]
fn goes_on(turned: Turned) -> bool
    ensures { result ≡ goes_on turned }
{
    match turned {
        Turned::Running => true,
        Turned::Ended(_) => false,
    }
}
