//! One turn of a run, as far as it asks the watch.

ghost use Rattle.std.specs.Prelude.{◌≡◌, ◌<◌, ◌≤◌, ◌+◌, [], ◌∷◌, ◌++◌, length, Some, IfOk, IfErr, OnOk, OnErr, slice_get};
ghost use Rattle.cj_ir.specs.WellFormed.{Takes};
ghost use Rattle.cj_ir.specs.declared.language.Line.{Line};
ghost use Rattle.cj_ir.specs.Program.{line_at};
ghost use Rattle.cj_base.specs.Machine.{Calls};
ghost use Rattle.cj_activations.specs.Changes.{position_of};
ghost use Rattle.cj_activations.specs.declared.windows.Position.TheVariants.{Base};
ghost use Rattle.cj_machine.specs.Versions.{State, Continues, returns_to, turn_by, version_turn};
ghost use Rattle.cj_machine.specs.VersionRuns.{version_start};
ghost use Rattle.cj_machine.specs.Marks.{Entered, turn_marks, start_marks};
ghost use Rattle.cj_engine.specs.Watching.{Gains, Keeps, TellsAtMost};
ghost use Rattle.cj_machine.specs.Machines.{state_of, IsEarly, progress_of};
ghost use Rattle.cj_machine.specs.Stepping.{Turn, IsStep, IsReady, CanTake, TurnTakesMemory, IsEntry, marks_told};
ghost use Rattle.cj_engine.specs.Engines.{begun_with, CanTurn};
ghost use Rattle.cj_machine.specs.CallRuns.{IsRun};

use crate::places::{caller_at, entry_at};
use crate::watch::Watch;
use cj_activations::{Activations, Waits};
use cj_base::{End, Turned};
use cj_calls::{Look, Looks, Notes};
use cj_ir::{Checked, FunId, Instr, Label, NoMemory, Reg, ScriptCall, Values};
use cj_machine::{Machine, Scratch, Step};
use std::alloc::Global;

/// A program, the state of a run of it, and room for what an instruction reads.
#[derive(Debug, Drop)]
pub(crate) struct Runner<'p> {
    pub checked: &'p Checked,
    pub machine: Machine,
    pub scratch: Scratch,
}

impl<'p> Runner<'p> {
    /// The run of a call after its function is entered, with this memory. It makes the room that a Move needs.
    pub fn start<W: Watch>(
        alloc: Global,
        checked: &'p Checked,
        call: &ScriptCall,
        memory: Values,
        watch: &mut W,
    ) -> Result<Runner<'p>, NoMemory>
        requires takes { Takes checked.now.functions call.now.function (length call.now.args) }
        requires limit { (1 ≤ call.now.limit) × (call.now.limit ≤ 1000000) }
        requires ready { W.ready watch.old }
        requires program { W.program watch.old ≡ checked.now }
        ensures made { IfOk result (λ runner.
            version_start checked.now (W.codes watch.new) (slice_get runner.machine.looks 0) (begun_with call.now memory) ≡ Continues (state_of runner.machine)) }
        ensures run { IfOk result (λ runner. IsRun checked.now (W.codes watch.new) runner.machine.looks (begun_with call.now memory) (state_of runner.machine)) }
        ensures program { IfOk result (λ runner. runner.checked.now ≡ checked.now) }
        ensures no_turns { IfOk result (λ runner. runner.machine.turns ≡ 0) }
        ensures gains { IfOk result (λ runner. Gains [] runner.machine.looks (W.trail watch.old) (W.trail watch.new)) }
        ensures went { IfOk result (λ runner. W.went watch.old watch.new (start_marks (begun_with call.now memory))) }
        ensures told { OnErr result (TellsAtMost (W.went watch.old watch.new) (W.trail watch.old) (W.trail watch.new)
            (start_marks (begun_with call.now memory))) }
        ensures keeps { Keeps W.program W.codes W.stays W.ready watch.old watch.new }
    {
        let _program = checked.program();
        let scratch = Scratch::new(alloc)?;
        let mut looks = Looks::new(alloc);
        let args = call.args.items();
        let offset = watch.enter(call.function, args)?;
        looks.push(Look {
            function: call.function,
            offset,
        })?;
        let entry = entry_at(checked, call.function, offset, watch);
        let activations = Activations::enter(alloc, entry.position, args, entry.count)?;
        Ok(Runner {
            checked,
            machine: Machine {
                activations,
                memory,
                printed: Values::new(alloc),
                turns: 0,
                base_turns: 0,
                fails: 0,
                looks,
                notes: Notes::new(alloc),
            },
            scratch,
        })
    }

    // The turn of a base frame, at an instruction that was found.
    #[inline(always)]
    pub(crate) fn turn_base<W: Watch>(
        &mut self,
        instr: &Instr,
        function: FunId,
        label: Label,
        watch: &mut W,
    ) -> Result<Turned, NoMemory>
        requires ready { W.ready watch.old }
        requires program { W.program watch.old ≡ self.old.checked.now }
        requires can { CanTurn self.old.checked.now (W.codes watch.old) (state_of self.old.machine) }
        requires position { position_of self.old.machine.activations.top ≡ Base function label }
        requires line { (line : Line) × (line_at self.old.checked.now function label ≡ Some line) × (line.instr ≡ instr.now) }
        ensures made { IfOk result (λ answer.
            version_turn self.old.checked.now (W.codes watch.new)
            (slice_get self.new.machine.looks (length self.old.machine.looks)) (state_of self.old.machine)
            ≡ progress_of answer (state_of self.new.machine)) }
        ensures gains { IfOk result (λ answer. Gains self.old.machine.looks self.new.machine.looks (W.trail watch.old) (W.trail watch.new)) }
        ensures went { IfOk result (λ answer. W.went watch.old watch.new
            (turn_marks self.old.checked.now (W.codes watch.new) (state_of self.old.machine))) }
        ensures checked { self.new.checked ≡ self.old.checked }
        ensures no_memory { OnErr result (self.new.machine ≡ self.old.machine) }
        ensures only_then { IfErr result (λ refused. TurnTakesMemory self.old.checked.now (W.codes watch.new) (state_of self.old.machine)) }
        ensures told { OnErr result (TellsAtMost (W.went watch.old watch.new) (W.trail watch.old) (W.trail watch.new)
            (turn_marks self.old.checked.now (W.codes watch.new) (state_of self.old.machine))) }
        ensures keeps { Keeps W.program W.codes W.stays W.ready watch.old watch.new }
    {
        let step = self
            .machine
            .step_base(instr, function, label, &mut self.scratch)?;
        let turned = self.carry(step, function, label, watch)?;
        Ok(turned)
    }

    // What is left to do after an instruction at that label.
    #[inline(always)]
    pub(crate) fn carry<W: Watch>(
        &mut self,
        step: Step,
        function: FunId,
        label: Label,
        watch: &mut W,
    ) -> Result<Turned, NoMemory>
        requires ready { W.ready watch.old }
        requires program { W.program watch.old ≡ self.old.checked.now }
        requires fits { IsReady self.old.checked.now (W.codes watch.old) self.old.scratch function label (state_of self.old.machine) step }
        ensures made { IfOk result (λ answer. (turn : Turn) (before : State) →
            IsStep self.old.checked.now turn self.old.scratch before (state_of self.old.machine) step →
            turn (W.codes watch.new) (slice_get self.new.machine.looks (length self.old.machine.looks))
            ≡ progress_of answer (state_of self.new.machine)) }
        ensures gains { IfOk result (λ answer. Gains self.old.machine.looks self.new.machine.looks (W.trail watch.old) (W.trail watch.new)) }
        ensures went { IfOk result (λ answer. W.went watch.old watch.new (marks_told step function label self.old.scratch)) }
        ensures only_then { IfErr result (λ refused. IsEntry step) }
        ensures no_memory { OnErr result (self.new.machine ≡ self.old.machine) }
        ensures told { OnErr result (TellsAtMost (W.went watch.old watch.new) (W.trail watch.old) (W.trail watch.new)
            (marks_told step function label self.old.scratch)) }
        ensures checked { self.new.checked ≡ self.old.checked }
        ensures keeps { Keeps W.program W.codes W.stays W.ready watch.old watch.new }
    {
        match step {
            Step::Goes => Ok(Turned::Running),
            Step::Branches(edge) => {
                watch.branched(function, label, edge);
                Ok(Turned::Running)
            }
            Step::Ends(end) => Ok(Turned::Ended(end)),
            Step::Enters {
                dest,
                function,
                next,
            } => {
                self.enter(dest, function, next, watch)?;
                Ok(Turned::Running)
            }
            Step::Returns(value) => Ok(self.give_back(value, watch)),
            Step::Fails => {
                watch.failed(function);
                Ok(Turned::Running)
            }
        }
    }

    // A function is entered with the arguments in the scratch list, and the top waits for its value.
    fn enter<W: Watch>(
        &mut self,
        dest: Reg,
        function: FunId,
        next: Label,
        watch: &mut W,
    ) -> Result<(), NoMemory>
        requires ready { W.ready watch.old }
        requires program { W.program watch.old ≡ self.old.checked.now }
        requires early { IsEarly (state_of self.old.machine) }
        requires takes { Takes self.old.checked.now.functions function (length self.old.scratch) }
        ensures made { OnOk result (turn_by self.old.checked.now (W.codes watch.new)
            (slice_get self.new.machine.looks (length self.old.machine.looks)) (state_of self.old.machine)
            self.old.machine.activations.top (Calls dest function self.old.scratch next)
            ≡ Continues (state_of self.new.machine)) }
        ensures gains { OnOk result (Gains self.old.machine.looks self.new.machine.looks (W.trail watch.old) (W.trail watch.new)) }
        ensures went { OnOk result (W.went watch.old watch.new (Entered function self.old.scratch ∷ [])) }
        ensures no_memory { OnErr result (self.new.machine ≡ self.old.machine) }
        ensures told { OnErr result (TellsAtMost (W.went watch.old watch.new) (W.trail watch.old) (W.trail watch.new)
            (Entered function self.old.scratch ∷ [])) }
        ensures checked { self.new.checked ≡ self.old.checked }
        ensures keeps { Keeps W.program W.codes W.stays W.ready watch.old watch.new }
    {
        let args = self.scratch.items();
        let offset = watch.enter(function, args)?;
        self.machine.looks.push(Look { function, offset })?;
        let entry = entry_at(self.checked, function, offset, watch);
        match self
            .machine
            .activations
            .call(dest, next, entry.position, args, entry.count)
        {
            Ok(()) => {
                self.machine.count();
                Ok(())
            }
            Err(error) => {
                let _unused = self.machine.looks.pop();
                Err(error)
            }
        }
    }

    // The top is done. The innermost of those that wait takes the value; with none the run ends.
    fn give_back<W: Watch>(&mut self, value: i64, watch: &W) -> Turned
        requires ready { W.ready watch.now }
        requires early { IsEarly (state_of self.old.machine) }
        requires callers { CanTake (W.codes watch.now) self.old.machine.activations.waiting }
        ensures made { returns_to (W.codes watch.now) (state_of self.old.machine) value self.old.machine.activations.waiting
            ≡ progress_of result (state_of self.new.machine) }
        ensures looks { self.new.machine.looks ≡ self.old.machine.looks }
        ensures checked { self.new.checked ≡ self.old.checked }
    {
        match self.machine.activations.waiting() {
            None => self.machine.end(End::Returned(value)),
            Some(Waits::Base { label, dest }) => {
                self.machine.resume(dest, label, value);
                Turned::Running
            }
            Some(
                Waits::Version {
                    function,
                    offset,
                    label,
                },
            ) => {
                let caller = caller_at(watch, function, offset, label);
                self.machine.resume(caller.dest, caller.next, value);
                Turned::Running
            }
        }
    }
}
