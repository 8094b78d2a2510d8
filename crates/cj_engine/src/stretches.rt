//! Turns of a run, one after the other.

ghost use Rattle.std.specs.Prelude.{◌≡◌, ◌<◌, ◌≤◌, length, IsSome, IfOk, OnErr};
ghost use Rattle.cj_ir.specs.declared.language.Label.{Label};
ghost use Rattle.cj_activations.specs.Changes.{position_of};
ghost use Rattle.cj_activations.specs.declared.windows.Position.TheVariants.{Base, Version};
ghost use Rattle.cj_engine.specs.Watching.{Gains, Keeps};
ghost use Rattle.cj_machine.specs.Machines.{state_of};
ghost use Rattle.cj_engine.specs.Engines.{HasRoom};
ghost use Rattle.cj_engine.specs.Stretches.{Glides, Starves, Onward, Stretched, Halted};

use crate::places::{base_label_in, instr_in, label_of, line_in};
use crate::runner::Runner;
use crate::watch::Watch;
use cj_activations::Position;
use cj_base::Turned;
use cj_ir::{FunId, Label, NoMemory};
use cj_machine::Step;

/// Where turns of a version stopped, and what the last one left to do.
#[derive(Clone, Copy)]
struct Stop {
    step: Step,
    label: Label,
}

impl Runner<'_> {
    /// Up to `count` turns: as many, unless the run ends before. The version, or the function's lines, are fetched once for
    /// the turns that an activation makes one after the other.
    pub fn advance<W: Watch>(&mut self, watch: &mut W, count: u64) -> Result<Turned, NoMemory>
        requires ready { W.ready watch.old }
        requires program { W.program watch.old ≡ self.old.checked.now }
        requires room { HasRoom self.old.checked.now (W.codes watch.old) count (state_of self.old.machine) }
        ensures onward { IfOk result (λ answer. Onward self.old.checked.now (W.went watch.old watch.new) (W.codes watch.new) self.new.machine.looks count
            (state_of self.old.machine) answer (state_of self.new.machine)) }
        ensures gains { IfOk result (λ answer. Gains self.old.machine.looks self.new.machine.looks (W.trail watch.old) (W.trail watch.new)) }
        ensures halted { OnErr result (Halted self.old.checked.now (W.went watch.old watch.new) (W.codes watch.new)
            self.old.machine.looks self.new.machine.looks (W.trail watch.old) (W.trail watch.new) count (state_of self.old.machine) (state_of self.new.machine)) }
        ensures checked { self.new.checked ≡ self.old.checked }
        ensures keeps { Keeps W.program W.codes W.stays W.ready watch.old watch.new }
    {
        let _program = self.checked.program();
        let last = self.machine.turns + count;
        for _ in 0..count {
            let left = last - self.machine.turns;
            if left == 0 {
                break;
            }
            if let Turned::Ended(end) = self.stretch(watch, left)? {
                return Ok(Turned::Ended(end));
            }
        }
        Ok(Turned::Running)
    }

    // At least one turn and at most so many, by the activation on top.
    fn stretch<W: Watch>(&mut self, watch: &mut W, count: u64) -> Result<Turned, NoMemory>
        requires ready { W.ready watch.old }
        requires program { W.program watch.old ≡ self.old.checked.now }
        requires some { 1 ≤ count }
        requires room { HasRoom self.old.checked.now (W.codes watch.old) count (state_of self.old.machine) }
        ensures made { IfOk result (λ answer. Stretched self.old.checked.now (W.went watch.old watch.new) (W.codes watch.new) self.new.machine.looks count
            (state_of self.old.machine) answer (state_of self.new.machine)) }
        ensures gains { IfOk result (λ answer. Gains self.old.machine.looks self.new.machine.looks (W.trail watch.old) (W.trail watch.new)) }
        ensures halted { OnErr result (Halted self.old.checked.now (W.went watch.old watch.new) (W.codes watch.new)
            self.old.machine.looks self.new.machine.looks (W.trail watch.old) (W.trail watch.new) count (state_of self.old.machine) (state_of self.new.machine)) }
        ensures checked { self.new.checked ≡ self.old.checked }
        ensures keeps { Keeps W.program W.codes W.stays W.ready watch.old watch.new }
    {
        let _program = self.checked.program();
        let position = self.machine.activations.position();
        match position {
            Position::Base { function, .. } => {
                let turned = self.stretch_base(watch, function, count)?;
                Ok(turned)
            }
            Position::Version {
                function,
                offset,
                ..
            } => {
                let stop = self.glide(watch, function, offset, count)?;
                match stop.step {
                    Step::Goes => Ok(Turned::Running),
                    step => {
                        let turned = self.carry(step, function, stop.label, watch)?;
                        Ok(turned)
                    }
                }
            }
        }
    }

    // At least one turn and at most so many, while a base frame of that function is on top.
    fn stretch_base<W: Watch>(
        &mut self,
        watch: &mut W,
        function: FunId,
        count: u64,
    ) -> Result<Turned, NoMemory>
        requires ready { W.ready watch.old }
        requires program { W.program watch.old ≡ self.old.checked.now }
        requires some { 1 ≤ count }
        requires inside { function.0 < length self.old.checked.now.functions }
        requires place { (label : Label) × (position_of self.old.machine.activations.top ≡ Base function label) }
        requires room { HasRoom self.old.checked.now (W.codes watch.old) count (state_of self.old.machine) }
        ensures made { IfOk result (λ answer. Stretched self.old.checked.now (W.went watch.old watch.new) (W.codes watch.new) self.new.machine.looks count
            (state_of self.old.machine) answer (state_of self.new.machine)) }
        ensures gains { IfOk result (λ answer. Gains self.old.machine.looks self.new.machine.looks (W.trail watch.old) (W.trail watch.new)) }
        ensures halted { OnErr result (Halted self.old.checked.now (W.went watch.old watch.new) (W.codes watch.new)
            self.old.machine.looks self.new.machine.looks (W.trail watch.old) (W.trail watch.new) count (state_of self.old.machine) (state_of self.new.machine)) }
        ensures checked { self.new.checked ≡ self.old.checked }
        ensures keeps { Keeps W.program W.codes W.stays W.ready watch.old watch.new }
    {
        let _program = self.checked.program();
        let checked = self.checked;
        let body = checked.function(function);
        for _ in 0..count {
            let position = self.machine.activations.position();
            let Some(label) = base_label_in(position, function) else {
                return Ok(Turned::Running);
            };
            let instr = line_in(body, label);
            if let Turned::Ended(end) = self.turn_base(instr, function, label, watch)? {
                return Ok(Turned::Ended(end));
            }
        }
        Ok(Turned::Running)
    }

    // Turns of the version on top, at most so many, up to the first that leaves something to do. All others stay in the version.
    fn glide<W: Watch>(
        &mut self,
        watch: &W,
        function: FunId,
        offset: u64,
        count: u64,
    ) -> Result<Stop, NoMemory>
        requires ready { W.ready watch.now }
        requires program { W.program watch.now ≡ self.old.checked.now }
        requires some { 1 ≤ count }
        requires place { (label : Label) × (position_of self.old.machine.activations.top ≡ Version function offset label) }
        requires found { IsSome (W.codes watch.now function offset) }
        requires room { HasRoom self.old.checked.now (W.codes watch.now) count (state_of self.old.machine) }
        ensures made { IfOk result (λ stop. Glides self.old.checked.now (W.codes watch.now) self.new.scratch function stop.label count
            (state_of self.old.machine) (state_of self.new.machine) stop.step) }
        ensures starved { OnErr result (Starves self.old.checked.now (W.codes watch.now) count (state_of self.old.machine) (state_of self.new.machine)) }
        ensures looks { self.new.machine.looks ≡ self.old.machine.looks }
        ensures checked { self.new.checked ≡ self.old.checked }
    {
        let _program = self.checked.program();
        let code = watch.version(function, offset).code();
        for _ in 0..count {
            let label = label_of(self.machine.activations.position());
            let instr = instr_in(code, label);
            match self.machine.step_version(instr, &mut self.scratch)? {
                Step::Goes => {}
                step => return Ok(Stop { step, label }),
            }
        }
        Ok(Stop {
            step: Step::Goes,
            label: Label(0),
        })
    }
}
