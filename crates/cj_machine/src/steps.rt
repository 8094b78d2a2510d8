//! One instruction of a base frame, and of a version, but for what it leaves to do.

ghost use Rattle.std.specs.Prelude.{◌≡◌, ◌<◌, ◌≤◌, length, map, slice_set, [], ℤ, List, All, IfOk, IfErr, OnOk, OnErr};
ghost use Rattle.cj_ir.specs.WellFormed.{IsInstrFine};
ghost use Rattle.cj_ir.specs.declared.language.Program.{Program};
ghost use Rattle.cj_base.specs.declared.machine.Frame.{Frame};
ghost use Rattle.cj_base.specs.declared.machine.Turned.TheVariants.{Running};
ghost use Rattle.cj_ir.specs.Values.{operand_value, IsOperandWithin};
ghost use Rattle.cj_base.specs.Machine.{effect};
ghost use Rattle.cj_draft.specs.Effects.{version_effect, moved};
ghost use Rattle.cj_draft.specs.WellNamed.{IsVInstrFine, ArePairsFine};
ghost use Rattle.cj_activations.specs.Activations.{InBase};
ghost use Rattle.cj_activations.specs.Changes.{active_regs, position_of, with_regs};
ghost use Rattle.cj_activations.specs.declared.windows.Position.TheVariants.{Base};
ghost use Rattle.cj_machine.specs.Machines.{state_of, IsEarly, went_on};
ghost use Rattle.cj_machine.specs.declared.steps.Step.TheVariants.{Enters};
ghost use Rattle.cj_machine.specs.Stepping.{CanGoBack, IsBaseStep, IsVersionStep, step_of, EffectTakesMemory, VersionTakesMemory};

use crate::machine::Machine;
use crate::scratch::Scratch;
use cj_activations::Activations;
use cj_base::{End, Turned};
use cj_draft::laws::assignments_are_few;
use cj_draft::limits::MAX_CODE_REGS;
use cj_draft::{Pair, Pairs, VInstr};
use cj_ir::{Edge, FunId, Instr, Label, NoMemory, Operands, Reg};

/// What is left to do after an instruction.
#[derive(Clone, Copy, Debug, PartialEq, Eq)]
pub enum Step {
    /// The run goes on.
    Goes,
    /// The run goes on from a `cond` of a base frame, over that edge.
    Branches(Edge),
    Ends(End),
    /// A function is to be entered. Its arguments stand in the scratch list.
    Enters {
        dest: Reg,
        function: FunId,
        next: Label,
    },
    /// The top is done, and gives this value.
    Returns(i64),
    /// A guard failed, and base frames stand in the version's place.
    Fails,
}

#[tactic(auto, unfolding(crate::specs::Stepping::step_of))]
impl From<Turned> for Step {
    fn from(turned: Turned) -> Step
        ensures { result ≡ step_of turned }
    {
        match turned {
            Turned::Running => Step::Goes,
            Turned::Ended(end) => Step::Ends(end),
        }
    }
}

impl Machine {
    /// The instruction at which a base frame stands.
    #[inline(always)]
    pub fn step_base(
        &mut self,
        instr: &Instr,
        function: FunId,
        label: Label,
        scratch: &mut Scratch,
    ) -> Result<Step, NoMemory>
        requires early { IsEarly (state_of self.old) }
        requires position { position_of self.old.activations.top ≡ Base function label }
        requires fine { (functions : _) × (labels : _) × IsInstrFine functions (length (active_regs self.old.activations.top)) labels instr.now }
        ensures made { IfOk result (λ step. IsBaseStep instr.now scratch.new (state_of self.old) (state_of self.new) step) }
        ensures looks { IfOk result (λ step. self.new.looks ≡ self.old.looks) }
        ensures no_memory { OnErr result (self.new ≡ self.old) }
        ensures only_then { IfErr result (λ refused. (fr : Frame) → self.old.activations.top ≡ InBase fr → EffectTakesMemory (effect instr.now fr self.old.memory)) }
    {
        Ok(match instr {
            Instr::Nop { next } => Step::from(self.go_to(*next)),
            Instr::Op { dest, expr, next } => Step::from(self.operate(*dest, expr, *next)),
            Instr::Cond {
                test,
                then_to,
                else_to,
            } => Step::Branches(self.branch(test, *then_to, *else_to)),
            Instr::Call {
                dest,
                function,
                args,
                next,
            } => self.call(*dest, *function, args, *next, scratch)?,
            Instr::Return { value } => Step::Returns(self.value(value)),
            Instr::Print { value, next } => Step::from(self.print(value, *next)?),
            Instr::Load {
                dest,
                address,
                next,
            } => Step::from(self.load(*dest, address, *next)),
            Instr::Store {
                address,
                value,
                next,
            } => Step::from(self.store(address, value, *next)),
            Instr::Fail { .. } => Step::from(self.end(End::Failed { function, label })),
        })
    }

    /// The instruction of the place at which a version stands.
    #[inline(always)]
    pub fn step_version(&mut self, instr: &VInstr, scratch: &mut Scratch) -> Result<Step, NoMemory>
        requires early { IsEarly (state_of self.old) }
        requires few { length (active_regs self.old.activations.top) ≤ MAX_CODE_REGS }
        requires back { CanGoBack self.old.base_turns instr.now }
        requires fine { (P : Program) × (labels : _) × IsVInstrFine P (length (active_regs self.old.activations.top)) labels instr.now }
        ensures made { IfOk result (λ step. IsVersionStep instr.now scratch.new (state_of self.old) (state_of self.new) step) }
        ensures looks { IfOk result (λ step. self.new.looks ≡ self.old.looks) }
        ensures no_memory { OnErr result (self.new ≡ self.old) }
        ensures only_then { IfErr result (λ refused. VersionTakesMemory (version_effect instr.now (active_regs self.old.activations.top) self.old.memory)) }
    {
        Ok(match instr {
            VInstr::Nop { next } => Step::from(self.go_to(*next)),
            VInstr::Op { dest, expr, next } => Step::from(self.operate(*dest, expr, *next)),
            VInstr::Move { pairs, next } => Step::from(self.assign(pairs, *next, scratch)),
            VInstr::Cond {
                test,
                then_to,
                else_to,
            } => {
                let _edge = self.branch(test, *then_to, *else_to);
                Step::Goes
            }
            VInstr::Call {
                dest,
                function,
                args,
                next,
            } => self.call(*dest, *function, args, *next, scratch)?,
            VInstr::Return { value } => Step::Returns(self.value(value)),
            VInstr::Print { value, next } => Step::from(self.print(value, *next)?),
            VInstr::Load {
                dest,
                address,
                next,
            } => Step::from(self.load(*dest, address, *next)),
            VInstr::Store {
                address,
                value,
                next,
            } => Step::from(self.store(address, value, *next)),
            VInstr::Fail { function, label } => Step::from(self.end(End::Failed {
                function: *function,
                label: *label,
            })),
            VInstr::Assume {
                guards,
                back,
                target,
                next,
            } => self.assume(guards, *back, target, *next)?,
            VInstr::Anchor { next, .. } => Step::from(self.pass(*next)),
        })
    }

    // A call, whose arguments are read into the scratch list.
    fn call(
        &self,
        dest: Reg,
        function: FunId,
        args: &Operands,
        next: Label,
        scratch: &mut Scratch,
    ) -> Result<Step, NoMemory>
        requires { All (IsOperandWithin (length (active_regs self.now.activations.top))) args.now }
        ensures enters { IfOk result (λ step. step ≡ Enters dest function next) }
        ensures read { OnOk result (scratch.new ≡ map (operand_value (active_regs self.now.activations.top)) args.now) }
    {
        scratch.read(args.items(), self.activations.top_registers())?;
        Ok(Step::Enters {
            dest,
            function,
            next,
        })
    }

    // A Move: all its operands are read before the first register is written.
    fn assign(&mut self, pairs: &Pairs, next: Label, scratch: &mut Scratch) -> Turned
        requires early { IsEarly (state_of self.old) }
        requires few { length (active_regs self.old.activations.top) ≤ MAX_CODE_REGS }
        requires pairs { ArePairsFine (length (active_regs self.old.activations.top)) pairs.now }
        ensures running { result ≡ Running }
        ensures made { state_of self.new ≡ went_on (state_of self.old) next
            (moved (active_regs self.old.activations.top) pairs.now (active_regs self.old.activations.top)) self.old.memory [] }
        ensures looks { self.new.looks ≡ self.old.looks }
    {
        assignments_are_few(pairs, MAX_CODE_REGS);
        scratch.read_pairs(pairs, self.activations.top_registers());
        write_pairs(&mut self.activations, pairs.items(), scratch.items());
        self.go_to(next)
    }
}

// Writes the values to the destinations.
fn write_pairs(activations: &mut Activations, pairs: &[Pair], values: &[i64])
    requires dests { All (λ pair. pair.dest.0 < length (active_regs activations.old.top)) pairs.now }
    requires count { length values.now ≡ length pairs.now }
    ensures { (regs : List ℤ) → values.now ≡ map (λ pair. operand_value regs pair.value) pairs.now →
        activations.new ≡ record activations.old {
          top = with_regs activations.old.top (moved regs pairs.now (active_regs activations.old.top));
        } }
{
    for place in 0..pairs.len() {
        write_pair(activations, &pairs[place], &values[place]);
    }
}

// Writes a value to the destination.
fn write_pair(activations: &mut Activations, pair: &Pair, value: &i64)
    requires { pair.now.dest.0 < length (active_regs activations.old.top) }
    ensures { activations.new ≡ record activations.old {
      top = with_regs activations.old.top (slice_set (active_regs activations.old.top) pair.now.dest.0 value.now);
    } }
{
    activations.set_register(pair.dest, *value);
}
