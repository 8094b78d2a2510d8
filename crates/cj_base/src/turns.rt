//! One turn of the base machine.

ghost use Rattle.std.specs.Prelude.{◌≡◌, ◌≢◌, ◌<◌, [], length, map, All, Some, None, IfOk, IfErr, OnErr, IsSome, slice_set, true, false};
ghost use Rattle.cj_ir.specs.Values.{operand_value, expr_value, IsOperandWithin, IsExprWithin};
ghost use Rattle.cj_ir.specs.WellFormed.{IsInstrFine};
ghost use Rattle.cj_ir.specs.Program.{instr_at, label_count};
ghost use Rattle.cj_base.specs.Machine.{config_of, cell, with_cell, effect, op_effect, load_effect, store_effect, Calls, give, turn_of};
ghost use Rattle.cj_base.specs.Turning.{Makes, CarriesOut, TakesMemory};
ghost use Rattle.cj_base.specs.declared.machine.End.TheVariants.{TurnLimit};
ghost use Rattle.cj_base.specs.declared.machine.Turned.TheVariants.{Ended};
ghost use Rattle.cj_ir.specs.declared.language.Program.{Program};
ghost use Rattle.cj_base.specs.Fits.{Fits};

use crate::entry::entry_frame;
use crate::machine::{Config, End, Frame, Turned, Waiting};
use cj_ir::{
    Checked, Expr, FunId, Instr, Label, NoMemory, Operand, Program, Reg, Values, eval,
    operand_values,
};
use std::mem;

#[tactic(auto, unfolding(crate::specs::Machine::config_of, crate::specs::Machine::with_value, crate::specs::Machine::op_effect, crate::specs::Machine::load_effect, crate::specs::Machine::store_effect, crate::specs::Machine::turn_by, crate::specs::Machine::end_of, crate::specs::Machine::waits))]
impl Config {
    // The top frame goes on at the label.
    fn go_to(&mut self, next: Label)
        ensures { self.new ≡ record self.old { top = record self.old.top { label = next } } }
    {
        self.top.label = next;
    }

    // The top frame's register is set, and it goes on at the label.
    fn set_reg(&mut self, dest: Reg, value: i64, next: Label)
        requires { dest.0 < length self.old.top.regs }
        ensures { self.new ≡ record self.old {
          top = record self.old.top { label = next; regs = slice_set self.old.top.regs dest.0 value };
        } }
    {
        self.top.regs.set(dest.0 as usize, value);
        self.top.label = next;
    }

    fn value(&self, operand: &Operand) -> i64
        requires { IsOperandWithin (length self.now.top.regs) operand.now }
        ensures { result ≡ operand_value self.now.top.regs operand.now }
    {
        operand.value(self.top.regs.items())
    }

    fn operate(&mut self, dest: Reg, expr: &Expr, next: Label) -> Turned
        requires dest { dest.0 < length self.old.top.regs }
        requires expr { IsExprWithin (length self.old.top.regs) expr.now }
        ensures { (P : Program) →
            CarriesOut P (op_effect dest expr.now next self.old.top.regs self.old.memory)
            result self.old self.new [] [] }
    {
        match eval(expr, self.top.regs.items()) {
            None => Turned::Ended(End::Divide),
            Some(value) => {
                self.set_reg(dest, value, next);
                Turned::Running
            }
        }
    }

    fn load(&mut self, dest: Reg, address: &Operand, next: Label) -> Turned
        requires dest { dest.0 < length self.old.top.regs }
        requires address { IsOperandWithin (length self.old.top.regs) address.now }
        ensures { (P : Program) →
            let regs = self.old.top.regs in
            CarriesOut P (load_effect dest (operand_value regs address.now) next regs self.old.memory)
            result self.old self.new [] [] }
    {
        let address = self.value(address);
        match cell(self.memory.items(), address) {
            None => Turned::Ended(End::Address(address)),
            Some(value) => {
                self.set_reg(dest, value, next);
                Turned::Running
            }
        }
    }

    fn store(&mut self, address: &Operand, value: &Operand, next: Label) -> Turned
        requires address { IsOperandWithin (length self.old.top.regs) address.now }
        requires value { IsOperandWithin (length self.old.top.regs) value.now }
        ensures { (P : Program) →
            let regs = self.old.top.regs in
            CarriesOut P
            (store_effect (operand_value regs address.now) (operand_value regs value.now) next regs self.old.memory)
            result self.old self.new [] [] }
    {
        let address = self.value(address);
        let value = self.value(value);
        if set_cell(&mut self.memory, address, value) {
            self.go_to(next);
            Turned::Running
        } else {
            Turned::Ended(End::Address(address))
        }
    }

    // The innermost waiting frame takes the value. With none the run ends.
    #[tactic(auto, using(crate::proofs::Lists::reverse_last, crate::proofs::Lists::none_last), unfolding(crate::specs::Machine::config_of, crate::specs::Machine::give, crate::specs::Machine::resumed))]
    fn give_back(&mut self, value: &Operand) -> Turned
        requires value { IsOperandWithin (length self.old.top.regs) value.now }
        requires waiting { All (λ w. w.dest.0 < length w.regs) self.old.waiting }
        ensures { let v = operand_value self.old.top.regs value.now in
            Makes (give v (config_of self.old).stack.waiting self.old.memory)
            result (config_of self.old) (config_of self.new) [] [] }
    {
        let value = self.value(value);
        match self.waiting.pop() {
            None => Turned::Ended(End::Returned(value)),
            Some(waiting) => {
                self.top = Frame {
                    function: waiting.function,
                    label: waiting.label,
                    regs: waiting.regs,
                };
                self.top.regs.set(waiting.dest.0 as usize, value);
                Turned::Running
            }
        }
    }

    // The top frame waits for the value of a call, whose entry frame is the new top.
    fn call(
        &mut self,
        program: &Program,
        dest: Reg,
        function: FunId,
        args: &[Operand],
        next: Label,
    ) -> Result<Turned, NoMemory>
        requires { All (IsOperandWithin (length self.old.top.regs)) args.now }
        ensures made { IfOk result (λ answer.
            CarriesOut program.now
            (Calls dest function (map (operand_value self.old.top.regs) args.now) next)
            answer self.old self.new [] []) }
        ensures no_memory { OnErr result (self.new ≡ self.old) }
    {
        let args = operand_values(self.top.regs.allocator(), args, self.top.regs.items())?;
        let entry = entry_frame(program, function, args)?;
        let Frame {
            function: caller,
            label,
            regs,
        } = mem::replace(&mut self.top, entry);
        let waiting = Waiting {
            function: caller,
            label: next,
            regs,
            dest,
        };
        match self.waiting.try_push(waiting) {
            Ok(()) => Ok(Turned::Running),
            Err(waiting) => {
                self.top = Frame {
                    function: caller,
                    label,
                    regs: waiting.regs,
                };
                Err(NoMemory)
            }
        }
    }
}

impl Config {
    /// One base turn of a configuration that fits the program: an executed instruction, also one that ends the run.
    /// What it prints is appended to `printed`. A turn that ends the run leaves the configuration as it was.
    #[tactic(auto, using(crate::proofs::FitsLemmas::waiting_dests))]
    pub fn turn(&mut self, checked: &Checked, printed: &mut Values) -> Result<Turned, NoMemory>
        requires { Fits checked.now (config_of self.old) }
        ensures made { IfOk result (λ answer.
            Makes (turn_of checked.now (config_of self.old))
            answer (config_of self.old) (config_of self.new) printed.old printed.new) }
        ensures fits { Fits checked.now (config_of self.new) }
        ensures no_limit { IfOk result (λ answer. answer ≢ Ended TurnLimit) }
        ensures only_then { IfErr result (λ refused.
            TakesMemory (instr_at checked.now self.old.top.function self.old.top.label)) }
        ensures no_memory { OnErr result ((self.new ≡ self.old) × (printed.new ≡ printed.old)) }
    {
        let instr = self.instr(checked);
        self.make(checked.program(), instr, printed)
    }

    // The instruction at which the top frame stands.
    #[tactic(auto, using(crate::proofs::FitsLemmas::label_at_top, crate::proofs::FitsLemmas::instr_fine), unfolding(crate::specs::Machine::config_of))]
    fn instr<'p>(&self, checked: &'p Checked) -> &'p Instr
        requires { Fits checked.now (config_of self.now) }
        ensures instr { instr_at checked.now self.now.top.function self.now.top.label ≡ Some result.now }
        ensures fine { IsInstrFine checked.now.functions (length self.now.top.regs)
            (label_count checked.now self.now.top.function) result.now }
    {
        &checked.line(self.top.function, self.top.label).instr
    }

    // The turn of an instruction.
    #[tactic(auto, unfolding(crate::specs::Machine::config_of, crate::specs::Machine::effect, crate::specs::Machine::branch, crate::specs::Machine::turn_by, crate::specs::Machine::end_of))]
    fn make(
        &mut self,
        program: &Program,
        instr: &Instr,
        printed: &mut Values,
    ) -> Result<Turned, NoMemory>
        requires fine { IsInstrFine program.now.functions (length self.old.top.regs)
            (label_count program.now self.old.top.function) instr.now }
        requires waiting { All (λ w. w.dest.0 < length w.regs) self.old.waiting }
        ensures made { IfOk result (λ answer.
            CarriesOut program.now (effect instr.now self.old.top self.old.memory)
            answer self.old self.new printed.old printed.new) }
        ensures only_then { IfErr result (λ refused. TakesMemory (Some instr.now)) }
        ensures no_memory { OnErr result ((self.new ≡ self.old) × (printed.new ≡ printed.old)) }
    {
        match instr {
            Instr::Nop { next } => {
                self.go_to(*next);
                Ok(Turned::Running)
            }
            Instr::Op { dest, expr, next } => Ok(self.operate(*dest, expr, *next)),
            Instr::Cond {
                test,
                then_to,
                else_to,
            } => {
                let test = self.value(test);
                self.go_to(if test == 0 { *else_to } else { *then_to });
                Ok(Turned::Running)
            }
            Instr::Call {
                dest,
                function,
                args,
                next,
            } => self.call(program, *dest, *function, args.items(), *next),
            Instr::Return { value } => Ok(self.give_back(value)),
            Instr::Print { value, next } => {
                printed.push(self.value(value))?;
                self.go_to(*next);
                Ok(Turned::Running)
            }
            Instr::Load {
                dest,
                address,
                next,
            } => Ok(self.load(*dest, address, *next)),
            Instr::Store {
                address,
                value,
                next,
            } => Ok(self.store(address, value, *next)),
            Instr::Fail { .. } => Ok(Turned::Ended(End::Failed {
                function: self.top.function,
                label: self.top.label,
            })),
        }
    }
}

/// The value in the cell of an address, if there is one.
#[tactic(auto, unfolding(crate::specs::Machine::cell))]
#[inline]
pub fn cell(memory: &[i64], address: i64) -> Option<i64>
    ensures { result ≡ cell memory.now address }
{
    match usize::try_from(address) {
        Ok(place) if place < memory.len() => Some(memory[place]),
        _ => None,
    }
}

/// Sets the cell of an address. False, and no change: there is none.
#[tactic(auto, unfolding(crate::specs::Machine::cell, crate::specs::Machine::with_cell))]
#[inline]
pub fn set_cell(memory: &mut Values, address: i64, value: i64) -> bool
    ensures set { result ≡ true → (memory.new ≡ with_cell memory.old address value) × IsSome (cell memory.old address) }
    ensures none { result ≡ false → (memory.new ≡ memory.old) × (cell memory.old address ≡ None) }
{
    match usize::try_from(address) {
        Ok(place) if place < memory.items().len() => {
            memory.set(place, value);
            true
        }
        _ => false,
    }
}
