//! The state of a run, and how one instruction changes it.

ghost use Rattle.std.specs.Prelude.{◌≡◌, ◌<◌, ◌+◌, [], ◌∷◌, ◌++◌, length, slice_set, IfOk, OnOk, OnErr};
ghost use Rattle.cj_ir.specs.Values.{operand_value, IsOperandWithin, IsExprWithin};
ghost use Rattle.cj_base.specs.Machine.{op_effect, load_effect, store_effect, branch};
ghost use Rattle.cj_activations.specs.Changes.{active_regs, HasDest, returned};
ghost use Rattle.cj_base.specs.declared.machine.Turned.TheVariants.{Running, Ended};
ghost use Rattle.cj_machine.specs.Marks.{edge_of};
ghost use Rattle.cj_machine.specs.Versions.{counted};
ghost use Rattle.cj_machine.specs.Machines.{state_of, IsEarly, went_on, CarriesOut};

use cj_activations::Activations;
use cj_base::turns::{cell, set_cell};
use cj_base::{End, Turned};
use cj_calls::{Looks, Notes};
use cj_ir::{Edge, Expr, Label, NoMemory, Operand, Reg, Values, eval};

/// The state of a run of base bodies and versions.
#[derive(Debug, Drop)]
pub struct Machine {
    pub activations: Activations,
    pub memory: Values,
    pub printed: Values,
    pub turns: u64,
    pub base_turns: u64,
    pub fails: u64,
    pub looks: Looks,
    pub notes: Notes,
}

#[tactic(auto, using(crate::proofs::Landing::lands, crate::proofs::Landing::labelled), unfolding(crate::specs::Machines::state_of, crate::specs::Machines::went_on, crate::specs::Versions::counted))]
impl Machine {
    /// One turn later, which counts a base turn.
    pub fn count(&mut self)
        requires { IsEarly (state_of self.old) }
        ensures { self.new ≡ record self.old { turns = self.old.turns + 1; base_turns = self.old.base_turns + 1 } }
    {
        self.turns += 1;
        self.base_turns += 1;
    }

    /// The top is done, and the innermost of those that wait goes on with its value.
    pub fn resume(&mut self, dest: Reg, next: Label, value: i64)
        requires early { IsEarly (state_of self.old) }
        requires dest { HasDest dest self.old.activations.waiting }
        ensures made { state_of self.new ≡ counted (state_of self.old)
            (returned self.old.activations dest next value) self.old.memory [] (length self.old.looks) }
        ensures looks { self.new.looks ≡ self.old.looks }
    {
        self.activations.give_back(dest, next, value);
        self.count();
    }

    // The top goes on at the label.
    pub(crate) fn go_to(&mut self, next: Label) -> Turned
        requires { IsEarly (state_of self.old) }
        ensures running { result ≡ Running }
        ensures made { state_of self.new ≡ went_on (state_of self.old) next (active_regs self.old.activations.top) self.old.memory [] }
        ensures looks { self.new.looks ≡ self.old.looks }
    {
        self.activations.go_to(next);
        self.count();
        Turned::Running
    }

    // A register of the top is set, and it goes on at the label.
    pub(crate) fn set_register(&mut self, dest: Reg, value: i64, next: Label) -> Turned
        requires early { IsEarly (state_of self.old) }
        requires dest { dest.0 < length (active_regs self.old.activations.top) }
        ensures running { result ≡ Running }
        ensures made { state_of self.new ≡ went_on (state_of self.old) next
            (slice_set (active_regs self.old.activations.top) dest.0 value) self.old.memory [] }
        ensures looks { self.new.looks ≡ self.old.looks }
    {
        self.activations.set_register(dest, value);
        self.activations.go_to(next);
        self.count();
        Turned::Running
    }

    // The value of an operand over the registers of the top.
    pub(crate) fn value(&self, operand: &Operand) -> i64
        requires { IsOperandWithin (length (active_regs self.now.activations.top)) operand.now }
        ensures { result ≡ operand_value (active_regs self.now.activations.top) operand.now }
    {
        operand.value(self.activations.top_registers())
    }
}

#[tactic(auto, unfolding(crate::specs::Machines::state_of, crate::specs::Versions::turn_by, cj_base::specs::Machine::with_value, cj_base::specs::Machine::op_effect, cj_base::specs::Machine::load_effect, cj_base::specs::Machine::store_effect, cj_base::specs::Machine::end_of))]
impl Machine {
    /// The turn ends the run.
    pub fn end(&mut self, end: End) -> Turned
        requires { IsEarly (state_of self.old) }
        ensures ended { result ≡ Ended end }
        ensures looks { self.new.looks ≡ self.old.looks }
        ensures same { state_of self.new ≡ counted (state_of self.old) self.old.activations self.old.memory [] (length self.old.looks) }
    {
        self.count();
        Turned::Ended(end)
    }

    pub(crate) fn operate(&mut self, dest: Reg, expr: &Expr, next: Label) -> Turned
        requires early { IsEarly (state_of self.old) }
        requires dest { dest.0 < length (active_regs self.old.activations.top) }
        requires expr { IsExprWithin (length (active_regs self.old.activations.top)) expr.now }
        ensures made { CarriesOut (op_effect dest expr.now next (active_regs self.old.activations.top) self.old.memory)
            result (state_of self.old) (state_of self.new) }
        ensures looks { self.new.looks ≡ self.old.looks }
    {
        match eval(expr, self.activations.top_registers()) {
            None => self.end(End::Divide),
            Some(value) => self.set_register(dest, value, next),
        }
    }

    pub(crate) fn load(&mut self, dest: Reg, address: &Operand, next: Label) -> Turned
        requires early { IsEarly (state_of self.old) }
        requires dest { dest.0 < length (active_regs self.old.activations.top) }
        requires address { IsOperandWithin (length (active_regs self.old.activations.top)) address.now }
        ensures made { let regs = active_regs self.old.activations.top in
            CarriesOut (load_effect dest (operand_value regs address.now) next regs self.old.memory)
            result (state_of self.old) (state_of self.new) }
        ensures looks { self.new.looks ≡ self.old.looks }
    {
        let address = self.value(address);
        match cell(self.memory.items(), address) {
            None => self.end(End::Address(address)),
            Some(value) => self.set_register(dest, value, next),
        }
    }

    pub(crate) fn store(&mut self, address: &Operand, value: &Operand, next: Label) -> Turned
        requires early { IsEarly (state_of self.old) }
        requires address { IsOperandWithin (length (active_regs self.old.activations.top)) address.now }
        requires value { IsOperandWithin (length (active_regs self.old.activations.top)) value.now }
        ensures made { let regs = active_regs self.old.activations.top in
            CarriesOut (store_effect (operand_value regs address.now) (operand_value regs value.now) next regs self.old.memory)
            result (state_of self.old) (state_of self.new) }
        ensures looks { self.new.looks ≡ self.old.looks }
    {
        let address = self.value(address);
        let value = self.value(value);
        if set_cell(&mut self.memory, address, value) {
            self.go_to(next)
        } else {
            self.end(End::Address(address))
        }
    }

    pub(crate) fn print(&mut self, value: &Operand, next: Label) -> Result<Turned, NoMemory>
        requires early { IsEarly (state_of self.old) }
        requires value { IsOperandWithin (length (active_regs self.old.activations.top)) value.now }
        ensures running { IfOk result (λ turned. turned ≡ Running) }
        ensures made { OnOk result (state_of self.new ≡ went_on (state_of self.old) next (active_regs self.old.activations.top) self.old.memory
            (operand_value (active_regs self.old.activations.top) value.now ∷ [])) }
        ensures no_memory { OnErr result (self.new ≡ self.old) }
        ensures looks { self.new.looks ≡ self.old.looks }
    {
        let value = self.value(value);
        self.printed.push(value)?;
        Ok(self.go_to(next))
    }

    // A conditional branch, and the edge that it takes.
    pub(crate) fn branch(&mut self, test: &Operand, then_to: Label, else_to: Label) -> Edge
        requires early { IsEarly (state_of self.old) }
        requires test { IsOperandWithin (length (active_regs self.old.activations.top)) test.now }
        ensures edge { result ≡ edge_of (operand_value (active_regs self.old.activations.top) test.now) }
        ensures gone { state_of self.new ≡ went_on (state_of self.old)
            (branch (operand_value (active_regs self.old.activations.top) test.now) then_to else_to)
            (active_regs self.old.activations.top) self.old.memory [] }
        ensures looks { self.new.looks ≡ self.old.looks }
    {
        let test = self.value(test);
        self.go_to(taken(test, then_to, else_to));
        edge_of(test)
    }
}

// The label to which a conditional branch goes.
#[tactic(auto, unfolding(cj_base::specs::Machine::branch))]
fn taken(test: i64, then_to: Label, else_to: Label) -> Label
    ensures { result ≡ branch test then_to else_to }
{
    if test == 0 { else_to } else { then_to }
}

// The edge that a conditional branch takes.
#[tactic(auto, unfolding(crate::specs::Marks::edge_of))]
fn edge_of(test: i64) -> Edge
    ensures { result ≡ edge_of test }
{
    if test == 0 { Edge::Else } else { Edge::Then }
}
