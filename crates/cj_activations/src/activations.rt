//! The activations of a run.

ghost use Rattle.std.specs.Prelude.{◌≡◌, ◌<◌, [], ◌++◌, length, take, reverse, slice_set, IfOk, OnOk, OnErr};
ghost use Rattle.cj_base.specs.Machine.{entry_regs};
ghost use Rattle.cj_activations.specs.Changes.{active_regs, position_of, innermost, HasDest, all_registers, with_label, with_regs, entered, called, returned, rebuilt};

use crate::windows::{Position, Waits, Window, push_entry, set_value, write_frames};
use cj_base::{Frame, Waitings};
use cj_ir::{Label, NoMemory, Reg};
use std::alloc::Global;
use std::marker::Model;

/// The activations of a run: the one that runs, which is the top, and those that wait for the value of a call.
/// Contracts see those that wait as a list, innermost first.
///
/// The registers of all of them are one list of values. A call appends to it, and a return cuts it off.
#[derive(Debug, Drop)]
pub struct Activations {
    top: Window,
    // the innermost last
    waiting: Vec<Window>,
    values: Vec<i64>,
}

impl Model for Activations {
    ghost use Rattle.std.specs.Prelude.{reverse, ◌∷◌};
    ghost use Rattle.cj_activations.specs.Activations.{Stacked};

    ghost Value = { Stacked };

    ghost use Rattle.cj_activations.specs.Windows.{stacked_in, AreTiled};

    ghost view = { λ a. stacked_in a.values.items a.top (reverse a.waiting.items) };

    ghost invariant = { λ a. AreTiled a.values.items (a.top ∷ reverse a.waiting.items) };
}

impl Activations {
    /// One activation, entered at that position. It has `count` registers, or as many as there are arguments if that is
    /// more: the arguments stand in the first ones, and 0 in all others.
    pub fn enter(
        alloc: Global,
        position: Position,
        args: &[i64],
        count: usize,
    ) -> Result<Activations, NoMemory>
        ensures { IfOk result (λ activations. activations ≡ entered position count args.now []) }
    {
        let mut values = Vec::new(alloc);
        push_entry(&mut values, args, count)?;
        Ok(Activations {
            top: Window::at(position, Reg(0), 0),
            waiting: Vec::new(alloc),
            values,
        })
    }

    /// Where the top stands.
    #[tactic(auto, using(crate::proofs::Cuts::position_seen))]
    pub fn position(&self) -> Position
        ensures { result ≡ position_of self.now.top }
    {
        self.top.position()
    }

    /// The registers of the top.
    #[tactic(auto, using(crate::proofs::Cuts::regs_cut))]
    pub fn top_registers(&self) -> &[i64]
        ensures { result.now ≡ active_regs self.now.top }
    {
        &self.values[self.top.start..]
    }

    /// The registers of all activations, those of the outermost first.
    #[tactic(auto, using(crate::proofs::Cuts::all_seen))]
    pub fn registers(&self) -> &[i64]
        ensures { result.now ≡ all_registers self.now }
    {
        self.values.as_slice()
    }

    /// How the innermost of those that wait does so. `None`: the top alone is left.
    #[tactic(auto, using(crate::proofs::Cuts::none_waits, crate::proofs::Cuts::some_waits))]
    pub fn waiting(&self) -> Option<Waits>
        ensures { result ≡ innermost self.now.waiting }
    {
        match self.waiting.last() {
            None => None,
            Some(window) => Some(window.waits()),
        }
    }

    /// The top goes on at the label.
    #[tactic(auto, using(crate::proofs::Cuts::moved_seen))]
    pub fn go_to(&mut self, next: Label)
        ensures { self.new ≡ record self.old { top = with_label self.old.top next } }
    {
        self.top.label = next;
    }

    /// Sets a register of the top. It has to be one of them.
    #[tactic(auto, using(crate::proofs::Cuts::set_seen, crate::proofs::Cuts::set_tiled, crate::proofs::Cuts::set_within))]
    pub fn set_register(&mut self, dest: Reg, value: i64)
        requires { dest.0 < length (active_regs self.old.top) }
        ensures { self.new ≡ record self.old {
          top = with_regs self.old.top (slice_set (active_regs self.old.top) dest.0 value);
        } }
    {
        let place = self.top.start + dest.0 as usize;
        set_value(&mut self.values, place, value);
    }

    /// The top waits for the value of a call, and an activation is entered at that position as `enter` does it.
    ///
    /// A base frame waits at `next`, and the value will go into `dest`. A version waits where it stands.
    #[tactic(auto, using(crate::proofs::Cuts::called_seen, crate::proofs::Cuts::called_tiled))]
    pub fn call(
        &mut self,
        dest: Reg,
        next: Label,
        position: Position,
        args: &[i64],
        count: usize,
    ) -> Result<(), NoMemory>
        ensures ok { OnOk result (self.new ≡ called self.old dest next position count args.now) }
        ensures no_memory { OnErr result (self.new ≡ self.old) }
    {
        let start = self.values.len();
        push_entry(&mut self.values, args, count)?;
        if self.waiting.push(self.top.paused(dest, next)).is_err() {
            self.values.truncate(start);
            return Err(NoMemory);
        }
        self.top = Window::at(position, Reg(0), start);
        Ok(())
    }

    /// The top is done. The innermost of those that wait goes on at `next`, with the value in its register `dest`,
    /// which it has to have. It takes no memory.
    #[tactic(auto, using(crate::proofs::Cuts::returned_seen, crate::proofs::Cuts::returned_tiled, crate::proofs::Cuts::returned_within))]
    pub fn give_back(&mut self, dest: Reg, next: Label, value: i64)
        requires { HasDest dest self.old.waiting }
        ensures { self.new ≡ returned self.old dest next value }
    {
        if let Some(window) = self.waiting.pop() {
            self.values.truncate(self.top.start);
            set_value(&mut self.values, window.start + dest.0 as usize, value);
            self.top = Window {
                label: next,
                dest,
                ..window
            };
        }
    }

    /// Base frames stand in place of the top: a frame that runs, and those that wait for it, innermost first.
    pub fn rebuild(&mut self, top: &Frame, waiting: &Waitings) -> Result<(), NoMemory>
        ensures ok { OnOk result (self.new ≡ rebuilt self.old top.now waiting.now) }
        ensures no_memory { OnErr result (self.new ≡ self.old) }
    {
        let depth = self.waiting.len();
        let start = self.top.start;
        let mut registers = Vec::new(*self.values.allocator());
        registers.extend_from_slice(&self.values[start..])?;
        self.values.truncate(start);
        match write_frames(&mut self.values, &mut self.waiting, top, waiting) {
            Ok(window) => {
                self.top = window;
                Ok(())
            }
            Err(error) => {
                self.waiting.truncate(depth);
                self.values.truncate(start);
                let put_back = self.values.extend_from_slice(registers.as_slice());
                prove!(put_back.is_ok());
                Err(error)
            }
        }
    }
}
