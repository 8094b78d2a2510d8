//! Windows: which part of a list of values holds an activation's registers.

ghost use Rattle.std.specs.Prelude.{◌≡◌, ◌<◌, ◌≤◌, vec_capacity, [], ◌∷◌, ◌++◌, length, slice_set, ℤ, List, IfOk, OnErr, OnOk};
ghost use Rattle.cj_base.specs.Machine.{entry_regs};
ghost use Rattle.cj_activations.specs.Changes.{waits_of};
ghost use Rattle.cj_activations.specs.Windows.{paused_by, position_at, position_in, waiting_window, Extends, Pushes, Writes};

use cj_base::{Frame, Waiting, Waitings};
use cj_ir::{FunId, Label, NoMemory, Reg};

/// Where an activation stands: in the base body of a function, or in its version at an offset.
#[derive(Clone, Copy, Debug, PartialEq, Eq)]
pub enum Position {
    Base {
        function: FunId,
        label: Label,
    },
    Version {
        function: FunId,
        offset: u64,
        label: Label,
    },
}

/// How an activation waits for a call's value.
#[derive(Clone, Copy, Debug, PartialEq, Eq)]
pub enum Waits {
    /// A base frame, at the label after its call. The value goes into the register.
    Base {
        label: Label,
        dest: Reg,
    },
    /// A version, at its call.
    Version {
        function: FunId,
        offset: u64,
        label: Label,
    },
}

/// What an activation runs: the base body of a function, or its version at an offset.
#[derive(Clone, Copy, Debug, PartialEq, Eq)]
pub enum Body {
    Base { function: FunId },
    Version { function: FunId, offset: u64 },
}

/// An activation at a label of its body, whose registers stand in a list of values from `start` on, up to the start of the
/// next window. `dest` is the register that the value of a base frame's call goes into, while the frame waits.
#[derive(Clone, Copy, Debug, PartialEq, Eq)]
pub struct Window {
    pub body: Body,
    pub label: Label,
    pub dest: Reg,
    pub start: usize,
}

#[tactic(auto, unfolding(crate::specs::Windows::position_at, crate::specs::Windows::waiting_window, crate::specs::Windows::paused_by, crate::specs::Changes::waits_of))]
impl Window {
    // A window at that position.
    pub(crate) fn at(position: Position, dest: Reg, start: usize) -> Window
        ensures position { position_in result ≡ position }
        ensures dest { result.dest ≡ dest }
        ensures start { result.start ≡ start }
    {
        let (body, label) = match position {
            Position::Base { function, label } => (Body::Base { function }, label),
            Position::Version {
                function,
                offset,
                label,
            } => (Body::Version { function, offset }, label),
        };
        Window {
            body,
            label,
            dest,
            start,
        }
    }

    // Where the activation stands.
    pub(crate) fn position(self) -> Position
        ensures { result ≡ position_in self }
    {
        let label = self.label;
        match self.body {
            Body::Base { function } => Position::Base { function, label },
            Body::Version { function, offset } => Position::Version {
                function,
                offset,
                label,
            },
        }
    }

    // The window of the activation while it waits for a call's value.
    pub(crate) fn paused(self, dest: Reg, next: Label) -> Window
        ensures { result ≡ waiting_window self (position_in self) dest next }
    {
        match self.body {
            Body::Base { .. } => Window {
                label: next,
                dest,
                ..self
            },
            Body::Version { .. } => self,
        }
    }

    // How the window's activation waits.
    pub(crate) fn waits(self) -> Waits
        ensures { (regs : List ℤ) → result ≡ waits_of (paused_by self (position_in self) regs) }
    {
        let label = self.label;
        match self.body {
            Body::Base { .. } => Waits::Base {
                label,
                dest: self.dest,
            },
            Body::Version { function, offset } => Waits::Version {
                function,
                offset,
                label,
            },
        }
    }
}

pub(crate) fn set_value(values: &mut Vec<i64>, place: usize, value: i64)
    requires { place < length values.old.items }
    ensures { values.new.items ≡ slice_set values.old.items place value }
{
    values[place] = value;
}

// Appends the arguments and, up to that count, zeros.
#[tactic(auto, unfolding(cj_base::specs::Machine::entry_regs))]
pub(crate) fn push_entry(values: &mut Vec<i64>, args: &[i64], count: usize) -> Result<(), NoMemory>
    ensures ok { OnOk result (values.new.items ≡ values.old.items ++ entry_regs count args.now) }
    ensures no_memory { OnErr result (values.new.items ≡ values.old.items) }
{
    let start = values.len();
    let Some(end) = start.checked_add(args.len().max(count)) else {
        return Err(NoMemory);
    };
    values.extend_from_slice(args)?;
    if values.resize(end, 0).is_err() {
        values.truncate(start);
        return Err(NoMemory);
    }
    Ok(())
}

// Appends a base frame that waits. Want of memory may leave its registers.
fn push_waiting(
    values: &mut Vec<i64>,
    windows: &mut Vec<Window>,
    frame: &Waiting,
) -> Result<(), NoMemory>
    ensures pushed { OnOk result (Pushes (frame.now ∷ []) windows.old.items windows.new.items values.old.items values.new.items) }
    ensures windows { Extends windows.old.items windows.new.items }
    ensures values { Extends values.old.items values.new.items }
    ensures capacity { vec_capacity values.old ≤ vec_capacity values.new }
{
    let start = values.len();
    values.extend_from_slice(frame.regs.items())?;
    windows.push(Window {
        body: Body::Base {
            function: frame.function,
        },
        label: frame.label,
        dest: frame.dest,
        start,
    })?;
    Ok(())
}

// Appends base frames that wait, given innermost first, and the registers of a frame that runs, whose window is the
// answer. Want of memory may leave some of them.
pub(crate) fn write_frames(
    values: &mut Vec<i64>,
    windows: &mut Vec<Window>,
    top: &Frame,
    waiting: &Waitings,
) -> Result<Window, NoMemory>
    ensures written { IfOk result (λ window.
        Writes top.now waiting.now window windows.old.items windows.new.items values.old.items values.new.items) }
    ensures windows { Extends windows.old.items windows.new.items }
    ensures values { Extends values.old.items values.new.items }
    ensures capacity { vec_capacity values.old ≤ vec_capacity values.new }
{
    let frames = waiting.items();
    for place in (0..frames.len()).rev() {
        push_waiting(values, windows, &frames[place])?;
    }
    let start = values.len();
    values.extend_from_slice(top.regs.items())?;
    Ok(Window {
        body: Body::Base {
            function: top.function,
        },
        label: top.label,
        dest: Reg(0),
        start,
    })
}
