//! Passes: what may be asked of a draft, and why one was skipped.

ghost use Rattle.std.specs.Prelude.{◌≡◌};
ghost use Rattle.cj_draft.specs.Skips.{told};

use cj_ir::{FunId, Guards, Label, Labels, Reg, Sequence};

#[derive(Debug, Drop)]
pub enum Pass {
    /// An Anchor before each of these labels.
    Anchors { places: Labels },
    /// An Assume with these guards right after the Anchor.
    Assume { anchor: Label, guards: Guards },
    /// An Assume with these guards on the last edge of the path, which an Anchor begins.
    Delay { path: Labels, guards: Guards },
    /// Constant propagation.
    Const,
    /// The callee's body in the place of the call.
    Inline { call: Label },
}

pub type Passes = Sequence<Pass>;

/// A room that has a limit.
#[derive(Clone, Copy, Debug, PartialEq, Eq)]
pub enum Room {
    Labels,
    Registers,
    Guards,
    Row,
}

/// Why a pass left its draft as it was.
#[derive(Clone, Copy, Debug, PartialEq, Eq)]
pub enum Skipped {
    NoPlace { label: Label },
    NoRegister { reg: Reg },
    NotAnchor { label: Label },
    NoEdge { label: Label },
    NotSilent { label: Label },
    Joined { label: Label, count: u32 },
    TooLong { count: u32 },
    Full { room: Room, count: u32 },
    NotCall { label: Label },
    Deep { frames: u32 },
    Other { function: FunId },
}

/// Passes that were skipped, by their numbers in a list, with the reason.
pub type Skips = Sequence<(u32, Skipped)>;

/// A number, as a skip tells it: the greatest of `u32` where it is more.
#[tactic(auto, unfolding(crate::specs::Skips::told))]
pub fn told(number: usize) -> u32
    ensures { result ≡ told number }
{
    if number < u32::MAX as usize {
        number as u32
    } else {
        u32::MAX
    }
}
