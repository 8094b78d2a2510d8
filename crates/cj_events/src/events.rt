//! What happens in a replay.

use cj_draft::Passes;
use cj_ir::{FunId, ScriptCall, Sequence};

/// An event. The runs of a replay are numbered from 1, in the order in which they begin.
#[derive(Debug, Drop)]
pub enum Event {
    /// A run of this call begins.
    Begin(ScriptCall),
    /// A run that has begun makes so many steps (1 to 1,000,000), or fewer where it ends.
    Step { run: u32, count: u32 },
    /// A function is compiled by at most 256 passes.
    Compile { function: FunId, passes: Passes },
}

pub type Events = Sequence<Event>;
