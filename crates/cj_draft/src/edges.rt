//! Where instructions go on.

ghost use Rattle.std.specs.Prelude.{◌≡◌};
ghost use Rattle.cj_draft.specs.Edges.{successors, listed, led_to};

use crate::instructions::VInstr;
use cj_ir::Label;

/// The labels to which an instruction goes on.
#[derive(Clone, Copy, Debug, PartialEq, Eq)]
pub enum Successors {
    End,
    One { next: Label },
    Two { then_to: Label, else_to: Label },
}

impl VInstr {
    /// The labels to which the instruction goes on, in order: none of a Return or a Fail; of a Cond the one for a test
    /// other than 0 and the one for 0; of any other its next.
    #[tactic(auto, unfolding(crate::specs::Edges::successors))]
    pub fn successors(&self) -> Successors
        ensures { listed result ≡ successors self.now }
    {
        match *self {
            VInstr::Nop { next }
            | VInstr::Op { next, .. }
            | VInstr::Move { next, .. }
            | VInstr::Call { next, .. }
            | VInstr::Print { next, .. }
            | VInstr::Load { next, .. }
            | VInstr::Store { next, .. }
            | VInstr::Assume { next, .. }
            | VInstr::Anchor { next, .. } => Successors::One { next },
            VInstr::Cond {
                then_to,
                else_to,
                ..
            } => Successors::Two { then_to, else_to },
            VInstr::Return { .. } | VInstr::Fail { .. } => Successors::End,
        }
    }
}

/// Where an edge to `to` goes, once those to the label are led to a fresh one.
#[tactic(auto, unfolding(crate::specs::Edges::led_to))]
pub fn led_to(label: Label, fresh: Label, to: Label) -> Label
    ensures { result ≡ led_to label fresh to }
{
    if to.0 == label.0 { fresh } else { to }
}
