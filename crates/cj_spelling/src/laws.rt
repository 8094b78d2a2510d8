//! A law of the ranges. Its proof is all that the function has.

ghost use Rattle.cj_ir.specs.WellFormed.{IsWellFormed};
ghost use Rattle.cj_draft.specs.WellNamed.{WellNamed};
ghost use Rattle.cj_draft.specs.Bodies.{HasNoAnchors};
ghost use Rattle.cj_spelling.specs.Ranges.{IsInRange};

use cj_draft::Code;
use cj_ir::Program;

/// A code without anchors is in range whose names all exist in a well-formed program, as those of sound codes do.
#[tactic(auto, using(crate::proofs::Named::named_in_range))]
pub fn named_code_is_in_range(program: &Program, code: &Code)
    requires well_formed { IsWellFormed program.now }
    requires named { WellNamed program.now code.now }
    requires no_anchors { HasNoAnchors code.now }
    ensures { IsInRange code.now }
{}
