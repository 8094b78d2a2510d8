//! The instructions that an immediate Assume makes.

ghost use Rattle.std.specs.Prelude.{◌≡◌, ◌<◌, ◌++◌, IfOk, OnOk, length};
ghost use Rattle.cj_assume.specs.ImmediateAssume.{with_more, anchor_to, assume_of};

use cj_draft::VInstr;
use cj_ir::{Duplicate, Guard, Guards, Label, NoMemory};

/// Appends further guards to those of an Assume.
#[tactic(auto, unfolding(crate::specs::ImmediateAssume::with_more))]
pub(crate) fn append_guards(instr: &mut VInstr, more: &[Guard]) -> Result<(), NoMemory>
    ensures { OnOk result (instr.new ≡ with_more more.now instr.old) }
{
    match instr {
        VInstr::Assume { guards, .. } => append(guards, more),
        _ => Ok(()),
    }
}

/// Appends further guards.
fn append(guards: &mut Guards, more: &[Guard]) -> Result<(), NoMemory>
    ensures { OnOk result (guards.new ≡ guards.old ++ more.now) }
{
    for guard in more {
        guards.push(*guard)?;
    }
    Ok(())
}

/// Gives an Anchor another next label.
#[tactic(auto, unfolding(crate::specs::ImmediateAssume::anchor_to))]
pub(crate) fn lead_anchor(instr: &mut VInstr, to: Label)
    ensures { instr.new ≡ anchor_to to instr.old }
{
    if let VInstr::Anchor { next, .. } = instr {
        *next = to;
    }
}

/// The Assume with the Anchor's target, back and next label.
#[tactic(auto, unfolding(crate::specs::ImmediateAssume::assume_of))]
pub(crate) fn assume_of(instr: &VInstr, guards: &Guards) -> Result<VInstr, NoMemory>
    ensures { IfOk result (λ made. made ≡ assume_of guards.now instr.now) }
{
    match instr {
        VInstr::Anchor { back, target, next } => {
            let guards = guards.copy()?;
            let target = target.copy()?;
            Ok(VInstr::Assume {
                guards,
                back: *back,
                target,
                next: *next,
            })
        }
        other => other.copy(),
    }
}
