//! Why an Assume can't stand directly after an Anchor.

ghost use Rattle.std.specs.Prelude.{◌≡◌, ◌≤◌, length};
ghost use Rattle.cj_assume.specs.ImmediateAssume.{guards_at, full_offence, assume_offence};
ghost use Rattle.cj_draft.specs.declared.limits.TheConstants.{MAX_CODE_LABELS};

use cj_draft::{Code, Skipped, VInstr};
use cj_ir::{Guard, Label};
use cj_rows::{anchor_next, fresh_row, guards_offence, register_offence, room_offence};

/// Why no Assume with these guards stands directly after the Anchor: the first of the conditions that holds.
#[tactic(auto, unfolding(crate::specs::ImmediateAssume::assume_offence, crate::specs::ImmediateAssume::offence_at, crate::specs::ImmediateAssume::offence_after, cj_rows::specs::Guards::or_next))]
pub(crate) fn assume_offence(code: &Code, anchor: Label, guards: &[Guard]) -> Option<Skipped>
    requires { length code.now.places ≤ MAX_CODE_LABELS }
    ensures { result ≡ assume_offence code.now anchor guards.now }
{
    let Some(place) = code.places.items().get(anchor.0 as usize) else {
        return Some(Skipped::NoPlace { label: anchor });
    };
    let Some(next) = anchor_next(&place.instr) else {
        return Some(Skipped::NotAnchor { label: anchor });
    };
    if let Some(skipped) = register_offence(code.regs, guards) {
        return Some(skipped);
    }
    full_offence(code, anchor, guards.len(), guards_at(code, next))
}

/// How many guards the Assume at a label has, where there is one.
#[tactic(auto, unfolding(crate::specs::ImmediateAssume::guards_at, crate::specs::ImmediateAssume::count_in, crate::specs::ImmediateAssume::guard_count))]
pub(crate) fn guards_at(code: &Code, label: Label) -> Option<usize>
    ensures { result ≡ guards_at code.now label }
{
    match code.places.items().get(label.0 as usize) {
        None => None,
        Some(place) => match &place.instr {
            VInstr::Assume { guards, .. } => Some(guards.items().len()),
            _ => None,
        },
    }
}

/// Which room is missing for that many guards, where the Assume after the Anchor has `own` already, or is a fresh one.
#[tactic(auto, unfolding(crate::specs::ImmediateAssume::full_offence, cj_rows::specs::Guards::or_next))]
fn full_offence(code: &Code, anchor: Label, count: usize, own: Option<usize>) -> Option<Skipped>
    requires { length code.now.places ≤ MAX_CODE_LABELS }
    ensures { result ≡ full_offence code.now anchor count own }
{
    match own {
        Some(own) => guards_offence(own, count),
        None => {
            if let Some(skipped) = guards_offence(0, count) {
                return Some(skipped);
            }
            let labels = code.places.items().len() as u32;
            room_offence(fresh_row(code, anchor), labels + 1)
        }
    }
}
