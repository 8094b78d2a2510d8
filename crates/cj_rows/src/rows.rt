//! Rows of Assumes and Anchors.

ghost use Rattle.std.specs.Prelude.{◌≡◌, ◌≤◌, ◌<◌, max, length};
ghost use Rattle.cj_rows.specs.Rows.{guard_at, anchor_next, anchor_at, guards_after, steps_to, guards_before, fresh_row};
ghost use Rattle.cj_draft.specs.declared.limits.TheConstants.{MAX_CODE_LABELS};

use cj_draft::limits::MAX_ROW;
use cj_draft::{Code, VInstr};
use cj_ir::Label;

/// The next label of the Assume or Anchor at a label. `None`: there is no such label, or another instruction is there.
#[tactic(auto, unfolding(crate::specs::Rows::guard_at, crate::specs::Rows::guard_in, cj_draft::specs::Sound::guard_next))]
pub fn guard_at(code: &Code, label: Label) -> Option<Label>
    ensures { result ≡ guard_at code.now label }
{
    match code.places.items().get(label.0 as usize) {
        None => None,
        Some(place) => match place.instr {
            VInstr::Assume { next, .. } | VInstr::Anchor { next, .. } => Some(next),
            _ => None,
        },
    }
}

/// The next label of an Anchor. `None`: another instruction.
#[tactic(auto, unfolding(crate::specs::Rows::anchor_next))]
pub fn anchor_next(instr: &VInstr) -> Option<Label>
    ensures { result ≡ anchor_next instr.now }
{
    match *instr {
        VInstr::Anchor { next, .. } => Some(next),
        _ => None,
    }
}

/// The next label of the Anchor at a label. `None`: there is no such label, or another instruction is there.
#[tactic(auto, unfolding(crate::specs::Rows::anchor_at, crate::specs::Rows::anchor_in))]
pub fn anchor_at(code: &Code, label: Label) -> Option<Label>
    ensures { result ≡ anchor_at code.now label }
{
    match code.places.items().get(label.0 as usize) {
        None => None,
        Some(place) => anchor_next(&place.instr),
    }
}

/// How many Assumes and Anchors follow each other from the label on, itself counted, of the first eight.
pub fn guards_after(code: &Code, label: Label) -> u32
    ensures count { result ≡ guards_after code.now MAX_ROW label }
    ensures few { result ≤ MAX_ROW }
{
    let mut at = label;
    for count in 0..MAX_ROW {
        match guard_at(code, at) {
            None => return count,
            Some(next) => at = next,
        }
    }
    MAX_ROW
}

/// How many Assumes and Anchors, of at most eight, lead from a label to this one. `None`: they do not lead there.
fn steps_to(code: &Code, label: Label, from: Label) -> Option<u32>
    ensures { result ≡ steps_to code.now label MAX_ROW from }
{
    let mut at = from;
    for count in 0..MAX_ROW {
        if at.0 == label.0 {
            return Some(count);
        }
        match guard_at(code, at) {
            None => return None,
            Some(next) => at = next,
        }
    }
    if at.0 == label.0 { Some(MAX_ROW) } else { None }
}

/// The greatest number of Assumes and Anchors that lead from a label to this one, itself not counted, of at most eight.
/// The code has at most as many labels as a code may have.
pub fn guards_before(code: &Code, label: Label) -> u32
    requires { length code.now.places ≤ MAX_CODE_LABELS }
    ensures count { result ≡ guards_before code.now label }
    ensures few { result ≤ MAX_ROW }
{
    let mut most = 0;
    for from in 0..code.places.items().len() {
        let steps = steps_to(code, label, Label(from as u32)).unwrap_or(0);
        most = greater(most, steps);
    }
    most
}

fn greater(one: u32, other: u32) -> u32
    ensures { result ≡ max one other }
{
    if one < other { other } else { one }
}

/// The row of a fresh Assume or Anchor directly before the label: it, those that lead to the label, and those that follow
/// each other from the label on. A fresh one directly after the Assume or Anchor at the label stands in a row as long. The
/// code has at most as many labels as a code may have.
#[tactic(auto, unfolding(crate::specs::Rows::fresh_row))]
pub fn fresh_row(code: &Code, label: Label) -> u32
    requires { length code.now.places ≤ MAX_CODE_LABELS }
    ensures { result ≡ fresh_row code.now label }
{
    guards_before(code, label) + 1 + guards_after(code, label)
}
