//! Why a callee can't stand in the place of a call.

ghost use Rattle.std.specs.Prelude.{◌≡◌, ◌+◌, ◌≤◌, ◌<◌, max, length, nat_lt, Some, None, IfOk, IfErr};
ghost use Rattle.cj_ir.specs.declared.language.Program.{Program};
ghost use Rattle.cj_draft.specs.declared.code.Code.{Code};
ghost use Rattle.cj_draft.specs.WellNamed.{IsPointFine, WellNamed};
ghost use Rattle.cj_inline.specs.Inlining.{greatest_of, target_frames, back_frames, place_frames, most_frames, called_by, called, called_at, full_offence, room_offence, callee_offence, inline_offence};

use cj_draft::limits::{MAX_CODE_LABELS, MAX_CODE_REGS, MAX_FRAMES};
use cj_draft::{Back, Code, Draft, Facts, Place, Room, Skipped, VInstr};
use cj_ir::{FunId, Label};

/// The function that the draft calls at a label, where a run may come to it. What is inlined there is a draft of it.
///
/// `Err`: the label is not in the draft (`NoPlace`), or holds no call, or no run comes to it (`NotCall`). Inlining is then
/// skipped for that reason, whatever the callee.
#[tactic(auto, unfolding(crate::specs::Inlining::called_at, crate::specs::Inlining::called_in, crate::specs::Inlining::inline_offence, crate::specs::Inlining::offence_at, crate::specs::Inlining::offence_by))]
pub fn called_at(draft: &Draft<'_>, call: Label) -> Result<FunId, Skipped>
    ensures called { IfOk result (λ f. called_at draft.now.code call ≡ Some f) }
    ensures exists { IfOk result (λ f. f.0 < length draft.now.program.functions) }
    ensures none { IfErr result (λ skipped. called_at draft.now.code call ≡ None) }
    ensures skipped { IfErr result (λ skipped. (callee : Code) → inline_offence draft.now.code call callee ≡ Some skipped) }
{
    let Some(place) = draft.code().places.items().get(call.0 as usize) else {
        return Err(Skipped::NoPlace { label: call });
    };
    match called(place) {
        Some(function) => Ok(function),
        None => Err(Skipped::NotCall { label: call }),
    }
}

/// Why the callee does not stand in the place of the call: the first of the conditions that holds.
#[tactic(auto, unfolding(crate::specs::Inlining::inline_offence, crate::specs::Inlining::offence_at, crate::specs::Inlining::offence_by))]
pub(crate) fn inline_offence(code: &Code, call: Label, callee: &Code) -> Option<Skipped>
    requires code { (P : Program) × WellNamed P code.now }
    requires callee { (P : Program) × WellNamed P callee.now }
    ensures { result ≡ inline_offence code.now call callee.now }
{
    let Some(place) = code.places.items().get(call.0 as usize) else {
        return Some(Skipped::NoPlace { label: call });
    };
    let Some(function) = called(place) else {
        return Some(Skipped::NotCall { label: call });
    };
    callee_offence(code, callee, place, function)
}

/// The function that a place calls, where a run may come to it.
#[tactic(auto, unfolding(crate::specs::Inlining::called, crate::specs::Inlining::if_reached, crate::specs::Inlining::called_by))]
fn called(place: &Place) -> Option<FunId>
    ensures { result ≡ called place.now }
{
    match (&place.facts, &place.instr) {
        (Facts::Known(_), VInstr::Call { function, .. }) => Some(*function),
        _ => None,
    }
}

/// Why the callee does not stand in a place that calls this function.
#[tactic(auto, unfolding(crate::specs::Inlining::callee_offence, crate::specs::Inlining::if_other))]
fn callee_offence(code: &Code, callee: &Code, place: &Place, function: FunId) -> Option<Skipped>
    requires code { (P : Program) × WellNamed P code.now }
    requires callee { (P : Program) × WellNamed P callee.now }
    requires point { (P : Program) × IsPointFine P code.now.regs place.now.point }
    ensures { result ≡ callee_offence code.now callee.now place.now function }
{
    if callee.function.0 != function.0 {
        return Some(Skipped::Other { function });
    }
    let most = most_frames(callee.places.items());
    let frames = place.point.frames.items().len() + most;
    let labels = code.places.items().len() + callee.places.items().len();
    room_offence(frames as u32, code.regs + callee.regs, labels as u32)
}

/// Which limit so many frames, registers and labels are above.
#[tactic(auto, unfolding(crate::specs::Inlining::room_offence, crate::specs::Inlining::if_deep, crate::specs::Inlining::full_offence, cj_rows::specs::Rooms::if_full))]
fn room_offence(frames: u32, regs: u32, labels: u32) -> Option<Skipped>
    ensures { result ≡ room_offence frames regs labels }
{
    if frames > MAX_FRAMES {
        return Some(Skipped::Deep { frames });
    }
    if regs > MAX_CODE_REGS {
        return Some(Skipped::Full {
            room: Room::Registers,
            count: regs,
        });
    }
    if labels > MAX_CODE_LABELS {
        return Some(Skipped::Full {
            room: Room::Labels,
            count: labels,
        });
    }
    None
}

/// The greatest number of frames of a point, target or pair of the places.
#[tactic(auto, unfolding(crate::specs::Inlining::most_frames, crate::specs::Inlining::greatest_of))]
fn most_frames(places: &[Place]) -> usize
    ensures { result ≡ most_frames places.now }
{
    let mut most = 0;
    'each: for place in places {
        most = greater(most, place_frames(place));
    }
    most
}

/// The greatest number of frames of a place's point, target and pairs.
#[tactic(auto, unfolding(crate::specs::Inlining::place_frames))]
fn place_frames(place: &Place) -> usize
    ensures { result ≡ place_frames place.now }
{
    let targeted = target_frames(&place.instr);
    let backs = backs_frames(place.backs.items());
    greater(place.point.frames.items().len(), greater(targeted, backs))
}

#[tactic(auto, unfolding(crate::specs::Inlining::target_frames))]
fn target_frames(instr: &VInstr) -> usize
    ensures { result ≡ target_frames instr.now }
{
    match instr {
        VInstr::Assume { target, .. } | VInstr::Anchor { target, .. } => target
            .frames
            .items()
            .len(),
        _ => 0,
    }
}

#[tactic(auto, unfolding(crate::specs::Inlining::back_frames))]
fn back_frames(pair: &Back) -> usize
    ensures { result ≡ back_frames pair.now }
{
    pair.point.frames.items().len()
}

/// The greatest number of frames of the pairs.
#[tactic(auto, unfolding(crate::specs::Inlining::greatest_of))]
fn backs_frames(backs: &[Back]) -> usize
    ensures { result ≡ greatest_of back_frames backs.now }
{
    let mut most = 0;
    'each: for pair in backs {
        most = greater(most, back_frames(pair));
    }
    most
}

fn greater(one: usize, other: usize) -> usize
    ensures { result ≡ max one other }
{
    if one < other { other } else { one }
}
