//! An Assume at the end of a path that an Anchor begins.

ghost use Rattle.std.specs.Prelude.{◌≡◌, ◌-◌, ◌<◌, ◌≤◌, cond, Some, IfOk, OnOk, length};
ghost use Rattle.cj_draft.specs.declared.code.Place.{Place};
ghost use Rattle.cj_draft.specs.declared.instructions.VInstr.TheVariants.{Assume};
ghost use Rattle.cj_draft.specs.Arrives.{place_at};
ghost use Rattle.cj_draft.specs.Sound.{pair_of};
ghost use Rattle.cj_rows.specs.Places.{with_places};
ghost use Rattle.cj_delay.specs.DelayedAssume.{delay_offence, on_path, turn_at, turns_back, path_pair, AreMarked, led_edge, IsDelayed, IsAfterDelay};
ghost use Rattle.cj_delay.specs.DelaySteps.{IsPathIn, BeginsPath, IsMarkedPlace, IsMarkedAt, IsFreshPlace, IsLed};
ghost use Rattle.cj_draft.specs.declared.limits.TheConstants.{MAX_CODE_LABELS, MAX_BACK};

use crate::edges::edge_lists;
use crate::paths::{delay_offence, is_turn_at, on_path, turns_before};
use cj_draft::{Code, Draft, Place, Point, Skipped, VInstr, led_to};
use cj_ir::{Duplicate, Guards, Label, Labels, NoMemory};
use cj_rows::{add_pair, with_pair};

/// The draft with the guards assumed at the end of a path of labels, which an Anchor begins. A fresh label, the last one,
/// stands on the path's last edge. It holds an Assume with the Anchor's target, and with a back that counts the Nops and
/// Conds between in addition to the Anchor's own; its point and facts are those of the path's last label. Each label
/// between gets its pair, where it is missing. The program and the context stay.
///
/// The pass is skipped, and the draft stays, where the path has fewer than two labels; for the first of its labels that is
/// not in the draft; where its first label holds no Anchor; for the first later label that is no successor of the one before it or stands earlier in the
/// path, into which other than one edge goes, the one from the start counted, or that is not the last and does not pass in
/// silence; where the Assume would take more turns back than `MAX_BACK`; where the register of a guard is not in the draft;
/// where there are more guards than `MAX_GUARDS`; where more Assumes and Anchors than `MAX_ROW` would follow each other; or
/// where the draft would have more labels than `MAX_CODE_LABELS`. The first of these conditions that holds is told. A count
/// above the greatest of `u32` is told as that.
pub fn delayed<'p>(
    draft: Draft<'p>,
    path: &Labels,
    guards: &Guards,
) -> Result<(Draft<'p>, Option<Skipped>), NoMemory>
    ensures program { IfOk result (λ made. made.0.program ≡ draft.entry.program) }
    ensures context { IfOk result (λ made. made.0.context ≡ draft.entry.context) }
    ensures skipped { IfOk result (λ made. made.1 ≡ delay_offence draft.entry.program draft.entry.code path.now guards.now) }
    ensures code { IfOk result (λ made. IsAfterDelay draft.entry.program draft.entry.code path.now guards.now made.0.code) }
{
    let (checked, context, code) = draft.into_parts();
    let lists = edge_lists(&code)?;
    let skipped = delay_offence(
        checked.program(),
        &code,
        &lists,
        path.items(),
        guards.items(),
    );
    if let Some(skipped) = skipped {
        return Ok((Draft::adopt_in(checked, context, code), Some(skipped)));
    }
    let code = delayed_code(code, path.items(), guards)?;
    Ok((Draft::adopt_in(checked, context, code), None))
}

/// The code with the guards assumed at the end of the path.
pub(crate) fn delayed_code(code: Code, path: &[Label], guards: &Guards) -> Result<Code, NoMemory>
    requires few { length code.places ≤ MAX_CODE_LABELS }
    requires path { IsPathIn code path.now }
    requires begins { BeginsPath code path.now }
    ensures { IfOk result (IsDelayed code path.now guards.now) }
{
    let first = on_path(path, 0);
    let last = on_path(path, path.len() - 1);
    let before = on_path(path, path.len() - 2);
    match &code.places.items()[first.0 as usize].instr {
        VInstr::Anchor { back, target, .. } => {
            let number = *back;
            let target = target.copy()?;
            let fresh = assume_at(&code, path, guards, number, &target)?;
            let code = marked(code, path, number, &target)?;
            let code = led(code, before, last, fresh)?;
            Ok(code)
        }
        _ => Ok(code),
    }
}

/// The place of the Assume before the path's last label.
fn assume_at(
    code: &Code,
    path: &[Label],
    guards: &Guards,
    number: u32,
    target: &Point,
) -> Result<Place, NoMemory>
    requires path { IsPathIn code.now path.now }
    requires short { turns_back code.now path.now number ≤ MAX_BACK }
    ensures { IfOk result (λ made. (last : Place) × (place_at code.now (on_path path.now (length path.now - 1)) ≡ Some last) × IsFreshPlace (Assume guards.now (turns_back code.now path.now number) target.now (on_path path.now (length path.now - 1))) last (path_pair code.now path.now target.now number (length path.now - 1)) made) }
{
    let end = path.len() - 1;
    let next = on_path(path, end);
    let back = number + turns_before(code, path, end) as u32;
    let instr = assume_to(guards, back, target, next)?;
    let made = fresh_place(&code.places.items()[next.0 as usize], instr, back, target)?;
    Ok(made)
}

fn assume_to(guards: &Guards, back: u32, target: &Point, next: Label) -> Result<VInstr, NoMemory>
    ensures { IfOk result (λ made. made ≡ Assume guards.now back target.now next) }
{
    let guards = guards.copy()?;
    let target = target.copy()?;
    Ok(VInstr::Assume {
        guards,
        back,
        target,
        next,
    })
}

/// A place with this instruction, like another one, whose pairs it has, and the one of these turns and point.
fn fresh_place(last: &Place, instr: VInstr, turns: u32, target: &Point) -> Result<Place, NoMemory>
    ensures { IfOk result (IsFreshPlace instr last.now (pair_of turns target.now)) }
{
    let backs = with_pair(&last.backs, turns, target)?;
    let point = last.point.copy()?;
    let facts = last.facts.copy()?;
    Ok(Place {
        instr,
        point,
        facts,
        backs,
    })
}

/// The code in which each label between the path's ends has its pair.
fn marked(code: Code, path: &[Label], number: u32, target: &Point) -> Result<Code, NoMemory>
    requires path { IsPathIn code path.now }
    requires short { turns_back code path.now number ≤ MAX_BACK }
    ensures same { IfOk result (λ made. made ≡ with_places code made.places) }
    ensures marked { IfOk result (λ made. AreMarked code path.now target.now number (length path.now - 1) made.places) }
{
    let mut code = code;
    let mut turns = number;
    for at in 1..path.len() - 1 {
        let label = on_path(path, at);
        let more = turns_at(&code, label);
        code = mark(code, label, turns, target)?;
        turns += more;
    }
    Ok(code)
}

/// 1 for a label that holds a Nop or Cond, and else 0.
fn turns_at(code: &Code, label: Label) -> u32
    ensures { result ≡ cond (turn_at code.now label) 1 0 }
{
    if is_turn_at(code, label) { 1 } else { 0 }
}

/// The code in which a label has the pair of these turns and point.
fn mark(mut code: Code, label: Label, turns: u32, target: &Point) -> Result<Code, NoMemory>
    requires { label.0 < length code.places }
    ensures { IfOk result (IsMarkedAt code label (pair_of turns target.now)) }
{
    mark_place(code.places.item_mut(label.0 as usize), turns, target)?;
    Ok(code)
}

/// Gives a place the pair of these turns and point, where it is missing.
fn mark_place(place: &mut Place, turns: u32, target: &Point) -> Result<(), NoMemory>
    ensures { OnOk result (IsMarkedPlace (pair_of turns target.now) place.old place.new) }
{
    add_pair(&mut place.backs, turns, target)?;
    Ok(())
}

/// The code with a fresh place, to which the edges from one label to another are led.
fn led(mut code: Code, before: Label, last: Label, fresh: Place) -> Result<Code, NoMemory>
    requires few { length code.places ≤ MAX_CODE_LABELS }
    requires within { before.0 < length code.places }
    ensures { IfOk result (IsLed code before last fresh) }
{
    let label = Label(code.places.items().len() as u32);
    let from = code.places.item_mut(before.0 as usize);
    lead_edge(&mut from.instr, last, label);
    code.places.push(fresh)?;
    Ok(code)
}

/// Leads the edges of a Nop, Cond, Assume or Anchor to a label to the fresh one.
#[tactic(auto, unfolding(crate::specs::DelayedAssume::led_edge))]
fn lead_edge(instr: &mut VInstr, label: Label, fresh: Label)
    ensures { instr.new ≡ led_edge label fresh instr.old }
{
    match instr {
        VInstr::Nop { next } => *next = led_to(label, fresh, *next),
        VInstr::Cond {
            then_to,
            else_to,
            ..
        } => {
            *then_to = led_to(label, fresh, *then_to);
            *else_to = led_to(label, fresh, *else_to);
        }
        VInstr::Assume { next, .. } => *next = led_to(label, fresh, *next),
        VInstr::Anchor { next, .. } => *next = led_to(label, fresh, *next),
        _ => {}
    }
}
