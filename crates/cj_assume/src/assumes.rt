//! An Assume directly after an Anchor.

ghost use Rattle.std.specs.Prelude.{◌≡◌, ◌<◌, ◌≤◌, None, IfOk, length};
ghost use Rattle.cj_assume.specs.ImmediateAssume.{assume_offence, appended, inserted, assumed, assumed_or_left, IsAfter};
ghost use Rattle.cj_draft.specs.declared.limits.TheConstants.{MAX_CODE_LABELS};

use crate::offences::{assume_offence, guards_at};
use crate::places::{append_guards, assume_of, lead_anchor};
use cj_draft::{Code, Draft, Skipped};
use cj_ir::{Guards, Label, NoMemory};
use cj_rows::{anchor_at, with_instr};

/// The draft with the guards assumed directly after the Anchor at a label. Where an Assume follows the Anchor, they are
/// appended to its own guards, and its target stays. Else a fresh label, the last one, holds an Assume with the Anchor's
/// target, back and next label, and with the point, facts and pairs of the Anchor's label, and the Anchor goes on to it.
/// The program and the context stay.
///
/// The pass is skipped, and the draft stays, where the label is not in the draft, or holds no Anchor; where the register
/// of a guard is not in the draft, which tells the first such guard's; where the Assume would have more guards than
/// `MAX_GUARDS`; and for a fresh label where more Assumes and Anchors than `MAX_ROW` would follow each other, or the draft
/// would have more labels than `MAX_CODE_LABELS`. The first of these conditions that holds is told. A count above the
/// greatest of `u32` is told as that.
pub fn immediate<'p>(
    draft: Draft<'p>,
    anchor: Label,
    guards: &Guards,
) -> Result<(Draft<'p>, Option<Skipped>), NoMemory>
    ensures program { IfOk result (λ made. made.0.program ≡ draft.entry.program) }
    ensures context { IfOk result (λ made. made.0.context ≡ draft.entry.context) }
    ensures skipped { IfOk result (λ made. made.1 ≡ assume_offence draft.entry.code anchor guards.now) }
    ensures code { IfOk result (λ made. IsAfter draft.entry.code anchor guards.now made.0.code) }
{
    let (checked, context, code) = draft.into_parts();
    if let Some(skipped) = assume_offence(&code, anchor, guards.items()) {
        return Ok((Draft::adopt_in(checked, context, code), Some(skipped)));
    }
    let code = assumed(code, anchor, guards)?;
    Ok((Draft::adopt_in(checked, context, code), None))
}

/// The code with the guards assumed directly after the Anchor at a label.
#[tactic(auto, unfolding(crate::specs::ImmediateAssume::assumed, crate::specs::ImmediateAssume::assumed_after, crate::specs::ImmediateAssume::assumed_by))]
pub(crate) fn assumed(code: Code, anchor: Label, guards: &Guards) -> Result<Code, NoMemory>
    requires few { length code.places ≤ MAX_CODE_LABELS }
    ensures { IfOk result (λ made. made ≡ assumed code anchor guards.now) }
{
    let Some(next) = anchor_at(&code, anchor) else {
        return Ok(code);
    };
    match guards_at(&code, next) {
        Some(_) => appended(code, next, guards),
        None => inserted(code, anchor, guards),
    }
}

/// The code with the guards appended to those of the Assume at a label.
#[tactic(auto, unfolding(crate::specs::ImmediateAssume::appended, crate::specs::ImmediateAssume::appended_in, cj_rows::specs::Places::with_instr, cj_rows::specs::Places::with_places))]
fn appended(mut code: Code, label: Label, guards: &Guards) -> Result<Code, NoMemory>
    ensures { IfOk result (λ made. made ≡ appended code label guards.now) }
{
    let index = label.0 as usize;
    if index >= code.places.items().len() {
        return Ok(code);
    }
    let place = code.places.item_mut(index);
    append_guards(&mut place.instr, guards.items())?;
    Ok(code)
}

/// The code with a fresh Assume directly after the Anchor at a label.
#[tactic(auto, unfolding(crate::specs::ImmediateAssume::inserted, crate::specs::ImmediateAssume::inserted_in, cj_draft::specs::Edges::fresh_label, cj_rows::specs::Places::with_instr, cj_rows::specs::Places::with_places))]
fn inserted(mut code: Code, anchor: Label, guards: &Guards) -> Result<Code, NoMemory>
    requires few { length code.places ≤ MAX_CODE_LABELS }
    ensures { IfOk result (λ made. made ≡ inserted code anchor guards.now) }
{
    let index = anchor.0 as usize;
    let Some(place) = code.places.items().get(index) else {
        return Ok(code);
    };
    let fresh = Label(code.places.items().len() as u32);
    let assume = with_instr(place, assume_of(&place.instr, guards)?)?;
    let led = code.places.item_mut(index);
    lead_anchor(&mut led.instr, fresh);
    code.places.push(assume)?;
    Ok(code)
}
