//! A callee's code in the place of a call.

ghost use Rattle.std.specs.Prelude.{◌≡◌, ◌+◌, ◌≤◌, [], IfOk, None, length};
ghost use Rattle.cj_ir.specs.declared.language.Program.{Program};
ghost use Rattle.cj_draft.specs.WellNamed.{WellNamed};
ghost use Rattle.cj_inline.specs.Inlining.{inline_offence, inlined, inlined_or_left, IsAfter};
ghost use Rattle.cj_draft.specs.declared.limits.TheConstants.{MAX_CODE_REGS};

use crate::entries::entry_move;
use crate::offences::inline_offence;
use crate::places::with_callee;
use crate::seams::seam_at;
use crate::shifts::shifted_label;
use cj_draft::{Code, Draft, Skipped, VInstr};
use cj_ir::{Label, NoMemory, Program};

/// The draft with the callee's code in the place of the call at a label. The callee is a draft of the same program with the
/// empty context, and may be of the draft's own function.
///
/// The callee's places follow the draft's, and its registers and labels are numbered after the draft's. The place of the
/// call becomes one move to the callee's entry, which sets every register of the callee: the first ones to the arguments,
/// the others to 0. A return of the callee becomes one move of its value to the call's destination, and goes on at the call's
/// next label. The points, targets and pairs of the callee's places get the base frames that wait while the call runs, and
/// what is known at the call is known there too. The program and the context stay.
///
/// The pass is skipped, and the draft stays, where the label is not in the draft (`NoPlace`); where it holds no call, or no
/// run comes to it (`NotCall`); where the callee is of another function than the called one, which is told (`Other`); where
/// a point would have more frames than `MAX_FRAMES` (`Deep`); where there would be more registers than `MAX_CODE_REGS`, or
/// more labels than `MAX_CODE_LABELS` (`Full`). The first of these conditions that holds is told, with the number that is too great.
pub fn inline<'p>(
    draft: Draft<'p>,
    call: Label,
    callee: &Draft<'p>,
) -> Result<(Draft<'p>, Option<Skipped>), NoMemory>
    requires program { callee.now.program ≡ draft.program }
    requires context { callee.now.context ≡ [] }
    ensures program { IfOk result (λ made. made.0.program ≡ draft.entry.program) }
    ensures context { IfOk result (λ made. made.0.context ≡ draft.entry.context) }
    ensures skipped { IfOk result (λ made. made.1 ≡ inline_offence draft.entry.code call callee.now.code) }
    ensures code { IfOk result (λ made. IsAfter draft.entry.program draft.entry.code call callee.now.code made.0.code) }
{
    let callee = callee.code();
    let (checked, context, code) = draft.into_parts();
    if let Some(skipped) = inline_offence(&code, call, callee) {
        return Ok((Draft::adopt_in(checked, context, code), Some(skipped)));
    }
    let code = inlined(checked.program(), code, call, callee)?;
    Ok((Draft::adopt_in(checked, context, code), None))
}

/// The code with the callee in the place of the call. There is room for it.
#[tactic(auto, unfolding(crate::specs::Inlining::inlined, crate::specs::Inlining::inlined_at, crate::specs::Inlining::inlined_by))]
fn inlined(program: &Program, code: Code, call: Label, callee: &Code) -> Result<Code, NoMemory>
    requires code { WellNamed program.now code }
    requires callee { WellNamed program.now callee.now }
    requires room { code.regs + callee.now.regs ≤ MAX_CODE_REGS }
    ensures { IfOk result (λ made. made ≡ inlined program.now code call callee.now) }
{
    let index = call.0 as usize;
    let Some(place) = code.places.items().get(index) else {
        return Ok(code);
    };
    let VInstr::Call {
        dest,
        ref args,
        next,
        ..
    } = place.instr
    else {
        return Ok(code);
    };
    let seam = seam_at(program, &code, place, dest, next)?;
    let entry = shifted_label(seam.labels, callee.entry);
    let enter = entry_move(
        args.allocator(),
        code.regs,
        callee.regs,
        entry,
        args.items(),
    )?;
    let mut places = code.places;
    places.item_mut(index).instr = enter;
    let places = with_callee(places, &seam, &callee.places)?;
    Ok(Code {
        function: code.function,
        regs: code.regs + callee.regs,
        entry: code.entry,
        places,
    })
}
