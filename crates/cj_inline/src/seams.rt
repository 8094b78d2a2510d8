//! Where a callee's body stands in its caller.

ghost use Rattle.std.specs.Prelude.{◌≡◌, ◌<◌, ◌≤◌, ◌++◌, [], ◌∷◌, IfOk, length};
ghost use Rattle.cj_ir.specs.declared.language.Program.{Program};
ghost use Rattle.cj_draft.specs.WellNamed.{IsPointFine};
ghost use Rattle.cj_draft.specs.Inlining.{appended_frames};
ghost use Rattle.cj_inline.specs.Inlining.{seam_at};
ghost use Rattle.cj_draft.specs.declared.limits.TheConstants.{MAX_CODE_LABELS};

use cj_draft::{Code, Facts, Frames, Place, Point, PointFrame};
use cj_ir::{Duplicate, Instr, Label, NoMemory, Program, Reg, Sequence};

/// Where a callee's body stands in its caller.
#[derive(Debug, Drop)]
pub struct Seam {
    /// The caller's registers, which the callee's follow.
    pub regs: u32,
    /// The caller's labels, which the callee's follow.
    pub labels: u32,
    /// The caller's base frames that wait while the callee runs.
    pub frames: Frames,
    /// What is known at the call.
    pub facts: Facts,
    /// The call's destination.
    pub dest: Reg,
    /// Where the caller goes on after the call.
    pub next: Label,
}

/// The seam of a call at a place.
#[tactic(auto, unfolding(crate::specs::Inlining::seam_at))]
pub(crate) fn seam_at(
    program: &Program,
    code: &Code,
    place: &Place,
    dest: Reg,
    next: Label,
) -> Result<Seam, NoMemory>
    requires few { length code.now.places ≤ MAX_CODE_LABELS }
    requires point { IsPointFine program.now code.now.regs place.now.point }
    ensures { IfOk result (λ seam. seam ≡ seam_at program.now code.now place.now dest next) }
{
    let frames = appended_frames(program, &place.point)?;
    let facts = place.facts.copy()?;
    Ok(Seam {
        regs: code.regs,
        labels: code.places.items().len() as u32,
        frames,
        facts,
        dest,
        next,
    })
}

/// The frames of a call's point that wait while the call runs: the first one after the call, with its destination. There
/// are none where the base instruction is no call.
#[tactic(auto, unfolding(cj_draft::specs::Inlining::appended_frames, cj_draft::specs::Inlining::appended_by))]
fn appended_frames(program: &Program, point: &Point) -> Result<Frames, NoMemory>
    requires { (regs : _) × IsPointFine program.now regs point.now }
    ensures { IfOk result (λ frames. frames ≡ appended_frames program.now point.now.frames) }
{
    let frames = point.frames.items();
    let none = Frames::new(point.frames.allocator());
    let first = &frames[0];
    let line = program.line(first.function, first.label);
    match line.instr {
        Instr::Call { dest, next, .. } => {
            let first = after_call(first, dest, next)?;
            let frames_of_first = one_frame(none, first)?;
            with_all(frames_of_first, &frames[1..])
        }
        _ => Ok(none),
    }
}

/// The frame after its call.
fn after_call(frame: &PointFrame, dest: Reg, next: Label) -> Result<PointFrame, NoMemory>
    ensures { IfOk result (λ made. made ≡ record { function = frame.now.function; label = next; dest = dest; map = frame.now.map }) }
{
    let map = frame.map.copy()?;
    Ok(PointFrame {
        function: frame.function,
        label: next,
        dest,
        map,
    })
}

fn one_frame(mut frames: Frames, frame: PointFrame) -> Result<Frames, NoMemory>
    ensures { IfOk result (λ made. made ≡ frames ++ frame ∷ []) }
{
    frames.push(frame)?;
    Ok(frames)
}

/// The list with copies of further items at its end.
pub(crate) fn with_all<T: Duplicate + Drop>(
    mut list: Sequence<T>,
    more: &[T],
) -> Result<Sequence<T>, NoMemory>
    ensures { IfOk result (λ made. made ≡ list ++ more.now) }
{
    'more: for item in more {
        let item = item.copy()?;
        list.push(item)?;
    }
    Ok(list)
}
