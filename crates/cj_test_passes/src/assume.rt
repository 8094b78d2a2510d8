//! Guards after Anchors, in the base body of the increment and in one of as many labels as there may be.

use cj_anchor::insert_anchors;
use cj_assume::immediate;
use cj_draft::{Code, Draft, Place, Point, Room, Skipped, VInstr};
use cj_ir::{Checked, FunId, Guard, Instr, Label, Labels, Lines, NoMemory, Reg};
use cj_samples::{N, alone, function, increment, lines, list};
use std::alloc::Global;
use std::process::Abort;
use std::test::Fail;

// The base body of the first function, with an Anchor before each of these labels.
pub(crate) fn anchored<'p>(
    rt: &impl Abort,
    checked: &'p Checked,
    before: &Labels,
) -> Result<Draft<'p>, Fail> {
    assert!(rt; 0 < checked.program().functions.items().len());
    let draft = Draft::of_base(before.allocator(), checked, FunId(0))?;
    let (draft, skips) = insert_anchors(draft, before)?;
    assert_eq!(rt; skips.items().len(), 0);
    Ok(draft)
}

fn is(reg: u32, value: i64) -> Guard {
    Guard::Is {
        reg: Reg(reg),
        value,
    }
}

fn full(room: Room, count: u32) -> Option<Skipped> {
    Some(Skipped::Full { room, count })
}

// The draft after the pass, which is skipped for this reason.
fn assumed<'p>(
    rt: &impl Abort,
    draft: Draft<'p>,
    anchor: u32,
    guards: &[Guard],
    reason: Option<Skipped>,
) -> Result<Draft<'p>, Fail> {
    let guards = list(draft.code().places.allocator(), guards)?;
    let (draft, skipped) = immediate(draft, Label(anchor), &guards)?;
    assert_eq!(rt; skipped, reason);
    Ok(draft)
}

// The point has one frame, at that label.
fn is_at(point: &Point, label: u32) -> bool {
    match point.frames.items() {
        [frame] => frame.label == Label(label),
        _ => false,
    }
}

// An Assume with these guards, which goes on to the entry of the base body.
fn assumes(place: &Place, want: &[Guard]) -> bool {
    match &place.instr {
        VInstr::Assume {
            guards,
            back,
            target,
            next,
        } => *back == 0 && *next == Label(0) && is_at(target, 0) && guards.items() == want,
        _ => false,
    }
}

fn is_anchor_to(place: &Place, label: u32) -> bool {
    matches!(&place.instr, VInstr::Anchor { next, .. } if *next == Label(label))
}

// The place stands for that label, and has one pair.
fn stands_for(place: &Place, label: u32) -> bool {
    is_at(&place.point, label) && place.backs.items().len() == 1
}

// The entry is an Anchor at label 3, which goes on to an Assume with these guards at label 4.
fn assumes_after_the_anchor(code: &Code, guards: &[Guard]) -> bool {
    let [_, _, _, anchor, assume] = code.places.items() else {
        return false;
    };
    code.entry == Label(3)
        && is_anchor_to(anchor, 4)
        && assumes(assume, guards)
        && stands_for(assume, 0)
}

// The places of the base body with an Anchor before the entry.
fn is_only_anchored(code: &Code) -> bool {
    match code.places.items() {
        [_, _, _, anchor] => code.entry == Label(3) && is_anchor_to(anchor, 0),
        _ => false,
    }
}

// Each condition, where those before it do not hold and those after it do.
fn skips_in_order<'p>(rt: &impl Abort, draft: Draft<'p>) -> Result<Draft<'p>, Fail> {
    let no_place = Skipped::NoPlace { label: Label(4) };
    let draft = assumed(rt, draft, 4, &[is(2, 0)], Some(no_place))?;
    let not_anchor = Skipped::NotAnchor { label: Label(0) };
    let draft = assumed(rt, draft, 0, &[is(2, 0)], Some(not_anchor))?;
    let no_register = Skipped::NoRegister { reg: Reg(2) };
    let mut nine = [Guard::Never; 9];
    nine[1] = is(2, 0);
    nine[2] = is(3, 0);
    let draft = assumed(rt, draft, 3, &nine, Some(no_register))?;
    let draft = assumed(rt, draft, 3, &[is(1, 1); 9], full(Room::Guards, 9))?;
    assert!(rt; is_only_anchored(draft.code()));
    Ok(draft)
}

// A fresh Assume at label 4, which has room for seven more guards, and then two of them.
fn fresh_and_appended<'p>(rt: &impl Abort, draft: Draft<'p>) -> Result<(), Fail> {
    let draft = assumed(rt, draft, 3, &[is(0, 5)], None)?;
    assert!(rt; assumes_after_the_anchor(draft.code(), &[is(0, 5)]));
    let draft = assumed(rt, draft, 3, &[is(0, 1); 8], full(Room::Guards, 9))?;
    let draft = assumed(rt, draft, 3, &[is(1, 0), Guard::Never], None)?;
    let all = [is(0, 5), is(1, 0), Guard::Never];
    assert!(rt; assumes_after_the_anchor(draft.code(), &all));
    Ok(())
}

// Eight Anchors that follow each other, from label 3 to label 10.
fn full_row(rt: &impl Abort, alloc: Global, checked: &Checked) -> Result<(), Fail> {
    let before = list(alloc, &[Label(0); 8])?;
    let draft = anchored(rt, checked, &before)?;
    let draft = assumed(rt, draft, 3, &[], full(Room::Row, 9))?;
    let draft = assumed(rt, draft, 10, &[], full(Room::Row, 9))?;
    assert_eq!(rt; draft.code().places.items().len(), 11);
    Ok(())
}

// The base body has no Anchors.
fn skipped_draft(rt: &impl Abort, alloc: Global, checked: &Checked) -> Result<(), Fail> {
    let draft = anchored(rt, checked, &Labels::new(alloc))?;
    let not_anchor = Skipped::NotAnchor { label: Label(0) };
    let draft = assumed(rt, draft, 0, &[is(0, 5)], Some(not_anchor))?;
    assert_eq!(rt; draft.code().places.items().len(), 3);
    Ok(())
}

// Nops up to the last of 256 lines, which returns.
fn many_lines(alloc: Global) -> Result<Lines, NoMemory> {
    let mut instrs = Vec::new(alloc);
    for next in 1..256 {
        instrs.push(Instr::Nop { next: Label(next) })?;
    }
    instrs.push(Instr::Return { value: N })?;
    lines(alloc, instrs)
}

// As many labels as there may be, half of which hold Anchors.
fn full_labels(rt: &impl Abort, alloc: Global) -> Result<(), Fail> {
    let checked = alone(function(alloc, "main", many_lines(alloc)?)?)?;
    let mut before = Labels::new(alloc);
    for label in 0..256 {
        before.push(Label(label))?;
    }
    let draft = anchored(rt, &checked, &before)?;
    let draft = assumed(rt, draft, 256, &[is(0, 5)], full(Room::Labels, 513))?;
    assert_eq!(rt; draft.code().places.items().len(), 512);
    Ok(())
}

#[test]
fn guards_stand_directly_after_the_anchor(rt: HostRuntime) -> Result<(), Fail> {
    let checked = alone(increment(rt.alloc())?)?;
    let draft = anchored(&rt, &checked, &list(rt.alloc(), &[Label(0)])?)?;
    let draft = skips_in_order(&rt, draft)?;
    fresh_and_appended(&rt, draft)?;
    full_row(&rt, rt.alloc(), &checked)?;
    full_labels(&rt, rt.alloc())?;
    skipped_draft(&rt, rt.alloc(), &checked)
}
