//! Anchors before the labels of a base body.

use cj_anchor::insert_anchors;
use cj_draft::{Code, Draft, Room, Skipped, VInstr};
use cj_ir::{Checked, FunId, Label, Labels};
use cj_samples::{alone, jump};
use std::alloc::Global;
use std::process::Abort;
use std::test::Fail;

fn has_places(code: &Code, entry: u32, count: usize) -> bool {
    code.entry == Label(entry) && code.places.items().len() == count
}

fn goes_to(code: &Code, at: usize, label: u32) -> bool {
    let Some(place) = code.places.items().get(at) else {
        return false;
    };
    match &place.instr {
        VInstr::Nop { next } | VInstr::Anchor { next, .. } => *next == Label(label),
        _ => false,
    }
}

// The place has one frame, at that label.
fn stands_for(code: &Code, at: usize, label: u32) -> bool {
    let Some(place) = code.places.items().get(at) else {
        return false;
    };
    match place.point.frames.items() {
        [frame] => frame.label == Label(label),
        _ => false,
    }
}

fn labels(alloc: Global, numbers: &[u32]) -> Result<Labels, Fail> {
    let mut labels = Labels::new(alloc);
    for &number in numbers {
        labels.push(Label(number))?;
    }
    Ok(labels)
}

// Anchors before labels of the base body, of which just one is skipped.
fn anchored<'p>(
    rt: &impl Abort,
    checked: &'p Checked,
    before: &Labels,
    skip: (u32, Skipped),
) -> Result<Draft<'p>, Fail> {
    assert!(rt; 0 < checked.program().functions.items().len());
    let draft = Draft::of_base(before.allocator(), checked, FunId(0))?;
    let (draft, skips) = insert_anchors(draft, before)?;
    assert!(rt; skips.items() == [skip].as_slice());
    Ok(draft)
}

#[test]
fn edges_to_a_label_go_to_its_anchor(rt: HostRuntime) -> Result<(), Fail> {
    let checked = alone(jump(rt.alloc())?)?;
    let no_place = Skipped::NoPlace { label: Label(5) };
    let before = labels(rt.alloc(), &[0, 5, 2, 0])?;
    let draft = anchored(&rt, &checked, &before, (1, no_place))?;
    has_anchors(&rt, draft.code());
    Ok(())
}

// Three Anchors behind the three labels: before label 0, before label 2, and another before label 0.
fn has_anchors(rt: &impl Abort, code: &Code) {
    assert!(rt; has_places(code, 3, 6));
    assert!(rt; stands_for(code, 4, 2));
    assert!(rt; goes_to(code, 0, 4));
    assert!(rt; goes_to(code, 1, 3));
    assert!(rt; goes_to(code, 3, 5));
    assert!(rt; goes_to(code, 5, 0));
}

#[test]
fn a_ninth_anchor_of_a_row_is_skipped(rt: HostRuntime) -> Result<(), Fail> {
    let checked = alone(jump(rt.alloc())?)?;
    let full = Skipped::Full {
        room: Room::Row,
        count: 9,
    };
    let before = labels(rt.alloc(), &[0, 0, 0, 0, 0, 0, 0, 0, 0, 1])?;
    let draft = anchored(&rt, &checked, &before, (8, full))?;
    assert_eq!(rt; draft.code().places.items().len(), 12);
    Ok(())
}
