//! Lowering of base bodies, and of drafts with Anchors.

use cj_anchor::insert_anchors;
use cj_draft::{Code, Draft, VInstr};
use cj_ir::{Checked, FunId, Label, Labels};
use cj_passes::lower;
use cj_samples::{alone, increment, jump};
use std::alloc::Global;
use std::process::Abort;
use std::test::Fail;

fn has_places(code: &Code, entry: u32, count: usize) -> bool {
    code.entry == Label(entry) && code.places.items().len() == count
}

fn goes_to(code: &Code, at: usize, label: u32) -> bool {
    let Some(place) = code.places.items().get(at) else {
        return false;
    };
    match &place.instr {
        VInstr::Op { next, .. } | VInstr::Print { next, .. } | VInstr::Nop { next } => {
            *next == Label(label)
        }
        _ => false,
    }
}

// The place has one frame, at that label.
fn stands_for(code: &Code, at: usize, label: u32) -> bool {
    let Some(place) = code.places.items().get(at) else {
        return false;
    };
    match place.point.frames.items() {
        [frame] => frame.label == Label(label),
        _ => false,
    }
}

// The base draft of the first function.
fn base_of<'p>(rt: &impl Abort, alloc: Global, checked: &'p Checked) -> Result<Draft<'p>, Fail> {
    assert!(rt; 0 < checked.program().functions.items().len());
    Ok(Draft::of_base(alloc, checked, FunId(0))?)
}

#[test]
fn a_base_body_keeps_its_labels(rt: HostRuntime) -> Result<(), Fail> {
    let checked = alone(increment(rt.alloc())?)?;
    let version = lower(base_of(&rt, rt.alloc(), &checked)?)?;
    let code = version.code();
    assert!(rt; has_places(code, 0, 3));
    assert!(rt; goes_to(code, 0, 1));
    assert!(rt; goes_to(code, 1, 2));
    assert!(rt; stands_for(code, 2, 2));
    Ok(())
}

#[test]
fn a_label_that_is_not_reached_goes(rt: HostRuntime) -> Result<(), Fail> {
    let checked = alone(jump(rt.alloc())?)?;
    let version = lower(base_of(&rt, rt.alloc(), &checked)?)?;
    assert!(rt; is_jump_to_return(version.code()));
    Ok(())
}

// The jump and the return of two labels.
fn is_jump_to_return(code: &Code) -> bool {
    has_places(code, 0, 2) && goes_to(code, 0, 1) && stands_for(code, 1, 2)
}

// A full row of Anchors before the first label of the draft, and one before the third.
fn anchored<'p>(draft: Draft<'p>) -> Result<Draft<'p>, Fail> {
    let mut before = Labels::new(draft.code().places.allocator());
    for _anchor in 0..8 {
        before.push(Label(0))?;
    }
    before.push(Label(2))?;
    let (draft, _skips) = insert_anchors(draft, &before)?;
    Ok(draft)
}

#[test]
fn edges_go_past_the_anchors_that_were_inserted(rt: HostRuntime) -> Result<(), Fail> {
    let checked = alone(jump(rt.alloc())?)?;
    let draft = anchored(base_of(&rt, rt.alloc(), &checked)?)?;
    assert!(rt; has_places(draft.code(), 3, 12));
    assert!(rt; is_jump_to_return(lower(draft)?.code()));
    Ok(())
}
