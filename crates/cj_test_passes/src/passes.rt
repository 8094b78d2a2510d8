//! Versions of the increment.

mod lowered;

use cj_draft::{Pass, Passes, Skipped, Skips};
use cj_ir::{FunId, Guard, Label};
use cj_passes::pipeline;
use cj_samples::{alone, increment, list};
use std::alloc::Global;
use std::process::Abort;
use std::test::Fail;

// Anchors before a label, and an Assume at an Anchor.
fn passes(alloc: Global, label: u32, anchor: u32) -> Result<Passes, Fail> {
    let places = list(alloc, &[Label(label)])?;
    let guards = list(alloc, &[Guard::Never])?;
    let mut passes = Passes::new(alloc);
    passes.push(Pass::Anchors { places })?;
    passes.push(Pass::Assume {
        anchor: Label(anchor),
        guards,
    })?;
    Ok(passes)
}

// How many labels the version has that the passes make, and what was skipped.
fn made(rt: &impl Abort, alloc: Global, passes: &Passes) -> Result<(usize, Skips), Fail> {
    let checked = alone(increment(alloc)?)?;
    assert!(rt; 0 < checked.program().functions.items().len());
    let (version, skips) = pipeline(alloc, &checked, FunId(0), passes)?;
    Ok((version.code().places.items().len(), skips))
}

#[test]
fn what_is_skipped_has_the_number_of_its_pass(rt: HostRuntime) -> Result<(), Fail> {
    let (labels, skips) = made(&rt, rt.alloc(), &passes(rt.alloc(), 9, 3)?)?;
    assert_eq!(rt; labels, 3);
    let first = (0, Skipped::NoPlace { label: Label(9) });
    let second = (1, Skipped::NoPlace { label: Label(3) });
    assert!(rt; skips.items() == [first, second].as_slice());
    Ok(())
}

#[test]
fn passes_change_what_the_ones_before_made(rt: HostRuntime) -> Result<(), Fail> {
    let (labels, skips) = made(&rt, rt.alloc(), &passes(rt.alloc(), 0, 3)?)?;
    assert_eq!(rt; labels, 4);
    assert_eq!(rt; skips.items().len(), 0);
    Ok(())
}
