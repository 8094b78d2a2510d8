//! Paths from an Anchor before the entry, in two base bodies with a branch.

use crate::assume::anchored;
use cj_delay::delayed;
use cj_draft::{Code, Draft, Skipped, VInstr};
use cj_ir::{Guard, Instr, Label, Lines, NoMemory, Operand};
use cj_samples::{N, alone, cond, function, lines, list, print};
use std::alloc::Global;
use std::process::Abort;
use std::test::Fail;

// Prints 1 where the parameter is not 0, and else 2.
fn cold_branch(alloc: Global) -> Result<Lines, NoMemory> {
    let instrs = vec![in alloc;
        cond(N, 1, 2),
        print(Operand::Const(1), 3),
        print(Operand::Const(2), 3),
        Instr::Return { value: N },
    ]?;
    lines(alloc, instrs)
}

// Prints 1 where the parameter is not 0.
fn joined_path(alloc: Global) -> Result<Lines, NoMemory> {
    let instrs = vec![in alloc;
        cond(N, 1, 2),
        print(Operand::Const(1), 2),
        Instr::Return { value: N },
    ]?;
    lines(alloc, instrs)
}

// The draft after the pass with a guard that never holds, which is skipped for this reason.
fn after_path<'p>(
    rt: &impl Abort,
    draft: Draft<'p>,
    path: &[Label],
    reason: Option<Skipped>,
) -> Result<Draft<'p>, Fail> {
    let alloc = draft.code().places.allocator();
    let path = list(alloc, path)?;
    let guards = list(alloc, &[Guard::Never])?;
    let (draft, skipped) = delayed(draft, &path, &guards)?;
    assert_eq!(rt; skipped, reason);
    Ok(draft)
}

// The Assume at label 5 takes one turn back, and the branch has the pair of no turns and goes there.
fn takes_one_turn_back(code: &Code) -> bool {
    let [branch, _, _, _, _, assume] = code.places.items() else {
        return false;
    };
    is_assume_to(&assume.instr, Label(2))
        && is_else_to(&branch.instr, Label(5))
        && branch.backs.items().len() == 1
}

fn is_assume_to(instr: &VInstr, label: Label) -> bool {
    matches!(instr, VInstr::Assume { back, next, .. } if *back == 1 && *next == label)
}

fn is_else_to(instr: &VInstr, label: Label) -> bool {
    matches!(instr, VInstr::Cond { else_to, .. } if *else_to == label)
}

#[test]
fn assume_on_a_cold_branch(rt: HostRuntime) -> Result<(), Fail> {
    let checked = alone(function(rt.alloc(), "main", cold_branch(rt.alloc())?)?)?;
    let draft = anchored(&rt, &checked, &list(rt.alloc(), &[Label(0)])?)?;
    let printing = Skipped::NotSilent { label: Label(1) };
    let path = [Label(4), Label(0), Label(1), Label(3)];
    let draft = after_path(&rt, draft, &path, Some(printing))?;
    assert_eq!(&rt; draft.code().places.items().len(), 5);
    let draft = after_path(&rt, draft, &[Label(4), Label(0), Label(2)], None)?;
    assert!(&rt; takes_one_turn_back(draft.code()));
    Ok(())
}

#[test]
fn no_assume_where_paths_join(rt: HostRuntime) -> Result<(), Fail> {
    let checked = alone(function(rt.alloc(), "main", joined_path(rt.alloc())?)?)?;
    let draft = anchored(&rt, &checked, &list(rt.alloc(), &[Label(0)])?)?;
    let joined = Skipped::Joined {
        label: Label(2),
        count: 2,
    };
    let path = [Label(3), Label(0), Label(2)];
    let draft = after_path(&rt, draft, &path, Some(joined))?;
    assert_eq!(&rt; draft.code().places.items().len(), 4);
    Ok(())
}
