//! Plans of the increment, of a branch of which one edge is cold, and of a call.

ghost use Rattle.std.specs.Prelude.{◌≡◌, ◌<◌, length, IsTrue};
ghost use Rattle.cj_profile.specs.Snapshots.{FitsFunction};

use cj_draft::{Pass, Passes};
use cj_ir::{
    Checked, FunId, Functions, Guard, Instr, Labels, Lines, NoMemory, Program, Reg, check,
};
use cj_plan::plan;
use cj_profile::{EdgeNote, EdgeNotes, ParamNote, ParamNotes, Snapshot};
use cj_samples::{N, R, call, cond, function, increment, lines};
use std::alloc::Global;
use std::process::Abort;
use std::test::Fail;

const NO_EDGE: EdgeNote = EdgeNote {
    then_count: 0,
    else_count: 0,
};

// 1: cond n -> 2, 3   2: call r = main(n) -> 3   3: return r
fn branch_lines(alloc: Global) -> Result<Lines, NoMemory> {
    let instrs = vec![in alloc;
        cond(N, 1, 2),
        call(alloc, 0, N, 2)?,
        Instr::Return { value: R },
    ]?;
    lines(alloc, instrs)
}

fn program(alloc: Global) -> Result<Checked, Fail> {
    let mut functions = Functions::new(alloc);
    functions.push(increment(alloc)?)?;
    functions.push(function(alloc, "branch", branch_lines(alloc)?)?)?;
    Ok(check(Program { functions })?)
}

// One parameter and three labels, of which the first has that note.
fn snapshot(alloc: Global, param: ParamNote, edge: EdgeNote) -> Result<Snapshot, Fail> {
    let mut params = ParamNotes::new(alloc);
    params.push(param)?;
    let mut edges = EdgeNotes::new(alloc);
    edges.push(edge)?;
    edges.push(NO_EDGE)?;
    edges.push(NO_EDGE)?;
    Ok(Snapshot {
        calls: 8,
        fails: 0,
        params,
        edges,
    })
}

fn fits(checked: &Checked, f: FunId, snapshot: &Snapshot) -> bool
    requires { f.0 < length checked.now.functions }
    ensures { IsTrue result → FitsFunction checked.now f snapshot.now }
{
    let function = checked.function(f);
    snapshot.params.items().len() == function.params as usize
        && snapshot.edges.items().len() == function.code.items().len()
}

fn planned(
    rt: &impl Abort,
    alloc: Global,
    number: u32,
    level: u8,
    told: &Snapshot,
) -> Result<Passes, Fail> {
    let checked = program(alloc)?;
    let f = FunId(number);
    assert!(rt; (number as usize) < checked.program().functions.items().len());
    assert!(rt; fits(&checked, f, told));
    assert!(rt; 1 <= level && level <= 3);
    Ok(plan(alloc, &checked, f, level, told)?)
}

fn are_labels(labels: &Labels, numbers: &[u32]) -> bool {
    if labels.items().len() != numbers.len() {
        return false;
    }
    for index in 0..numbers.len() {
        if labels.items()[index].0 != numbers[index] {
            return false;
        }
    }
    true
}

fn is_anchors(pass: Option<&Pass>, numbers: &[u32]) -> bool {
    match pass {
        Some(Pass::Anchors { places }) => are_labels(places, numbers),
        _ => false,
    }
}

fn is_assume(pass: Option<&Pass>, at: u32, guard: Guard) -> bool {
    match pass {
        Some(Pass::Assume { anchor, guards }) => {
            anchor.0 == at && guards.items().len() == 1 && guards.items()[0] == guard
        }
        _ => false,
    }
}

fn is_delay(pass: Option<&Pass>, numbers: &[u32]) -> bool {
    match pass {
        Some(Pass::Delay { path, guards }) => {
            are_labels(path, numbers)
                && guards.items().len() == 1
                && guards.items()[0] == Guard::Never
        }
        _ => false,
    }
}

fn is_inline(pass: Option<&Pass>, at: u32) -> bool {
    match pass {
        Some(Pass::Inline { call }) => call.0 == at,
        _ => false,
    }
}

fn is_const(pass: Option<&Pass>) -> bool {
    match pass {
        Some(Pass::Const) => true,
        _ => false,
    }
}

#[test]
fn an_argument_that_agreed_is_guarded(rt: HostRuntime) -> Result<(), Fail> {
    let told = snapshot(rt.alloc(), ParamNote { last: 4, agreed: 8 }, NO_EDGE)?;
    let passes = planned(&rt, rt.alloc(), 0, 1, &told)?;
    let passes = passes.items();
    let guard = Guard::Is {
        reg: Reg(0),
        value: 4,
    };
    assert_eq!(rt; passes.len(), 3);
    assert!(rt; is_anchors(passes.get(0), &[0]));
    assert!(rt; is_assume(passes.get(1), 3, guard));
    assert!(rt; is_const(passes.get(2)));
    Ok(())
}

#[test]
fn a_cold_edge_is_delayed_and_a_short_call_inlined(rt: HostRuntime) -> Result<(), Fail> {
    let cold = EdgeNote {
        then_count: 8,
        else_count: 0,
    };
    let told = snapshot(rt.alloc(), ParamNote { last: 4, agreed: 3 }, cold)?;
    let passes = planned(&rt, rt.alloc(), 1, 2, &told)?;
    let passes = passes.items();
    assert_eq!(rt; passes.len(), 6);
    assert!(rt; is_anchors(passes.get(0), &[0]));
    assert!(rt; is_const(passes.get(1)));
    assert!(rt; is_anchors(passes.get(2), &[0]));
    assert!(rt; is_delay(passes.get(3), &[4, 0, 2]));
    assert!(rt; is_inline(passes.get(4), 1));
    assert!(rt; is_const(passes.get(5)));
    Ok(())
}
