//! Constant facts of base bodies, and the bodies folded over them.

mod by_hand;

use cj_const::{fold, strongest};
use cj_draft::{Code, Draft, Fact, FactTable, Facts, VInstr};
use cj_ir::{
    Checked, Expr, FunId, Functions, Instr, Label, Lines, NoMemory, Operand, Program, Reg, check,
};
use cj_samples::{N, R, cond, function, lines, op};
use std::alloc::Global;
use std::process::Abort;
use std::test::Fail;

fn constant(value: i64, next: u32) -> Instr {
    op(Expr::Copy(Operand::Const(value)), next)
}

// One instruction or another, and then the return of r
fn merge(alloc: Global, one: Instr, other: Instr) -> Result<Lines, NoMemory> {
    let instrs = vec![in alloc; cond(N, 1, 2), one, other, Instr::Return { value: R }]?;
    lines(alloc, instrs)
}

fn zero_divisor(alloc: Global) -> Result<Lines, NoMemory> {
    let quotient = Expr::Div(Operand::Const(7), Operand::Const(0));
    let instrs = vec![in alloc; op(quotient, 1), Instr::Return { value: R }]?;
    lines(alloc, instrs)
}

// r = 0, and a branch on it
fn decided(alloc: Global) -> Result<Lines, NoMemory> {
    let instrs = vec![in alloc;
        constant(0, 1),
        cond(R, 2, 3),
        Instr::Return { value: N },
        Instr::Return { value: R },
    ]?;
    lines(alloc, instrs)
}

fn program(alloc: Global) -> Result<Checked, Fail> {
    let mut functions = Functions::new(alloc);
    let equal = merge(alloc, constant(1, 3), constant(1, 3))?;
    functions.push(function(alloc, "equal", equal)?)?;
    let different = merge(alloc, constant(1, 3), constant(2, 3))?;
    functions.push(function(alloc, "different", different)?)?;
    functions.push(function(alloc, "zero_divisor", zero_divisor(alloc)?)?)?;
    functions.push(function(alloc, "decided", decided(alloc)?)?)?;
    let next = Label(3);
    let half = merge(alloc, constant(1, 3), Instr::Nop { next })?;
    functions.push(function(alloc, "half", half)?)?;
    Ok(check(Program { functions })?)
}

// The strongest facts of a base body, and the body folded over them.
#[derive(Drop)]
struct Folded {
    facts: FactTable,
    code: Code,
}

fn fold_in(rt: &impl Abort, alloc: Global, checked: &Checked, f: u32) -> Result<Folded, Fail> {
    assert!(rt; (f as usize) < checked.program().functions.items().len());
    let draft = Draft::of_base(alloc, checked, FunId(f))?;
    let facts = strongest(alloc, &draft)?;
    let code = code_of(fold(draft)?);
    Ok(Folded { facts, code })
}

fn code_of(draft: Draft<'_>) -> Code {
    let (_, _, code) = draft.into_parts();
    code
}

fn fold_of(rt: &impl Abort, alloc: Global, f: u32) -> Result<Folded, Fail> {
    fold_in(rt, alloc, &program(alloc)?, f)
}

fn has_facts(table: &FactTable, at: usize, want: &[Fact]) -> bool {
    match table.items().get(at) {
        Some(Facts::Known(facts)) => facts.items() == want,
        _ => false,
    }
}

fn is_unreached(table: &FactTable, at: usize) -> bool {
    matches!(table.items().get(at), Some(Facts::Unreached))
}

fn instr_at(code: &Code, at: usize) -> Option<&VInstr> {
    let place = code.places.items().get(at)?;
    Some(&place.instr)
}

fn returns(code: &Code, at: usize, want: Operand) -> bool {
    matches!(instr_at(code, at), Some(VInstr::Return { value }) if *value == want)
}

fn computes(code: &Code, at: usize, want: Expr) -> bool {
    matches!(instr_at(code, at), Some(VInstr::Op { expr, .. }) if *expr == want)
}

fn tests(code: &Code, at: usize, want: Operand) -> bool {
    matches!(instr_at(code, at), Some(VInstr::Cond { test, .. }) if *test == want)
}

fn jumps(code: &Code, at: usize, want: u32) -> bool {
    matches!(instr_at(code, at), Some(VInstr::Nop { next }) if *next == Label(want))
}

fn fact(value: i64) -> Fact {
    Fact { reg: Reg(1), value }
}

#[test]
fn equal_constants_meet(rt: HostRuntime) -> Result<(), Fail> {
    let folded = fold_of(&rt, rt.alloc(), 0)?;
    assert!(rt; has_facts(&folded.facts, 0, &[]));
    assert!(rt; has_facts(&folded.facts, 1, &[]));
    assert!(rt; has_facts(&folded.facts, 2, &[]));
    assert!(rt; has_facts(&folded.facts, 3, &[fact(1)]));
    assert!(rt; returns(&folded.code, 3, Operand::Const(1)));
    Ok(())
}

#[test]
fn different_constants_do_not(rt: HostRuntime) -> Result<(), Fail> {
    let folded = fold_of(&rt, rt.alloc(), 1)?;
    assert!(rt; has_facts(&folded.facts, 3, &[]));
    assert!(rt; tests(&folded.code, 0, N));
    assert!(rt; computes(&folded.code, 1, Expr::Copy(Operand::Const(1))));
    assert!(rt; computes(&folded.code, 2, Expr::Copy(Operand::Const(2))));
    assert!(rt; returns(&folded.code, 3, R));
    Ok(())
}

#[test]
fn what_one_edge_alone_tells_is_not_known(rt: HostRuntime) -> Result<(), Fail> {
    let folded = fold_of(&rt, rt.alloc(), 4)?;
    assert!(rt; has_facts(&folded.facts, 3, &[]));
    assert!(rt; returns(&folded.code, 3, R));
    Ok(())
}

#[test]
fn a_zero_divisor_is_not_folded(rt: HostRuntime) -> Result<(), Fail> {
    let folded = fold_of(&rt, rt.alloc(), 2)?;
    assert!(rt; is_unreached(&folded.facts, 1));
    let quotient = Expr::Div(Operand::Const(7), Operand::Const(0));
    assert!(rt; computes(&folded.code, 0, quotient));
    assert!(rt; returns(&folded.code, 1, R));
    Ok(())
}

#[test]
fn a_decided_branch_is_a_jump(rt: HostRuntime) -> Result<(), Fail> {
    let folded = fold_of(&rt, rt.alloc(), 3)?;
    assert!(rt; is_unreached(&folded.facts, 2));
    assert!(rt; has_facts(&folded.facts, 3, &[fact(0)]));
    assert!(rt; jumps(&folded.code, 1, 3));
    assert!(rt; returns(&folded.code, 3, Operand::Const(0)));
    Ok(())
}
