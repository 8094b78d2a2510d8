//! An accumulator in its caller, and a countdown in itself.

ghost use Rattle.std.specs.Prelude.{◌≡◌, [], IfOk};

use cj_draft::{Code, Draft, Pair, Skipped, VInstr};
use cj_inline::{called_at, inline};
use cj_ir::{
    Checked, Expr, FunId, Functions, Instr, Label, Lines, NoMemory, Operand, Program, Reg, check,
};
use cj_samples::{N, R, call, cond, function, lines, name, op, print};
use std::alloc::Global;
use std::process::Abort;
use std::test::Fail;

fn reg(number: u32) -> Operand {
    Operand::Reg(Reg(number))
}

// main(n; r, s): call r = acc(n) -> 2 · print r -> 3 · return r
fn main_lines(alloc: Global) -> Result<Lines, NoMemory> {
    let instrs = vec![in alloc;
        call(alloc, 1, N, 1)?,
        print(R, 2),
        Instr::Return { value: R },
    ]?;
    lines(alloc, instrs)
}

// acc(n; r): op r = r + n -> 2 · return r
fn acc_lines(alloc: Global) -> Result<Lines, NoMemory> {
    let instrs = vec![in alloc; op(Expr::Add(R, N), 1), Instr::Return { value: R }]?;
    lines(alloc, instrs)
}

// down(n; r): cond n -> 2, 4 · op r = n - 1 -> 3 · call r = down(r) -> 4 · return r
fn down_lines(alloc: Global) -> Result<Lines, NoMemory> {
    let instrs = vec![in alloc;
        cond(N, 1, 3),
        op(Expr::Sub(N, Operand::Const(1)), 2),
        call(alloc, 2, R, 3)?,
        Instr::Return { value: R },
    ]?;
    lines(alloc, instrs)
}

fn program(alloc: Global) -> Result<Checked, Fail> {
    let mut functions = Functions::new(alloc);
    let mut main = function(alloc, "main", main_lines(alloc)?)?;
    main.regs.push(name(alloc, "s")?)?;
    functions.push(main)?;
    functions.push(function(alloc, "acc", acc_lines(alloc)?)?)?;
    functions.push(function(alloc, "down", down_lines(alloc)?)?)?;
    Ok(check(Program { functions })?)
}

fn has_counts(code: &Code, regs: u32, labels: usize) -> bool {
    code.entry == Label(0) && code.regs == regs && code.places.items().len() == labels
}

fn pair(dest: u32, value: Operand) -> Pair {
    Pair {
        dest: Reg(dest),
        value,
    }
}

fn moves(code: &Code, at: usize, set: &[Pair], to: u32) -> bool {
    let Some(place) = code.places.items().get(at) else {
        return false;
    };
    match &place.instr {
        VInstr::Move { pairs, next } => pairs.items() == set && *next == Label(to),
        _ => false,
    }
}

fn computes(code: &Code, at: usize, want: Expr) -> bool {
    match code.places.items().get(at) {
        Some(place) => matches!(&place.instr, VInstr::Op { expr, .. } if *expr == want),
        None => false,
    }
}

fn has_frames(code: &Code, at: usize, count: usize) -> bool {
    match code.places.items().get(at) {
        Some(place) => place.point.frames.items().len() == count,
        None => false,
    }
}

fn base<'p>(
    rt: &impl Abort,
    alloc: Global,
    checked: &'p Checked,
    number: u32,
) -> Result<Draft<'p>, Fail>
    ensures { IfOk result (λ draft. (draft.program ≡ checked.now) × (draft.context ≡ [])) }
{
    assert!(rt; (number as usize) < checked.program().functions.items().len());
    let draft = Draft::of_base(alloc, checked, FunId(number))?;
    Ok(draft)
}

// The callee in the caller's base body.
fn made<'p>(
    rt: &impl Abort,
    checked: &'p Checked,
    caller: u32,
    call: u32,
    callee: &Draft<'p>,
) -> Result<Draft<'p>, Fail>
    requires program { callee.now.program ≡ checked.now }
    requires context { callee.now.context ≡ [] }
    ensures { IfOk result (λ made. made.program ≡ checked.now) }
{
    let draft = base(rt, callee.code().places.allocator(), checked, caller)?;
    assert_eq!(rt; called_at(&draft, Label(call)), Ok(callee.code().function));
    let (made, skipped) = inline(draft, Label(call), callee)?;
    assert_eq!(rt; skipped, None);
    Ok(made)
}

fn is_no_call<'p>(
    rt: &impl Abort,
    draft: Draft<'p>,
    call: u32,
    callee: &Draft<'p>,
) -> Result<(), Fail>
    requires program { callee.now.program ≡ draft.program }
    requires context { callee.now.context ≡ [] }
{
    let label = Label(call);
    let (left, skipped) = inline(draft, label, callee)?;
    assert_eq!(rt; skipped, Some(Skipped::NotCall { label }));
    assert!(rt; has_counts(left.code(), 5, 5));
    Ok(())
}

fn has_accumulator(rt: &impl Abort, code: &Code) {
    assert!(rt; has_counts(code, 5, 5));
    let zero = Operand::Const(0);
    assert!(rt; moves(code, 0, &[pair(3, reg(0)), pair(4, zero)], 3));
    assert!(rt; moves(code, 4, &[pair(1, reg(4))], 1));
    assert!(rt; has_frames(code, 4, 2));
}

fn has_itself(rt: &impl Abort, code: &Code) {
    assert!(rt; has_counts(code, 4, 8));
    let zero = Operand::Const(0);
    assert!(rt; moves(code, 2, &[pair(2, reg(1)), pair(3, zero)], 4));
    assert!(rt; computes(code, 5, Expr::Sub(reg(2), Operand::Const(1))));
    assert!(rt; moves(code, 7, &[pair(1, reg(3))], 3));
}

#[test]
fn a_call_is_inlined_once(rt: HostRuntime) -> Result<(), Fail> {
    let checked = program(rt.alloc())?;
    let acc = base(&rt, rt.alloc(), &checked, 1)?;
    let made = made(&rt, &checked, 0, 0, &acc)?;
    has_accumulator(&rt, made.code());
    is_no_call(&rt, made, 0, &acc)
}

#[test]
fn a_function_is_inlined_into_itself(rt: HostRuntime) -> Result<(), Fail> {
    let checked = program(rt.alloc())?;
    let callee = base(&rt, rt.alloc(), &checked, 2)?;
    let made = made(&rt, &checked, 2, 2, &callee)?;
    has_itself(&rt, made.code());
    Ok(())
}
