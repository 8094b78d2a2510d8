//! Both searches for the strongest facts, over bodies by hand and over made ones.

ghost use Rattle.std.specs.Prelude.{◌<◌};
ghost use Rattle.cj_ir.specs.Values.{IsOperandWithin, IsExprWithin};

mod behind;

use cj_draft::{Code, Draft, Fact, FactTable, Facts, VInstr};
use cj_ir::{
    Checked, Expr, FunId, Function, Functions, Instr, Label, Line, Lines, Name, Names, Operand,
    Program, Reg, check,
};
use cj_sparse::{fold, strongest};
use std::alloc::Global;
use std::process::Abort;
use std::test::Fail;

const N: Operand = Operand::Reg(Reg(0));

const R: Operand = Operand::Reg(Reg(1));

// Numbers that look random, and follow from the first one.
#[derive(Drop)]
struct Numbers {
    last: u64,
}

impl Numbers {
    fn below(&mut self, limit: u64) -> u64
        requires { 0 < limit }
        ensures { result < limit }
    {
        self.last = self
            .last
            .wrapping_mul(6_364_136_223_846_793_005)
            .wrapping_add(1_442_695_040_888_963_407);
        (self.last >> 33) % limit
    }

    fn reg(&mut self) -> Reg
        ensures { result.0 < 4 }
    {
        Reg(self.below(4) as u32)
    }

    fn label(&mut self) -> Label
        ensures { result.0 < 16 }
    {
        Label(self.below(LABELS) as u32)
    }

    fn constant(&mut self) -> Operand
        ensures { IsOperandWithin 4 result }
    {
        Operand::Const(self.below(3) as i64)
    }

    fn operand(&mut self) -> Operand
        ensures { IsOperandWithin 4 result }
    {
        if self.below(2) == 0 {
            return self.constant();
        }
        Operand::Reg(self.reg())
    }

    fn expr(&mut self) -> Expr
        ensures { IsExprWithin 4 result }
    {
        match self.below(6) {
            0 => Expr::Add(self.operand(), self.operand()),
            1 => Expr::Div(self.operand(), self.operand()),
            2 => Expr::Eq(self.operand(), self.operand()),
            3 => Expr::Copy(self.operand()),
            _ => Expr::Copy(self.constant()),
        }
    }

    fn test(&mut self) -> Instr {
        Instr::Cond {
            test: self.operand(),
            then_to: self.label(),
            else_to: self.label(),
        }
    }

    fn op(&mut self, next: Label) -> Instr {
        Instr::Op {
            dest: self.reg(),
            expr: self.expr(),
            next,
        }
    }

    // Mostly it goes on at the next label.
    fn instr(&mut self, next: Label) -> Instr {
        match self.below(10) {
            0 | 1 | 2 => self.test(),
            3 => Instr::Load {
                dest: self.reg(),
                address: self.operand(),
                next,
            },
            4 => Instr::Nop { next: self.label() },
            5 => Instr::Print {
                value: self.operand(),
                next,
            },
            _ => self.op(next),
        }
    }
}

const LABELS: u64 = 16;

fn named(rt: &impl Abort, alloc: Global, name: &str) -> Result<Name, Fail> {
    Ok(Name::of(alloc, name.as_bytes())?.expect(rt, "a name"))
}

fn function(rt: &impl Abort, alloc: Global, code: Lines) -> Result<Function, Fail> {
    let mut regs = Names::new(alloc);
    regs.push(named(rt, alloc, "n")?)?;
    regs.push(named(rt, alloc, "r")?)?;
    regs.push(named(rt, alloc, "s")?)?;
    regs.push(named(rt, alloc, "t")?)?;
    Ok(Function {
        name: named(rt, alloc, "main")?,
        params: 1,
        regs,
        code,
    })
}

fn program(rt: &impl Abort, alloc: Global, code: Lines) -> Result<Checked, Fail> {
    let mut functions = Functions::new(alloc);
    functions.push(function(rt, alloc, code)?)?;
    Ok(check(Program { functions }).expect(rt, "a well-formed program"))
}

// Whether the facts of a label are the same.
fn same(one: &Facts, other: &Facts) -> bool {
    match one {
        Facts::Unreached => matches!(other, Facts::Unreached),
        Facts::Known(facts) => match other {
            Facts::Unreached => false,
            Facts::Known(others) => facts.items() == others.items(),
        },
    }
}

fn are_same(one: &[Facts], other: &[Facts]) -> bool {
    if one.len() != other.len() {
        return false;
    }
    for (at, facts) in one.iter().enumerate() {
        if !same(facts, &other[at]) {
            return false;
        }
    }
    true
}

// The strongest facts of the one function. `None`: the two searches find different ones.
fn facts_of(rt: &impl Abort, alloc: Global, code: Lines) -> Result<Option<FactTable>, Fail> {
    let checked = program(rt, alloc, code)?;
    assert!(rt; 0 < checked.program().functions.items().len());
    let draft = Draft::of_base(alloc, &checked, FunId(0))?;
    let sparse = strongest(alloc, &draft)?;
    let dense = cj_const::strongest(alloc, &draft)?;
    if are_same(sparse.items(), dense.items()) {
        return Ok(Some(sparse));
    }
    Ok(None)
}

fn made(alloc: Global, seed: u64) -> Result<Lines, Fail> {
    let mut numbers = Numbers { last: seed };
    let mut code = Lines::new(alloc);
    for at in 1..LABELS {
        let instr = numbers.instr(Label(at as u32));
        code.push(Line {
            name: at as u32,
            instr,
        })?;
    }
    code.push(Line {
        name: LABELS as u32,
        instr: Instr::Return { value: R },
    })?;
    Ok(code)
}

// How many facts the table has.
fn count(table: &[Facts]) -> usize {
    let mut count = 0usize;
    for facts in table {
        if let Facts::Known(facts) = facts {
            count = count.saturating_add(facts.items().len());
        }
    }
    count
}

#[test]
fn both_searches_find_the_same_facts(rt: HostRuntime) -> Result<(), Fail> {
    let mut facts = 0usize;
    for seed in 0..300u64 {
        let table = facts_of(&rt, rt.alloc(), made(rt.alloc(), seed)?)?;
        let Some(table) = table else {
            return Err(Fail::new("the searches differ"));
        };
        facts = facts.saturating_add(count(table.items()));
    }
    assert!(rt; facts > 300);
    Ok(())
}

fn op(expr: Expr, next: u32) -> Instr {
    Instr::Op {
        dest: Reg(1),
        expr,
        next: Label(next),
    }
}

fn constant(value: i64, next: u32) -> Instr {
    op(Expr::Copy(Operand::Const(value)), next)
}

fn cond(test: Operand, then_to: u32, else_to: u32) -> Instr {
    Instr::Cond {
        test,
        then_to: Label(then_to),
        else_to: Label(else_to),
    }
}

// Three instructions, and then the return of r
fn lines(alloc: Global, first: Instr, one: Instr, other: Instr) -> Result<Lines, Fail> {
    let mut code = Lines::new(alloc);
    code.push(Line {
        name: 1,
        instr: first,
    })?;
    code.push(Line {
        name: 2,
        instr: one,
    })?;
    code.push(Line {
        name: 3,
        instr: other,
    })?;
    code.push(Line {
        name: 4,
        instr: Instr::Return { value: R },
    })?;
    Ok(code)
}

// Whether both searches know this alone of r at a label. `None`: no run comes to the label.
fn tell(rt: &impl Abort, code: Lines, at: usize, want: Option<&[i64]>) -> Result<bool, Fail> {
    let table = facts_of(rt, code.allocator(), code)?;
    let Some(table) = table else {
        return Ok(false);
    };
    Ok(match table.items().get(at) {
        Some(Facts::Known(facts)) => are_of_r(facts.items(), want),
        Some(Facts::Unreached) => want.is_none(),
        None => false,
    })
}

fn are_of_r(facts: &[Fact], want: Option<&[i64]>) -> bool {
    match want {
        None => false,
        Some([]) => facts.is_empty(),
        Some(&[value, ..]) => match facts {
            &[fact] => fact.reg == Reg(1) && fact.value == value,
            _ => false,
        },
    }
}

#[test]
fn facts_meet_where_edges_join(rt: HostRuntime) -> Result<(), Fail> {
    let alloc = rt.alloc();
    let equal = lines(alloc, cond(N, 1, 2), constant(1, 3), constant(1, 3))?;
    assert!(rt; tell(&rt, equal, 3, Some(&[1]))?);
    let different = lines(alloc, cond(N, 1, 2), constant(1, 3), constant(2, 3))?;
    assert!(rt; tell(&rt, different, 3, Some(&[]))?);
    let half = lines(
        alloc,
        cond(N, 1, 2),
        constant(1, 3),
        Instr::Nop { next: Label(3) },
    )?;
    assert!(rt; tell(&rt, half, 3, Some(&[]))?);
    Ok(())
}

#[test]
fn nothing_goes_along_dead_edges(rt: HostRuntime) -> Result<(), Fail> {
    let alloc = rt.alloc();
    let quotient = Expr::Div(Operand::Const(7), Operand::Const(0));
    let divides = lines(alloc, op(quotient, 1), constant(1, 2), constant(1, 3))?;
    assert!(rt; tell(&rt, divides, 1, None)?);
    let decided = lines(alloc, constant(0, 1), cond(R, 2, 3), constant(1, 3))?;
    assert!(rt; tell(&rt, decided, 3, Some(&[0]))?);
    Ok(())
}

// The fact of r is lost at the loop's head, then at the test that reads it, and a dead edge becomes alive.
#[test]
fn a_loss_reaches_the_labels_behind_it(rt: HostRuntime) -> Result<(), Fail> {
    let sum = Expr::Add(R, Operand::Const(1));
    let counts = lines(rt.alloc(), constant(1, 1), cond(R, 2, 3), op(sum, 1))?;
    assert!(rt; tell(&rt, counts, 3, Some(&[]))?);
    Ok(())
}

// What the folded body of the one function returns at its last label.
fn folded_return(rt: &impl Abort, code: Lines) -> Result<Option<Operand>, Fail> {
    let alloc = code.allocator();
    let checked = program(rt, alloc, code)?;
    assert!(rt; 0 < checked.program().functions.items().len());
    let draft = fold(Draft::of_base(alloc, &checked, FunId(0))?)?;
    let (_, _, code) = draft.into_parts();
    Ok(returned(&code))
}

fn returned(code: &Code) -> Option<Operand> {
    match code.places.items().get(3)?.instr {
        VInstr::Return { value } => Some(value),
        _ => None,
    }
}

#[test]
fn a_known_register_is_folded(rt: HostRuntime) -> Result<(), Fail> {
    let alloc = rt.alloc();
    let equal = lines(alloc, cond(N, 1, 2), constant(1, 3), constant(1, 3))?;
    assert!(rt; folded_return(&rt, equal)? == Some(Operand::Const(1)));
    let different = lines(alloc, cond(N, 1, 2), constant(1, 3), constant(2, 3))?;
    assert!(rt; folded_return(&rt, different)? == Some(R));
    Ok(())
}
