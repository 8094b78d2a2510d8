//! Reports go from thread to thread, and a block stands alone as among others.

use cj_base::End;
use cj_calls::*;
use cj_ir::{
    Checked, Duplicate, FunId, Function, Functions, Instr, Line, Lines, Name, Names, Operand,
    Program, Values, check,
};
use std::alloc::Global;
use std::process::Abort;
use std::test::Fail;

fn is_sent<T: Send>(_value: &T) {}

fn named(rt: &impl Abort, alloc: Global, name: &str) -> Result<Name, Fail> {
    Ok(Name::of(alloc, name.as_bytes())?.expect(rt, "a name"))
}

// fun main() { 1: return 0 }
fn shortest(rt: &impl Abort, alloc: Global) -> Result<Checked, Fail> {
    let mut code = Lines::new(alloc);
    let value = Operand::Const(0);
    code.push(Line {
        name: 1,
        instr: Instr::Return { value },
    })?;
    let mut functions = Functions::new(alloc);
    functions.push(Function {
        name: named(rt, alloc, "main")?,
        params: 0,
        regs: Names::new(alloc),
        code,
    })?;
    Ok(check(Program { functions })?)
}

// Its report, with a print.
fn report(alloc: Global) -> Result<Report, Fail> {
    let mut printed = Values::new(alloc);
    printed.push(-7)?;
    let mut looks = Looks::new(alloc);
    looks.push(Look {
        function: FunId(0),
        offset: 2,
    })?;
    Ok(Report {
        printed,
        end: End::Returned(5),
        turns: 4,
        base_turns: 3,
        fails: 1,
        notes: Notes::new(alloc),
        looks: looks.copy()?,
    })
}

#[test]
fn a_block_alone_is_that_of_the_text(rt: HostRuntime) -> Result<(), Fail> {
    let alloc = rt.alloc();
    let checked = shortest(&rt, alloc)?;
    let mut reports = Reports::new(alloc);
    reports.push(report(alloc)?)?;
    is_sent(&reports);
    let first = reports.items().first().expect(&rt, "a report");
    let block = block_of(alloc, &checked, 1, first, true)?;
    assert_eq!(rt;
        block.as_slice(),
        b"call 1\n-7\nreturn 5\nturns 4 base 3 fails 1\n".as_slice()
    );
    let text = text_of(alloc, &checked, &reports, true)?;
    assert_eq!(rt; text.as_slice(), block.as_slice());
    Ok(())
}
