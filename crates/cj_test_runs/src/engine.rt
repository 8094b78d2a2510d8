//! What the tests of runs share.

ghost use Rattle.std.specs.Prelude.{◌≡◌, ◌≤◌, true};
ghost use Rattle.cj_ir.specs.WellFormed.{Takes};

mod turns;
mod versions;

use cj_ir::{FunId, Instr, Line, Lines, Name, Program, ScriptCall, Values};
use std::alloc::Global;
use std::process::Abort;
use std::test::Fail;

const MAIN: FunId = FunId(0);

fn named(rt: &impl Abort, alloc: Global, name: &str) -> Result<Name, Fail> {
    Ok(Name::of(alloc, name.as_bytes())?.expect(rt, "a name"))
}

fn add_line(code: &mut Lines, name: u32, instr: Instr) -> Result<(), Fail> {
    Ok(code.push(Line { name, instr })?)
}

// A call of main, which has one parameter.
fn call_of(alloc: Global, argument: i64, limit: u32) -> Result<ScriptCall, Fail> {
    let mut args = Values::new(alloc);
    args.push(argument)?;
    Ok(ScriptCall {
        function: MAIN,
        args,
        cells: 0,
        limit,
    })
}

fn takes(program: &Program, function: FunId, count: usize) -> bool
    ensures { result ≡ true → Takes program.now.functions function count }
{
    match program.functions.items().get(function.0 as usize) {
        None => false,
        Some(callee) => callee.params as usize == count,
    }
}

fn is_limit(limit: u32) -> bool
    ensures { result ≡ true → (1 ≤ limit) × (limit ≤ 1000000) }
{
    1 <= limit && limit <= 1_000_000
}
