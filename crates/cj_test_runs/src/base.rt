//! Worked runs of small programs.

ghost use Rattle.std.specs.Prelude.{◌≡◌, true};
ghost use Rattle.cj_ir.specs.WellFormed.{Takes};

use cj_base::*;
use cj_ir::{
    Checked, Duplicate, Expr, FunId, Functions, Instr, Label, Operand, Program, Reg, ScriptCall,
    Text, Values, check,
};
use cj_samples::{N, R, alone, call, call_of_first, cond, function, increment, lines, op, print};
use std::alloc::Global;
use std::process::Abort;
use std::test::Fail;

fn can_move<T: Send>(_value: &T) {}

fn takes(program: &Program, function: FunId, count: usize) -> bool
    ensures { result ≡ true → Takes program.now.functions function count }
{
    match program.functions.items().get(function.0 as usize) {
        None => false,
        Some(callee) => callee.params as usize == count,
    }
}

fn run_call(rt: &impl Abort, checked: &Checked, call: &ScriptCall) -> Result<Outcome, Fail> {
    assert!(rt; takes(checked.program(), call.function, call.args.items().len()));
    Ok(run(call.args.allocator(), checked, call)?)
}

// The run of a function of those instructions, with an argument, so many cells and a limit.
fn run_main(
    rt: &impl Abort,
    alloc: Global,
    instrs: Vec<Instr>,
    argument: i64,
    cells: u32,
    limit: u32,
) -> Result<Outcome, Fail> {
    let checked = alone(function(alloc, "main", lines(alloc, instrs)?)?)?;
    run_call(rt, &checked, &call_of_first(alloc, argument, cells, limit)?)
}

#[test]
fn an_increment_takes_three_turns_and_stops_at_its_limit(rt: HostRuntime) -> Result<(), Fail> {
    let checked = alone(increment(rt.alloc())?)?;
    for (limit, end, turns) in [
        (3, End::Returned(5), 3),
        (9, End::Returned(5), 3),
        (2, End::TurnLimit, 2),
    ] {
        let outcome = run_call(&rt, &checked, &call_of_first(rt.alloc(), 4, 0, limit)?)?;
        assert_eq!(rt; outcome.printed.items(), [5].as_slice());
        assert_eq!(rt; outcome.end, end);
        assert_eq!(rt; outcome.turns, turns);
    }
    Ok(())
}

#[test]
fn the_greatest_value_plus_one_is_the_least(rt: HostRuntime) -> Result<(), Fail> {
    let checked = alone(increment(rt.alloc())?)?;
    let call = call_of_first(rt.alloc(), i64::MAX, 0, 3)?;
    assert!(rt; takes(checked.program(), call.function, call.args.items().len()));
    let mut config = Config::start(rt.alloc(), &checked, &call)?;
    let mut printed = Values::new(rt.alloc());
    assert_eq!(rt; config.turn(&checked, &mut printed)?, Turned::Running);
    assert_eq!(rt; config.top.regs.items(), [i64::MAX, i64::MIN].as_slice());
    assert_eq!(rt; config.turn(&checked, &mut printed)?, Turned::Running);
    assert_eq!(rt; printed.items(), [i64::MIN].as_slice());
    let end = Turned::Ended(End::Returned(i64::MIN));
    assert_eq!(rt; config.turn(&checked, &mut printed)?, end);
    Ok(())
}

#[test]
fn the_least_value_over_minus_one_wraps_and_zero_divides_nothing(
    rt: HostRuntime,
) -> Result<(), Fail> {
    let divisor = Operand::Const(-1);
    let instrs = vec![in rt.alloc();
        op(Expr::Div(N, divisor), 1),
        print(R, 2),
        op(Expr::Rem(N, divisor), 3),
        Instr::Return { value: R },
    ]?;
    let outcome = run_main(&rt, rt.alloc(), instrs, i64::MIN, 0, 9)?;
    assert_eq!(rt; outcome.printed.items(), [i64::MIN].as_slice());
    assert_eq!(rt; outcome.end, End::Returned(0));
    assert_eq!(rt; outcome.turns, 4);

    let instrs = vec![in rt.alloc();
        op(Expr::Rem(Operand::Const(7), N), 1),
        Instr::Return { value: R },
    ]?;
    let outcome = run_main(&rt, rt.alloc(), instrs, 0, 0, 9)?;
    can_move(&outcome);
    assert_eq!(rt; outcome.end, End::Divide);
    assert_eq!(rt; outcome.turns, 1);
    Ok(())
}

#[test]
fn addresses_end_at_the_size_of_the_memory(rt: HostRuntime) -> Result<(), Fail> {
    for (address, cells, end, turns) in [
        (63, 64, End::Returned(7), 3),
        (0, 64, End::Returned(7), 3),
        (64, 64, End::Address(64), 1),
        (-1, 64, End::Address(-1), 1),
        (0, 0, End::Address(0), 1),
    ] {
        let store = Instr::Store {
            address: N,
            value: Operand::Const(7),
            next: Label(1),
        };
        let load = Instr::Load {
            dest: Reg(1),
            address: N,
            next: Label(2),
        };
        let instrs = vec![in rt.alloc(); store, load, Instr::Return { value: R }]?;
        let outcome = run_main(&rt, rt.alloc(), instrs, address, cells, 9)?;
        assert_eq!(rt; outcome.end, end, "at {address} of {cells}");
        assert_eq!(rt; outcome.turns, turns, "at {address} of {cells}");
    }
    Ok(())
}

// Adds ten to what the second function gives, which fails where its parameter is not 0.
fn caller(rt: &impl Abort, alloc: Global) -> Result<Checked, Fail> {
    let main = vec![in alloc;
        call(alloc, 1, N, 1)?,
        op(Expr::Add(R, Operand::Const(10)), 2),
        Instr::Return { value: R },
    ]?;
    let text = Text::of(alloc, b"no zero")?.expect(rt, "a text");
    let callee = vec![in alloc;
        cond(N, 2, 1),
        Instr::Nop { next: Label(3) },
        Instr::Fail { text },
        Instr::Return { value: R },
    ]?;
    let mut functions = Functions::new(alloc);
    functions.push(function(alloc, "main", lines(alloc, main)?)?)?;
    functions.push(function(alloc, "callee", lines(alloc, callee)?)?)?;
    Ok(check(Program { functions })?)
}

#[test]
fn a_call_branches_and_returns_to_its_destination(rt: HostRuntime) -> Result<(), Fail> {
    let checked = caller(&rt, rt.alloc())?;
    for (argument, end, turns) in [
        (0, End::Returned(10), 6),
        (
            3,
            End::Failed {
                function: FunId(1),
                label: Label(2),
            },
            3,
        ),
    ] {
        let outcome = run_call(&rt, &checked, &call_of_first(rt.alloc(), argument, 0, 9)?)?;
        assert_eq!(rt; outcome.end, end);
        assert_eq!(rt; outcome.turns, turns);
    }
    Ok(())
}

#[test]
fn a_frame_is_copied_with_its_registers(rt: HostRuntime) -> Result<(), Fail> {
    let mut regs = Values::new(rt.alloc());
    regs.push(8)?;
    let frame = Frame {
        function: FunId(1),
        label: Label(2),
        regs,
    };
    let twin = frame.copy()?;
    can_move(&twin);
    assert_eq!(rt; twin.regs.items(), [8].as_slice());
    let waiting = Waiting {
        function: FunId(1),
        label: Label(2),
        regs: twin.regs,
        dest: Reg(0),
    };
    let twin = waiting.copy()?;
    can_move(&twin);
    assert_eq!(rt; twin.regs.items(), frame.regs.items());
    Ok(())
}
