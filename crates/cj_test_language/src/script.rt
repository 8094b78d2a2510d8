//! Scripts behind a program of two functions.

use cj_ir::{
    Checked, Edge, FunId, Function, Functions, Instr, Label, Line, Lines, Operand, Program, Reg,
    Setup, check,
};
use cj_samples::{N, R, cond, constant_zero, name, names};
use cj_script::{read_begun, read_script};
use cj_tokens::{Kind, ParseError, Refused, Terminal, Tokens};
use std::alloc::Global;
use std::test::Fail;

fn line(name: u32, instr: Instr) -> Line {
    Line { name, instr }
}

// fun main(n, m; r) { 1: cond n -> 2, 7  2: return m  7: return r }  fun leaf() { 1: return 0 }
fn program(alloc: Global) -> Result<Checked, Fail> {
    let mut code = Lines::new(alloc);
    code.push(line(1, cond(N, 1, 2)))?;
    code.push(line(2, Instr::Return { value: R }))?;
    let value = Operand::Reg(Reg(2));
    code.push(line(7, Instr::Return { value }))?;
    let mut functions = Functions::new(alloc);
    functions.push(Function {
        name: name(alloc, "main")?,
        params: 2,
        regs: names(alloc, &["n", "m", "r"])?,
        code,
    })?;
    functions.push(constant_zero(alloc, "leaf")?)?;
    Ok(check(Program { functions })?)
}

fn refused(line: u32, kind: Kind) -> Result<(), ParseError> {
    Err(ParseError::Refused(Refused { line, kind }))
}

fn outcome(alloc: Global, checked: &Checked, text: &[u8]) -> Result<(), ParseError> {
    let mut tokens = Tokens::of(text);
    let _script = read_script(alloc, &mut tokens, checked)?;
    Ok(())
}

#[test]
fn limits_and_one_past_them(rt: HostRuntime) -> Result<(), Fail> {
    let alloc = rt.alloc();
    let checked = program(alloc)?;
    let million =
        "calls\ncall leaf limit 1000000\ncall leaf limit 1000000\ncall leaf limit 1000000\n";
    let rows = [
        ("", "calls", Ok(())),
        (million, "call leaf limit 1000000", Ok(())),
        (
            million,
            "call leaf limit 999999\ncall leaf\nlimit\n2",
            refused(8, Kind::TooMany),
        ),
        ("", "calls call leaf limit 1", Ok(())),
        ("calls\n", "call leaf limit 0", refused(2, Kind::Range)),
        (
            "calls\n",
            "call leaf limit 1000001",
            refused(2, Kind::Range),
        ),
        (
            "calls\n",
            "call leaf limit 4000001",
            refused(2, Kind::TooMany),
        ),
        (
            "calls call leaf limit 1\n",
            "call leaf limit 9223372036854775807",
            refused(2, Kind::TooMany),
        ),
        (
            "calls\n",
            "call leaf limit -9223372036854775808",
            refused(2, Kind::Range),
        ),
        ("calls ", "call leaf memory 0 limit 1", Ok(())),
        ("calls ", "call leaf memory 65536 limit 1", Ok(())),
        (
            "calls call leaf\n",
            "memory 65537 limit 0",
            refused(2, Kind::Range),
        ),
        (
            "calls call leaf\n",
            "memory -1\nlimit 1",
            refused(2, Kind::Range),
        ),
        ("calls ", "warm main 1 warm main 3", Ok(())),
        ("calls\n", "warm main\n4", refused(3, Kind::Range)),
        ("calls\n", "warm main 0", refused(2, Kind::Range)),
    ];
    for (before, text, wanted) in rows {
        let text = format!(in alloc; "{before}{text}")?;
        assert_eq!(rt;
            outcome(alloc, &checked, text.as_bytes()),
            wanted,
            "of {text:?}"
        );
    }
    Ok(())
}

#[test]
fn names_that_stand_for_nothing(rt: HostRuntime) -> Result<(), Fail> {
    let alloc = rt.alloc();
    let checked = program(alloc)?;
    let rows = [
        ("guess main m 1 cold main 1 then", Ok(())),
        ("cold\nmain\n2 then", refused(3, Kind::NotCond)),
        ("cold main\n3 then", refused(2, Kind::NoLabel)),
        ("cold nobody\n3 then", refused(1, Kind::NoFunction)),
        ("guess main\nr 1", refused(2, Kind::NoRegister)),
        ("guess nobody\nr 1", refused(1, Kind::NoFunction)),
        (
            "guess main\na23456789012345678901234567890123 1",
            refused(2, Kind::TooMany),
        ),
        (
            "warm\na2345678901234567890123456789012 1",
            refused(2, Kind::NoFunction),
        ),
        (
            "warm\na23456789012345678901234567890123 9",
            refused(2, Kind::TooMany),
        ),
        ("call main 1 2 limit 9", Ok(())),
        (
            "call\nmain 1\nmemory -1 limit 0",
            refused(2, Kind::Arguments),
        ),
        ("call main 1 2 3 limit 9", refused(1, Kind::Arguments)),
        ("call nobody 1 limit 9", refused(1, Kind::NoFunction)),
    ];
    for (text, wanted) in rows {
        let text = format!(in alloc; "calls {text}")?;
        assert_eq!(rt;
            outcome(alloc, &checked, text.as_bytes()),
            wanted,
            "of {text:?}"
        );
    }
    Ok(())
}

#[test]
fn calls_by_the_hundred(rt: HostRuntime) -> Result<(), Fail> {
    let alloc = rt.alloc();
    let checked = program(alloc)?;
    let mut text = b"calls".to_vec(alloc)?;
    for _ in 0..256 {
        text.extend_from_slice(b"\ncall leaf limit 1")?;
    }
    assert_eq!(rt; outcome(alloc, &checked, text.as_slice()), Ok(()));
    text.extend_from_slice(b"\ncall leaf limit 1")?;
    assert_eq!(rt;
        outcome(alloc, &checked, text.as_slice()),
        refused(258, Kind::TooMany)
    );
    Ok(())
}

#[test]
fn what_a_script_means(rt: HostRuntime) -> Result<(), Fail> {
    let alloc = rt.alloc();
    let checked = program(alloc)?;
    let mut tokens = Tokens::of(
        b"calls guess main m -5 cold main 1 else warm leaf 2 call main 7 -8 memory 3 limit 9 call leaf limit 10",
    );
    let script = read_script(alloc, &mut tokens, &checked)?;
    assert_eq!(rt; tokens.peek(), Terminal::End);
    let setups = [
        Setup::Guess {
            function: FunId(0),
            param: 1,
            value: -5,
        },
        Setup::Cold {
            function: FunId(0),
            label: Label(0),
            edge: Edge::Else,
        },
        Setup::Warm {
            function: FunId(1),
            level: 2,
        },
    ];
    assert_eq!(rt; script.setups.items(), setups.as_slice());
    let calls = script.calls.items();
    assert_eq!(rt; calls.len(), 2);
    assert_eq!(rt; calls[0].function, FunId(0));
    assert_eq!(rt; calls[0].args.items(), [7, -8].as_slice());
    assert_eq!(rt; (calls[0].cells, calls[0].limit), (3, 9));
    assert_eq!(rt; calls[1].function, FunId(1));
    assert_eq!(rt; (calls[1].cells, calls[1].limit), (64, 10));
    Ok(())
}

#[test]
fn what_begins_a_run(rt: HostRuntime) -> Result<(), Fail> {
    let alloc = rt.alloc();
    let checked = program(alloc)?;
    let functions = checked.program().functions.items();
    let mut tokens = Tokens::of(b"main 7 -8 limit 9");
    let call = read_begun(alloc, &mut tokens, functions, 0)?;
    assert_eq!(rt; call.args.items(), [7, -8].as_slice());
    assert_eq!(rt; tokens.peek(), Terminal::End);
    Ok(())
}
