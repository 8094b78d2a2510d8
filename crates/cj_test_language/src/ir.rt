//! Worked values, names and programs.

use cj_ir::*;
use std::alloc::Global;
use std::process::Abort;
use std::test::Fail;

const R: Operand = Operand::Reg(Reg(1));

fn is_shared<T: Send + Sync>(_value: &T) {}

fn name(rt: &impl Abort, alloc: Global, text: &str) -> Result<Name, NoMemory> {
    Ok(Name::of(alloc, text.as_bytes())?.expect(rt, "a name"))
}

// A program of one function with one parameter.
fn main_of<R: Abort>(
    rt: &R,
    alloc: Global,
    regs: &[&str],
    code: Lines,
) -> Result<Program, NoMemory> {
    let mut names = Names::new(alloc);
    for reg in regs {
        names.push(name(rt, alloc, reg)?)?;
    }
    let main = Function {
        name: name(rt, alloc, "main")?,
        params: 1,
        regs: names,
        code,
    };
    let mut functions = Functions::new(alloc);
    functions.push(main)?;
    Ok(Program { functions })
}

// A line, and behind it `2: print r -> 3` and `3: return r`.
fn code_of(alloc: Global, name: u32, instr: Instr) -> Result<Lines, NoMemory> {
    let mut code = Lines::new(alloc);
    code.push(Line { name, instr })?;
    code.push(Line {
        name: 2,
        instr: Instr::Print {
            value: R,
            next: Label(2),
        },
    })?;
    code.push(Line {
        name: 3,
        instr: Instr::Return { value: R },
    })?;
    Ok(code)
}

fn first_fault(program: Program) -> Option<(u32, u32, Fault)> {
    match check(program) {
        Ok(_) => None,
        Err(
            CheckError::BadProgram {
                function,
                label,
                kind,
            },
        ) => Some((function.0, label.0, kind)),
        Err(CheckError::NoMemory) => None,
    }
}

#[test]
fn keywords_and_long_words_are_no_names(rt: HostRuntime) -> Result<(), Fail> {
    for (word, is_name) in [
        ("abcdefghijklmnopqrstuvwxyz_12345", true),
        ("abcdefghijklmnopqrstuvwxyz_123456", false),
        ("_", true),
        ("9lives", false),
        ("", false),
        ("a-b", false),
        ("keep", false),
        ("keeps", true),
    ] {
        let name = Name::of(rt.alloc(), word.as_bytes())?;
        assert_eq!(rt; name.is_some(), is_name, "at {word}");
        if let Some(name) = name {
            assert_eq!(rt; name.bytes(), word.as_bytes());
        }
    }
    Ok(())
}

#[test]
fn texts_are_short_printable_and_without_quotes(rt: HostRuntime) -> Result<(), Fail> {
    for (bytes, is_text) in [
        (
            "0123456789012345678901234567890123456789012345678901234567890123",
            true,
        ),
        (
            "01234567890123456789012345678901234567890123456789012345678901234",
            false,
        ),
        ("", true),
        ("stop here ~", true),
        ("a \"word\"", false),
        ("a\nb", false),
    ] {
        let text = Text::of(rt.alloc(), bytes.as_bytes())?;
        assert_eq!(rt; text.is_some(), is_text, "at {bytes}");
        if let Some(text) = text {
            assert_eq!(rt; text.bytes(), bytes.as_bytes());
        }
    }
    Ok(())
}

fn quotient(a: i64, b: i64) -> Option<i64> {
    eval(&Expr::Div(Operand::Const(a), Operand::Const(b)), &[])
}

fn remainder(a: i64, b: i64) -> Option<i64> {
    eval(&Expr::Rem(Operand::Const(a), Operand::Const(b)), &[])
}

#[test]
fn division_truncates_and_wraps(rt: HostRuntime) {
    let least = i64::MIN;
    assert_eq!(rt; quotient(least, -1), Some(least));
    assert_eq!(rt; remainder(least, -1), Some(0));
    assert_eq!(rt; quotient(-7, 2), Some(-3));
    assert_eq!(rt; remainder(-7, 2), Some(-1));
    assert_eq!(rt; quotient(7, 0), None);
    assert_eq!(rt; remainder(7, 0), None);
}

#[test]
fn sums_wrap_and_order_is_signed(rt: HostRuntime) {
    let greatest = Operand::Const(i64::MAX);
    let five = Operand::Reg(Reg(0));
    let minus_one = Operand::Const(-1);
    assert_eq!(rt; eval(&Expr::Add(greatest, five), &[5]), Some(i64::MIN + 4));
    assert_eq!(rt; eval(&Expr::Lt(minus_one, five), &[5]), Some(1));
}

#[test]
fn a_program_is_checked_or_its_first_fault_is_told(rt: HostRuntime) -> Result<(), Fail> {
    let alloc = rt.alloc();
    let add = |dest: u32, next: u32| Instr::Op {
        dest: Reg(dest),
        expr: Expr::Add(Operand::Reg(Reg(0)), Operand::Const(1)),
        next: Label(next),
    };
    let call = |function: u32| Instr::Call {
        dest: Reg(1),
        function: FunId(function),
        args: Operands::new(alloc),
        next: Label(1),
    };
    for (regs, name, instr, fault) in [
        (["n", "r"], 1, add(1, 1), None),
        (["n", "r"], 1, add(1, 3), Some((0, 0, Fault::NoLabel))),
        (["n", "r"], 1, add(2, 3), Some((0, 0, Fault::NoRegister))),
        (["n", "n"], 1, add(1, 1), Some((0, 0, Fault::NameTwice))),
        (["n", "r"], 2, add(1, 1), Some((0, 1, Fault::LabelTwice))),
        (["n", "r"], 65536, add(1, 3), Some((0, 0, Fault::TooMany))),
        (["n", "r"], 1, call(1), Some((0, 0, Fault::NoFunction))),
        (["n", "r"], 1, call(0), Some((0, 0, Fault::Arguments))),
    ] {
        let code = code_of(alloc, name, instr)?;
        let program = main_of(&rt, alloc, &regs, code)?;
        assert_eq!(rt; first_fault(program), fault);
    }
    let program = main_of(&rt, alloc, &["n"], Lines::new(alloc))?;
    assert_eq!(rt; first_fault(program), Some((0, 0, Fault::NoEntry)));
    let functions = Functions::new(alloc);
    assert_eq!(rt;
        first_fault(Program { functions }),
        Some((0, 0, Fault::NoEntry))
    );
    Ok(())
}

#[test]
fn lists_grow_and_are_copied(rt: HostRuntime) -> Result<(), Fail> {
    let alloc = rt.alloc();
    let regs = [5, 6];
    let operands = [Operand::Reg(Reg(1)), Operand::Const(7)];
    let mut values = operand_values(alloc, &operands, &regs)?;
    values.push(8)?;
    let twin = values.copy()?;
    assert_eq!(rt; values.try_push(9), Ok(()));
    values.set(0, 4);
    *values.item_mut(1) += 10;
    assert_eq!(rt; values.items(), [4, 17, 8, 9].as_slice());
    assert_eq!(rt; values.pop(), Some(9));
    assert_eq!(rt; twin.items(), [6, 7, 8].as_slice());
    let call = ScriptCall {
        function: FunId(1),
        args: twin,
        cells: 64,
        limit: 100,
    };
    assert_eq!(rt; call.copy()?.args.items(), [6, 7, 8].as_slice());
    Ok(())
}

#[test]
fn inputs_may_be_shared_by_threads(rt: HostRuntime) -> Result<(), Fail> {
    let alloc = rt.alloc();
    let call = Instr::Nop { next: Label(1) };
    let program = main_of(&rt, alloc, &["n", "r"], code_of(alloc, 1, call)?)?;
    let checked = check(program)?;
    is_shared(&checked);
    let input = Input {
        checked,
        script: Script {
            setups: Setups::new(alloc),
            calls: ScriptCalls::new(alloc),
        },
    };
    is_shared(&input);
    assert_eq!(rt; input.checked.program().functions.items().len(), 1);
    Ok(())
}
