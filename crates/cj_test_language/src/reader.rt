//! Programs, and texts with one offence of the second class or several, by hand.

use cj_grammar::Shape;
use cj_ir::{Checked, FunId, Function, Instr, Label, Operand, Reg};
use cj_reader::read_program;
use cj_tokens::{Kind, ParseError, Refused, Terminal, Tokens};
use std::alloc::Global;
use std::process::Abort;
use std::test::Fail;

// A text, and the line and the kind of the offence for which it is refused.
type Case = (&'static str, Option<(u32, Kind)>);

const LONG_NAMES_AND_MANY_REGISTERS: &[Case] = &[
    ("fun f() { 1: return 0 }", None),
    (
        "fun a2345678901234567890123456789012() { 1: return 0 }",
        None,
    ),
    (
        "fun\na23456789012345678901234567890123() { 1: return x }",
        Some((2, Kind::TooMany)),
    ),
    (
        "fun f() {\n1: return a23456789012345678901234567890123\n}",
        Some((2, Kind::TooMany)),
    ),
    (
        "fun f(; r) {\n1: call r =\na23456789012345678901234567890123() -> 1 }",
        Some((3, Kind::TooMany)),
    ),
    ("fun f(a, b, c, d, e, g, h, i; a1) { 1: return i }", None),
    (
        "fun f(a, b, c, d, e, g, h, i,\nj; a) { 1: return 0 }",
        Some((2, Kind::TooMany)),
    ),
    (
        "fun f(; a, b, c, d, e, f, g, h, i, j, k, l, m, n, o, p, q, r, s, t, u, v, w, x, y, z, A, B, C, D, E, F) { 1: return F }",
        None,
    ),
    (
        "fun f(F; a, b, c, d, e, f, g, h, i, j, k, l, m, n, o, p, q, r, s, t, u, v, w, x, y, z, A, B, C, D, E,\nF) { 1: return F }",
        Some((2, Kind::TooMany)),
    ),
];

const NAMES_REGISTERS_AND_TEXTS: &[Case] = &[
    (
        "fun f(a; b,\na) { 1: return 0 }",
        Some((2, Kind::NameTwice)),
    ),
    (
        "fun f() { 1: return 0 }\nfun g() { 1: return 0 }\nfun f() { }",
        Some((3, Kind::NameTwice)),
    ),
    ("fun f(f) { 1: return f }", None),
    ("fun f() {\n}", Some((2, Kind::NoEntry))),
    (
        "fun f() {\n1: op x = y -> 1\n}",
        Some((2, Kind::NoRegister)),
    ),
    (
        "fun f(x) {\n1: op x = x +\ny -> 9\n}",
        Some((3, Kind::NoRegister)),
    ),
    (
        "fun f() { 1: fail \"0123456789012345678901234567890123456789012345678901234567890123\" }",
        None,
    ),
    (
        "fun f() { 1: fail\n\"01234567890123456789012345678901234567890123456789012345678901234\" }",
        Some((2, Kind::TooMany)),
    ),
];

const LABELS_AND_CALLS: &[Case] = &[
    ("fun f() { 65535: nop -> 0 0: nop -> 65535 }", None),
    ("fun f() {\n65536: nop -> 0 }", Some((2, Kind::Range))),
    ("fun f() {\n-1: nop -> 0 }", Some((2, Kind::Range))),
    ("fun f() { 1: nop ->\n65536 }", Some((2, Kind::Range))),
    ("fun f() { 1: cond 1 -> 1,\n-1 }", Some((2, Kind::Range))),
    ("fun f() { 1: cond 1 -> 1,\n3 }", Some((2, Kind::NoLabel))),
    ("fun f() { 1: nop ->\n2 }", Some((2, Kind::NoLabel))),
    (
        "fun f() { 1: nop -> 2\n1: nop -> 3 2: nop -> 9 }",
        Some((2, Kind::LabelTwice)),
    ),
    (
        "fun f() { 1: nop -> 2\n2: nop -> 3 2: nop -> 9 }",
        Some((2, Kind::NoLabel)),
    ),
    (
        "fun f(; r) { 1: call r = g(1, r) -> 1 }\nfun g(a, b) { 1: return a }",
        None,
    ),
    (
        "fun f(; r) {\n1: call r = g(1) -> 1 }\nfun g(a, b) { 1: return a }",
        Some((2, Kind::Arguments)),
    ),
    (
        "fun f(; r) {\n1: call r = g() -> 7 }\nfun g() { 1: return 0 }\nfun g(a) { 1: return 0 }",
        Some((2, Kind::NoLabel)),
    ),
    (
        "fun f(; r) { 1: call r =\nh(x) -> 1 }",
        Some((2, Kind::NoFunction)),
    ),
    (
        "fun f(; r) { 1: call\ns = h(x) -> 1 }",
        Some((2, Kind::NoRegister)),
    ),
    (
        "fun f(; r) { 1: call r = f() ->\n70000 }",
        Some((2, Kind::Range)),
    ),
    (
        "fun f(; r) {\n1: load r = [s] -> 1 }",
        Some((2, Kind::NoRegister)),
    ),
    (
        "fun f(; r) { 1: store [r] =\ns -> 1 }",
        Some((2, Kind::NoRegister)),
    ),
    ("fun f() { 1: print\ns -> 9 }", Some((2, Kind::NoRegister))),
];

const CALLER: &str =
    "fun main(n; r) {\n5: call r = g(n) -> 7\n7: return r\n}\nfun g(a) { 1: return a }\ncalls";

fn outcome(alloc: Global, text: &str) -> Result<(), ParseError> {
    let mut tokens = Tokens::of(text.as_bytes());
    let mut ahead = tokens;
    if let Err(refused) = ahead.shape() {
        return Err(ParseError::Refused(refused));
    }
    let _checked = read_program(alloc, &mut tokens)?;
    Ok(())
}

// The text is read, or refused for that offence.
fn is_judged(alloc: Global, text: &str, wanted: Option<(u32, Kind)>) -> bool {
    match outcome(alloc, text) {
        Ok(()) => wanted.is_none(),
        Err(ParseError::Refused(Refused { line, kind })) => wanted == Some((line, kind)),
        Err(ParseError::NoMemory) => false,
    }
}

fn judge(rt: &impl Abort, alloc: Global, cases: &[Case]) {
    for (text, wanted) in cases {
        assert!(rt; is_judged(alloc, text, *wanted), "of {text:?}");
    }
}

#[test]
fn long_names_and_many_registers(rt: HostRuntime) {
    judge(&rt, rt.alloc(), LONG_NAMES_AND_MANY_REGISTERS);
}

#[test]
fn names_registers_and_texts(rt: HostRuntime) {
    judge(&rt, rt.alloc(), NAMES_REGISTERS_AND_TEXTS);
}

#[test]
fn labels_and_calls(rt: HostRuntime) {
    judge(&rt, rt.alloc(), LABELS_AND_CALLS);
}

// A function of so many lines, the first one on the text's second line.
fn lines(alloc: Global, count: u32) -> Result<String, Fail> {
    let mut text = String::new(alloc);
    text.push_str("fun f() {\n")?;
    for k in 0..count {
        write!(text, "{k}: nop -> 0\n")?;
    }
    text.push_str("}")?;
    Ok(text)
}

// So many functions, a line each, and then that text.
fn functions(alloc: Global, count: u32, last: &str) -> Result<String, Fail> {
    let mut text = String::new(alloc);
    for k in 0..count {
        write!(text, "fun f{k}() {{ 1: return 0 }}\n")?;
    }
    text.push_str(last)?;
    Ok(text)
}

fn are_lines_judged(alloc: Global, count: u32, wanted: Option<(u32, Kind)>) -> Result<bool, Fail> {
    let text = lines(alloc, count)?;
    Ok(is_judged(alloc, text.as_str(), wanted))
}

fn are_functions_judged(
    alloc: Global,
    last: &str,
    wanted: Option<(u32, Kind)>,
) -> Result<bool, Fail> {
    let text = functions(alloc, 64, last)?;
    Ok(is_judged(alloc, text.as_str(), wanted))
}

#[test]
fn the_many(rt: HostRuntime) -> Result<(), Fail> {
    let alloc = rt.alloc();
    let lines = Some((258, Kind::TooMany));
    let functions = Some((65, Kind::TooMany));
    assert!(rt; are_lines_judged(alloc, 256, None)?);
    assert!(rt; are_lines_judged(alloc, 257, lines)?);
    assert!(rt; are_functions_judged(alloc, "", None)?);
    assert!(rt; are_functions_judged(alloc, "fun f0() { 1: return 0 }", functions)?);
    Ok(())
}

// `call r = g(n) -> 7` in CALLER.
fn is_the_call(instr: &Instr) -> bool {
    match instr {
        Instr::Call {
            dest: Reg(1),
            function: FunId(1),
            args,
            next: Label(1),
        } => args.items() == [Operand::Reg(Reg(0))].as_slice(),
        _ => false,
    }
}

fn has_the_code(function: &Function) -> bool {
    match function.code.items() {
        [first, _] => first.name == 5 && is_the_call(&first.instr),
        _ => false,
    }
}

fn has_the_head(function: &Function) -> bool {
    function.name.bytes() == b"main".as_slice()
        && function.params == 1
        && function.regs.items().len() == 2
}

fn is_caller(checked: &Checked) -> bool {
    match checked.program().functions.items() {
        [main, _] => has_the_head(main) && has_the_code(main),
        _ => false,
    }
}

fn is_read(read: &Result<Checked, ParseError>) -> bool {
    match read {
        Ok(checked) => is_caller(checked),
        Err(_) => false,
    }
}

#[test]
fn what_is_read(rt: HostRuntime) {
    let mut tokens = Tokens::of(CALLER.as_bytes());
    let mut ahead = tokens;
    assert_eq!(rt; ahead.shape(), Ok(()));
    assert!(rt; is_read(&read_program(rt.alloc(), &mut tokens)));
    assert_eq!(rt; tokens.peek(), Terminal::Calls);
}
