//! The table of refusals, from bytes to bytes: each limit, and one past it.

use crate::checks::{all_refused, check, functions, joined, numbered, refused, repeated};
use std::alloc::{AllocError, Global};
use std::process::Abort;
use std::test::Fail;

const MAIN: &str = "fun main() { 1: return 0 } calls\n";

// A name of 32 bytes.
const LONG: &str = "abcdefghijklmnopqrstuvwxyz_45678";

// A text of 64 bytes.
const SAID: &str = "the text that stands here has sixty-four bytes between its marks";

// That many different names.
fn register_names(alloc: Global, count: u32) -> Result<String, AllocError> {
    let others = numbered(alloc, 1..count, &[", r"], "")?;
    joined(alloc, &["r", others.as_str()])
}

// A function of that many lines, each with its own label number from 0.
fn of_lines(alloc: Global, count: u32) -> Result<String, AllocError> {
    let lines = numbered(alloc, 0..count, &[""], ": return 0\n")?;
    joined(alloc, &["fun f() { ", lines.as_str(), " } calls"])
}

fn accepted(rt: &impl Abort, alloc: Global, input: &[&str]) -> Result<(), Fail> {
    check(rt, alloc, &["alone"], input, 0, "")
}

const ACCEPTED: &[&str] = &[
    "fun\tmain(\r\n) {# a comment: ?\n1:return 0}calls",
    "fun main() { 1: return 9223372036854775807 2: return -9223372036854775808 } calls",
    "fun main() { 1: return 00000000000000000000000007 2: return -0 } calls",
    "fun main(n) { 1: op n = n - 1 -> 2 2: op n = n - -1 -> 1 } calls",
    "fun main() { 1: fail \"# is no comment here\" } calls # the end",
    "fun f(x; y) { 1: call y = g(x, y) -> 1 } fun g(x, y) { 1: return y } calls",
    "fun f() { 0: nop -> 65535 65535: return 0 } calls",
    "fun f(a) { 7: cond a -> 8, 7 8: return a } calls cold f 7 then cold f 7 else",
    MAIN,
    "fun main() { 1: return 0 } calls\nwarm main 1 warm main 3",
];

// Inputs, each with the line and the kind of its first offence.
const REFUSED: &[(&str, &str)] = &[
    (
        "fun main() { 1: return 9223372036854775808 } calls",
        "1: Number",
    ),
    (
        "fun main() {\n1: return -9223372036854775809 } calls",
        "2: Number",
    ),
    ("fun main(n) { 1: op n = n -1 -> 1 } calls", "1: Syntax"),
    ("fun main(n) { 1: op n = n - - 1 -> 1 } calls", "1: Syntax"),
    ("fun main() { 1: return 0 } calls\n\n@", "3: Character"),
    ("fun main() {\n1: fail \"no end", "2: Character"),
    ("fun main() {\n1: fail \"no\nend\" } calls", "2: Character"),
    ("fun main() {\n1: fail \"a\ttab\" } calls", "2: Character"),
    ("fun main() { 1: return 0 }\n\n", "3: Syntax"),
    ("fun main() { 1: return 0 }\ncalls calls", "2: Syntax"),
    ("fun call() { 1: return 0 } calls", "1: Syntax"),
    ("fun keep() { 1: return 0 } calls", "1: Syntax"),
    // characters, numbers and syntax are judged first, wherever they stand
    (
        "fun main() { 1: return x }\ncalls\n99999999999999999999",
        "3: Number",
    ),
    // names
    (
        "fun f() { 1: return 0 }\nfun f() { 1: return 0 } calls",
        "2: NameTwice",
    ),
    ("fun f(a; b,\na) { 1: return 0 } calls", "2: NameTwice"),
    ("fun f(a) {\n1: op b = a -> 1 } calls", "2: NoRegister"),
    ("fun f(a) {\n1: op a = b -> 1 } calls", "2: NoRegister"),
    ("fun f(a) {\n1: call a = g(a) -> 1 } calls", "2: NoFunction"),
    ("fun f(a) {\n1: call a = f() -> 1 } calls", "2: Arguments"),
    ("fun f() { }\ncalls", "1: NoEntry"),
    (
        "fun f(a; b) { 1: return b }\ncalls\nguess f b 1",
        "3: NoRegister",
    ),
    (
        "fun f(a) { 1: return a }\ncalls\nguess g a 1",
        "3: NoFunction",
    ),
    (
        "fun f(a) { 1: return a }\ncalls\ncall f limit 1",
        "3: Arguments",
    ),
    // labels and their numbers
    (
        "fun f() { 0: nop -> 65535\n65536: return 0 } calls",
        "1: NoLabel",
    ),
    ("fun f() { 0: return 0\n65536: return 0 } calls", "2: Range"),
    ("fun f() { 0: return 0\n-1: return 0 } calls", "2: Range"),
    ("fun f() { 0: nop ->\n65536 } calls", "2: Range"),
    ("fun f() { 0: cond 1 -> 0,\n70000 } calls", "2: Range"),
    ("fun f() { 0: cond 1 -> 0,\n1 } calls", "2: NoLabel"),
    (
        "fun f() { 5: return 0\n5: return 0 } calls",
        "2: LabelTwice",
    ),
    (
        "fun f(a) { 7: cond a -> 8, 7 8: return a } calls cold f\n6 then",
        "2: NoLabel",
    ),
    (
        "fun f(a) { 7: cond a -> 8, 7 8: return a } calls cold f\n8 then",
        "2: NotCond",
    ),
];

#[test]
fn texts_are_accepted_or_refused(rt: HostRuntime) -> Result<(), Fail> {
    for &input in ACCEPTED {
        accepted(&rt, rt.alloc(), &[input])?;
    }
    all_refused(&rt, rt.alloc(), "", REFUSED)
}

#[test]
fn long_names_and_texts(rt: HostRuntime) -> Result<(), Fail> {
    let alloc = rt.alloc();
    let longest = [
        "fun ",
        LONG,
        "(",
        LONG,
        ") { 1: fail \"",
        SAID,
        "\" 2: return ",
        LONG,
        " } calls guess ",
        LONG,
        " ",
        LONG,
        " 1",
    ];
    accepted(&rt, alloc, &longest)?;
    let name = ["fun ", LONG, "9() {\n1: return x } calls"];
    refused(&rt, alloc, &name, "1: TooMany")?;
    let parameter = ["fun f(\n", LONG, "9) { 1: return x } calls"];
    refused(&rt, alloc, &parameter, "2: TooMany")?;
    // more than 32 bytes stand before a register that is not there
    let register = ["fun f() {\n1: return ", LONG, "9 } calls"];
    refused(&rt, alloc, &register, "2: TooMany")?;
    let text = ["fun f() {\n1: fail \"", SAID, ".\" } calls"];
    refused(&rt, alloc, &text, "2: TooMany")
}

// Scripts whose one call runs.
const CALLS: &[&str] = &[
    "call main limit 1",
    "call main limit 1000000",
    "call main memory 0 limit 1",
    "call main memory 65536 limit 1",
];

// Scripts, each with the line and the kind of its first offence behind one line.
const NO_SCRIPTS: &[(&str, &str)] = &[
    ("warm main\n0", "3: Range"),
    ("warm main\n4", "3: Range"),
    ("warm other\n4", "2: NoFunction"),
    ("call main limit\n0", "3: Range"),
    ("call main limit\n1000001", "3: Range"),
    ("call main memory\n-1 limit 1", "3: Range"),
    ("call main memory\n65537 limit 1", "3: Range"),
    // the sum of the limits stands before the range of one
    ("call main limit\n4000001", "3: TooMany"),
    ("call main 5 limit 1", "2: Arguments"),
];

#[test]
fn numbers_of_a_script(rt: HostRuntime) -> Result<(), Fail> {
    let alloc = rt.alloc();
    for &script in CALLS {
        let text = "call 1\nreturn 0\n";
        check(&rt, alloc, &["alone"], &[MAIN, script], 0, text)?;
    }
    all_refused(&rt, alloc, MAIN, NO_SCRIPTS)
}

// Checks that eight parameters are accepted, and one more is refused.
fn eight_parameters(rt: &impl Abort, alloc: Global, eight: &str) -> Result<(), Fail> {
    accepted(rt, alloc, &["fun f(", eight, ") { 1: return 0 } calls"])?;
    let more = ["fun f(", eight, ",\nx) { 1: return 0 } calls"];
    refused(rt, alloc, &more, "2: TooMany")
}

// Checks that so many registers are accepted, and one more, or a parameter, is refused.
fn many_registers(rt: &impl Abort, alloc: Global, many: &str) -> Result<(), Fail> {
    accepted(rt, alloc, &["fun f(;", many, ") { 1: return 0 } calls"])?;
    let more = ["fun f(;", many, ",\nx) { 1: return 0 } calls"];
    refused(rt, alloc, &more, "2: TooMany")?;
    let parameter = ["fun f(x;\n", many, ") { 1: return 0 } calls"];
    refused(rt, alloc, &parameter, "2: TooMany")
}

#[test]
fn many_parameters_and_registers(rt: HostRuntime) -> Result<(), Fail> {
    let alloc = rt.alloc();
    eight_parameters(&rt, alloc, register_names(alloc, 8)?.as_str())?;
    many_registers(&rt, alloc, register_names(alloc, 32)?.as_str())
}

#[test]
fn many_lines_and_functions(rt: HostRuntime) -> Result<(), Fail> {
    let alloc = rt.alloc();
    accepted(&rt, alloc, &[of_lines(alloc, 256)?.as_str()])?;
    refused(
        &rt,
        alloc,
        &[of_lines(alloc, 257)?.as_str()],
        "257: TooMany",
    )?;
    accepted(&rt, alloc, &[functions(alloc, 64)?.as_str(), "calls"])?;
    refused(
        &rt,
        alloc,
        &[functions(alloc, 65)?.as_str(), "calls"],
        "65: TooMany",
    )
}

// Checks that one call more is refused.
fn one_call_more(rt: &impl Abort, alloc: Global, calls: &str) -> Result<(), Fail> {
    let input = [MAIN, calls, "\ncall main limit 1"];
    refused(rt, alloc, &input, "3: TooMany")
}

// Checks that 256 calls run, and that one more is refused.
fn many_calls(rt: &impl Abort, alloc: Global, calls: &str) -> Result<(), Fail> {
    let text = numbered(alloc, 1..257, &["call "], "\nreturn 0\n")?;
    check(rt, alloc, &["alone"], &[MAIN, calls], 0, text.as_str())?;
    one_call_more(rt, alloc, calls)
}

#[test]
fn many_calls_and_turns(rt: HostRuntime) -> Result<(), Fail> {
    let alloc = rt.alloc();
    let calls = repeated(alloc, "call main limit 15625 ", 256)?;
    many_calls(&rt, alloc, calls.as_str())?;
    let turns = repeated(alloc, "call main limit 1000000 ", 4)?;
    one_call_more(&rt, alloc, turns.as_str())
}

#[test]
fn lines_past_a_thousand(rt: HostRuntime) -> Result<(), Fail> {
    let alloc = rt.alloc();
    let empty = repeated(alloc, "\n", 1233)?;
    accepted(&rt, alloc, &[MAIN, empty.as_str()])?;
    refused(&rt, alloc, &[MAIN, empty.as_str(), "?"], "1235: Character")?;
    let comments = repeated(alloc, "# a comment\r\n", 65_536)?;
    let input = [comments.as_str(), "fun f() { } calls"];
    refused(&rt, alloc, &input, "65537: NoEntry")
}
