//! The examples of the language's reference, each instruction, operator, hint and end once.

use crate::checks::{check, joined};
use std::alloc::Global;
use std::process::Abort;
use std::test::Fail;

const INSTRUCTIONS: &[(&str, &str)] = &[
    ("1: nop -> 2  2: return a", "return 7"),
    ("1: op r = a * b -> 2  2: return r", "return 14"),
    ("1: cond b -> 2, 3  2: return 1  3: return 0", "return 1"),
    (
        "1: cond a -> 2, 4  2: op a = a - 1 -> 3  3: call r = main(a, b) -> 4  4: op r = r + b -> 5  5: return r",
        "return 16",
    ),
    (
        "1: print a -> 2  2: print b -> 3  3: return -1",
        "7\n2\nreturn -1",
    ),
    ("1: load r = [a] -> 2  2: return r", "return 0"),
    (
        "1: store [3] = a -> 2  2: load r = [3] -> 3  3: return r",
        "return 7",
    ),
    ("1: fail \"no more\"", "fail \"no more\""),
];

const OPERATORS: &[(&str, &str)] = &[
    ("a", "return 7"),
    ("neg a", "return -7"),
    ("eqz a", "return 0"),
    ("eqz 0", "return 1"),
    ("a + b", "return 9"),
    ("a - b", "return 5"),
    ("a * b", "return 14"),
    ("a / b", "return 3"),
    ("-7 / b", "return -3"),
    ("a % b", "return 1"),
    ("-7 % b", "return -1"),
    ("a = 7", "return 1"),
    ("a = b", "return 0"),
    ("a < b", "return 0"),
    ("b < a", "return 1"),
    ("9223372036854775807 + 1", "return -9223372036854775808"),
    ("-9223372036854775808 / -1", "return -9223372036854775808"),
];

const ENDS: &[(&str, &str)] = &[
    ("1: return b", "return 2"),
    ("1: fail \"\"", "fail \"\""),
    ("1: op r = a / 0 -> 2  2: return r", "fault divide"),
    ("1: op r = a % 0 -> 2  2: return r", "fault divide"),
    ("1: load r = [64] -> 2  2: return r", "fault address 64"),
    ("1: store [-1] = a -> 2  2: return r", "fault address -1"),
    ("1: nop -> 1", "turn limit"),
];

// Checks what a function of each of these lines, between that beginning and that end, writes where a is 7 and b is 2.
fn lines_write(
    rt: &impl Abort,
    alloc: Global,
    beginning: &str,
    end: &str,
    cases: &[(&str, &str)],
) -> Result<(), Fail> {
    for &(lines, text) in cases {
        let input = [
            "fun main(a, b; r) { ",
            beginning,
            lines,
            end,
            " } calls call main 7 2 limit 100",
        ];
        let written = joined(alloc, &["call 1\n", text, "\n"])?;
        check(rt, alloc, &["alone"], &input, 0, written.as_str())?;
    }
    Ok(())
}

#[test]
fn each_instruction(rt: HostRuntime) -> Result<(), Fail> {
    lines_write(&rt, rt.alloc(), "", "", INSTRUCTIONS)
}

#[test]
fn each_operator(rt: HostRuntime) -> Result<(), Fail> {
    lines_write(
        &rt,
        rt.alloc(),
        "1: op r = ",
        " -> 2  2: return r",
        OPERATORS,
    )
}

#[test]
fn each_end_and_hint(rt: HostRuntime) -> Result<(), Fail> {
    lines_write(&rt, rt.alloc(), "", "", ENDS)?;
    let input = "fun main(a) { 1: cond a -> 2, 3  2: return 1  3: return 0 }
        calls guess main a 7  cold main 1 else  warm main 2
        call main 7 memory 0 limit 10";
    check(
        &rt,
        rt.alloc(),
        &["alone"],
        &[input],
        0,
        "call 1\nreturn 1\n",
    )
}
