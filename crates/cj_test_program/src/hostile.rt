//! Devices that fail at any call, texts that are cut anywhere, and hints that are false in every way.

use crate::checks::{Failing, check, check_failing, ended};
use std::alloc::Global;
use std::process::Abort;
use std::test::Fail;

const INCREMENT: &str =
    "fun main(n; r) {\n1: op r = n + 1 -> 2\n2: print r -> 3\n3: return r\n}\ncalls\ncall main 4 memory 64 limit 100\n";

const WRITTEN: &str = "call 1\n5\nreturn 5\n";

// What is written where the write of a number fails.
const PARTS: &[(u64, u8, &str)] = &[
    (1, 5, ""),
    (2, 5, "call 1\n"),
    (3, 5, "call 1\n5\nretur"),
    (4, 0, WRITTEN),
];

#[test]
fn whichever_read_or_write_fails(rt: HostRuntime) -> Result<(), Fail> {
    let alloc = rt.alloc();
    // seven reads give the text, and the eighth its end
    for read in 1..9 {
        let failing = Failing { read, write: 99 };
        check_failing(&rt, alloc, &[INCREMENT], failing, 4, "read fault\n")?;
    }
    let failing = Failing { read: 9, write: 99 };
    check_failing(&rt, alloc, &[INCREMENT], failing, 0, WRITTEN)?;
    for &(write, status, text) in PARTS {
        let failing = Failing { read: 99, write };
        check_failing(&rt, alloc, &[INCREMENT], failing, status, text)?;
    }
    Ok(())
}

// The status of `alone` for the first bytes of the text.
fn cut_status(alloc: Global, cut: usize) -> Result<u8, Fail> {
    match INCREMENT.get(..cut) {
        Some(beginning) => {
            let failing = Failing {
                read: 99,
                write: 99,
            };
            Ok(ended(alloc, &["alone"], &[beginning], failing)?.status)
        }
        None => Ok(0),
    }
}

#[test]
fn a_text_that_is_cut_is_refused(rt: HostRuntime) -> Result<(), Fail> {
    let script = INCREMENT.len() - 32;
    for cut in 0..INCREMENT.len() - 1 {
        // behind `calls` the script is empty, and behind `limit 1` and `limit 10` it is whole
        let valid = [script - 1, script, INCREMENT.len() - 3, INCREMENT.len() - 2].contains(&cut);
        let status = if valid { 0 } else { 3 };
        assert_eq!(rt; cut_status(rt.alloc(), cut)?, status, "{cut}");
    }
    Ok(())
}

const DOUBLE: &str = "fun main(n; r) { 1: op r = n * 2 -> 2 2: print r -> 3 3: return r } calls ";

const COLD_BRANCH: &str =
    "fun main(n) { 1: cond n -> 2, 3 2: print 1 -> 4 3: print 2 -> 4 4: return n } calls ";

const VALUES: &[&str] = &[
    "-9223372036854775808",
    "-1",
    "0",
    "1",
    "9223372036854775807",
];

// Checks that the calls of a program write the same as without setups, whatever is guessed of n and whichever edge of line 1
// is cold.
fn hints_are_harmless(
    rt: &impl Abort,
    alloc: Global,
    program: &str,
    edges: &[&str],
    calls: &str,
    text: &str,
) -> Result<(), Fail> {
    check(rt, alloc, &["alone"], &[program, calls], 0, text)?;
    for value in VALUES {
        for edge in edges {
            for level in &["warm main 1 ", "warm main 2 "] {
                let input = [program, "guess main n ", *value, " ", *edge, *level, calls];
                check(rt, alloc, &["alone"], &input, 0, text)?;
            }
        }
    }
    Ok(())
}

#[test]
fn false_guesses_change_no_answer(rt: HostRuntime) -> Result<(), Fail> {
    let calls = "call main 5 limit 100 call main 0 limit 100";
    let text = "call 1\n10\nreturn 10\ncall 2\n0\nreturn 0\n";
    hints_are_harmless(&rt, rt.alloc(), DOUBLE, &[""], calls, text)
}

#[test]
fn false_cold_edges_change_no_answer(rt: HostRuntime) -> Result<(), Fail> {
    let calls = "call main 0 limit 100 call main 1 limit 100";
    let text = "call 1\n2\nreturn 0\ncall 2\n1\nreturn 1\n";
    let edges = &["cold main 1 then ", "cold main 1 else "];
    hints_are_harmless(&rt, rt.alloc(), COLD_BRANCH, edges, calls, text)
}
