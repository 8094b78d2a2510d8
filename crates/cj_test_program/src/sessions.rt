//! Worked scripts whose calls enter versions, from bytes to bytes, on one thread and by callers and workers.

use crate::checks::{USAGE, all_write, check, check_team};
use std::test::Fail;

const DOUBLE: &str = "fun main(n; r) { 1: op r = n * 2 -> 2 2: print r -> 3 3: return r }";

const COLD_BRANCH: &str =
    "fun main(n) { 1: cond n -> 2, 3 2: print 1 -> 4 3: print 2 -> 4 4: return n }";

const ACCUMULATOR: &str =
    "fun main(n; r) { 1: cond n -> 2, 5 2: call r = acc(n) -> 3 3: print r -> 4
    4: op n = n - 1 -> 1 5: return r }
    fun acc(x; t) { 1: op t = t + x -> 2 2: return t }";

const INCREMENT: &str = "fun main(n; r) { 1: op r = n + 1 -> 2 2: print r -> 3 3: return r }";

// Programs, their scripts, and what is written on one thread, with counts.
const SCRIPTS: &[(&str, &str, &str)] = &[
    // a guess holds and fails
    (
        DOUBLE,
        "guess main n 5 warm main 1 call main 5 limit 100 call main 6 limit 100",
        "call 1\n10\nreturn 10\nturns 4 base 3 fails 0\n\
        call 2\n12\nreturn 12\nturns 4 base 3 fails 1\n",
    ),
    // a cold edge is taken after all
    (
        COLD_BRANCH,
        "cold main 1 else warm main 2 call main 0 limit 100",
        "call 1\n2\nreturn 0\nturns 5 base 3 fails 1\n",
    ),
    // an inlined accumulator begins at 0
    (
        ACCUMULATOR,
        "warm main 3 call main 2 limit 1000",
        "call 1\n2\n1\nreturn 1\nturns 14 base 14 fails 0\n",
    ),
    // a zero divisor is not folded
    (
        "fun main(; r) { 1: op r = 7 / 0 -> 2 2: return r }",
        "warm main 1 call main limit 10",
        "call 1\nfault divide\nturns 1 base 1 fails 0\n",
    ),
    // a failing run has its counts
    (
        "fun main() { 1: fail \"stop here\" }",
        "call main limit 1",
        "call 1\nfail \"stop here\"\nturns 1 base 1 fails 0\n",
    ),
];

#[test]
fn scripts_enter_versions(rt: HostRuntime) -> Result<(), Fail> {
    all_write(&rt, rt.alloc(), &["alone", "stats"], " calls ", SCRIPTS)
}

// Words of a team that are no form of the call: a team has 1 to 4 callers and 0 to 4 workers.
const NO_TEAMS: &[&[&str]] = &[
    &["run", "0", "1"],
    &["run", "5", "1"],
    &["run", "1", "5"],
    &["run", "01", "1"],
    &["alone", "1", "1"],
    &["bench", "1234567", "1", "1"],
];

#[test]
fn a_team_answers_as_one_thread_does(rt: HostRuntime) -> Result<(), Fail> {
    let alloc = rt.alloc();
    let input = [
        INCREMENT,
        " calls call main 4 limit 100 call main 5 limit 100",
    ];
    let text = "call 1\n5\nreturn 5\ncall 2\n6\nreturn 6\n";
    check(&rt, alloc, &["alone"], &input, 0, text)?;
    check_team(&rt, alloc, &["run", "1", "0"], &input, 0, text)?;
    check_team(&rt, alloc, &["run", "2", "1"], &input, 0, text)?;
    let text = "bench 7\ncalls 256\nreturns 256\nprints 8192\nsum 3586\n";
    check_team(&rt, alloc, &["bench", "7", "2", "1"], &["?"], 0, text)?;
    for &words in NO_TEAMS {
        check_team(&rt, alloc, words, &[], 2, USAGE)?;
    }
    Ok(())
}
