//! Worked calls of the program, from bytes to bytes.

use crate::checks::{
    Failing, USAGE, all_refused, all_write, check, check_failing, functions, numbered, refused,
    repeated,
};
use std::alloc::{AllocError, Global};
use std::test::Fail;

const INCREMENT: &str = "fun main(n; r) {\n1: op r = n + 1 -> 2\n2: print r -> 3\n3: return r\n}\n";

const ZERO_DIVISOR: &str = "fun main(; r) { 1: op r = 7 / 0 -> 2  2: return r }";

const LEAST_OVER_MINUS_ONE: &str = "fun main(n; r) {
1: op r = n / -1 -> 2   2: print r -> 3   3: op r = n % -1 -> 4   4: return r }";

const MEMORY_BOUNDS: &str =
    "fun main(a) { 1: store [a] = 9 -> 2   2: load a = [a] -> 3   3: return a }";

const BANK: &str = "fun main(k; r) {
1: op r = k * 100 -> 2
2: call r = deposit(0, r) -> 3
3: call r = deposit(1, 50) -> 4
4: call r = transfer(0, 1, 200) -> 5
5: print r -> 6
6: call r = total() -> 7
7: return r
}
fun deposit(a, v; b) {
1: load b = [a] -> 2
2: op b = b + v -> 3
3: store [a] = b -> 4
4: return b
}
fun withdraw(a, v; b, s) {
1: load b = [a] -> 2
2: op s = b < v -> 3
3: cond s -> 4, 5
4: return -1
5: op b = b - v -> 6
6: store [a] = b -> 7
7: return b
}
fun fee(v; r) {
1: op r = v / 10 -> 2
2: return r
}
fun transfer(a, b, v; f, s, t) {
1: call f = fee(v) -> 2
2: op s = v + f -> 3
3: call t = withdraw(a, s) -> 4
4: op s = t < 0 -> 5
5: cond s -> 6, 7
6: return 0
7: call t = deposit(b, v) -> 8
8: return 1
}
fun total(; x, y) {
1: load x = [0] -> 2
2: load y = [1] -> 3
3: op x = x + y -> 4
4: return x
}
";

// Programs, their calls, and what is written.
const RUNS: &[(&str, &str, &str)] = &[
    (INCREMENT, "call main 4 limit 100", "call 1\n5\nreturn 5\n"),
    (
        INCREMENT,
        "call main 9223372036854775807 limit 100",
        "call 1\n-9223372036854775808\nreturn -9223372036854775808\n",
    ),
    (
        INCREMENT,
        "call main 4 limit 3 call main 4 limit 2",
        "call 1\n5\nreturn 5\ncall 2\n5\nturn limit\n",
    ),
    (
        ZERO_DIVISOR,
        "warm main 1 call main limit 10",
        "call 1\nfault divide\n",
    ),
    (
        LEAST_OVER_MINUS_ONE,
        "call main -9223372036854775808 limit 10",
        "call 1\n-9223372036854775808\nreturn 0\n",
    ),
    (
        MEMORY_BOUNDS,
        "call main 63 limit 10  call main 64 limit 10 call main -1 limit 10  call main 0 memory 0 limit 10",
        "call 1\nreturn 9\ncall 2\nfault address 64\ncall 3\nfault address -1\ncall 4\nfault address 0\n",
    ),
    (
        "fun main() { 1: fail \"stop here\" }",
        "call main limit 1",
        "call 1\nfail \"stop here\"\n",
    ),
    (
        "fun main(n; r) { 1: cond n -> 2, 4 2: op r = n - 1 -> 3 3: call r = main(r) -> 4 4: return n }",
        "call main 100 limit 1000",
        "call 1\nreturn 100\n",
    ),
];

// Inputs, each with the line and the kind of its first offence.
const OFFENCES: &[(&str, &str)] = &[
    ("", "1: Syntax"),
    (
        "fun main(a, b, c, d, e, f, g, h, i) { 1: return 0 } calls",
        "1: TooMany",
    ),
    (
        "fun main(n; r) {\n1: op r = n + 1 -> 2\n2: print q -> 3\n3: return r\n}\ncalls",
        "3: NoRegister",
    ),
    (
        "fun main(n; r) {\n1: op r = n + 1 -> 2\n2: print r -> 2\n2: return r\n}\ncalls",
        "4: LabelTwice",
    ),
    (
        "fun main(n; r) {\n1: op r = n + 1 -> 3\n3: print q -> 3\n3: return r\n}\ncalls",
        "3: NoRegister",
    ),
    (
        "fun main(n; r) {\n1: op r = n + 1 -> 3\n1: print q -> 3\n3: return r\n}\ncalls",
        "3: LabelTwice",
    ),
    ("fun main() { 1: return 0 } calls\n? call", "2: Character"),
    (
        "fun main() { 1: return 9223372036854775808 } calls",
        "1: Number",
    ),
    (
        "fun main(n) { 1: return n } calls\ncall main 9223372036854775808 limit 9",
        "2: Number",
    ),
    (
        "fun main(n) { 1: return n } calls\nguess main n\n-9223372036854775809",
        "3: Number",
    ),
    (
        "fun main() { 1: return 0 } calls\ncall main limit 0",
        "2: Range",
    ),
    (
        "fun main() { 1: return 0 } calls\ncall other limit 1",
        "2: NoFunction",
    ),
];

#[test]
fn alone_writes_prints_and_ends(rt: HostRuntime) -> Result<(), Fail> {
    all_write(&rt, rt.alloc(), &["alone"], " calls ", RUNS)
}

// What is written for the calls of the bank. In the first two there is too little to pay from.
fn paid(alloc: Global) -> Result<String, AllocError> {
    let mut text = String::from_str(alloc, "call 1\n0\nreturn 150\ncall 2\n0\nreturn 250\n")?;
    let later = numbered(alloc, 3..41, &["call ", "\n1\nreturn "], "30\n")?;
    text.push_str(later.as_str())?;
    Ok(text)
}

#[test]
fn the_bank_script_pays_and_is_paid(rt: HostRuntime) -> Result<(), Fail> {
    let alloc = rt.alloc();
    let calls = numbered(alloc, 1..41, &["call main "], " limit 2000\n")?;
    let input = [BANK, "calls\n", calls.as_str()];
    check(&rt, alloc, &["alone"], &input, 0, paid(alloc)?.as_str())
}

const CANONICAL: &str =
    "fun main(n; r) {\n1: op r = n + 1 -> 2\n2: print r -> 3\n3: return r\n}\ncalls\ncall main 4 memory 64 limit 100\n";

#[test]
fn format_writes_the_canonical_text(rt: HostRuntime) -> Result<(), Fail> {
    let input =
        "fun main ( n ;r){# a comment\n1:op r=n+1->2 2:print r->3\n3 : return r }calls call main 04 limit 100";
    check(&rt, rt.alloc(), &["format"], &[input], 0, CANONICAL)?;
    check(&rt, rt.alloc(), &["format"], &[CANONICAL], 0, CANONICAL)
}

#[test]
fn refusals_tell_line_and_kind(rt: HostRuntime) -> Result<(), Fail> {
    let alloc = rt.alloc();
    all_refused(&rt, alloc, "", OFFENCES)?;
    let many = functions(alloc, 65)?;
    refused(&rt, alloc, &[many.as_str(), "calls"], "65: TooMany")
}

#[test]
fn faults_stop_a_call(rt: HostRuntime) -> Result<(), Fail> {
    let alloc = rt.alloc();
    check(&rt, alloc, &["loud"], &[], 2, USAGE)?;
    check(&rt, alloc, &["replay", "loud"], &[], 2, USAGE)?;
    let input = [INCREMENT, "calls call main 4 limit 100"];
    let second_read = Failing { read: 2, write: 9 };
    check_failing(&rt, alloc, &input, second_read, 4, "read fault\n")?;
    let second_write = Failing {
        read: 999,
        write: 2,
    };
    check_failing(&rt, alloc, &input, second_write, 5, "call 1\n")?;
    let blanks = repeated(alloc, " ", 4_194_305)?;
    check(&rt, alloc, &["alone"], &[blanks.as_str()], 7, "too long\n")
}
