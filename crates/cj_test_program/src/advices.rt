//! The line on the standard error, for each status and for each kind of refusal.

use crate::checks::{Failing, ended, finish_of, repeated};
use cj_driver::{Finish, WordsError, advice, answer_without_words};
use std::alloc::Global;
use std::process::Abort;
use std::test::Fail;

// One line for persons, with these words in it.
fn is_line(text: &str, words: &str) -> bool {
    let Some((line, behind)) = text.split_once('\n') else {
        return false;
    };
    behind.is_empty() && line.starts_with("corejit: ") && line.contains(words)
}

// Checks the status of a call, and the line about it.
fn advises(rt: &impl Abort, finish: &Finish, status: u8, words: &str) {
    assert_eq!(rt; finish.status, status, "{words}");
    assert!(rt; is_line(advice(finish), words), "{words}");
}

// Texts that are refused, the highest kinds first, and words of the line about each.
const REFUSALS: &[(&str, &str)] = &[
    ("?", "begins no token"),
    (
        "\u{feff}fun main() { 1: return 0 } calls",
        "begins no token",
    ),
    (
        "fun main() { 1: return 9223372036854775808 } calls",
        "signed 64-bit numbers",
    ),
    ("", "no text goes on so"),
    (
        "fun main() { 1: return 0 } events",
        "`replay` one with `events`",
    ),
    (
        "fun main(a, b, c, d, e, f, g, h, i) { 1: return 0 } calls",
        "a limit is passed",
    ),
    ("fun f(a; a) { 1: return 0 } calls", "declared before"),
    (
        "fun f() { 1: return 0 } calls call f limit 0",
        "docs/LANGUAGE.md lists the ranges",
    ),
    (
        "fun f() { 1: return 0 1: return 0 } calls",
        "number the line anew",
    ),
    ("fun f() { } calls", "its first one is its entry"),
    ("fun f() { 1: return a } calls", "declare it behind the `;`"),
    ("fun f() { 1: nop -> 2 } calls", "no line of the function"),
    (
        "fun f() { 1: nop -> 1 } calls cold f 1 then",
        "`cold` names the line of a `cond`",
    ),
    (
        "fun f() { 1: return 0 } calls warm g 1",
        "no function of the text",
    ),
    (
        "fun f() { 1: return 0 } calls call f 1 limit 1",
        "one argument for each parameter",
    ),
];

#[test]
fn a_refusal_is_told_in_plain_words(rt: HostRuntime) -> Result<(), Fail> {
    for &(input, words) in REFUSALS {
        advises(&rt, &finish_of(rt.alloc(), &["alone"], &[input])?, 3, words);
    }
    Ok(())
}

const INPUT: &str = "fun main() { 1: return 0 } calls call main limit 1";

// How `alone` ends where the read and the write of these numbers fail.
fn faulty(alloc: Global, read: u64, write: u64) -> Result<Finish, Fail> {
    ended(alloc, &["alone"], &[INPUT], Failing { read, write })
}

#[test]
fn every_other_status_is_told_too(rt: HostRuntime) -> Result<(), Fail> {
    let alloc = rt.alloc();
    assert_eq!(rt; advice(&faulty(alloc, 99, 99)?), "");
    advises(
        &rt,
        &finish_of(alloc, &["run", "1"], &[])?,
        2,
        "CALLERS 1 to 4",
    );
    advises(
        &rt,
        &answer_without_words(alloc, WordsError::NotText),
        2,
        "no form of the call",
    );
    advises(
        &rt,
        &faulty(alloc, 2, 99)?,
        4,
        "standard input could not be read",
    );
    advises(
        &rt,
        &faulty(alloc, 99, 2)?,
        5,
        "standard output took a part only",
    );
    advises(
        &rt,
        &answer_without_words(alloc, WordsError::NoMemory),
        6,
        "not enough memory",
    );
    let blanks = repeated(alloc, " ", 4_194_305)?;
    advises(
        &rt,
        &finish_of(alloc, &["alone"], &[&blanks])?,
        7,
        "longer than 4,194,304 bytes",
    );
    Ok(())
}
