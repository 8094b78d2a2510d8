//! Scripts whose calls ask for levels, with the notes and the looks behind what is written.

use crate::checks::{check, finish_of, repeated};
use cj_calls::Report;
use cj_driver::Finish;
use cj_notes::WorkNote;
use std::test::Fail;

// The level of the version that was published, or 0.
fn published(note: &WorkNote) -> u8 {
    match note {
        WorkNote::Published { level, .. } => *level,
        _ => 0,
    }
}

fn are_levels(work: &[WorkNote], levels: &[u8]) -> bool {
    for (note, level) in work.iter().zip(levels) {
        if published(note) != *level {
            return false;
        }
    }
    work.len() == levels.len()
}

// So many lookups were made, and each found a version, or each found none.
fn looked_up(report: &Report, count: usize, found: bool) -> bool {
    let looks = report.looks.items();
    looks.len() == count && looks.iter().all(|look| (look.offset != 0) == found)
}

// Whether the calls made so many lookups each, of which those of the calls behind the first ones found a version.
fn all_looked_up(finish: &Finish, count: usize, without: usize) -> bool {
    for (call, report) in finish.made.reports.items().iter().enumerate() {
        if !looked_up(report, count, call >= without) {
            return false;
        }
    }
    true
}

const DOUBLE: &str = "fun main(n; r) { 1: op r = n * 2 -> 2 2: print r -> 3 3: return r } calls ";

#[test]
fn the_third_failure_asks_for_the_third_level(rt: HostRuntime) -> Result<(), Fail> {
    let alloc = rt.alloc();
    let calls = repeated(alloc, "call main 6 limit 100 ", 5)?;
    let input = [DOUBLE, "guess main n 5 warm main 1 ", &calls];
    let text = "call 1\n12\nreturn 12\nturns 4 base 3 fails 1\n\
        call 2\n12\nreturn 12\nturns 4 base 3 fails 1\n\
        call 3\n12\nreturn 12\nturns 4 base 3 fails 1\n\
        call 4\n12\nreturn 12\nturns 3 base 3 fails 0\n\
        call 5\n12\nreturn 12\nturns 3 base 3 fails 0\n";
    check(&rt, alloc, &["alone", "stats"], &input, 0, text)?;
    let finish = finish_of(alloc, &["alone"], &input)?;
    assert!(rt; are_levels(finish.made.work.items(), &[1, 0, 0, 3, 0, 0]));
    assert!(rt; all_looked_up(&finish, 1, 0));
    Ok(())
}

const RECURSION: &str =
    "fun main(n; r) { 1: cond n -> 2, 4 2: op r = n - 1 -> 3 3: call r = main(r) -> 4 4: return n } calls ";

// Each of the activations is entered, in the first call by the base body and then by the version that its entries asked for.
#[test]
fn ten_thousand_activations_wait(rt: HostRuntime) -> Result<(), Fail> {
    let alloc = rt.alloc();
    let calls = repeated(alloc, "call main 10000 limit 40002 ", 2)?;
    let input = [RECURSION, &calls];
    let text = "call 1\nreturn 10000\nturns 40002 base 40002 fails 0\n\
        call 2\nreturn 10000\nturns 40002 base 40002 fails 0\n";
    check(&rt, alloc, &["alone", "stats"], &input, 0, text)?;
    let finish = finish_of(alloc, &["alone"], &input)?;
    assert!(rt; are_levels(finish.made.work.items(), &[2, 0]));
    assert!(rt; all_looked_up(&finish, 10_001, 1));
    let one_turn_less = [RECURSION, "call main 10000 limit 40001"];
    check(
        &rt,
        alloc,
        &["alone"],
        &one_turn_less,
        0,
        "call 1\nturn limit\n",
    )
}
