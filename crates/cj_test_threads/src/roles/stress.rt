//! Four callers and four workers, over a program whose functions come to all levels.

use super::phases::{Phases, WORKERS, in_phases, were_in_time};
use super::{alone, are_alike, script};
use cj_calls::Report;
use cj_io::OpenGate;
use cj_ir::FunId;
use cj_notes::WorkNote;
use cj_roles::run_roles;
use cj_text::parse;
use std::alloc::Global;
use std::test::Fail;

const SEVERAL: &[u8] =
    b"fun main(n; r) { 1: call r = twice(n) -> 2 2: call r = plus(r, n) -> 3 3: print r -> 4 4: return r }
    fun twice(n; r) { 1: op r = n * 2 -> 2 2: return r }
    fun plus(a, b; r) { 1: cond b -> 2, 4 2: op r = a + b -> 3 3: return r 4: return a } calls";

const MAIN: FunId = FunId(0);

const CALLERS: u32 = 4;

// The calls up to the first border ask for level 1, those up to the second for level 2, and those up to the third, whose guards
// fail, for level 3.
const BORDERS: [u32; 3] = [16, 96, 144];

const CALLS: u32 = 240;

// Where the version of `main` of that level was published.
fn offset_of(work: &[WorkNote], wanted: u8) -> Option<u64> {
    for note in work {
        if let WorkNote::Published {
            f,
            level,
            offset,
            ..
        } = note
        {
            if *f == MAIN && *level == wanted {
                return Some(*offset);
            }
        }
    }
    None
}

// The call entered that version of `main`.
fn entered(report: &Report, version: Option<u64>) -> bool {
    match report.looks.items().first() {
        None => false,
        Some(look) => look.function == MAIN && Some(look.offset) == version,
    }
}

// How many of the calls entered that version of `main`, and had that many failed guards at least.
fn entries(reports: &[Report], version: Option<u64>, fails: u64) -> usize {
    reports
        .iter()
        .filter(|report| entered(report, version) && report.fails >= fails)
        .count()
}

// Calls of which the first 144 bring `main` to level 3, and the others enter it.
fn text_of(alloc: Global) -> Result<Vec<u8>, Fail> {
    let calls: [(&[u8], u32); 3] = [
        (b" call main 5 limit 1000", 96),
        (b" call main 0 limit 1000", 48),
        (b" call main 7 limit 1000", 96),
    ];
    script(alloc, SEVERAL, &calls)
}

#[test]
fn guards_fail_in_four_callers_beside_four_workers(rt: HostRuntime) -> Result<(), Fail> {
    let text = text_of(rt.alloc())?;
    let input = parse(rt.alloc(), text.as_slice())?;
    let (reports, _work, _store) = run_roles(&rt, rt.alloc(), &input, CALLERS, WORKERS, &OpenGate)?;
    assert!(rt; are_alike(&reports, &alone(&rt, rt.alloc(), &input)?));
    Ok(())
}

#[test]
fn all_levels_are_entered_by_four_callers_beside_four_workers(rt: HostRuntime) -> Result<(), Fail> {
    let alloc = rt.alloc();
    let text = text_of(alloc)?;
    let input = parse(alloc, text.as_slice())?;
    let gate = in_phases(BORDERS, CALLS);
    let (reports, work, _store) = run_roles(&rt, alloc, &input, CALLERS, WORKERS, &gate)?;
    assert!(rt; were_in_time(&gate));
    assert!(rt; are_alike(&reports, &alone(&rt, alloc, &input)?));
    let first = offset_of(work.items(), 1);
    let second = offset_of(work.items(), 2);
    let third = offset_of(work.items(), 3);
    // a version is entered that was made of the calls before; the guards of level 2 fail three times before level 3 is asked for
    assert!(rt; first.is_some() && entries(reports.items(), first, 0) > 0);
    assert!(rt; second.is_some() && entries(reports.items(), second, 1) >= 3);
    // behind the last border each call enters the version that guesses nothing
    assert!(rt; third.is_some() && entries(reports.items(), third, 0) >= 96);
    assert!(rt; entries(reports.items(), third, 1) == 0);
    Ok(())
}
