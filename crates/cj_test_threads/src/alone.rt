//! Scripts with setups, on one thread.

use cj_alone::alone_with;
use cj_base::End;
use cj_calls::{Look, Report};
use cj_ir::FunId;
use cj_notes::WorkNote;
use cj_text::parse;
use std::alloc::Global;
use std::process::Abort;
use std::test::Fail;

// What a report has: prints, end, the counts of turns, base turns and failed Assumes, and the offsets of its looks at `main`.
#[derive(Drop)]
struct Wanted<'a> {
    printed: &'a [i64],
    end: End,
    counts: (u64, u64, u64),
    offsets: &'a [u64],
}

#[derive(Clone, Copy, Debug, PartialEq, Eq)]
enum Kind {
    Published { offset: u64 },
    Full { next: u64, need: u32 },
    NoneAsked,
    Another,
}

const NONE: Kind = Kind::NoneAsked;

fn kind_of(note: &WorkNote) -> Kind {
    match note {
        WorkNote::Published { offset, .. } => Kind::Published { offset: *offset },
        WorkNote::Full { next, need, .. } => Kind::Full {
            next: *next,
            need: *need,
        },
        WorkNote::NoneAsked => Kind::NoneAsked,
        WorkNote::Older { .. } | WorkNote::TooLarge { .. } | WorkNote::Taken { .. } => {
            Kind::Another
        }
    }
}

fn are_of_kinds(work: &[WorkNote], kinds: &[Kind]) -> bool {
    for (note, kind) in work.iter().zip(kinds) {
        if kind_of(note) != *kind {
            return false;
        }
    }
    work.len() == kinds.len()
}

fn are_looks(looks: &[Look], offsets: &[u64]) -> bool {
    for (look, offset) in looks.iter().zip(offsets) {
        if look.function != FunId(0) || look.offset != *offset {
            return false;
        }
    }
    looks.len() == offsets.len()
}

fn is_report(report: &Report, wanted: &Wanted<'_>) -> bool {
    report.printed.items() == wanted.printed
        && report.end == wanted.end
        && (report.turns, report.base_turns, report.fails) == wanted.counts
        && are_looks(report.looks.items(), wanted.offsets)
}

fn are_reports(reports: &[Report], wanted: &[Wanted<'_>]) -> bool {
    for (report, wanted) in reports.iter().zip(wanted) {
        if !is_report(report, wanted) {
            return false;
        }
    }
    reports.len() == wanted.len()
}

// Runs the text over a table of that size, and checks its reports and the kinds of its notes.
fn check(
    rt: &impl Abort,
    alloc: Global,
    text: &[u8],
    size: u32,
    reports: &[Wanted<'_>],
    kinds: &[Kind],
) -> Result<(), Fail> {
    let input = parse(alloc, text)?;
    assert!(rt; input.checked.program().functions.items().len() < size as usize);
    assert!(rt; size <= 1_048_576);
    let (answered, work, _store) = alone_with(alloc, &input, size)?;
    assert!(rt; are_reports(answered.items(), reports));
    assert!(rt; are_of_kinds(work.items(), kinds));
    Ok(())
}

const FIRST: Kind = Kind::Published { offset: 2 };

#[test]
fn zero_divisor_is_not_folded(rt: HostRuntime) -> Result<(), Fail> {
    let text =
        b"fun main(; r) { 1: op r = 7 / 0 -> 2 2: return r } calls warm main 1 call main limit 10";
    let report = Wanted {
        printed: &[],
        end: End::Divide,
        counts: (1, 1, 0),
        offsets: &[2],
    };
    check(&rt, rt.alloc(), text, 4096, &[report], &[FIRST, NONE])
}

#[test]
fn guessed_guard_holds_and_then_fails(rt: HostRuntime) -> Result<(), Fail> {
    let text = b"fun main(n; r) { 1: op r = n * 2 -> 2 2: print r -> 3 3: return r }
        calls guess main n 5 warm main 1 call main 5 limit 100 call main 6 limit 100";
    let holds = Wanted {
        printed: &[10],
        end: End::Returned(10),
        counts: (4, 3, 0),
        offsets: &[2],
    };
    let fails = Wanted {
        printed: &[12],
        end: End::Returned(12),
        counts: (4, 3, 1),
        offsets: &[2],
    };
    check(
        &rt,
        rt.alloc(),
        text,
        4096,
        &[holds, fails],
        &[FIRST, NONE, NONE],
    )
}

#[test]
fn cold_branch_takes_its_turn_back(rt: HostRuntime) -> Result<(), Fail> {
    let text = b"fun main(n) { 1: cond n -> 2, 3 2: print 1 -> 4 3: print 2 -> 4 4: return n }
        calls cold main 1 else warm main 2 call main 0 limit 100";
    let report = Wanted {
        printed: &[2],
        end: End::Returned(0),
        counts: (5, 3, 1),
        offsets: &[2],
    };
    check(&rt, rt.alloc(), text, 4096, &[report], &[FIRST, NONE])
}

#[test]
fn inlined_accumulator_begins_with_zero_each_time(rt: HostRuntime) -> Result<(), Fail> {
    let text = b"fun main(n; r) { 1: cond n -> 2, 5 2: call r = acc(n) -> 3 3: print r -> 4
        4: op n = n - 1 -> 1 5: return r }
        fun acc(x; t) { 1: op t = t + x -> 2 2: return t }
        calls warm main 3 call main 2 limit 1000";
    let report = Wanted {
        printed: &[2, 1],
        end: End::Returned(1),
        counts: (14, 14, 0),
        offsets: &[3],
    };
    check(
        &rt,
        rt.alloc(),
        text,
        4096,
        &[report],
        &[Kind::Published { offset: 3 }, NONE],
    )
}

fn five(counts: (u64, u64, u64), offsets: &[u64]) -> Wanted<'_> {
    Wanted {
        printed: &[5],
        end: End::Returned(5),
        counts,
        offsets,
    }
}

#[test]
fn ninth_call_enters_what_the_eighth_asked_for(rt: HostRuntime) -> Result<(), Fail> {
    let text = b"fun main(n; r) { 1: op r = n + 1 -> 2 2: print r -> 3 3: return r }
        calls call main 4 limit 100 call main 4 limit 100 call main 4 limit 100
        call main 4 limit 100 call main 4 limit 100 call main 4 limit 100
        call main 4 limit 100 call main 4 limit 100 call main 4 limit 100";
    let base = (3, 3, 0);
    let reports = [
        five(base, &[0]),
        five(base, &[0]),
        five(base, &[0]),
        five(base, &[0]),
        five(base, &[0]),
        five(base, &[0]),
        five(base, &[0]),
        five(base, &[0]),
        five((4, 3, 0), &[2]),
    ];
    let kinds = [NONE, NONE, NONE, NONE, NONE, NONE, NONE, FIRST, NONE];
    check(&rt, rt.alloc(), text, 4096, &reports, &kinds)
}

fn zero(offsets: &[u64]) -> Wanted<'_> {
    Wanted {
        printed: &[],
        end: End::Returned(0),
        counts: (1, 1, 0),
        offsets,
    }
}

#[test]
fn table_of_18_words_is_full_and_one_of_19_is_not(rt: HostRuntime) -> Result<(), Fail> {
    let text = b"fun main() { 1: return 0 } calls warm main 1 call main limit 9";
    let full = Kind::Full { next: 2, need: 17 };
    check(&rt, rt.alloc(), text, 18, &[zero(&[0])], &[full, NONE])?;
    check(&rt, rt.alloc(), text, 19, &[zero(&[2])], &[FIRST, NONE])
}
