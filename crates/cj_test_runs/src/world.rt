//! Plays of the events of replays.

ghost use Rattle.std.specs.Prelude.{◌<◌, length, IfOk};
ghost use Rattle.cj_ir.specs.declared.language.Program.{Program};
ghost use Rattle.cj_events.specs.Playable.{CanPlay};

use cj_base::{End, Waiting};
use cj_calls::{Look, Note, Report};
use cj_draft::{Pass, Passes, Room, Skipped};
use cj_ir::{FunId, Guard, Guards, Label, Labels, NoMemory, Reg};
use cj_world::{Compiled, Event, Events, Played, parse_replay, play, play_in};
use std::alloc::Global;
use std::process::Abort;
use std::test::Fail;

const MAIN: FunId = FunId(0);

const TWICE: FunId = FunId(1);

fn played(alloc: Global, text: &[u8]) -> Result<Played, Fail> {
    let (checked, events) = parse_replay(alloc, text)?;
    Ok(play(alloc, &checked, &events)?)
}

// The play of a replay in a table of so many words.
fn played_in(alloc: Global, text: &[u8], words: u32) -> Result<Played, Fail> {
    let (checked, events) = parse_replay(alloc, text)?;
    Ok(play_in(alloc, &checked, &events, words)?)
}

fn look(function: FunId, offset: u64) -> Look {
    Look { function, offset }
}

// The turns, the base turns and the failed Assumes of a report.
fn counts(report: &Report) -> (u64, u64, u64) {
    (report.turns, report.base_turns, report.fails)
}

fn comes_to(report: &Report, printed: &[i64], end: End, turns: (u64, u64, u64)) -> bool {
    report.printed.items() == printed && report.end == end && counts(report) == turns
}

fn is_top_of_main(note: &Note, regs: &[i64]) -> bool {
    note.turn == 0
        && note.top.function.0 == 0
        && note.top.label.0 == 0
        && note.top.regs.items() == regs
        && note.waiting.items().is_empty()
}

const DOUBLE: &[u8] = b"fun main(n; r) { 1: op r = n * 2 -> 2 2: print r -> 3 3: return r }
    events compile main { anchors 0 assume 3 when 0 = 5 } begin main 5 limit 100 begin main 6 limit 100";

fn fails_in_the_second(reports: &[Report]) -> bool {
    let [first, second] = reports else {
        return false;
    };
    comes_to(first, &[10], End::Returned(10), (4, 3, 0))
        && comes_to(second, &[12], End::Returned(12), (4, 3, 1))
}

#[test]
fn guard_holds_in_one_run_and_fails_in_the_next(rt: HostRuntime) -> Result<(), Fail> {
    let played = played(rt.alloc(), DOUBLE)?;
    assert!(rt; fails_in_the_second(played.reports.items()));
    Ok(())
}

fn is_noted_in_the_second(reports: &[Report]) -> bool {
    let [first, second] = reports else {
        return false;
    };
    let [note] = second.notes.items() else {
        return false;
    };
    first.notes.items().is_empty()
        && is_top_of_main(note, &[6, 0])
        && second.looks.items() == [look(MAIN, 2)].as_slice()
}

#[test]
fn failed_guard_leaves_a_note(rt: HostRuntime) -> Result<(), Fail> {
    let played = played(rt.alloc(), DOUBLE)?;
    assert!(rt; is_noted_in_the_second(played.reports.items()));
    Ok(())
}

fn enters_base_then_version(reports: &[Report]) -> bool {
    let [report] = reports else {
        return false;
    };
    let looks = [look(MAIN, 0), look(TWICE, 0), look(TWICE, 3)];
    comes_to(report, &[], End::Returned(12), (7, 7, 0)) && report.looks.items() == looks.as_slice()
}

#[test]
fn next_call_enters_what_was_compiled_meanwhile(rt: HostRuntime) -> Result<(), Fail> {
    let text = b"fun main(n; r) { 1: call r = twice(n) -> 2 2: call r = twice(r) -> 3 3: return r }
        fun twice(x) { 1: op x = x * 2 -> 2 2: return x }
        events begin main 3 limit 100 step 1 2 compile twice { }";
    let played = played(rt.alloc(), text)?;
    assert!(rt; enters_base_then_version(played.reports.items()));
    Ok(())
}

// What a replay's one compilation skips, by the numbers of its passes, and where its version begins.
type Compilation<'a> = (&'a str, &'a [(u32, Skipped)], u64);

const COMPILATIONS: &[Compilation<'_>] = &[
    (
        "fun main(n; r) { 1: op r = n + 1 -> 2 2: print r -> 3 3: return r }
        events compile main { anchors 9 assume 3 when never }",
        &[
            (0, Skipped::NoPlace { label: Label(9) }),
            (1, Skipped::NoPlace { label: Label(3) }),
        ],
        2,
    ),
    // two edges lead to the end of the path
    (
        "fun main(n) { 1: cond n -> 2, 3 2: print 1 -> 3 3: return n }
        events compile main { anchors 0 delay 3 0 2 when never }",
        &[(
            1,
            Skipped::Joined {
                label: Label(2),
                count: 2,
            },
        )],
        2,
    ),
    // the path prints
    (
        "fun main(n) { 1: cond n -> 2, 3 2: print 1 -> 4 3: print 2 -> 4 4: return n }
        events compile main { anchors 0 delay 4 0 1 3 when never }",
        &[(1, Skipped::NotSilent { label: Label(1) })],
        2,
    ),
    // a `cond` is no call, and the call behind it is inlined
    (
        "fun main(n; r) { 1: cond n -> 2, 5 2: call r = acc(n) -> 3 3: print r -> 4
        4: op n = n - 1 -> 1 5: return r }
        fun acc(x; t) { 1: op t = t + x -> 2 2: return t }
        events compile main { inline 0 inline 1 }",
        &[(0, Skipped::NotCall { label: Label(0) })],
        3,
    ),
];

fn is_compiled(played: &Played, skipped: &[(u32, Skipped)], offset: u64) -> bool {
    let [skips] = played.skips.items() else {
        return false;
    };
    skips.items() == skipped
        && played.compiled.items() == [Compiled::Published { offset }].as_slice()
}

#[test]
fn passes_that_do_not_fit_are_skipped(rt: HostRuntime) -> Result<(), Fail> {
    for &(text, skipped, offset) in COMPILATIONS {
        let played = played(rt.alloc(), text.as_bytes())?;
        assert!(rt; is_compiled(&played, skipped, offset), "{text:?}");
    }
    Ok(())
}

// Passes that no text has: an empty list, nine guards, a register and a label past all that there are, an empty path.
fn passes_of_no_text(alloc: Global) -> Result<Passes, NoMemory> {
    let mut places = Labels::new(alloc);
    places.push(Label(0))?;
    let mut nine = Guards::new(alloc);
    for _ in 0..9 {
        nine.push(Guard::Never)?;
    }
    let mut far = Guards::new(alloc);
    far.push(Guard::Is {
        reg: Reg(200),
        value: 1,
    })?;
    let mut passes = Passes::new(alloc);
    passes.push(Pass::Anchors { places })?;
    passes.push(Pass::Anchors {
        places: Labels::new(alloc),
    })?;
    passes.push(Pass::Assume {
        anchor: Label(2),
        guards: nine,
    })?;
    passes.push(Pass::Assume {
        anchor: Label(2),
        guards: far,
    })?;
    passes.push(Pass::Delay {
        path: Labels::new(alloc),
        guards: Guards::new(alloc),
    })?;
    passes.push(Pass::Inline { call: Label(70000) })?;
    Ok(passes)
}

// The first function is compiled.
fn compilation(alloc: Global, passes: Passes) -> Result<Events, NoMemory>
    ensures { IfOk result (λ events. (p : Program) → 0 < length p.functions → CanPlay p events) }
{
    let mut events = Events::new(alloc);
    events.push(Event::Compile {
        function: MAIN,
        passes,
    })?;
    Ok(events)
}

#[test]
fn events_that_no_text_has_are_played(rt: HostRuntime) -> Result<(), Fail> {
    let alloc = rt.alloc();
    let (checked, _none) = parse_replay(
        alloc,
        b"fun main(n) { 1: print n -> 2 2: return n } events",
    )?;
    assert!(rt; !checked.program().functions.items().is_empty());
    let events = compilation(alloc, passes_of_no_text(alloc)?)?;
    let played = play(alloc, &checked, &events)?;
    let skipped = [
        (
            2,
            Skipped::Full {
                room: Room::Guards,
                count: 9,
            },
        ),
        (3, Skipped::NoRegister { reg: Reg(200) }),
        (4, Skipped::NoEdge { label: Label(0) }),
        (
            5,
            Skipped::NoPlace {
                label: Label(70000),
            },
        ),
    ];
    assert!(rt; is_compiled(&played, &skipped, 2));
    Ok(())
}

fn is_waiting(waiting: &Waiting, function: FunId) -> bool {
    waiting.function == function
        && waiting.label == Label(1)
        && waiting.regs.items() == [5, 0].as_slice()
        && waiting.dest == Reg(1)
}

fn rebuilds_three_frames(reports: &[Report]) -> bool {
    let [report] = reports else {
        return false;
    };
    let [note] = report.notes.items() else {
        return false;
    };
    let [mid, main] = note.waiting.items() else {
        return false;
    };
    note.turn == 3
        && note.top.function == FunId(2)
        && note.top.label == Label(1)
        && note.top.regs.items() == [5].as_slice()
        && is_waiting(mid, FunId(1))
        && is_waiting(main, MAIN)
}

#[test]
fn two_inlined_frames_are_noted(rt: HostRuntime) -> Result<(), Fail> {
    let text = b"fun main(n; r) { 1: call r = mid(n) -> 2 2: return r }
        fun mid(x; y) { 1: call y = low(x) -> 2 2: op y = y + 1 -> 3 3: return y }
        fun low(z) { 1: print z -> 2 2: return z }
        events compile main { inline 0 inline 2 anchors 6 assume 7 when never } begin main 5 limit 100";
    let played = played(rt.alloc(), text)?;
    assert!(rt; rebuilds_three_frames(played.reports.items()));
    Ok(())
}

fn looks_twice(reports: &[Report]) -> bool {
    let [report] = reports else {
        return false;
    };
    report.looks.items() == [look(MAIN, 2), look(MAIN, 2)].as_slice()
}

#[test]
fn a_recursive_sum_inlined_once_looks_half_as_often(rt: HostRuntime) -> Result<(), Fail> {
    let text = b"fun sum(k; r) { 1: cond k -> 2, 4 2: op r = k - 1 -> 3 3: call r = sum(r) -> 5
        4: return 0 5: op r = r + k -> 6 6: return r }
        events compile sum { inline 2 const } begin sum 3 limit 100";
    let played = played(rt.alloc(), text)?;
    assert!(rt; looks_twice(played.reports.items()));
    Ok(())
}

fn enters_the_first(reports: &[Report]) -> bool {
    let [report] = reports else {
        return false;
    };
    report.looks.items() == [look(MAIN, 2)].as_slice()
}

#[test]
fn full_table_changes_nothing(rt: HostRuntime) -> Result<(), Fail> {
    let text = b"fun main() { 1: return 0 }
        events compile main { } compile main { } begin main limit 1";
    let played = played_in(rt.alloc(), text, 30)?;
    let full = Compiled::Full { next: 19, need: 17 };
    assert!(rt; played.compiled.items() == [Compiled::Published { offset: 2 }, full].as_slice());
    assert!(rt; enters_the_first(played.reports.items()));
    Ok(())
}

fn stops_at_its_limit(reports: &[Report]) -> bool {
    let [report] = reports else {
        return false;
    };
    comes_to(report, &[], End::TurnLimit, (3, 3, 0))
}

#[test]
fn run_that_has_time_left_goes_on_to_its_limit(rt: HostRuntime) -> Result<(), Fail> {
    let text = b"fun main() { 1: nop -> 1 } events begin main limit 3 step 1 2 step 1 9";
    let played = played(rt.alloc(), text)?;
    assert!(rt; stops_at_its_limit(played.reports.items()));
    Ok(())
}

// What a run comes to.
#[derive(Clone, Copy)]
struct Outcome<'a> {
    printed: &'a [i64],
    end: End,
    turns: u64,
    looks: usize,
}

// No Assume failed, and each turn counted a base turn.
fn is_plain(report: &Report, outcome: &Outcome<'_>) -> bool {
    let turns = (outcome.turns, outcome.turns, 0);
    comes_to(report, outcome.printed, outcome.end, turns)
        && report.notes.items().is_empty()
        && report.looks.items().len() == outcome.looks
}

fn are_plain(reports: &[Report], outcome: &Outcome<'_>) -> bool {
    for report in reports {
        if !is_plain(report, outcome) {
            return false;
        }
    }
    true
}

// Whether the runs go over base bodies up to the last one, which enters a version.
fn ends_in_version(reports: &[Report]) -> bool {
    let mut is_base = true;
    for report in reports {
        if !is_base {
            return false;
        }
        for look in report.looks.items() {
            is_base = is_base && look.offset == 0;
        }
    }
    !is_base
}

// All runs come to the same, the last one over a version.
fn alike(
    rt: &impl Abort,
    alloc: Global,
    program: &str,
    events: &str,
    outcome: Outcome<'_>,
) -> Result<(), Fail> {
    let text = format!(in alloc; "{program} events {events}")?;
    let played = played(alloc, text.as_bytes())?;
    assert!(rt; are_plain(played.reports.items(), &outcome));
    assert!(rt; ends_in_version(played.reports.items()));
    Ok(())
}

const INCREMENT: &str = "fun main(x; y) { 1: op y = x + 1 -> 2 2: print y -> 3 3: return y }";

#[test]
fn increment_takes_three_turns_and_stops_at_its_limit(rt: HostRuntime) -> Result<(), Fail> {
    let alloc = rt.alloc();
    let stopped = Outcome {
        printed: &[5],
        end: End::TurnLimit,
        turns: 2,
        looks: 1,
    };
    let events = "begin main 4 limit 2 compile main { } begin main 4 limit 2";
    alike(&rt, alloc, INCREMENT, events, stopped)?;
    let whole = Outcome {
        end: End::Returned(5),
        turns: 3,
        ..stopped
    };
    let events = "begin main 4 limit 3 begin main 4 limit 9 compile main { } begin main 4 limit 3";
    alike(&rt, alloc, INCREMENT, events, whole)?;
    let events = "begin main 4 limit 3 compile main { } begin main 4 limit 9";
    alike(&rt, alloc, INCREMENT, events, whole)
}

#[test]
fn ten_thousand_calls_wait_for_each_other(rt: HostRuntime) -> Result<(), Fail> {
    let program =
        "fun main(x; y) { 1: cond x -> 2, 4 2: op y = x - 1 -> 3 3: call y = main(y) -> 4 4: return x }";
    let events =
        "begin main 10000 limit 1000000 step 1 1000000 compile main { } begin main 10000 limit 1000000";
    let outcome = Outcome {
        printed: &[],
        end: End::Returned(10_000),
        turns: 40_002,
        looks: 10_001,
    };
    alike(&rt, rt.alloc(), program, events, outcome)
}

// A call of three functions, of which that one has a version in the end.
fn calls_with_a_version_of(rt: &impl Abort, alloc: Global, compiled: &str) -> Result<(), Fail> {
    let program = "fun main(x; y) { 1: call y = mid(x) -> 2 2: return y }
        fun mid(x; y) { 1: call y = low(x) -> 2 2: op y = y + 1 -> 3 3: return y }
        fun low(x) { 1: print x -> 2 2: return x }";
    let call = "begin main 5 limit 100";
    let events = format!(in alloc; "{call} step 1 100 compile {compiled} {{ }} {call}")?;
    let outcome = Outcome {
        printed: &[5],
        end: End::Returned(6),
        turns: 7,
        looks: 3,
    };
    alike(rt, alloc, program, events.as_str(), outcome)
}

#[test]
fn base_bodies_and_versions_call_each_other(rt: HostRuntime) -> Result<(), Fail> {
    let alloc = rt.alloc();
    calls_with_a_version_of(&rt, alloc, "main")?;
    calls_with_a_version_of(&rt, alloc, "mid")?;
    calls_with_a_version_of(&rt, alloc, "low")
}

// A call with 64 cells ends so.
fn ends(rt: &impl Abort, alloc: Global, argument: &str, end: End, turns: u64) -> Result<(), Fail> {
    let program =
        "fun main(x; y) { 1: op y = 63 / x -> 2 2: store [x] = 7 -> 3 3: load y = [x] -> 4 4: fail \"no cell\" }";
    let call = format!(in alloc; "begin main {argument} memory 64 limit 9")?;
    let events = format!(in alloc; "{call} compile main {{ }} {call}")?;
    let outcome = Outcome {
        printed: &[],
        end,
        turns,
        looks: 1,
    };
    alike(rt, alloc, program, events.as_str(), outcome)
}

#[test]
fn faults_end_a_run(rt: HostRuntime) -> Result<(), Fail> {
    let alloc = rt.alloc();
    let failed = End::Failed {
        function: MAIN,
        label: Label(3),
    };
    ends(&rt, alloc, "0", End::Divide, 1)?;
    ends(&rt, alloc, "64", End::Address(64), 2)?;
    ends(&rt, alloc, "-1", End::Address(-1), 2)?;
    ends(&rt, alloc, "63", failed, 4)
}

#[test]
fn loop_goes_round(rt: HostRuntime) -> Result<(), Fail> {
    let program =
        "fun main(x) { 1: cond x -> 2, 4 2: print x -> 3 3: op x = x - 1 -> 1 4: return x }";
    let events = "begin main 3 limit 100 compile main { } begin main 3 limit 100";
    let outcome = Outcome {
        printed: &[3, 2, 1],
        end: End::Returned(0),
        turns: 11,
        looks: 1,
    };
    alike(&rt, rt.alloc(), program, events, outcome)
}
