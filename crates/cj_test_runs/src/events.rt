//! Replays of a program of two functions.

use cj_draft::Pass;
use cj_events::{Event, Events, parse_replay};
use cj_ir::{FunId, Guard, Label, Reg};
use cj_tokens::{Kind, ParseError, Refused};
use std::alloc::Global;
use std::test::Fail;

fn refused(line: u32, kind: Kind) -> Result<(), ParseError> {
    Err(ParseError::Refused(Refused { line, kind }))
}

// What comes of events behind a program in the first line, where a part stands so many times.
fn outcome(
    alloc: Global,
    before: &str,
    part: &str,
    count: usize,
    after: &str,
) -> Result<(), ParseError> {
    let mut text = String::new(alloc);
    text.push_str("fun main(n) { 1: return n } fun twice() { 1: return 0 } events\n")?;
    text.push_str(before)?;
    for _ in 0..count {
        text.push_str(part)?;
    }
    text.push_str(after)?;
    let _replay = parse_replay(alloc, text.as_bytes())?;
    Ok(())
}

#[test]
fn limits_of_runs_and_steps(rt: HostRuntime) {
    let begun = "begin twice limit 1\n";
    let rows = [
        ("", "begin twice limit 1\n", 256, Ok(())),
        (
            "",
            "begin twice limit 1\n",
            257,
            refused(258, Kind::TooMany),
        ),
        ("", "begin twice limit 1000000\n", 4, Ok(())),
        (
            "begin twice limit 1\n",
            "begin twice limit 1000000\n",
            4,
            refused(6, Kind::TooMany),
        ),
        ("begin twice\n", "limit 1000001", 1, refused(3, Kind::Range)),
        ("begin twice\n", "limit 0", 1, refused(3, Kind::Range)),
        ("begin twice memory 65536\n", "limit 1", 1, Ok(())),
        (
            "begin twice memory 65537\n",
            "limit 1",
            1,
            refused(2, Kind::Range),
        ),
        (begun, "step 1 1000000\n", 4, Ok(())),
        (
            "begin twice limit 1 step 1 1\n",
            "step 1 1000000\n",
            4,
            refused(6, Kind::TooMany),
        ),
        (begun, "step 1 1000001", 1, refused(3, Kind::Range)),
        (begun, "step 1 4000001", 1, refused(3, Kind::TooMany)),
        (begun, "step 1 0", 1, refused(3, Kind::Range)),
        (begun, "step 2 1", 1, refused(3, Kind::Range)),
        (begun, "step 0 1", 1, refused(3, Kind::Range)),
        ("step 1\n5000000\n", begun, 1, refused(2, Kind::Range)),
    ];
    for (before, part, count, wanted) in rows {
        assert_eq!(rt;
            outcome(rt.alloc(), before, part, count, ""),
            wanted,
            "of {part:?}"
        );
    }
}

#[test]
fn limits_of_compilations_and_labels(rt: HostRuntime) {
    let rows = [
        ("compile twice {\n", "} compile twice {\n", 255, Ok(())),
        (
            "compile twice {\n",
            "} compile twice {\n",
            256,
            refused(258, Kind::TooMany),
        ),
        ("compile twice {\n", "anchors 0\n", 256, Ok(())),
        (
            "compile twice {\n",
            "anchors 0\n",
            257,
            refused(259, Kind::TooMany),
        ),
        ("compile twice { anchors\n", "511\n", 64, Ok(())),
        (
            "compile twice { anchors\n",
            "511\n",
            65,
            refused(67, Kind::TooMany),
        ),
        (
            "compile twice { anchors 0",
            "\n512",
            65,
            refused(3, Kind::Range),
        ),
        (
            "compile twice { anchors 0",
            "\n-1",
            1,
            refused(3, Kind::Range),
        ),
    ];
    for (before, part, count, wanted) in rows {
        assert_eq!(rt;
            outcome(rt.alloc(), before, part, count, "}"),
            wanted,
            "of {part:?}"
        );
    }
}

#[test]
fn limits_of_guards(rt: HostRuntime) {
    let rows = [
        (
            "compile twice { assume 511 when 127 = -5\n",
            ", never\n",
            7,
            Ok(()),
        ),
        (
            "compile twice { assume 0 when 0 = 5\n",
            ", never\n",
            8,
            refused(10, Kind::TooMany),
        ),
        (
            "compile twice { assume 0 when 0 = 5",
            ",\n0 = 5",
            8,
            refused(10, Kind::TooMany),
        ),
        (
            "compile twice { assume\n",
            "512 when\n128 = 0",
            1,
            refused(3, Kind::Range),
        ),
        (
            "compile twice { assume 0 when\n",
            "128 = 0",
            1,
            refused(3, Kind::Range),
        ),
        (
            "compile twice { assume 0 when\n",
            "-1 = 0",
            1,
            refused(3, Kind::Range),
        ),
    ];
    for (before, part, count, wanted) in rows {
        assert_eq!(rt;
            outcome(rt.alloc(), before, part, count, "}"),
            wanted,
            "of {part:?}"
        );
    }
}

#[test]
fn names_and_the_first_class(rt: HostRuntime) {
    let rows = [
        (
            "begin main 3 limit 1 begin\nmain limit 0",
            refused(3, Kind::Arguments),
        ),
        ("begin\nnobody limit 0", refused(3, Kind::NoFunction)),
        (
            "compile\nnobody { anchors 512 }",
            refused(3, Kind::NoFunction),
        ),
        (
            "compile\na2345678901234567890123456789012 { }",
            refused(3, Kind::NoFunction),
        ),
        (
            "compile\na23456789012345678901234567890123 { }",
            refused(3, Kind::TooMany),
        ),
        ("step 1 1\nstep 1", refused(3, Kind::Syntax)),
        ("step 1 1\n$", refused(3, Kind::Character)),
        (
            "step 1 1\nstep 1 9223372036854775808",
            refused(3, Kind::Number),
        ),
        (
            "step 1 1\ncompile twice {\ndelay when never }",
            refused(4, Kind::Syntax),
        ),
        ("compile twice { anchors\n}", refused(3, Kind::Syntax)),
        ("compile twice { delay 0 1\n}", refused(3, Kind::Syntax)),
        ("compile twice { const\n0 }", refused(3, Kind::Syntax)),
        ("compile twice { inline\n512 }", refused(3, Kind::Range)),
        (
            "compile twice { assume 0 when never,\n}",
            refused(3, Kind::Syntax),
        ),
    ];
    for (events, wanted) in rows {
        assert_eq!(rt;
            outcome(rt.alloc(), events, "", 0, ""),
            wanted,
            "of {events:?}"
        );
    }
}

fn is_the_beginning(event: &Event) -> bool {
    match event {
        Event::Begin(call) => {
            call.args.items() == [3].as_slice() && (call.function, call.limit) == (FunId(0), 100)
        }
        _ => false,
    }
}

fn are_the_steps(event: &Event) -> bool {
    match event {
        Event::Step { run, count } => (*run, *count) == (1, 2),
        _ => false,
    }
}

fn are_the_anchors(pass: &Pass) -> bool {
    match pass {
        Pass::Anchors { places } => places.items() == [Label(0), Label(1)].as_slice(),
        _ => false,
    }
}

fn is_the_assume(pass: &Pass) -> bool {
    let test = Guard::Is {
        reg: Reg(0),
        value: 5,
    };
    match pass {
        Pass::Assume { anchor, guards } => {
            *anchor == Label(3) && guards.items() == [test, Guard::Never].as_slice()
        }
        _ => false,
    }
}

fn is_the_compilation(event: &Event) -> bool {
    match event {
        Event::Compile { function, passes } => match passes.items() {
            [anchors, assume] => {
                *function == FunId(1) && are_the_anchors(anchors) && is_the_assume(assume)
            }
            _ => false,
        },
        _ => false,
    }
}

fn is_the_delay(pass: &Pass) -> bool {
    match pass {
        Pass::Delay { path, guards } => {
            path.items() == [Label(4), Label(0), Label(2)].as_slice()
                && guards.items() == [Guard::Never].as_slice()
        }
        _ => false,
    }
}

fn is_the_inlining(pass: &Pass) -> bool {
    match pass {
        Pass::Inline { call } => *call == Label(2),
        _ => false,
    }
}

fn is_the_other_compilation(event: &Event) -> bool {
    match event {
        Event::Compile { function, passes } => match passes.items() {
            [delay, Pass::Const, inline] => {
                *function == FunId(0) && is_the_delay(delay) && is_the_inlining(inline)
            }
            _ => false,
        },
        _ => false,
    }
}

fn are_the_events(events: &Events) -> bool {
    match events.items() {
        [begin, step, compile, other] => {
            is_the_beginning(begin)
                && are_the_steps(step)
                && is_the_compilation(compile)
                && is_the_other_compilation(other)
        }
        _ => false,
    }
}

#[test]
fn what_is_read(rt: HostRuntime) -> Result<(), Fail> {
    let text =
        "fun main(n) { 1: return n } fun twice() { 1: return 0 } events begin main 3 limit 100 \
        step 1 2 compile twice { anchors 0 1 assume 3 when 0 = 5, never } \
        compile main { delay 4 0 2 when never const inline 2 }";
    let (checked, events) = parse_replay(rt.alloc(), text.as_bytes())?;
    assert_eq!(rt; checked.program().functions.items().len(), 2);
    assert!(rt; are_the_events(&events));
    Ok(())
}
