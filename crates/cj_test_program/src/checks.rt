//! What the tests ask of whole calls, from bytes to bytes.

use cj_driver::{Finish, fault_line, top, top_alone};
use cj_io::{MemSink, MemSource, OpenGate};
use itoa::Buffer;
use std::alloc::{AllocError, Global};
use std::ops::Range;
use std::process::Abort;
use std::sync::Wait;
use std::test::Fail;
use std::thread::Threads;

pub(crate) const USAGE: &str =
    "usage: corejit alone [stats] | replay [stats] | format | bench N [CALLERS WORKERS] | run CALLERS WORKERS\n";

// The words as a command line gives them.
fn command_line(alloc: Global, words: &[&str]) -> Result<Vec<String>, AllocError> {
    let mut spelled = Vec::new(alloc);
    for word in words {
        spelled.push(String::from_str(alloc, word)?)?;
    }
    Ok(spelled)
}

// The pieces, one behind the other.
pub(crate) fn joined(alloc: Global, pieces: &[&str]) -> Result<String, AllocError> {
    let mut text = String::new(alloc);
    for piece in pieces {
        text.push_str(piece)?;
    }
    Ok(text)
}

// The piece, that many times.
pub(crate) fn repeated(alloc: Global, piece: &str, count: u32) -> Result<String, AllocError> {
    let mut text = String::new(alloc);
    for _ in 0..count {
        text.push_str(piece)?;
    }
    Ok(text)
}

// Each piece with the number behind it, and then the end, for each number of the range.
pub(crate) fn numbered(
    alloc: Global,
    numbers: Range<u32>,
    pieces: &[&str],
    end: &str,
) -> Result<String, AllocError> {
    let mut text = String::new(alloc);
    let mut number = Buffer::new();
    for k in numbers {
        let digits = number.format(k);
        for piece in pieces {
            text.push_str(piece)?;
            text.push_str(digits)?;
        }
        text.push_str(end)?;
    }
    Ok(text)
}

// That many functions, each on a line of its own.
pub(crate) fn functions(alloc: Global, count: u32) -> Result<String, AllocError> {
    numbered(alloc, 0..count, &["fun f"], "() { 1: return 0 }\n")
}

// Which read and which write fail, counted from 1; none where the number is 0, and then the pieces are large.
#[derive(Clone, Copy)]
pub(crate) struct Failing {
    pub read: u64,
    pub write: u64,
}

const NONE_FAILS: Failing = Failing { read: 0, write: 0 };

fn source_of(alloc: Global, input: &[&str], fails: u64) -> Result<MemSource, AllocError> {
    let piece = if fails == 0 { 1000 } else { 16 };
    let fails = Vec::from_slice(alloc, &[fails])?;
    Ok(MemSource::new(joined(alloc, input)?.into_bytes(), piece, fails))
}

fn sink_for(alloc: Global, fails: u64) -> Result<MemSink, AllocError> {
    let piece = if fails == 0 { 1000 } else { 7 };
    Ok(MemSink::new(alloc, piece, Vec::from_slice(alloc, &[fails])?))
}

// The words of a call, its source and its sink.
#[derive(Drop)]
struct Scene {
    words: Vec<String>,
    source: MemSource,
    sink: MemSink,
}

impl Scene {
    fn of(
        alloc: Global,
        words: &[&str],
        input: &[&str],
        failing: Failing,
    ) -> Result<Scene, AllocError> {
        Ok(Scene {
            words: command_line(alloc, words)?,
            source: source_of(alloc, input, failing.read)?,
            sink: sink_for(alloc, failing.write)?,
        })
    }

    fn ended(&mut self, alloc: Global) -> Finish {
        top_alone(alloc, &self.words, &mut self.source, &mut self.sink)
    }

    // The same by callers and workers in threads.
    fn ended_by_team<R: Threads + Wait + Sync>(&mut self, rt: &R, alloc: Global) -> Finish {
        let Scene {
            words,
            source,
            sink,
        } = self;
        top(rt, alloc, words, source, sink, &OpenGate)
    }

    // Whether the sink took the text and there is no line for the status, or took nothing and that line is the text.
    fn tells(&self, alloc: Global, finish: &Finish, text: &str) -> Result<bool, Fail> {
        let line = fault_line(alloc, finish)?;
        Ok(is_either(self.sink.written(), &line, text.as_bytes()))
    }
}

fn is_either(one: &[u8], other: &[u8], text: &[u8]) -> bool {
    (one == text && other.is_empty()) || (one.is_empty() && other == text)
}

// How a call with an input ends. The input is given in pieces.
pub(crate) fn ended(
    alloc: Global,
    words: &[&str],
    input: &[&str],
    failing: Failing,
) -> Result<Finish, Fail> {
    Ok(Scene::of(alloc, words, input, failing)?.ended(alloc))
}

// The same with a source and a sink that never fail.
pub(crate) fn finish_of(alloc: Global, words: &[&str], input: &[&str]) -> Result<Finish, Fail> {
    ended(alloc, words, input, NONE_FAILS)
}

// Whether a call ends with that status, and that text is written for it.
fn ends_so(
    alloc: Global,
    words: &[&str],
    input: &[&str],
    failing: Failing,
    status: u8,
    text: &str,
) -> Result<bool, Fail> {
    let mut scene = Scene::of(alloc, words, input, failing)?;
    let finish = scene.ended(alloc);
    Ok(finish.status == status && scene.tells(alloc, &finish, text)?)
}

fn ends_so_by_team<R: Threads + Wait + Sync>(
    rt: &R,
    alloc: Global,
    words: &[&str],
    input: &[&str],
    status: u8,
    text: &str,
) -> Result<bool, Fail> {
    let mut scene = Scene::of(alloc, words, input, NONE_FAILS)?;
    let finish = scene.ended_by_team(rt, alloc);
    Ok(finish.status == status && scene.tells(alloc, &finish, text)?)
}

// Checks how a call with an input ends, and what is written for it.
pub(crate) fn check(
    rt: &impl Abort,
    alloc: Global,
    words: &[&str],
    input: &[&str],
    status: u8,
    text: &str,
) -> Result<(), Fail> {
    assert!(rt;
        ends_so(alloc, words, input, NONE_FAILS, status, text)?,
        "{input:?}"
    );
    Ok(())
}

// The same of `alone`, where a read or a write fails.
pub(crate) fn check_failing(
    rt: &impl Abort,
    alloc: Global,
    input: &[&str],
    failing: Failing,
    status: u8,
    text: &str,
) -> Result<(), Fail> {
    let Failing { read, write } = failing;
    assert!(rt;
        ends_so(alloc, &["alone"], input, failing, status, text)?,
        "{read} {write}"
    );
    Ok(())
}

// The same with callers and workers in threads.
pub(crate) fn check_team<R: Abort + Threads + Wait + Sync>(
    rt: &R,
    alloc: Global,
    words: &[&str],
    input: &[&str],
    status: u8,
    text: &str,
) -> Result<(), Fail> {
    assert!(rt;
        ends_so_by_team(rt, alloc, words, input, status, text)?,
        "{words:?}"
    );
    Ok(())
}

// Checks what a call with these words writes for each program, with what stands between it and each script, and the script.
pub(crate) fn all_write(
    rt: &impl Abort,
    alloc: Global,
    words: &[&str],
    between: &str,
    cases: &[(&str, &str, &str)],
) -> Result<(), Fail> {
    for &(program, script, text) in cases {
        check(rt, alloc, words, &[program, between, script], 0, text)?;
    }
    Ok(())
}

// Checks that an input is refused, with that line and kind.
pub(crate) fn refused(
    rt: &impl Abort,
    alloc: Global,
    input: &[&str],
    offence: &str,
) -> Result<(), Fail> {
    let line = joined(alloc, &["line ", offence, "\n"])?;
    check(rt, alloc, &["alone"], input, 3, line.as_str())?;
    check(rt, alloc, &["format"], input, 3, line.as_str())
}

// Checks that each input with this beginning is refused.
pub(crate) fn all_refused(
    rt: &impl Abort,
    alloc: Global,
    beginning: &str,
    cases: &[(&str, &str)],
) -> Result<(), Fail> {
    for &(end, offence) in cases {
        refused(rt, alloc, &[beginning, end], offence)?;
    }
    Ok(())
}
