//! `corejit`: reads a program and a script of calls from the standard input, and writes the prints and the end of
//! every call to the standard output. The words of the command line say what is done.
#![tactic(auto)]

use cj_driver::{Finish, advice, answer_without_words, command_words, fault_line, top, top_alone};
use cj_io::{OpenGate, StdSink, StdSource, WriterSink, write_whole};
use std::alloc::Global;
use std::process::ExitCode;
use std::sync::Wait;
use std::thread::Threads;

fn main(rt: HostRuntime) -> ExitCode {
    let mut sink = StdSink::new(rt.stdout());
    let finish = match command_words(&rt) {
        Ok(words) => {
            let mut source = StdSource::new(rt.stdin());
            answer(&rt, rt.alloc(), &words, &mut source, &mut sink)
        }
        Err(error) => answer_without_words(rt.alloc(), error),
    };
    if let Ok(line) = fault_line(rt.alloc(), &finish) {
        let _ = write_whole(&mut sink, &line);
    }
    let _ = write_whole(
        &mut WriterSink::new(rt.stderr()),
        advice(&finish).as_bytes(),
    );
    ExitCode::from(finish.status)
}

// Words that ask for callers and workers are answered with threads.
fn answer<R: Threads + Wait + Sync>(
    rt: &R,
    alloc: Global,
    words: &[String],
    source: &mut StdSource,
    sink: &mut StdSink,
) -> Finish {
    if asks_for_threads(words) {
        top(rt, alloc, words, source, sink, &OpenGate)
    } else {
        top_alone(alloc, words, source, sink)
    }
}

// The first word is `run`, or it is `bench` and there are four words.
fn asks_for_threads(words: &[String]) -> bool {
    match words.first() {
        Some(word) => {
            word.as_bytes() == "run".as_bytes()
                || word.as_bytes() == "bench".as_bytes() && words.len() == 4
        }
        None => false,
    }
}
