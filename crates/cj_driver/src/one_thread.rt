//! The top call on one thread.

ghost use Rattle.std.specs.Prelude.{◌≡◌, map, ℕ, List, Option};
ghost use Rattle.std.specs.String.{string_bytes};
ghost use Rattle.cj_events.specs.Replays.{ReadsReplay};
ghost use Rattle.cj_text.specs.Reads.{Reads};
ghost use Rattle.cj_driver.specs.Commands.{command_of};
ghost use Rattle.cj_driver.specs.Outside.{outside};
ghost use Rattle.cj_driver.specs.Answers.{Answers, AnswersUnread, ByWords};
ghost use Rattle.cj_driver.specs.Steps.{EndsWithoutWords};
ghost use Rattle.cj_driver.specs.Texts.{ReadsAs, Owes, OwesOnInput, OwesPlay, OwesSummary};

use crate::command::{Command, Job, Task};
use crate::finish::Finish;
use crate::finishing::{finish_bench, finish_input, finish_replay, finish_stop};
use crate::reading::{read_input, read_replay};
use crate::words::WordsError;
use cj_io::{Sink, Source};
use std::alloc::Global;

/// Reads a text from the source, does what the words ask, and writes the answer to the sink.
///
/// The words are one of the forms `alone`, `alone stats`, `format`, `replay`, `replay stats` and `bench N`, where N is one to
/// six digits.
/// Nothing is written before all runs have ended, so every status but 0 and 5 has written nothing.
///
/// With status 0 the source was read to its end, and the sink took the whole text; with 5, write fault, a prefix
/// of it. For `alone` there is one report for each call of the script, in order; for `replay` one for each run that begins,
/// and they are those of the play of the events, each the versioned run's over the versions that were compiled. Its prints are those of the base
/// run after the report's count of base turns, its end is that run's, and the turn limit is answered exactly
/// where as many turns were made as the call allows and that run goes on.
///
/// For `bench N` nothing is read: the input is the generated one of the number N, there is one report for each of its
/// calls, as for `alone`, and the sink takes their summary. The status is 0, 5 or 6.
///
/// The other statuses: 2 exactly where the words are no form; 3 exactly where the bytes are no text of the command, with the
/// first offence in `refused`; 4 exactly where the source's count of faults rose, which it did by one, and at most 4,194,304
/// bytes were taken; 5 exactly where the sink's count rose, by one; 7 exactly where the source gave more than 4,194,304 bytes,
/// want of memory aside; 6 where memory was wanted, at any time. Where the bytes are such a text and no fault is counted, the
/// status is 0 or 6.
pub fn top_alone<S: Source, K: Sink>(
    alloc: Global,
    words: &[String],
    source: &mut S,
    sink: &mut K,
) -> Finish
    ensures { ByWords (command_of (map string_bytes words.now)) (outside (S.left source.old) (S.left source.new) (K.written sink.old) (K.written sink.new) (S.faults source.old) (S.faults source.new) (K.faults sink.old) (K.faults sink.new)) result }
{
    match Command::of(words) {
        Some(Command::OnText(task)) => answer_task(alloc, task, source, sink),
        Some(Command::Bench { number }) => answer_bench(alloc, number, sink),
        None => Finish::stopped(alloc, 2, None),
    }
}

/// How a call ends whose words are not known: as usage, status 2, where one of them is not UTF-8, and else with status 6.
pub fn answer_without_words(alloc: Global, error: WordsError) -> Finish
    ensures { EndsWithoutWords error result }
{
    match error {
        WordsError::NotText => Finish::stopped(alloc, 2, None),
        WordsError::NoMemory => Finish::stopped(alloc, 6, None),
    }
}

/// What is answered for a text of the source.
fn answer_task<S: Source, K: Sink>(
    alloc: Global,
    task: Task,
    source: &mut S,
    sink: &mut K,
) -> Finish
    ensures { Answers (ReadsAs task) (Owes task) (outside (S.left source.old) (S.left source.new) (K.written sink.old) (K.written sink.new) (S.faults source.old) (S.faults source.new) (K.faults sink.old) (K.faults sink.new)) result }
{
    match task {
        Task::OnInput(job) => answer_input(alloc, job, source, sink),
        Task::OnReplay { stats } => answer_replay(alloc, stats, source, sink),
    }
}

/// What is answered for an input.
fn answer_input<S: Source, K: Sink>(alloc: Global, job: Job, source: &mut S, sink: &mut K) -> Finish
    ensures { Answers Reads (OwesOnInput job) (outside (S.left source.old) (S.left source.new) (K.written sink.old) (K.written sink.new) (S.faults source.old) (S.faults source.new) (K.faults sink.old) (K.faults sink.new)) result }
{
    match read_input(alloc, source) {
        Ok(input) => finish_input(alloc, job, &input, sink),
        Err(stop) => finish_stop(alloc, stop),
    }
}

/// What is answered for a replay.
fn answer_replay<S: Source, K: Sink>(
    alloc: Global,
    stats: bool,
    source: &mut S,
    sink: &mut K,
) -> Finish
    ensures { Answers ReadsReplay (OwesPlay stats) (outside (S.left source.old) (S.left source.new) (K.written sink.old) (K.written sink.new) (S.faults source.old) (S.faults source.new) (K.faults sink.old) (K.faults sink.new)) result }
{
    match read_replay(alloc, source) {
        Ok((checked, events)) => finish_replay(alloc, stats, &checked, &events, sink),
        Err(stop) => finish_stop(alloc, stop),
    }
}

/// What is answered for the bench of a number, whatever the source is.
fn answer_bench<K: Sink>(alloc: Global, number: u32, sink: &mut K) -> Finish
    ensures { (given : Option (List ℕ)) (reads : ℕ) → AnswersUnread (OwesSummary number) (outside given given (K.written sink.old) (K.written sink.new) reads reads (K.faults sink.old) (K.faults sink.new)) result }
{
    finish_bench(alloc, number, sink)
}
