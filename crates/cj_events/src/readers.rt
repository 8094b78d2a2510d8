//! The events of a replay.

ghost use Rattle.std.specs.Prelude.{◌≡◌, ◌≤◌, [], length, IfOk};
ghost use Rattle.cj_tokens.specs.Left.{left, source};
ghost use Rattle.cj_grammar.specs.Readers.{Gives};
ghost use Rattle.cj_events.specs.Reading.{begin_at, step_at, compile_at, event_at, is_event, events_at};
ghost use Rattle.cj_events.specs.Tallies.{IsWithin};
ghost use Rattle.cj_events.specs.OneEvent.{counted};

use crate::events::{Event, Events};
use crate::judge::{run_number, step_count};
use crate::limits::MAX_EVENTS;
use crate::passes::read_passes;
use crate::tally::{Tally, counted, nothing};
use cj_grammar::refused;
use cj_ir::Function;
use cj_ir::limits::MAX_FUNCTIONS;
use cj_script::{function_id, read_begun};
use cj_tokens::{Kind, ParseError, Terminal, Tokens};
use std::alloc::Global;

/// The beginning of a run.
#[tactic(auto, unfolding(crate::specs::Reading::begin_at, crate::specs::OneEvent::counted))]
fn read_begin(
    alloc: Global,
    tokens: &mut Tokens<'_>,
    functions: &[Function],
    tally: Tally,
) -> Result<Event, ParseError>
    requires few { length functions.now ≤ MAX_FUNCTIONS }
    requires within { IsWithin tally }
    ensures gives { Gives result (left tokens.new) (begin_at functions.now tally (left tokens.old)) }
    ensures source { source tokens.new ≡ source tokens.old }
    ensures within { IfOk result (λ event. IsWithin (counted tally event)) }
{
    let word = tokens.take();
    if tally.runs >= MAX_EVENTS {
        return Err(refused(word, Kind::TooMany));
    }
    let call = read_begun(alloc, tokens, functions, tally.limits)?;
    Ok(Event::Begin(call))
}

/// Steps of a run that has begun.
#[tactic(auto, unfolding(crate::specs::Reading::step_at, crate::specs::OneEvent::counted))]
fn read_step(tokens: &mut Tokens<'_>, tally: Tally) -> Result<Event, ParseError>
    requires within { IsWithin tally }
    ensures gives { Gives result (left tokens.new) (step_at tally (left tokens.old)) }
    ensures source { source tokens.new ≡ source tokens.old }
    ensures within { IfOk result (λ event. IsWithin (counted tally event)) }
{
    let _word = tokens.take();
    let run = tokens.take();
    let count = tokens.take();
    let run = run_number(tally.runs, run)?;
    let count = step_count(tally.counts, count)?;
    Ok(Event::Step { run, count })
}

/// A function and its passes.
#[tactic(auto, unfolding(crate::specs::Reading::compile_at, crate::specs::Reading::compiled_at, crate::specs::OneEvent::counted))]
fn read_compile(
    alloc: Global,
    tokens: &mut Tokens<'_>,
    functions: &[Function],
    tally: Tally,
) -> Result<Event, ParseError>
    requires few { length functions.now ≤ MAX_FUNCTIONS }
    requires within { IsWithin tally }
    ensures gives { Gives result (left tokens.new) (compile_at functions.now tally (left tokens.old)) }
    ensures source { source tokens.new ≡ source tokens.old }
    ensures within { IfOk result (λ event. IsWithin (counted tally event)) }
{
    let word = tokens.take();
    if tally.compiles >= MAX_EVENTS {
        return Err(refused(word, Kind::TooMany));
    }
    let name = tokens.take();
    let _open = tokens.take();
    let function = function_id(functions, name)?;
    let passes = read_passes(alloc, tokens)?;
    let _close = tokens.take();
    Ok(Event::Compile { function, passes })
}

/// An event behind others that come to this.
#[tactic(auto, unfolding(crate::specs::Reading::event_at))]
fn read_event(
    alloc: Global,
    tokens: &mut Tokens<'_>,
    functions: &[Function],
    tally: Tally,
) -> Result<Event, ParseError>
    requires few { length functions.now ≤ MAX_FUNCTIONS }
    requires within { IsWithin tally }
    ensures gives { Gives result (left tokens.new) (event_at functions.now tally (left tokens.old)) }
    ensures source { source tokens.new ≡ source tokens.old }
    ensures within { IfOk result (λ event. IsWithin (counted tally event)) }
{
    match tokens.peek() {
        Terminal::Begin => read_begin(alloc, tokens, functions, tally),
        Terminal::Step => read_step(tokens, tally),
        _ => read_compile(alloc, tokens, functions, tally),
    }
}

/// An event stands next.
fn is_event(tokens: &Tokens<'_>) -> bool
    ensures { result ≡ is_event (left tokens.now) }
{
    tokens.is_at(Terminal::Begin) || tokens.is_at(Terminal::Step) || tokens.is_at(Terminal::Compile)
}

/// The events that stand next.
#[tactic(auto, using(crate::proofs::EventTurns::events_turn, crate::proofs::EventTurns::events_fail, crate::proofs::EventTurns::events_stop, crate::proofs::EventTurns::event_shorter, crate::proofs::Tallied::tally_more))]
pub fn read_events(
    alloc: Global,
    tokens: &mut Tokens<'_>,
    functions: &[Function],
) -> Result<Events, ParseError>
    requires { length functions.now ≤ MAX_FUNCTIONS }
    ensures gives { Gives result (left tokens.new) (events_at functions.now [] (left tokens.old)) }
    ensures source { source tokens.new ≡ source tokens.old }
{
    let mut events = Events::new(alloc);
    let mut tally = nothing();
    'events: while is_event(tokens) {
        let event = match read_event(alloc, tokens, functions, tally) {
            Ok(event) => event,
            Err(error) => return Err(error),
        };
        tally = counted(tally, &event);
        match events.push(event) {
            Ok(()) => {}
            Err(_) => return Err(ParseError::NoMemory),
        }
    }
    Ok(events)
}
