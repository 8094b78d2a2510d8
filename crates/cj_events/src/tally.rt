//! What the events so far come to.

ghost use Rattle.std.specs.Prelude.{◌≡◌, []};
ghost use Rattle.cj_events.specs.Tallies.{tally_of, IsWithin};
ghost use Rattle.cj_events.specs.OneEvent.{counted};

use crate::events::Event;

/// The runs that have begun, the sum of their limits, the sum of all step counts, and the number of compilations.
#[derive(Clone, Copy, Debug, PartialEq, Eq)]
pub struct Tally {
    pub runs: u32,
    pub limits: u32,
    pub counts: u32,
    pub compiles: u32,
}

/// What no events come to.
#[tactic(auto, unfolding(crate::specs::Tallies::tally_of))]
pub fn nothing() -> Tally
    ensures events { result ≡ tally_of [] }
    ensures within { IsWithin result }
{
    Tally {
        runs: 0,
        limits: 0,
        counts: 0,
        compiles: 0,
    }
}

/// One event more.
#[tactic(auto, unfolding(crate::specs::OneEvent::counted))]
pub fn counted(tally: Tally, event: &Event) -> Tally
    requires { IsWithin (counted tally event.now) }
    ensures { result ≡ counted tally event.now }
{
    match event {
        Event::Begin(call) => Tally {
            runs: tally.runs + 1,
            limits: tally.limits + call.limit,
            ..tally
        },
        Event::Step { count, .. } => Tally {
            counts: tally.counts + *count,
            ..tally
        },
        Event::Compile { .. } => Tally {
            compiles: tally.compiles + 1,
            ..tally
        },
    }
}
