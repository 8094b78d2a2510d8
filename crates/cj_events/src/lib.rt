//! Replays: a program with the events that happen to its runs, read from a text.
#![tactic(auto)]

mod event_grammar;
mod events;
mod guards;
mod judge;
mod labels;
pub mod limits;
mod pass_grammar;
mod passes;
mod readers;
mod replays;
mod tally;

pub use events::{Event, Events};
pub use replays::parse_replay;
