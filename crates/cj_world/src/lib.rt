//! Plays of events: runs that begin and make steps, and functions that are compiled meanwhile.
#![tactic(auto)]

mod cache;
pub mod laws;
mod played;
mod plays;
mod runs;
mod world;

pub use cj_events::{Event, Events, parse_replay};
pub use played::{Compiled, CompiledList, Played, SkipLists};
pub use plays::{play, play_in};
