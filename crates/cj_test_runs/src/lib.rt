//! Tests of runs: base turns, activations, the engine over versions, replays and their plays.
#![tactic(auto)]

#[cfg(test)]
mod activations;
#[cfg(test)]
mod base;
#[cfg(test)]
mod calls;
#[cfg(test)]
mod engine;
#[cfg(test)]
mod events;
#[cfg(test)]
mod world;
