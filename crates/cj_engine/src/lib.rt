//! The engine, which runs base bodies and versions.
#![tactic(auto)]

pub mod calls;
pub mod engine;
mod places;
mod runner;
mod stretches;
pub mod watch;

pub use calls::{run, run_from};
pub use engine::{Engine, Ran};
pub use watch::Watch;
