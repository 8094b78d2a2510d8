//! The base machine: configurations of a program, their turns, and the run of a call.
#![tactic(auto)]

pub mod calls;
pub mod entry;
pub mod laws;
pub mod machine;
pub mod turns;

pub use calls::{Outcome, run};
pub use entry::entry_frame;
pub use machine::{Config, End, Frame, Stack, Turned, Waiting, Waitings};
