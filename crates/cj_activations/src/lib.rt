//! The activations of a run: what a stack of base frames and version frames is made of, with all registers in one list.
#![tactic(auto)]

pub mod activations;
pub mod windows;

pub use activations::Activations;
pub use windows::{Position, Waits};
