//! The machine that runs base bodies and versions: its state, one instruction of it, and the laws of its runs.
#![tactic(auto)]

mod assumes;
pub mod laws;
pub mod machine;
pub mod scratch;
pub mod steps;

pub use machine::Machine;
pub use scratch::Scratch;
pub use steps::Step;
