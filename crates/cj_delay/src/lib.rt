//! Delayed Assumes: at the end of a path that an Anchor begins.
#![tactic(auto)]

pub mod delays;
pub mod edges;
pub mod laws;
pub mod paths;

pub use delays::delayed;
