//! The pipeline: passes over a base body, and the lowering of what they make to a version.
#![tactic(auto)]

pub mod laws;
pub mod lowering;
pub mod pipelines;
pub mod reach;
pub mod skips;

pub use lowering::lower;
pub use pipelines::pipeline;
