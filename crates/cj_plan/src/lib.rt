//! The plan: which passes a function's profile asks for at a level.
#![tactic(auto)]

pub mod colds;
pub mod guards;
pub mod inlines;
pub mod limits;
pub mod plans;

pub use plans::plan;
