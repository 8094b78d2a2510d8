//! Generated programs with their scripts, and the summary of what these answer.
#![tactic(auto)]

mod draws;
mod functions;
mod generator;
pub mod laws;
mod scripts;
mod summary;

pub use generator::{generate, generated};
pub use summary::summary_of;
