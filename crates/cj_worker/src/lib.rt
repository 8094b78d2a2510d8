//! A worker's side: jobs are taken from a profile, and versions are put into the code table.
#![tactic(auto)]

mod making;
mod putting;
mod tasks;
mod turns;
pub mod worker;

pub use worker::Worker;
