//! The calls of a script in threads of callers, with workers beside them.
#![tactic(auto)]

mod caller;
mod dealing;
mod gathering;
mod joining;
mod role;
mod run;
mod slots;
mod worker;

pub use run::{TABLE_SIZE, run_roles};
