//! The script of a text, read behind its program.
#![tactic(auto)]

mod begun;
mod calls;
mod judge;
pub mod limits;
mod places;
mod script;
mod setups;

pub use begun::read_begun;
pub use judge::{function_id, number_within};
pub use script::read_script;
