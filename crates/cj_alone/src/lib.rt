//! The calls of a script on one thread, each followed by one work.
#![tactic(auto)]

mod preparing;
mod rounds;
mod running;
mod seats;

pub use preparing::prepare;
pub use running::alone_with;
