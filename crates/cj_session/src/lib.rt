//! A caller's side: calls run over the versions that a shared table has, and counted in a shared profile.
#![tactic(auto)]

mod counting;
mod finding;
pub mod laws;
pub mod session;
pub mod versions;
pub mod watch;

pub use session::Session;
pub use versions::Versions;
