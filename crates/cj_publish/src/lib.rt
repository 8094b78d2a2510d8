//! A table of versions that threads share: a version's words are claimed, written, and made current by one exchange.
#![tactic(auto)]

pub mod calls;
mod contexts;
mod plays;
pub mod publishing;
pub mod seats;
pub mod steps;
pub mod view;

pub use publishing::{Claim, Published};
pub use seats::{CodeSeat, CodeTable};
pub use view::Cell;
