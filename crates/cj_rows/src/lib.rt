//! Rows of Assumes and Anchors, the room for one more, what is asked of guards, and edges that are led elsewhere.
#![tactic(auto)]

pub mod edges;
pub mod guards;
pub mod pairs;
pub mod places;
pub mod rooms;
pub mod rows;

pub use edges::{given, led_place};
pub use guards::{guards_offence, register_offence};
pub use pairs::{add_pair, has_pair, with_pair};
pub use places::{reversed, with_instr};
pub use rooms::room_offence;
pub use rows::{anchor_at, anchor_next, fresh_row, guard_at, guards_after, guards_before};
