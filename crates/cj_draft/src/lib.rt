//! Drafts and versions: rewritten bodies of a function, and what makes one sound.
#![tactic(auto)]

pub mod base_body;
pub mod code;
pub mod drafts;
pub mod edges;
pub mod facts;
pub mod frames;
pub mod instructions;
pub mod laws;
pub mod limits;
pub mod passes;
pub mod points;
pub mod versions;

pub use code::{Back, Backs, Code, Place, Places};
pub use drafts::Draft;
pub use edges::{Successors, led_to};
pub use facts::{Fact, FactList, FactTable, Facts};
pub use instructions::{Pair, Pairs, VInstr};
pub use passes::{Pass, Passes, Room, Skipped, Skips, told};
pub use points::{Frames, Point, PointFrame};
pub use versions::Version;
