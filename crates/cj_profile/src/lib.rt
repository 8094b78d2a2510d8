//! What running code counts, and the levels that it asks for, in words that threads share.
#![tactic(auto)]

pub mod callers;
pub mod counts;
pub mod hints;
pub mod jobs;
pub mod layout;
pub mod levels;
pub mod plays;
pub mod profile;
pub mod snapshot;
pub mod steps;
pub mod view;

pub use jobs::JobAnswer;
pub use layout::Word;
pub use profile::{Profile, ProfileSeat};
pub use snapshot::{EdgeNote, EdgeNotes, ParamNote, ParamNotes, Snapshot};
pub use view::{Read, View};
