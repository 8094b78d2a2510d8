//! Reports of calls, and their text.
#![tactic(auto)]

pub mod report;
pub mod text;

pub use report::{Look, Looks, MAX_NOTES, Note, Notes, Report, Reports};
pub use text::{block_of, text_of};
