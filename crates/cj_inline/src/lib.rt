//! Inlining on drafts.
#![tactic(auto)]

pub mod entries;
pub mod inlining;
pub mod laws;
pub mod offences;
pub mod places;
pub mod seams;
pub mod shifts;

pub use inlining::inline;
pub use offences::called_at;
