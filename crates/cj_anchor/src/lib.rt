//! Anchors before labels.
#![tactic(auto)]

pub mod anchors;
pub mod laws;

pub use anchors::insert_anchors;
