//! Assumes directly after Anchors.
#![tactic(auto)]

pub mod assumes;
pub mod laws;
pub mod offences;
pub mod places;

pub use assumes::immediate;
