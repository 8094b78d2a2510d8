//! What calls leave with their seats: lookups, versions read whole, and steps on the profile.
#![tactic(auto)]

pub mod laws;
