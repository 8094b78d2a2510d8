//! Constant propagation: the strongest constant facts of a draft, and the draft folded over them.
#![tactic(auto)]

pub mod facts;
pub mod flow;
pub mod folding;
pub mod instructions;
pub mod knowledge;
pub mod laws;
pub mod search;

pub use folding::{fold, fold_over};
pub use search::strongest;
