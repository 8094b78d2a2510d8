//! Constant propagation by losses: the strongest constant facts of a draft, found by looking again only at labels that read
//! a register whose fact was lost, and the draft folded over them.
#![tactic(auto)]

pub mod folding;
pub mod guards;
pub mod instructions;
pub mod search;

pub use folding::fold;
pub use search::strongest;
