//! Lists threaded by index: the edges into each label, the uses of each register, and the labels that wait.
#![tactic(auto)]

pub mod edges;
pub mod uses;
pub mod worklist;

pub use edges::{EdgeId, EdgeLists};
pub use uses::{UseId, UseLists};
pub use worklist::Worklist;
