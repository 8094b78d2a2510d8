//! The programs of texts: what functions mean, and the offences of their tokens.
#![tactic(auto)]

mod calls;
mod counts;
mod declarations;
mod functions;
mod instructions;
mod lines;
mod memory;
mod names;
mod operands;
mod operators;
mod prescan;
mod program;
mod refusals;
mod scope;
mod tables;
mod words;

pub use program::read_program;
