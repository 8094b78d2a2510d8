//! Codes read from 64-bit words.
#![tactic(auto)]

pub mod codes;
pub mod instructions;
pub mod items;
pub mod laws;
pub mod operands;
pub mod places;
pub mod points;
pub mod reader;

pub use cj_spelling::encode;
pub use codes::decode;
