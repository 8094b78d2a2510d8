//! Codes in 64-bit words: the one spelling of each.
#![tactic(auto)]

pub mod codes;
pub mod counts;
pub mod instructions;
pub mod kinds;
pub mod laws;
pub mod operands;
pub mod places;
pub mod points;
pub mod spelled;

pub use codes::{EncodeError, MAX_WORDS, encode, word_count};
pub use kinds::{ExprKind, InstrKind};
pub use spelled::{Spelled, Words};
