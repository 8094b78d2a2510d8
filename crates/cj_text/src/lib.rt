//! Texts: programs with their scripts, read and printed, and that what is printed is read again as the same.
//!
//! Of an input it is asked that its script fits its program, as each script does that is read: the functions,
//! parameters and `cond`s that it names exist, calls have as many arguments as there are parameters, and levels,
//! cells, limits, the number of calls and the sum of the limits are within their bounds.
#![tactic(auto)]

mod again;
pub mod laws;
mod parsing;
mod texts;
mod written;

pub use again::{read_back, read_program_back};
pub use cj_grammar::Shape;
pub use cj_ir::{Input, Script, ScriptCall, Setup};
pub use cj_printer::{print, print_input};
pub use cj_reader::read_program;
pub use cj_tokens::{Kind, ParseError, Piece, Refused, Token, Tokens};
pub use parsing::parse;
pub use texts::canonical_text;
