//! The grammar of texts: its rules as data, the readers that pass over its parts, and the first token that none of
//! its sentences has there.
//!
//! A reader `pass_x` has one clause: what it answers and where the tokens stand then is what `eat` gives of the rule
//! `x`. A later grammar has its rules as data, its own readers, and the same theorem on its first offence.
#![tactic(auto)]

mod functions;
mod instructions;
mod offences;
mod operands;
mod scripts;
mod sentences;

ghost use Rattle.cj_grammar.specs.Plain.{InputIsPlain};

pub use functions::pass_funs;
pub use offences::refused;
pub use scripts::pass_begun;
pub use sentences::{Shape, fits_input, refusal};

/// One token ahead decides the grammar of inputs.
pub fn input_is_plain()
    ensures { InputIsPlain }
{}
