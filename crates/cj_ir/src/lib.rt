//! The register language: its types, the value of an expression, and the check of a program.
#![tactic(auto)]

pub mod checker;
pub mod duplicate;
pub mod language;
pub mod limits;
pub mod memory;
pub mod script;
pub mod sequence;
pub mod texts;
pub mod values;

pub use checker::{CheckError, Checked, Fault, check};
pub use duplicate::Duplicate;
pub use language::{
    Edge, Expr, FunId, Function, Functions, Guard, Guards, Instr, Label, Labels, Line, Lines,
    Names, Operand, Operands, Program, Reg, Values,
};
pub use memory::NoMemory;
pub use script::{Input, Script, ScriptCall, ScriptCalls, Setup, Setups};
pub use sequence::{Sequence, zeros};
pub use texts::{Name, Text};
pub use values::{eval, operand_values};
