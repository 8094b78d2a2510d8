//! The canonical text of programs and inputs.
#![tactic(auto)]

mod functions;
mod instructions;
mod names;
pub mod pieces;
mod scripts;

ghost use Rattle.std.specs.Prelude.{◌≡◌, IfOk};
ghost use Rattle.cj_printer.specs.Canonical.{program_text, input_text};

use crate::functions::push_functions;
use crate::scripts::push_script;
use cj_ir::{Checked, Input, NoMemory};
use std::alloc::Global;

/// The canonical text of a program: a line `fun NAME(P, P; R, R) {` for each function, its lines, and `}`.
///
/// One blank stands between the tokens of a line, but none before `,`, `;`, `:`, `)` and `]`, none behind `[`, and
/// none round the `(` of a function. Where a function has no other registers than its parameters, the part from
/// `;` on is left out. Numbers are plain decimals. Each line ends with a line feed.
pub fn print(alloc: Global, checked: &Checked) -> Result<Vec<u8>, NoMemory>
    ensures { IfOk result (λ text. text.items ≡ program_text checked.now) }
{
    let mut text = Vec::new(alloc);
    push_functions(&mut text, checked.program().functions.items())?;
    text.extend_from_slice(b"\n")?;
    Ok(text)
}

/// The canonical text of an input: its program's, a line `calls`, and a line for each setup and each call, in which
/// `memory` is always written.
pub fn print_input(alloc: Global, input: &Input) -> Result<Vec<u8>, NoMemory>
    ensures { IfOk result (λ text. text.items ≡ input_text input.now) }
{
    let mut text = Vec::new(alloc);
    let functions = input.checked.program().functions.items();
    push_functions(&mut text, functions)?;
    push_script(&mut text, functions, &input.script)?;
    text.extend_from_slice(b"\n")?;
    Ok(text)
}
