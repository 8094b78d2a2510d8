//! Values that are printed and read again.

ghost use Rattle.std.specs.Prelude.{◌≡◌, IfOk};
ghost use Rattle.cj_script.specs.Fitting.{FitsScript};

use crate::laws::{printed_is_read, printed_program_is_read};
use crate::{ParseError, Tokens, parse, print, print_input, read_program};
use cj_ir::{Checked, Input, NoMemory};
use std::alloc::Global;

/// The input that the canonical text of an input is read as: the same. Its script fits its program.
pub fn read_back(alloc: Global, input: &Input) -> Result<Input, NoMemory>
    requires { FitsScript input.now.checked input.now.script }
    ensures { IfOk result (λ again. again ≡ input.now) }
{
    printed_is_read(input);
    let text = print_input(alloc, input)?;
    match parse(alloc, text.as_slice()) {
        Ok(again) => Ok(again),
        Err(ParseError::NoMemory) => Err(NoMemory),
        Err(ParseError::Refused(_)) => unreachable!(),
    }
}

/// The program that the canonical text of a program is read as: the same.
pub fn read_program_back(alloc: Global, checked: &Checked) -> Result<Checked, NoMemory>
    ensures { IfOk result (λ again. again ≡ checked.now) }
{
    printed_program_is_read(checked);
    let text = print(alloc, checked)?;
    let mut tokens = Tokens::of(text.as_slice());
    match read_program(alloc, &mut tokens) {
        Ok(twin) => Ok(twin),
        Err(ParseError::NoMemory) => Err(NoMemory),
        Err(ParseError::Refused(_)) => unreachable!(),
    }
}
