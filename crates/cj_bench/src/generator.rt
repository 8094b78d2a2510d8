//! The input that a number stands for.

ghost use Rattle.std.specs.Prelude.{◌≡◌, IfOk};
ghost use Rattle.cj_ir.specs.WellFormed.{IsWellFormed};
ghost use Rattle.cj_script.specs.Fitting.{FitsScript};
ghost use Rattle.cj_bench.specs.Generated.{generated, generated_text};

use crate::draws::Draws;
use crate::functions::drawn_functions;
use crate::scripts::drawn_calls;
use cj_ir::{Checked, Input, NoMemory, Program, Script, Setups, check};
use cj_printer::print_input;
use std::alloc::Global;

/// The input of a number.
///
/// Its program has 32 functions, `f0` to `f31`, each of which calls the next one, and its script 256 calls of `f0`,
/// each with 64 cells and a limit of 15,000 turns. All constants and arguments are drawn, one behind the other,
/// from the number on. A draw replaces a state `x`, at first the number, by `(x * 1103515245 + 12345) % 2147483648`,
/// and gives the new state divided by 65,536, rounded down.
///
/// A function draws its factor (`% 97 + 1`), its divisor (`% 89 + 2`), its bound (`% 89`) and its cell (`% 64`); a
/// call draws its two arguments (`% 1000` and `% 5`).
#[tactic(auto, unfolding(crate::specs::Generated::generated, crate::specs::Generated::generated_program, crate::specs::Generated::generated_script))]
pub fn generated(alloc: Global, number: u32) -> Result<Input, NoMemory>
    ensures input { IfOk result (λ input. input ≡ generated number) }
    ensures fits { IfOk result (λ input. FitsScript input.checked input.script) }
{
    let mut draws = Draws { state: number };
    let functions = drawn_functions(alloc, &mut draws)?;
    let calls = drawn_calls(alloc, &mut draws)?;
    let setups = Setups::new(alloc);
    Ok(Input {
        checked: checked(Program { functions }),
        script: Script { setups, calls },
    })
}

fn checked(program: Program) -> Checked
    requires { IsWellFormed program }
    ensures { result ≡ program }
{
    match check(program) {
        Ok(checked) => checked,
        Err(_offence) => unreachable!(),
    }
}

/// The canonical text of the input of a number.
#[tactic(auto, unfolding(crate::specs::Generated::generated_text))]
pub fn generate(alloc: Global, number: u32) -> Result<Vec<u8>, NoMemory>
    ensures { IfOk result (λ text. text.items ≡ generated_text number) }
{
    let input = generated(alloc, number)?;
    print_input(alloc, &input)
}
