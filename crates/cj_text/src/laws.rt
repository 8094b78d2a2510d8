//! What texts are read as. The bodies visit all parts of a value, or do nothing.

ghost use Rattle.std.specs.Prelude.{◌≡◌, Ok, Result};
ghost use Rattle.cj_ir.specs.WellFormed.{IsWellFormed};
ghost use Rattle.cj_ir.specs.declared.script.Input.{Input};
ghost use Rattle.cj_tokens.specs.declared.refusal.Refused.{Refused};
ghost use Rattle.cj_script.specs.Fitting.{FitsScript};
ghost use Rattle.cj_printer.specs.Canonical.{input_text, program_text};
ghost use Rattle.cj_text.specs.Reads.{Reads};
ghost use Rattle.cj_text.specs.Canonical.{SpellsProgram};

use crate::written::{visit_program, visit_script};
use cj_ir::{Checked, Input};

/// The canonical text of an input is read as that input, and as nothing else. Its script fits its program.
pub fn printed_is_read(input: &Input)
    requires { FitsScript input.now.checked input.now.script }
    ensures reads { Reads (input_text input.now) (Ok input.now) }
    ensures only { (answer : Result Input Refused) → Reads (input_text input.now) answer → answer ≡ Ok input.now }
{
    visit_program(input.checked.program());
    visit_script(&input.script);
}

/// The canonical text of a program is functions and the end, which mean that program.
pub fn printed_program_is_read(checked: &Checked)
    ensures { SpellsProgram (program_text checked.now) checked.now }
{
    visit_program(checked.program());
}

/// What bytes are read as: no other thing, a well-formed program, and a script that fits it.
pub fn read_input_fits(bytes: &[u8])
    ensures only { (input : Input) (answer : Result Input Refused) → Reads bytes.now (Ok input) → Reads bytes.now answer → answer ≡ Ok input }
    ensures well_formed { (input : Input) → Reads bytes.now (Ok input) → IsWellFormed input.checked }
    ensures fits { (input : Input) → Reads bytes.now (Ok input) → FitsScript input.checked input.script }
{}
