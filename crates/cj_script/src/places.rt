//! Parameters and labels by what a script calls them.

ghost use Rattle.std.specs.Prelude.{◌≡◌, ◌<◌, ◌≤◌, ◌^◌, length, position, slice_get, Some, IfSome};
ghost use Rattle.cj_tokens.specs.Seen.{seen};
ghost use Rattle.cj_grammar.specs.Readers.{Found};
ghost use Rattle.cj_script.specs.Meaning.{is_numbered, is_cond, parameter_named, parameter_offences, parameter_of, label_offences, label_of};
ghost use Rattle.cj_script.specs.Reading.{judged};

use cj_grammar::refused;
use cj_ir::limits::{MAX_LABELS, MAX_NAME};
use cj_ir::{Function, Instr, Label, Line};
use cj_tokens::{Kind, Lexeme, ParseError};

fn parameter_named(function: &Function, name: Lexeme<'_>) -> Option<usize>
    ensures place { result ≡ parameter_named function.now (seen name.entry) }
    ensures within { IfSome result (λ k. k < 2 ^ 32) }
{
    let count = function.params as usize;
    function
        .regs
        .items()
        .iter()
        .take(count)
        .position(|parameter| parameter.bytes() == name.text)
}

/// The number of the parameter that a name names.
pub fn parameter_place(function: &Function, name: Lexeme<'_>) -> Result<u32, ParseError>
    ensures { Found result (judged (parameter_offences (Some function.now) (seen name.entry)) (parameter_of (Some function.now) (seen name.entry))) }
{
    if name.text.len() > MAX_NAME {
        return Err(refused(name, Kind::TooMany));
    }
    match parameter_named(function, name) {
        Some(place) => Ok(place as u32),
        None => Err(refused(name, Kind::NoRegister)),
    }
}

fn line_numbered(function: &Function, number: Lexeme<'_>) -> Option<usize>
    ensures place { result ≡ position (is_numbered (seen number.entry)) function.now.code }
    ensures within { IfSome result (λ k. k < length function.now.code) }
{
    function
        .code
        .items()
        .iter()
        .position(|line| line.name as i64 == number.number)
}

fn line_at(function: &Function, place: usize) -> &Line
    requires { place < length function.now.code }
    ensures { slice_get function.now.code place ≡ Some result.now }
{
    &function.code.items()[place]
}

fn is_cond(instr: &Instr) -> bool
    ensures { result ≡ is_cond instr.now }
{
    matches!(instr, Instr::Cond { .. })
}

/// The label of the `cond` that a number numbers.
pub fn cond_place(function: &Function, number: Lexeme<'_>) -> Result<Label, ParseError>
    requires { length function.now.code ≤ MAX_LABELS }
    ensures { Found result (judged (label_offences (Some function.now) (seen number.entry)) (label_of (Some function.now) (seen number.entry))) }
{
    match line_numbered(function, number) {
        None => Err(refused(number, Kind::NoLabel)),
        Some(place) => {
            if is_cond(&line_at(function, place).instr) {
                Ok(Label(place as u32))
            } else {
                Err(refused(number, Kind::NotCond))
            }
        }
    }
}
