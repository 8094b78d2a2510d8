//! Inputs from their bytes.

ghost use Rattle.std.specs.Prelude.{◌≡◌, Ok, Err, IfOk, IfErr, List, ℕ};
ghost use Rattle.cj_tokens.specs.Left.{left, source};
ghost use Rattle.cj_grammar.specs.Grammar.{Tree, leaves, IsSentence};
ghost use Rattle.cj_grammar.specs.Rules.{input};
ghost use Rattle.cj_grammar.specs.Sentences.{Agrees};
ghost use Rattle.cj_script.specs.Fitting.{FitsScript};
ghost use Rattle.cj_text.specs.Reads.{Reads, input_offences, input_of};
ghost use Rattle.cj_text.specs.Answers.{IsParseError, IsOnlyReading};

use cj_grammar::fits_input;
use cj_ir::Input;
use cj_reader::read_program;
use cj_script::read_script;
use cj_tokens::{ParseError, Tokens};
use std::alloc::Global;

/// The input that the bytes are: the functions of a program, the word `calls`, and a script.
///
/// Refused: exactly where the bytes are no input, with the line and the kind of their first offence. First come the
/// characters, the numbers and the syntax: the first token with which the tokens so far begin no text. Where there
/// is no such token, it is the first token, from the left, that offends otherwise, and the highest of its offences.
#[tactic(auto, using(crate::proofs::Readings::meant, crate::proofs::Readings::offended, crate::proofs::Readings::only_meant, crate::proofs::Readings::only_first))]
pub fn parse(alloc: Global, bytes: &[u8]) -> Result<Input, ParseError>
    ensures input { IfOk result (λ input. Reads bytes.now (Ok input)) }
    ensures fits { IfOk result (λ input. FitsScript input.checked input.script) }
    ensures refused { IfErr result (IsParseError bytes.now) }
    ensures only { IsOnlyReading bytes.now result }
{
    let mut tokens = Tokens::of(bytes);
    match fits_input(&tokens) {
        Ok(()) => read_input(alloc, &mut tokens),
        Err(refused) => Err(ParseError::Refused(refused)),
    }
}

/// The input that the tokens are.
#[tactic(auto, using(crate::proofs::Readings::has_functions))]
fn read_input(alloc: Global, tokens: &mut Tokens<'_>) -> Result<Input, ParseError>
    requires { IsSentence input (left tokens.old) }
    ensures read { (tree : Tree input) → leaves input tree ≡ left tokens.old → Agrees result (input_offences tree) (input_of tree) }
    ensures source { source tokens.new ≡ source tokens.old }
    ensures fits { IfOk result (λ input. FitsScript input.checked input.script) }
{
    let checked = match read_program(alloc, tokens) {
        Ok(checked) => checked,
        Err(error) => return Err(error),
    };
    match read_script(alloc, tokens, &checked) {
        Ok(script) => Ok(Input { checked, script }),
        Err(error) => Err(error),
    }
}
