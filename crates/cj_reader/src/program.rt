//! Programs.

ghost use Rattle.std.specs.Prelude.{◌≡◌, List, OnErr};
ghost use Rattle.cj_tokens.specs.Ends.{HasOneEnd};
ghost use Rattle.cj_tokens.specs.Left.{left, source};
ghost use Rattle.cj_tokens.specs.Lexemes.{Lexeme};
ghost use Rattle.cj_grammar.specs.Shapes.{GoesPast, HasFunctions};
ghost use Rattle.cj_grammar.specs.Readers.{Gives, reads};
ghost use Rattle.cj_reader.specs.Meaning.{program_offences, program_of};
ghost use Rattle.cj_reader.specs.Reading.{program_at};

use crate::functions::read_functions;
use crate::prescan::scan_functions;
use cj_ir::{Checked, Program};
use cj_tokens::{ParseError, Tokens};
use std::alloc::Global;

#[tactic(auto, unfolding(crate::specs::Reading::program_at), using(crate::proofs::Known::functions_same))]
fn read_all(alloc: Global, tokens: &mut Tokens<'_>) -> Result<Program, ParseError>
    ensures reads { Gives result (left tokens.new) (program_at (left tokens.old)) }
    ensures source { source tokens.new ≡ source tokens.old }
{
    let known = scan_functions(alloc, *tokens)?;
    let functions = read_functions(alloc, tokens, &known)?;
    Ok(Program { functions })
}

/// The program of the functions that are next, and goes past them. It is well-formed as it stands. Refused: the first token of theirs, from the
/// left, that carries an offence of the second class, with the highest of its offences; the tokens stay as they
/// were.
pub fn read_program(alloc: Global, tokens: &mut Tokens<'_>) -> Result<Checked, ParseError>
    requires { HasFunctions (left tokens.old) }
    ensures read { (rest : List Lexeme) (past : GoesPast (left tokens.old) rest) → Gives result (left tokens.new) (reads (program_offences past.tree) (program_of past.tree) rest) }
    ensures source { source tokens.new ≡ source tokens.old }
    ensures end { HasOneEnd (left tokens.old) → HasOneEnd (left tokens.new) }
    ensures same { OnErr result (tokens.new ≡ tokens.old) }
{
    let mut ahead = *tokens;
    let program = match read_all(alloc, &mut ahead) {
        Ok(program) => program,
        Err(error) => return Err(error),
    };
    *tokens = ahead;
    Ok(Checked::adopt(program))
}
