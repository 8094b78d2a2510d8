//! Scripts.

ghost use Rattle.std.specs.Prelude.{◌≡◌, ◌≤◌, ◌∷◌, ◌++◌, List, length, true, All, IfOk, OnErr};
ghost use Rattle.cj_tokens.specs.Left.{left, source};
ghost use Rattle.cj_tokens.specs.Lexemes.{Lexeme, is_terminal};
ghost use Rattle.cj_tokens.specs.declared.terminal.Terminal.TheVariants.{End};
ghost use Rattle.cj_grammar.specs.Grammar.{Tree, leaves};
ghost use Rattle.cj_grammar.specs.Readers.{Gives, reads};
ghost use Rattle.cj_grammar.specs.Rules.{script};
ghost use Rattle.cj_script.specs.Fitting.{FitsScript};
ghost use Rattle.cj_script.specs.Meaning.{script_offences, script_of};
ghost use Rattle.cj_script.specs.Reading.{script_at};

use crate::calls::read_calls;
use crate::setups::read_setups;
use cj_ir::limits::{MAX_FUNCTIONS, MAX_LABELS};
use cj_ir::{Checked, Function, Script};
use cj_tokens::{ParseError, Tokens};
use std::alloc::Global;

/// The word `calls`, the setups and the calls.
#[tactic(auto, unfolding(crate::specs::Reading::script_at))]
fn read_lines(
    alloc: Global,
    tokens: &mut Tokens<'_>,
    functions: &[Function],
) -> Result<Script, ParseError>
    requires few { length functions.now ≤ MAX_FUNCTIONS }
    requires short { All (λ f. length f.code ≤ MAX_LABELS) functions.now }
    ensures gives { Gives result (left tokens.new) (script_at functions.now (left tokens.old)) }
    ensures source { source tokens.new ≡ source tokens.old }
{
    let _calls = tokens.take();
    let setups = read_setups(alloc, tokens, functions)?;
    let calls = read_calls(alloc, tokens, functions)?;
    Ok(Script { setups, calls })
}

/// The script that stands next, up to the end of the text, behind its program. Refused: the first offence of the
/// second class; the tokens stay as they were then, and where memory is wanting.
pub fn read_script(
    alloc: Global,
    tokens: &mut Tokens<'_>,
    checked: &Checked,
) -> Result<Script, ParseError>
    ensures meaning { (t : Tree script) (last : Lexeme) (rest : List Lexeme) → left tokens.old ≡ leaves script t ++ last ∷ rest → is_terminal End last ≡ true →
        Gives result (left tokens.new) (reads (script_offences checked.now t) (script_of checked.now t) (last ∷ rest)) }
    ensures source { source tokens.new ≡ source tokens.old }
    ensures fits { IfOk result (FitsScript checked.now) }
    ensures same { OnErr result (tokens.new ≡ tokens.old) }
{
    let mut ahead = *tokens;
    let functions = checked.program().functions.items();
    match read_lines(alloc, &mut ahead, functions) {
        Ok(script) => {
            *tokens = ahead;
            Ok(script)
        }
        Err(error) => Err(error),
    }
}
