//! Passing over functions.

ghost use Rattle.std.specs.Prelude.{◌≡◌};
ghost use Rattle.cj_tokens.specs.Left.{left, source};
ghost use Rattle.cj_tokens.specs.Passing.{ended};
ghost use Rattle.cj_tokens.specs.declared.terminal.Terminal.TheVariants.{Semicolon};
ghost use Rattle.cj_grammar.specs.Grammar.{opt};
ghost use Rattle.cj_grammar.specs.OneAhead.{eat};
ghost use Rattle.cj_grammar.specs.Rules.{one, ◌▸◌, names, head, fun, funs};

use crate::instructions::pass_lines;
use crate::operands::pass_names;
use cj_tokens::{Terminal, Tokens, Unfit};

#[tactic(auto, using(crate::proofs::Ahead::ahead), unfolding(crate::specs::Rules::names))]
fn pass_parameters(tokens: &mut Tokens<'_>) -> Result<(), Unfit>
    ensures passes { eat (opt names) (left tokens.old) ≡ ended result (left tokens.new) }
    ensures source { source tokens.new ≡ source tokens.old }
{
    if tokens.is_at(Terminal::Name) {
        pass_names(tokens)?;
    }
    Ok(())
}

#[tactic(auto, using(crate::proofs::Ahead::ahead))]
fn pass_locals(tokens: &mut Tokens<'_>) -> Result<(), Unfit>
    ensures passes { eat (opt (one Semicolon ▸ names)) (left tokens.old) ≡ ended result (left tokens.new) }
    ensures source { source tokens.new ≡ source tokens.old }
{
    if tokens.is_at(Terminal::Semicolon) {
        tokens.expect(Terminal::Semicolon)?;
        pass_names(tokens)?;
    }
    Ok(())
}

#[tactic(auto, unfolding(crate::specs::Rules::head))]
fn pass_head(tokens: &mut Tokens<'_>) -> Result<(), Unfit>
    ensures passes { eat head (left tokens.old) ≡ ended result (left tokens.new) }
    ensures source { source tokens.new ≡ source tokens.old }
{
    tokens.expect(Terminal::Fun)?;
    tokens.expect(Terminal::Name)?;
    tokens.expect(Terminal::OpenParen)?;
    pass_parameters(tokens)?;
    pass_locals(tokens)?;
    tokens.expect(Terminal::CloseParen)
}

#[tactic(auto, unfolding(crate::specs::Rules::fun))]
fn pass_fun(tokens: &mut Tokens<'_>) -> Result<(), Unfit>
    ensures passes { eat fun (left tokens.old) ≡ ended result (left tokens.new) }
    ensures source { source tokens.new ≡ source tokens.old }
{
    pass_head(tokens)?;
    tokens.expect(Terminal::OpenBrace)?;
    pass_lines(tokens)?;
    tokens.expect(Terminal::CloseBrace)
}

/// Passes over functions, as many as stand there. Unfit: the tokens stand at the first one that begins no functions
/// with those before it.
#[tactic(auto, using(crate::proofs::Turns::more_funs_go, crate::proofs::Turns::more_funs_stop, crate::proofs::Turns::fun_shorter), unfolding(crate::specs::Rules::funs))]
pub fn pass_funs(tokens: &mut Tokens<'_>) -> Result<(), Unfit>
    ensures passes { eat funs (left tokens.old) ≡ ended result (left tokens.new) }
    ensures source { source tokens.new ≡ source tokens.old }
{
    pass_fun(tokens)?;
    'more: while tokens.is_at(Terminal::Fun) {
        pass_fun(tokens)?;
    }
    Ok(())
}
