//! The passes of a `compile`.

ghost use Rattle.std.specs.Prelude.{◌≡◌, []};
ghost use Rattle.cj_tokens.specs.Left.{left, source};
ghost use Rattle.cj_grammar.specs.Readers.{Gives};
ghost use Rattle.cj_events.specs.Reading.{is_pass, anchors_at, assume_at, delay_at, inline_at, any_pass_at, pass_at, passes_at};

use crate::guards::read_guards;
use crate::judge::draft_label;
use crate::labels::read_labels;
use crate::limits::MAX_PASSES;
use cj_draft::{Pass, Passes};
use cj_grammar::refused;
use cj_tokens::{Kind, ParseError, Terminal, Tokens};
use std::alloc::Global;

/// The labels behind `anchors`.
#[tactic(auto, unfolding(crate::specs::Reading::anchors_at))]
fn read_anchors(alloc: Global, tokens: &mut Tokens<'_>) -> Result<Pass, ParseError>
    ensures gives { Gives result (left tokens.new) (anchors_at (left tokens.old)) }
    ensures source { source tokens.new ≡ source tokens.old }
{
    let places = read_labels(alloc, tokens)?;
    Ok(Pass::Anchors { places })
}

/// The anchor and the guards behind `assume`.
#[tactic(auto, unfolding(crate::specs::Reading::assume_at))]
fn read_assume(alloc: Global, tokens: &mut Tokens<'_>) -> Result<Pass, ParseError>
    ensures gives { Gives result (left tokens.new) (assume_at (left tokens.old)) }
    ensures source { source tokens.new ≡ source tokens.old }
{
    let token = tokens.take();
    let anchor = draft_label(token)?;
    let guards = read_guards(alloc, tokens)?;
    Ok(Pass::Assume { anchor, guards })
}

/// The path and the guards behind `delay`.
#[tactic(auto, unfolding(crate::specs::Reading::delay_at))]
fn read_delay(alloc: Global, tokens: &mut Tokens<'_>) -> Result<Pass, ParseError>
    ensures gives { Gives result (left tokens.new) (delay_at (left tokens.old)) }
    ensures source { source tokens.new ≡ source tokens.old }
{
    let path = read_labels(alloc, tokens)?;
    let guards = read_guards(alloc, tokens)?;
    Ok(Pass::Delay { path, guards })
}

/// The label behind `inline`.
#[tactic(auto, unfolding(crate::specs::Reading::inline_at))]
fn read_inline(tokens: &mut Tokens<'_>) -> Result<Pass, ParseError>
    ensures gives { Gives result (left tokens.new) (inline_at (left tokens.old)) }
    ensures source { source tokens.new ≡ source tokens.old }
{
    let token = tokens.take();
    let call = draft_label(token)?;
    Ok(Pass::Inline { call })
}

/// A pass.
#[tactic(auto, unfolding(crate::specs::Reading::any_pass_at))]
fn read_any(alloc: Global, tokens: &mut Tokens<'_>) -> Result<Pass, ParseError>
    ensures gives { Gives result (left tokens.new) (any_pass_at (left tokens.old)) }
    ensures source { source tokens.new ≡ source tokens.old }
{
    let word = tokens.take();
    match word.terminal {
        Terminal::Anchors => read_anchors(alloc, tokens),
        Terminal::Assume => read_assume(alloc, tokens),
        Terminal::Delay => read_delay(alloc, tokens),
        Terminal::Const => Ok(Pass::Const),
        _ => read_inline(tokens),
    }
}

/// A pass behind so many others.
#[tactic(auto, unfolding(crate::specs::Reading::pass_at))]
fn read_pass(alloc: Global, tokens: &mut Tokens<'_>, earlier: usize) -> Result<Pass, ParseError>
    ensures gives { Gives result (left tokens.new) (pass_at earlier (left tokens.old)) }
    ensures source { source tokens.new ≡ source tokens.old }
{
    if earlier >= MAX_PASSES {
        return Err(refused(tokens.take(), Kind::TooMany));
    }
    read_any(alloc, tokens)
}

/// A pass stands next.
fn is_pass(tokens: &Tokens<'_>) -> bool
    ensures { result ≡ is_pass (left tokens.now) }
{
    matches!(
        tokens.peek(),
        Terminal::Anchors | Terminal::Assume | Terminal::Delay | Terminal::Const | Terminal::Inline
    )
}

/// The passes that stand next.
#[tactic(auto, using(crate::proofs::PassTurns::passes_turn, crate::proofs::PassTurns::passes_fail, crate::proofs::PassTurns::passes_stop, crate::proofs::PassTurns::pass_shorter))]
pub fn read_passes(alloc: Global, tokens: &mut Tokens<'_>) -> Result<Passes, ParseError>
    ensures gives { Gives result (left tokens.new) (passes_at [] (left tokens.old)) }
    ensures source { source tokens.new ≡ source tokens.old }
{
    let mut passes = Passes::new(alloc);
    'passes: while is_pass(tokens) {
        let pass = match read_pass(alloc, tokens, passes.items().len()) {
            Ok(pass) => pass,
            Err(error) => return Err(error),
        };
        match passes.push(pass) {
            Ok(()) => {}
            Err(_) => return Err(ParseError::NoMemory),
        }
    }
    Ok(passes)
}
