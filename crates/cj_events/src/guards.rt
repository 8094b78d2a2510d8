//! The guards of a pass.

ghost use Rattle.std.specs.Prelude.{◌≡◌, ◌∷◌, []};
ghost use Rattle.cj_tokens.specs.Left.{left, source};
ghost use Rattle.cj_grammar.specs.Readers.{Gives};
ghost use Rattle.cj_events.specs.Reading.{never_at, equation_at, guard_at, more_guards_at, guards_at};

use crate::judge::{guarded_register, never_guard};
use cj_ir::{Guard, Guards};
use cj_tokens::{ParseError, Terminal, Tokens};
use std::alloc::Global;

/// The guard `never`, behind so many others.
#[tactic(auto, unfolding(crate::specs::Reading::never_at))]
fn read_never(tokens: &mut Tokens<'_>, earlier: usize) -> Result<Guard, ParseError>
    ensures gives { Gives result (left tokens.new) (never_at earlier (left tokens.old)) }
    ensures source { source tokens.new ≡ source tokens.old }
{
    let token = tokens.take();
    never_guard(earlier, token)
}

/// A register and its value, behind so many other guards.
#[tactic(auto, unfolding(crate::specs::Reading::equation_at))]
fn read_equation(tokens: &mut Tokens<'_>, earlier: usize) -> Result<Guard, ParseError>
    ensures gives { Gives result (left tokens.new) (equation_at earlier (left tokens.old)) }
    ensures source { source tokens.new ≡ source tokens.old }
{
    let register = tokens.take();
    let _equals = tokens.take();
    let value = tokens.take();
    let reg = guarded_register(earlier, register)?;
    Ok(Guard::Is {
        reg,
        value: value.number,
    })
}

/// A guard with the word or mark before it, behind so many others.
#[tactic(auto, unfolding(crate::specs::Reading::guard_at))]
fn read_guard(tokens: &mut Tokens<'_>, earlier: usize) -> Result<Guard, ParseError>
    ensures gives { Gives result (left tokens.new) (guard_at earlier (left tokens.old)) }
    ensures source { source tokens.new ≡ source tokens.old }
{
    let _separator = tokens.take();
    if tokens.is_at(Terminal::Never) {
        read_never(tokens, earlier)
    } else {
        read_equation(tokens, earlier)
    }
}

/// The guards behind the first one, each with its comma.
#[tactic(auto, using(crate::proofs::GuardTurns::guards_turn, crate::proofs::GuardTurns::guards_fail, crate::proofs::GuardTurns::guards_stop, crate::proofs::GuardTurns::guard_shorter))]
fn read_more(alloc: Global, tokens: &mut Tokens<'_>, first: Guard) -> Result<Guards, ParseError>
    ensures gives { Gives result (left tokens.new) (more_guards_at (first ∷ []) (left tokens.old)) }
    ensures source { source tokens.new ≡ source tokens.old }
{
    let mut guards = Guards::new(alloc);
    match guards.push(first) {
        Ok(()) => {}
        Err(_) => return Err(ParseError::NoMemory),
    }
    'guards: while tokens.is_at(Terminal::Comma) {
        let guard = match read_guard(tokens, guards.items().len()) {
            Ok(guard) => guard,
            Err(error) => return Err(error),
        };
        match guards.push(guard) {
            Ok(()) => {}
            Err(_) => return Err(ParseError::NoMemory),
        }
    }
    Ok(guards)
}

/// The word `when` and the guards behind it.
#[tactic(auto, unfolding(crate::specs::Reading::guards_at))]
pub fn read_guards(alloc: Global, tokens: &mut Tokens<'_>) -> Result<Guards, ParseError>
    ensures gives { Gives result (left tokens.new) (guards_at (left tokens.old)) }
    ensures source { source tokens.new ≡ source tokens.old }
{
    let first = read_guard(tokens, 0)?;
    read_more(alloc, tokens, first)
}
