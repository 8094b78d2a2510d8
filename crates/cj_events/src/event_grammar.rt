//! Whether tokens are a replay, and which offence of the first class they have first.

ghost use Rattle.std.specs.Prelude.{◌≡◌, OnOk, IfErr};
ghost use Rattle.cj_tokens.specs.Ends.{HasOneEnd};
ghost use Rattle.cj_tokens.specs.Left.{left, source};
ghost use Rattle.cj_tokens.specs.Passing.{ended};
ghost use Rattle.cj_grammar.specs.Grammar.{IsSentence};
ghost use Rattle.cj_grammar.specs.OneAhead.{eat, starts};
ghost use Rattle.cj_grammar.specs.Offences.{IsFirstOffence};
ghost use Rattle.cj_events.specs.Rules.{begin_event, step_event, compile_event, event, events, history, replay};

use crate::pass_grammar::pass_passes;
use cj_grammar::{pass_begun, pass_funs, refusal};
use cj_tokens::{Refused, Terminal, Tokens, Unfit};

#[tactic(auto, unfolding(crate::specs::Rules::begin_event))]
fn pass_begin(tokens: &mut Tokens<'_>) -> Result<(), Unfit>
    ensures passes { eat begin_event (left tokens.old) ≡ ended result (left tokens.new) }
    ensures source { source tokens.new ≡ source tokens.old }
{
    tokens.expect(Terminal::Begin)?;
    pass_begun(tokens)
}

#[tactic(auto, unfolding(crate::specs::Rules::step_event))]
fn pass_step(tokens: &mut Tokens<'_>) -> Result<(), Unfit>
    ensures passes { eat step_event (left tokens.old) ≡ ended result (left tokens.new) }
    ensures source { source tokens.new ≡ source tokens.old }
{
    tokens.expect(Terminal::Step)?;
    tokens.expect(Terminal::Number)?;
    tokens.expect(Terminal::Number)
}

#[tactic(auto, unfolding(crate::specs::Rules::compile_event))]
fn pass_compile(tokens: &mut Tokens<'_>) -> Result<(), Unfit>
    ensures passes { eat compile_event (left tokens.old) ≡ ended result (left tokens.new) }
    ensures source { source tokens.new ≡ source tokens.old }
{
    tokens.expect(Terminal::Compile)?;
    tokens.expect(Terminal::Name)?;
    tokens.expect(Terminal::OpenBrace)?;
    pass_passes(tokens)?;
    tokens.expect(Terminal::CloseBrace)
}

#[tactic(auto, using(cj_grammar::proofs::Ahead::ahead), unfolding(crate::specs::Rules::event, crate::specs::Rules::begin_event, crate::specs::Rules::step_event, crate::specs::Rules::compile_event))]
fn begins_event(tokens: &Tokens<'_>) -> bool
    ensures { result ≡ starts event (left tokens.now) }
{
    matches!(
        tokens.peek(),
        Terminal::Begin | Terminal::Step | Terminal::Compile
    )
}

#[tactic(auto, using(cj_grammar::proofs::Ahead::ahead), unfolding(crate::specs::Rules::event, crate::specs::Rules::begin_event, crate::specs::Rules::step_event, crate::specs::Rules::compile_event))]
fn pass_event(tokens: &mut Tokens<'_>) -> Result<(), Unfit>
    ensures passes { eat event (left tokens.old) ≡ ended result (left tokens.new) }
    ensures source { source tokens.new ≡ source tokens.old }
{
    match tokens.peek() {
        Terminal::Begin => pass_begin(tokens),
        Terminal::Step => pass_step(tokens),
        _ => pass_compile(tokens),
    }
}

#[tactic(auto, using(crate::proofs::GrammarTurns::events_go, crate::proofs::GrammarTurns::events_stop, crate::proofs::GrammarTurns::event_shorter))]
fn pass_events(tokens: &mut Tokens<'_>) -> Result<(), Unfit>
    ensures passes { eat events (left tokens.old) ≡ ended result (left tokens.new) }
    ensures source { source tokens.new ≡ source tokens.old }
{
    'more: while begins_event(tokens) {
        pass_event(tokens)?;
    }
    Ok(())
}

#[tactic(auto, unfolding(crate::specs::Rules::history))]
fn pass_history(tokens: &mut Tokens<'_>) -> Result<(), Unfit>
    ensures passes { eat history (left tokens.old) ≡ ended result (left tokens.new) }
    ensures source { source tokens.new ≡ source tokens.old }
{
    tokens.expect(Terminal::Events)?;
    pass_events(tokens)
}

#[tactic(auto, unfolding(crate::specs::Rules::replay))]
fn pass_replay(tokens: &mut Tokens<'_>) -> Result<(), Unfit>
    ensures passes { eat replay (left tokens.old) ≡ ended result (left tokens.new) }
    ensures source { source tokens.new ≡ source tokens.old }
{
    pass_funs(tokens)?;
    pass_history(tokens)?;
    tokens.expect(Terminal::End)
}

/// Whether the tokens are a replay, from the next one to the end. It takes no memory.
///
/// Refused: where they are none. It is the line and the kind of the first token with which the tokens so far begin
/// no replay: Character or Number where that token is a lexical offence, else Syntax.
#[tactic(auto, using(crate::proofs::ReplayShapes::replay_whole, crate::proofs::ReplayShapes::replay_offence))]
pub fn fits_replay(tokens: &Tokens<'_>) -> Result<(), Refused>
    requires { HasOneEnd (left tokens.now) }
    ensures whole { OnOk result (IsSentence replay (left tokens.now)) }
    ensures first { IfErr result (λ refused. IsFirstOffence replay (left tokens.now) refused) }
{
    let mut ahead = *tokens;
    match pass_replay(&mut ahead) {
        Ok(()) => Ok(()),
        Err(Unfit) => Err(refusal(&ahead)),
    }
}
