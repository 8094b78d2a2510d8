//! Passing over scripts.

ghost use Rattle.std.specs.Prelude.{◌≡◌};
ghost use Rattle.cj_tokens.specs.Left.{left, source};
ghost use Rattle.cj_tokens.specs.Passing.{ended};
ghost use Rattle.cj_tokens.specs.declared.terminal.Terminal.TheVariants.{Memory, Number};
ghost use Rattle.cj_grammar.specs.Grammar.{opt};
ghost use Rattle.cj_grammar.specs.OneAhead.{eat, starts};
ghost use Rattle.cj_grammar.specs.Rules.{one, ◌▸◌, guess_setup, edge, cold_setup, warm_setup, setup, setups, numbers, begun, script_call, script_calls, script, input};

use crate::functions::pass_funs;
use cj_tokens::{Terminal, Tokens, Unfit};

#[tactic(auto, unfolding(crate::specs::Rules::guess_setup))]
fn pass_guess(tokens: &mut Tokens<'_>) -> Result<(), Unfit>
    ensures passes { eat guess_setup (left tokens.old) ≡ ended result (left tokens.new) }
    ensures source { source tokens.new ≡ source tokens.old }
{
    tokens.expect(Terminal::Guess)?;
    tokens.expect(Terminal::Name)?;
    tokens.expect(Terminal::Name)?;
    tokens.expect(Terminal::Number)
}

#[tactic(auto, using(crate::proofs::Ahead::ahead), unfolding(crate::specs::Rules::edge))]
fn pass_edge(tokens: &mut Tokens<'_>) -> Result<(), Unfit>
    ensures passes { eat edge (left tokens.old) ≡ ended result (left tokens.new) }
    ensures source { source tokens.new ≡ source tokens.old }
{
    match tokens.peek() {
        Terminal::Then => tokens.expect(Terminal::Then),
        _ => tokens.expect(Terminal::Else),
    }
}

#[tactic(auto, unfolding(crate::specs::Rules::cold_setup))]
fn pass_cold(tokens: &mut Tokens<'_>) -> Result<(), Unfit>
    ensures passes { eat cold_setup (left tokens.old) ≡ ended result (left tokens.new) }
    ensures source { source tokens.new ≡ source tokens.old }
{
    tokens.expect(Terminal::Cold)?;
    tokens.expect(Terminal::Name)?;
    tokens.expect(Terminal::Number)?;
    pass_edge(tokens)
}

#[tactic(auto, unfolding(crate::specs::Rules::warm_setup))]
fn pass_warm(tokens: &mut Tokens<'_>) -> Result<(), Unfit>
    ensures passes { eat warm_setup (left tokens.old) ≡ ended result (left tokens.new) }
    ensures source { source tokens.new ≡ source tokens.old }
{
    tokens.expect(Terminal::Warm)?;
    tokens.expect(Terminal::Name)?;
    tokens.expect(Terminal::Number)
}

#[tactic(auto, using(crate::proofs::Ahead::ahead), unfolding(crate::specs::Rules::setup, crate::specs::Rules::guess_setup, crate::specs::Rules::cold_setup, crate::specs::Rules::warm_setup))]
fn begins_setup(tokens: &Tokens<'_>) -> bool
    ensures { result ≡ starts setup (left tokens.now) }
{
    matches!(
        tokens.peek(),
        Terminal::Guess | Terminal::Cold | Terminal::Warm
    )
}

#[tactic(auto, using(crate::proofs::Ahead::ahead), unfolding(crate::specs::Rules::setup, crate::specs::Rules::guess_setup, crate::specs::Rules::cold_setup, crate::specs::Rules::warm_setup))]
fn pass_setup(tokens: &mut Tokens<'_>) -> Result<(), Unfit>
    ensures passes { eat setup (left tokens.old) ≡ ended result (left tokens.new) }
    ensures source { source tokens.new ≡ source tokens.old }
{
    match tokens.peek() {
        Terminal::Guess => pass_guess(tokens),
        Terminal::Cold => pass_cold(tokens),
        _ => pass_warm(tokens),
    }
}

#[tactic(auto, using(crate::proofs::Turns::setups_go, crate::proofs::Turns::setups_stop, crate::proofs::Turns::setup_shorter))]
fn pass_setups(tokens: &mut Tokens<'_>) -> Result<(), Unfit>
    ensures passes { eat setups (left tokens.old) ≡ ended result (left tokens.new) }
    ensures source { source tokens.new ≡ source tokens.old }
{
    'more: while begins_setup(tokens) {
        pass_setup(tokens)?;
    }
    Ok(())
}

#[tactic(auto, using(crate::proofs::Turns::numbers_go, crate::proofs::Turns::numbers_stop, crate::proofs::Turns::number_shorter))]
fn pass_numbers(tokens: &mut Tokens<'_>) -> Result<(), Unfit>
    ensures passes { eat numbers (left tokens.old) ≡ ended result (left tokens.new) }
    ensures source { source tokens.new ≡ source tokens.old }
{
    'more: while tokens.is_at(Terminal::Number) {
        tokens.expect(Terminal::Number)?;
    }
    Ok(())
}

#[tactic(auto, using(crate::proofs::Ahead::ahead))]
fn pass_memory(tokens: &mut Tokens<'_>) -> Result<(), Unfit>
    ensures passes { eat (opt (one Memory ▸ one Number)) (left tokens.old) ≡ ended result (left tokens.new) }
    ensures source { source tokens.new ≡ source tokens.old }
{
    if tokens.is_at(Terminal::Memory) {
        tokens.expect(Terminal::Memory)?;
        tokens.expect(Terminal::Number)?;
    }
    Ok(())
}

/// Passes over what begins a run, behind its first word. Unfit: the tokens stand at the first one that begins no such
/// part with those before it.
#[tactic(auto, unfolding(crate::specs::Rules::begun))]
pub fn pass_begun(tokens: &mut Tokens<'_>) -> Result<(), Unfit>
    ensures passes { eat begun (left tokens.old) ≡ ended result (left tokens.new) }
    ensures source { source tokens.new ≡ source tokens.old }
{
    tokens.expect(Terminal::Name)?;
    pass_numbers(tokens)?;
    pass_memory(tokens)?;
    tokens.expect(Terminal::Limit)?;
    tokens.expect(Terminal::Number)
}

#[tactic(auto, unfolding(crate::specs::Rules::script_call))]
fn pass_script_call(tokens: &mut Tokens<'_>) -> Result<(), Unfit>
    ensures passes { eat script_call (left tokens.old) ≡ ended result (left tokens.new) }
    ensures source { source tokens.new ≡ source tokens.old }
{
    tokens.expect(Terminal::Call)?;
    pass_begun(tokens)
}

#[tactic(auto, using(crate::proofs::Turns::script_calls_go, crate::proofs::Turns::script_calls_stop, crate::proofs::Turns::script_call_shorter))]
fn pass_script_calls(tokens: &mut Tokens<'_>) -> Result<(), Unfit>
    ensures passes { eat script_calls (left tokens.old) ≡ ended result (left tokens.new) }
    ensures source { source tokens.new ≡ source tokens.old }
{
    'more: while tokens.is_at(Terminal::Call) {
        pass_script_call(tokens)?;
    }
    Ok(())
}

#[tactic(auto, unfolding(crate::specs::Rules::script))]
fn pass_script(tokens: &mut Tokens<'_>) -> Result<(), Unfit>
    ensures passes { eat script (left tokens.old) ≡ ended result (left tokens.new) }
    ensures source { source tokens.new ≡ source tokens.old }
{
    tokens.expect(Terminal::Calls)?;
    pass_setups(tokens)?;
    pass_script_calls(tokens)
}

#[tactic(auto, unfolding(crate::specs::Rules::input))]
pub(crate) fn pass_input(tokens: &mut Tokens<'_>) -> Result<(), Unfit>
    ensures passes { eat input (left tokens.old) ≡ ended result (left tokens.new) }
    ensures source { source tokens.new ≡ source tokens.old }
{
    pass_funs(tokens)?;
    pass_script(tokens)?;
    tokens.expect(Terminal::End)
}
