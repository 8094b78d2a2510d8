//! Passing over the passes of a `compile`.

ghost use Rattle.std.specs.Prelude.{◌≡◌};
ghost use Rattle.cj_tokens.specs.Left.{left, source};
ghost use Rattle.cj_tokens.specs.Passing.{ended};
ghost use Rattle.cj_tokens.specs.declared.terminal.Terminal.TheVariants.{Comma};
ghost use Rattle.cj_grammar.specs.OneAhead.{eat, starts};
ghost use Rattle.cj_grammar.specs.Rules.{one, ◌▸◌};
ghost use Rattle.cj_events.specs.Rules.{labels, equation, guard, guards, anchors_pass, assume_pass, delay_pass, const_pass, inline_pass, any_pass, passes};

use cj_tokens::{Terminal, Tokens, Unfit};

#[tactic(auto, using(cj_grammar::proofs::Turns::numbers_go, cj_grammar::proofs::Turns::numbers_stop, cj_grammar::proofs::Turns::number_shorter), unfolding(crate::specs::Rules::labels))]
fn pass_labels(tokens: &mut Tokens<'_>) -> Result<(), Unfit>
    ensures passes { eat labels (left tokens.old) ≡ ended result (left tokens.new) }
    ensures source { source tokens.new ≡ source tokens.old }
{
    tokens.expect(Terminal::Number)?;
    'more: while tokens.is_at(Terminal::Number) {
        tokens.expect(Terminal::Number)?;
    }
    Ok(())
}

#[tactic(auto, unfolding(crate::specs::Rules::equation))]
fn pass_equation(tokens: &mut Tokens<'_>) -> Result<(), Unfit>
    ensures passes { eat equation (left tokens.old) ≡ ended result (left tokens.new) }
    ensures source { source tokens.new ≡ source tokens.old }
{
    tokens.expect(Terminal::Number)?;
    tokens.expect(Terminal::Equals)?;
    tokens.expect(Terminal::Number)
}

#[tactic(auto, using(cj_grammar::proofs::Ahead::ahead), unfolding(crate::specs::Rules::guard, crate::specs::Rules::equation))]
fn pass_guard(tokens: &mut Tokens<'_>) -> Result<(), Unfit>
    ensures passes { eat guard (left tokens.old) ≡ ended result (left tokens.new) }
    ensures source { source tokens.new ≡ source tokens.old }
{
    match tokens.peek() {
        Terminal::Number => pass_equation(tokens),
        _ => tokens.expect(Terminal::Never),
    }
}

fn pass_next_guard(tokens: &mut Tokens<'_>) -> Result<(), Unfit>
    ensures passes { eat (one Comma ▸ guard) (left tokens.old) ≡ ended result (left tokens.new) }
    ensures source { source tokens.new ≡ source tokens.old }
{
    tokens.expect(Terminal::Comma)?;
    pass_guard(tokens)
}

#[tactic(auto, using(crate::proofs::GrammarTurns::more_guards_go, crate::proofs::GrammarTurns::more_guards_stop, crate::proofs::GrammarTurns::next_guard_shorter), unfolding(crate::specs::Rules::guards))]
fn pass_guards(tokens: &mut Tokens<'_>) -> Result<(), Unfit>
    ensures passes { eat guards (left tokens.old) ≡ ended result (left tokens.new) }
    ensures source { source tokens.new ≡ source tokens.old }
{
    tokens.expect(Terminal::When)?;
    pass_guard(tokens)?;
    'more: while tokens.is_at(Terminal::Comma) {
        pass_next_guard(tokens)?;
    }
    Ok(())
}

#[tactic(auto, unfolding(crate::specs::Rules::anchors_pass))]
fn pass_anchors(tokens: &mut Tokens<'_>) -> Result<(), Unfit>
    ensures passes { eat anchors_pass (left tokens.old) ≡ ended result (left tokens.new) }
    ensures source { source tokens.new ≡ source tokens.old }
{
    tokens.expect(Terminal::Anchors)?;
    pass_labels(tokens)
}

#[tactic(auto, unfolding(crate::specs::Rules::assume_pass))]
fn pass_assume(tokens: &mut Tokens<'_>) -> Result<(), Unfit>
    ensures passes { eat assume_pass (left tokens.old) ≡ ended result (left tokens.new) }
    ensures source { source tokens.new ≡ source tokens.old }
{
    tokens.expect(Terminal::Assume)?;
    tokens.expect(Terminal::Number)?;
    pass_guards(tokens)
}

#[tactic(auto, unfolding(crate::specs::Rules::delay_pass))]
fn pass_delay(tokens: &mut Tokens<'_>) -> Result<(), Unfit>
    ensures passes { eat delay_pass (left tokens.old) ≡ ended result (left tokens.new) }
    ensures source { source tokens.new ≡ source tokens.old }
{
    tokens.expect(Terminal::Delay)?;
    pass_labels(tokens)?;
    pass_guards(tokens)
}

#[tactic(auto, unfolding(crate::specs::Rules::inline_pass))]
fn pass_inline(tokens: &mut Tokens<'_>) -> Result<(), Unfit>
    ensures passes { eat inline_pass (left tokens.old) ≡ ended result (left tokens.new) }
    ensures source { source tokens.new ≡ source tokens.old }
{
    tokens.expect(Terminal::Inline)?;
    tokens.expect(Terminal::Number)
}

#[tactic(auto, using(cj_grammar::proofs::Ahead::ahead), unfolding(crate::specs::Rules::any_pass, crate::specs::Rules::anchors_pass, crate::specs::Rules::assume_pass, crate::specs::Rules::delay_pass, crate::specs::Rules::const_pass, crate::specs::Rules::inline_pass))]
fn begins_pass(tokens: &Tokens<'_>) -> bool
    ensures { result ≡ starts any_pass (left tokens.now) }
{
    matches!(
        tokens.peek(),
        Terminal::Anchors | Terminal::Assume | Terminal::Delay | Terminal::Const | Terminal::Inline
    )
}

#[tactic(auto, using(cj_grammar::proofs::Ahead::ahead), unfolding(crate::specs::Rules::any_pass, crate::specs::Rules::anchors_pass, crate::specs::Rules::assume_pass, crate::specs::Rules::delay_pass, crate::specs::Rules::const_pass, crate::specs::Rules::inline_pass))]
fn pass_any(tokens: &mut Tokens<'_>) -> Result<(), Unfit>
    ensures passes { eat any_pass (left tokens.old) ≡ ended result (left tokens.new) }
    ensures source { source tokens.new ≡ source tokens.old }
{
    match tokens.peek() {
        Terminal::Anchors => pass_anchors(tokens),
        Terminal::Assume => pass_assume(tokens),
        Terminal::Delay => pass_delay(tokens),
        Terminal::Const => tokens.expect(Terminal::Const),
        _ => pass_inline(tokens),
    }
}

#[tactic(auto, using(crate::proofs::GrammarTurns::passes_go, crate::proofs::GrammarTurns::passes_stop, crate::proofs::GrammarTurns::pass_shorter))]
pub fn pass_passes(tokens: &mut Tokens<'_>) -> Result<(), Unfit>
    ensures passes { eat passes (left tokens.old) ≡ ended result (left tokens.new) }
    ensures source { source tokens.new ≡ source tokens.old }
{
    'more: while begins_pass(tokens) {
        pass_any(tokens)?;
    }
    Ok(())
}
