//! Passing over operands, names and expressions.

ghost use Rattle.std.specs.Prelude.{◌≡◌};
ghost use Rattle.cj_tokens.specs.Left.{left, source};
ghost use Rattle.cj_tokens.specs.Passing.{ended};
ghost use Rattle.cj_tokens.specs.declared.terminal.Terminal.TheVariants.{Comma, Name};
ghost use Rattle.cj_grammar.specs.Grammar.{opt};
ghost use Rattle.cj_grammar.specs.OneAhead.{eat, starts};
ghost use Rattle.cj_grammar.specs.Rules.{one, ◌▸◌, operand, operands, names, binary, expr, target};

use cj_tokens::{Terminal, Tokens, Unfit};

#[tactic(auto, using(crate::proofs::Ahead::ahead), unfolding(crate::specs::Rules::operand))]
pub(crate) fn pass_operand(tokens: &mut Tokens<'_>) -> Result<(), Unfit>
    ensures passes { eat operand (left tokens.old) ≡ ended result (left tokens.new) }
    ensures source { source tokens.new ≡ source tokens.old }
{
    match tokens.peek() {
        Terminal::Name => tokens.expect(Terminal::Name),
        _ => tokens.expect(Terminal::Number),
    }
}

fn pass_next_operand(tokens: &mut Tokens<'_>) -> Result<(), Unfit>
    ensures passes { eat (one Comma ▸ operand) (left tokens.old) ≡ ended result (left tokens.new) }
    ensures source { source tokens.new ≡ source tokens.old }
{
    tokens.expect(Terminal::Comma)?;
    pass_operand(tokens)
}

#[tactic(auto, using(crate::proofs::Turns::more_operands_go, crate::proofs::Turns::more_operands_stop, crate::proofs::Turns::next_operand_shorter), unfolding(crate::specs::Rules::operands))]
pub(crate) fn pass_operands(tokens: &mut Tokens<'_>) -> Result<(), Unfit>
    ensures passes { eat operands (left tokens.old) ≡ ended result (left tokens.new) }
    ensures source { source tokens.new ≡ source tokens.old }
{
    pass_operand(tokens)?;
    'more: while tokens.is_at(Terminal::Comma) {
        pass_next_operand(tokens)?;
    }
    Ok(())
}

fn pass_next_name(tokens: &mut Tokens<'_>) -> Result<(), Unfit>
    ensures passes { eat (one Comma ▸ one Name) (left tokens.old) ≡ ended result (left tokens.new) }
    ensures source { source tokens.new ≡ source tokens.old }
{
    tokens.expect(Terminal::Comma)?;
    tokens.expect(Terminal::Name)
}

#[tactic(auto, using(crate::proofs::Turns::more_names_go, crate::proofs::Turns::more_names_stop, crate::proofs::Turns::next_name_shorter), unfolding(crate::specs::Rules::names))]
pub(crate) fn pass_names(tokens: &mut Tokens<'_>) -> Result<(), Unfit>
    ensures passes { eat names (left tokens.old) ≡ ended result (left tokens.new) }
    ensures source { source tokens.new ≡ source tokens.old }
{
    tokens.expect(Terminal::Name)?;
    'more: while tokens.is_at(Terminal::Comma) {
        pass_next_name(tokens)?;
    }
    Ok(())
}

#[tactic(auto, using(crate::proofs::Ahead::ahead), unfolding(crate::specs::Rules::binary))]
fn pass_binary(tokens: &mut Tokens<'_>) -> Result<(), Unfit>
    ensures passes { eat binary (left tokens.old) ≡ ended result (left tokens.new) }
    ensures source { source tokens.new ≡ source tokens.old }
{
    match tokens.peek() {
        Terminal::Plus => tokens.expect(Terminal::Plus),
        Terminal::Minus => tokens.expect(Terminal::Minus),
        Terminal::Star => tokens.expect(Terminal::Star),
        Terminal::Slash => tokens.expect(Terminal::Slash),
        Terminal::Percent => tokens.expect(Terminal::Percent),
        Terminal::Equals => tokens.expect(Terminal::Equals),
        _ => tokens.expect(Terminal::Less),
    }
}

#[tactic(auto, using(crate::proofs::Ahead::ahead), unfolding(crate::specs::Rules::binary))]
fn begins_binary(tokens: &Tokens<'_>) -> bool
    ensures { result ≡ starts binary (left tokens.now) }
{
    matches!(
        tokens.peek(),
        Terminal::Plus
            | Terminal::Minus
            | Terminal::Star
            | Terminal::Slash
            | Terminal::Percent
            | Terminal::Equals
            | Terminal::Less
    )
}

#[tactic(auto, unfolding(crate::specs::Rules::binary))]
fn pass_second(tokens: &mut Tokens<'_>) -> Result<(), Unfit>
    ensures passes { eat (opt (binary ▸ operand)) (left tokens.old) ≡ ended result (left tokens.new) }
    ensures source { source tokens.new ≡ source tokens.old }
{
    if begins_binary(tokens) {
        pass_binary(tokens)?;
        pass_operand(tokens)?;
    }
    Ok(())
}

fn pass_unmarked(tokens: &mut Tokens<'_>) -> Result<(), Unfit>
    ensures passes { eat (operand ▸ opt (binary ▸ operand)) (left tokens.old) ≡ ended result (left tokens.new) }
    ensures source { source tokens.new ≡ source tokens.old }
{
    pass_operand(tokens)?;
    pass_second(tokens)
}

#[tactic(auto, using(crate::proofs::Ahead::ahead), unfolding(crate::specs::Rules::expr))]
pub(crate) fn pass_expr(tokens: &mut Tokens<'_>) -> Result<(), Unfit>
    ensures passes { eat expr (left tokens.old) ≡ ended result (left tokens.new) }
    ensures source { source tokens.new ≡ source tokens.old }
{
    match tokens.peek() {
        Terminal::Neg => {
            tokens.expect(Terminal::Neg)?;
            pass_operand(tokens)
        }
        Terminal::Eqz => {
            tokens.expect(Terminal::Eqz)?;
            pass_operand(tokens)
        }
        _ => pass_unmarked(tokens),
    }
}

#[tactic(auto, unfolding(crate::specs::Rules::target))]
pub(crate) fn pass_target(tokens: &mut Tokens<'_>) -> Result<(), Unfit>
    ensures passes { eat target (left tokens.old) ≡ ended result (left tokens.new) }
    ensures source { source tokens.new ≡ source tokens.old }
{
    tokens.expect(Terminal::Arrow)?;
    tokens.expect(Terminal::Number)
}
