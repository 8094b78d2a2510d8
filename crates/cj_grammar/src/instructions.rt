//! Passing over instructions and lines.

ghost use Rattle.std.specs.Prelude.{◌≡◌};
ghost use Rattle.cj_tokens.specs.Left.{left, source};
ghost use Rattle.cj_tokens.specs.Passing.{ended};
ghost use Rattle.cj_grammar.specs.Grammar.{opt};
ghost use Rattle.cj_grammar.specs.OneAhead.{eat, starts};
ghost use Rattle.cj_grammar.specs.Rules.{operand, operands, nop_instr, op_instr, cond_instr, call_instr, return_instr, print_instr, load_instr, store_instr, fail_instr, instr, line, lines};

use crate::operands::{pass_expr, pass_operand, pass_operands, pass_target};
use cj_tokens::{Terminal, Tokens, Unfit};

#[tactic(auto, unfolding(crate::specs::Rules::nop_instr))]
fn pass_nop(tokens: &mut Tokens<'_>) -> Result<(), Unfit>
    ensures passes { eat nop_instr (left tokens.old) ≡ ended result (left tokens.new) }
    ensures source { source tokens.new ≡ source tokens.old }
{
    tokens.expect(Terminal::Nop)?;
    pass_target(tokens)
}

#[tactic(auto, unfolding(crate::specs::Rules::op_instr))]
fn pass_op(tokens: &mut Tokens<'_>) -> Result<(), Unfit>
    ensures passes { eat op_instr (left tokens.old) ≡ ended result (left tokens.new) }
    ensures source { source tokens.new ≡ source tokens.old }
{
    tokens.expect(Terminal::Op)?;
    tokens.expect(Terminal::Name)?;
    tokens.expect(Terminal::Equals)?;
    pass_expr(tokens)?;
    pass_target(tokens)
}

#[tactic(auto, unfolding(crate::specs::Rules::cond_instr))]
fn pass_cond(tokens: &mut Tokens<'_>) -> Result<(), Unfit>
    ensures passes { eat cond_instr (left tokens.old) ≡ ended result (left tokens.new) }
    ensures source { source tokens.new ≡ source tokens.old }
{
    tokens.expect(Terminal::Cond)?;
    pass_operand(tokens)?;
    pass_target(tokens)?;
    tokens.expect(Terminal::Comma)?;
    tokens.expect(Terminal::Number)
}

#[tactic(auto, using(crate::proofs::Ahead::ahead), unfolding(crate::specs::Rules::operands, crate::specs::Rules::operand))]
fn begins_operands(tokens: &Tokens<'_>) -> bool
    ensures { result ≡ starts operands (left tokens.now) }
{
    matches!(tokens.peek(), Terminal::Name | Terminal::Number)
}

fn pass_arguments(tokens: &mut Tokens<'_>) -> Result<(), Unfit>
    ensures passes { eat (opt operands) (left tokens.old) ≡ ended result (left tokens.new) }
    ensures source { source tokens.new ≡ source tokens.old }
{
    if begins_operands(tokens) {
        pass_operands(tokens)?;
    }
    Ok(())
}

#[tactic(auto, unfolding(crate::specs::Rules::call_instr))]
fn pass_call(tokens: &mut Tokens<'_>) -> Result<(), Unfit>
    ensures passes { eat call_instr (left tokens.old) ≡ ended result (left tokens.new) }
    ensures source { source tokens.new ≡ source tokens.old }
{
    tokens.expect(Terminal::Call)?;
    tokens.expect(Terminal::Name)?;
    tokens.expect(Terminal::Equals)?;
    tokens.expect(Terminal::Name)?;
    tokens.expect(Terminal::OpenParen)?;
    pass_arguments(tokens)?;
    tokens.expect(Terminal::CloseParen)?;
    pass_target(tokens)
}

#[tactic(auto, unfolding(crate::specs::Rules::return_instr))]
fn pass_return(tokens: &mut Tokens<'_>) -> Result<(), Unfit>
    ensures passes { eat return_instr (left tokens.old) ≡ ended result (left tokens.new) }
    ensures source { source tokens.new ≡ source tokens.old }
{
    tokens.expect(Terminal::Return)?;
    pass_operand(tokens)
}

#[tactic(auto, unfolding(crate::specs::Rules::print_instr))]
fn pass_print(tokens: &mut Tokens<'_>) -> Result<(), Unfit>
    ensures passes { eat print_instr (left tokens.old) ≡ ended result (left tokens.new) }
    ensures source { source tokens.new ≡ source tokens.old }
{
    tokens.expect(Terminal::Print)?;
    pass_operand(tokens)?;
    pass_target(tokens)
}

#[tactic(auto, unfolding(crate::specs::Rules::load_instr))]
fn pass_load(tokens: &mut Tokens<'_>) -> Result<(), Unfit>
    ensures passes { eat load_instr (left tokens.old) ≡ ended result (left tokens.new) }
    ensures source { source tokens.new ≡ source tokens.old }
{
    tokens.expect(Terminal::Load)?;
    tokens.expect(Terminal::Name)?;
    tokens.expect(Terminal::Equals)?;
    tokens.expect(Terminal::OpenBracket)?;
    pass_operand(tokens)?;
    tokens.expect(Terminal::CloseBracket)?;
    pass_target(tokens)
}

#[tactic(auto, unfolding(crate::specs::Rules::store_instr))]
fn pass_store(tokens: &mut Tokens<'_>) -> Result<(), Unfit>
    ensures passes { eat store_instr (left tokens.old) ≡ ended result (left tokens.new) }
    ensures source { source tokens.new ≡ source tokens.old }
{
    tokens.expect(Terminal::Store)?;
    tokens.expect(Terminal::OpenBracket)?;
    pass_operand(tokens)?;
    tokens.expect(Terminal::CloseBracket)?;
    tokens.expect(Terminal::Equals)?;
    pass_operand(tokens)?;
    pass_target(tokens)
}

#[tactic(auto, unfolding(crate::specs::Rules::fail_instr))]
fn pass_fail(tokens: &mut Tokens<'_>) -> Result<(), Unfit>
    ensures passes { eat fail_instr (left tokens.old) ≡ ended result (left tokens.new) }
    ensures source { source tokens.new ≡ source tokens.old }
{
    tokens.expect(Terminal::Fail)?;
    tokens.expect(Terminal::Text)
}

#[tactic(auto, using(crate::proofs::Ahead::ahead), unfolding(crate::specs::Rules::instr, crate::specs::Rules::nop_instr, crate::specs::Rules::op_instr, crate::specs::Rules::cond_instr, crate::specs::Rules::call_instr, crate::specs::Rules::return_instr, crate::specs::Rules::print_instr, crate::specs::Rules::load_instr, crate::specs::Rules::store_instr, crate::specs::Rules::fail_instr))]
fn pass_instr(tokens: &mut Tokens<'_>) -> Result<(), Unfit>
    ensures passes { eat instr (left tokens.old) ≡ ended result (left tokens.new) }
    ensures source { source tokens.new ≡ source tokens.old }
{
    match tokens.peek() {
        Terminal::Nop => pass_nop(tokens),
        Terminal::Op => pass_op(tokens),
        Terminal::Cond => pass_cond(tokens),
        Terminal::Call => pass_call(tokens),
        Terminal::Return => pass_return(tokens),
        Terminal::Print => pass_print(tokens),
        Terminal::Load => pass_load(tokens),
        Terminal::Store => pass_store(tokens),
        _ => pass_fail(tokens),
    }
}

#[tactic(auto, unfolding(crate::specs::Rules::line))]
fn pass_line(tokens: &mut Tokens<'_>) -> Result<(), Unfit>
    ensures passes { eat line (left tokens.old) ≡ ended result (left tokens.new) }
    ensures source { source tokens.new ≡ source tokens.old }
{
    tokens.expect(Terminal::Number)?;
    tokens.expect(Terminal::Colon)?;
    pass_instr(tokens)
}

#[tactic(auto, using(crate::proofs::Turns::lines_go, crate::proofs::Turns::lines_stop, crate::proofs::Turns::line_shorter))]
pub(crate) fn pass_lines(tokens: &mut Tokens<'_>) -> Result<(), Unfit>
    ensures passes { eat lines (left tokens.old) ≡ ended result (left tokens.new) }
    ensures source { source tokens.new ≡ source tokens.old }
{
    'more: while tokens.is_at(Terminal::Number) {
        pass_line(tokens)?;
    }
    Ok(())
}
