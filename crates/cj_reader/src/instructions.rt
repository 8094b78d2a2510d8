//! Instructions.

ghost use Rattle.std.specs.Prelude.{◌≡◌};
ghost use Rattle.cj_tokens.specs.Left.{left, source};
ghost use Rattle.cj_grammar.specs.Readers.{Gives};
ghost use Rattle.cj_reader.specs.Known.{scope_in};
ghost use Rattle.cj_reader.specs.Reading.{nop_at, op_at, cond_at, call_at, return_at, print_at, load_at, store_at, fail_at, instr_at};

use crate::calls::{Called, read_called};
use crate::operands::{read_address, read_dest, read_expr, read_operand, read_target};
use crate::refusals::refuse_if;
use crate::scope::Scope;
use crate::words::text;
use cj_ir::Instr;
use cj_ir::limits::MAX_TEXT;
use cj_tokens::{Kind, ParseError, Terminal, Tokens};
use std::alloc::Global;

#[tactic(auto, unfolding(crate::specs::Reading::nop_at))]
fn read_nop(tokens: &mut Tokens<'_>, scope: Scope<'_>) -> Result<Instr, ParseError>
    ensures reads { Gives result (left tokens.new) (nop_at (scope_in scope.entry) (left tokens.old)) }
    ensures source { source tokens.new ≡ source tokens.old }
{
    let next = read_target(tokens, scope)?;
    Ok(Instr::Nop { next })
}

#[tactic(auto, unfolding(crate::specs::Reading::op_at))]
fn read_op(tokens: &mut Tokens<'_>, scope: Scope<'_>) -> Result<Instr, ParseError>
    ensures reads { Gives result (left tokens.new) (op_at (scope_in scope.entry) (left tokens.old)) }
    ensures source { source tokens.new ≡ source tokens.old }
{
    let dest = read_dest(tokens, scope)?;
    let expr = read_expr(tokens, scope)?;
    let next = read_target(tokens, scope)?;
    Ok(Instr::Op { dest, expr, next })
}

#[tactic(auto, unfolding(crate::specs::Reading::cond_at))]
fn read_cond(tokens: &mut Tokens<'_>, scope: Scope<'_>) -> Result<Instr, ParseError>
    ensures reads { Gives result (left tokens.new) (cond_at (scope_in scope.entry) (left tokens.old)) }
    ensures source { source tokens.new ≡ source tokens.old }
{
    let test = read_operand(tokens, scope)?;
    let then_to = read_target(tokens, scope)?;
    let else_to = read_target(tokens, scope)?;
    Ok(Instr::Cond {
        test,
        then_to,
        else_to,
    })
}

#[tactic(auto, unfolding(crate::specs::Reading::call_at))]
fn read_call(alloc: Global, tokens: &mut Tokens<'_>, scope: Scope<'_>) -> Result<Instr, ParseError>
    ensures reads { Gives result (left tokens.new) (call_at (scope_in scope.entry) (left tokens.old)) }
    ensures source { source tokens.new ≡ source tokens.old }
{
    let dest = read_dest(tokens, scope)?;
    let Called { function, args } = read_called(alloc, tokens, scope)?;
    let next = read_target(tokens, scope)?;
    Ok(Instr::Call {
        dest,
        function,
        args,
        next,
    })
}

#[tactic(auto, unfolding(crate::specs::Reading::return_at))]
fn read_return(tokens: &mut Tokens<'_>, scope: Scope<'_>) -> Result<Instr, ParseError>
    ensures reads { Gives result (left tokens.new) (return_at (scope_in scope.entry) (left tokens.old)) }
    ensures source { source tokens.new ≡ source tokens.old }
{
    let value = read_operand(tokens, scope)?;
    Ok(Instr::Return { value })
}

#[tactic(auto, unfolding(crate::specs::Reading::print_at))]
fn read_print(tokens: &mut Tokens<'_>, scope: Scope<'_>) -> Result<Instr, ParseError>
    ensures reads { Gives result (left tokens.new) (print_at (scope_in scope.entry) (left tokens.old)) }
    ensures source { source tokens.new ≡ source tokens.old }
{
    let value = read_operand(tokens, scope)?;
    let next = read_target(tokens, scope)?;
    Ok(Instr::Print { value, next })
}

#[tactic(auto, unfolding(crate::specs::Reading::load_at))]
fn read_load(tokens: &mut Tokens<'_>, scope: Scope<'_>) -> Result<Instr, ParseError>
    ensures reads { Gives result (left tokens.new) (load_at (scope_in scope.entry) (left tokens.old)) }
    ensures source { source tokens.new ≡ source tokens.old }
{
    let dest = read_dest(tokens, scope)?;
    let address = read_address(tokens, scope)?;
    let next = read_target(tokens, scope)?;
    Ok(Instr::Load {
        dest,
        address,
        next,
    })
}

#[tactic(auto, unfolding(crate::specs::Reading::store_at))]
fn read_store(tokens: &mut Tokens<'_>, scope: Scope<'_>) -> Result<Instr, ParseError>
    ensures reads { Gives result (left tokens.new) (store_at (scope_in scope.entry) (left tokens.old)) }
    ensures source { source tokens.new ≡ source tokens.old }
{
    let address = read_address(tokens, scope)?;
    let _equals = tokens.take();
    let value = read_operand(tokens, scope)?;
    let next = read_target(tokens, scope)?;
    Ok(Instr::Store {
        address,
        value,
        next,
    })
}

#[tactic(auto, unfolding(crate::specs::Reading::fail_at))]
fn read_fail(alloc: Global, tokens: &mut Tokens<'_>) -> Result<Instr, ParseError>
    ensures reads { Gives result (left tokens.new) (fail_at (left tokens.old)) }
    ensures source { source tokens.new ≡ source tokens.old }
{
    let token = tokens.take();
    refuse_if(token.text.len() > MAX_TEXT, token, Kind::TooMany)?;
    let text = text(alloc, token)?;
    Ok(Instr::Fail { text })
}

/// An instruction.
#[tactic(auto, unfolding(crate::specs::Reading::instr_at))]
pub fn read_instr(
    alloc: Global,
    tokens: &mut Tokens<'_>,
    scope: Scope<'_>,
) -> Result<Instr, ParseError>
    ensures reads { Gives result (left tokens.new) (instr_at (scope_in scope.entry) (left tokens.old)) }
    ensures source { source tokens.new ≡ source tokens.old }
{
    let word = tokens.take();
    match word.terminal {
        Terminal::Nop => read_nop(tokens, scope),
        Terminal::Op => read_op(tokens, scope),
        Terminal::Cond => read_cond(tokens, scope),
        Terminal::Call => read_call(alloc, tokens, scope),
        Terminal::Return => read_return(tokens, scope),
        Terminal::Print => read_print(tokens, scope),
        Terminal::Load => read_load(tokens, scope),
        Terminal::Store => read_store(tokens, scope),
        _ => read_fail(alloc, tokens),
    }
}
