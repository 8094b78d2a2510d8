//! What a call calls, and its arguments.

ghost use Rattle.std.specs.Prelude.{◌≡◌};
ghost use Rattle.cj_tokens.specs.Seen.{seen};
ghost use Rattle.cj_tokens.specs.Left.{left, source};
ghost use Rattle.cj_grammar.specs.Readers.{Found, Gives, each_at};
ghost use Rattle.cj_reader.specs.Known.{scope_in, Grows};
ghost use Rattle.cj_reader.specs.Reading.{callee_at, one_more_at, next_operand_at, arguments_at, called_at};

use crate::counts::count_items;
use crate::memory::remembered;
use crate::operands::read_operand;
use crate::refusals::refuse_if;
use crate::scope::Scope;
use cj_grammar::refused;
use cj_ir::limits::MAX_NAME;
use cj_ir::{FunId, Operands};
use cj_tokens::{Kind, Lexeme, ParseError, Tokens};
use std::alloc::Global;

/// What is called, and with which arguments.
#[derive(Drop)]
pub struct Called {
    pub function: FunId,
    pub args: Operands,
}

// The function that a NAME calls with a number of arguments.
#[tactic(auto, unfolding(crate::specs::Reading::callee_at))]
fn callee(scope: Scope<'_>, token: Lexeme<'_>, count: u32) -> Result<FunId, ParseError>
    ensures { Found result (callee_at (scope_in scope.entry) (seen token.entry) count) }
{
    refuse_if(token.text.len() > MAX_NAME, token, Kind::TooMany)?;
    match scope.functions.callee(token.text) {
        None => Err(refused(token, Kind::NoFunction)),
        Some(callee) if callee.params == count => Ok(callee.function),
        Some(_) => Err(refused(token, Kind::Arguments)),
    }
}

// A comma and an operand.
fn add_operand(
    tokens: &mut Tokens<'_>,
    scope: Scope<'_>,
    operands: &mut Operands,
) -> Result<(), ParseError>
    ensures reads { Grows result operands.new (left tokens.new) (one_more_at (next_operand_at (scope_in scope.entry)) operands.old (left tokens.old)) }
    ensures source { source tokens.new ≡ source tokens.old }
{
    let _comma = tokens.take();
    let operand = read_operand(tokens, scope)?;
    remembered(operands.push(operand))
}

// So many operands, each behind a comma.
fn read_more(
    tokens: &mut Tokens<'_>,
    scope: Scope<'_>,
    count: u32,
    mut operands: Operands,
) -> Result<Operands, ParseError>
    ensures reads { Gives result (left tokens.new) (each_at (next_operand_at (scope_in scope.entry)) count operands (left tokens.old)) }
    ensures source { source tokens.new ≡ source tokens.old }
{
    'more: for k in 0..count {
        match add_operand(tokens, scope, &mut operands) {
            Ok(()) => {}
            Err(error) => return Err(error),
        }
    }
    Ok(operands)
}

// So many arguments.
fn read_arguments(
    alloc: Global,
    tokens: &mut Tokens<'_>,
    scope: Scope<'_>,
    count: u32,
) -> Result<Operands, ParseError>
    ensures reads { Gives result (left tokens.new) (arguments_at (scope_in scope.entry) count (left tokens.old)) }
    ensures source { source tokens.new ≡ source tokens.old }
{
    let mut operands = Operands::new(alloc);
    if count == 0 {
        return Ok(operands);
    }
    let first = read_operand(tokens, scope)?;
    remembered(operands.push(first))?;
    read_more(tokens, scope, count - 1, operands)
}

/// A NAME and its arguments in parentheses.
#[tactic(auto, unfolding(crate::specs::Reading::called_at))]
pub fn read_called(
    alloc: Global,
    tokens: &mut Tokens<'_>,
    scope: Scope<'_>,
) -> Result<Called, ParseError>
    ensures reads { Gives result (left tokens.new) (called_at (scope_in scope.entry) (left tokens.old)) }
    ensures source { source tokens.new ≡ source tokens.old }
{
    let name = tokens.take();
    let _paren = tokens.take();
    let count = count_items(*tokens)?;
    let function = callee(scope, name, count)?;
    let args = read_arguments(alloc, tokens, scope, count)?;
    let _paren = tokens.take();
    Ok(Called { function, args })
}
