//! Registers, operands, expressions and targets.

ghost use Rattle.std.specs.Prelude.{◌≡◌, ◌<◌, length, option_copied, IfSome};
ghost use Rattle.cj_tokens.specs.Seen.{seen};
ghost use Rattle.cj_tokens.specs.Left.{left, source};
ghost use Rattle.cj_tokens.specs.Passing.{front};
ghost use Rattle.cj_grammar.specs.Readers.{Found, Gives};
ghost use Rattle.cj_reader.specs.Scopes.{name_place};
ghost use Rattle.cj_reader.specs.Operands.{is_line_number};
ghost use Rattle.cj_reader.specs.Known.{scope_in};
ghost use Rattle.cj_reader.specs.Reading.{register_at, label_at, target_at, operand_at, dest_at, address_at, expr_at, rest_at, operator_of};

use crate::operators::{applied, operator_at};
use crate::refusals::refuse_if;
use crate::scope::Scope;
use cj_grammar::refused;
use cj_ir::limits::{MAX_LABEL_NAME, MAX_NAME};
use cj_ir::{Expr, Label, Name, Operand, Reg};
use cj_tokens::{Kind, Lexeme, ParseError, Terminal, Tokens};

// The place of a name.
fn name_place(names: &[Name], text: &[u8]) -> Option<usize>
    ensures place { result ≡ name_place names.now text.now }
    ensures within { IfSome result (λ place. place < length names.now) }
{
    names.iter().position(|name| name.bytes() == text)
}

/// The register that a NAME is.
#[tactic(auto, unfolding(crate::specs::Reading::register_at))]
pub fn register(scope: Scope<'_>, token: Lexeme<'_>) -> Result<Reg, ParseError>
    ensures { Found result (register_at (scope_in scope.entry) (seen token.entry)) }
{
    refuse_if(token.text.len() > MAX_NAME, token, Kind::TooMany)?;
    match name_place(scope.registers, token.text) {
        Some(place) => Ok(Reg(place as u32)),
        None => Err(refused(token, Kind::NoRegister)),
    }
}

/// Whether lines may have the number.
pub fn is_line_number(number: i64) -> bool
    ensures { result ≡ is_line_number number }
{
    0 <= number && number <= i64::from(MAX_LABEL_NAME)
}

/// The label that a NUM is.
#[tactic(auto, unfolding(crate::specs::Reading::label_at))]
pub fn label(scope: Scope<'_>, token: Lexeme<'_>) -> Result<Label, ParseError>
    ensures { Found result (label_at (scope_in scope.entry) (seen token.entry)) }
{
    refuse_if(!is_line_number(token.number), token, Kind::Range)?;
    match scope.labels.place(token.number) {
        Some(place) => Ok(Label(place)),
        None => Err(refused(token, Kind::NoLabel)),
    }
}

/// A mark and the label behind it.
#[tactic(auto, unfolding(crate::specs::Reading::target_at))]
pub fn read_target(tokens: &mut Tokens<'_>, scope: Scope<'_>) -> Result<Label, ParseError>
    ensures reads { Gives result (left tokens.new) (target_at (scope_in scope.entry) (left tokens.old)) }
    ensures source { source tokens.new ≡ source tokens.old }
{
    let _mark = tokens.take();
    let number = tokens.take();
    label(scope, number)
}

/// A register or a number.
#[tactic(auto, unfolding(crate::specs::Reading::operand_at))]
pub fn read_operand(tokens: &mut Tokens<'_>, scope: Scope<'_>) -> Result<Operand, ParseError>
    ensures reads { Gives result (left tokens.new) (operand_at (scope_in scope.entry) (left tokens.old)) }
    ensures source { source tokens.new ≡ source tokens.old }
{
    let token = tokens.take();
    if token.terminal == Terminal::Name {
        let reg = register(scope, token)?;
        Ok(Operand::Reg(reg))
    } else {
        Ok(Operand::Const(token.number))
    }
}

/// A register and the `=` behind it.
#[tactic(auto, unfolding(crate::specs::Reading::dest_at))]
pub fn read_dest(tokens: &mut Tokens<'_>, scope: Scope<'_>) -> Result<Reg, ParseError>
    ensures reads { Gives result (left tokens.new) (dest_at (scope_in scope.entry) (left tokens.old)) }
    ensures source { source tokens.new ≡ source tokens.old }
{
    let name = tokens.take();
    let dest = register(scope, name)?;
    let _equals = tokens.take();
    Ok(dest)
}

/// An operand in brackets.
#[tactic(auto, unfolding(crate::specs::Reading::address_at))]
pub fn read_address(tokens: &mut Tokens<'_>, scope: Scope<'_>) -> Result<Operand, ParseError>
    ensures reads { Gives result (left tokens.new) (address_at (scope_in scope.entry) (left tokens.old)) }
    ensures source { source tokens.new ≡ source tokens.old }
{
    let _bracket = tokens.take();
    let address = read_operand(tokens, scope)?;
    let _bracket = tokens.take();
    Ok(address)
}

// What stands behind a first operand.
fn read_rest(tokens: &mut Tokens<'_>, scope: Scope<'_>, first: Operand) -> Result<Expr, ParseError>
    ensures reads { let ts = left tokens.old in
        Gives result (left tokens.new) (rest_at (scope_in scope.entry) first ts (operator_of (front ts).terminal)) }
    ensures source { source tokens.new ≡ source tokens.old }
{
    match operator_at(tokens.peek()) {
        None => Ok(Expr::Copy(first)),
        Some(operator) => {
            let _mark = tokens.take();
            let right = read_operand(tokens, scope)?;
            Ok(applied(operator, first, right))
        }
    }
}

/// An expression.
#[tactic(auto, unfolding(crate::specs::Reading::expr_at))]
pub fn read_expr(tokens: &mut Tokens<'_>, scope: Scope<'_>) -> Result<Expr, ParseError>
    ensures reads { Gives result (left tokens.new) (expr_at (scope_in scope.entry) (left tokens.old)) }
    ensures source { source tokens.new ≡ source tokens.old }
{
    match tokens.peek() {
        Terminal::Neg => {
            let _word = tokens.take();
            let value = read_operand(tokens, scope)?;
            Ok(Expr::Neg(value))
        }
        Terminal::Eqz => {
            let _word = tokens.take();
            let value = read_operand(tokens, scope)?;
            Ok(Expr::Eqz(value))
        }
        _ => {
            let first = read_operand(tokens, scope)?;
            read_rest(tokens, scope, first)
        }
    }
}
