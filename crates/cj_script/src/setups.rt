//! The setups of a script.

ghost use Rattle.std.specs.Prelude.{◌≡◌, ◌≤◌, [], length, All};
ghost use Rattle.cj_tokens.specs.Left.{left, source};
ghost use Rattle.cj_tokens.specs.Passing.{behind};
ghost use Rattle.cj_grammar.specs.Readers.{Gives};
ghost use Rattle.cj_script.specs.Reading.{guess_at, cold_at, warm_at, setup_at, is_setup, edge_at, setups_at};

use crate::judge::{function_at, function_id, number_within};
use crate::places::{cond_place, parameter_place};
use cj_ir::limits::{MAX_FUNCTIONS, MAX_LABELS};
use cj_ir::{Edge, Function, Setup, Setups};
use cj_tokens::{ParseError, Terminal, Tokens};
use std::alloc::Global;

/// A function, a parameter and its value.
#[tactic(auto, unfolding(crate::specs::Reading::guess_at))]
fn read_guess(tokens: &mut Tokens<'_>, functions: &[Function]) -> Result<Setup, ParseError>
    requires { length functions.now ≤ MAX_FUNCTIONS }
    ensures gives { Gives result (left tokens.new) (guess_at functions.now (left tokens.old)) }
    ensures source { source tokens.new ≡ source tokens.old }
{
    let name = tokens.take();
    let parameter = tokens.take();
    let value = tokens.take();
    let function = function_id(functions, name)?;
    let param = parameter_place(function_at(functions, function), parameter)?;
    Ok(Setup::Guess {
        function,
        param,
        value: value.number,
    })
}

fn read_edge(tokens: &mut Tokens<'_>) -> Edge
    ensures edge { result ≡ edge_at (left tokens.old) }
    ensures left { left tokens.new ≡ behind (left tokens.old) }
    ensures source { source tokens.new ≡ source tokens.old }
{
    let edge = if tokens.is_at(Terminal::Then) {
        Edge::Then
    } else {
        Edge::Else
    };
    let _word = tokens.take();
    edge
}

/// A function, the number of a `cond`, and one of its edges.
#[tactic(auto, unfolding(crate::specs::Reading::cold_at))]
fn read_cold(tokens: &mut Tokens<'_>, functions: &[Function]) -> Result<Setup, ParseError>
    requires few { length functions.now ≤ MAX_FUNCTIONS }
    requires short { All (λ f. length f.code ≤ MAX_LABELS) functions.now }
    ensures gives { Gives result (left tokens.new) (cold_at functions.now (left tokens.old)) }
    ensures source { source tokens.new ≡ source tokens.old }
{
    let name = tokens.take();
    let number = tokens.take();
    let edge = read_edge(tokens);
    let function = function_id(functions, name)?;
    let label = cond_place(function_at(functions, function), number)?;
    Ok(Setup::Cold {
        function,
        label,
        edge,
    })
}

/// A function and a level.
#[tactic(auto, unfolding(crate::specs::Reading::warm_at))]
fn read_warm(tokens: &mut Tokens<'_>, functions: &[Function]) -> Result<Setup, ParseError>
    requires { length functions.now ≤ MAX_FUNCTIONS }
    ensures gives { Gives result (left tokens.new) (warm_at functions.now (left tokens.old)) }
    ensures source { source tokens.new ≡ source tokens.old }
{
    let name = tokens.take();
    let level = tokens.take();
    let function = function_id(functions, name)?;
    let level = number_within(level, 1, 3)?;
    Ok(Setup::Warm {
        function,
        level: level as u8,
    })
}

/// One setup.
#[tactic(auto, unfolding(crate::specs::Reading::setup_at))]
fn read_setup(tokens: &mut Tokens<'_>, functions: &[Function]) -> Result<Setup, ParseError>
    requires few { length functions.now ≤ MAX_FUNCTIONS }
    requires short { All (λ f. length f.code ≤ MAX_LABELS) functions.now }
    ensures gives { Gives result (left tokens.new) (setup_at functions.now (left tokens.old)) }
    ensures source { source tokens.new ≡ source tokens.old }
{
    if tokens.is_at(Terminal::Guess) {
        let _word = tokens.take();
        read_guess(tokens, functions)
    } else if tokens.is_at(Terminal::Cold) {
        let _word = tokens.take();
        read_cold(tokens, functions)
    } else {
        let _word = tokens.take();
        read_warm(tokens, functions)
    }
}

/// A setup stands next.
fn is_setup(tokens: &Tokens<'_>) -> bool
    ensures { result ≡ is_setup (left tokens.now) }
{
    tokens.is_at(Terminal::Guess) || tokens.is_at(Terminal::Cold) || tokens.is_at(Terminal::Warm)
}

/// All setups.
#[tactic(auto, using(crate::proofs::SetupTurns::setups_turn, crate::proofs::SetupTurns::setups_fail, crate::proofs::SetupTurns::setups_stop, crate::proofs::SetupTurns::setup_shorter))]
pub fn read_setups(
    alloc: Global,
    tokens: &mut Tokens<'_>,
    functions: &[Function],
) -> Result<Setups, ParseError>
    requires few { length functions.now ≤ MAX_FUNCTIONS }
    requires short { All (λ f. length f.code ≤ MAX_LABELS) functions.now }
    ensures gives { Gives result (left tokens.new) (setups_at functions.now [] (left tokens.old)) }
    ensures source { source tokens.new ≡ source tokens.old }
{
    let mut setups = Setups::new(alloc);
    'setups: while is_setup(tokens) {
        let setup = match read_setup(tokens, functions) {
            Ok(setup) => setup,
            Err(error) => return Err(error),
        };
        match setups.push(setup) {
            Ok(()) => {}
            Err(_) => return Err(ParseError::NoMemory),
        }
    }
    Ok(setups)
}
