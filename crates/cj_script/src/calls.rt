//! The calls of a script.

ghost use Rattle.std.specs.Prelude.{◌≡◌, ◌+◌, ◌≤◌, [], length, IfOk};
ghost use Rattle.cj_tokens.specs.Left.{left, source};
ghost use Rattle.cj_grammar.specs.Readers.{Gives};
ghost use Rattle.cj_script.specs.Reading.{limits, call_at, calls_at};

use crate::begun::read_run;
use crate::limits::MAX_CALLS;
use cj_grammar::refused;
use cj_ir::limits::MAX_FUNCTIONS;
use cj_ir::{Function, ScriptCall, ScriptCalls};
use cj_tokens::{Kind, ParseError, Terminal, Tokens};
use std::alloc::Global;

/// One call more, where `spent` is the sum of the limits of the earlier ones.
#[tactic(auto, unfolding(crate::specs::Reading::call_at))]
fn read_call(
    alloc: Global,
    tokens: &mut Tokens<'_>,
    functions: &[Function],
    earlier: &[ScriptCall],
    spent: u32,
) -> Result<ScriptCall, ParseError>
    requires few { length functions.now ≤ MAX_FUNCTIONS }
    requires sum { limits earlier.now ≡ spent }
    requires spent { spent ≤ 4000000 }
    ensures gives { Gives result (left tokens.new) (call_at functions.now earlier.now (left tokens.old)) }
    ensures source { source tokens.new ≡ source tokens.old }
    ensures within { IfOk result (λ call. spent + call.limit ≤ 4000000) }
{
    let word = tokens.take();
    if earlier.len() >= MAX_CALLS {
        return Err(refused(word, Kind::TooMany));
    }
    read_run(alloc, tokens, functions, spent)
}

/// All calls.
#[tactic(auto, using(crate::proofs::CallTurns::calls_turn, crate::proofs::CallTurns::calls_fail, crate::proofs::CallTurns::calls_stop, crate::proofs::CallTurns::call_shorter))]
pub fn read_calls(
    alloc: Global,
    tokens: &mut Tokens<'_>,
    functions: &[Function],
) -> Result<ScriptCalls, ParseError>
    requires { length functions.now ≤ MAX_FUNCTIONS }
    ensures gives { Gives result (left tokens.new) (calls_at functions.now [] (left tokens.old)) }
    ensures source { source tokens.new ≡ source tokens.old }
{
    let mut calls = ScriptCalls::new(alloc);
    let mut spent = 0;
    'calls: while tokens.is_at(Terminal::Call) {
        let call = match read_call(alloc, tokens, functions, calls.items(), spent) {
            Ok(call) => call,
            Err(error) => return Err(error),
        };
        spent += call.limit;
        match calls.push(call) {
            Ok(()) => {}
            Err(_) => return Err(ParseError::NoMemory),
        }
    }
    Ok(calls)
}
