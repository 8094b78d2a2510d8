//! The script of a generated program.

ghost use Rattle.std.specs.Prelude.{◌≡◌, [], ◌∷◌, ◌++◌, IfOk, OnOk};
ghost use Rattle.cj_bench.specs.Generated.{after, call_drawn, calls_drawn};

use crate::draws::Draws;
use cj_ir::{FunId, NoMemory, ScriptCall, ScriptCalls, Values};
use std::alloc::Global;

const CALLS: u32 = 256;

/// The 256 calls, which draw two numbers each.
pub(crate) fn drawn_calls(alloc: Global, draws: &mut Draws) -> Result<ScriptCalls, NoMemory>
    ensures { IfOk result (λ calls. calls ≡ calls_drawn 256 draws.old.state) }
{
    let mut calls = ScriptCalls::new(alloc);
    for _place in 0..CALLS {
        push_call(alloc, &mut calls, draws)?;
    }
    Ok(calls)
}

#[tactic(auto, unfolding(crate::specs::Generated::call_drawn, crate::specs::Generated::after))]
fn push_call(alloc: Global, calls: &mut ScriptCalls, draws: &mut Draws) -> Result<(), NoMemory>
    ensures more { OnOk result (calls.new ≡ calls.old ++ call_drawn draws.old.state ∷ []) }
    ensures next { draws.new.state ≡ after 2 draws.old.state }
{
    let first = draws.below(1000);
    let second = draws.below(5);
    let mut args = Values::new(alloc);
    args.push(i64::from(first))?;
    args.push(i64::from(second))?;
    calls.push(ScriptCall {
        function: FunId(0),
        args,
        cells: 64,
        limit: 15000,
    })
}
