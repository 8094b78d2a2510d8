//! The contexts of slots, as lists of facts.

ghost use Rattle.std.specs.Prelude.{◌≡◌, IfOk};
ghost use Rattle.cj_draft.specs.Contexts.{context_in};

use cj_draft::{Fact, FactList};
use cj_ir::{NoMemory, Reg};
use std::alloc::Global;

/// What is known of the arguments with which the versions in a slot are entered.
pub fn slot_context(alloc: Global, slot: u32) -> Result<FactList, NoMemory>
    ensures { IfOk result (λ facts. facts ≡ context_in slot) }
{
    let mut facts = FactList::new(alloc);
    let value = match slot {
        1 => 0,
        2 => 1,
        3 => -1,
        _ => return Ok(facts),
    };
    facts.push(Fact { reg: Reg(0), value })?;
    Ok(facts)
}
