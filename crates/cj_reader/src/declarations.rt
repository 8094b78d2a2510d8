//! What a function declares in front of its lines.

ghost use Rattle.std.specs.Prelude.{◌≡◌, ◌≤◌, length, IfOk};
ghost use Rattle.cj_tokens.specs.Left.{left, source};
ghost use Rattle.cj_grammar.specs.Readers.{Gives};
ghost use Rattle.cj_reader.specs.Reading.{declared_at};

use crate::counts::count_items;
use crate::names::{read_names, read_others};
use cj_ir::Names;
use cj_ir::limits::{MAX_PARAMS, MAX_REGS};
use cj_tokens::{ParseError, Tokens};
use std::alloc::Global;

/// How many parameters a function has, and its registers.
#[derive(Drop)]
pub struct Declared {
    pub params: u32,
    pub registers: Names,
}

/// What a function declares, in parentheses.
#[tactic(auto, unfolding(crate::specs::Reading::declared_at))]
pub fn read_declared(alloc: Global, tokens: &mut Tokens<'_>) -> Result<Declared, ParseError>
    ensures reads { Gives result (left tokens.new) (declared_at (left tokens.old)) }
    ensures source { source tokens.new ≡ source tokens.old }
    ensures few { IfOk result (λ declared. length declared.registers ≤ MAX_REGS) }
{
    let _paren = tokens.take();
    let count = count_items(*tokens)?;
    let names = read_names(alloc, tokens, MAX_PARAMS as usize, count, Names::new(alloc))?;
    let params = names.items().len() as u32;
    let registers = read_others(alloc, tokens, names)?;
    let _paren = tokens.take();
    Ok(Declared { params, registers })
}
