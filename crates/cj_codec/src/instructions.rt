//! Instructions, read from their words.

ghost use Rattle.std.specs.Prelude.{◌≡◌, IfErr};
ghost use Rattle.cj_codec.specs.declared.reader.ReadError.TheVariants as read_error;
ghost use Rattle.cj_codec.specs.Reading.{pair_at, pairs_at, has_dest, are_apart, op_at, move_at, cond_at, call_at, print_at, load_at, store_at, fail_at, assume_at, instr_by, instr_at};
ghost use Rattle.cj_spelling.specs.Kinds.{instr_number};
ghost use Rattle.cj_codec.specs.Answers.{left, Gives};

use crate::items::{Item, read_few};
use crate::operands::{read_expr, read_operand};
use crate::points::read_point;
use crate::reader::{Limits, ReadError, WordReader};
use cj_draft::limits::{MAX_BACK, MAX_CODE_REGS, MAX_GUARDS};
use cj_draft::{Pair, Pairs, VInstr};
use cj_ir::Reg;
use cj_ir::limits::MAX_PARAMS;
use cj_spelling::InstrKind;
use std::alloc::Global;

impl Item for Pair {
    ghost reading = { pair_at };

    #[tactic(auto, unfolding(crate::specs::Reading::pair_at))]
    fn read(_alloc: Global, words: &mut WordReader<'_>, limits: Limits) -> Result<Pair, ReadError>
        ensures reads { Gives result (left words.new) (pair_at limits (left words.old)) }
        ensures err { IfErr result (λ error. error ≡ read_error.NoSpelling) }
    {
        let dest = words.reg(limits)?;
        let value = read_operand(words, limits)?;
        Ok(Pair { dest, value })
    }
}

// Whether one of the assignments has that destination.
fn has_dest(dest: Reg, pairs: &[Pair]) -> bool
    ensures { result ≡ has_dest dest.0 pairs.now }
{
    pairs.iter().any(|pair| pair.dest.0 == dest.0)
}

// Whether the destinations differ.
fn are_apart(pairs: &[Pair]) -> bool
    ensures { result ≡ are_apart pairs.now }
{
    let mut rest = pairs;
    'rest: while let Some((pair, others)) = rest.split_first() {
        if has_dest(pair.dest, others) {
            return false;
        }
        rest = others;
    }
    true
}

// The assignments of a move.
#[tactic(auto, unfolding(crate::specs::Reading::pairs_at))]
fn read_pairs(alloc: Global, words: &mut WordReader<'_>, limits: Limits) -> Result<Pairs, ReadError>
    ensures { Gives result (left words.new) (pairs_at limits (left words.old)) }
{
    let pairs: Pairs = read_few(alloc, words, limits, MAX_CODE_REGS)?;
    if are_apart(pairs.items()) {
        Ok(pairs)
    } else {
        Err(ReadError::NoSpelling)
    }
}

#[tactic(auto, unfolding(crate::specs::Reading::op_at))]
fn read_op(words: &mut WordReader<'_>, limits: Limits) -> Result<VInstr, ReadError>
    ensures reads { Gives result (left words.new) (op_at limits (left words.old)) }
    ensures err { IfErr result (λ error. error ≡ read_error.NoSpelling) }
{
    let dest = words.reg(limits)?;
    let expr = read_expr(words, limits)?;
    let next = words.label(limits)?;
    Ok(VInstr::Op { dest, expr, next })
}

#[tactic(auto, unfolding(crate::specs::Reading::move_at))]
fn read_move(alloc: Global, words: &mut WordReader<'_>, limits: Limits) -> Result<VInstr, ReadError>
    ensures { Gives result (left words.new) (move_at limits (left words.old)) }
{
    let pairs = read_pairs(alloc, words, limits)?;
    let next = words.label(limits)?;
    Ok(VInstr::Move { pairs, next })
}

#[tactic(auto, unfolding(crate::specs::Reading::cond_at))]
fn read_cond(words: &mut WordReader<'_>, limits: Limits) -> Result<VInstr, ReadError>
    ensures reads { Gives result (left words.new) (cond_at limits (left words.old)) }
    ensures err { IfErr result (λ error. error ≡ read_error.NoSpelling) }
{
    let test = read_operand(words, limits)?;
    let then_to = words.label(limits)?;
    let else_to = words.label(limits)?;
    Ok(VInstr::Cond {
        test,
        then_to,
        else_to,
    })
}

#[tactic(auto, unfolding(crate::specs::Reading::call_at))]
fn read_call(alloc: Global, words: &mut WordReader<'_>, limits: Limits) -> Result<VInstr, ReadError>
    ensures { Gives result (left words.new) (call_at limits (left words.old)) }
{
    let dest = words.reg(limits)?;
    let function = words.function()?;
    let args = read_few(alloc, words, limits, MAX_PARAMS)?;
    let next = words.label(limits)?;
    Ok(VInstr::Call {
        dest,
        function,
        args,
        next,
    })
}

#[tactic(auto, unfolding(crate::specs::Reading::print_at))]
fn read_print(words: &mut WordReader<'_>, limits: Limits) -> Result<VInstr, ReadError>
    ensures reads { Gives result (left words.new) (print_at limits (left words.old)) }
    ensures err { IfErr result (λ error. error ≡ read_error.NoSpelling) }
{
    let value = read_operand(words, limits)?;
    let next = words.label(limits)?;
    Ok(VInstr::Print { value, next })
}

#[tactic(auto, unfolding(crate::specs::Reading::load_at))]
fn read_load(words: &mut WordReader<'_>, limits: Limits) -> Result<VInstr, ReadError>
    ensures reads { Gives result (left words.new) (load_at limits (left words.old)) }
    ensures err { IfErr result (λ error. error ≡ read_error.NoSpelling) }
{
    let dest = words.reg(limits)?;
    let address = read_operand(words, limits)?;
    let next = words.label(limits)?;
    Ok(VInstr::Load {
        dest,
        address,
        next,
    })
}

#[tactic(auto, unfolding(crate::specs::Reading::store_at))]
fn read_store(words: &mut WordReader<'_>, limits: Limits) -> Result<VInstr, ReadError>
    ensures reads { Gives result (left words.new) (store_at limits (left words.old)) }
    ensures err { IfErr result (λ error. error ≡ read_error.NoSpelling) }
{
    let address = read_operand(words, limits)?;
    let value = read_operand(words, limits)?;
    let next = words.label(limits)?;
    Ok(VInstr::Store {
        address,
        value,
        next,
    })
}

#[tactic(auto, unfolding(crate::specs::Reading::fail_at))]
fn read_fail(words: &mut WordReader<'_>) -> Result<VInstr, ReadError>
    ensures reads { Gives result (left words.new) (fail_at (left words.old)) }
    ensures err { IfErr result (λ error. error ≡ read_error.NoSpelling) }
{
    let function = words.function()?;
    let label = words.base_label()?;
    Ok(VInstr::Fail { function, label })
}

#[tactic(auto, unfolding(crate::specs::Reading::assume_at))]
fn read_assume(
    alloc: Global,
    words: &mut WordReader<'_>,
    limits: Limits,
) -> Result<VInstr, ReadError>
    ensures { Gives result (left words.new) (assume_at limits (left words.old)) }
{
    let guards = read_few(alloc, words, limits, MAX_GUARDS)?;
    let back = words.at_most(MAX_BACK)?;
    let target = read_point(alloc, words, limits)?;
    let next = words.label(limits)?;
    Ok(VInstr::Assume {
        guards,
        back,
        target,
        next,
    })
}

// An instruction of that kind.
fn read_kind(
    alloc: Global,
    kind: InstrKind,
    words: &mut WordReader<'_>,
    limits: Limits,
) -> Result<VInstr, ReadError>
    ensures { Gives result (left words.new) (instr_by limits (instr_number kind) (left words.old)) }
{
    match kind {
        InstrKind::Nop => {
            let next = words.label(limits)?;
            Ok(VInstr::Nop { next })
        }
        InstrKind::Op => read_op(words, limits),
        InstrKind::Move => read_move(alloc, words, limits),
        InstrKind::Cond => read_cond(words, limits),
        InstrKind::Call => read_call(alloc, words, limits),
        InstrKind::Return => {
            let value = read_operand(words, limits)?;
            Ok(VInstr::Return { value })
        }
        InstrKind::Print => read_print(words, limits),
        InstrKind::Load => read_load(words, limits),
        InstrKind::Store => read_store(words, limits),
        InstrKind::Fail => read_fail(words),
        InstrKind::Assume => read_assume(alloc, words, limits),
    }
}

/// An instruction.
#[tactic(auto, using(crate::proofs::NoKinds::no_instr), unfolding(crate::specs::Reading::instr_at))]
pub fn read_instr(
    alloc: Global,
    words: &mut WordReader<'_>,
    limits: Limits,
) -> Result<VInstr, ReadError>
    ensures { Gives result (left words.new) (instr_at limits (left words.old)) }
{
    let number = words.next()?;
    match InstrKind::of(number) {
        Some(kind) => read_kind(alloc, kind, words, limits),
        None => Err(ReadError::NoSpelling),
    }
}
