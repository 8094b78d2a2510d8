//! Pairs of a label: whether one is there, and one more.

ghost use Rattle.std.specs.Prelude.{◌≡◌, ◌↔◌, IfOk, OnOk, OnErr, IsTrue, Contains};
ghost use Rattle.cj_draft.specs.Sound.{pair_of};
ghost use Rattle.cj_rows.specs.Pairs.{AreWith};

use cj_draft::{Back, Backs, Point, PointFrame};
use cj_ir::{Duplicate, NoMemory, Operand};

fn same_operand(one: &Operand, other: &Operand) -> bool
    ensures { IsTrue result ↔ (one.now ≡ other.now) }
{
    match (*one, *other) {
        (Operand::Reg(a), Operand::Reg(b)) => a.0 == b.0,
        (Operand::Const(a), Operand::Const(b)) => a == b,
        _ => false,
    }
}

fn same_operands(one: &[Operand], other: &[Operand]) -> bool
    ensures { IsTrue result ↔ (one.now ≡ other.now) }
{
    if one.len() != other.len() {
        return false;
    }
    for index in 0..one.len() {
        if !same_operand(&one[index], &other[index]) {
            return false;
        }
    }
    true
}

fn same_frame(one: &PointFrame, other: &PointFrame) -> bool
    ensures { IsTrue result ↔ (one.now ≡ other.now) }
{
    one.function.0 == other.function.0
        && one.label.0 == other.label.0
        && one.dest.0 == other.dest.0
        && same_operands(one.map.items(), other.map.items())
}

fn same_frames(one: &[PointFrame], other: &[PointFrame]) -> bool
    ensures { IsTrue result ↔ (one.now ≡ other.now) }
{
    if one.len() != other.len() {
        return false;
    }
    for index in 0..one.len() {
        if !same_frame(&one[index], &other[index]) {
            return false;
        }
    }
    true
}

fn is_pair(pair: &Back, turns: u32, point: &Point) -> bool
    ensures { IsTrue result ↔ (pair.now ≡ pair_of turns point.now) }
{
    pair.turns == turns && same_frames(pair.point.frames.items(), point.frames.items())
}

/// Whether the pair of a number and a point is among these.
pub fn has_pair(backs: &[Back], turns: u32, point: &Point) -> bool
    ensures { IsTrue result ↔ Contains backs.now (pair_of turns point.now) }
{
    for pair in backs {
        if is_pair(pair, turns, point) {
            return true;
        }
    }
    false
}

/// Appends the pair of a number and a point, where it is missing. Where there is no memory the pairs stay.
pub fn add_pair(backs: &mut Backs, turns: u32, point: &Point) -> Result<(), NoMemory>
    ensures ok { OnOk result (AreWith backs.old (pair_of turns point.now) backs.new) }
    ensures err { OnErr result (backs.new ≡ backs.old) }
{
    if has_pair(backs.items(), turns, point) {
        return Ok(());
    }
    let point = point.copy()?;
    backs.push(Back { turns, point })?;
    Ok(())
}

/// A copy of the pairs, with that of a number and a point appended, where it is missing.
pub fn with_pair(backs: &Backs, turns: u32, point: &Point) -> Result<Backs, NoMemory>
    ensures { IfOk result (AreWith backs.now (pair_of turns point.now)) }
{
    let mut all = backs.copy()?;
    add_pair(&mut all, turns, point)?;
    Ok(all)
}
