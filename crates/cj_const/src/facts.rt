//! Facts of rows, and two lists of facts together.

ghost use Rattle.std.specs.Prelude.{◌≡◌, ◌++◌, IfOk, OnOk, map};
ghost use Rattle.cj_draft.specs.WellNamed.{HasFineFacts};
ghost use Rattle.cj_const.specs.Knowledge.{known};
ghost use Rattle.cj_const.specs.Folding.{fact_if, facts_below, differ, or_else, together_of, together};
ghost use Rattle.cj_const.specs.Search.{facts_in};

use crate::knowledge::{Row, known, row_of};
use cj_draft::{Fact, FactList, FactTable, Facts};
use cj_ir::{NoMemory, Reg, Sequence};
use std::alloc::Global;

/// For each label of a code what is known there. `None`: no run is known to come to the label.
pub type Rows = Sequence<Option<Row>>;

#[tactic(auto, unfolding(crate::specs::Folding::fact_if))]
fn push_fact(facts: &mut FactList, reg: u32, value: Option<i64>) -> Result<(), NoMemory>
    ensures { OnOk result (facts.new ≡ facts.old ++ fact_if reg value) }
{
    if let Some(value) = value {
        let reg = Reg(reg);
        facts.push(Fact { reg, value })?;
    }
    Ok(())
}

/// The facts of the first `regs` registers of a row.
fn facts_of(row: &Row, regs: u32) -> Result<FactList, NoMemory>
    ensures { IfOk result (λ facts. facts ≡ facts_below (known row.now) regs) }
{
    let mut facts = FactList::new(row.allocator());
    for reg in 0..regs {
        push_fact(&mut facts, reg, known(row.items(), Reg(reg)))?;
    }
    Ok(facts)
}

/// The facts of a label of which this is known.
#[tactic(auto, unfolding(crate::specs::Search::facts_in))]
fn facts_in(row: &Option<Row>, regs: u32) -> Result<Facts, NoMemory>
    ensures { IfOk result (λ facts. facts ≡ facts_in regs row.now) }
{
    match row {
        None => Ok(Facts::Unreached),
        Some(row) => {
            let facts = facts_of(row, regs)?;
            Ok(Facts::Known(facts))
        }
    }
}

/// The facts of each label.
pub fn table_of(alloc: Global, rows: &[Option<Row>], regs: u32) -> Result<FactTable, NoMemory>
    ensures { IfOk result (λ table. table ≡ map (facts_in regs) rows.now) }
{
    let mut table = FactTable::new(alloc);
    for row in rows {
        table.push(facts_in(row, regs)?)?;
    }
    Ok(table)
}

/// Whether two values are known, and differ.
#[tactic(auto, unfolding(crate::specs::Folding::differ))]
fn differ(one: Option<i64>, other: Option<i64>) -> bool
    ensures { result ≡ differ one other }
{
    match one {
        None => false,
        Some(one) => match other {
            None => false,
            Some(other) => one != other,
        },
    }
}

#[tactic(auto, unfolding(crate::specs::Folding::or_else))]
fn or_else(one: Option<i64>, other: Option<i64>) -> Option<i64>
    ensures { result ≡ or_else one other }
{
    one.or(other)
}

/// The facts of two rows with that many registers. `Unreached`: two values meet for a register.
fn together_of(one: &Row, other: &Row, regs: u32) -> Result<Facts, NoMemory>
    ensures { IfOk result (λ facts. facts ≡ together_of regs (known one.now) (known other.now)) }
{
    let mut facts = FactList::new(one.allocator());
    for reg in 0..regs {
        let mine = known(one.items(), Reg(reg));
        let others = known(other.items(), Reg(reg));
        if differ(mine, others) {
            return Ok(Facts::Unreached);
        }
        push_fact(&mut facts, reg, or_else(mine, others))?;
    }
    Ok(Facts::Known(facts))
}

/// Two lists of facts of that many registers together. `Unreached`: either is, or two values meet for a register.
#[tactic(auto, unfolding(crate::specs::Folding::together))]
pub(crate) fn together(old: &Facts, facts: &Facts, regs: u32) -> Result<Facts, NoMemory>
    requires old { HasFineFacts regs old.now }
    requires facts { HasFineFacts regs facts.now }
    ensures { IfOk result (λ made. made ≡ together regs old.now facts.now) }
{
    let Facts::Known(old) = old else {
        return Ok(Facts::Unreached);
    };
    let Facts::Known(facts) = facts else {
        return Ok(Facts::Unreached);
    };
    let one = row_of(old.allocator(), old.items(), regs)?;
    let other = row_of(old.allocator(), facts.items(), regs)?;
    together_of(&one, &other, regs)
}
