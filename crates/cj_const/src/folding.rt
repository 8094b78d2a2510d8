//! A draft folded over its strongest facts.

ghost use Rattle.std.specs.Prelude.{◌≡◌, All, IfOk, OnOk, length};
ghost use Rattle.cj_draft.specs.WellNamed.{HasFineFacts};
ghost use Rattle.cj_const.specs.Flow.{IsStrongest};
ghost use Rattle.cj_const.specs.Folding.{folded_by, folded_place, folded_places, folded, IsFolded};

use crate::facts::together;
use crate::instructions::fold_instr;
use crate::knowledge::row_of;
use crate::search::strongest;
use cj_draft::{Code, Draft, Facts, Place, Places, VInstr};
use cj_ir::NoMemory;

/// The draft folded over its strongest facts. At each label with Known facts, registers with facts become constants in
/// the operands; an op that has a value from constants becomes a copy of it, and a division by 0 stays; a cond whose test
/// is known becomes a nop to the label that it takes; guards that are true by the facts go, and where one is false by them
/// `never` stands alone. Points, targets and pairs stay, and so do instructions at other labels. The facts of each label
/// become the old ones together with the strongest, and `Unreached` where either is, or where two values meet for a
/// register. The program and the context stay.
pub fn fold<'p>(draft: Draft<'p>) -> Result<Draft<'p>, NoMemory>
    ensures program { IfOk result (λ made. made.program ≡ draft.entry.program) }
    ensures context { IfOk result (λ made. made.context ≡ draft.entry.context) }
    ensures code { IfOk result (λ made. IsFolded draft.entry.context draft.entry.code made.code) }
{
    let alloc = draft.code().places.allocator();
    let table = strongest(alloc, &draft)?;
    let made = fold_over(draft, table.items())?;
    Ok(made)
}

/// The draft folded over its strongest facts, which are those of this table, as `fold` does it.
pub fn fold_over<'p>(draft: Draft<'p>, table: &[Facts]) -> Result<Draft<'p>, NoMemory>
    requires { IsStrongest draft.context draft.code table.now }
    ensures program { IfOk result (λ made. made.program ≡ draft.entry.program) }
    ensures context { IfOk result (λ made. made.context ≡ draft.entry.context) }
    ensures code { IfOk result (λ made. IsFolded draft.entry.context draft.entry.code made.code) }
{
    let (checked, context, code) = draft.into_parts();
    let code = folded(code, table)?;
    Ok(Draft::adopt_in(checked, context, code))
}

/// The code folded over a table of facts.
#[tactic(auto, unfolding(crate::specs::Folding::folded))]
fn folded(mut code: Code, table: &[Facts]) -> Result<Code, NoMemory>
    requires count { length table.now ≡ length code.places }
    requires own { All (λ place. HasFineFacts code.regs place.facts) code.places }
    requires facts { All (HasFineFacts code.regs) table.now }
    ensures { IfOk result (λ made. made ≡ folded code table.now) }
{
    fold_places(&mut code.places, table, code.regs)?;
    Ok(code)
}

/// Folds each place over the facts of its label.
fn fold_places(places: &mut Places, table: &[Facts], regs: u32) -> Result<(), NoMemory>
    requires count { length table.now ≡ length places.old }
    requires own { All (λ place. HasFineFacts regs place.facts) places.old }
    requires facts { All (HasFineFacts regs) table.now }
    ensures { OnOk result (places.new ≡ folded_places regs places.old table.now) }
{
    for (label, facts) in table.iter().enumerate() {
        fold_place(places.item_mut(label), facts, regs)?;
    }
    Ok(())
}

/// Folds a place over the facts of its label.
#[tactic(auto, unfolding(crate::specs::Folding::folded_place))]
fn fold_place(place: &mut Place, facts: &Facts, regs: u32) -> Result<(), NoMemory>
    requires own { HasFineFacts regs place.old.facts }
    requires facts { HasFineFacts regs facts.now }
    ensures { OnOk result (place.new ≡ folded_place regs place.old facts.now) }
{
    fold_by(facts, &mut place.instr, regs)?;
    place.facts = together(&place.facts, facts, regs)?;
    Ok(())
}

/// Folds an instruction over the facts of its label. Where they are `Unreached` it stays.
#[tactic(auto, unfolding(crate::specs::Folding::folded_by))]
fn fold_by(facts: &Facts, instr: &mut VInstr, regs: u32) -> Result<(), NoMemory>
    requires { HasFineFacts regs facts.now }
    ensures { OnOk result (instr.new ≡ folded_by facts.now instr.old) }
{
    let Facts::Known(facts) = facts else {
        return Ok(());
    };
    let row = row_of(facts.allocator(), facts.items(), regs)?;
    fold_instr(&row, instr)
}
