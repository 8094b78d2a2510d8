//! The strongest constant facts of a draft.

ghost use Rattle.std.specs.Prelude.{◌≡◌, ◌<◌, ◌≤◌, List, [], ◌∷◌, All, None, Some, true, false, IfOk, OnOk, length, replicate, slice_set};
ghost use Rattle.cj_ir.specs.declared.language.Label.{Label};
ghost use Rattle.cj_draft.specs.Edges.{listed};
ghost use Rattle.cj_const.specs.Flow.{IsStrongest};
ghost use Rattle.cj_const.specs.Search.{agrees, is_within, kept_slot, met, HasWidth, LetsWait, HasArrived, IsEdge, IsBegun, IsFollowing, IsSearch, work_left};

use crate::facts::{Rows, table_of};
use crate::flow::leaves;
use crate::knowledge::{Row, row_of};
use cj_draft::{Draft, FactTable, Successors};
use cj_ir::{Label, NoMemory};
use cj_links::Worklist;
use std::alloc::Global;

/// Whether a slot tells nothing, or what the other tells.
#[tactic(auto, unfolding(crate::specs::Search::agrees))]
pub fn agrees(slot: Option<i64>, other: Option<i64>) -> bool
    ensures { result ≡ agrees slot other }
{
    match slot {
        None => true,
        Some(value) => match other {
            None => false,
            Some(other) => value == other,
        },
    }
}

/// Whether all that a row tells is told by another of the same width.
fn is_within(row: &[Option<i64>], others: &[Option<i64>]) -> bool
    requires { length others.now ≡ length row.now }
    ensures { result ≡ is_within row.now others.now }
{
    for (reg, &slot) in row.iter().enumerate() {
        if !agrees(slot, others[reg]) {
            return false;
        }
    }
    true
}

/// The slot, where it agrees with the other.
#[tactic(auto, unfolding(crate::specs::Search::kept_slot))]
fn kept_slot(slot: Option<i64>, other: Option<i64>) -> Option<i64>
    ensures { result ≡ kept_slot slot other }
{
    if agrees(slot, other) { slot } else { None }
}

/// What two rows of the same width both tell.
fn met(row: &Row, others: &[Option<i64>]) -> Result<Row, NoMemory>
    requires { length others.now ≡ length row.now }
    ensures { IfOk result (λ made. made ≡ met row.now others.now) }
{
    let mut made = Row::new(row.allocator());
    for (reg, &slot) in row.items().iter().enumerate() {
        made.push(kept_slot(slot, others[reg]))?;
    }
    Ok(made)
}

/// What is known at each label so far, and the labels whose edges are still to be followed.
#[derive(Drop)]
struct Search {
    rows: Rows,
    waiting: Worklist,
}

impl Search {
    /// The search that knows the context at the entry, where alone a run is known to come.
    fn begin(alloc: Global, draft: &Draft<'_>) -> Result<Search, NoMemory>
        ensures { IfOk result (λ search. IsSearch draft.now.context draft.now.code search.rows search.waiting) }
    {
        let code = draft.code();
        let labels = code.places.items().len() as u32;
        let row = row_of(alloc, draft.context().items(), code.regs)?;
        let rows = unreached(alloc, labels)?;
        let waiting = Worklist::new(alloc, labels)?;
        let mut search = Search { rows, waiting };
        search.change(code.entry, row);
        Ok(search)
    }

    /// Sets what is known at a label, which waits then.
    fn change(&mut self, label: Label, row: Row)
        requires within { label.0 < length self.old.rows }
        requires waiting { label.0 < self.old.waiting.labels }
        ensures rows { self.new.rows ≡ slice_set self.old.rows label.0 (Some row) }
        ensures waits { LetsWait self.old.waiting self.new.waiting label }
    {
        self.rows.set(label.0 as usize, Some(row));
        self.waiting.put(label);
    }

    /// Takes up what arrives at a label. Where it is news the label waits then.
    fn arrive(&mut self, to: Label, arrival: Row) -> Result<(), NoMemory>
        requires within { to.0 < length self.old.rows }
        requires waiting { to.0 < self.old.waiting.labels }
        requires widths { All (HasWidth (length arrival)) self.old.rows }
        ensures { OnOk result (HasArrived self.old.rows self.old.waiting to arrival self.new.rows self.new.waiting) }
    {
        let Some(row) = &self.rows.items()[to.0 as usize] else {
            self.change(to, arrival);
            return Ok(());
        };
        if is_within(row.items(), arrival.items()) {
            return Ok(());
        }
        let row = met(row, arrival.items())?;
        self.change(to, row);
        Ok(())
    }

    /// Follows the edge of a label to another.
    fn pass(&mut self, draft: &Draft<'_>, label: Label, to: Label) -> Result<(), NoMemory>
        requires begun { IsBegun draft.now.context draft.now.code self.old.rows self.old.waiting }
        requires within { label.0 < length draft.now.code.places }
        requires edge { IsEdge draft.now.code label to }
        ensures work { OnOk result (work_left draft.now.code.regs self.new.rows self.new.waiting ≤ work_left draft.now.code.regs self.old.rows self.old.waiting) }
        ensures passed { OnOk result ((left : List Label) → IsFollowing draft.now.context draft.now.code self.old.rows self.old.waiting label (to ∷ left) → IsFollowing draft.now.context draft.now.code self.new.rows self.new.waiting label left) }
    {
        let place = &draft.code().places.items()[label.0 as usize];
        let Some(row) = &self.rows.items()[label.0 as usize] else {
            return Ok(());
        };
        let Some(arrival) = leaves(row, &place.instr, to)? else {
            return Ok(());
        };
        self.arrive(to, arrival)?;
        Ok(())
    }

    /// Follows these edges of a label.
    fn pass_all(
        &mut self,
        draft: &Draft<'_>,
        label: Label,
        nexts: Successors,
    ) -> Result<(), NoMemory>
        requires following { IsFollowing draft.now.context draft.now.code self.old.rows self.old.waiting label (listed nexts) }
        requires within { label.0 < length draft.now.code.places }
        requires edges { All (IsEdge draft.now.code label) (listed nexts) }
        ensures work { OnOk result (work_left draft.now.code.regs self.new.rows self.new.waiting ≤ work_left draft.now.code.regs self.old.rows self.old.waiting) }
        ensures passed { OnOk result (IsFollowing draft.now.context draft.now.code self.new.rows self.new.waiting label []) }
    {
        match nexts {
            Successors::End => Ok(()),
            Successors::One { next } => {
                self.pass(draft, label, next)?;
                Ok(())
            }
            Successors::Two { then_to, else_to } => {
                self.pass(draft, label, then_to)?;
                self.pass(draft, label, else_to)?;
                Ok(())
            }
        }
    }

    /// Follows the edges of the label that has waited longest. `false`: none waits.
    fn step(&mut self, draft: &Draft<'_>) -> Result<bool, NoMemory>
        requires { IsSearch draft.now.context draft.now.code self.old.rows self.old.waiting }
        ensures search { OnOk result (IsSearch draft.now.context draft.now.code self.new.rows self.new.waiting) }
        ensures done { IfOk result (λ more. more ≡ false → self.new.waiting.list ≡ []) }
        ensures work { IfOk result (λ more. more ≡ true → work_left draft.now.code.regs self.new.rows self.new.waiting < work_left draft.now.code.regs self.old.rows self.old.waiting) }
    {
        let Some(label) = self.waiting.take() else {
            return Ok(false);
        };
        let place = &draft.code().places.items()[label.0 as usize];
        self.pass_all(draft, label, place.instr.successors())?;
        Ok(true)
    }
}

/// Rows of labels at which no run is known to come.
fn unreached(alloc: Global, labels: u32) -> Result<Rows, NoMemory>
    ensures { IfOk result (λ rows. rows ≡ replicate labels None) }
{
    let mut rows = Rows::new(alloc);
    for _label in 0..labels {
        rows.push(None)?;
    }
    Ok(rows)
}

/// The strongest constant facts of the draft: those at each label which hold whenever a run comes there, whatever the
/// memory and the values that calls return. They are consistent with the draft's instructions and context, and every
/// consistent table says no more at any label. `Unreached`: no run comes to the label.
pub fn strongest(alloc: Global, draft: &Draft<'_>) -> Result<FactTable, NoMemory>
    ensures { IfOk result (IsStrongest draft.now.context draft.now.code) }
{
    let mut search = Search::begin(alloc, draft)?;
    while search.step(draft)? {}
    let table = table_of(alloc, search.rows.items(), draft.code().regs)?;
    Ok(table)
}
