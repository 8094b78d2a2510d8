//! The strongest constant facts of a draft, found by what is lost.

ghost use Rattle.std.specs.Prelude.{◌≡◌, ◌<◌, ◌++◌, List, [], ◌∷◌, All, None, Some, true, false, IfOk, OnOk, IsTrue, IsFalse, length, replicate, slice_set, slice_index_or};
ghost use Rattle.cj_draft.specs.declared.code.Place.{Place};
ghost use Rattle.cj_draft.specs.Arrives.{place_at};
ghost use Rattle.cj_draft.specs.Edges.{listed};
ghost use Rattle.cj_const.specs.Knowledge.{known};
ghost use Rattle.cj_const.specs.Flow.{IsStrongest};
ghost use Rattle.cj_const.specs.Search.{HasWidth, SaysLess, reached_at, agrees, IsEdge};
ghost use Rattle.cj_sparse.specs.declared.search.Work.TheVariants.{Reached, Lost};
ghost use Rattle.cj_sparse.specs.Reading.{reads, assigns};
ghost use Rattle.cj_sparse.specs.Losses.{label_of, IsPassed, IsItem, IsBegun, IsSearch, work_left, GoesOn, IsAbove, slot_at, forgotten, HasMet};

use crate::instructions::{assigns, goes_on, reads};
use cj_const::facts::table_of;
use cj_const::flow::leaves;
use cj_const::knowledge::{Row, known, row_of};
use cj_const::search::agrees;
use cj_draft::{Draft, FactTable, Successors};
use cj_ir::{Label, NoMemory, Reg};
use std::alloc::Global;
use std::collections::VecDeque;

/// What waits to be passed along the edges of a label.
#[derive(Clone, Copy, Debug)]
pub enum Work {
    /// All that is known at a label that was not reached before.
    Reached { label: Label },
    /// That a register's fact was lost at a label.
    Lost { label: Label, reg: Reg },
}

impl Work {
    /// The label along whose edges it is to be passed.
    fn label(&self) -> Label
        ensures { result ≡ label_of self.now }
    {
        match *self {
            Work::Reached { label } | Work::Lost { label, .. } => label,
        }
    }
}

/// What is known at each label so far, and what is still to be passed along edges, the longest waiting first.
#[derive(Drop)]
struct Search {
    rows: Vec<Option<Row>>,
    work: VecDeque<Work>,
}

impl Search {
    /// The search that knows the context at the entry, where alone a run is known to come.
    fn begin(alloc: Global, draft: &Draft<'_>) -> Result<Search, NoMemory>
        ensures { IfOk result (λ search. IsSearch draft.now.context draft.now.code search.rows.items search.work.items) }
    {
        let code = draft.code();
        let row = row_of(alloc, draft.context().items(), code.regs)?;
        let rows = unreached(alloc, code.places.items().len())?;
        let work = VecDeque::new(alloc);
        let mut search = Search { rows, work };
        search.reach(code.entry, row)?;
        Ok(search)
    }

    /// Lets a label be reached with what a row knows.
    fn reach(&mut self, label: Label, row: Row) -> Result<(), NoMemory>
        requires { label.0 < length self.old.rows.items }
        ensures rows { OnOk result (self.new.rows.items ≡ slice_set self.old.rows.items label.0 (Some row)) }
        ensures work { OnOk result (self.new.work.items ≡ self.old.work.items ++ Reached label ∷ []) }
    {
        self.work.push_back(Work::Reached { label })?;
        self.rows[label.0 as usize] = Some(row);
        Ok(())
    }

    /// Takes up that this arrives of a register at a label. Where another value was known the fact is lost.
    #[tactic(auto, unfolding(crate::specs::Losses::slot_at, crate::specs::Losses::slot_in))]
    fn meet(&mut self, label: Label, reg: Reg, other: Option<i64>) -> Result<(), NoMemory>
        requires { label.0 < length self.old.rows.items }
        ensures { OnOk result (HasMet self.old.rows.items self.old.work.items label reg other self.new.rows.items self.new.work.items) }
    {
        if forget(&mut self.rows, label, reg, other) {
            self.work.push_back(Work::Lost { label, reg })?;
        }
        Ok(())
    }

    /// Takes up what arrives at a label.
    fn arrive(&mut self, draft: &Draft<'_>, to: Label, arrival: Row) -> Result<(), NoMemory>
        requires begun { IsBegun draft.now.context draft.now.code self.old.rows.items self.old.work.items }
        requires within { to.0 < length draft.now.code.places }
        requires width { length arrival ≡ draft.now.code.regs }
        requires above { IsAbove draft.now.context draft.now.code to (known arrival) }
        ensures goes { OnOk result (GoesOn draft.now.context draft.now.code self.old.rows.items self.old.work.items self.new.rows.items self.new.work.items) }
        ensures told { OnOk result (SaysLess (reached_at self.new.rows.items to) (Some (known arrival))) }
    {
        if self.rows[to.0 as usize].is_none() {
            self.reach(to, arrival)?;
            return Ok(());
        }
        for reg in 0..draft.code().regs {
            self.meet(to, Reg(reg), known(arrival.items(), Reg(reg)))?;
        }
        Ok(())
    }

    /// Passes all that is known at a label along an edge.
    fn pass_all(&mut self, draft: &Draft<'_>, label: Label, to: Label) -> Result<(), NoMemory>
        requires begun { IsBegun draft.now.context draft.now.code self.old.rows.items self.old.work.items }
        requires within { label.0 < length draft.now.code.places }
        requires edge { IsEdge draft.now.code label to }
        ensures goes { OnOk result (GoesOn draft.now.context draft.now.code self.old.rows.items self.old.work.items self.new.rows.items self.new.work.items) }
        ensures passed { OnOk result (IsPassed draft.now.code self.new.rows.items self.new.work.items label to) }
    {
        let place = &draft.code().places.items()[label.0 as usize];
        let Some(row) = &self.rows[label.0 as usize] else {
            return Ok(());
        };
        let Some(arrival) = leaves(row, &place.instr, to)? else {
            return Ok(());
        };
        self.arrive(draft, to, arrival)?;
        Ok(())
    }

    /// Passes along an edge that a register's fact was lost. The instruction does not read the register.
    fn pass_loss(
        &mut self,
        draft: &Draft<'_>,
        label: Label,
        reg: Reg,
        to: Label,
    ) -> Result<(), NoMemory>
        requires begun { IsBegun draft.now.context draft.now.code self.old.rows.items self.old.work.items }
        requires item { IsItem draft.now.code self.old.rows.items (Lost label reg) }
        requires edge { IsEdge draft.now.code label to }
        requires unread { (place : Place) → place_at draft.now.code label ≡ Some place → reads place.instr reg.0 ≡ false }
        requires rests { IsPassed draft.now.code self.old.rows.items (Lost label reg ∷ self.old.work.items) label to }
        ensures goes { OnOk result (GoesOn draft.now.context draft.now.code self.old.rows.items self.old.work.items self.new.rows.items self.new.work.items) }
        ensures passed { OnOk result (IsPassed draft.now.code self.new.rows.items self.new.work.items label to) }
    {
        let place = &draft.code().places.items()[label.0 as usize];
        if assigns(&place.instr, reg) {
            return Ok(());
        }
        let Some(row) = &self.rows[label.0 as usize] else {
            return Ok(());
        };
        if !goes_on(row, &place.instr, to) {
            return Ok(());
        }
        self.meet(to, reg, None)?;
        Ok(())
    }

    /// Passes an item along an edge of its label.
    fn pass(&mut self, draft: &Draft<'_>, item: Work, to: Label) -> Result<(), NoMemory>
        requires begun { IsBegun draft.now.context draft.now.code self.old.rows.items self.old.work.items }
        requires item { IsItem draft.now.code self.old.rows.items item }
        requires edge { IsEdge draft.now.code (label_of item) to }
        requires rests { IsPassed draft.now.code self.old.rows.items (item ∷ self.old.work.items) (label_of item) to }
        ensures goes { OnOk result (GoesOn draft.now.context draft.now.code self.old.rows.items self.old.work.items self.new.rows.items self.new.work.items) }
        ensures passed { OnOk result (IsPassed draft.now.code self.new.rows.items self.new.work.items (label_of item) to) }
    {
        let label = item.label();
        let place = &draft.code().places.items()[label.0 as usize];
        if let Work::Lost { reg, .. } = item {
            if !reads(&place.instr, reg) {
                return self.pass_loss(draft, label, reg, to);
            }
        }
        self.pass_all(draft, label, to)
    }

    /// Passes an item along these edges of its label.
    fn follow(&mut self, draft: &Draft<'_>, item: Work, nexts: Successors) -> Result<(), NoMemory>
        requires begun { IsBegun draft.now.context draft.now.code self.old.rows.items self.old.work.items }
        requires item { IsItem draft.now.code self.old.rows.items item }
        requires edges { All (IsEdge draft.now.code (label_of item)) (listed nexts) }
        requires rest { All (IsPassed draft.now.code self.old.rows.items (item ∷ self.old.work.items) (label_of item)) (listed nexts) }
        ensures goes { OnOk result (GoesOn draft.now.context draft.now.code self.old.rows.items self.old.work.items self.new.rows.items self.new.work.items) }
        ensures passed { OnOk result (All (IsPassed draft.now.code self.new.rows.items self.new.work.items (label_of item)) (listed nexts)) }
    {
        match nexts {
            Successors::End => Ok(()),
            Successors::One { next } => {
                self.pass(draft, item, next)?;
                Ok(())
            }
            Successors::Two { then_to, else_to } => {
                self.pass(draft, item, then_to)?;
                self.pass(draft, item, else_to)?;
                Ok(())
            }
        }
    }

    /// Passes the longest waiting item along the edges of its label. `false`: none waits.
    fn step(&mut self, draft: &Draft<'_>) -> Result<bool, NoMemory>
        requires { IsSearch draft.now.context draft.now.code self.old.rows.items self.old.work.items }
        ensures search { OnOk result (IsSearch draft.now.context draft.now.code self.new.rows.items self.new.work.items) }
        ensures done { IfOk result (λ more. more ≡ false → self.new.work.items ≡ []) }
        ensures work { IfOk result (λ more. more ≡ true → work_left draft.now.code.regs self.new.rows.items self.new.work.items < work_left draft.now.code.regs self.old.rows.items self.old.work.items) }
    {
        let Some(item) = self.work.pop_front() else {
            return Ok(false);
        };
        let place = &draft.code().places.items()[item.label().0 as usize];
        self.follow(draft, item, place.instr.successors())?;
        Ok(true)
    }
}

/// Lets nothing be known of a register at a label, where a value is known and not this one. `false`: nothing changes.
#[tactic(auto, unfolding(crate::specs::Losses::slot_at, crate::specs::Losses::slot_in, crate::specs::Losses::forgotten))]
fn forget(rows: &mut Vec<Option<Row>>, label: Label, reg: Reg, other: Option<i64>) -> bool
    requires { label.0 < length rows.old.items }
    ensures kept { IsFalse result → (agrees (slot_at rows.old.items label reg.0) other ≡ true) × (rows.new.items ≡ rows.old.items) }
    ensures lost { IsTrue result → (agrees (slot_at rows.old.items label reg.0) other ≡ false) × (rows.new.items ≡ slice_set rows.old.items label.0 (forgotten reg.0 (slice_index_or rows.old.items label.0 None))) }
{
    let Some(row) = &mut rows[label.0 as usize] else {
        return false;
    };
    if agrees(known(row.items(), reg), other) {
        return false;
    }
    row.set(reg.0 as usize, None);
    true
}

/// Rows of labels at which no run is known to come.
fn unreached(alloc: Global, labels: usize) -> Result<Vec<Option<Row>>, NoMemory>
    ensures { IfOk result (λ rows. rows.items ≡ replicate labels None) }
{
    let mut rows = Vec::new(alloc);
    for _label in 0..labels {
        rows.push(None)?;
    }
    Ok(rows)
}

/// The strongest constant facts of the draft: those at each label which hold whenever a run comes there, whatever the
/// memory and the values that calls return. They are consistent with the draft's instructions and context, and every
/// consistent table says no more at any label. `Unreached`: no run comes to the label.
pub fn strongest(alloc: Global, draft: &Draft<'_>) -> Result<FactTable, NoMemory>
    ensures { IfOk result (IsStrongest draft.now.context draft.now.code) }
{
    let mut search = Search::begin(alloc, draft)?;
    while search.step(draft)? {}
    let table = table_of(alloc, search.rows.as_slice(), draft.code().regs)?;
    Ok(table)
}
