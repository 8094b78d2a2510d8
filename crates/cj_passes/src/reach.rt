//! Which labels of a code are reached from its entry, where the entry and all edges go past Anchors.

ghost use Rattle.std.specs.Prelude.{◌≡◌, ◌<◌, All, Contains, false, IfOk, OnOk, length, replicate};
ghost use Rattle.cj_ir.specs.declared.language.Label.{Label};
ghost use Rattle.cj_draft.specs.Edges.{listed};
ghost use Rattle.cj_passes.specs.Lowering.{passed, Reached, AreKept};
ghost use Rattle.cj_rows.specs.Edges.{IsClosed};
ghost use Rattle.cj_passes.specs.Search.{IsSearch, Grows, AreLed, IsFollowed};

use cj_draft::limits::MAX_ROW;
use cj_draft::{Code, Successors};
use cj_ir::{Label, Labels, NoMemory, Sequence};
use cj_rows::anchor_at;
use std::alloc::Global;

/// For each label of a code, whether it is kept.
pub type Marks = Sequence<bool>;

/// From the label on, the first label that is no Anchor.
#[tactic(auto, unfolding(crate::specs::Lowering::passed, crate::specs::Lowering::past_anchors), using(crate::proofs::Passing::past_none, crate::proofs::Passing::past_zero))]
pub(crate) fn passed(code: &Code, label: Label) -> Label
    ensures { result ≡ passed code.now label }
{
    let mut to = label;
    for _step in 0..MAX_ROW {
        match anchor_at(code, to) {
            None => return to,
            Some(next) => to = next,
        }
    }
    to
}

/// The labels that are found to be reached: marked, and in the order in which they were found.
#[derive(Drop)]
struct Search {
    kept: Marks,
    found: Labels,
}

impl Search {
    /// The search that has found the entry.
    #[tactic(auto, using(crate::proofs::Searching::search_begins))]
    fn begin(code: &Code) -> Result<Search, NoMemory>
        requires closed { IsClosed code.now }
        ensures search { IfOk result (λ search. IsSearch code.now search.kept search.found) }
        ensures entry { IfOk result (λ search. Contains search.found (passed code.now code.now.entry)) }
    {
        let alloc = code.places.allocator();
        let kept = no_marks(alloc, code.places.items().len())?;
        let mut search = Search {
            kept,
            found: Labels::new(alloc),
        };
        search.visit(code, code.entry)?;
        Ok(search)
    }

    /// Finds the label to which an edge goes.
    fn visit(&mut self, code: &Code, label: Label) -> Result<(), NoMemory>
        requires closed { IsClosed code.now }
        requires search { IsSearch code.now self.old.kept self.old.found }
        requires within { label.0 < length code.now.places }
        requires reached { Reached code.now (passed code.now label) }
        ensures search { OnOk result (IsSearch code.now self.new.kept self.new.found) }
        ensures grows { OnOk result (Grows self.old.found self.new.found) }
        ensures found { OnOk result (Contains self.new.found (passed code.now label)) }
    {
        let to = passed(code, label);
        if self.kept.items()[to.0 as usize] {
            return Ok(());
        }
        self.kept.set(to.0 as usize, true);
        self.found.push(to)?;
        Ok(())
    }

    /// Finds the labels to which these edges go.
    fn visit_all(&mut self, code: &Code, nexts: Successors) -> Result<(), NoMemory>
        requires closed { IsClosed code.now }
        requires search { IsSearch code.now self.old.kept self.old.found }
        requires within { All (λ next. next.0 < length code.now.places) (listed nexts) }
        requires reached { All (λ next. Reached code.now (passed code.now next)) (listed nexts) }
        ensures search { OnOk result (IsSearch code.now self.new.kept self.new.found) }
        ensures grows { OnOk result (Grows self.old.found self.new.found) }
        ensures found { OnOk result (AreLed code.now self.new.found (listed nexts)) }
    {
        match nexts {
            Successors::End => Ok(()),
            Successors::One { next } => {
                self.visit(code, next)?;
                Ok(())
            }
            Successors::Two { then_to, else_to } => {
                self.visit(code, then_to)?;
                self.visit(code, else_to)?;
                Ok(())
            }
        }
    }

    /// Finds the labels to which the edges of a label go that was found.
    fn follow(&mut self, code: &Code, label: Label) -> Result<(), NoMemory>
        requires closed { IsClosed code.now }
        requires search { IsSearch code.now self.old.kept self.old.found }
        requires found { Contains self.old.found label }
        ensures search { OnOk result (IsSearch code.now self.new.kept self.new.found) }
        ensures grows { OnOk result (Grows self.old.found self.new.found) }
        ensures followed { OnOk result (IsFollowed code.now self.new.found label) }
    {
        let place = &code.places.items()[label.0 as usize];
        self.visit_all(code, place.instr.successors())?;
        Ok(())
    }
}

/// Which labels of the code are reached.
pub(crate) fn reached(code: &Code) -> Result<Marks, NoMemory>
    requires { IsClosed code.now }
    ensures { IfOk result (AreKept code.now) }
{
    let mut search = Search::begin(code)?;
    let mut followed = 0;
    while followed < search.found.items().len() {
        let label = search.found.items()[followed];
        search.follow(code, label)?;
        followed += 1;
    }
    Ok(search.kept)
}

fn no_marks(alloc: Global, count: usize) -> Result<Marks, NoMemory>
    ensures { IfOk result (λ marks. marks ≡ replicate count false) }
{
    let mut marks = Marks::new(alloc);
    for _label in 0..count {
        marks.push(false)?;
    }
    Ok(marks)
}
