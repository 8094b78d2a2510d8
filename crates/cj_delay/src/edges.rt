//! The edges of a code, and how many go into a label.

ghost use Rattle.std.specs.Prelude.{◌≡◌, ◌+◌, ◌*◌, ◌^◌, ◌<◌, ◌≤◌, ◌++◌, IfOk, OnOk, OnErr, length};
ghost use Rattle.cj_delay.specs.DelayedAssume.{edges_into};
ghost use Rattle.cj_delay.specs.CountedEdges.{edges_from, edges_of, AreNextsWithin, AreCounted};
ghost use Rattle.cj_draft.specs.declared.limits.TheConstants.{MAX_CODE_LABELS};

use cj_draft::{Code, Place, Successors, VInstr};
use cj_ir::{Label, NoMemory, Sequence};
use cj_links::EdgeLists;
use std::alloc::Global;

type Edges = Sequence<(Label, Label)>;

/// The edges between the labels of a code, in a list for each label.
pub(crate) fn edge_lists(code: &Code) -> Result<EdgeLists, NoMemory>
    requires few { length code.now.places ≤ MAX_CODE_LABELS }
    requires closed { AreNextsWithin code.now.places }
    ensures { IfOk result (AreCounted code.now) }
{
    let alloc = code.places.allocator();
    let edges = edges_of(alloc, code.places.items())?;
    let lists = EdgeLists::of(alloc, code.places.items().len() as u32, edges.items())?;
    Ok(lists)
}

/// How many edges go into a label, the one from the start counted.
#[tactic(auto, unfolding(crate::specs::DelayedAssume::edges_into, crate::specs::DelayedAssume::is_label))]
pub(crate) fn edges_into(code: &Code, lists: &EdgeLists, label: Label) -> usize
    requires counted { AreCounted code.now lists.now }
    requires within { label.0 < length code.now.places }
    ensures { result ≡ edges_into code.now label }
{
    let count = lists.count(label) as usize;
    if code.entry.0 == label.0 {
        count + 1
    } else {
        count
    }
}

/// The edges from these places, of which the first is label 0.
fn edges_of(alloc: Global, places: &[Place]) -> Result<Edges, NoMemory>
    requires { length places.now ≤ MAX_CODE_LABELS }
    ensures { IfOk result (λ made. made ≡ edges_of 0 places.now) }
{
    let mut edges = Edges::new(alloc);
    for (at, place) in places.iter().enumerate() {
        push_edges(&mut edges, Label(at as u32), &place.instr)?;
    }
    Ok(edges)
}

/// Appends the edges from a label that holds this instruction.
#[tactic(auto, unfolding(crate::specs::CountedEdges::edges_from))]
fn push_edges(edges: &mut Edges, from: Label, instr: &VInstr) -> Result<(), NoMemory>
    ensures { OnOk result (edges.new ≡ edges.old ++ edges_from from instr.now) }
{
    match instr.successors() {
        Successors::End => Ok(()),
        Successors::One { next } => {
            edges.push((from, next))?;
            Ok(())
        }
        Successors::Two { then_to, else_to } => {
            edges.push((from, then_to))?;
            edges.push((from, else_to))?;
            Ok(())
        }
    }
}
