//! The labels at which registers are used, with a list of the uses of each register.

ghost use Rattle.std.specs.Prelude.{◌≡◌, ℕ, ◌+◌, ◌^◌, ◌<◌, All, Some, IfOk, length, map, slice_get};
ghost use Rattle.std.specs.Option.{option_map};
ghost use Rattle.cj_links.specs.UseTable.{use_at, used_by, uses_of, use_of, IsListed, unlisted, given_uses, edge_along};

use crate::edges::{EdgeId, EdgeLists};
use cj_ir::{Label, NoMemory, Reg, Sequence};
use std::alloc::Global;
use std::marker::Model;

/// A use, by its place among the uses as they were given, from 0.
#[derive(Clone, Copy, Debug, PartialEq, Eq)]
pub struct UseId(pub u32);

/// Uses of registers at labels, with a list of the uses of each register.
///
/// Contracts see the uses as they were given, and one list of uses for each register. Only `of` takes memory, and each
/// other call takes the same time however long the lists are. A use is kept as the edge from its label to the number of
/// its register.
#[derive(Debug, Drop)]
pub struct UseLists {
    edges: EdgeLists,
}

impl Model for UseLists {
    ghost use Rattle.cj_links.specs.UseTable.{UseTable, seen_uses};

    ghost Value = { UseTable };

    ghost view = { λ t. seen_uses t.edges };
}

impl UseLists {
    /// For registers below a number, the lists of these uses, each in the list of its register, in the order in which they
    /// are given. Each register is below that number, and there are fewer than 2^32 uses.
    pub fn of(alloc: Global, registers: u32, uses: &[(Reg, Label)]) -> Result<UseLists, NoMemory>
        requires few { length uses.now < 2 ^ 32 }
        requires within { All (λ x. x.0.0 < registers) uses.now }
        ensures { IfOk result (λ made. made ≡ given_uses registers uses.now) }
    {
        let edges = edges_of(alloc, uses)?;
        let edges = EdgeLists::of(alloc, registers, edges.items())?;
        Ok(UseLists { edges })
    }

    /// The first use of a register's list. `None`: the list is empty.
    pub fn first(&self, reg: Reg) -> Option<UseId>
        requires { reg.0 < length self.now.lists }
        ensures { result ≡ slice_get (uses_of self.now reg) 0 }
    {
        use_of(self.edges.first(Label(reg.0)))
    }

    /// The use after this one, in the list in which it stands. `None`: it is the last one.
    pub fn next(&self, used: UseId) -> Option<UseId>
        requires { IsListed self.now used }
        ensures { (k : ℕ) → slice_get (uses_of self.now (used_by self.now used)) k ≡ Some used → result ≡ slice_get (uses_of self.now (used_by self.now used)) (k + 1) }
    {
        use_of(self.edges.next(EdgeId(used.0)))
    }

    /// The label of a use.
    pub fn label(&self, used: UseId) -> Label
        requires { used.0 < length self.now.uses }
        ensures { result ≡ (use_at self.now used).1 }
    {
        self.edges.edge(EdgeId(used.0)).0
    }

    /// How many uses a register's list has.
    pub fn count(&self, reg: Reg) -> u32
        requires { reg.0 < length self.now.lists }
        ensures { result ≡ length (uses_of self.now reg) }
    {
        self.edges.count(Label(reg.0))
    }

    /// Takes a use out of the list in which it stands.
    pub fn unlink(&mut self, used: UseId)
        requires { IsListed self.old used }
        ensures { self.new ≡ unlisted self.old used }
    {
        self.edges.unlink(EdgeId(used.0));
    }
}

/// The use that an edge stands for.
fn use_of(edge: Option<EdgeId>) -> Option<UseId>
    ensures { result ≡ option_map use_of edge }
{
    match edge {
        None => None,
        Some(edge) => Some(UseId(edge.0)),
    }
}

/// The edges that stand for these uses.
fn edges_of(alloc: Global, uses: &[(Reg, Label)]) -> Result<Sequence<(Label, Label)>, NoMemory>
    ensures { IfOk result (λ made. made ≡ map edge_along uses.now) }
{
    let mut edges = Sequence::new(alloc);
    for used in uses {
        edges.push((used.1, Label(used.0.0)))?;
    }
    Ok(edges)
}
