//! The edges between labels, with a list of the edges into each label.

ghost use Rattle.std.specs.Prelude.{◌≡◌, ℕ, ◌+◌, ◌^◌, ◌<◌, [], All, IfOk, length, map, slice_get};
ghost use Rattle.std.specs.List.{range_with_len};
ghost use Rattle.cj_ir.specs.declared.language.Label.{Label};
ghost use Rattle.cj_links.specs.EdgeTable.{list_of, end_of, IsLinked, IsInto, IsWoven, unlinked, linked, led_to, moved, lists_into, given, edge_table};
ghost use Rattle.cj_links.specs.Threads.{node, lead, edge_at};

use crate::worklist::filled;
use cj_ir::{Label, NoMemory, Sequence};
use std::alloc::Global;
use std::marker::Model;

/// An edge, by its place among the edges as they were given, from 0.
#[derive(Clone, Copy, Debug, PartialEq, Eq)]
pub struct EdgeId(pub u32);

/// The nodes before and after this one in its ring.
#[derive(Clone, Copy, Debug)]
struct Node {
    before: usize,
    after: usize,
}

/// Edges between labels, with a list of the edges into each label.
///
/// Contracts see the edges as they were given, with their present ends, and one list of edges for each label. Only `of`
/// takes memory, and each other call takes the same time however long the lists are.
#[derive(Debug, Drop)]
pub struct EdgeLists {
    nodes: Sequence<Node>,
    counts: Sequence<u32>,
    edges: Sequence<(Label, Label)>,
}

impl Model for EdgeLists {
    ghost use Rattle.std.specs.Prelude.{length};
    ghost use Rattle.cj_links.specs.EdgeTable.{EdgeTable};

    ghost Value = { EdgeTable };

    ghost use Rattle.cj_links.specs.Threads.{table_of, walks, IsThreaded};

    ghost view = { λ t. table_of t.nodes t.counts t.edges };

    ghost invariant = { λ t. IsThreaded (length t.counts) t.nodes t.counts t.edges (walks (length t.counts) t.nodes t.counts) };
}

impl EdgeLists {
    /// The first edge of a label's list. `None`: the list is empty.
    pub fn first(&self, label: Label) -> Option<EdgeId>
        requires { label.0 < length self.now.lists }
        ensures { result ≡ slice_get (list_of self.now label) 0 }
    {
        let node = self.nodes.items()[label.0 as usize];
        edge_at(self.counts.items().len(), node.after)
    }

    /// The edge after this one, in the list in which it is linked. `None`: it is the last one.
    pub fn next(&self, edge: EdgeId) -> Option<EdgeId>
        requires { IsLinked self.now edge }
        ensures { (k : ℕ) → slice_get (list_of self.now (end_of self.now edge)) k ≡ Some edge → result ≡ slice_get (list_of self.now (end_of self.now edge)) (k + 1) }
    {
        let labels = self.counts.items().len();
        let node = self.nodes.items()[labels + edge.0 as usize];
        edge_at(labels, node.after)
    }

    /// How many edges a label's list has.
    pub fn count(&self, label: Label) -> u32
        requires { label.0 < length self.now.lists }
        ensures { result ≡ length (list_of self.now label) }
    {
        self.counts.items()[label.0 as usize]
    }

    /// The present ends of an edge.
    pub fn edge(&self, edge: EdgeId) -> (Label, Label)
        requires { edge.0 < length self.now.edges }
        ensures { slice_get self.now.edges edge.0 ≡ Some result }
    {
        self.edges.items()[edge.0 as usize]
    }

    /// Takes a linked edge out of its list.
    pub fn unlink(&mut self, edge: EdgeId)
        requires { IsLinked self.old edge }
        ensures lists { self.new ≡ unlinked self.old edge }
        ensures woven { IsWoven self.new }
    {
        let to = self.edges.items()[edge.0 as usize].1.0 as usize;
        let at = self.counts.items().len() + edge.0 as usize;
        let node = self.nodes.items()[at];
        lead(&mut self.nodes, node.before, node.after);
        let count = self.counts.items()[to];
        self.counts.set(to, count - 1);
    }

    /// Takes a linked edge out of its list and appends it to a label's, to which it then leads.
    pub fn move_to(&mut self, edge: EdgeId, label: Label)
        requires linked { IsLinked self.old edge }
        requires label { label.0 < length self.old.lists }
        ensures lists { self.new ≡ moved self.old edge label }
        ensures woven { IsWoven self.new }
    {
        let _ = &self.edges;
        self.unlink(edge);
        self.lead_to(edge, label);
        self.link(edge);
    }

    /// Lets an edge that is not linked lead to a label.
    fn lead_to(&mut self, edge: EdgeId, label: Label)
        requires edge { edge.0 < length self.old.edges }
        requires label { label.0 < length self.old.lists }
        requires free { ¬ IsLinked self.old edge }
        ensures lists { self.new ≡ led_to self.old edge label }
        ensures woven { IsWoven self.new }
    {
        let at = edge.0 as usize;
        let (from, _) = self.edges.items()[at];
        self.edges.set(at, (from, label));
    }

    /// Appends an edge that is not linked to the list of the label to which it leads.
    fn link(&mut self, edge: EdgeId)
        requires edge { edge.0 < length self.old.edges }
        requires free { ¬ IsLinked self.old edge }
        ensures lists { self.new ≡ linked self.old edge }
        ensures woven { IsWoven self.new }
    {
        let to = self.edges.items()[edge.0 as usize].1.0 as usize;
        let at = self.counts.items().len() + edge.0 as usize;
        let last = self.nodes.items()[to].before;
        lead(&mut self.nodes, last, at);
        lead(&mut self.nodes, at, to);
        let count = self.counts.items()[to];
        self.counts.set(to, count + 1);
    }

    /// For labels below a number, the lists of these edges, each in the list of its second label, in the order in which they
    /// are given. Each edge leads to a label below that number, and there are fewer than 2^32 edges.
    pub fn of(alloc: Global, labels: u32, edges: &[(Label, Label)]) -> Result<EdgeLists, NoMemory>
        requires few { length edges.now < 2 ^ 32 }
        requires into { All (IsInto labels) edges.now }
        ensures lists { IfOk result (λ made. made ≡ given labels edges.now) }
        ensures woven { IfOk result (λ made. IsWoven made) }
    {
        let mut lists = EdgeLists::apart(alloc, labels, edges)?;
        for at in 0..edges.len() {
            lists.link(EdgeId(at as u32));
        }
        Ok(lists)
    }

    /// These edges, none of them linked.
    fn apart(alloc: Global, labels: u32, edges: &[(Label, Label)]) -> Result<EdgeLists, NoMemory>
        requires few { length edges.now < 2 ^ 32 }
        requires into { All (IsInto labels) edges.now }
        ensures lists { IfOk result (λ made. made ≡ edge_table edges.now (lists_into labels [])) }
        ensures woven { IfOk result (λ made. IsWoven made) }
    {
        let nodes = nodes_alone(alloc, labels as usize + edges.len())?;
        let counts = filled(alloc, labels, 0)?;
        let edges = listed(alloc, edges)?;
        Ok(EdgeLists {
            nodes,
            counts,
            edges,
        })
    }
}

/// So many nodes, each in a ring of its own.
fn nodes_alone(alloc: Global, count: usize) -> Result<Sequence<Node>, NoMemory>
    ensures { IfOk result (λ made. made ≡ map (λ at. node at at) (range_with_len 0 count)) }
{
    let mut nodes = Sequence::new(alloc);
    for at in 0..count {
        nodes.push(Node {
            before: at,
            after: at,
        })?;
    }
    Ok(nodes)
}

fn listed(alloc: Global, edges: &[(Label, Label)]) -> Result<Sequence<(Label, Label)>, NoMemory>
    ensures { IfOk result (λ made. made ≡ edges.now) }
{
    let mut list = Sequence::new(alloc);
    for edge in edges {
        list.push(*edge)?;
    }
    Ok(list)
}

/// Lets one node be followed by another.
fn lead(nodes: &mut Sequence<Node>, one: usize, other: usize)
    requires one { one < length nodes.old }
    requires other { other < length nodes.old }
    ensures { nodes.new ≡ lead nodes.old one other }
{
    let before = nodes.items()[one].before;
    let after = other;
    nodes.set(one, Node { before, after });
    let after = nodes.items()[other].after;
    let before = one;
    nodes.set(other, Node { before, after });
}

/// The edge whose node this is, behind the nodes of so many labels. `None`: it is a label's.
fn edge_at(labels: usize, at: usize) -> Option<EdgeId>
    requires { at < labels + 2 ^ 32 }
    ensures { result ≡ edge_at labels at }
{
    if at < labels {
        None
    } else {
        Some(EdgeId((at - labels) as u32))
    }
}
