//! The order of a tree's parts.
ghost use Rattle.std.specs.List.{IsDistinct};
ghost use Rattle.std.specs.Prelude.{◌≡◌, ℕ, ◌+◌, ◌<◌, ◌≤◌, nat_eq, All, List, ◌∷◌, ◌++◌, IfOk, OnOk, length, reverse};
ghost use Rattle.std.specs.Prelude.{slice_index};
ghost use Rattle.pat_tree.specs.declared.nodes.Placed.{Placed};
ghost use Rattle.pat_tree.specs.Rules.{kids_of, number_in, tests_of};
ghost use Rattle.node_flow.specs.Order.{AreRanks, order};

use pat_tree::{Cond, Memory, Node, NodeId, Tree};
use std::alloc::Global;
use std::marker::Model;

/// The places of a tree's parts in the pattern: a part comes before its children, and these in order.
#[derive(Debug, Drop)]
pub struct Ranks {
    ranks: Vec<u32>,
}

impl Model for Ranks {
    ghost use Rattle.std.specs.Prelude.{ℕ, List};

    ghost Value = { List ℕ };

    ghost view = { λ r. r.ranks.items };
}

impl Ranks {
    /// The ranks of a tree's parts. Fails for want of memory alone.
    pub fn build(alloc: Global, tree: &Tree) -> Result<Ranks, Memory>
        ensures { IfOk result (λ ranks. AreRanks tree.now.nodes tree.now.root ranks) }
    {
        let order = preorder(alloc, tree)?;
        let ranks = places(alloc, &order, tree.root() as usize + 1)?;
        Ok(Ranks { ranks })
    }

    /// The place of a part, counted from 0, among all parts under the root.
    pub fn of(&self, part: NodeId) -> u32
        requires { part < length self.now }
        ensures is { result ≡ slice_index self.now part }
        ensures place { (nodes : List Placed) (root i : ℕ) → AreRanks nodes root self.now
            → i < length (order nodes root) → slice_index (order nodes root) i ≡ part → result ≡ i }
    {
        self.ranks[part as usize]
    }
}

/// For each of so many parts its place in the order, 0 where it has none.
fn places(alloc: Global, order: &[NodeId], count: usize) -> Result<Vec<u32>, Memory>
    requires below { All (λ k. k < count) order.now }
    requires once { IsDistinct nat_eq order.now }
    requires few { count ≤ 4294967296 }
    ensures count { IfOk result (λ ranks. length ranks.items ≡ count) }
    ensures each { IfOk result (λ ranks. (i : ℕ) → i < length order.now
        → slice_index ranks.items (slice_index order.now i) ≡ i) }
{
    let mut ranks = vec![in alloc; 0; count]?;
    for (rank, part) in order.iter().enumerate() {
        ranks[*part as usize] = rank as u32;
    }
    Ok(ranks)
}

/// The parts under the root, each before its children. Fails for want of memory alone.
pub fn preorder(alloc: Global, tree: &Tree) -> Result<Vec<NodeId>, Memory>
    ensures parts { IfOk result (λ parts. parts.items ≡ order tree.now.nodes tree.now.root) }
    ensures below { IfOk result (λ parts. All (λ k. k ≤ tree.now.root) parts.items) }
    ensures once { IfOk result (λ parts. IsDistinct nat_eq parts.items) }
{
    let mut order = Vec::new(alloc);
    let mut waiting = Vec::new(alloc);
    waiting.push(tree.root())?;
    while let Some(id) = waiting.pop() {
        order.push(id)?;
        push_children(&mut waiting, tree.node(id))?;
    }
    Ok(order)
}

/// Adds a node's children, the first at the end.
fn push_children(waiting: &mut Vec<NodeId>, node: &Node) -> Result<(), Memory>
    ensures { OnOk result (waiting.new.items ≡ waiting.old.items ++ reverse (kids_of node.now)) }
{
    match node {
        Node::Seq(kids) => push_reversed(waiting, kids.as_slice()),
        Node::Group { branches, .. } => push_reversed(waiting, branches.as_slice()),
        Node::Repeat { body, .. } => push_reversed(waiting, &[*body]),
        Node::Atomic(branches) => push_reversed(waiting, branches.as_slice()),
        Node::Look { branches, .. } => push_reversed(waiting, branches.as_slice()),
        Node::Cond { test, yes, no } => push_condition(waiting, test, *yes, *no),
        _ => Ok(()),
    }
}

/// Adds the children of a condition: its test's, where it has one, comes before its branches.
fn push_condition(
    waiting: &mut Vec<NodeId>,
    test: &Cond,
    yes: NodeId,
    no: Option<NodeId>,
) -> Result<(), Memory>
    ensures { OnOk result
        (waiting.new.items ≡ waiting.old.items
        ++ reverse (tests_of test.now ++ yes ∷ number_in no)) }
{
    if let Some(no) = no {
        waiting.push(no)?;
    }
    waiting.push(yes)?;
    if let Cond::Assert(test) = test {
        waiting.push(*test)?;
    }
    Ok(())
}

fn push_reversed(waiting: &mut Vec<NodeId>, ids: &[NodeId]) -> Result<(), Memory>
    ensures { OnOk result (waiting.new.items ≡ waiting.old.items ++ reverse ids.now) }
{
    let mut i = ids.len();
    while i > 0 {
        i -= 1;
        waiting.push(ids[i])?;
    }
    Ok(())
}
