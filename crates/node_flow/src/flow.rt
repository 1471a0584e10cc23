//! The table of followers.
ghost use Rattle.std.specs.Prelude.{◌≡◌, ℕ, ◌+◌, ◌<◌, if◌then◌else◌, List, ◌∷◌, ◌++◌, All, IfOk, OnOk, None, Some};
ghost use Rattle.std.specs.Prelude.{length, replicate, slice_index_or};
ghost use Rattle.pat_tree.specs.declared.nodes.Placed.{Placed};
ghost use Rattle.pat_tree.specs.Rules.{kids_of, number_in};
ghost use Rattle.pat_tree.specs.Refs.{is_in};
ghost use Rattle.node_flow.specs.Followers.{IsFlowOf, first_of, later_than, next_by, next_of};
ghost use Rattle.node_flow.specs.Linked.{HangTogether};

use pat_tree::{Memory, Node, NodeId, Tree};
use std::alloc::Global;
use std::marker::Model;

/// What runs when a part of a tree is done, up to the end of the innermost frame around it: a capturing group, a turn
/// of a repeat, an atomic group or a lookaround.
#[derive(Debug, Drop)]
pub struct Flow {
    next: Vec<Option<NodeId>>,
}

impl Model for Flow {
    ghost use Rattle.std.specs.Prelude.{ℕ, List, Option};

    ghost Value = { List (Option ℕ) };

    ghost view = { λ flow. flow.next.items };
}

impl Flow {
    /// The followers of a tree's parts. Fails for want of memory alone.
    pub fn build(alloc: Global, tree: &Tree) -> Result<Flow, Memory>
        ensures flow { IfOk result (λ flow. IsFlowOf tree.now.nodes tree.now.root flow) }
        ensures laws { OnOk result (HangTogether tree.now.nodes tree.now.root) }
    {
        let mut id = tree.root() as usize + 1;
        let mut next = nothing_told(alloc, id)?;
        // parents come before their children
        while id > 0 {
            id -= 1;
            let after = next[id];
            link(&mut next, tree.node(id as NodeId), after);
        }
        Ok(Flow { next })
    }

    /// The part that runs when this one is done, if there is one before the end of the innermost frame.
    pub fn next(&self, part: NodeId) -> Option<NodeId>
        requires { part < length self.now }
        ensures is { result ≡ slice_index_or self.now part None }
        ensures follows { (nodes : List Placed) (root : ℕ) → IsFlowOf nodes root self.now
            → result ≡ next_of nodes root part }
    {
        self.next[part as usize]
    }
}

/// As many parts, each told that nothing follows.
pub(crate) fn nothing_told(alloc: Global, count: usize) -> Result<Vec<Option<NodeId>>, Memory>
    ensures { IfOk result (λ next. next.items ≡ replicate count None) }
{
    let next = vec![in alloc; None; count]?;
    Ok(next)
}

/// Tells the children of a node, which are told nothing yet, what follows them, where `after` follows the node.
fn link(next: &mut [Option<NodeId>], node: &Node, after: Option<NodeId>)
    requires below { All (λ k. k < length next.old) (kids_of node.now) }
    requires untold { All (λ k. slice_index_or next.old k None ≡ None) (kids_of node.now) }
    ensures { (rest : List ℕ) → first_of rest ≡ after → (k : ℕ) → slice_index_or next.new k None
        ≡ next_by next.old node.now rest k }
{
    match node {
        Node::Seq(kids) => chain(next, kids.as_slice(), after),
        Node::Group { number, branches } => {
            if number.is_none() {
                tell(next, branches.as_slice(), after);
            }
        }
        Node::Cond { yes, no, .. } => tell_branches(next, *yes, *no, after),
        // frames, at whose end nothing follows
        _ => {}
    }
}

/// Tells the branches of a condition that `after` follows them.
pub(crate) fn tell_branches(
    next: &mut [Option<NodeId>],
    yes: NodeId,
    no: Option<NodeId>,
    after: Option<NodeId>,
)
    requires { All (λ k. k < length next.old) (yes ∷ number_in no) }
    ensures { (k : ℕ) → slice_index_or next.new k None
        ≡ (if is_in k (yes ∷ number_in no) then after else slice_index_or next.old k None) }
{
    next[yes as usize] = after;
    if let Some(no) = no {
        next[no as usize] = after;
    }
}

/// Tells each of these parts that the next of them follows, and the last that `after` does.
fn chain(next: &mut [Option<NodeId>], kids: &[NodeId], after: Option<NodeId>)
    requires { All (λ k. k < length next.old) kids.now }
    ensures { (rest : List ℕ) → first_of rest ≡ after → (k : ℕ) → slice_index_or next.new k None
        ≡ (if is_in k kids.now then first_of (later_than k kids.now ++ rest)
        else slice_index_or next.old k None) }
{
    let mut i = kids.len();
    let mut follower = after;
    while i > 0 {
        i -= 1;
        next[kids[i] as usize] = follower;
        follower = Some(kids[i]);
    }
}

/// Tells each of these parts that `after` follows it.
pub(crate) fn tell(next: &mut [Option<NodeId>], parts: &[NodeId], after: Option<NodeId>)
    requires { All (λ k. k < length next.old) parts.now }
    ensures { (k : ℕ) → slice_index_or next.new k None
        ≡ (if is_in k parts.now then after else slice_index_or next.old k None) }
{
    for part in parts {
        next[*part as usize] = after;
    }
}
