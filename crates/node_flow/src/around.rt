//! Tables of what the nodes of a tree tell their children.
ghost use Rattle.std.specs.Prelude.{◌≡◌, ℕ, ◌<◌, if◌then◌else◌, All, IfOk, OnOk, None, Some, length, slice_index_or};
ghost use Rattle.pat_tree.specs.Rules.{kids_of};
ghost use Rattle.pat_tree.specs.Refs.{is_in};
ghost use Rattle.node_flow.specs.Around.{AreTold, HangsTogether, told_by};
ghost use Rattle.node_flow.specs.LookBranches.{child_of};

use crate::flow::nothing_told;
use crate::{branches, look_branches};
use pat_tree::{Memory, Node, NodeId, Tree};
use std::alloc::Global;

/// Which branch is told.
#[derive(Clone, Copy, Debug, PartialEq, Eq)]
pub(crate) enum Around {
    /// One of two or more.
    Choice,
    /// One of a lookbehind.
    Lookbehind,
}

/// What each part of a tree is told. Fails for want of memory alone.
pub(crate) fn table_of(
    alloc: Global,
    tree: &Tree,
    around: Around,
) -> Result<Vec<Option<NodeId>>, Memory>
    ensures told { IfOk result (λ told.
        AreTold (child_of around) tree.now.nodes tree.now.root told.items) }
    ensures laws { OnOk result (HangsTogether (child_of around) tree.now.nodes tree.now.root) }
{
    let mut id = tree.root() as usize + 1;
    let mut told = nothing_told(alloc, id)?;
    // parents come before their children
    while id > 0 {
        id -= 1;
        let outer = told[id];
        enclose(&mut told, tree.node(id as NodeId), outer, around);
    }
    Ok(told)
}

fn enclose(told: &mut [Option<NodeId>], node: &Node, outer: Option<NodeId>, around: Around)
    requires below { All (λ k. k < length told.old) (kids_of node.now) }
    requires untold { All (λ k. slice_index_or told.old k None ≡ None) (kids_of node.now) }
    ensures { (k : ℕ) → slice_index_or told.new k None
        ≡ told_by (child_of around) told.old node.now outer k }
{
    match around {
        Around::Choice => branches::enclose(told, node, outer),
        Around::Lookbehind => look_branches::enclose(told, node, outer),
    }
}

/// Tells each of these parts that it is a branch.
pub(crate) fn tell_themselves(told: &mut [Option<NodeId>], parts: &[NodeId])
    requires { All (λ k. k < length told.old) parts.now }
    ensures { (k : ℕ) → slice_index_or told.new k None
        ≡ (if is_in k parts.now then Some k else slice_index_or told.old k None) }
{
    for part in parts {
        told[*part as usize] = Some(*part);
    }
}
