//! The table of the branches of lookbehinds around parts.
ghost use Rattle.std.specs.Prelude.{◌≡◌, ℕ, ◌<◌, List, All, IfOk, OnOk, None, length, slice_index_or};
ghost use Rattle.pat_tree.specs.declared.nodes.Placed.{Placed};
ghost use Rattle.pat_tree.specs.Rules.{kids_of};
ghost use Rattle.node_flow.specs.Around.{told_by};
ghost use Rattle.node_flow.specs.LookBranches.{AreLookBranchesOf, LookBranchesHangTogether, look_branch_child};
ghost use Rattle.node_flow.specs.LookBranches.{look_branch_of};

use crate::around::{Around, table_of, tell_themselves};
use crate::flow::{tell, tell_branches};
use pat_tree::{Memory, Node, NodeId, Tree};
use std::alloc::Global;
use std::marker::Model;

/// The branch of a lookbehind around each part of a tree, as far as the innermost frame around the part goes. Where
/// nothing follows the part in its frame, this branch has ended (pcre2pattern, "Lookbehind assertions").
#[derive(Debug, Drop)]
pub struct LookBranches {
    branches: Vec<Option<NodeId>>,
}

impl Model for LookBranches {
    ghost use Rattle.std.specs.Prelude.{ℕ, List, Option};

    ghost Value = { List (Option ℕ) };

    ghost view = { λ b. b.branches.items };
}

impl LookBranches {
    /// The branches of lookbehinds around a tree's parts. Fails for want of memory alone.
    pub fn build(alloc: Global, tree: &Tree) -> Result<LookBranches, Memory>
        ensures branches { IfOk result (λ branches.
            AreLookBranchesOf tree.now.nodes tree.now.root branches) }
        ensures laws { OnOk result (LookBranchesHangTogether tree.now.nodes tree.now.root) }
    {
        let branches = table_of(alloc, tree, Around::Lookbehind)?;
        Ok(LookBranches { branches })
    }

    /// The branch of a lookbehind around a part, or the part itself where it is one, if there is one in the part's
    /// frame.
    pub fn of(&self, part: NodeId) -> Option<NodeId>
        requires { part < length self.now }
        ensures is { result ≡ slice_index_or self.now part None }
        ensures around { (nodes : List Placed) (root : ℕ) → AreLookBranchesOf nodes root self.now
            → result ≡ look_branch_of nodes root part }
    {
        self.branches[part as usize]
    }
}

/// Tells the children of a node, which are told nothing yet, what branch of a lookbehind is around them, where `outer`
/// is around the node.
pub(crate) fn enclose(told: &mut [Option<NodeId>], node: &Node, outer: Option<NodeId>)
    requires below { All (λ k. k < length told.old) (kids_of node.now) }
    requires untold { All (λ k. slice_index_or told.old k None ≡ None) (kids_of node.now) }
    ensures { (k : ℕ) → slice_index_or told.new k None
        ≡ told_by look_branch_child told.old node.now outer k }
{
    match node {
        Node::Seq(kids) => tell(told, kids.as_slice(), outer),
        Node::Group { number, branches } => {
            if number.is_none() {
                tell(told, branches.as_slice(), outer);
            }
        }
        Node::Look {
            ahead,
            branches,
            ..
        } => {
            if !*ahead {
                tell_themselves(told, branches.as_slice());
            }
        }
        Node::Cond { yes, no, .. } => tell_branches(told, *yes, *no, outer),
        // frames, which no branch of a lookbehind reaches into
        _ => {}
    }
}
