//! The table of the branches around parts.
ghost use Rattle.std.specs.Prelude.{◌≡◌, ℕ, ◌<◌, if◌then◌else◌, List, All, IfOk, OnOk, None, Some, length};
ghost use Rattle.std.specs.Prelude.{slice_index_or};
ghost use Rattle.pat_tree.specs.declared.nodes.Placed.{Placed};
ghost use Rattle.pat_tree.specs.Rules.{kids_of};
ghost use Rattle.pat_tree.specs.Refs.{is_in};
ghost use Rattle.node_flow.specs.Around.{told_by};
ghost use Rattle.node_flow.specs.Branches.{AreBranchesOf, BranchesHangTogether, branch_child, branch_if, branch_of};

use crate::around::{Around, table_of, tell_themselves};
use crate::flow::{tell, tell_branches};
use pat_tree::{Memory, Node, NodeId, Tree};
use std::alloc::Global;
use std::marker::Model;

/// The innermost branch of two or more around each part of a tree, as far as the innermost frame around the part goes.
/// A THEN in the part leads out of it (pcre2pattern, "Verbs that act after backtracking").
#[derive(Debug, Drop)]
pub struct Branches {
    branches: Vec<Option<NodeId>>,
}

impl Model for Branches {
    ghost use Rattle.std.specs.Prelude.{ℕ, List, Option};

    ghost Value = { List (Option ℕ) };

    ghost view = { λ b. b.branches.items };
}

impl Branches {
    /// The branches around a tree's parts. Fails for want of memory alone.
    pub fn build(alloc: Global, tree: &Tree) -> Result<Branches, Memory>
        ensures branches { IfOk result (λ branches.
            AreBranchesOf tree.now.nodes tree.now.root branches) }
        ensures laws { OnOk result (BranchesHangTogether tree.now.nodes tree.now.root) }
    {
        let branches = table_of(alloc, tree, Around::Choice)?;
        Ok(Branches { branches })
    }

    /// The innermost branch around a part, or the part itself where it is one, if there is one in the part's frame.
    pub fn of(&self, part: NodeId) -> Option<NodeId>
        requires { part < length self.now }
        ensures is { result ≡ slice_index_or self.now part None }
        ensures around { (nodes : List Placed) (root : ℕ) → AreBranchesOf nodes root self.now
            → result ≡ branch_of nodes root part }
    {
        self.branches[part as usize]
    }
}

/// Tells the children of a node, which are told nothing yet, what branch is around them, where `outer` is around the
/// node.
pub(crate) fn enclose(told: &mut [Option<NodeId>], node: &Node, outer: Option<NodeId>)
    requires below { All (λ k. k < length told.old) (kids_of node.now) }
    requires untold { All (λ k. slice_index_or told.old k None ≡ None) (kids_of node.now) }
    ensures { (k : ℕ) → slice_index_or told.new k None
        ≡ told_by branch_child told.old node.now outer k }
{
    match node {
        Node::Seq(kids) => tell(told, kids.as_slice(), outer),
        Node::Group { number, branches } => {
            let around = if number.is_none() { outer } else { None };
            tell_choice(told, branches.as_slice(), around);
        }
        Node::Atomic(branches) => tell_choice(told, branches.as_slice(), None),
        Node::Look { branches, .. } => tell_choice(told, branches.as_slice(), None),
        Node::Cond { yes, no, .. } => tell_branches(told, *yes, *no, outer),
        // frames of one part, which no branch is around
        _ => {}
    }
}

/// Tells branches what branch is around them: of two or more each is its own, and around a single one is `outer`.
fn tell_choice(told: &mut [Option<NodeId>], branches: &[NodeId], outer: Option<NodeId>)
    requires { All (λ k. k < length told.old) branches.now }
    ensures { (k : ℕ) → slice_index_or told.new k None
        ≡ (if is_in k branches.now then branch_if branches.now outer k
        else slice_index_or told.old k None) }
{
    if branches.len() < 2 {
        tell(told, branches, outer);
    } else {
        tell_themselves(told, branches);
    }
}
