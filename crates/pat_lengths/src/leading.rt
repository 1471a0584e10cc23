// Which groups lead back to themselves by calls and references.
ghost use Rattle.std.specs.Prelude.{◌≡◌, ◌+◌, ◌<◌, ◌==◌, ◌∷◌, ◌++◌, [], All, IfOk, OnOk, length};
ghost use Rattle.std.specs.List.{list_any};
ghost use Rattle.pat_tree.specs.Nested.{trees};
ghost use Rattle.pat_tree.specs.Parts.{tree_of};
ghost use Rattle.pat_tree.specs.Rules.{kids_of, number_in, tests_of};
ghost use Rattle.pat_lengths.specs.Leading.{Grows, IsBegun, names_of, places_of};
ghost use Rattle.pat_lengths.specs.Lengths as lengths;
ghost use Rattle.pat_lengths.specs.Passing.{IsGroupTable};

use crate::behind::place_at;
use crate::groups::Groups;
use pat_tree::{Cond, Memory, Node, NodeId, Tree};
use std::alloc::Global;

/// The nodes that a search has come to.
#[derive(Drop)]
struct Reached {
    /// By number.
    seen: Vec<bool>,
    /// In the order in which it came to them.
    nodes: Vec<NodeId>,
}

impl Reached {
    fn new(alloc: Global, count: usize) -> Result<Reached, Memory>
        ensures { IfOk result (IsBegun count) }
    {
        let mut seen = Vec::new(alloc);
        for _ in 0..count {
            seen.push(false)?;
        }
        Ok(Reached {
            seen,
            nodes: Vec::new(alloc),
        })
    }

    fn add(&mut self, id: NodeId) -> Result<(), Memory>
        requires { id < length self.old.seen.items }
        ensures { OnOk result (Grows self.old self.new (id ∷ [])) }
    {
        if self.seen[id as usize] {
            return Ok(());
        }
        self.seen[id as usize] = true;
        self.nodes.push(id)?;
        Ok(())
    }

    fn add_all(&mut self, ids: &[NodeId]) -> Result<(), Memory>
        requires { All (λ k. k < length self.old.seen.items) ids.now }
        ensures { OnOk result (Grows self.old self.new ids.now) }
    {
        for id in ids {
            self.add(*id)?;
        }
        Ok(())
    }

    fn add_if(&mut self, id: Option<NodeId>) -> Result<(), Memory>
        requires { All (λ k. k < length self.old.seen.items) (number_in id) }
        ensures { OnOk result (Grows self.old self.new (number_in id)) }
    {
        match id {
            Some(id) => self.add(id),
            None => Ok(()),
        }
    }

    fn add_test(&mut self, test: &Cond) -> Result<(), Memory>
        requires { All (λ k. k < length self.old.seen.items) (tests_of test.now) }
        ensures { OnOk result (Grows self.old self.new (tests_of test.now)) }
    {
        match test {
            Cond::Assert(test) => self.add(*test),
            _ => Ok(()),
        }
    }

    fn add_branches(&mut self, test: &Cond, yes: NodeId, no: Option<NodeId>) -> Result<(), Memory>
        requires { All (λ k. k < length self.old.seen.items)
            (tests_of test.now ++ yes ∷ number_in no) }
        ensures { OnOk result (Grows self.old self.new (tests_of test.now ++ yes ∷ number_in no)) }
    {
        self.add_test(test)?;
        self.add(yes)?;
        self.add_if(no)
    }

    fn add_kids(&mut self, node: &Node) -> Result<(), Memory>
        requires { All (λ k. k < length self.old.seen.items) (kids_of node.now) }
        ensures { OnOk result (Grows self.old self.new (kids_of node.now)) }
    {
        match node {
            Node::Seq(kids) => self.add_all(kids.as_slice()),
            Node::Group { branches, .. } => self.add_all(branches.as_slice()),
            Node::Repeat { body, .. } => self.add(*body),
            Node::Atomic(branches) => self.add_all(branches.as_slice()),
            Node::Look { branches, .. } => self.add_all(branches.as_slice()),
            Node::Cond { test, yes, no } => self.add_branches(test, *yes, *no),
            _ => Ok(()),
        }
    }

    fn add_groups(&mut self, groups: &Groups, numbers: &[u16]) -> Result<(), Memory>
        requires { All (λ k. k < length self.old.seen.items)
            (places_of groups.now.places.items numbers.now) }
        ensures { OnOk result
            (Grows self.old self.new (places_of groups.now.places.items numbers.now)) }
    {
        for number in numbers {
            self.add_if(groups.place(*number))?;
        }
        Ok(())
    }

    fn add_named(&mut self, groups: &Groups, node: &Node) -> Result<(), Memory>
        requires { All (λ k. k < length self.old.seen.items)
            (places_of groups.now.places.items (names_of node.now)) }
        ensures { OnOk result
            (Grows self.old self.new (places_of groups.now.places.items (names_of node.now))) }
    {
        match node {
            Node::Call { group } => self.add_if(groups.place(*group)),
            Node::Ref { groups: named, .. } => self.add_groups(groups, named.as_slice()),
            _ => Ok(()),
        }
    }

    /// Comes to the children of a node and to the groups that it names.
    fn go_on(&mut self, groups: &Groups, node: &Node) -> Result<(), Memory>
        requires kids { All (λ k. k < length self.old.seen.items) (kids_of node.now) }
        requires places { All (λ k. k < length self.old.seen.items)
            (places_of groups.now.places.items (names_of node.now)) }
        ensures { OnOk result (Grows self.old self.new
            (kids_of node.now ++ places_of groups.now.places.items (names_of node.now))) }
    {
        self.add_kids(node)?;
        self.add_named(groups, node)
    }
}

/// Whether a call or a reference names the group.
fn names(node: &Node, target: usize) -> bool
    ensures { result ≡ list_any (λ n. n == target) (names_of node.now) }
{
    match node {
        Node::Call { group } => *group as usize == target,
        Node::Ref { groups, .. } => groups
            .as_slice()
            .iter()
            .any(|group| *group as usize == target),
        _ => false,
    }
}

/// Whether a group leads to itself. A search comes to each node once, and so takes no longer than there are nodes.
pub(crate) fn comes_back(
    alloc: Global,
    tree: &Tree,
    groups: &Groups,
    target: usize,
) -> Result<bool, Memory>
    requires { IsGroupTable (trees tree.now.nodes) tree.now.root (tree_of tree.now) groups.now }
    ensures { IfOk result (λ back. back ≡ lengths.leads_back (tree_of tree.now) target) }
{
    let mut reached = Reached::new(alloc, tree.root() as usize + 1)?;
    reached.add_if(place_at(&groups.places, target))?;
    for next in 0..reached.seen.len() {
        let Some(id) = reached.nodes.get(next) else {
            return Ok(false);
        };
        let node = tree.node(*id);
        if names(node, target) {
            return Ok(true);
        }
        reached.go_on(groups, node)?;
    }
    Ok(false)
}
