// The capturing groups of a pattern.
ghost use Rattle.std.specs.Prelude.{◌≡◌, ℕ, ◌+◌, ◌^◌, ◌<◌, ◌≤◌, ◌∷◌, ◌||◌, All, List, IfOk, is_some, length, map};
ghost use Rattle.std.specs.Prelude.{slice_set};
ghost use Rattle.pat_tree.specs.Nested.{Nested, trees, tree_at, nest};
ghost use Rattle.pat_tree.specs.Rules.{number_in, numbers_of};
ghost use Rattle.pat_tree.specs.Sound.{greatest, group_numbers};
ghost use Rattle.pat_tree.specs.Parts.{tree_of};
ghost use Rattle.pat_lengths.specs.Nodes.{all_nodes};
ghost use Rattle.pat_lengths.specs.Passing.{ArePlaced, AreGroups, IsGroupTable, called_place, place_of, capture_number};

use pat_tree::{Memory, Node, NodeId, Tree};
use std::alloc::Global;

/// Where the first group of each number stands, how many groups there are, and whether two have one number.
#[derive(Drop)]
pub struct Groups {
    /// By number. Group 0 is the whole pattern.
    pub places: Vec<Option<NodeId>>,
    pub count: usize,
    pub shared: bool,
}

impl Groups {
    /// Where the group of a number stands, if there is one.
    pub fn place(&self, number: u16) -> Option<NodeId>
        ensures { result ≡ place_of self.now.places.items number }
    {
        match self.places.get(number as usize) {
            Some(place) => *place,
            None => None,
        }
    }

    /// Takes in a node that stands before those seen.
    fn see(&mut self, tree: &Tree, id: NodeId)
        requires below { id ≤ tree.now.root }
        requires room { length self.old.places.items ≡ greatest (group_numbers tree.now.nodes) + 1 }
        requires few { self.old.count + 1 < 2 ^ 64 }
        ensures are { (nodes : List Nested)
            → AreGroups (trees tree.now.nodes) tree.now.root self.old nodes
            → AreGroups (trees tree.now.nodes) tree.now.root self.new
            (tree_at (trees tree.now.nodes) id ∷ nodes) }
        ensures placed { (ids : List ℕ)
            → ArePlaced (trees tree.now.nodes) ids self.old.places.items
            → ArePlaced (trees tree.now.nodes) (id ∷ ids) self.new.places.items }
        ensures room { length self.new.places.items ≡ length self.old.places.items }
        ensures one { self.new.count ≤ self.old.count + 1 }
    {
        if let Some(number) = number_of(tree.node(id)) {
            self.put(number, id);
        }
    }

    /// Takes in the whole pattern as group 0.
    fn put_whole(&mut self, root: NodeId)
        requires { 0 < length self.old.places.items }
        ensures places { self.new.places.items ≡ slice_set self.old.places.items 0 (Some root) }
        ensures count { self.new.count ≡ self.old.count }
        ensures shared { self.new.shared ≡ self.old.shared }
    {
        self.places[0] = Some(root);
    }

    fn put(&mut self, number: u16, id: NodeId)
        requires room { number < length self.old.places.items }
        requires few { self.old.count + 1 < 2 ^ 64 }
        ensures places { self.new.places.items ≡ slice_set self.old.places.items number (Some id) }
        ensures count { self.new.count ≡ self.old.count + 1 }
        ensures shared { self.new.shared
            ≡ (is_some (place_of self.old.places.items number) || self.old.shared) }
    {
        let again = self.places[number as usize].is_some();
        self.shared = again || self.shared;
        self.places[number as usize] = Some(id);
        self.count += 1;
    }
}

/// The number of a capturing group.
pub(crate) fn number_of(node: &Node) -> Option<u16>
    ensures own { number_in result ≡ numbers_of node.now }
    ensures told { (trees : List Nested) → result ≡ capture_number (nest trees node.now) }
{
    match node {
        Node::Group { number, .. } => *number,
        _ => None,
    }
}

/// The table of a pattern's groups. `order` has its nodes, each before its children.
pub fn group_table(alloc: Global, tree: &Tree, order: &[NodeId]) -> Result<Groups, Memory>
    requires below { All (λ k. k ≤ tree.now.root) order.now }
    requires nodes { map (tree_at (trees tree.now.nodes)) order.now ≡ all_nodes (tree_of tree.now) }
    ensures table { IfOk result
        (IsGroupTable (trees tree.now.nodes) tree.now.root (tree_of tree.now)) }
    ensures places { IfOk result (λ groups. (n : ℕ)
        → place_of groups.places.items n
        ≡ called_place (trees tree.now.nodes) tree.now.root order.now n) }
{
    let mut groups = groups_of(alloc, tree, order)?;
    groups.put_whole(tree.root());
    Ok(groups)
}

/// The groups of these nodes.
fn groups_of(alloc: Global, tree: &Tree, order: &[NodeId]) -> Result<Groups, Memory>
    requires below { All (λ k. k ≤ tree.now.root) order.now }
    ensures are { IfOk result (λ groups.
        AreGroups (trees tree.now.nodes) tree.now.root groups
        (map (tree_at (trees tree.now.nodes)) order.now)) }
    ensures placed { IfOk result (λ groups.
        ArePlaced (trees tree.now.nodes) order.now groups.places.items) }
    ensures room { IfOk result (λ groups.
        length groups.places.items ≡ greatest (group_numbers tree.now.nodes) + 1) }
{
    let mut groups = Groups {
        places: no_places(alloc, tree.groups())?,
        count: 0,
        shared: false,
    };
    let mut i = order.len();
    while i > 0 {
        i -= 1;
        groups.see(tree, order[i]);
    }
    Ok(groups)
}

fn no_places(alloc: Global, greatest: u32) -> Result<Vec<Option<NodeId>>, Memory>
    requires { greatest ≤ 65535 }
    ensures none { IfOk result (λ places. (n : ℕ) → place_of places.items n ≡ None) }
    ensures room { IfOk result (λ places. length places.items ≡ greatest + 1) }
{
    let mut places = Vec::new(alloc);
    for _ in 0..greatest + 1 {
        places.push(None)?;
    }
    Ok(places)
}
