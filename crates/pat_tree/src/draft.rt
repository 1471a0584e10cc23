//! A tree in the making.
ghost use Rattle.std.specs.List.{list_all};
ghost use Rattle.std.specs.Prelude.{true, if◌then◌else◌, ℕ, ◌||◌, ◌≡◌, ◌+◌, ◌<◌, ◌≤◌, [], ◌∷◌, ◌++◌, length, IfOk};
ghost use Rattle.std.specs.Prelude.{OnOk, OnErr, All, MatchResult, Some, None};
ghost use Rattle.pat_tree.specs.Nested.{trees, tree_at, nest};
ghost use Rattle.pat_tree.specs.Parts.{with_node, with_class, with_verb_name, with_root};
ghost use Rattle.pat_tree.specs.Names.{with_name};
ghost use Rattle.pat_tree.specs.Rules.{number_in, kids_of, asserted_by, classes_of, verb_names_of, numbers_of};
ghost use Rattle.pat_tree.specs.Rules.{IsNamed, IsOrdered, IsDefine, is_test};
ghost use Rattle.pat_tree.specs.Refs.{refs, refs_of, named_by, is_called, is_group, has_group, marked, bad_ref};
ghost use Rattle.pat_tree.specs.Refs.{least_of};
ghost use Rattle.pat_tree.specs.Growing.{Makes, loose, without, is_fresh, Replaces};

use crate::group_set::GroupSet;
use crate::lists::Word;
use crate::memory::Memory;
use crate::names::{NameEntry, NameTable};
use crate::nodes::{ClassSpec, Cond, Node, NodeId, Placed};
use crate::options::Options;
use crate::tree::Tree;
use std::alloc::Global;
use std::marker::Model;

/// A tree in the making: its nodes, classes, names and verb names in the order of adding.
#[derive(Debug, Drop)]
pub struct Draft {
    alloc: Global,
    options: Options,
    nodes: Vec<Placed>,
    /// The capturing groups among the nodes.
    groups: GroupSet,
    classes: Vec<ClassSpec>,
    names: NameTable,
    verb_names: Vec<Word>,
}

impl Model for Draft {
    ghost use Rattle.pat_tree.specs.Parts.{DraftParts};
    ghost use Rattle.std.specs.Prelude.{◌≡◌, ℕ};
    ghost use Rattle.pat_tree.specs.Refs.{has_group, marked};
    ghost use Rattle.pat_tree.specs.Sound.{DraftRules};

    ghost Value = { DraftParts };

    ghost view = { λ d. record {
      options = d.options;
      nodes = d.nodes.items;
      classes = d.classes.items;
      names = d.names;
      verb_names = d.verb_names.items;
    } };

    ghost invariant = { λ d. DraftRules
        (record {
          options = d.options;
          nodes = d.nodes.items;
          classes = d.classes.items;
          names = d.names;
          verb_names = d.verb_names.items;
        })
        × ((n : ℕ) → marked d.groups n ≡ has_group d.nodes.items n) };
}

impl Draft {
    /// A draft with these options and nothing else. Takes no memory.
    pub fn new(alloc: Global, options: Options) -> Draft
        ensures { result
            ≡ record { options = options; nodes = []; classes = []; names = []; verb_names = [] } }
    {
        Draft {
            alloc,
            options,
            nodes: Vec::new(alloc),
            groups: GroupSet::new(alloc),
            classes: Vec::new(alloc),
            names: NameTable::new(alloc),
            verb_names: Vec::new(alloc),
        }
    }

    /// Adds a node and answers its number. `at` is its place in the pattern. What it names was added before, and no
    /// other node has its children. The draft is unchanged after a refusal.
    pub fn add(&mut self, node: Node, at: u32) -> Result<NodeId, Memory>
        requires room { length self.old.nodes < 4294967295 }
        requires kids { All (λ k. k < length self.old.nodes) (kids_of node) }
        requires fresh { is_fresh (loose self.old.nodes) (kids_of node) ≡ true }
        requires classes { All (λ n. n < length self.old.classes) (classes_of node) }
        requires verb_names { All (λ n. n < length self.old.verb_names) (verb_names_of node) }
        requires numbered { All (λ n. 1 ≤ n) (numbers_of node) }
        requires named { IsNamed node }
        requires ordered { IsOrdered node }
        requires define { IsDefine node }
        requires test { All (λ k. is_test (tree_at (trees self.old.nodes) k) ≡ true)
            (asserted_by node) }
        ensures grows { OnOk result
            (self.new ≡ with_node self.old (record { node = node; at = at })) }
        ensures number { IfOk result (λ id. id ≡ length self.old.nodes) }
        ensures count { OnOk result (length self.new.nodes ≡ length self.old.nodes + 1) }
        ensures made { IfOk result
            (λ id. Makes self.old.nodes self.new.nodes id (nest (trees self.old.nodes) node)) }
        ensures refs { OnOk result
            (refs self.new.nodes ≡ refs self.old.nodes
            ++ refs_of (record { node = node; at = at })) }
        ensures loose { OnOk result
            (loose self.new.nodes ≡ without (kids_of node) (loose self.old.nodes)
            ++ length self.old.nodes ∷ []) }
        ensures replaces { IfOk result
            (λ id. Replaces self.old.nodes (kids_of node) self.new.nodes id) }
        ensures groups { OnOk result
            ((n : ℕ) → has_group self.new.nodes n
            ≡ (has_group self.old.nodes n || is_group n node)) }
        ensures refused { OnErr result (self.new ≡ self.old) }
    {
        let id = self.nodes.len() as u32;
        let number = group_number(&node);
        self.groups.reserve(number)?;
        self.nodes.push(Placed { node, at })?;
        self.groups.insert_reserved(number);
        Ok(id)
    }

    /// Adds a class and answers its number. The draft is unchanged after a refusal.
    pub fn add_class(&mut self, spec: ClassSpec) -> Result<u32, Memory>
        requires room { length self.old.classes < 4294967295 }
        ensures grows { OnOk result (self.new ≡ with_class self.old spec) }
        ensures number { IfOk result (λ id. id ≡ length self.old.classes) }
        ensures refused { OnErr result (self.new ≡ self.old) }
    {
        let id = self.classes.len() as u32;
        self.classes.push(spec)?;
        Ok(id)
    }

    /// Adds a verb's name and answers its number. The draft is unchanged after a refusal.
    pub fn add_verb_name(&mut self, name: &[u8]) -> Result<u32, Memory>
        requires room { length self.old.verb_names < 4294967295 }
        ensures grows { OnOk result (self.new ≡ with_verb_name self.old name.now) }
        ensures number { IfOk result (λ id. id ≡ length self.old.verb_names) }
        ensures refused { OnErr result (self.new ≡ self.old) }
    {
        let id = self.verb_names.len() as u32;
        let word = Word::from_vec(name.to_vec(self.alloc)?);
        self.verb_names.push(word)?;
        Ok(id)
    }

    /// Gives a group a name: puts the pair in its place by the name's bytes, then by the group. A pair that is there
    /// changes nothing. The draft is unchanged after a refusal.
    pub fn add_name(&mut self, name: &[u8], group: u16) -> Result<(), Memory>
        requires room { length self.old.names < 4294967295 }
        ensures named { OnOk result
            (self.new
            ≡ record self.old {
              names = with_name (record { name = name.now; group = group })
                  self.old.names;
            }) }
        ensures refused { OnErr result (self.new ≡ self.old) }
    {
        self.names.add(self.alloc, name, group)
    }

    /// The names that were given so far, by their bytes, then by the group.
    pub fn names(&self) -> &[NameEntry]
        ensures { result.now ≡ self.now.names }
    {
        self.names.entries()
    }

    /// The tree of a root, where each reference, condition and call of the nodes names groups that stand on a node.
    /// Else the leftmost that does not is told. Takes no memory.
    pub fn finish(self, root: NodeId) -> Result<Tree, BadRef>
        requires root { root < length self.nodes }
        requires names { All (λ entry. has_group self.nodes entry.group ≡ true) self.names }
        ensures { MatchResult result
            (λ tree. (tree ≡ with_root self root)
            × (bad_ref (has_group self.nodes) (refs self.nodes) ≡ None))
            (λ bad. bad_ref (has_group self.nodes) (refs self.nodes) ≡ Some bad.at) }
    {
        match leftmost_bad(&self.nodes, &self.groups) {
            Some(at) => Err(BadRef { at }),
            None => {
                let Draft {
                    alloc: _,
                    options,
                    nodes,
                    groups: _,
                    classes,
                    names,
                    verb_names,
                } = self;
                Ok(Tree::of(options, nodes, classes, names, verb_names, root))
            }
        }
    }
}

/// A reference, condition or call names no group.
#[derive(Clone, Copy, Debug, PartialEq, Eq)]
pub struct BadRef {
    /// The leftmost place of one in the pattern.
    pub at: u32,
}

/// The number of a capturing group.
fn group_number(node: &Node) -> Option<u16>
    ensures { number_in result ≡ numbers_of node.now }
{
    match node {
        Node::Group { number, .. } => *number,
        _ => None,
    }
}

/// Whether each group that a node names stands on a node.
#[tactic(auto, using(crate::proofs::Named::call_stands, crate::proofs::Named::stand_beside))]
fn names_groups(groups: &GroupSet, node: &Node) -> bool
    ensures { result ≡ list_all (marked groups.now) (named_by node.now) }
{
    match node {
        Node::Ref { groups: named, .. } => all_stand(groups, named.as_slice()),
        Node::Cond {
            test: Cond::AnySet(named),
            ..
        } => all_stand(groups, named.as_slice()),
        Node::Cond {
            test: Cond::InCallOf(named),
            ..
        } => all_stand_or_whole(groups, named.as_slice()),
        Node::Call { group } => stands_or_whole(groups, *group),
        _ => true,
    }
}

fn all_stand(groups: &GroupSet, named: &[u16]) -> bool
    ensures { result ≡ list_all (marked groups.now) named.now }
{
    named.iter().all(|group| groups.has(*group))
}

/// As `all_stand`, but 0 is the whole pattern.
fn all_stand_or_whole(groups: &GroupSet, named: &[u16]) -> bool
    ensures { result ≡ list_all (is_called (marked groups.now)) named.now }
{
    named.iter().all(|group| stands_or_whole(groups, *group))
}

#[tactic(auto, unfolding(crate::specs::Refs::is_called))]
fn stands_or_whole(groups: &GroupSet, group: u16) -> bool
    ensures { result ≡ is_called (marked groups.now) group }
{
    group == 0 || groups.has(group)
}

/// The leftmost place of a node that names a group that stands on no node; these are the groups.
fn leftmost_bad(nodes: &[Placed], groups: &GroupSet) -> Option<u32>
    requires { (n : ℕ) → marked groups.now n ≡ has_group nodes.now n }
    ensures { result ≡ bad_ref (has_group nodes.now) (refs nodes.now) }
{
    leftmost_outside(nodes, groups)
}

/// The leftmost place of a node that names a group outside the set.
fn leftmost_outside(nodes: &[Placed], groups: &GroupSet) -> Option<u32>
    ensures { result ≡ bad_ref (marked groups.now) (refs nodes.now) }
{
    let mut leftmost = None;
    let mut i = nodes.len();
    while i > 0 {
        i -= 1;
        let placed = &nodes[i];
        leftmost = with_place(names_groups(groups, &placed.node), placed.at, leftmost);
    }
    leftmost
}

/// The lesser of a place and another one, where the place is bad.
fn with_place(is_good: bool, at: u32, leftmost: Option<u32>) -> Option<u32>
    ensures { result ≡ (if is_good then leftmost else Some (least_of at leftmost)) }
{
    if is_good {
        return leftmost;
    }
    match leftmost {
        Some(other) => Some(at.min(other)),
        None => Some(at),
    }
}
