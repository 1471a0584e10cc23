//! A finished tree.
ghost use Rattle.std.specs.Prelude.{true, nat_eq, ◌≡◌, ◌<◌, ◌≤◌, All, length, slice_index_or, slice_get, Some};
ghost use Rattle.pat_tree.specs.Nested.{trees, tree_at, nest};
ghost use Rattle.pat_tree.specs.Rules.{kids_of, numbers_of};
ghost use Rattle.pat_tree.specs.Names.{AreInOrder};
ghost use Rattle.pat_tree.specs.Refs.{named_by, has_group};
ghost use Rattle.pat_tree.specs.Sound.{TreeRules, NodeRules, children, group_numbers, greatest};
ghost use Rattle.std.specs.List.{IsDistinct};

use crate::lists::Word;
use crate::names::NameTable;
use crate::nodes::{ClassSpec, Node, NodeId, Placed};
use crate::options::Options;
use std::marker::Model;

/// A finished tree.
#[derive(Debug, Drop)]
pub struct Tree {
    options: Options,
    nodes: Vec<Placed>,
    classes: Vec<ClassSpec>,
    names: NameTable,
    verb_names: Vec<Word>,
    root: NodeId,
    groups: u16,
}

impl Model for Tree {
    ghost use Rattle.pat_tree.specs.Parts.{TreeParts};
    ghost use Rattle.pat_tree.specs.Sound.{TreeRules, group_numbers, greatest};
    ghost use Rattle.std.specs.Prelude.{◌≡◌};

    ghost Value = { TreeParts };

    ghost view = { λ t. record {
      options = t.options;
      nodes = t.nodes.items;
      classes = t.classes.items;
      names = t.names;
      verb_names = t.verb_names.items;
      root = t.root;
    } };

    ghost invariant = { λ t. TreeRules
        (record {
          options = t.options;
          nodes = t.nodes.items;
          classes = t.classes.items;
          names = t.names;
          verb_names = t.verb_names.items;
          root = t.root;
        })
        × (t.groups ≡ greatest (group_numbers t.nodes.items)) };
}

impl Tree {
    /// The tree of its parts.
    pub(crate) fn of(
        options: Options,
        nodes: Vec<Placed>,
        classes: Vec<ClassSpec>,
        names: NameTable,
        verb_names: Vec<Word>,
        root: NodeId,
    ) -> Tree
        requires { TreeRules
            (record {
              options = options;
              nodes = nodes.items;
              classes = classes.items;
              names = names;
              verb_names = verb_names.items;
              root = root;
            }) }
        ensures { result
            ≡ record {
              options = options;
              nodes = nodes.items;
              classes = classes.items;
              names = names;
              verb_names = verb_names.items;
              root = root;
            } }
    {
        let groups = greatest_group(&nodes);
        Tree {
            options,
            nodes,
            classes,
            names,
            verb_names,
            root,
            groups,
        }
    }

    /// The node of a number. Its tree is made of its children's; these have smaller numbers and no other parent.
    pub fn node(&self, id: NodeId) -> &Node
        requires { id ≤ self.now.root }
        ensures here { (other : _) → result.now ≡ (slice_index_or self.now.nodes id other).node }
        ensures is { nest (trees self.now.nodes) result.now ≡ tree_at (trees self.now.nodes) id }
        ensures below { All (λ k. k < id) (kids_of result.now) }
        ensures rules { NodeRules (length self.now.classes) (length self.now.verb_names)
            self.now.nodes result.now }
        ensures stand { All (λ n. has_group self.now.nodes n ≡ true) (named_by result.now) }
        ensures once { IsDistinct nat_eq (children self.now.nodes) }
        ensures grouped { All (λ n. n ≤ greatest (group_numbers self.now.nodes))
            (numbers_of result.now) }
    {
        let placed = &self.nodes[id as usize];
        &placed.node
    }

    /// A node's place in the pattern.
    pub fn at(&self, id: NodeId) -> u32
        requires { id ≤ self.now.root }
        ensures { (other : _) → result ≡ (slice_index_or self.now.nodes id other).at }
    {
        self.nodes[id as usize].at
    }

    /// Each finished tree keeps the rules of its nodes, its names and the groups that they name.
    pub fn is_sound(&self)
        ensures { TreeRules self.now }
    {
        // What is kept of a value is known once one of its fields was read.
        let _root = &self.root;
    }

    /// The number of the whole tree's node.
    pub fn root(&self) -> NodeId
        ensures { result ≡ self.now.root }
    {
        self.root
    }

    /// The greatest number of a capturing group, 0 if there is none.
    pub fn groups(&self) -> u32
        ensures greatest { result ≡ greatest (group_numbers self.now.nodes) }
        ensures few { result ≤ 65535 }
    {
        self.groups as u32
    }

    /// The names of groups.
    pub fn names(&self) -> &NameTable
        ensures is { result.now ≡ self.now.names }
        ensures stand { All (λ entry. has_group self.now.nodes entry.group ≡ true) self.now.names }
        ensures ordered { AreInOrder self.now.names }
    {
        &self.names
    }

    /// How many classes there are. They are numbered from 0.
    pub fn classes(&self) -> u32
        ensures { result ≡ length self.now.classes }
    {
        self.classes.len() as u32
    }

    /// The class of a number.
    pub fn class(&self, id: u32) -> &ClassSpec
        requires { id < length self.now.classes }
        ensures { slice_get self.now.classes id ≡ Some result.now }
    {
        &self.classes[id as usize]
    }

    /// How many names of verbs there are. They are numbered from 0.
    pub fn verb_names(&self) -> u32
        ensures { result ≡ length self.now.verb_names }
    {
        self.verb_names.len() as u32
    }

    /// The verb's name of a number.
    pub fn verb_name(&self, id: u32) -> &[u8]
        requires { id < length self.now.verb_names }
        ensures { slice_get self.now.verb_names id ≡ Some result.now }
    {
        self.verb_names[id as usize].bytes()
    }

    /// The options of the pattern.
    pub fn options(&self) -> &Options
        ensures { result.now ≡ self.now.options }
    {
        &self.options
    }
}

/// The greatest number of a capturing group, 0 if there is none.
fn greatest_group(nodes: &[Placed]) -> u16
    ensures { result ≡ greatest (group_numbers nodes.now) }
{
    let mut most = 0;
    let mut i = nodes.len();
    while i > 0 {
        i -= 1;
        most = most.max(number_of(&nodes[i].node));
    }
    most
}

/// The number of a capturing group, 0 for another node.
fn number_of(node: &Node) -> u16
    ensures { result ≡ greatest (numbers_of node.now) }
{
    match node {
        Node::Group {
            number: Some(number),
            ..
        } => *number,
        _ => 0,
    }
}
