//! The graph of a tree.
ghost use Rattle.std.specs.Prelude.{◌≡◌, ◌||◌, ◌<◌, ◌≤◌, Err, None, IfOk, IfErr, length};
ghost use Rattle.dfa_paths.specs.Fragment.{IsGraphOf};
ghost use Rattle.dfa_graph.specs.Building.{tree_of};
ghost use Rattle.dfa_graph.specs.Served.{refusal, IsRefused};
ghost use Rattle.pat_grammar.specs.Nesting.{nesting};
ghost use Rattle.pat_lengths.specs.Backs.{AreBacks, first_fault};
ghost use Rattle.pat_lengths.specs.Nodes.{has_lookbehind};
ghost use Rattle.pat_lengths.specs.Lengths.{can_be_empty};
ghost use Rattle.pat_check.specs.Size.{size};
ghost use Rattle.pat_check.specs.Support.{dfa_support};

use crate::build::place_tree;
use dfa_paths::Node;
use pat_check::{DfaSupport, Facts};
use pat_tree::{Memory, Tree};
use std::alloc::Global;
use std::marker::Model;

/// The graph of a tree, which contracts see as its states and whether reaching the subject's end
/// counts wherever a match begins.
#[derive(Debug, Drop)]
pub struct Graph {
    nodes: Vec<Node>,
    /// The pattern has a lookbehind or can be empty.
    always: bool,
}

impl Model for Graph {
    ghost use Rattle.dfa_paths.specs.Fragment.{GraphParts};

    ghost Value = { GraphParts };

    ghost view = { λ graph. record { nodes = graph.nodes.items; always = graph.always } };
}

/// Why there is no graph of a tree.
#[derive(Clone, Copy, Debug, PartialEq, Eq)]
pub enum GraphError {
    /// The pattern holds an item that isn't supported: a reference, a call, `\K`, a verb but FAIL, or a
    /// lookaround that isn't atomic (PCRE2_ERROR_DFA_UITEM).
    Item,
    /// The pattern holds a condition that isn't supported: on a group, or on the recursion of a group
    /// (PCRE2_ERROR_DFA_UCOND).
    Cond,
    /// The pattern has more than 65,536 nodes with its repeats written out. So is a tree whose atomic
    /// groups and lookarounds stand more than 512 deep in each other, which no pattern is that was
    /// read, since at most 250 parentheses are nested in it.
    TooLarge,
    /// Want of memory.
    Memory,
}

impl From<Memory> for GraphError {
    ghost use Rattle.std.specs.Prelude.{◌≡◌};
    ghost use Rattle.dfa_graph.specs.declared.making.GraphError.TheVariants as told;

    ghost from_gives = { λ _ e. e ≡ told.Memory };

    fn from(_e: Memory) -> GraphError {
        GraphError::Memory
    }
}

impl Graph {
    /// The graph of a tree. What isn't supported is refused, the leftmost item deciding; then a tree
    /// that is too large.
    ///
    /// Needs the facts of the tree, of which no lookbehind is refused.
    pub fn build(alloc: Global, tree: &Tree, facts: &Facts) -> Result<Graph, GraphError>
        requires size { facts.now.size ≡ size (tree_of tree.now.nodes tree.now.root) }
        requires dfa { facts.now.dfa ≡ dfa_support (tree_of tree.now.nodes tree.now.root) }
        requires empty { facts.now.can_be_empty
            ≡ can_be_empty tree.now.options.match_unset_backref
            (tree_of tree.now.nodes tree.now.root) }
        requires lookbehind { facts.now.has_lookbehind
            ≡ has_lookbehind (tree_of tree.now.nodes tree.now.root) }
        requires backs { AreBacks tree.now facts.now.backs }
        requires fixed { first_fault tree.now ≡ None }
        ensures graph { IfOk result (λ graph. IsGraphOf (length tree.now.classes) graph
            (tree_of tree.now.nodes tree.now.root)) }
        ensures served { IfOk result (λ _. refusal (tree_of tree.now.nodes tree.now.root) ≡ None) }
        ensures refused { IfErr result (IsRefused (tree_of tree.now.nodes tree.now.root)) }
        ensures large { result ≡ Err GraphError.TooLarge
            → nesting (tree_of tree.now.nodes tree.now.root) ≤ 512
            → 65536 < size (tree_of tree.now.nodes tree.now.root) }
    {
        match facts.dfa {
            DfaSupport::Item => return Err(GraphError::Item),
            DfaSupport::Cond => return Err(GraphError::Cond),
            DfaSupport::Yes => {}
        }
        if facts.size > MOST_NODES {
            return Err(GraphError::TooLarge);
        }
        match place_tree(alloc, tree, &facts.backs)? {
            Some(nodes) => Ok(Graph {
                nodes,
                always: counts_always(facts),
            }),
            None => Err(GraphError::TooLarge),
        }
    }

    /// The states.
    pub fn states(&self) -> &[Node]
        ensures { result.now ≡ self.now.nodes }
    {
        self.nodes.as_slice()
    }

    /// Whether reaching the subject's end counts wherever a match begins: the pattern has a lookbehind
    /// or can be empty (pcre2partial, "Partial matching in PCRE2").
    pub fn always(&self) -> bool
        ensures { result ≡ self.now.always }
    {
        self.always
    }
}

/// Whether reaching the subject's end counts wherever a match begins.
fn counts_always(facts: &Facts) -> bool
    ensures { result ≡ (facts.now.has_lookbehind || facts.now.can_be_empty) }
{
    facts.has_lookbehind || facts.can_be_empty
}

/// How many nodes a tree has at most, with its repeats written out.
const MOST_NODES: u32 = 65_536;
