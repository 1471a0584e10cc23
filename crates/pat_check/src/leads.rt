// The bytes that a pattern may begin with, from its parts up.
ghost use Rattle.std.specs.Prelude.{◌≡◌, ℕ, ◌+◌, ◌<◌, true, All, List, IfOk, length};
ghost use Rattle.pat_tree.specs.Nested.{Nested, trees, tree_at, nest};
ghost use Rattle.pat_tree.specs.Parts.{tree_of};
ghost use Rattle.pat_tree.specs.Rules.{kids_of, classes_of, asserted_by, is_test};
ghost use Rattle.char_sets.specs.Table.{IsTableOf};
ghost use Rattle.pat_check.specs.Known.{IsByteSet};
ghost use Rattle.pat_check.specs.Lead.{SomeLead};
ghost use Rattle.pat_check.specs.Starts.{FoldsIn, IsSomeLead, KeepLeads, known_set, lead_in};

use crate::item_bytes::{break_bytes, item_bytes};
use crate::starts::{Start, begin, in_turn, one_of, one_of_condition, passed, repeated};
use byte_lanes::ByteSet;
use char_sets::ClassTable;
use pat_tree::{Memory, Node, Tree};
use std::alloc::Global;

/// The bytes that every match begins with, where they are known and each match takes one, apart from ACCEPT.
pub(crate) fn lead_set(
    alloc: Global,
    tree: &Tree,
    classes: &ClassTable,
) -> Result<Option<ByteSet>, Memory>
    requires table { IsTableOf tree.now classes.now }
    ensures { (fold : ℕ → ℕ) → FoldsIn tree.now.options.utf fold
        → IfOk result (λ set.
        IsByteSet set (known_set (lead_in tree.now fold (tree_of tree.now)))) }
{
    let starts = leads(alloc, tree, classes)?;
    Ok(known_set(&starts[tree.root() as usize]))
}

/// The bytes of a start that isn't passed.
fn known_set(start: &Option<Start>) -> Option<ByteSet>
    ensures { (x : SomeLead) → IsSomeLead start.now x → IsByteSet result (known_set x) }
{
    match start {
        Some(start) if !start.passing => Some(start.bytes.copied()),
        _ => None,
    }
}

/// The first bytes of each node up to the root.
fn leads(alloc: Global, tree: &Tree, classes: &ClassTable) -> Result<Vec<Option<Start>>, Memory>
    requires table { IsTableOf tree.now classes.now }
    ensures count { IfOk result (λ starts. length starts.items ≡ tree.now.root + 1) }
    ensures kept { (fold : ℕ → ℕ) → FoldsIn tree.now.options.utf fold
        → IfOk result (λ starts. KeepLeads tree.now fold (trees tree.now.nodes) starts.items) }
{
    let mut starts = Vec::with_capacity(alloc, tree.root() as usize + 1)?;
    for id in 0..tree.root() as u64 + 1 {
        let start = lead_of(tree, classes, tree.node(id as u32), &starts);
        starts.push(start)?;
    }
    Ok(starts)
}

/// The first bytes of a node, by those of its children.
fn lead_of(
    tree: &Tree,
    classes: &ClassTable,
    node: &Node,
    starts: &[Option<Start>],
) -> Option<Start>
    requires table { IsTableOf tree.now classes.now }
    requires classes { All (λ n. n < length classes.now) (classes_of node.now) }
    requires below { All (λ k. k < length starts.now) (kids_of node.now) }
    ensures { (fold : ℕ → ℕ) → FoldsIn tree.now.options.utf fold → (trees : List Nested)
        → All (λ k. is_test (tree_at trees k) ≡ true) (asserted_by node.now)
        → KeepLeads tree.now fold trees starts.now
        → IsSomeLead result (lead_in tree.now fold (nest trees node.now)) }
{
    match node {
        Node::One(item) => begin(item_bytes(tree, classes, item)),
        Node::Break => begin(break_bytes(tree.options().bsr, tree.options().utf)),
        Node::Seq(kids) => in_turn(kids.as_slice(), starts),
        Node::Group { branches, .. } => one_of(branches.as_slice(), starts),
        Node::Repeat { body, min, max, .. } => repeated(&starts[*body as usize], *min, *max),
        Node::OneRepeat { item, min, max, .. } => {
            let once = begin(item_bytes(tree, classes, item));
            repeated(&once, *min, *max)
        }
        Node::Atomic(branches) => one_of(branches.as_slice(), starts),
        Node::Cond { test, yes, no } => one_of_condition(test, *yes, *no, starts),
        Node::Call { .. } => None,
        Node::Ref { .. } => None,
        _ => passed(),
    }
}
